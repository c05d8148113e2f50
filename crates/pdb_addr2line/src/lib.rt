//! Program databases, each loaded once, from its bytes ([`Symbolizer`]) or from a file that is read
//! on demand ([`FileSymbolizer`]); and the values that are made of a database that is held:
//! formatters of types, and contexts, which answer their addresses. Of a context, what was read of
//! a module or a procedure, the names of functions and where functions begin are cached; what was
//! asked before shows in no answer.
//!
//! The amount that is read of a file, how often it is asked again and what a context caches may
//! change. The fault that keeps a file from being loaded may not, nor may answers, nor the names of
//! calls, which are those of the crate pdb-addr2line where it has them.
//!
//! A symbolizer refuses a database whose address map is out of order. A [`ContextPdbData`] is read
//! once over any source, and modules of a file when they are first asked for; contexts and
//! formatters are made of what is held then. A context is asked:
//!
//! ```rust
//! if let Some(found) = context.find_frames(rt.alloc(), address)? {
//!     for frame in found.frames.iter() {
//!         tell_frame(rt, frame)?;
//!     }
//! }
//! ```
//!
//! A formatter is asked in the same way:
//!
//! ```rust
//! let text = formatter.format_function(rt.alloc(), "read", 0, TypeIndex(0x1007))?;
//! let size = formatter.get_type_size(rt.alloc(), 0, TypeIndex(0x1016))?;
//! ```
//!
//! Names of functions are made with the default flags, or with others:
//!
//! ```rust
//! let flags = TypeFormatterFlags::default() | TypeFormatterFlags::NO_ARGUMENTS;
//! let mut context = symbolizer.context_with_flags(rt.alloc(), flags)?;
//! ```
//!
//! | to | call |
//! |---|---|
//! | load a file that is in memory | [`Symbolizer::open`], `open_with_order` |
//! | have a context or a formatter over it | [`Symbolizer::context`], `type_formatter` |
//! | load a file that is read on demand | [`FileSymbolizer::open`], `open_with_flags` |
//! | ask it for frames | [`FileSymbolizer::find_frames`], `find_frames_run` |
//! | have a formatter over it | [`FileSymbolizer::type_formatter`] |
//! | ask it by what was read | `find_held_shared_frames`, then `go_on` |
//! | ask its context more than one question | `take_context`, `put_context`, `go_on` |
//! | ask for modules before they are needed | `ask`, `ask_between`, `ask_all` |
//! | see which image a database belongs to | [`FileOnDemand::identity`], [`Symbolizer::identity`] |
//! | have what is held of it | [`FileSymbolizer::held`], [`Symbolizer::held`] |
//! | hold a file's database | [`ContextPdbData::try_from_file`] |
//! | read a database over a source of another kind | `try_from_pdb`, `try_from_pdb_ref` |
//! | read what a context made of parts needs | [`read_tables`], [`Context::new_from_parts`] |
//! | make a context | `make_context` |
//! | make one with flags in place of the default ones | `make_context_with_formatter_flags` |
//! | make one of a database that GNU ld before 2.44 wrote | `make_context_with_order` |
//! | make one over other modules | [`Context::into_parts`], `make_context_over` |
//! | ask whose module's stream a question needs | [`Context::module_at`], `modules_between` |
//! | ask for the frames at an address | [`Context::find_frames`] |
//! | ask for them without copies of names | [`Context::find_shared_frames`] |
//! | ask for the function at an address | [`Context::find_function`] |
//! | go over all functions | [`Context::functions`] |
//! | ask how far one function goes | [`Context::find_function_run`] |
//! | ask for the source file of a function, and how far it goes | [`Context::find_file_run`] |
//! | ask for the frames at a place, and how far they go | [`Context::find_frames_run`] |
//! | ask for these without copies of names | [`Context::find_shared_frames_run`] |
//! | make a formatter | `make_type_formatter`, `make_type_formatter_with_flags` |
//! | have the text of a function | [`TypeFormatter::format_function`] |
//! | have the text of an inlined function's id | `format_id` |
//! | write these texts | `emit_function`, `emit_id` |
//! | have the size of a type | [`TypeFormatter::get_type_size`] |
//! | read the database itself | [`pdb`] |
#![tactic(auto)]

mod context;
mod file_frames;
mod file_on_demand;
mod file_runs;
mod file_symbolizer;
mod frame_runs;
mod function_starts;
mod functions;
mod identity;
mod modules;
pub mod pdb;
mod pdb_data;
mod symbolizer;

pub use context::Context;
pub use file_frames::FileFramesFault;
pub use file_on_demand::FileOnDemand;
pub use file_symbolizer::{FileContext, FileSymbolizer, Held, NotLoaded, TRIES};
pub use functions::FunctionIter;
pub use pdb_answers::{ContextParts, ModuleSectionContribution, maybe_owned};
pub use pdb_data::ContextPdbData;
pub use pdb_image::PdbIdentity;
pub use pdb_loading::{
    ContributionOrder, FileFault, KeptModules, LoadFault, Tables, read_file, read_tables,
};
pub use pdb_names::{TextWriter, TypeFormatter};
pub use pdb_owners::{
    FileAnswer, Frame, FrameRow, Function, FunctionFrames, SharedFrame, SharedFunctionFrames,
};
pub use pdb_resolving::{Error, ModuleProvider, Result};
pub use pdb_type_printing::{Flags, TypeFormatterFlags};
pub use symbolizer::Symbolizer;
