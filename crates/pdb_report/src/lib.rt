//! Reports from a program database: it is loaded, and the answer to each line of an input is
//! written, or the number of addresses of a range that each function has; the texts of answers, and
//! the fault with which a run ends early.
//!
//! The amounts that are read, cached and made ahead may change, and how a text is put together, as
//! long as a fault takes no memory. A report's bytes, its faults, and what is out at each of them
//! may not: scripts and the laws of whole files stand on them.
//!
//! A [`Symbolizer`] is a file that was loaded, and a context of it is asked:
//!
//! ```rust
//! match Symbolizer::open(rt.alloc(), bytes) {
//!     Ok(symbolizer) => Ok(symbolizer),
//!     Err(fault) => bail!("{file}: {fault}"),
//! }
//! ```
//!
//! ```rust
//! if let Some(found) = context.find_frames(rt.alloc(), address)? {
//!     for frame in found.frames.iter() {
//!         tell_frame(rt, frame)?;
//!     }
//! }
//! ```
//!
//! | to | call |
//! |---|---|
//! | load a file once, for many questions | [`Symbolizer::open`], [`Symbolizer::context`] |
//! | write the answers to lines of addresses | [`run_frames`] |
//! | write them in a process that ends after that | [`run_frames_ending`] |
//! | write them of a database of GNU ld before 2.44, too | [`run_frames_with_order`] |
//! | write them as JSON Lines | [`run_frames_in`], [`run_file_frames_in`] with [`JsonLines`] |
//! | write how many addresses of a range each function has | [`run_sizes`] |
//! | write how many of them each source file has | [`run_sizes_by_file`] |
//! | ask a file that is read on demand for frames | [`FileSymbolizer::open`], [`find_frames`] |
//! | write reports by it | [`run_file_frames`], [`run_file_sizes`], [`run_file_sizes_by_file`] |
//! | read an address, as a line of input has it | [`parse_address`] |
//! | read a file's pages, or the first 32 bytes of what is no container | [`read_file`] |
//! | have the failures of a reader or a writer counted | [`Watched`] |
//! | report how a run ended, and with which status | [`finish_run`] |
//! | see what is proved of whole files | [`laws`] |
//!
//! The further answers of a context, and the formatter of types, are in `pdb_addr2line`.
//!
//! [`find_frames`]: FileSymbolizer::find_frames
#![tactic(auto)]

mod counted;
mod digits;
mod fault;
mod file_report;
mod file_sizes;
mod finish;
mod forms;
mod json;
pub mod laws;
mod lines;
mod report;
mod sizes;
mod texts;
mod told;

pub use fault::RunFault;
pub use file_report::{FileRun, run_file_frames, run_file_frames_in};
pub use file_sizes::{FileSizes, run_file_sizes, run_file_sizes_by_file};
pub use finish::finish_run;
pub use forms::{JsonLines, LineForm, TextLines};
pub use pdb_addr2line::{
    Context, Error, FileFramesFault, FileOnDemand, FileSymbolizer, NotLoaded, Symbolizer,
};
pub use pdb_engine::{ErrorOutput, Watched, parse_address};
pub use pdb_loading::{ContributionOrder, LoadFault, read_file};
pub use report::{
    AtEnd, answer_lines, run_frames, run_frames_ending, run_frames_in, run_frames_with_order,
};
pub use sizes::{
    Tally, run_sizes, run_sizes_by_file, run_sizes_by_file_with_order, run_sizes_with_order,
};
