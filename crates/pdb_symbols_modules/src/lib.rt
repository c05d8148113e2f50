//! An open program database: its information, its modules with their streams and their
//! contributions, the sections and addresses of its image, and the tables and lists to which its
//! streams lead. The layouts are those of LLVM's The PDB DBI Stream and The Module Information
//! Stream, and of microsoft-pdb's dbi.h, as the pdb crate reads them.
//!
//! How streams are found and held may change. What a stream says, and the names of calls, which are
//! those of the pdb crate where it has them, may not.
//!
//! A database is opened over a file's bytes, its modules are gone over, and the content of each:
//!
//! ```rust
//! let mut database = PDB::open(rt.alloc(), bytes)?;
//! ```
//!
//! ```rust
//! let debug_information = database.debug_information(rt.alloc())?;
//! ```
//!
//! ```rust
//! while let Some(module) = modules.next()? {
//!     list_module(rt, database, &module, names)?;
//! }
//! ```
//!
//! ```rust
//! println!(rt; "{}", module.raw_module_name())?;
//! match database.module_info(rt.alloc(), module)? {
//!     None => Ok(()),
//!     Some(info) => list_procedures(rt, &info, names),
//! }
//! ```
//!
//! `list_lines.rt` in the program `example_calls` has all of it.
#![tactic(auto)]

mod contributions;
mod dbi;
mod information;
pub mod laws;
mod machine;
mod module_info;
mod modules;
mod name_block;
mod optional_header;
mod pdb;
mod stream_index;

pub use contributions::{DBISectionContribution, DBISectionContributionIter};
pub use dbi::DebugInformation;
pub use information::{PDBInformation, StreamName, StreamNames};
pub use machine::MachineType;
pub use module_info::ModuleInfo;
pub use modules::{Module, ModuleIter};
pub use optional_header::{
    OMAP_FROM_SOURCE, OMAP_TO_SOURCE, ORIGINAL_SECTION_HEADERS, SECTION_HEADERS,
};
pub use pdb::PDB;
pub use pdb_lines::{
    FileChecksum, FileInfo, FileIterator, Inlinee, InlineeIterator, InlineeLineIterator,
    LineIterator, LineProgram,
};
pub use pdb_subsections::{
    CrossModuleExport, CrossModuleExportIter, CrossModuleExports, CrossModuleImports,
    CrossModuleRef, LineInfo, LineInfoKind, ModuleRef,
};
pub use pdb_symbol_records::{
    BinaryAnnotation, BinaryAnnotations, BinaryAnnotationsIter, InlineSiteSymbol, ProcedureSymbol,
    PublicSymbol, SeparatedCodeSymbol, Symbol, SymbolData, SymbolIter, SymbolTable, ThunkSymbol,
};
pub use stream_index::StreamIndex;
