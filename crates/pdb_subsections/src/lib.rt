//! The debug subsections (C13) of a module's line data, their rows of lines, and the types and ids
//! that a module takes from other modules (`DEBUG_S_CROSSSCOPEIMPORTS`) and gives to them
//! (`DEBUG_S_CROSSSCOPEEXPORTS`). Kinds and layouts are those of microsoft-pdb's cvinfo.h
//! (DEBUG_S_SUBSECTION_TYPE), as the pdb crate reads them; LLVM's The Module Information Stream
//! places them.
//!
//! Another kind may be added. What a subsection that is there says (`specs/Subsections`,
//! `specs/Imports`, `specs/Exports`) may not change.
#![tactic(auto)]

mod exports;
mod imports;
pub mod laws;
mod line_info;
mod subsection;

pub use exports::{CrossModuleExport, CrossModuleExportIter, CrossModuleExports};
pub use imports::{CrossModuleImports, CrossModuleRef, ModuleRef};
pub use line_info::{LineInfo, LineInfoKind};
pub use subsection::{
    CROSS_MODULE_EXPORTS, CROSS_MODULE_IMPORTS, DebugSubsection, DebugSubsectionIterator,
    FILE_CHECKSUMS, INLINEE_LINES, LINES, find_subsection,
};
