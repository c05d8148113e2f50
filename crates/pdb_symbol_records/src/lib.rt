//! CodeView symbols of a program and of its modules: their lists, the form of each symbol, and the
//! binary annotations of inline sites (`S_INLINESITE`), which say where an inlined call's code lies
//! and of which lines it was made. The layouts are those of microsoft-pdb's cvinfo.h (for
//! annotations BinaryAnnotationOpcode, as the pdb crate reads them) and of LLVM's CodeView Symbol
//! Records.
//!
//! Another kind of symbol may be added. What a symbol that is there says (`specs/Records`) may not
//! change.
#![tactic(auto)]

mod annotation;
mod annotations;
mod inline_site;
pub mod kinds;
pub mod laws;
mod parse_symbol;
mod symbol;
mod symbol_data;
mod symbol_iter;
mod symbol_table;

pub use annotation::BinaryAnnotation;
pub use annotations::{BinaryAnnotations, BinaryAnnotationsIter};
pub use inline_site::InlineSiteSymbol;
pub use symbol::Symbol;
pub use symbol_data::{
    ProcedureSymbol, PublicSymbol, SeparatedCodeSymbol, SymbolData, ThunkSymbol,
};
pub use symbol_iter::SymbolIter;
pub use symbol_table::SymbolTable;
