//! The text of a decorated name of Visual C++, as `llvm-undname` 19 prints it.
//!
//! The making of a text may change; the text may not, unless `llvm-undname` 19 prints it otherwise.
//! The crate stands on no other one, and is to stay so.
#![tactic(auto)]

mod answer;
mod arguments;
mod budget;
mod bytes;
mod c_names;
mod characters;
mod flags;
mod functions;
mod intrinsics;
pub mod laws;
mod letters;
mod literals;
mod methods;
mod names;
mod numbers;
mod operators;
mod parser;
mod print_identifiers;
mod print_symbols;
mod print_types;
mod printer;
mod qualifiers;
mod references;
mod stop;
mod symbols;
mod tasks;
mod tree;
mod types;
mod words;

pub use answer::{Demangled, demangle};
pub use c_names::c_name;
pub use flags::{DemangleFlags, FULL_TEXT, SHORT_TEXT};
