//! Formatters: texts of functions and ids (signatures, functions in their scopes, strings) and
//! sizes of types; and the names of functions from a formatter, which are cached.
//!
//! The way in which a text is put together may change, and so may the names that are cached, and
//! for how long. A text and a size may not, but for a difference from the ported crate that
//! docs/DIFFERENCES.md names, nor may the names of calls, which are those of the ported crate's
//! formatter.
#![tactic(auto)]

mod by_module;
mod by_number;
mod calls;
mod formatter;
mod ids;
mod inline_names;
pub mod maybe_owned;
mod namer;
mod names;
mod printed_texts;
mod printer;
mod signatures;
mod texts;
mod typed_names;
mod writer;

pub use formatter::TypeFormatter;
pub use namer::Namer;
pub use names::{if_named, shared_raw_name};
pub use texts::{function_text_of, id_text_of};
pub use writer::TextWriter;
