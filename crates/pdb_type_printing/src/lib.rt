//! Printing types: the texts of types on their own, with the texts before and after them; and the
//! pieces of these texts: names, pointers, brackets, the text between arguments, the flags that say
//! what is printed and how, and the path of indices to a type.
//!
//! How a type is gone through, and how a piece is appended, may change. A text (`specs/Types`) may
//! not, but for a difference from the ported crate that docs/DIFFERENCES.md names, nor the numbers
//! of flags, which are those of the ported crate.
#![tactic(auto)]

mod argument_pieces;
mod arguments;
mod asker;
mod brackets;
mod elements;
mod flags;
mod index_path;
mod levels;
mod names;
mod objects;
mod path;
mod pointers;
mod printer;
mod runs;
mod text;
mod types;
mod words;

pub use argument_pieces::{emit_comma, emit_copies, leaves_out_arguments};
pub use asker::Asker;
pub use bitflags::Flags;
pub use brackets::{emit_brackets, first_or_zero};
pub use flags::TypeFormatterFlags;
pub use index_path::IndexPath;
pub use names::{
    class_word, emit_name, emit_named, emit_primitive, emit_string, emit_unhandled,
    emit_unhandled_id,
};
pub use objects::{emit_constant_object, emit_static, this_behind};
pub use path::{AlreadySeenError, Seen};
pub use pdb_module_items::ItemReader;
pub use pointers::{PointerLevel, emit_pointers, ends_in_sigil, leading_to, level_of};
pub use printer::TypePrinter;
pub use runs::{ArgumentRun, first_and_more, first_run, run_within};
pub use text::{emit, emit_missing, emit_unread};
pub use words::{
    emit_bare_function, emit_bare_method, emit_between_strings, emit_constant, emit_scope_end,
    shown_return,
};
