//! The input and the output of `llvm-symbolizer` 19. As it reads them: the words of its arguments,
//! and lines of a command, a file, and an address, with the address's RVA in its image. As it
//! writes them: the texts of answers.
//!
//! The ways in which a line is gone through and a text is put together may change. The question of
//! a line may not, nor any byte of a text, but to be what `llvm-symbolizer` 19 takes it for, or
//! writes.
//!
//! Not read, beside `llvm-symbolizer`: the name of a symbol in place of an address, which is
//! [`RequestFault::SymbolName`]. A carriage return ends a word, where `llvm-symbolizer` drops each
//! one of a line: at the end of a line that is the same.
//!
//! [`report_frames`] makes frames as they are reported from frames as they were found.
//! [`append_frames`] writes their text, by [`TextOptions`]. Other calls (`append_error`,
//! `append_no_data`, `append_no_locals`) write the text of a request that has no frames. The column
//! of a frame's line is the column of the row that gives the line ([`column_for`]).
#![tactic(auto)]

mod columns;
mod image_address;
mod json;
mod module_names;
mod number;
mod option_words;
mod options;
mod plain;
mod reported;
mod request;
mod texts;
mod words;

pub use columns::{column_for, has_columns};
pub use image_address::rva_of;
pub use module_names::{split_identity, without_architecture};
pub use number::parse_number;
pub use option_words::{Flag, OptionWord, Setting, read_option};
pub use options::{Style, TextOptions};
pub use reported::{Asked, OwnFrame, ReportOptions, ReportedFrame, report_frame, report_frames};
pub use request::{
    Command, LineForm, LineRequest, RequestFault, RequestedFile, before_nul, read_request,
};
pub use texts::{append_error, append_frames, append_no_data, append_no_locals};
pub use words::are_hexadecimal;
