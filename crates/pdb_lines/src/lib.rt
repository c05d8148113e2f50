//! Lines of a module's code (`DEBUG_S_LINES`), the files that they are in (`DEBUG_S_FILECHKSMS`),
//! and inlinees (`DEBUG_S_INLINEELINES`): inlined functions, and the rows of their calls. The
//! layouts are those of microsoft-pdb's cvinfo.h, as the pdb crate reads them.
//!
//! How marks are sorted and searched and rows gone over may change. Which rows there are, how long
//! each is and in which file (`specs/LineRows`, `specs/InlinedRows`), may not.
#![tactic(auto)]

mod annotation_state;
mod checksum;
mod inlinee;
mod inlinee_line_iterator;
mod line_iterator;
mod line_mark;
mod line_marks;
mod line_program;
mod lines_block;
mod lines_subsection;

pub use checksum::{FileChecksum, FileInfo, FileIterator};
pub use inlinee::{Inlinee, InlineeIterator};
pub use inlinee_line_iterator::InlineeLineIterator;
pub use line_iterator::LineIterator;
pub use line_program::LineProgram;
