//! Lines of a report with the names of functions as people read them: a writer that takes a report
//! and writes it with its decorated names undecorated.
//!
//! The way in which lines are gathered may change. The text that is written for a line that has no
//! decorated name may not: it is this line.

mod lines;
mod writer;

pub use lines::ReportKind;
pub use writer::UndecoratedWriter;
