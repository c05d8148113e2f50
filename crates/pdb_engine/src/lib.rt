//! Answers the lines of an input: it reads them, asks for their answers, and writes each answer. It
//! also reads the address that a line or an argument stands for, and counts the failures of readers
//! and writers.
//!
//! The amounts that are read, made and gathered at once may change. What is written when a run
//! ends, and what an address is, may not: reports promise it.
#![tactic(auto)]

mod address;
mod answers;
mod engine;
mod fault;
mod line_start;
mod output;
mod requests;
mod watched;

pub use address::parse_address;
pub use answers::Answers;
pub use engine::{run, write_all};
pub use fault::{InputFault, write_fault};
pub use line_start::{AddressStart, LineStart, LongStart};
pub use output::ErrorOutput;
pub use requests::Request;
pub use watched::Watched;
