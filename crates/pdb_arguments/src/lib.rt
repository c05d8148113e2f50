//! The program's arguments, read by `clap`: the task that they ask for, or what is reported in its
//! place.
//!
//! An option may be added, with its row in `specs/Task` and its line in the manual page. The
//! arguments that stand there may not change: scripts give these words.
#![tactic(auto)]

mod command;
mod reading;
mod task;
mod telling;

pub use reading::read_words;
pub use task::{Task, WordsFault};
pub use telling::{TextOutput, tell_words};
