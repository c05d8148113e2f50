//! The function that is chosen at a place: a procedure, or an entry of the public list. Then its
//! answers: the name of the function, the frames in it, and its file; which part of an answer can't
//! be read, and how far one answer goes on. Nothing is cached between questions.
//!
//! The search of a place may change, and the order in which things are found. What is chosen at a
//! place (`specs/Choice`), and which name, frames and file it has (`specs/FramesAt`,
//! `specs/FileRuns`) may not, since each answer is stated by them.
#![tactic(auto)]

mod choice;
mod chosen_name;
mod failures;
mod file_runs;
mod frame_runs;
mod frames;
pub mod laws;
mod parts;
mod runs;

pub use choice::{Chosen, FunctionEnd, choose};
pub use chosen_name::name_of;
pub use failures::failing_in;
pub use file_runs::{Stretch, file_named, file_run_in};
pub use frame_runs::frames_count_in;
pub use frames::{PlaceInFunction, check_frames, frames_in};
pub use parts::ContextParts;
pub use pdb_names::{Namer, maybe_owned};
pub use pdb_resolving::{Failures, Part, number_of};
pub use runs::{to_next_bound, to_next_shared_bound};
