//! Functions and source files that own addresses: each as it is answered, and its order; the frames
//! at an address in a function; and the number of addresses of a range that each owns. Addresses
//! are counted by runs, with at most one lookup for each piece. Reports of these numbers are
//! written, too.
//!
//! The way in which runs are counted may change, by at most one lookup for each piece. The owner of
//! an address, and a report's bytes and order, may not.
#![tactic(auto)]

mod countable;
mod file_answer;
mod file_key;
mod frames;
mod function;
mod function_key;
pub mod laws;
mod runs;
mod shared_frames;
mod sizes;
mod table;
mod text;

pub use countable::Countable;
pub use file_answer::{CountedFile, FileAnswer};
pub use file_key::FileKey;
pub use frames::{Frame, FrameRow, FunctionFrames};
pub use function::Function;
pub use function_key::FunctionKey;
pub use runs::Runs;
pub use shared_frames::{SharedFrame, SharedFunctionFrames, owned_name};
pub use sizes::{Sizes, count_keys, count_runs};
pub use table::Counts;
pub use text::{by_file_text, sizes_text};
