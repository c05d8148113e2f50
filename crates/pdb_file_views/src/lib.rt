//! A file that is read on demand: the bytes that were read of it so far ([`FileViews`]), and a
//! source of the file's bytes ([`FileSource`]), which answers a view that wasn't read yet by
//! `OutOfMemory` and notes it ([`Wanted`]). Whoever asks reads the wanted views, and asks again.
//!
//! The bytes that are read ahead, and how they are held, may change. It may not change that a view
//! has bytes of the file, or is wanted and refused.
//!
//! No contract can say what a file holds. Each says what holds for a list of bytes that agrees with
//! everything that was read, such as the bytes of a file that nobody writes to.
#![tactic(auto)]

mod block_marks;
mod file_reach;
mod file_source;
mod file_views;
mod slices;
mod view_source;
mod wanted;

pub use file_reach::reach;
pub use file_source::{FileLimits, FileSource};
pub use file_views::{FileView, FileViews};
pub use view_source::ViewSource;
pub use wanted::Wanted;
