//! The reasons that the reading of a name ends.

use std::alloc::{AllocError, AllocFailed};

/// The result of a step of reading or printing a name, or the reason that it ends.
pub(crate) type Result<T> = std::result::Result<T, Stop>;

/// The reason that the reading of a name ends.
#[derive(Clone, Copy)]
pub(crate) enum Stop {
    /// The name isn't decorated, or its text passes a limit.
    Undecorated,
    /// Memory ran out.
    OutOfMemory,
}

impl From<AllocError> for Stop {
    fn from(_e: AllocError) -> Stop {
        Stop::OutOfMemory
    }
}

impl<T: Drop> From<AllocFailed<T>> for Stop {
    fn from(_e: AllocFailed<T>) -> Stop {
        Stop::OutOfMemory
    }
}
