use std::alloc::{AllocError, AllocFailed};
use std::num::TryFromIntError;

/// The result of making a sample.
pub type Result<T> = std::result::Result<T, SampleError>;

/// The reason that a sample could not be made.
#[derive(Debug, Clone, Copy, PartialEq, Eq)]
pub enum SampleError {
    /// Memory ran out.
    OutOfMemory,
    /// A number, a name or a page of the description does not fit its place in the format.
    DoesNotFit,
}

impl From<AllocError> for SampleError {
    fn from(_error: AllocError) -> Self {
        SampleError::OutOfMemory
    }
}

impl<T: Drop> From<AllocFailed<T>> for SampleError {
    fn from(_error: AllocFailed<T>) -> Self {
        SampleError::OutOfMemory
    }
}

impl From<TryFromIntError> for SampleError {
    fn from(_error: TryFromIntError) -> Self {
        SampleError::DoesNotFit
    }
}
