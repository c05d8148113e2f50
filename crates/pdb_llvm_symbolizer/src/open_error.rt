//! Why a file can't be loaded.

use pdb_addr2line::{FileFault, LoadFault};
use pdb_image::{ImageError, RecordFault};
use std::alloc::{AllocError, AllocFailed};
use std::io::{self, ErrorKind};
use thiserror::Error;

/// Why an image or a database can't be loaded. It prints as it is reported.
#[derive(Debug, Drop, Error)]
pub enum OpenError {
    /// The file can't be read: why.
    #[error("{0}")]
    File(&'static str),
    /// The database of an image, at that path, can't be read: why.
    #[error("'{0}': {1}")]
    DatabaseFile(String, &'static str),
    /// The file begins as an image does, and isn't one.
    #[error("{0}")]
    Image(ImageError),
    /// The image has no record of its database.
    #[error("the image names no PDB")]
    NoDatabase,
    /// The database has another identity than the image says.
    #[error("the PDB is of another build")]
    OtherBuild,
    /// The database isn't loaded, or memory ran out.
    #[error("{0}")]
    Load(LoadFault),
}

impl OpenError {
    /// Whether memory ran out.
    pub fn is_out_of_memory(&self) -> bool {
        matches!(self, OpenError::Load(LoadFault::OutOfMemory))
    }
}

impl From<ImageError> for OpenError {
    fn from(cause: ImageError) -> OpenError {
        OpenError::Image(cause)
    }
}

impl From<RecordFault> for OpenError {
    fn from(cause: RecordFault) -> OpenError {
        match cause {
            RecordFault::File(error) => OpenError::from(error),
            RecordFault::Image(error) => OpenError::Image(error),
        }
    }
}

impl From<pdb_addr2line::pdb::Error> for OpenError {
    fn from(cause: pdb_addr2line::pdb::Error) -> OpenError {
        OpenError::Load(LoadFault::from(cause))
    }
}

impl From<FileFault> for OpenError {
    fn from(cause: FileFault) -> OpenError {
        match cause {
            FileFault::Load(fault) => OpenError::Load(fault),
            FileFault::File(kind) => OpenError::from(io::Error::from(kind)),
        }
    }
}

impl From<AllocError> for OpenError {
    fn from(_cause: AllocError) -> OpenError {
        OpenError::Load(LoadFault::OutOfMemory)
    }
}

impl<T: Drop> From<AllocFailed<T>> for OpenError {
    fn from(_cause: AllocFailed<T>) -> OpenError {
        OpenError::Load(LoadFault::OutOfMemory)
    }
}

impl From<io::Error> for OpenError {
    fn from(cause: io::Error) -> OpenError {
        match reason(&cause) {
            Some(reason) => OpenError::File(reason),
            None => OpenError::Load(LoadFault::OutOfMemory),
        }
    }
}

/// Why a file can't be read, as the system says it, or that it isn't a regular file; None where
/// memory ran out.
pub fn reason(error: &io::Error) -> Option<&'static str> {
    match error.kind() {
        ErrorKind::OutOfMemory => None,
        ErrorKind::NotFound => Some("No such file or directory"),
        ErrorKind::IsADirectory => Some("Is a directory"),
        ErrorKind::PermissionDenied => Some("Permission denied"),
        // No call of the system fails with this kind: it is that of `open_regular`.
        ErrorKind::Other => Some("Not a regular file"),
        _ => Some("Input/output error"),
    }
}
