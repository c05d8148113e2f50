//! Why a listing isn't written.

use pdb_addr2line::{FileFault, LoadFault};
use std::alloc::{AllocError, AllocFailed, Global};
use std::fmt;
use std::io::ErrorKind;

/// Why a listing isn't written. It prints as it is reported.
#[derive(Drop)]
pub enum Fault {
    /// A file can't be read: its path, and why.
    Read(String, &'static str),
    /// A file is no database that can be loaded: its path, and why.
    Load(String, LoadFault),
    /// A file is no image: its path, and why.
    Image(String, String),
    /// The output can't be written.
    Write,
    /// Out of memory.
    OutOfMemory,
}

impl fmt::Display for Fault {
    fn fmt<W: fmt::Write>(&self, f: &mut fmt::Formatter<W>) -> fmt::Result {
        match self {
            Fault::Read(path, why) => write!(f, "cannot read {path}: {why}"),
            Fault::Load(path, why) => write!(f, "cannot load {path}: {why}"),
            Fault::Image(path, why) => write!(f, "cannot read the image {path}: {why}"),
            Fault::Write => write!(f, "cannot write to standard output"),
            Fault::OutOfMemory => write!(f, "out of memory"),
        }
    }
}

impl From<AllocError> for Fault {
    fn from(_cause: AllocError) -> Fault {
        Fault::OutOfMemory
    }
}

impl<T: Drop> From<AllocFailed<T>> for Fault {
    fn from(_cause: AllocFailed<T>) -> Fault {
        Fault::OutOfMemory
    }
}

/// A fault of loading a file, with its path.
pub fn load_fault(alloc: Global, path: &str, fault: LoadFault) -> Fault {
    match (fault, String::from_str(alloc, path)) {
        (LoadFault::OutOfMemory, _) | (_, Err(_)) => Fault::OutOfMemory,
        (fault, Ok(path)) => Fault::Load(path, fault),
    }
}

/// A fault of a file that is read on demand, with its path.
pub fn file_fault(alloc: Global, path: &str, fault: FileFault) -> Fault {
    match fault {
        FileFault::Load(fault) => load_fault(alloc, path, fault),
        FileFault::File(kind) => read_fault(alloc, path, kind),
    }
}

/// A fault of reading a file, with its path.
pub fn read_fault(alloc: Global, path: &str, kind: ErrorKind) -> Fault {
    match (reason(kind), String::from_str(alloc, path)) {
        (None, _) | (_, Err(_)) => Fault::OutOfMemory,
        (Some(reason), Ok(path)) => Fault::Read(path, reason),
    }
}

/// Why a file can't be read, as the system says it; `None` where memory ran out.
fn reason(kind: ErrorKind) -> Option<&'static str> {
    match kind {
        ErrorKind::OutOfMemory => None,
        ErrorKind::NotFound => Some("No such file or directory"),
        ErrorKind::IsADirectory => Some("Is a directory"),
        ErrorKind::NotADirectory => Some("Not a directory"),
        ErrorKind::PermissionDenied => Some("Permission denied"),
        ErrorKind::InvalidFilename => Some("File name too long"),
        ErrorKind::FilesystemLoop => Some("Too many levels of symbolic links"),
        _ => Some("Input/output error"),
    }
}
