//! The offset up to which a file may be read.

use pdb_container::{may_be_container, pages_end};
use std::io::{self, ErrorKind};
use std::os::unix::fs::FileExt;

/// The number of bytes of a file that say where its pages end.
const FRONT: usize = 44;

/// The number of bytes in which the header and its list of pages lie.
const HEADER_VIEW: u64 = 4096;

/// The offset up to which a file of `size` bytes may be read: to the end of its pages; a file that
/// is no container no further than a header. The bytes after it are part of no stream.
///
/// # Errors
/// The errors of the file.
pub fn reach<F: FileExt>(file: &F, size: u64) -> io::Result<u64> {
    let mut front = [0u8; FRONT];
    match file.read_exact_at(&mut front, 0) {
        Ok(()) if may_be_container(&front) => Ok(size.min(pages_end(&front).max(HEADER_VIEW))),
        Err(error) if error.kind() != ErrorKind::UnexpectedEof => Err(error),
        _ => Ok(size.min(HEADER_VIEW)),
    }
}
