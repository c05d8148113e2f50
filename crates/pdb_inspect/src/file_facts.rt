//! What a database's file says of itself.

use crate::fault::{Fault, file_fault, read_fault};
use pdb_addr2line::{FileOnDemand, PdbIdentity};
use std::alloc::Global;
use std::io;
use std::os::unix::fs::FileExt;

/// What a database's file says of itself.
#[derive(Clone, Copy)]
pub struct FileFacts {
    /// The identity of the database.
    pub identity: PdbIdentity,
    /// The size of a page of its container, in bytes.
    pub page_size: u32,
    /// How many streams it has.
    pub streams: u32,
}

/// The number of the four bytes at a place of a file.
fn word_of(file: &impl FileExt, place: u64) -> io::Result<u32> {
    let mut bytes = [0u8; 4];
    file.read_exact_at(&mut bytes, place)?;
    Ok(u32::from_le_bytes(bytes))
}

/// The number of the four bytes at the beginning of a page of a file.
fn word_of_page(file: &impl FileExt, page_size: u32, page: u32) -> io::Result<u32> {
    word_of(file, u64::from(page_size).saturating_mul(u64::from(page)))
}

/// The page size of a container, in bytes, and how many streams it has: the first number of its
/// directory, whose first page is named by the page of page numbers that the header names.
fn pages_of(file: &impl FileExt) -> io::Result<(u32, u32)> {
    let page_size = word_of(file, 32)?;
    let list = word_of(file, 52)?;
    let first = word_of_page(file, page_size, list)?;
    let streams = word_of_page(file, page_size, first)?;
    Ok((page_size, streams))
}

/// What a database's file says of itself.
///
/// # Errors
/// `Read`, `Load`, `OutOfMemory`.
pub fn facts_of<F: FileExt + Drop>(
    alloc: Global,
    path: &str,
    source: &mut FileOnDemand<'_, F>,
) -> Result<FileFacts, Fault> {
    let identity = match source.identity(alloc) {
        Ok(identity) => identity,
        Err(fault) => return Err(file_fault(alloc, path, fault)),
    };
    match pages_of(&source.file) {
        Ok((page_size, streams)) => Ok(FileFacts {
            identity,
            page_size,
            streams,
        }),
        Err(error) => Err(read_fault(alloc, path, error.kind())),
    }
}
