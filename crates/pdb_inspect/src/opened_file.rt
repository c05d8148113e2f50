//! A database's file: a regular one is read at places, any other one was read from its beginning
//! on.

use crate::fault::{Fault, read_fault};
use bumpalo::Bump;
use pdb_addr2line::{ContributionOrder, FileOnDemand, read_file};
use pdb_file_views::reach;
use std::alloc::Global;
use std::fs;
use std::fs::OpenFile;
use std::io::{self, ErrorKind};
use std::os::unix::fs::FileExt;
use std::rt::Files;

/// A file that is open.
#[derive(Drop)]
pub enum OpenedFile<F: Drop> {
    /// A file that is read at places.
    Regular(F),
    /// The bytes of another one, such as a pipe or a device.
    Read(Vec<u8>),
}

impl<F: FileExt + Drop> FileExt for OpenedFile<F> {
    fn read_at(&self, buf: &mut [u8], offset: u64) -> io::Result<usize> {
        let bytes = match self {
            OpenedFile::Regular(file) => return file.read_at(buf, offset),
            OpenedFile::Read(bytes) => bytes.as_slice(),
        };
        let rest = bytes.get(offset as usize..).unwrap_or(&[]);
        let count = rest.len().min(buf.len());
        buf[..count].copy_from_slice(&rest[..count]);
        Ok(count)
    }

    fn write_at(&self, _buf: &[u8], _offset: u64) -> io::Result<usize> {
        Err(ErrorKind::Unsupported.into())
    }
}

/// The size of a file that can be read at any place, in bytes; `None` of any other, such as a pipe
/// or a device, and of one that says that it has no byte, such as those of `/proc`.
fn size_of(file: &impl OpenFile) -> Option<u64> {
    match file.metadata() {
        Ok(metadata) if metadata.is_file() && metadata.len() > 0 => Some(metadata.len()),
        _ => None,
    }
}

/// A file at a path, with its size in bytes.
fn open_at<S: Files + AllocGlobal>(rt: &S, path: &str) -> io::Result<(OpenedFile<S::File>, u64)>
where
    S::File: FileExt,
{
    let mut file = fs::open(rt, path)?;
    if let Some(size) = size_of(&file) {
        let size = reach(&file, size)?;
        return Ok((OpenedFile::Regular(file), size));
    }
    let bytes = read_file(rt.alloc(), &mut file)?;
    let size = bytes.len() as u64;
    Ok((OpenedFile::Read(bytes), size))
}

/// Opens the file at a path. Section contributions may stand in any order.
///
/// # Errors
/// `Read`, `OutOfMemory`.
pub fn open<'a, S: Files + AllocGlobal>(
    rt: &S,
    arena: &'a Bump,
    path: &str,
) -> Result<FileOnDemand<'a, OpenedFile<S::File>>, Fault>
where
    S::File: FileExt,
{
    let (file, size) = match open_at(rt, path) {
        Ok(opened) => opened,
        Err(error) => return Err(read_fault(rt.alloc(), path, error.kind())),
    };
    let mut source = FileOnDemand::new(rt.alloc(), arena, file, size)?;
    source.order = ContributionOrder::Any;
    Ok(source)
}
