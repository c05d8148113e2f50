//! Files for the tests. Where the first call of a function here finds no memory, its answer is the
//! second call's.

use pdb_container::{BigMSF, Error, Msf, Source, Stream, open_msf};
use pdb_samples::{Container, PageOrder, SampleError};
use std::alloc::{AllocError, Global};

/// An empty list with room for `count` values.
pub fn room<T: Drop>(alloc: Global, count: usize) -> Result<Vec<T>, AllocError> {
    match Vec::with_capacity(alloc, count) {
        Err(_) => Vec::with_capacity(alloc, count),
        made => made,
    }
}

/// `len` bytes that go up from a first one to 250 and then again from 0, so that pages of them
/// differ.
pub fn counted(alloc: Global, first: usize, len: usize) -> Result<Vec<u8>, SampleError> {
    let mut bytes = room(alloc, len)?;
    for at in 0..len {
        bytes.push((first.wrapping_add(at) % 251) as u8)?;
    }
    Ok(bytes)
}

/// Streams of these lengths, and absent ones, whose bytes differ.
pub fn container(
    alloc: Global,
    page_size: u32,
    order: PageOrder,
    lengths: &[Option<usize>],
) -> Result<Container, SampleError> {
    let mut streams = room(alloc, lengths.len())?;
    for (number, length) in lengths.iter().enumerate() {
        streams.push(match length {
            Some(length) => Some(counted(alloc, number, *length)?),
            None => None,
        })?;
    }
    Ok(Container {
        page_size,
        streams,
        order,
    })
}

/// The bytes of a file with such streams.
pub fn file(alloc: Global, description: &Container) -> Result<Vec<u8>, SampleError> {
    match description.bytes(alloc) {
        Err(SampleError::OutOfMemory) => description.bytes(alloc),
        made => made,
    }
}

fn opened(alloc: Global, bytes: &[u8]) -> Result<BigMSF<'static, Vec<u8>>, Error> {
    open_msf(alloc, Vec::from_slice(alloc, bytes)?)
}

/// A container over a copy of the bytes.
pub fn open(alloc: Global, bytes: &[u8]) -> Result<BigMSF<'static, Vec<u8>>, Error> {
    match opened(alloc, bytes) {
        Err(Error::OutOfMemory) => opened(alloc, bytes),
        answer => answer,
    }
}

/// The answer of a container.
pub fn get<'s, S: Source>(
    container: &mut BigMSF<'s, S>,
    alloc: Global,
    number: u32,
    limit: Option<usize>,
) -> Result<Stream<'s>, Error> {
    match container.get(alloc, number, limit) {
        Err(Error::OutOfMemory) => container.get(alloc, number, limit),
        answer => answer,
    }
}
