//! Files of one stream.

use pdb_samples::{Container, PageOrder, SampleError};
use pdb_symbols_modules::PDB;
use std::alloc::Global;
use std::test::Fail;

/// An open database over a file's bytes.
pub type Database = PDB<'static, Vec<u8>>;

/// Makes a file with that stream after `absent` absent ones.
fn file_of(alloc: Global, absent: usize, stream: Vec<u8>) -> Result<Vec<u8>, SampleError> {
    let mut streams = Vec::new(alloc);
    for _ in 0..absent {
        streams.push(None)?;
    }
    streams.push(Some(stream))?;
    let container = Container {
        page_size: 0x1000,
        streams,
        order: PageOrder::Natural,
    };
    container.bytes(alloc)
}

/// Opens a file with that stream after `absent` absent ones.
///
/// # Errors
/// A stream that doesn't fit, a file that can't be read; out of memory.
pub fn database_of(alloc: Global, absent: usize, stream: Vec<u8>) -> Result<Database, Fail> {
    let file = file_of(alloc, absent, stream)?;
    Ok(PDB::open(alloc, file)?)
}
