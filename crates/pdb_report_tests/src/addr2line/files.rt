//! The data that are read of files.

use pdb_addr2line::pdb::PDB;
use pdb_addr2line::{ContextPdbData, Error};
use std::alloc::Global;

/// The data that were read of a database.
pub type Data = ContextPdbData<'static, 'static, Vec<u8>>;

/// Reads the data of a file with these bytes.
///
/// # Errors
/// A database that can't be read; out of memory.
pub fn data_of(alloc: Global, bytes: Vec<u8>) -> Result<Data, Error> {
    let database = PDB::open(alloc, bytes)?;
    ContextPdbData::try_from_pdb(alloc, database)
}
