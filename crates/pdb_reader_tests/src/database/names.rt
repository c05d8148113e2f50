//! A million names of streams.

use crate::database::files::database_of;
use pdb_samples::{SampleError, push_u32};
use pdb_symbols_modules::{PDB, StreamNames};
use std::alloc::Global;
use std::test::Fail;

/// The number of entries. Each names the end of one text from its own index on.
const COUNT: u32 = 1_000_000;

/// The length of the text in bytes, with its NUL.
const LENGTH: u32 = 4_000_000;

/// Makes an information stream with these names.
fn information(alloc: Global) -> Result<Vec<u8>, SampleError> {
    let mut stream = Vec::new(alloc);
    push_u32(&mut stream, &[20_000_404, 1, 1, 0, 0, 0, 0, LENGTH])?;
    stream.resize(32 + LENGTH as usize - 1, b'n')?;
    stream.push(0)?;
    push_u32(&mut stream, &[COUNT, COUNT, 0, 0])?;
    for number in 0..COUNT {
        push_u32(&mut stream, &[number, 7])?;
    }
    Ok(stream)
}

/// A count of names, and the lengths of the first and the last in bytes.
type Said = (usize, Option<usize>, Option<usize>);

/// Returns the number of names, and the lengths of the first and the last in bytes.
fn said(names: &StreamNames<'_>) -> Said {
    let first = names.iter().next().map(|entry| entry.name.len());
    let last = names.iter().last().map(|entry| entry.name.len());
    (names.iter().count(), first, last)
}

/// Returns the answer of [`said`] about the names in a database's information stream.
fn said_of(alloc: Global, database: &mut PDB<'_, Vec<u8>>) -> pdb_container::Result<Said> {
    let information = database.pdb_information(alloc)?;
    let names = information.stream_names(alloc)?;
    Ok(said(&names))
}

/// Returns the answer of [`said`] about the names of the sample.
fn said_of_sample(alloc: Global) -> Result<Said, Fail> {
    let mut database = database_of(alloc, 1, information(alloc)?)?;
    Ok(said_of(alloc, &mut database)?)
}

// If each name was looked for from its own start on, this would take minutes.
#[test]
fn many_names_in_linear_time(rt: HostRuntime) -> Result<(), Fail> {
    let said = said_of_sample(rt.alloc())?;
    assert_eq!(rt; said, (1_000_000, Some(3_999_999), Some(3_000_000)));
    Ok(())
}
