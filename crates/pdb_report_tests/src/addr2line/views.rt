//! The number of views of a file's streams while it is loaded.

use pdb_addr2line::pdb::{PDB, ReadView, Source, SourceSlice};
use pdb_addr2line::{ContextPdbData, Error};
use pdb_samples::{Change, SampleError, file_with, overwrite};
use std::alloc::Global;
use std::cell::Cell;
use std::io;
use std::test::Fail;

/// The bytes of a file, and a count of the views that begin at a place.
#[derive(Drop)]
struct Counted<'c> {
    bytes: Vec<u8>,
    place: u64,
    views: &'c Cell<u64>,
}

impl<'c> Source for Counted<'c> {
    ghost bytes = { λ f. f.bytes.items };

    ghost failures = { λ _. 0 };

    fn view(&mut self, alloc: Global, slices: &[SourceSlice]) -> io::Result<ReadView> {
        if begin_at(slices, self.place) {
            self.views.set(self.views.get().saturating_add(1));
        }
        self.bytes.view(alloc, slices)
    }

    fn failures(&self) -> u64 {
        0
    }
}

/// Returns whether the first slice begins at a place.
fn begin_at(slices: &[SourceSlice], place: u64) -> bool {
    match slices.first() {
        None => false,
        Some(slice) => slice.offset == place,
    }
}

/// The offset of the number of the second module's stream: in page 5, after the header's 64 bytes,
/// the first module's 76, and 34 of its own.
const SECOND_STREAM: usize = 0x5ae;

/// Makes a file of two modules that name stream 7. Page 4 is stream 2, pages 5 and 6 are stream 3,
/// and pages 7 to 9 are streams 4, 6 and 7. Stream 5 is empty.
fn shared_stream(alloc: Global) -> Result<Vec<u8>, SampleError> {
    let mut file = file_with(alloc, Change::MissingModule)?.bytes(alloc)?;
    overwrite(file.as_mut_slice(), SECOND_STREAM, &7u16.to_le_bytes())?;
    Ok(file)
}

/// Loads a file, and stores nothing of it.
fn load(alloc: Global, source: Counted<'_>) -> Result<(), Error> {
    match PDB::open(alloc, source) {
        Err(error) => Err(Error::from(error)),
        Ok(database) => match ContextPdbData::try_from_pdb(alloc, database) {
            Ok(_) => Ok(()),
            Err(error) => Err(error),
        },
    }
}

/// Returns the number of views of the file that begin at a place while it is loaded.
fn views_at(alloc: Global, place: u64) -> Result<u64, Fail> {
    let views = Cell::new(0);
    let bytes = shared_stream(alloc)?;
    load(
        alloc,
        Counted {
            bytes,
            place,
            views: &views,
        },
    )?;
    Ok(views.get())
}

#[test]
fn each_stream_is_viewed_once(rt: HostRuntime) -> Result<(), Fail> {
    // Streams 2, 3, 4, 6, and the one that both modules name.
    for place in [0x400, 0x500, 0x700, 0x800, 0x900] {
        assert_eq!(rt; views_at(rt.alloc(), place)?, 1, "at {place:x}");
    }
    Ok(())
}
