//! Files that are read on demand.

use boxcar::tag::Tag;
use pdb_container::{Error, Msf, SharedBytes, SourceSlice, open_msf};
use pdb_file_views::{FileSource, FileViews, Wanted};
use pdb_samples::{Container, PageOrder, SampleError};
use std::alloc::Global;
use std::cell::Cell;
use std::io::{self, ErrorKind};
use std::os::unix::fs::FileExt;
use std::test::Fail;

/// A file that counts how often it is read.
#[derive(Drop)]
struct Counting {
    bytes: Vec<u8>,
    reads: Cell<usize>,
}

impl FileExt for Counting {
    fn read_at(&self, buf: &mut [u8], offset: u64) -> io::Result<usize> {
        self.reads.set(self.reads.get().saturating_add(1));
        let rest = self.bytes.as_slice().get(offset as usize..).unwrap_or(&[]);
        let count = rest.len().min(buf.len());
        buf[..count].copy_from_slice(&rest[..count]);
        Ok(count)
    }

    fn write_at(&self, _buf: &[u8], _offset: u64) -> io::Result<usize> {
        Err(ErrorKind::Unsupported.into())
    }
}

/// A file with pages of so many bytes, whose stream 1 has 5,000 bytes.
fn sample_file(alloc: Global, page_size: u32) -> Result<Counting, SampleError> {
    let mut streams = Vec::new(alloc);
    streams.push(None)?;
    streams.push(Some(vec![in alloc; 7u8; 5000]?))?;
    let container = Container {
        page_size,
        streams,
        order: PageOrder::StreamsReversed,
    };
    Ok(Counting {
        bytes: container.bytes(alloc)?,
        reads: Cell::new(0),
    })
}

/// The number of bytes of stream 1 of a source that are 7.
fn sevens(alloc: Global, source: FileSource) -> Result<usize, Error> {
    let mut container = open_msf(alloc, source)?;
    let stream = container.get(alloc, 1, None)?;
    Ok(stream.as_slice().iter().filter(|byte| **byte == 7).count())
}

/// The same number of a file that is read on demand, and how often what was wanted was read.
fn sevens_on_demand(alloc: Global, file: &Counting) -> Result<(usize, u32), Fail> {
    let mut views = FileViews::new(alloc, file.bytes.len() as u64)?;
    for rounds in 0..8 {
        let wanted = Wanted::new(alloc)?;
        let source = FileSource::of_views(alloc, &views, &Tag::empty(), &wanted)?;
        match sevens(alloc, source) {
            Err(Error::OutOfMemory) => {}
            counted => return Ok((counted?, rounds)),
        }
        if !views.read_wanted(alloc, file, &wanted)? {
            return Ok((0, rounds));
        }
    }
    Ok((0, 8))
}

/// Whether a view is read once, and another one of the same block isn't.
fn is_read_once(alloc: Global, file: &Counting) -> Result<[bool; 3], Fail> {
    let slice = |offset, size| SourceSlice { offset, size };
    let mut views = FileViews::new(alloc, file.bytes.len() as u64)?;
    let first = views.read(alloc, file, vec![in alloc; slice(0, 32); 1]?)?;
    let again = views.read(alloc, file, vec![in alloc; slice(40, 8); 1]?)?;
    views.read_whole(alloc, file)?;
    let source = FileSource::of_views(alloc, &views, &Tag::empty(), &Wanted::new(alloc)?)?;
    let shared = source.share(source.limits())?;
    Ok([first, again, sevens(alloc, shared)? == 5000])
}

// Opening takes three views: of the beginning, the list of pages and the directory; and a stream
// one, of which each of two pages is read by itself, since they lie in reverse. Where pages are
// smaller than the beginning, all of the file is read.
#[test]
fn views_on_demand(rt: HostRuntime) -> Result<(), Fail> {
    let file = sample_file(rt.alloc(), 0x1000)?;
    assert_eq!(rt; sevens_on_demand(rt.alloc(), &file)?, (5000, 4));
    assert_eq!(rt; file.reads.get(), 5);
    let small = sample_file(rt.alloc(), 0x200)?;
    assert_eq!(rt; sevens_on_demand(rt.alloc(), &small)?, (5000, 2));
    assert_eq!(rt; is_read_once(rt.alloc(), &file)?, [true, false, true]);
    Ok(())
}

// A file in memory lacks nothing.
#[test]
fn whole_file(rt: HostRuntime) -> Result<(), Fail> {
    let file = sample_file(rt.alloc(), 0x1000)?;
    let source = FileSource::whole(SharedBytes::new(file.bytes)?);
    assert_eq!(rt; sevens(rt.alloc(), source)?, 5000);
    Ok(())
}
