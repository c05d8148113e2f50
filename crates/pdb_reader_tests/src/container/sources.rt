//! Sources that fail for some views, and one that has only some slices.

use crate::container::damage::{
    DIRECTORY_PAGE, DIRECTORY_SIZE, LIST_PAGE, Numbers, PAGES_USED, PAST_END, write_numbers,
};
use crate::container::files::{container, counted, file, get};
use crate::failing::{Failing, Refusal};
use pdb_container::{BigMSF, Error, Msf, ReadView, Source, SourceSlice, open_msf};
use pdb_samples::{PageOrder, SampleError};
use std::alloc::Global;
use std::cell::Cell;
use std::io::{self, ErrorKind};
use std::test::Fail;

/// A source over a file whose stream 1 has the bytes 1 to 250, 0, 1 and so on.
fn source<'c>(
    alloc: Global,
    views: &'c Cell<u64>,
    fails: &'static [u64],
    refusal: Refusal,
) -> Result<Failing<'c>, SampleError> {
    views.set(0);
    Ok(Failing {
        bytes: two_streams(alloc, PageOrder::StreamsReversed)?,
        views,
        fails,
        refusal,
        failures: 0,
    })
}

/// The bytes of a file with pages of 0x100 bytes: page 1 is the list, 2 the directory, and 3 and 4
/// are stream 1.
fn two_streams(alloc: Global, order: PageOrder) -> Result<Vec<u8>, SampleError> {
    let description = container(alloc, 0x100, order, &[Some(0), Some(300)])?;
    file(alloc, &description)
}

/// A container over the source. Opening it takes three views: of the beginning, the list and the
/// directory. Each stream takes one, of its own pages.
fn opened<'c>(
    alloc: Global,
    views: &'c Cell<u64>,
    fails: &'static [u64],
    refusal: Refusal,
) -> Result<Result<BigMSF<'static, Failing<'c>>, Error>, SampleError> {
    match open_msf(alloc, source(alloc, views, fails, refusal)?) {
        Err(Error::OutOfMemory) => Ok(open_msf(alloc, source(alloc, views, fails, refusal)?)),
        opened => Ok(opened),
    }
}

/// The error with which stream 1 of a container is refused, if it is, and whether its bytes are as
/// usual at the next call.
fn asked_of(
    container: &mut BigMSF<'static, Failing<'_>>,
    alloc: Global,
    refusal: Refusal,
) -> Result<(Option<Error>, bool), Fail> {
    let error = match refusal {
        Refusal::Memory => container.get(alloc, 1, None).err(),
        Refusal::Other => get(container, alloc, 1, None).err(),
    };
    let usual = counted(alloc, 1, 300)?;
    let stream = get(container, alloc, 1, None)?;
    Ok((error, stream.as_slice() == usual.as_slice()))
}

/// The answer of [`asked_of`] where views fail.
fn asked_twice(
    alloc: Global,
    fails: &'static [u64],
    refusal: Refusal,
) -> Result<(Option<Error>, bool), Fail> {
    let views = Cell::new(0);
    let mut container = opened(alloc, &views, fails, refusal)??;
    asked_of(&mut container, alloc, refusal)
}

/// The error that opening the container returns where these views fail.
fn refused(alloc: Global, fails: &'static [u64], refusal: Refusal) -> Result<Option<Error>, Fail> {
    let views = Cell::new(0);
    Ok(opened(alloc, &views, fails, refusal)?.err())
}

#[test]
fn views_fail_at_the_opening(rt: HostRuntime) -> Result<(), Fail> {
    let memory = Error::OutOfMemory;
    let rows: [(&'static [u64], Refusal, Error); 4] = [
        (&[0], Refusal::Other, Error::IoError(ErrorKind::Other)),
        (&[0], Refusal::Memory, memory),
        (&[1], Refusal::Memory, memory),
        (&[2], Refusal::Memory, memory),
    ];
    for (fails, refusal, error) in rows {
        assert_eq!(rt;
            refused(rt.alloc(), fails, refusal)?,
            Some(error),
            "{fails:?}"
        );
    }
    Ok(())
}

#[test]
fn a_stream_is_read_anew_where_its_view_failed(rt: HostRuntime) -> Result<(), Fail> {
    let rows = [
        (Refusal::Other, Error::IoError(ErrorKind::Other)),
        (Refusal::Memory, Error::OutOfMemory),
    ];
    for (refusal, error) in rows {
        let found = asked_twice(rt.alloc(), &[3], refusal)?;
        assert_eq!(rt; found, (Some(error), true));
    }
    Ok(())
}

/// The error with which a call is refused, if it is, and the number of views by then.
type Asked = (Option<Error>, u64);

/// The answer of a call for stream 1, or that memory ran out.
fn asked(
    container: &mut BigMSF<'static, Failing<'_>>,
    alloc: Global,
    views: &Cell<u64>,
) -> Result<Asked, Error> {
    match container.get(alloc, 1, None) {
        Err(Error::OutOfMemory) => Err(Error::OutOfMemory),
        answer => Ok((answer.err(), views.get())),
    }
}

/// The answers of three calls.
type Calls = (Asked, Asked, Asked);

/// The answers of three calls for stream 1.
fn asked_thrice(
    container: &mut BigMSF<'static, Failing<'_>>,
    alloc: Global,
    views: &Cell<u64>,
) -> Result<Calls, Error> {
    Ok((
        asked(container, alloc, views)?,
        asked(container, alloc, views)?,
        asked(container, alloc, views)?,
    ))
}

/// The number of views that the opening takes, and the answers of three calls.
fn viewed(alloc: Global, views: &Cell<u64>, source: Failing<'_>) -> Result<(u64, Calls), Error> {
    let mut container = open_msf(alloc, source)?;
    let opening = views.get();
    let asked = asked_thrice(&mut container, alloc, views)?;
    Ok((opening, asked))
}

/// The answer of [`viewed`] where some views fail.
fn viewed_where(alloc: Global, fails: &'static [u64]) -> Result<(u64, Calls), Fail> {
    let views = Cell::new(0);
    match viewed(alloc, &views, source(alloc, &views, fails, Refusal::Other)?) {
        Err(Error::OutOfMemory) => {
            let source = source(alloc, &views, fails, Refusal::Other)?;
            Ok(viewed(alloc, &views, source)?)
        }
        viewed => Ok(viewed?),
    }
}

// No table is cached where a view of the list (1) or of the directory (2) failed: the next call
// views both anew. From then on each call views its stream alone.
#[test]
fn the_directory_is_read_anew_where_the_source_failed(rt: HostRuntime) -> Result<(), Fail> {
    let other = Some(Error::IoError(ErrorKind::Other));
    let rows: [(&'static [u64], u64, Calls); 7] = [
        (&[], 3, ((None, 4), (None, 5), (None, 6))),
        (&[1], 2, ((None, 5), (None, 6), (None, 7))),
        (&[2], 3, ((None, 6), (None, 7), (None, 8))),
        (&[1, 2], 2, ((other, 3), (None, 6), (None, 7))),
        (&[1, 3], 2, ((other, 4), (None, 7), (None, 8))),
        (&[2, 3, 4], 3, ((other, 4), (other, 5), (None, 8))),
        (&[3], 3, ((other, 4), (None, 5), (None, 6))),
    ];
    for (fails, opening, calls) in rows {
        let found = viewed_where(rt.alloc(), fails)?;
        assert_eq!(rt; found, (opening, calls), "{fails:?}");
    }
    Ok(())
}

/// The bytes of a file, where each view after the third has to be of these slices. All views are
/// counted.
#[derive(Drop)]
struct OwnPages<'c> {
    bytes: Vec<u8>,
    views: &'c Cell<u64>,
    slices: &'static [(u64, usize)],
    failures: u64,
}

impl<'c> Source for OwnPages<'c> {
    ghost bytes = { λ f. f.bytes.items };

    ghost failures = { λ f. f.failures };

    fn view(&mut self, alloc: Global, slices: &[SourceSlice]) -> io::Result<ReadView> {
        let number = self.views.get();
        self.views.set(number.saturating_add(1));
        if number >= 3 && !are_slices(slices, self.slices) {
            self.failures = self.failures.saturating_add(1);
            return Err(ErrorKind::Other.into());
        }
        self.bytes.view(alloc, slices)
    }

    fn failures(&self) -> u64 {
        self.failures
    }
}

fn are_slices(slices: &[SourceSlice], wanted: &[(u64, usize)]) -> bool {
    if slices.len() != wanted.len() {
        return false;
    }
    for (slice, (offset, size)) in slices.iter().zip(wanted) {
        if slice.offset != *offset || slice.size != *size {
            return false;
        }
    }
    true
}

/// A container over these bytes, whose views are counted.
fn counted_views<'c>(
    alloc: Global,
    bytes: Vec<u8>,
    slices: &'static [(u64, usize)],
    views: &'c Cell<u64>,
) -> Result<BigMSF<'static, OwnPages<'c>>, Error> {
    let source = OwnPages {
        bytes,
        views,
        slices,
        failures: 0,
    };
    open_msf(alloc, source)
}

/// The length of stream 1 of a container and the number of views by then, and the error with which
/// stream 0 is refused.
fn lengths_of(
    container: &mut BigMSF<'static, OwnPages<'_>>,
    alloc: Global,
    views: &Cell<u64>,
) -> Result<(usize, u64, Option<Error>), Fail> {
    let length = get(container, alloc, 1, None)?.as_slice().len();
    let count = views.get();
    Ok((length, count, get(container, alloc, 0, None).err()))
}

/// The answer of [`lengths_of`] where only these slices can be viewed.
fn by_own_pages(
    alloc: Global,
    order: PageOrder,
    slices: &'static [(u64, usize)],
) -> Result<(usize, u64, Option<Error>), Fail> {
    let views = Cell::new(0);
    let mut container = counted_views(alloc, two_streams(alloc, order)?, slices, &views)?;
    lengths_of(&mut container, alloc, &views)
}

#[test]
fn a_stream_views_its_own_pages_once_and_alone(rt: HostRuntime) -> Result<(), Fail> {
    let other = Some(Error::IoError(ErrorKind::Other));
    let in_a_row = by_own_pages(rt.alloc(), PageOrder::Natural, &[(0x300, 300)])?;
    assert_eq!(rt; in_a_row, (300, 4, other));
    let reversed: &[(u64, usize)] = &[(0x400, 0x100), (0x300, 44)];
    let apart = by_own_pages(rt.alloc(), PageOrder::StreamsReversed, reversed)?;
    assert_eq!(rt; apart, (300, 4, other));
    Ok(())
}

/// The numbers of views by the opening and at the end, and why streams 0 and 1 are refused.
type Refused = ([u64; 2], [Option<Error>; 2]);

/// The refusals where numbers are written over the file.
fn by_bad_directory(alloc: Global, numbers: &[(usize, u32)]) -> Result<Refused, Fail> {
    let mut bytes = two_streams(alloc, PageOrder::Natural)?;
    write_numbers(bytes.as_mut_slice(), numbers)?;
    let views = Cell::new(0);
    let mut container = counted_views(alloc, bytes, &[], &views)?;
    let opening = views.get();
    let first = get(&mut container, alloc, 0, None).err();
    let second = get(&mut container, alloc, 1, None).err();
    Ok(([opening, views.get()], [first, second]))
}

/// Numbers that are written over the file, the number of views that its opening takes, and the
/// error with which each stream is refused: a page of the directory past the number used, the
/// list's past the file's end, the directory's there, and no count.
const DIRECTORIES: &[(Numbers, u64, Error)] = &[
    (
        &[(DIRECTORY_PAGE, 0xff)],
        2,
        Error::PageReferenceOutOfRange(0xff),
    ),
    (&[(PAGES_USED, 900), (LIST_PAGE, 900)], 2, PAST_END),
    (&[(PAGES_USED, 900), (DIRECTORY_PAGE, 900)], 3, PAST_END),
    (&[(DIRECTORY_SIZE, 3)], 3, Error::UnexpectedEof),
];

#[test]
fn a_directory_fault_is_kept(rt: HostRuntime) -> Result<(), Fail> {
    for (numbers, views, fault) in DIRECTORIES {
        let refused = by_bad_directory(rt.alloc(), *numbers)?;
        let wanted = ([*views, *views], [Some(*fault), Some(*fault)]);
        assert_eq!(rt; refused, wanted, "{numbers:?}");
    }
    Ok(())
}
