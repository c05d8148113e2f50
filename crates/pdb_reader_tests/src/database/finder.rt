//! The answers of a finder, and what it learns from the iterator that it is shown.

ghost use Rattle.std.specs.Prelude.{◌≡◌};

use crate::database::files::database_of;
use pdb_container::{Error, FallibleIterator, Result};
use pdb_container_types::{TypeFinder, TypeIndex, TypeInformation, TypeIter, find_counting};
use pdb_samples::{SampleError, push_u32};
use std::alloc::Global;
use std::test::Fail;

/// The greatest index of known blocks, the known end, the kind at an index, asked twice, and the
/// number of lengths that a search for it reads.
type Said = (u32, Option<u32>, Result<u16>, Result<u16>, u32);

/// Ten items, each of which is its index in two bytes.
const TEN: &[u8] =
    b"\x02\0\x00\0\x02\0\x01\0\x02\0\x02\0\x02\0\x03\0\x02\0\x04\0\x02\0\x05\0\x02\0\x06\0\x02\0\
    \x07\0\x02\0\x08\0\x02\0\x09\0";

/// Makes a stream of these items and of the bytes after them. Its header has indices from the first
/// on and before the second.
fn types_stream(
    alloc: Global,
    indices: (u32, u32),
    items: &[u8],
    tail: &[u8],
) -> std::result::Result<Vec<u8>, SampleError> {
    let mut stream = Vec::new(alloc);
    push_u32(&mut stream, &[20_040_203, 56, indices.0, indices.1])?;
    stream.resize(56, 0)?;
    stream.extend_from_slice(items)?;
    stream.extend_from_slice(tail)?;
    Ok(stream)
}

/// Reads the table of a stream of these items.
fn table(
    alloc: Global,
    indices: (u32, u32),
    items: &[u8],
    tail: &[u8],
) -> std::result::Result<TypeInformation<'static>, Fail> {
    let mut database = database_of(alloc, 2, types_stream(alloc, indices, items, tail)?)?;
    Ok(database.type_information(alloc)?)
}

/// Takes `steps` steps of an iterator, and shows it to the finder after each. A fault ends the
/// steps.
fn show(finder: &mut TypeFinder<'_>, iterator: &mut TypeIter<'_>, steps: usize) -> Result<()>
    requires { iterator.old.table ≡ finder.old.table }
{
    for _ in 0..steps {
        iterator.next()?;
        finder.update(iterator);
    }
    Ok(())
}

/// Returns the kind of the item with that index.
fn kind_at(finder: &TypeFinder<'_>, index: u32) -> Result<u16> {
    finder.find(TypeIndex(index))?.raw_kind()
}

/// Returns the number of lengths of items that a search for an index reads.
fn lengths_at(finder: &TypeFinder<'_>, index: u32) -> u32 {
    let mut lengths = 0;
    let _ = find_counting(finder, TypeIndex(index), &mut lengths);
    lengths
}

/// Returns the answers of a finder after it was shown that many steps.
fn asked(alloc: Global, types: &TypeInformation<'_>, steps: usize, index: u32) -> Result<Said> {
    let mut finder = types.finder(alloc)?;
    let _ = show(&mut finder, &mut types.iter(), steps);
    let first = kind_at(&finder, index);
    let again = kind_at(&finder, index);
    let lengths = lengths_at(&finder, index);
    Ok((finder.max_index().0, end_of(&finder), first, again, lengths))
}

/// Returns the known end.
fn end_of(finder: &TypeFinder<'_>) -> Option<u32> {
    match finder.end_index() {
        None => None,
        Some(end) => Some(end.0),
    }
}

/// The bytes after ten types of a stream, the number of steps that are shown, an index, and the
/// finder's answers about it: the greatest index of known blocks, the known end, the kind, and the
/// number of lengths that are read. These are the lengths from the start of the block on to that of
/// the item.
const ROWS: &[(&[u8], usize, u32, u32, Option<u32>, Result<u16>, u32)] = &[
    (b"", 0, 0x74, 0x1007, None, Err(Error::UnexpectedEof), 0),
    (
        b"",
        0,
        0x1008,
        0x1007,
        None,
        Err(Error::TypeNotIndexed(4104, 4104)),
        0,
    ),
    // Each index of a block of eight.
    (b"", 10, 0x1000, 0x100f, None, Ok(0), 1),
    (b"", 10, 0x1001, 0x100f, None, Ok(1), 2),
    (b"", 10, 0x1002, 0x100f, None, Ok(2), 3),
    (b"", 10, 0x1003, 0x100f, None, Ok(3), 4),
    (b"", 10, 0x1004, 0x100f, None, Ok(4), 5),
    (b"", 10, 0x1005, 0x100f, None, Ok(5), 6),
    (b"", 10, 0x1006, 0x100f, None, Ok(6), 7),
    (b"", 10, 0x1007, 0x100f, None, Ok(7), 8),
    (b"", 10, 0x1008, 0x100f, None, Ok(8), 1),
    (b"", 10, 0x1009, 0x100f, None, Ok(9), 2),
    (
        b"",
        10,
        0x100a,
        0x100f,
        None,
        Err(Error::TypeNotFound(4106)),
        2,
    ),
    (
        b"",
        10,
        0x1010,
        0x100f,
        None,
        Err(Error::TypeNotIndexed(4112, 4112)),
        0,
    ),
    (b"", 11, 0x1009, 0x100f, Some(0x100a), Ok(9), 2),
    // A bad end.
    (
        b"\x01\0",
        8,
        0x100a,
        0x100f,
        None,
        Err(Error::TypeTooShort),
        3,
    ),
    (
        b"\x01\0",
        10,
        0x100a,
        0x100f,
        None,
        Err(Error::TypeTooShort),
        3,
    ),
    (
        b"\x01\0",
        11,
        0x100a,
        0x100f,
        None,
        Err(Error::TypeTooShort),
        3,
    ),
    (
        b"\x01\0",
        12,
        0x100a,
        0x100f,
        None,
        Err(Error::TypeTooShort),
        3,
    ),
];

#[test]
fn item_finder(rt: HostRuntime) -> std::result::Result<(), Fail> {
    for (tail, steps, index, last, end, kind, lengths) in ROWS {
        let types = table(rt.alloc(), (0x1000, 0x1010), TEN, *tail)?;
        let found = asked(rt.alloc(), &types, *steps, *index)?;
        assert_eq!(rt;
            found,
            (*last, *end, *kind, *kind, *lengths),
            "{steps} steps, {index}"
        );
    }
    Ok(())
}
