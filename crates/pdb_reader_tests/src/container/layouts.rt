//! Files whose streams lie in pages of several sizes and orders.

use crate::container::files::{container, file, get, open, room};
use pdb_container::{BigMSF, Error};
use pdb_samples::{Container, PageOrder, SampleError};
use std::alloc::Global;
use std::test::Fail;

/// The bytes that a described stream is to have under a limit.
fn stream_of(description: &Container, number: u32, limit: usize) -> Result<&[u8], Error> {
    match description.streams.get(number as usize) {
        Some(Some(bytes)) => Ok(bytes.as_slice().get(..limit).unwrap_or(bytes.as_slice())),
        _ => Err(Error::StreamNotFound(number)),
    }
}

/// The first number and limit, of some, at which a container answers another stream than its
/// description.
fn first_wrong_in(
    opened: &mut BigMSF<'static, Vec<u8>>,
    alloc: Global,
    description: &Container,
) -> Result<Option<(u32, usize)>, Fail> {
    let count = u32::try_from(description.streams.len())?;
    for number in [0, 5, 9, 199, 999, count.saturating_sub(1), count, u32::MAX] {
        for limit in [0, 1, 0x100, 0x101, usize::MAX] {
            let answer = get(opened, alloc, number, Some(limit));
            let is_right = match (&answer, stream_of(description, number, limit)) {
                (Ok(found), Ok(stream)) => found.as_slice() == stream,
                (Err(found), Err(error)) => *found == error,
                _ => false,
            };
            if !is_right {
                return Ok(Some((number, limit)));
            }
        }
    }
    Ok(None)
}

/// The first wrong answer over the file of the description.
fn first_wrong(alloc: Global, description: &Container) -> Result<Option<(u32, usize)>, Fail> {
    let bytes = file(alloc, description)?;
    let mut opened = open(alloc, bytes.as_slice())?;
    first_wrong_in(&mut opened, alloc, description)
}

/// Streams of 9 to 999 bytes, absent and empty ones.
fn mixed(
    alloc: Global,
    page_size: u32,
    order: PageOrder,
    count: usize,
) -> Result<Container, SampleError> {
    let mut lengths = room(alloc, count)?;
    for number in 0..count {
        lengths.push(match number % 10 {
            5 => None,
            9 => Some(number % 1000),
            _ => Some(0),
        })?;
    }
    container(alloc, page_size, order, lengths.as_slice())
}

#[test]
fn page_sizes_and_orders(rt: HostRuntime) -> Result<(), Fail> {
    // The numbers of the directory's pages take more than a page of 0x100 bytes where there are
    // 4200 streams.
    let rows = [
        (0x100, PageOrder::Natural, 4200),
        (0x100, PageOrder::AllReversed, 4200),
        (0x100, PageOrder::DirectoryReversed, 400),
        (0x100, PageOrder::StreamsReversed, 400),
        (0x100, PageOrder::StreamLast(199), 400),
        (0x1000, PageOrder::StreamsReversed, 40),
        (0x8000, PageOrder::AllReversed, 20),
        (0x80_0000, PageOrder::Natural, 10),
    ];
    for (page_size, order, count) in rows {
        let description = mixed(rt.alloc(), page_size, order, count)?;
        let wrong = first_wrong(rt.alloc(), &description)?;
        assert_eq!(rt; wrong, None, "{count} streams in pages of {page_size}");
    }
    Ok(())
}
