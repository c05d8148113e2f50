//! A container in memory: streams with the same number of pages, and the pages that say where they
//! lie.

ghost use Rattle.std.specs.Prelude.{◌≡◌, ◌+◌, ◌*◌, ◌-◌, ◌^◌, ◌<◌, ◌≤◌};

use std::alloc::{AllocError, Global};

/// The greatest number of streams of a container.
pub const MOST_STREAMS: u32 = 10_000;

/// The greatest number of pages of a stream.
pub const MOST_PAGES: u32 = 1024;

/// The greatest number of pages of all streams, which take a gigabyte.
pub const MOST_IN_ALL: u32 = 0x4_0000;

/// The first bytes of a container.
const MAGIC: [u8; 32] = *b"Microsoft C/C++ MSF 7.00\r\n\x1aDS\0\0\0";

/// The size of a page, in bytes.
const PAGE_SIZE: usize = 4096;

/// The number of pages that lie in one direction. Runs of them go by turns from the first to the
/// last page and from the last to the first.
const RUN_PAGES: u32 = 128;

/// The page that lists the directory's pages. Before it lie the header and two pages that a reader
/// skips.
const LIST_PAGE: u32 = 3;

/// The first page of the directory. The streams come after it.
const DIRECTORY_PAGE: u32 = 4;

/// Makes the bytes of a container with that many streams, each with that many pages.
///
/// # Errors
/// `AllocError` when memory runs out.
pub fn container_of(alloc: Global, streams: u32, stream_pages: u32) -> Result<Vec<u8>, AllocError>
    requires streams { streams ≤ 10000 }
    requires stream_pages { stream_pages ≤ 2 ^ 10 }
    requires in_all { streams * stream_pages ≤ 2 ^ 18 }
{
    let pages = streams * stream_pages;
    let first = first_stream_page(streams, pages);
    let mut file = Vec::with_capacity(alloc, end_of(first + pages))?;
    push_header(&mut file, streams, pages)?;
    file.resize(end_of(LIST_PAGE), 0)?;
    push_list(&mut file, directory_pages(streams, pages))?;
    file.resize(end_of(DIRECTORY_PAGE), 0)?;
    push_sizes(&mut file, streams, stream_pages)?;
    push_page_numbers(&mut file, first, pages)?;
    file.resize(end_of(first), 0)?;
    push_content(&mut file, pages)?;
    Ok(file)
}

/// Returns the end of that many pages, in bytes.
fn end_of(pages: u32) -> usize
    ensures { result ≡ 4096 * pages }
{
    PAGE_SIZE * pages as usize
}

/// Returns the size of the directory: the count of the streams, their sizes, and the numbers of
/// their pages.
fn directory_size(streams: u32, pages: u32) -> u32
    requires streams { streams ≤ 10000 }
    requires pages { pages ≤ 2 ^ 18 }
    ensures { result ≡ 4 * (1 + streams + pages) }
{
    4 * (1 + streams + pages)
}

/// Returns the number of the directory's pages.
fn directory_pages(streams: u32, pages: u32) -> u32
    requires streams { streams ≤ 10000 }
    requires pages { pages ≤ 2 ^ 18 }
    ensures { result ≤ 266 }
{
    directory_size(streams, pages).div_ceil(PAGE_SIZE as u32)
}

/// Returns the number of the streams' first page.
fn first_stream_page(streams: u32, pages: u32) -> u32
    requires streams { streams ≤ 10000 }
    requires pages { pages ≤ 2 ^ 18 }
    ensures { result ≤ 270 }
{
    DIRECTORY_PAGE + directory_pages(streams, pages)
}

/// Appends a number.
fn push_number(file: &mut Vec<u8>, number: u32) -> Result<(), AllocError> {
    file.extend_from_slice(&number.to_le_bytes())
}

/// Appends the magic, the size of a page, the free page map, the number of pages, the directory's
/// size, a reserved number, and the page of the list.
fn push_header(file: &mut Vec<u8>, streams: u32, pages: u32) -> Result<(), AllocError>
    requires streams { streams ≤ 10000 }
    requires pages { pages ≤ 2 ^ 18 }
{
    file.extend_from_slice(&MAGIC)?;
    push_number(file, PAGE_SIZE as u32)?;
    push_number(file, 1)?;
    push_number(file, first_stream_page(streams, pages) + pages)?;
    push_number(file, directory_size(streams, pages))?;
    push_number(file, 0)?;
    push_number(file, LIST_PAGE)
}

/// Appends the list of the directory's pages.
fn push_list(file: &mut Vec<u8>, count: u32) -> Result<(), AllocError>
    requires { count ≤ 266 }
{
    for page in 0..count {
        push_number(file, DIRECTORY_PAGE + page)?;
    }
    Ok(())
}

/// Appends the number of streams, and the size of each.
fn push_sizes(file: &mut Vec<u8>, streams: u32, stream_pages: u32) -> Result<(), AllocError>
    requires { stream_pages ≤ 2 ^ 10 }
{
    push_number(file, streams)?;
    for _ in 0..streams {
        push_number(file, stream_pages * PAGE_SIZE as u32)?;
    }
    Ok(())
}

/// Appends the numbers of the streams' pages.
fn push_page_numbers(file: &mut Vec<u8>, first: u32, count: u32) -> Result<(), AllocError>
    requires { first + count + 128 < 2 ^ 32 }
{
    for place in 0..count {
        push_number(file, first + page_at(place, count))?;
    }
    Ok(())
}

/// Returns the page of the streams that is read at an index among them. Pages after the last whole
/// run lie in order.
fn page_at(place: u32, count: u32) -> u32
    requires { place + 128 < 2 ^ 32 }
    ensures { result < place + 128 }
{
    let index = place % RUN_PAGES;
    if place / RUN_PAGES % 2 == 0 || count < place - index + RUN_PAGES {
        place
    } else {
        place - index + (RUN_PAGES - 1 - index)
    }
}

/// Appends the streams' pages.
fn push_content(file: &mut Vec<u8>, pages: u32) -> Result<(), AllocError> {
    for page in 0..pages {
        push_page(file, page)?;
    }
    Ok(())
}

/// Appends a page of bytes that differ from any other page's.
fn push_page(file: &mut Vec<u8>, seed: u32) -> Result<(), AllocError> {
    let mut number = seed;
    for _ in 0..PAGE_SIZE / 4 {
        push_number(file, number)?;
        number = number.wrapping_mul(1_664_525).wrapping_add(1_013_904_223);
    }
    Ok(())
}
