//! Times the reading of the streams of a container in memory, beside one copy of its bytes.
//!
//! The containers and the times taken may change together with the stored output.
//!
//! `300x256` makes a container of 300 streams, each with 256 pages of 4096 bytes. It times a copy
//! of the container's bytes. Then it times how long it takes to open that copy and to read all its
//! streams, which are held until the time is taken. Both are done once untimed before. The output
//! says what was read, and the error output how long it took.

ghost use Rattle.std.specs.Prelude.{◌≡◌, ◌*◌, ◌≤◌, ◌^◌, IfOk};
ghost use Rattle.recorded_cases.specs.Streams.{AreFirst};

mod file;

use anyhow::{Context, Result, ensure};
use file::{MOST_IN_ALL, MOST_PAGES, MOST_STREAMS, container_of};
use pdb_container::{BigMSF, Msf, Stream, open_msf};
use std::alloc::Global;
use std::io;
use std::rt::Clock;
use std::time::{Duration, Instant};

/// Times a container of a shape, such as `300x256`, and prints what was read.
///
/// # Errors
/// Another word, or too many streams or pages; a failed write; out of memory.
pub fn run(rt: &(impl Print + Eprint + Clock + AllocGlobal), shape: &str) -> Result<()> {
    let (count, pages) = shape_of(shape)?;
    let file = container_of(rt.alloc(), count, pages)?;
    read_copy(rt, file.as_slice(), count)?;
    let reading = read_copy(rt, file.as_slice(), count)?;
    print_streams(rt, reading.streams.as_slice())?;
    print_times(rt, reading.copied, reading.read)?;
    Ok(())
}

/// Returns the number of a shape's streams, and the number of pages of each.
fn shape_of(shape: &str) -> Result<(u32, u32)>
    ensures streams { IfOk result (λ shape. shape.0 ≤ 10000) }
    ensures pages { IfOk result (λ shape. shape.1 ≤ 2 ^ 10) }
    ensures in_all { IfOk result (λ shape. shape.0 * shape.1 ≤ 2 ^ 18) }
{
    let (streams, pages) = shape.split_once('x').context("streams x pages is needed")?;
    let streams = number_of(streams, MOST_STREAMS)?;
    let pages = number_of(pages, MOST_PAGES)?;
    ensure!(
        streams * pages <= MOST_IN_ALL,
        "at most {MOST_IN_ALL} pages in all"
    );
    Ok((streams, pages))
}

/// Returns the number of a word, from 1 to a greatest one.
fn number_of(word: &str, most: u32) -> Result<u32>
    ensures { IfOk result (λ number. number ≤ most) }
{
    let number = word.parse::<u32>().context("a number of streams or pages")?;
    ensure!(1 <= number && number <= most, "from 1 to {most}");
    Ok(number)
}

/// The streams that were read, and the times that this took.
#[derive(Drop)]
struct Reading<'s> {
    streams: Vec<Stream<'s>>,
    copied: Duration,
    read: Duration,
}

/// Copies a container, and reads the first `count` streams of the copy.
fn read_copy<'s>(rt: &(impl Clock + AllocGlobal), file: &[u8], count: u32) -> Result<Reading<'s>>
    ensures { IfOk result (λ r. AreFirst file.now count r.streams.items) }
{
    let (copy, copied) = copy_timed(rt, file)?;
    let (streams, read) = read_timed(rt, copy, count)?;
    Ok(Reading {
        streams,
        copied,
        read,
    })
}

/// Copies a container, and returns the time that this took.
fn copy_timed(rt: &(impl Clock + AllocGlobal), file: &[u8]) -> Result<(Vec<u8>, Duration)>
    ensures { IfOk result (λ r. r.0.items ≡ file.now) }
{
    let start = Instant::now(rt)?;
    let copy = Vec::from_slice(rt.alloc(), file)?;
    Ok((copy, start.elapsed(rt)?))
}

/// Opens a container and reads its first `count` streams, and returns the time that this took. The
/// time of letting go of the container isn't in it.
fn read_timed<'s>(
    rt: &(impl Clock + AllocGlobal),
    file: Vec<u8>,
    count: u32,
) -> Result<(Vec<Stream<'s>>, Duration)>
    ensures { IfOk result (λ r. AreFirst file.items count r.0.items) }
{
    let start = Instant::now(rt)?;
    let mut container = open_msf(rt.alloc(), file)?;
    let streams = all_streams(rt.alloc(), &mut container, count)?;
    Ok((streams, start.elapsed(rt)?))
}

/// Reads the first `count` streams.
#[tactic(auto, using(crate::proofs::First::first_none, crate::proofs::First::first_more))]
fn all_streams<'s>(
    alloc: Global,
    container: &mut BigMSF<'s, Vec<u8>>,
    count: u32,
) -> pdb_container::Result<Vec<Stream<'s>>>
    ensures { IfOk result (λ streams. AreFirst container.old.items count streams.items) }
{
    let mut streams = Vec::with_capacity(alloc, count as usize)?;
    for number in 0..count {
        streams.push(container.get(alloc, number, None)?)?;
    }
    Ok(streams)
}

/// Prints the number of streams, the number of their bytes, and a checksum of all bytes.
fn print_streams(rt: &impl Print, streams: &[Stream]) -> io::Result<()> {
    let mut size = 0u64;
    let mut sum = 0u64;
    for stream in streams {
        size = size.saturating_add(stream.as_slice().len() as u64);
        sum = checksum_on(sum, stream.as_slice());
    }
    println!(rt; "streams: {}", streams.len())?;
    println!(rt; "bytes: {size}, checksum: {sum:016x}")
}

/// Returns the checksum of one over more bytes: for each byte, the sum of 31 times the checksum and
/// the byte, modulo 2^64.
fn checksum_on(sum: u64, bytes: &[u8]) -> u64 {
    let mut sum = sum;
    for byte in bytes {
        sum = sum.wrapping_mul(31).wrapping_add(u64::from(*byte));
    }
    sum
}

/// Prints both times and their ratio, to the error output.
fn print_times(rt: &impl Eprint, copied: Duration, read: Duration) -> io::Result<()> {
    let copied = copied.as_secs_f64() * 1000.0;
    let read = read.as_secs_f64() * 1000.0;
    eprintln!(rt; "copied the file in {copied:.3} ms")?;
    eprintln!(rt; "opened it and read all streams in {read:.3} ms")?;
    eprintln!(rt; "ratio: {:.3}", read / copied)
}
