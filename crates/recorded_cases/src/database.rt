//! The files of program databases.
//!
//! A file whose name ends in `.pdb` is the database itself. Any other is a text of it: a line
//! `length NUMBER`, and below that lines `PLACE BYTES`, both hexadecimal, with the bytes from that
//! place on. Bytes that no line names are zero.

use anyhow::{Context, Result, ensure};
use std::alloc::Global;
use std::fs;
use std::rt::Files;

/// Reads the bytes of a program database, from its own file or from a text of it.
///
/// # Errors
/// A file that can't be read, a text of another form; out of memory.
pub fn database_bytes(rt: &(impl Files + AllocGlobal), file: &str) -> Result<Vec<u8>> {
    if file.ends_with(".pdb") {
        return fs::read(rt, file).context(format_args!("reading {file}"));
    }
    let text = fs::read_to_string(rt, file).context(format_args!("reading {file}"))?;
    bytes_of(rt.alloc(), text.as_str()).context(format_args!("the text {file}"))
}

/// Returns the bytes that a text describes. Its first line has their number, and each other line
/// has a place and the bytes there.
fn bytes_of(alloc: Global, text: &str) -> Result<Vec<u8>> {
    let (length, lines) = text.split_once('\n').context("a line is needed")?;
    let length = length
        .strip_prefix("length ")
        .context("a length is needed")?;
    let mut bytes = vec![in alloc; 0u8; length.parse::<usize>()?]?;
    write_lines(alloc, &mut bytes, lines)?;
    Ok(bytes)
}

/// Writes the bytes of lines to their places.
fn write_lines(alloc: Global, bytes: &mut [u8], lines: &str) -> Result<()> {
    for line in lines.lines() {
        write_line(alloc, bytes, line)?;
    }
    Ok(())
}

/// Writes the bytes of a line to their place.
fn write_line(alloc: Global, bytes: &mut [u8], line: &str) -> Result<()> {
    let (place, digits) = line
        .split_once(' ')
        .context("a place and bytes are needed")?;
    let place = usize::from_str_radix(place, 16)?;
    let piece = hex::decode(alloc, digits)?;
    write_piece(bytes, place, &piece)
}

/// Writes a piece over the bytes from a place on.
fn write_piece(bytes: &mut [u8], place: usize, piece: &[u8]) -> Result<()> {
    let (_, rest) = bytes
        .split_at_mut_checked(place)
        .context("the place lies past the end")?;
    ensure!(piece.len() <= rest.len(), "the bytes reach past the end");
    for (old, new) in rest.iter_mut().zip(piece) {
        *old = *new;
    }
    Ok(())
}
