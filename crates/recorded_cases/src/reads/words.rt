//! Bytes that words spell.

use hex::FromHexError;
use pdb_container::{Error, Result};
use std::alloc::Global;

/// Returns the error for an unknown case.
pub fn not_a_case() -> Error {
    Error::UnimplementedFeature("no such case")
}

/// Returns the bytes that pairs of hexadecimal digits spell; `-` spells none.
///
/// # Errors
/// `UnimplementedFeature` for other words; `OutOfMemory`.
pub fn bytes_of(alloc: Global, word: &str) -> Result<Vec<u8>> {
    if word == "-" {
        return Ok(Vec::new(alloc));
    }
    match hex::decode(alloc, word) {
        Ok(bytes) => Ok(bytes),
        Err(FromHexError::OutOfMemory) => Err(Error::OutOfMemory),
        Err(_) => Err(not_a_case()),
    }
}

/// Writes bytes over a file's, as `PLACE:BYTES,PLACE:BYTES` says; `-` changes none.
///
/// # Errors
/// The errors of [`bytes_of`].
pub fn change(alloc: Global, file: &mut [u8], changes: &str) -> Result<()> {
    for change in changes.split(',') {
        change_place(alloc, file, change)?;
    }
    Ok(())
}

/// Writes the bytes of one change over a file.
fn change_place(alloc: Global, file: &mut [u8], change: &str) -> Result<()> {
    if let Some((place, bytes)) = change.split_once(':') {
        let bytes = bytes_of(alloc, bytes)?;
        write_over(file, place.parse::<usize>().unwrap_or(0), &bytes);
    }
    Ok(())
}

/// Writes bytes over a file's from a place on.
fn write_over(file: &mut [u8], place: usize, bytes: &[u8]) {
    for (old, new) in file.iter_mut().skip(place).zip(bytes) {
        *old = *new;
    }
}
