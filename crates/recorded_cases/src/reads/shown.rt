//! Answers as texts.

use pdb_container::{Error, FallibleIterator, Result};
use std::alloc::Global;
use std::fmt::Debug;

/// Returns a value as a text.
///
/// # Errors
/// `OutOfMemory`.
pub fn shown<T: Debug>(alloc: Global, value: &T) -> Result<String> {
    Ok(format!(in alloc; "{value:?}")?)
}

/// Returns a value that was read, as a text.
///
/// # Errors
/// The fault of reading the value; `OutOfMemory`.
pub fn shown_read<T: Debug + Drop>(alloc: Global, read: Result<T>) -> Result<String> {
    shown(alloc, &read?)
}

/// Appends a value.
///
/// # Errors
/// `OutOfMemory`.
pub fn push<T: Debug>(alloc: Global, text: &mut String, value: &T) -> Result<()> {
    let shown = format!(in alloc; "{value:?}; ")?;
    Ok(text.push_str(shown.as_str())?)
}

/// Lists the items that an iterator gives up to its end: each with `; ` after it, and then `end` or
/// its fault. If anything comes after the end, the text says so.
///
/// # Errors
/// `OutOfMemory`.
pub fn listed<T: Debug + Drop, I: FallibleIterator<Item = T, Error = Error>>(
    alloc: Global,
    iterator: &mut I,
) -> Result<String> {
    let mut text = String::new(alloc);
    for _ in 0..100_000u32 {
        match iterator.next() {
            Ok(Some(item)) => push(alloc, &mut text, &item)?,
            end => {
                text.push_str(end_text(alloc, end)?.as_str())?;
                break;
            }
        }
    }
    if !matches!(iterator.next(), Ok(None)) {
        text.push_str(", and more")?;
    }
    Ok(text)
}

/// Returns the end of a list, as a text.
fn end_text<T: Drop>(alloc: Global, end: Result<Option<T>>) -> Result<String> {
    match end {
        Ok(_) => Ok("end".to_string(alloc)?),
        Err(fault) => shown(alloc, &fault),
    }
}
