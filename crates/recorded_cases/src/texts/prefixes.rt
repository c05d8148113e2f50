//! Answers of the prefixes of a file.

use crate::texts::question::Question;
use crate::texts::{ask as ask_bytes, told};
use pdb_addr2line::Error;
use std::alloc::Global;

/// Answers a question from each prefix of a file. Returns each length from which on the answer is
/// another one, with this answer.
///
/// # Errors
/// Out of memory; any other fault is an answer.
pub fn ask(alloc: Global, bytes: &[u8], question: &Question<'_>) -> Result<String, Error> {
    let mut text = String::new(alloc);
    let mut last = String::new(alloc);
    for length in 0..=bytes.len() {
        let answer = answer_at(alloc, bytes, length, question)?;
        if answer != last {
            write!(text, "{length:x}: {answer}; ")?;
            last = answer;
        }
    }
    write!(text, "up to {:x}", bytes.len())?;
    Ok(text)
}

/// Returns the answer from a file's prefix of that length, or its fault after `fault: `.
fn answer_at(
    alloc: Global,
    bytes: &[u8],
    length: usize,
    question: &Question<'_>,
) -> Result<String, Error> {
    let prefix = Vec::from_slice(alloc, bytes.get(..length).unwrap_or(bytes))?;
    Ok(told(alloc, ask_bytes(alloc, prefix, question))?)
}
