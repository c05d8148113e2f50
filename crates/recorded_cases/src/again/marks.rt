//! Marks around each call, and the line that is printed of a question.

use crate::texts::told;
use pdb_addr2line::Error;
use std::io;

/// Prints `+` on standard error: a call begins.
///
/// # Errors
/// A failed write.
pub fn begin(rt: &impl Eprint) -> io::Result<()> {
    eprint!(rt; "+")
}

/// Prints `-` on standard error: a call ended. Prints `out of memory` on standard output if
/// `is_refused`.
///
/// # Errors
/// A failed write.
pub fn end(rt: &(impl Print + Eprint), is_refused: bool) -> io::Result<()> {
    eprint!(rt; "-")?;
    if is_refused {
        println!(rt; "out of memory")?;
    }
    Ok(())
}

/// Returns whether an error is out of memory. A writer that grows reports it as `FormatError`.
pub fn is_refusal(error: &Error) -> bool {
    matches!(error, Error::OutOfMemory | Error::FormatError(_))
}

/// Prints a line with its answer.
///
/// # Errors
/// A failed write; out of memory.
pub fn print_answer(
    rt: &(impl Print + AllocGlobal),
    line: &str,
    answer: Result<String, Error>,
) -> io::Result<()> {
    let answer = told(rt.alloc(), answer)?;
    println!(rt; "{line} => {answer}")
}
