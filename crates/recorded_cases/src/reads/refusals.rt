//! The reports of refused memory.

use std::io;

/// Reports that a case begins.
///
/// # Errors
/// A failed write.
pub fn begin(rt: &impl Eprint) -> io::Result<()> {
    eprint!(rt; "+")
}

/// Reports that a case ended.
///
/// # Errors
/// A failed write.
pub fn end(rt: &impl Eprint) -> io::Result<()> {
    eprint!(rt; "-")
}

/// Reports that memory ran out, before the same is asked again.
///
/// # Errors
/// A failed write.
pub fn tell(rt: &impl Print) -> io::Result<()> {
    println!(rt; "out of memory")
}
