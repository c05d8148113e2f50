//! The words that the program is given.

use std::rt::Env;
use std::{env, io};

/// The arguments after the program's name.
///
/// # Errors
/// `OutOfMemory`, and another kind where an argument isn't UTF-8.
pub fn given_words(rt: &(impl Env + AllocGlobal)) -> io::Result<Vec<String>> {
    let mut words = Vec::new(rt.alloc());
    for word in env::args(rt)?.skip(1) {
        words.push(word)?;
    }
    Ok(words)
}
