//! Asks a context or a formatter of types twice all questions of a file, and each question again if
//! it runs out of memory: `again KIND DATABASE FLAGS FILE`.
//!
//! KIND is `context`, `formatter`, or `symbolizer` for the context of a `Symbolizer`. DATABASE is
//! the file of a program database itself, never a text of one. FLAGS is a number, which counts for
//! nothing with `symbolizer`, whose flags are the default ones. A line of FILE is a question about
//! the database: a word for what is asked, the index of a module, and an index, an RVA or an
//! offset, as `texts.rt` describes them. It is printed with its answer, or with `fault: ` and the
//! fault.
//!
//! When a call runs out of memory, `out of memory` is printed, and the call is made once more, on
//! the same object. A library refuses the requests in turn (`tests/refused_requests`). Standard
//! error has `+` before each call and `-` after it, which shows that library which requests are the
//! call's.

mod contexts;
mod formatters;
mod made;
mod marks;

use anyhow::{Context, Result, bail};
use pdb_addr2line::{Flags, TypeFormatterFlags};
use std::alloc::Global;
use std::fs;
use std::rt::Files;

/// Returns the argument with that index.
fn word(words: &[String], number: usize) -> Result<&str> {
    let word = words
        .get(number)
        .context("usage: recorded_cases again KIND DATABASE FLAGS FILE")?;
    Ok(word.as_str())
}

/// Asks as the program's arguments say, of which the first is `again`.
///
/// # Errors
/// Arguments of another form, a file that can't be read, a database that can't be asked, a failed
/// write; out of memory.
pub fn run(rt: &(impl Files + Print + Eprint + AllocGlobal), words: &[String]) -> Result<()> {
    let bytes = fs::read(rt, word(words, 2)?)?;
    let flags = TypeFormatterFlags::from_bits_retain(word(words, 3)?.parse::<u32>()?);
    let questions = fs::read_to_string(rt, word(words, 4)?)?;
    match word(words, 1)? {
        "context" => made::ask_context(rt, &bytes, flags, questions.as_str()),
        "symbolizer" => made::ask_symbolizer(rt, &bytes, questions.as_str()),
        "formatter" => made::ask_formatter(rt, &bytes, flags, questions.as_str()),
        _ => bail!("no such kind"),
    }
}
