//! Goes through recorded cases: `recorded_cases WORD..`.
//!
//! A WORD is the file of cases of formatters and contexts, as `texts.rt` describes them; after the
//! word `reads` the file of cases of reads, as `reads.rt` does. Each case whose answer isn't as
//! recorded is printed, and after each file the number of its cases. After the word `streams` it is
//! the shape of a container whose reading is timed, as `streams.rt` describes.
//!
//! Or asks about a database again, where a call finds no memory: `recorded_cases again KIND
//! DATABASE FLAGS FILE`, as `again.rt` describes. Or writes the texts of decorated names:
//! `recorded_cases undecorated FILE`, as `undecorated.rt` describes.
//!
//! Cases may be added. A recorded answer may change with a difference that docs/DIFFERENCES.md
//! names, and the form of cases with the scripts that write them.
#![tactic(auto)]

mod again;
mod database;
mod reads;
mod streams;
mod texts;
mod undecorated;

use anyhow::Result;
use std::env;
use std::rt::{Clock, Env, Files};

/// The kind of the program's next words.
#[derive(Clone, Copy)]
enum Words {
    /// Files of cases of formatters and contexts.
    Texts,
    /// Files of cases of reads.
    Reads,
    /// Shapes of containers.
    Streams,
}

/// Returns the program's arguments.
fn words_of(rt: &(impl Env + AllocGlobal)) -> Result<Vec<String>> {
    let mut words = Vec::new(rt.alloc());
    for word in env::args(rt)?.skip(1) {
        words.push(word)?;
    }
    Ok(words)
}

/// Carries out the program's words.
fn run_words(
    rt: &(impl Files + Print + Eprint + Clock + AllocGlobal),
    words: &[String],
) -> Result<()> {
    let mut kind = Words::Texts;
    for word in words {
        match word.as_str() {
            "reads" => kind = Words::Reads,
            "streams" => kind = Words::Streams,
            word => run_word(rt, kind, word)?,
        }
    }
    Ok(())
}

/// Goes through the cases of a file, and prints their number; or times a container.
fn run_word(
    rt: &(impl Files + Print + Eprint + Clock + AllocGlobal),
    kind: Words,
    word: &str,
) -> Result<()> {
    match kind {
        Words::Texts => print_count(rt, texts::run_file(rt, word)?, "texts"),
        Words::Reads => print_count(rt, reads::run_file(rt, word)?, "reads"),
        Words::Streams => streams::run(rt, word),
    }
}

/// Prints the number of cases of a kind in a file.
fn print_count(rt: &impl Print, count: u64, kind: &str) -> Result<()> {
    Ok(println!(rt; "{count} {kind}")?)
}

fn main(rt: HostRuntime) -> Result<()> {
    let words = words_of(&rt)?;
    match words.first() {
        Some(word) if word.as_str() == "again" => again::run(&rt, &words),
        Some(word) if word.as_str() == "undecorated" => undecorated::run(&rt, &words),
        _ => run_words(&rt, &words),
    }
}
