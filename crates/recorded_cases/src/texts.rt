//! Cases of texts: the texts of formatters of types, and the answers of contexts about addresses.
//!
//! A line of a file is a case if it contains ` => `. Before that stand five words: what is asked;
//! the file of a database, as `database.rt` describes it; the index of a module; the flags; and an
//! index, an RVA or an offset, in hexadecimal. After it stands the answer that must come, or
//! `fault: ` and the fault. What is asked:
//!
//! - `function`, `emitted`: the signature of a function `f` whose type has that index, returned or
//!   written to a writer
//! - `unnamed`: the signature of a function without a name whose type has that index
//! - `id`, `emitted_id`: the text of the id with that index, returned or written to a writer
//! - `size`: the size in bytes of the type with that index
//! - `function_at`: the function at that RVA, as its copy
//! - `frames_at`: the frames at that RVA, as their copy
//! - `shared_at`: the frames at that RVA, with shared names
//! - `run_from`: the function at that offset of section 1, the number of bytes up to 256 over which
//!   it stays the same, and the number of places that were looked up for it
//! - `file_run_from`: the source file at that offset of section 1, the number of bytes up to 256
//!   over which it stays the same, and the number of places that were looked up for it
//! - `file_run_again`: the same as `file_run_from`, of a context that was asked before for the
//!   frames at that offset from RVA 0x1000
//! - `frames_run_from`: the frames at that offset of section 1, the number of bytes up to 256 over
//!   which they stay the same, and the number of places that were looked up for them
//! - `functions`: the number of entries of the public list, and all functions
//! - `each_again`: for frames, function, run and functions, the number of the 288 addresses from
//!   that RVA on at which a new context asks for modules, and how often such contexts ask for them
//!   when they are asked again. Then how often one context asks for them that was asked for all
//!   four at each address
//! - `forgotten`: the number of the 288 addresses from that RVA on at which a context that is asked
//!   for the frames asks for modules. Then, of every eighth address, the number at which its frames
//!   are those of a new one
//! - `prefixes`: the frames at that RVA in each prefix of the file: each length, in hexadecimal,
//!   from which on the answer is another one, and that answer
//!
//! A case whose answer isn't as recorded is printed.

mod calls;
pub mod contexts;
mod each_address;
mod forgotten;
pub mod formatters;
mod prefixes;
pub mod question;

use crate::database::database_bytes;
use anyhow::Result;
use pdb_addr2line::pdb::PDB;
use pdb_addr2line::{ContextPdbData, Error};
use question::{Asked, Question, question_of};
use std::alloc::{AllocError, Global};
use std::fs;
use std::rt::Files;

/// The data that were read of a database.
pub type Data = ContextPdbData<'static, 'static, Vec<u8>>;

/// Goes through the cases of a file, and returns their number.
///
/// # Errors
/// A file that can't be read; out of memory.
pub fn run_file(rt: &(impl Files + Print + AllocGlobal), file: &str) -> Result<u64> {
    let text = fs::read_to_string(rt, file)?;
    let mut count = 0u64;
    for line in text.lines() {
        if let Some((question, wanted)) = line.split_once(" => ") {
            run_case(rt, question, wanted)?;
            count = count.saturating_add(1);
        }
    }
    Ok(count)
}

/// Answers a case, and prints it if the answer isn't as recorded.
fn run_case(rt: &(impl Files + Print + AllocGlobal), words: &str, wanted: &str) -> Result<()> {
    let question = question_of(words);
    let bytes = database_bytes(rt, question.file)?;
    let answer = told(rt.alloc(), answer(rt.alloc(), bytes, &question))?;
    if answer.as_str() == wanted {
        return Ok(());
    }
    Ok(println!(rt; "{words}\n  gives {answer}\n  and not {wanted}")?)
}

/// Returns the text of an answer, or its fault after `fault: `.
///
/// # Errors
/// Out of memory.
pub fn told(alloc: Global, answer: Result<String, Error>) -> Result<String, AllocError> {
    match answer {
        Ok(text) => Ok(text),
        Err(fault) => format!(in alloc; "fault: {fault}"),
    }
}

/// Answers a question from a file's bytes.
fn answer(alloc: Global, bytes: Vec<u8>, question: &Question<'_>) -> Result<String, Error> {
    match question.asked {
        Asked::EachAgain | Asked::Forgotten => calls::ask(alloc, bytes, question),
        Asked::Prefixes => prefixes::ask(alloc, &bytes, question),
        _ => ask(alloc, bytes, question),
    }
}

/// Reads the data of a database, and answers a question from them.
fn ask(alloc: Global, bytes: Vec<u8>, question: &Question<'_>) -> Result<String, Error> {
    let data = data_of(alloc, bytes)?;
    ask_over(alloc, &data, question)
}

/// Answers a question from the data that were read of a database.
fn ask_over(alloc: Global, data: &Data, question: &Question<'_>) -> Result<String, Error> {
    match question.asked {
        Asked::Function
        | Asked::Unnamed
        | Asked::Emitted
        | Asked::Id
        | Asked::EmittedId
        | Asked::Size => formatters::ask(alloc, data, question),
        _ => contexts::ask(alloc, data, question),
    }
}

/// Reads the data of a database.
///
/// # Errors
/// A database that can't be read; out of memory.
pub fn data_of(alloc: Global, bytes: Vec<u8>) -> Result<Data, Error> {
    let database = PDB::open(alloc, bytes)?;
    ContextPdbData::try_from_pdb(alloc, database)
}
