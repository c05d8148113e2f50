//! Cases of reads: the answers of records, streams, tables and addresses.
//!
//! A recorded answer comes from the format, so it stays whatever the code says.
//!
//! A line of a file is a case if it contains ` => `. Before that stand words: the task; bytes in
//! hexadecimal, a number or a database's file; changes of that file or further bytes; and numbers.
//! After it stands the answer, or the fault, that must come.
//!
//! When a case runs out of memory, `out of memory` is printed, and it is asked once more, of the
//! same database if that was open. A library refuses the requests in turn
//! (`tests/refused_requests`). Standard error has `+` before each case and `-` after it, which
//! shows that library which requests are the case's.
//!
//! A case whose answer isn't as recorded is printed.

mod addresses;
mod databases;
mod modules;
mod pages;
mod question;
mod records;
mod refusals;
mod shown;
mod sums;
mod words;

use pdb_container::{Error, Result};
use question::{Question, Subject, question_of};
use shown::shown;
use std::rt::Files;
use std::{fs, io};

/// Goes through the cases of a file, and returns their number.
///
/// # Errors
/// A file that can't be read, a failed write; `OutOfMemory`.
pub fn run_file(rt: &(impl Files + Print + Eprint + AllocGlobal), file: &str) -> Result<u64> {
    let text = fs::read_to_string(rt, file)?;
    run_lines(rt, text.as_str())
}

/// Goes through the cases of a text.
fn run_lines(rt: &(impl Files + Print + Eprint + AllocGlobal), text: &str) -> Result<u64> {
    let mut count = 0u64;
    for line in text.lines() {
        count = count.saturating_add(run_line(rt, line)?);
    }
    Ok(count)
}

/// Goes through the case of a line, and returns 1, or 0 where the line is no case.
fn run_line(rt: &(impl Files + Print + Eprint + AllocGlobal), line: &str) -> Result<u64> {
    match line.split_once(" => ") {
        None => Ok(0),
        Some((question, wanted)) => {
            run_case(rt, question, wanted)?;
            Ok(1)
        }
    }
}

/// Answers a case, and prints it if the answer isn't as recorded.
fn run_case(
    rt: &(impl Files + Print + Eprint + AllocGlobal),
    question: &str,
    wanted: &str,
) -> Result<()> {
    let answer = told(rt, &question_of(question))?;
    Ok(print_other(rt, question, answer.as_str(), wanted)?)
}

/// Prints an answer that isn't the wanted one.
fn print_other(rt: &impl Print, question: &str, answer: &str, wanted: &str) -> io::Result<()> {
    if answer == wanted {
        return Ok(());
    }
    println!(rt; "{question}\n  gives {answer}\n  and not {wanted}")
}

/// Returns the answer to a question, or its fault as a text. It is asked again if memory runs out.
fn told(
    rt: &(impl Files + Print + Eprint + AllocGlobal),
    question: &Question<'_>,
) -> Result<String> {
    match answer_again(rt, question) {
        Ok(answer) => Ok(answer),
        Err(fault) => shown(rt.alloc(), &fault),
    }
}

/// Answers a question, and once more if memory runs out.
fn answer_again(
    rt: &(impl Files + Print + Eprint + AllocGlobal),
    question: &Question<'_>,
) -> Result<String> {
    refusals::begin(rt)?;
    let answered = answer(rt, question);
    refusals::end(rt)?;
    match answered {
        Err(Error::OutOfMemory) => {
            refusals::tell(rt)?;
            answer(rt, question)
        }
        answered => answered,
    }
}

/// Answers a question.
fn answer(rt: &(impl Files + Print + AllocGlobal), question: &Question<'_>) -> Result<String> {
    match question.subject {
        Subject::Number(number) => sums::ask(rt.alloc(), number, question),
        Subject::Bytes(bytes) => {
            let bytes = words::bytes_of(rt.alloc(), bytes)?;
            modules::ask(rt.alloc(), &bytes, question)
        }
        Subject::File(file) => {
            let mut bytes = fs::read(rt, file)?;
            words::change(rt.alloc(), &mut bytes, question.further)?;
            databases::ask(rt, bytes, question)
        }
    }
}
