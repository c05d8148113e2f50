//! Answers addresses of Windows images by their program databases, as `llvm-symbolizer` does:
//! `pdb_llvm_symbolizer --obj=FILE ADDRESS..`.
//!
//! How files are found, read and cached may change. What is written may not, but to be what
//! `llvm-symbolizer` 19 writes; stored cases name each difference from it.
#![tactic(auto)]

mod arguments;
mod choices;
mod columns;
mod command_words;
mod database;
mod files;
mod first_row;
mod folders;
mod given_words;
mod help;
mod lines;
mod loaded;
mod names;
mod open_error;
mod ordered_map;
mod publics;
mod regular_file;
mod stores;
mod undecorated;

use anyhow::{Result, anyhow, bail};
use arguments::{Arguments, read_arguments};
use bumpalo::Bump;
use choices::Choices;
use files::{AskedFiles, LoadedFile, Loads};
use folders::unless_memory;
use given_words::{GivenWords, given_words};
use help::{HELP, VERSION};
use lines::{RequestAnswers, write_answers, write_made};
use loaded::FileLoader;
use pdb_engine::{InputFault, Watched, run};
use std::fs;
use std::io::{self, Read, Write};
use std::mem::forget;
use std::os::unix::fs::FileExt;
use std::process::ExitCode;
use std::rt::Files;

fn main(rt: HostRuntime) -> Result<ExitCode> {
    let given = given_words(&rt)?;
    let mut choices = Choices::new(rt.alloc());
    answer(&rt, &given, &mut choices)
}

/// Answers what the words choose. Returns the status.
fn answer<'w>(
    rt: &HostRuntime,
    given: &'w GivenWords,
    choices: &mut Choices<'w>,
) -> Result<ExitCode> {
    choices.read(rt.alloc(), given)?;
    if !choices.errors.is_empty() {
        refuse(rt, choices)
    } else if choices.help {
        finish(print!(rt; "{HELP}"))
    } else if choices.version {
        finish(println!(rt; "pdb_llvm_symbolizer {VERSION}"))
    } else {
        answer_choices(rt, given.program.as_str(), choices)
    }
}

/// Answers what a program of this name is asked by choices. Returns the status.
fn answer_choices(rt: &HostRuntime, program: &str, choices: &Choices<'_>) -> Result<ExitCode> {
    tell_hints(rt, choices);
    match read_arguments(program, choices) {
        Ok(arguments) => answer_arguments(rt, &arguments),
        Err(refusal) => {
            eprintln!(rt; "{refusal}")?;
            Ok(ExitCode::from(1))
        }
    }
}

/// Answers the requests of the arguments. Returns the status.
fn answer_arguments(rt: &HostRuntime, arguments: &Arguments<'_>) -> Result<ExitCode> {
    // Where standard input is closed the first file that is opened takes its place, and would be
    // read for it: this one has no bytes, and stays open.
    forget(unless_memory(fs::open(rt, "/dev/null"))?);
    let mut reader = Watched::new(rt.stdin());
    let mut writer = Watched::new(rt.stdout());
    match answer_requests(rt, arguments, &mut reader, &mut writer) {
        Ok(true) => Ok(ExitCode::SUCCESS),
        Ok(false) => Ok(ExitCode::from(1)),
        Err(fault) => Err(anyhow!("{}", reason(&fault))),
    }
}

/// Reports what is wrong with the words, with status 1.
fn refuse(rt: &impl Eprint, choices: &Choices<'_>) -> Result<ExitCode> {
    for error in &choices.errors {
        eprintln!(rt; "error: {error}")?;
    }
    Ok(ExitCode::from(1))
}

/// The status after a text that was written or not.
fn finish(written: io::Result<()>) -> Result<ExitCode> {
    match written {
        Ok(()) => Ok(ExitCode::SUCCESS),
        Err(_) => bail!("standard output can't be written"),
    }
}

/// Warns of folders that aren't those of symbols for Apple's systems.
fn tell_hints(rt: &impl Eprint, choices: &Choices<'_>) {
    for hint in &choices.dsym_hints {
        if !hint.ends_with(".dSYM") {
            tell_hint(rt, *hint);
        }
    }
}

/// Warns of a folder; a write that fails is ignored.
fn tell_hint(rt: &impl Eprint, hint: &str) {
    let why = "must have the '.dSYM' extension";
    let _ = eprintln!(rt; "Warning: invalid dSYM hint: \"{hint}\" ({why}).");
}

/// Why not all answers are written.
fn reason(fault: &InputFault) -> &'static str {
    match fault {
        InputFault::Read(_) => "standard input can't be read",
        InputFault::Write(_) => "standard output can't be written",
        InputFault::InputTooLong => "standard input is too long",
        InputFault::OutOfMemory => "out of memory",
    }
}

/// Answers the addresses among the arguments, or those of the reader's lines. Returns whether the
/// file of `--obj` is loaded, if it is given, and all files could be read; else that is reported.
/// What the files hold is left to the process.
fn answer_requests<
    'c,
    S: Files<File = F> + Eprint + AllocGlobal,
    F: FileExt + Drop,
    R: Read,
    W: Write,
>(
    rt: &'c S,
    arguments: &'c Arguments<'c>,
    reader: &mut Watched<R>,
    writer: &mut Watched<W>,
) -> Result<bool, InputFault> {
    let arena = Bump::new(rt.alloc());
    let loader: FileLoader<'_, S, F> = FileLoader::new(rt, &arena);
    let files = AskedFiles::new(rt, loader, arguments);
    let mut answers = RequestAnswers {
        files,
        room: Vec::new(rt.alloc()),
        is_short: false,
    };
    let outcome = answer_by(&mut answers, arguments, reader, writer);
    forget(answers);
    outcome
}

/// Loads the file of `--obj`, and answers the addresses; returns whether all files that were loaded
/// could be read. Where standard input can't be read, as where it is closed, it has ended.
fn answer_by<S: Eprint + AllocGlobal, O: Loads<L> + Drop, L: LoadedFile, R: Read, W: Write>(
    answers: &mut RequestAnswers<'_, S, O, L>,
    arguments: &Arguments<'_>,
    reader: &mut Watched<R>,
    writer: &mut Watched<W>,
) -> Result<bool, InputFault> {
    if !load_object(answers, writer)? {
        return Ok(false);
    }
    let outcome = if arguments.choices.inputs.is_empty() {
        run(
            answers.files.system.alloc(),
            answers,
            reader,
            writer,
            u64::MAX,
        )
    } else {
        write_answers(answers, arguments, writer)
    };
    match outcome {
        Ok(()) | Err(InputFault::Read(_)) => Ok(true),
        // A file that can't be read ends a run as lack of memory does.
        Err(InputFault::OutOfMemory) if answers.files.tell_failed_read() => Ok(false),
        Err(fault) => Err(fault),
    }
}

/// Loads the file of `--obj`, if it is given. Returns whether that is loaded; where it isn't, the
/// error is written in JSON.
fn load_object<S: Eprint + AllocGlobal, O: Loads<L> + Drop, L: LoadedFile, W: Write>(
    answers: &mut RequestAnswers<'_, S, O, L>,
    writer: &mut Watched<W>,
) -> Result<bool, InputFault> {
    answers.room.clear();
    match answers.files.ask_object(&mut answers.room) {
        Ok(true) => Ok(true),
        Ok(false) => {
            write_made(Ok(()), &answers.room, writer)?;
            Ok(false)
        }
        Err(_) => Err(InputFault::OutOfMemory),
    }
}
