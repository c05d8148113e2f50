//! Lists what a program database has: `pdb_inspect functions FILE`, `lines`, `modules`, `sources`,
//! `info`, `locate`, `sizes`, and `diff OLD NEW`.
//!
//! Commands may be added, and columns at the end of a row. The columns that are there, and their
//! names in CSV and JSON, may not change: other programs read them.
#![tactic(auto)]

mod arguments;
mod contributions;
mod diff;
mod fault;
mod file_facts;
mod functions;
mod info;
mod lines;
mod loaded;
mod locate;
mod modules;
mod opened_file;
mod output;
mod progress;
mod sizes;
mod sources;

use arguments::{Given, Request, Task, read_arguments};
use bumpalo::Bump;
use fault::Fault;
use loaded::{Loaded, load};
use output::Output;
use pdb_listings::Size;
use progress::Progress;
use sizes::{needs_of, sizes_of};
use std::env;
use std::io::{self, ErrorKind, IsTerminal, Write};
use std::mem::forget;
use std::os::unix::fs::FileExt;
use std::process::ExitCode;
use std::rt::{Env, Files};

fn main(rt: HostRuntime) -> ExitCode {
    match given_words(&rt) {
        Ok(words) => answer_words(&rt, words.as_slice()),
        Err(error) if error.kind() == ErrorKind::OutOfMemory => end(&rt, Err(Fault::OutOfMemory)),
        Err(_) => {
            let _ = eprintln!(rt; "error: an argument isn't UTF-8");
            ExitCode::from(2)
        }
    }
}

/// Does what the words ask for, and returns the exit status.
fn answer_words(rt: &HostRuntime, words: &[String]) -> ExitCode {
    match read_arguments(rt.alloc(), words) {
        Ok(Given::Request(request)) => {
            let shows = rt.stderr().is_terminal();
            let mut progress = Progress::new(rt.stderr(), shows);
            let outcome = run(rt, &request, rt.stdout(), &mut progress);
            progress.end();
            end(rt, outcome)
        }
        Ok(Given::Text(text, status)) => write_text(rt, text.as_str(), status),
        Err(_) => end(rt, Err(Fault::OutOfMemory)),
    }
}

/// Writes a text to standard output, or to standard error where the status isn't 0, and returns
/// the exit status.
fn write_text(rt: &HostRuntime, text: &str, status: u8) -> ExitCode {
    if status != 0 {
        let _ = rt.stderr().write_all(text.as_bytes());
        return ExitCode::from(status);
    }
    match rt.stdout().write_all(text.as_bytes()) {
        Ok(()) => ExitCode::SUCCESS,
        Err(_) => end(rt, Err(Fault::Write)),
    }
}

/// The arguments after the program's name.
fn given_words(rt: &(impl Env + AllocGlobal)) -> io::Result<Vec<String>> {
    let mut words = Vec::new(rt.alloc());
    for word in env::args(rt)?.skip(1) {
        words.push(word)?;
    }
    Ok(words)
}

/// The exit status of a run; a fault is reported.
fn end(rt: &impl Eprint, outcome: Result<bool, Fault>) -> ExitCode {
    match outcome {
        Ok(true) => ExitCode::SUCCESS,
        Ok(false) => ExitCode::from(1),
        Err(fault) => {
            let _ = eprintln!(rt; "pdb_inspect: {fault}");
            ExitCode::from(1)
        }
    }
}

/// Writes what is asked for, and returns whether all of it was found. What is held of databases is
/// left to the process.
fn run<S: Files + Eprint + AllocGlobal, W: Write + Drop, E: Write>(
    rt: &S,
    request: &Request<'_>,
    writer: W,
    progress: &mut Progress<E>,
) -> Result<bool, Fault>
where
    S::File: FileExt,
{
    let arena = Bump::new(rt.alloc());
    let mut output = Output::new(rt.alloc(), writer, request.format);
    let found = write_task(rt, &arena, request, &mut output, progress);
    forget(arena);
    let found = found?;
    output.flush()?;
    Ok(found)
}

/// Writes the rows of a task, and returns whether all of what was asked for was found.
fn write_task<S: Files + Eprint + AllocGlobal, W: Write + Drop, E: Write>(
    rt: &S,
    arena: &Bump,
    request: &Request<'_>,
    output: &mut Output<W>,
    progress: &mut Progress<E>,
) -> Result<bool, Fault>
where
    S::File: FileExt,
{
    match request.task {
        Task::Sources => sources::write(rt, arena, request, output, progress),
        Task::Info => info::write(rt, arena, request, output),
        Task::Diff => write_changes(rt, arena, request, output, progress),
        _ => {
            let loaded = load(rt, arena, request.file, needs_of(request.sizes.by))?;
            return write_list(rt, loaded, request, output);
        }
    }?;
    Ok(true)
}

/// Writes the rows of a task that goes over one database alone, and returns whether all of what was
/// asked for was found.
fn write_list<S: Eprint + AllocGlobal, W: Write + Drop>(
    rt: &S,
    loaded: Loaded<'_>,
    request: &Request<'_>,
    output: &mut Output<W>,
) -> Result<bool, Fault> {
    let alloc = rt.alloc();
    match request.task {
        Task::Lines => lines::write(alloc, loaded, output),
        Task::Modules => modules::write(alloc, loaded, output),
        Task::Locate => return locate::write(rt, loaded, request.others.as_slice(), output),
        Task::Sizes => sizes::write(alloc, loaded, request, output),
        _ => functions::write(alloc, loaded, request.demangle, output),
    }?;
    Ok(true)
}

/// The sizes of the database of the file at a path, which is shown on a terminal.
fn sizes_at<'a, S: Files + AllocGlobal, E: Write>(
    rt: &S,
    arena: &'a Bump,
    path: &'a str,
    request: &Request<'_>,
    progress: &mut Progress<E>,
) -> Result<Vec<Size>, Fault>
where
    S::File: FileExt,
{
    progress.over(path);
    let loaded = load(rt, arena, path, needs_of(request.sizes.by))?;
    sizes_of(rt.alloc(), loaded, request.sizes, request.demangle)
}

/// Writes the change of sizes from a file to the other one, which the arguments give.
fn write_changes<S: Files + AllocGlobal, W: Write + Drop, E: Write>(
    rt: &S,
    arena: &Bump,
    request: &Request<'_>,
    output: &mut Output<W>,
    progress: &mut Progress<E>,
) -> Result<(), Fault>
where
    S::File: FileExt,
{
    let Some(new) = request.other() else {
        return Ok(());
    };
    let old = sizes_at(rt, arena, request.file, request, progress)?;
    let new = sizes_at(rt, arena, new, request, progress)?;
    progress.end();
    diff::write(rt.alloc(), &old, &new, request.sizes.top, output)
}
