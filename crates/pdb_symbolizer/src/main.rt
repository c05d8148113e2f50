//! Answers addresses of a program from its program database: `pdb_symbolizer frames FILE`; and
//! counts the addresses of a range that each function has, or with `--by-file` each source file:
//! `pdb_symbolizer sizes FILE START END`. With `--demangle` names of functions are undecorated.
//! With `--json` `frames` writes lines of JSON.
//!
//! The way in which a file is read may change. What is written, with which status, may not: scripts
//! read it, and contracts of `pdb_report` say it.
#![tactic(auto)]

ghost use Rattle.std.specs.Prelude.{◌≡◌, Ok, Err, IfErr, OnOk};
ghost use Rattle.pdb_symbolizer.specs.TaskReports.{DoesTask};
ghost use Rattle.pdb_symbolizer.specs.Tasks.{order_of as order_for};

mod on_demand;
mod undecorated;

use crate::on_demand::{run_task_on_demand, size_of};
use crate::undecorated::{ReportKind, UndecoratedWriter};
use bumpalo::Bump;
pub use pdb_arguments::{Task, TextOutput, WordsFault, read_words, tell_words};
use pdb_file_views::reach;
pub use pdb_report::{
    AtEnd, ContributionOrder, Error, LoadFault, RunFault, Symbolizer, Tally, Watched, finish_run,
    parse_address, read_file, run_frames, run_frames_with_order, run_sizes, run_sizes_by_file,
    run_sizes_by_file_with_order, run_sizes_with_order,
};
use pdb_report::{FileOnDemand, FileRun, JsonLines, run_frames_in};
use std::alloc::Global;
use std::io::{self, ErrorKind, Read, Write};
use std::mem::forget;
use std::os::unix::fs::FileExt;
use std::process::ExitCode;
use std::rt::{Env, Files};
use std::{env, fs};

/// The text that is reported if an argument isn't UTF-8.
const NOT_UTF8: &str = "error: invalid UTF-8 was detected in one or more arguments\n\n\
    Usage: pdb_symbolizer <COMMAND>\n\nFor more information, try '--help'.\n";

fn main(rt: HostRuntime) -> ExitCode {
    let mut errors = rt.stderr();
    let words = match given_words(&rt) {
        Ok(words) => words,
        Err(error) if error.kind() == ErrorKind::OutOfMemory => {
            return exit_with(&mut errors, "fault: OutOfMemory\n", 1);
        }
        Err(_) => return exit_with(&mut errors, NOT_UTF8, 2),
    };
    let task = match read_words(rt.alloc(), words.as_slice()) {
        Ok(task) => task,
        Err(fault) => {
            return ExitCode::from(finish_words(&fault, &mut rt.stdout(), &mut errors));
        }
    };
    let mut reader = Watched::new(rt.stdin());
    match write_report(&rt, &task, &mut reader, rt.stdout()) {
        Ok(outcome) => ExitCode::from(finish_run(outcome, &mut errors)),
        Err(error) if error.kind() == ErrorKind::OutOfMemory => {
            exit_with(&mut errors, "fault: OutOfMemory\n", 1)
        }
        Err(_) => exit_with(&mut errors, "fault: ReadFile\n", 1),
    }
}

/// The file that a task is about.
fn file_path(task: &Task) -> &str {
    match task {
        Task::Frames { file, .. } => file.as_str(),
        Task::Sizes { file, .. } => file.as_str(),
    }
}

/// The order in which section contributions have to stand for a task.
fn order_of(task: &Task) -> ContributionOrder
    ensures { result ≡ order_for task.now }
{
    match task {
        Task::Frames {
            any_order: true,
            ..
        } => ContributionOrder::Any,
        Task::Sizes {
            any_order: true,
            ..
        } => ContributionOrder::Any,
        _ => ContributionOrder::InOrder,
    }
}

/// The report that a task asks for with undecorated names, if it does: by file it has no names of
/// functions.
fn undecorated_report(task: &Task) -> Option<ReportKind> {
    match task {
        Task::Frames {
            demangle: true,
            json: true,
            ..
        } => Some(ReportKind::Json),
        Task::Frames { demangle: true, .. } => Some(ReportKind::Frames),
        Task::Sizes {
            by_file: false,
            demangle: true,
            ..
        } => Some(ReportKind::Sizes),
        _ => None,
    }
}

/// Opens a file without bytes, if it can be opened. Where standard input is closed the first file
/// that is opened takes its place, and would be read for it.
///
/// # Errors
/// `OutOfMemory`.
fn empty_file<S: Files>(rt: &S) -> io::Result<Option<S::File>> {
    match fs::open(rt, "/dev/null") {
        Ok(file) => Ok(Some(file)),
        Err(error) if error.kind() == ErrorKind::OutOfMemory => Err(error),
        Err(_) => Ok(None),
    }
}

/// Writes the report that is asked for to an output, through a writer that undecorates its names if
/// the task asks for it.
///
/// # Errors
/// The errors of `report_by_file`.
fn write_report<S: Files + AllocGlobal, R: Read, W: Write + Drop>(
    rt: &S,
    task: &Task,
    reader: &mut Watched<R>,
    output: W,
) -> io::Result<Result<(), RunFault>>
where
    S::File: FileExt,
{
    let _first = empty_file(rt)?;
    match undecorated_report(task) {
        None => {
            let mut writer = Watched::new(output);
            report_by_file(rt, task, reader, &mut writer)
        }
        Some(kind) => {
            let mut writer = Watched::new(UndecoratedWriter::new(rt.alloc(), kind, output));
            report_by_file(rt, task, reader, &mut writer)
        }
    }
}

/// Writes the report that is asked for from the task's file: a regular one is read on demand, any
/// other from its beginning on. The process is left to give its memory back.
///
/// # Errors
/// The error in opening the file, or in reading it from its beginning on.
fn report_by_file<S: Files + AllocGlobal, R: Read, W: Write>(
    rt: &S,
    task: &Task,
    reader: &mut Watched<R>,
    writer: &mut Watched<W>,
) -> io::Result<Result<(), RunFault>>
where
    S::File: FileExt,
{
    let mut file = fs::open(rt, file_path(task))?;
    let Some(size) = size_of(&file) else {
        let bytes = read_file(rt.alloc(), &mut file)?;
        return Ok(run_task(rt.alloc(), task, bytes, reader, writer));
    };
    let size = match reach(&file, size) {
        Ok(size) => size,
        Err(error) => return Ok(Err(RunFault::File(error.kind()))),
    };
    let arena = Bump::new(rt.alloc());
    let mut source = FileOnDemand::new(rt.alloc(), &arena, file, size)?;
    source.order = order_of(task);
    let FileRun { outcome, source } = run_task_on_demand(rt.alloc(), task, source, reader, writer);
    forget(source);
    forget(arena);
    Ok(outcome)
}

/// Reports the fault of arguments that give no task, and returns the exit status; 1 where help
/// can't be written, which is reported, too.
fn finish_words<W: Write, E: Write>(fault: &WordsFault, output: &mut W, errors: &mut E) -> u8 {
    match tell_words(fault, output, errors) {
        Ok(status) => status,
        Err(kind) => finish_run(Err(RunFault::Write(kind)), errors),
    }
}

/// Writes the report that is asked for.
///
/// # Errors
/// The errors of [`run_frames`] and [`run_sizes`].
fn run_task<R: Read, W: Write>(
    alloc: Global,
    task: &Task,
    bytes: Vec<u8>,
    reader: &mut Watched<R>,
    writer: &mut Watched<W>,
) -> Result<(), RunFault>
    ensures { DoesTask task.now bytes.items R.remaining W.contents reader.old
        writer.old writer.new result }
{
    let order = order_of(task);
    match task {
        Task::Frames { json: true, .. } => {
            run_frames_in::<JsonLines, R, W>(
                alloc,
                bytes,
                order,
                reader,
                writer,
                AtEnd::LeaveToProcess,
            )
        }
        Task::Frames { .. } => {
            run_frames_with_order(alloc, bytes, order, reader, writer, AtEnd::LeaveToProcess)
        }
        Task::Sizes {
            start,
            end,
            by_file: true,
            ..
        } => without_tally(run_sizes_by_file_with_order(alloc, bytes, order, *start, *end, writer)),
        Task::Sizes { start, end, .. } => {
            without_tally(run_sizes_with_order(alloc, bytes, order, *start, *end, writer))
        }
    }
}

/// The outcome of a count; how much was looked up for it isn't reported.
fn without_tally(outcome: Result<Tally, RunFault>) -> Result<(), RunFault>
    ensures ok { OnOk outcome (result ≡ Ok tt) }
    ensures err { IfErr outcome (λ fault. result ≡ Err fault) }
{
    match outcome {
        Ok(_) => Ok(()),
        Err(fault) => Err(fault),
    }
}

/// The arguments after the program's name.
///
/// # Errors
/// `OutOfMemory`, and another kind where an argument isn't UTF-8.
fn given_words(rt: &(impl Env + AllocGlobal)) -> io::Result<Vec<String>> {
    let mut words = Vec::new(rt.alloc());
    for word in env::args(rt)?.skip(1) {
        words.push(word)?;
    }
    Ok(words)
}

/// Writes a text, and returns the status; a write that fails is ignored.
fn exit_with(stream: &mut impl Write, text: &str, status: u8) -> ExitCode {
    let _ = stream.write_all(text.as_bytes());
    ExitCode::from(status)
}
