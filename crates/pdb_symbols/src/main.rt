//! Writes the symbol file of a Windows program by its database (PDB), which crash reporters read:
//! `pdb_symbols FILE [IMAGE]`.
#![tactic(auto)]

mod describing;
mod destination;
mod fault;
mod file_told;
mod help;
mod identity;
mod image;
mod image_file;
mod laws;
mod making;
mod making_on_demand;
mod memory_told;
mod options;
mod output_file;
mod progress;
mod renaming;
mod shown;
mod told_places;
mod undecorated;
mod words;
mod writing;

use destination::write_symbols;
use fault::SymbolsFault;
use help::{HELP, NOT_UTF8, VERSION};
use options::{Options, Words, read_options};
use output_file::is_output_read;
use progress::{ERASED, Progress};
use std::io::{ErrorKind, IsTerminal, Write};
use std::process::ExitCode;
use words::given_words;

fn main(rt: HostRuntime) -> ExitCode {
    match given_words(&rt) {
        Ok(words) => answer_words(&rt, words.as_slice()),
        Err(error) if error.kind() == ErrorKind::OutOfMemory => {
            report(&mut rt.stderr(), &SymbolsFault::out_of_memory())
        }
        Err(_) => exit_with(&mut rt.stderr(), NOT_UTF8, 2),
    }
}

/// Does what the words ask for, and returns the exit status.
fn answer_words(rt: &HostRuntime, words: &[String]) -> ExitCode {
    let mut errors = rt.stderr();
    match read_options(words) {
        Words::Options(options) => run(rt, &options),
        Words::Wrong(what, word) => refuse_word(&mut errors, what, word),
        Words::NoFile => refuse(&mut errors, "the argument <FILE> is required"),
        Words::Help => tell(&mut rt.stdout(), &mut errors, HELP),
        Words::Version => tell(&mut rt.stdout(), &mut errors, VERSION),
    }
}

/// Writes the symbol file, and reports how that ended. Neither the database nor the image is
/// written over.
fn run(rt: &HostRuntime, options: &Options<'_>) -> ExitCode {
    let mut errors = rt.stderr();
    match is_output_read(rt, options) {
        Ok(false) => {}
        Ok(true) => return refuse(&mut errors, "'--output' names a file that is read"),
        Err(fault) => return report(&mut errors, &fault),
    }
    let shows = errors.is_terminal();
    let progress = Progress::new(rt.stderr(), shows);
    let Err(fault) = write_symbols(rt, options, rt.stdout(), progress) else {
        return ExitCode::SUCCESS;
    };
    if shows {
        let _ = errors.write_all(ERASED);
    }
    match &fault {
        SymbolsFault::OutputIsRead => {
            refuse(
                &mut errors,
                "'--store' would write over a file that is read",
            )
        }
        fault => report(&mut errors, fault),
    }
}

/// Reports a fault, with status 1; a write that fails is ignored.
fn report(errors: &mut impl Write, fault: &SymbolsFault) -> ExitCode {
    let _ = write!(errors, "fault: {fault}\n");
    ExitCode::from(1)
}

/// Reports what is wrong with a word, with status 2; a write that fails is ignored.
fn refuse_word(errors: &mut impl Write, what: &str, word: &str) -> ExitCode {
    let _ = write!(
        errors,
        "error: {what} '{word}'\n\nFor more information, try '--help'.\n"
    );
    ExitCode::from(2)
}

/// Reports what is wrong with the words, with status 2; a write that fails is ignored.
fn refuse(errors: &mut impl Write, error: &str) -> ExitCode {
    let _ = write!(
        errors,
        "error: {error}\n\nFor more information, try '--help'.\n"
    );
    ExitCode::from(2)
}

/// Writes a text to the output, and reports where that fails.
fn tell(output: &mut impl Write, errors: &mut impl Write, text: &str) -> ExitCode {
    match output.write_all(text.as_bytes()) {
        Ok(()) => ExitCode::SUCCESS,
        Err(error) => report(errors, &SymbolsFault::Write(error.kind())),
    }
}

/// Writes a text, and returns the status; a write that fails is ignored.
fn exit_with(stream: &mut impl Write, text: &str, status: u8) -> ExitCode {
    let _ = stream.write_all(text.as_bytes());
    ExitCode::from(status)
}
