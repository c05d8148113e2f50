//! The task that the arguments ask for.

ghost use Rattle.std.specs.Prelude.{◌≡◌, ◌↔◌, Some, IfErr, IfOk, map, string_bytes, true};
ghost use Rattle.std.specs.Prelude.{option_map};
ghost use Rattle.clap.specs.Words.{first_of, found_of, kind_of, rows_of, subcommand_rows_of};
ghost use Rattle.pdb_arguments.specs.Task.{IsFaultOf, IsOfTask, IsTaken, IsTask, IsToldOf};
ghost use Rattle.pdb_arguments.specs.Task.{IsToldOfEntered, address_at, entered_by, flag_at};

use crate::command::program;
use crate::task::{Task, WordsFault};
use clap::error::ErrorKind;
use clap::{ArgMatches, Error};
use pdb_engine::parse_address;
use std::alloc::Global;

/// The fault that is reported for an error in reading the arguments.
fn told(alloc: Global, error: &Error) -> WordsFault
    ensures { IsToldOf (kind_of error.now) result }
{
    match (error.kind(), error.to_string(alloc)) {
        (ErrorKind::OutOfMemory, _) | (_, Err(_)) => WordsFault::OutOfMemory,
        (ErrorKind::DisplayHelp | ErrorKind::DisplayVersion, Ok(text)) => WordsFault::Help(text),
        (_, Ok(text)) => WordsFault::Words(text),
    }
}

/// Whether two texts are equal.
fn is_word(text: &str, word: &str) -> bool
    ensures { result ≡ true ↔ text.now ≡ word.now }
{
    text == word
}

/// The value of a name.
fn value_at<'a>(matches: &ArgMatches<'a>, name: &str) -> Option<&'a str>
    ensures { option_map (λ s. s.now) result ≡ first_of name.now (rows_of (found_of matches.now)) }
{
    matches.get_str(name)
}

/// The address that the value of a name stands for.
fn address_in(matches: &ArgMatches<'_>, name: &str) -> Option<u32>
    ensures { result ≡ address_at name.now (rows_of (found_of matches.now)) }
{
    match value_at(matches, name) {
        Some(word) => parse_address(word.as_bytes()),
        None => None,
    }
}

/// Whether the flag of a name was given.
fn is_set(matches: &ArgMatches<'_>, name: &str) -> bool
    ensures { result ≡ flag_at name.now (rows_of (found_of matches.now)) }
{
    match value_at(matches, name) {
        Some(value) => value == "true",
        None => false,
    }
}

/// The task of a subcommand of this name with these values.
///
/// # Errors
/// `NotAnAddress` where START or END of `sizes` is no address; `Words` with no text where there is
/// no FILE or the name is another, which is never so after `clap`'s own checks; `OutOfMemory`.
fn task_in(alloc: Global, name: &str, matches: &ArgMatches<'_>) -> Result<Task, WordsFault>
    ensures ok { IfOk result
        (λ task. IsTask task (Some (name.now, rows_of (found_of matches.now)))) }
    ensures err { IfErr result (IsToldOfEntered (Some (name.now, rows_of (found_of matches.now)))) }
{
    let Some(word) = value_at(matches, "FILE") else {
        return Err(WordsFault::Words(String::new(alloc)));
    };
    let file = String::from_str(alloc, word)?;
    let demangle = is_set(matches, "demangle");
    let any_order = is_set(matches, "any-order");
    if is_word(name, "frames") {
        let json = is_set(matches, "json");
        return Ok(Task::Frames {
            file,
            demangle,
            any_order,
            json,
        });
    }
    if !is_word(name, "sizes") {
        return Err(WordsFault::Words(String::new(alloc)));
    }
    let Some(start) = address_in(matches, "START") else {
        return Err(WordsFault::NotAnAddress);
    };
    let Some(end) = address_in(matches, "END") else {
        return Err(WordsFault::NotAnAddress);
    };
    let by_file = is_set(matches, "by-file");
    Ok(Task::Sizes {
        file,
        start,
        end,
        by_file,
        demangle,
        any_order,
    })
}

/// The task that the arguments entered.
///
/// # Errors
/// As `task_in`; `Words` with no text where nothing was entered, which is never so after `clap`'s
/// own checks.
fn task_of(alloc: Global, matches: &ArgMatches<'_>) -> Result<Task, WordsFault>
    ensures ok { IfOk result (λ task. IsTask task (subcommand_rows_of matches.now)) }
    ensures err { IfErr result (IsToldOfEntered (subcommand_rows_of matches.now)) }
{
    match matches.subcommand() {
        Some((name, inner)) => task_in(alloc, name, inner),
        None => Err(WordsFault::Words(String::new(alloc))),
    }
}

/// The task that the arguments after the program's name ask for.
///
/// # Errors
/// `Help` where they ask for help or the version, `Words` where they are no command,
/// `NotAnAddress` where they are those of `sizes` and START or END is no address; `OutOfMemory`.
pub fn read_words(alloc: Global, words: &[String]) -> Result<Task, WordsFault>
    ensures task { IfOk result (λ task. IsTaken (map string_bytes words.now)
        × IsTask task (entered_by (map string_bytes words.now))) }
    ensures fault { IfErr result (IsFaultOf (map string_bytes words.now)) }
    ensures passes { IfErr result (λ fault. IsOfTask (map string_bytes words.now)
        → fault ≡ WordsFault.OutOfMemory) }
{
    let command = program(alloc)?;
    match command.try_get_matches_from(words) {
        Ok(matches) => task_of(alloc, &matches),
        Err(error) => Err(told(alloc, &error)),
    }
}
