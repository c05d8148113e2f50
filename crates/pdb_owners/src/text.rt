//! The texts of reports of sizes, by function and by file.

ghost use Rattle.std.specs.Prelude.{◌≡◌, ◌++◌, IfOk, OnOk, option_map};
ghost use Rattle.std.specs.String.{string_bytes};
ghost use Rattle.pdb_owners.specs.FileAnswers.{file_seen, NoFile, Unreadable};
ghost use Rattle.pdb_owners.specs.Texts.{text_or, size_text, size_lines, file_text, file_lines};
ghost use Rattle.pdb_owners.specs.Texts.{sizes_text as sizes_text_of};
ghost use Rattle.pdb_owners.specs.Texts.{by_file_text as by_file_text_of};

use crate::file_answer::{CountedFile, FileAnswer};
use crate::function::Function;
use crate::sizes::Sizes;
use std::alloc::{AllocError, Global};
use std::collections::BTreeMap;
use std::fmt::Write;

/// Returns the report: a line for each function, and then the number of addresses that have none.
///
/// # Errors
/// `AllocError` when memory runs out.
pub fn sizes_text(alloc: Global, sizes: &Sizes<Function>) -> Result<String, AllocError>
    ensures { IfOk result (λ text. string_bytes text
        ≡ sizes_text_of sizes.now.counts sizes.now.none) }
{
    let mut text = String::new(alloc);
    append_lines(&mut text, sizes.counts.by_answer())?;
    let none = sizes.none;
    write!(text, "none {none}\n")?;
    Ok(text)
}

/// Appends the lines of functions and their numbers.
fn append_lines(text: &mut String, numbers: &BTreeMap<Function, u64>) -> Result<(), AllocError>
    ensures { OnOk result (string_bytes text.new
        ≡ string_bytes text.old ++ size_lines numbers.now.entries) }
{
    for (function, count) in numbers {
        append_line(text, function, *count)?;
    }
    Ok(())
}

/// Appends the line of a function and its number.
fn append_line(text: &mut String, function: &Function, count: u64) -> Result<(), AllocError>
    ensures { OnOk result (string_bytes text.new
        ≡ string_bytes text.old ++ size_text (function.now, count)) }
{
    let start = function.start_rva;
    let name = text_or_unknown(&function.name);
    write!(text, "0x{start:08x} {count} {name}\n")
}

/// Returns the text, or two question marks.
fn text_or_unknown(text: &Option<String>) -> &str
    ensures { result.now ≡ text_or (option_map string_bytes text.now) }
{
    match text {
        None => "??",
        Some(text) => text.as_str(),
    }
}

/// Returns the report by file: a line for each file, and then the numbers of addresses without a
/// known file, of addresses that have nothing, and of addresses that can't be read.
///
/// # Errors
/// `AllocError` when memory runs out.
pub fn by_file_text(alloc: Global, sizes: &Sizes<CountedFile>) -> Result<String, AllocError>
    ensures { IfOk result (λ text. string_bytes text
        ≡ by_file_text_of sizes.now.counts sizes.now.none) }
{
    let mut text = String::new(alloc);
    append_files(&mut text, sizes.counts.by_answer())?;
    let no_file = sizes.counts.count_of(&CountedFile {
        answer: FileAnswer::NoFile,
    });
    let none = sizes.none;
    let unreadable = sizes.counts.count_of(&CountedFile {
        answer: FileAnswer::Unreadable,
    });
    write!(text, "no file {no_file}\n")?;
    write!(text, "none {none}\n")?;
    write!(text, "unreadable {unreadable}\n")?;
    Ok(text)
}

/// Appends the lines of files and their numbers.
fn append_files(text: &mut String, numbers: &BTreeMap<CountedFile, u64>) -> Result<(), AllocError>
    ensures { OnOk result (string_bytes text.new
        ≡ string_bytes text.old ++ file_lines numbers.now.entries) }
{
    for (file, count) in numbers {
        append_file(text, file, *count)?;
    }
    Ok(())
}

/// Appends the line of a file and its number; nothing where it is no file.
fn append_file(text: &mut String, file: &CountedFile, count: u64) -> Result<(), AllocError>
    ensures { OnOk result (string_bytes text.new
        ≡ string_bytes text.old ++ file_text (file.now, count)) }
{
    match &file.answer {
        FileAnswer::File(name) => write!(text, "{count} {name}\n"),
        _ => Ok(()),
    }
}
