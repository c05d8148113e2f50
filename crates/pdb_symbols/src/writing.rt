//! The symbol file's text.

ghost use Rattle.std.specs.Prelude.{◌≡◌, ◌+◌, ◌*◌, ◌≤◌, IfErr, IfOk, OnErr, OnOk};
ghost use Rattle.std.specs.Prelude.{option_copied, string_bytes};
ghost use Rattle.std.specs.Io.KnownBytes.{Appends};
ghost use Rattle.pdb_symbol_files.specs.Code.{pieces_of_code};
ghost use Rattle.pdb_symbol_files.specs.Output.{AppendsFront};
ghost use Rattle.pdb_symbols.specs.Ends.{FailsToWrite};
ghost use Rattle.pdb_symbols.specs.SymbolsText.{TellsCode, WritesNamed, WritesNamedPart};
ghost use Rattle.pdb_symbols.specs.SymbolsText.{WritesText, WritesTextPart};
ghost use Rattle.pdb_symbols.specs.UnwindingText.{text_of_image};

use crate::fault::SymbolsFault;
use crate::image::write_unwinding;
use crate::renaming::write_renamed;
use pdb_addresses::ImageSectionHeader;
use pdb_image::Image;
use pdb_symbol_files::{ToldFault, ToldRuns, append_functions, write_text};
use std::alloc::Global;
use std::io::Write;

/// The text of a symbol file, but for how functions are unwound.
#[derive(Drop)]
pub struct FileText {
    /// The records before the first FUNC record.
    pub head: String,
    /// The FUNC records, with the records below them.
    pub functions: String,
}

/// The text of the records of a database's functions, from what is told of the addresses at which
/// code may run, behind a head.
///
/// # Errors
/// `File` where the database's file couldn't be read; `OutOfMemory`.
pub fn text_of<R: ToldRuns>(
    alloc: Global,
    mut head: String,
    sections: &[ImageSectionHeader],
    runs: &mut R,
) -> Result<FileText, ToldFault>
    ensures grows { R.known runs.new → R.known runs.old }
    ensures same { R.told runs.new ≡ R.told runs.old }
    ensures file { R.file runs.new ≡ R.file runs.old }
    ensures records { R.known runs.new
        → IfOk result (TellsCode (string_bytes head) sections.now (R.told runs.old)) }
    ensures lookups { R.known runs.new → OnOk result (R.lookups runs.new
        ≤ R.lookups runs.old + 2 * pieces_of_code sections.now (R.begins runs.old)) }
{
    let functions = append_functions(alloc, runs, sections, &mut head)?;
    Ok(FileText { head, functions })
}

/// Writes records, as they are or with the names of functions undecorated.
#[tactic(auto, using(crate::proofs::NamedSteps::plain_ok, crate::proofs::NamedSteps::plain_err))]
fn write_records<W: Write>(
    alloc: Global,
    records: &str,
    demangle: bool,
    output: &mut W,
) -> Result<(), SymbolsFault>
    ensures ok { OnOk result
        (WritesNamed demangle records.now (W.contents output.old) (W.contents output.new)) }
    ensures part { OnErr result
        (WritesNamedPart demangle records.now (W.contents output.old) (W.contents output.new)) }
    ensures fails { IfErr result FailsToWrite }
{
    if demangle {
        return write_renamed(alloc, records, output);
    }
    match write_text(records, output) {
        Ok(()) => Ok(()),
        Err(kind) => Err(SymbolsFault::of_write(kind)),
    }
}

/// Writes how the functions of an image are unwound, if there is one.
fn write_image<W: Write>(
    alloc: Global,
    image: Option<&Image<'_>>,
    output: &mut W,
) -> Result<(), SymbolsFault>
    ensures ok { OnOk result (Appends (W.contents output.old) (W.contents output.new)
        (text_of_image (option_copied image.entry))) }
    ensures part { OnErr result (AppendsFront (W.contents output.old) (W.contents output.new)
        (text_of_image (option_copied image.entry))) }
    ensures fails { IfErr result FailsToWrite }
{
    match image {
        Some(image) => write_unwinding(alloc, image, output),
        None => Ok(()),
    }
}

/// Writes a text, with the names of functions undecorated if that is asked for, and after it how
/// the functions of an image are unwound.
///
/// # Errors
/// `Write` where a write failed, or out of memory; a prefix of what is to be written was.
pub fn write_symbols_text<W: Write>(
    alloc: Global,
    text: &FileText,
    demangle: bool,
    image: Option<&Image<'_>>,
    output: &mut W,
) -> Result<(), SymbolsFault>
    ensures ok { OnOk result (WritesText demangle text.now (option_copied image.entry)
        (W.contents output.old) (W.contents output.new)) }
    ensures part { OnErr result (WritesTextPart demangle text.now (option_copied image.entry)
        (W.contents output.old) (W.contents output.new)) }
    ensures fails { IfErr result FailsToWrite }
{
    write_records(alloc, text.head.as_str(), demangle, output)?;
    write_records(alloc, text.functions.as_str(), demangle, output)?;
    write_image(alloc, image, output)
}
