//! The image of a database: its code ID, and how its functions are unwound.

ghost use Rattle.std.specs.Prelude.{◌≡◌, [], IfErr, OnErr, OnOk, string_bytes};
ghost use Rattle.std.specs.Io.KnownBytes.{Appends};
ghost use Rattle.pdb_symbol_files.specs.Output.{AppendsFront};
ghost use Rattle.pdb_symbols.specs.Ends.{FailsToWrite};
ghost use Rattle.pdb_symbols.specs.UnwindingText.{IsPassedOn, unwinding_text, unwound_text};

use crate::fault::SymbolsFault;
use pdb_image::{Image, UnwoundFunctions};
use pdb_symbol_files::write_text;
use std::alloc::Global;
use std::io::Write;

/// The number of bytes that a text gets before it is written.
const AT_ONCE: usize = 65_536;

/// Writes a text, and empties it.
fn write_part<W: Write>(text: &mut String, output: &mut W) -> Result<(), SymbolsFault>
    ensures ok { OnOk result
        (Appends (W.contents output.old) (W.contents output.new) (string_bytes text.old)) }
    ensures emptied { OnOk result (string_bytes text.new ≡ []) }
    ensures part { OnErr result
        (AppendsFront (W.contents output.old) (W.contents output.new) (string_bytes text.old)) }
    ensures fails { IfErr result FailsToWrite }
{
    match write_text(text.as_str(), output) {
        Ok(()) => {}
        Err(kind) => return Err(SymbolsFault::of_write(kind)),
    }
    text.clear();
    Ok(())
}

/// Writes a text, and empties it, if it is long.
fn write_if_long<W: Write>(text: &mut String, output: &mut W) -> Result<(), SymbolsFault>
    ensures out { IsPassedOn (W.contents output.old) (W.contents output.new) (string_bytes text.old)
        (string_bytes text.new) result }
    ensures fails { IfErr result FailsToWrite }
{
    if text.len() < AT_ONCE {
        return Ok(());
    }
    write_part(text, output)
}

/// Writes the records of functions.
fn write_functions<W: Write>(
    alloc: Global,
    functions: &mut UnwoundFunctions<'_, '_>,
    output: &mut W,
) -> Result<(), SymbolsFault>
    ensures ok { OnOk result
        (Appends (W.contents output.old) (W.contents output.new) (unwound_text functions.old)) }
    ensures part { OnErr result
        (AppendsFront (W.contents output.old) (W.contents output.new)
        (unwound_text functions.old)) }
    ensures fails { IfErr result FailsToWrite }
{
    let mut text = String::new(alloc);
    while let Some(function) = functions.next(alloc)? {
        function.append_records(&mut text)?;
        write_if_long(&mut text, output)?;
    }
    write_part(&mut text, output)
}

/// Writes how the functions of an image are unwound; nothing of an image that isn't x64, or whose
/// exception directory can't be read.
///
/// # Errors
/// `Write` where a write failed, or out of memory; a prefix of the text was written.
pub fn write_unwinding<W: Write>(
    alloc: Global,
    image: &Image<'_>,
    output: &mut W,
) -> Result<(), SymbolsFault>
    ensures ok { OnOk result
        (Appends (W.contents output.old) (W.contents output.new) (unwinding_text image.now)) }
    ensures part { OnErr result
        (AppendsFront (W.contents output.old) (W.contents output.new)
        (unwinding_text image.now)) }
    ensures fails { IfErr result FailsToWrite }
{
    match UnwoundFunctions::of_image(image) {
        Ok(mut functions) => write_functions(alloc, &mut functions, output),
        Err(_) => Ok(()),
    }
}
