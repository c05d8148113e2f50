//! Texts of records, written with the names of functions as people read them.

ghost use Rattle.std.specs.Prelude.{◌≡◌, [], true, IfErr, OnErr, OnOk};
ghost use Rattle.std.specs.Io.KnownBytes.{Appends};
ghost use Rattle.pdb_symbol_files.specs.Output.{AppendsFront};
ghost use Rattle.pdb_symbols.specs.Ends.{FailsToWrite};
ghost use Rattle.pdb_symbols.specs.SymbolsText.{WritesNamed, WritesNamedPart};
ghost use Rattle.pdb_symbols.specs.UnwindingText.{IsPassedOn};

use crate::fault::SymbolsFault;
use crate::undecorated::{append_line, split_line};
use pdb_symbol_files::write_bytes;
use std::alloc::Global;
use std::io::Write;

/// The number of bytes that a text gets before it is written.
const AT_ONCE: usize = 65_536;

/// Writes bytes, and empties them.
fn write_part<W: Write>(bytes: &mut Vec<u8>, output: &mut W) -> Result<(), SymbolsFault>
    ensures ok { OnOk result
        (Appends (W.contents output.old) (W.contents output.new) bytes.old.items) }
    ensures emptied { OnOk result (bytes.new.items ≡ []) }
    ensures part { OnErr result
        (AppendsFront (W.contents output.old) (W.contents output.new) bytes.old.items) }
    ensures fails { IfErr result FailsToWrite }
{
    match write_bytes(bytes.as_slice(), output) {
        Ok(()) => {}
        Err(kind) => return Err(SymbolsFault::of_write(kind)),
    }
    bytes.clear();
    Ok(())
}

/// Writes bytes, and empties them, if they are many.
fn write_if_long<W: Write>(bytes: &mut Vec<u8>, output: &mut W) -> Result<(), SymbolsFault>
    ensures out { IsPassedOn (W.contents output.old) (W.contents output.new) bytes.old.items
        bytes.new.items result }
    ensures fails { IfErr result FailsToWrite }
{
    if bytes.len() < AT_ONCE {
        return Ok(());
    }
    write_part(bytes, output)
}

/// Writes the lines of a text with the names of functions undecorated.
///
/// # Errors
/// `Write` where a write failed, or out of memory; a prefix of the text was written.
pub fn write_renamed<W: Write>(
    alloc: Global,
    text: &str,
    output: &mut W,
) -> Result<(), SymbolsFault>
    ensures ok { OnOk result
        (WritesNamed true text.now (W.contents output.old) (W.contents output.new)) }
    ensures part { OnErr result
        (WritesNamedPart true text.now (W.contents output.old) (W.contents output.new)) }
    ensures fails { IfErr result FailsToWrite }
{
    let mut kept = Vec::new(alloc);
    let mut rest = text.as_bytes();
    while let Some((line, after)) = split_line(rest) {
        append_line(alloc, line, &mut kept)?;
        write_if_long(&mut kept, output)?;
        rest = after;
    }
    kept.extend_from_slice(rest)?;
    write_part(&mut kept, output)
}
