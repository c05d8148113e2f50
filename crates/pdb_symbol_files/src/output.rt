//! Writing of a symbol file's text, up to the first failure.

ghost use Rattle.std.specs.Prelude.{OnErr, OnOk};
ghost use Rattle.std.specs.Io.KnownBytes.{Appends};
ghost use Rattle.pdb_symbol_files.specs.Output.{AppendsFront};

use std::io::{ErrorKind, Write};

/// Writes all of some bytes, and stops at the first failure.
///
/// # Errors
/// The kind of the failure; a prefix of the bytes was written.
pub fn write_bytes<W: Write>(bytes: &[u8], output: &mut W) -> Result<(), ErrorKind>
    ensures ok { OnOk result (Appends (W.contents output.old) (W.contents output.new) bytes.now) }
    ensures part { OnErr result
        (AppendsFront (W.contents output.old) (W.contents output.new) bytes.now) }
{
    let mut rest = bytes;
    while !rest.is_empty() {
        match output.write(rest) {
            Ok(0) => return Err(ErrorKind::WriteZero),
            Ok(count) => rest = &rest[count..],
            Err(error) => return Err(error.kind()),
        }
    }
    Ok(())
}

/// Writes all of a text, and stops at the first failure.
///
/// # Errors
/// The kind of the failure; a prefix of the text was written.
pub fn write_text<W: Write>(text: &str, output: &mut W) -> Result<(), ErrorKind>
    ensures ok { OnOk result (Appends (W.contents output.old) (W.contents output.new) text.now) }
    ensures part { OnErr result
        (AppendsFront (W.contents output.old) (W.contents output.new) text.now) }
{
    write_bytes(text.as_bytes(), output)
}
