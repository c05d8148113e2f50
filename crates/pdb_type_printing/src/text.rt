//! Pieces of text.

ghost use Rattle.std.specs.Prelude.{◌≡◌, ◌++◌, string_bytes};
ghost use Rattle.pdb_resolving.specs.Fault.{fault_of};
ghost use Rattle.pdb_type_printing.specs.Printed.{Prints, PrintsUnread, say, unread, missing_type};
ghost use Rattle.pdb_type_printing.specs.Printed.{unimplemented_kind};

use pdb_resolving::Error;
use pdb_resolving::stop::{Result, Stop};

/// Appends a text.
///
/// # Errors
/// `OutOfMemory`.
pub fn emit(w: &mut String, text: &str) -> Result<()>
    ensures { Prints result (string_bytes w.new) (say text.now (string_bytes w.old)) }
{
    w.push_str(text)?;
    Ok(())
}

/// Appends the text where no type has the index.
///
/// # Errors
/// `OutOfMemory`.
pub fn emit_missing(w: &mut String, index: u32) -> Result<()>
    ensures { Prints result (string_bytes w.new) (say (missing_type index) (string_bytes w.old)) }
{
    write!(w, "<missing type 0x{index:x}>")?;
    Ok(())
}

/// Appends the text where the leaf has no form.
fn emit_unimplemented(w: &mut String, leaf: u16) -> Result<()>
    ensures { Prints result (string_bytes w.new)
        (say (unimplemented_kind leaf) (string_bytes w.old)) }
{
    write!(w, "<unimplemented type kind 0x{leaf:x}>")?;
    Ok(())
}

/// Appends the text in place of a type or an id that is missing, or whose leaf has no form.
///
/// # Errors
/// Any other cause that ended the reading is returned as it is; `OutOfMemory`.
pub fn emit_unread(w: &mut String, stop: Stop) -> Result<()>
    ensures { PrintsUnread stop result (string_bytes w.new) (string_bytes w.old) }
{
    match stop {
        Stop::ByError(Error::PdbError(pdb_container::Error::TypeNotFound(index))) => emit_missing(
            w, index,
        ),
        Stop::ByError(Error::PdbError(pdb_container::Error::UnimplementedTypeKind(leaf))) => {
            emit_unimplemented(w, leaf)
        }
        stop => Err(stop),
    }
}
