//! The text between arguments, copies of one, and whether a flag leaves them out.

ghost use Rattle.std.specs.Prelude.{◌≡◌, ◌++◌, string_bytes};
ghost use Rattle.pdb_container.specs.Bits.{has_bit};
ghost use Rattle.pdb_type_printing.specs.Printed.{Prints, say};
ghost use Rattle.pdb_type_printing.specs.Arguments.{comma, copies};

use crate::flags::TypeFormatterFlags;
use crate::text::emit;
use bitflags::Flags;
use pdb_resolving::stop::Result;

/// Appends the text between arguments: a comma, and a space where the flags ask for it.
///
/// # Errors
/// `OutOfMemory`.
pub fn emit_comma(w: &mut String, flags: TypeFormatterFlags) -> Result<()>
    ensures { Prints result (string_bytes w.new) (say (comma flags.bits) (string_bytes w.old)) }
{
    emit(
        w,
        if flags.intersects(TypeFormatterFlags::SPACE_AFTER_COMMA) {
            ", "
        } else {
            ","
        },
    )
}

/// Appends an argument's text that many times, with a comma before each.
///
/// # Errors
/// `OutOfMemory`.
pub fn emit_copies(
    w: &mut String,
    flags: TypeFormatterFlags,
    argument: &str,
    count: usize,
) -> Result<()>
    ensures { Prints result (string_bytes w.new)
        (say (copies flags.bits argument.now count) (string_bytes w.old)) }
{
    for _ in 0..count {
        emit_comma(w, flags)?;
        emit(w, argument)?;
    }
    Ok(())
}

/// Whether a flag leaves out arguments.
pub fn leaves_out_arguments(flags: TypeFormatterFlags) -> bool
    ensures { result ≡ has_bit flags.bits 32 }
{
    flags.intersects(TypeFormatterFlags::NO_ARGUMENTS)
}
