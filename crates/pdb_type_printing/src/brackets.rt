//! Brackets of arrays of arrays.

ghost use Rattle.std.specs.Prelude.{◌≡◌, ◌++◌, string_bytes};
ghost use Rattle.pdb_type_printing.specs.Printed.{Prints, say};
ghost use Rattle.pdb_type_printing.specs.Brackets.{first_or_zero, bracket, brackets, first_or};

use crate::text::emit;
use pdb_resolving::stop::Result;

/// The first dimension of an array, which has one at least.
pub fn first_or_zero(dimensions: &[u32]) -> u32
    ensures { result ≡ first_or_zero dimensions.now }
{
    match dimensions {
        [] => 0,
        [first, ..] => *first,
    }
}

/// Appends the number of elements of `element` bytes that make `size` bytes, in brackets.
fn emit_bracket(w: &mut String, size: u64, element: u64) -> Result<()>
    ensures { Prints result (string_bytes w.new) (say (bracket size element) (string_bytes w.old)) }
{
    if element == 0 {
        return emit(w, "[]");
    }
    let count = size / element;
    write!(w, "[{count}]")?;
    Ok(())
}

/// Appends the brackets of arrays of these dimensions, the outer first, over an element of `size`
/// bytes.
///
/// # Errors
/// `OutOfMemory`.
pub fn emit_brackets(w: &mut String, dimensions: &[u32], size: u64) -> Result<()>
    ensures { Prints result (string_bytes w.new)
        (say (brackets dimensions.now size) (string_bytes w.old)) }
{
    let [first, inner @ ..] = dimensions else {
        return Ok(());
    };
    let element = match inner {
        [] => size,
        [next, ..] => u64::from(*next),
    };
    emit_bracket(w, u64::from(*first), element)?;
    emit_brackets(w, inner, size)
}
