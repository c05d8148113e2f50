//! The object of a method.

ghost use Rattle.std.specs.Prelude.{◌≡◌, ◌++◌, codes, string_bytes, if◌then◌else◌};
ghost use Rattle.pdb_records.specs.Shapes.{shape};
ghost use Rattle.pdb_type_printing.specs.Objects.{static_word, this_to_modified};
ghost use Rattle.pdb_type_printing.specs.Printed.{Done, Prints, say};

use crate::flags::TypeFormatterFlags;
use crate::text::emit;
use bitflags::Flags;
use pdb_container::TypeIndex;
use pdb_records::TypeData;
use pdb_resolving::stop::Result;

/// Appends `static ` for a method without a pointer to its object, where no flag leaves it out.
///
/// # Errors
/// `OutOfMemory`.
pub fn emit_static(w: &mut String, flags: TypeFormatterFlags, this: Option<TypeIndex>) -> Result<()>
    ensures { Prints result (string_bytes w.new)
        (static_word flags.bits this (string_bytes w.old)) }
{
    if this.is_some() || flags.intersects(TypeFormatterFlags::NO_MEMBER_FUNCTION_STATIC) {
        return Ok(());
    }
    emit(w, "static ")
}

/// Appends `const` where a method's object is constant.
///
/// # Errors
/// `OutOfMemory`.
pub fn emit_constant_object(w: &mut String, is_constant: bool) -> Result<()>
    ensures { Prints result (string_bytes w.new)
        (if is_constant then say (codes " const") (string_bytes w.old)
        else Done (string_bytes w.old)) }
{
    if is_constant {
        return emit(w, " const");
    }
    Ok(())
}

/// Whether a method's object is constant, by the type to which the pointer to the object leads,
/// which isn't the class itself; and the pointer as an extra first argument, where that type is no
/// Modifier of the class.
pub fn this_behind(
    class: TypeIndex,
    this: TypeIndex,
    target: &TypeData<'_>,
) -> (bool, Option<TypeIndex>)
    ensures { result ≡ this_to_modified class this (shape target.now) }
{
    match target {
        TypeData::Modifier(t) => {
            if t.underlying_type.0 == class.0 {
                (t.constant, None)
            } else {
                (false, Some(this))
            }
        }
        _ => (false, Some(this)),
    }
}
