//! Words before, between and after types, and the type that a function returns.

ghost use Rattle.std.specs.Prelude.{◌≡◌, ◌++◌, codes, string_bytes, if◌then◌else◌};
ghost use Rattle.pdb_type_printing.specs.Printed.{Done, Prints, say};
ghost use Rattle.pdb_type_printing.specs.Returns.{shown_return};

use crate::flags::TypeFormatterFlags;
use crate::text::emit;
use bitflags::Flags;
use pdb_container::TypeIndex;
use pdb_records::FunctionAttributes;
use pdb_resolving::stop::Result;

/// Appends the text in place of the name in a method's type on its own.
///
/// # Errors
/// `OutOfMemory`.
pub fn emit_bare_method(w: &mut String) -> Result<()>
    ensures { Prints result (string_bytes w.new) (say (codes "()") (string_bytes w.old)) }
{
    emit(w, "()")
}

/// Appends the text in place of the name in a function's type on its own, and the bracket before
/// its arguments.
///
/// # Errors
/// `OutOfMemory`.
pub fn emit_bare_function(w: &mut String) -> Result<()>
    ensures { Prints result (string_bytes w.new) (say (codes "()(") (string_bytes w.old)) }
{
    emit(w, "()(")
}

/// Appends `const` where a type is constant.
///
/// # Errors
/// `OutOfMemory`.
pub fn emit_constant(w: &mut String, is_constant: bool) -> Result<()>
    ensures { Prints result (string_bytes w.new)
        (if is_constant then say (codes "const ") (string_bytes w.old)
        else Done (string_bytes w.old)) }
{
    if is_constant {
        return emit(w, "const ");
    }
    Ok(())
}

/// Appends the text between a class or a scope and the name of its member.
///
/// # Errors
/// `OutOfMemory`.
pub fn emit_scope_end(w: &mut String) -> Result<()>
    ensures { Prints result (string_bytes w.new) (say (codes "::") (string_bytes w.old)) }
{
    emit(w, "::")
}

/// Appends the text between two strings of a list: it ends the one and begins the other.
///
/// # Errors
/// `OutOfMemory`.
pub fn emit_between_strings(w: &mut String) -> Result<()>
    ensures { Prints result (string_bytes w.new) (say (codes "\" \"") (string_bytes w.old)) }
{
    emit(w, "\" \"")
}

/// The type with which a function's text begins. It is none for a constructor, and where a flag
/// leaves it out. The flag doesn't apply to a function that pointers point to.
pub fn shown_return(
    flags: TypeFormatterFlags,
    index: Option<TypeIndex>,
    attributes: FunctionAttributes,
    is_behind_pointers: bool,
) -> Option<TypeIndex>
    ensures { result ≡ shown_return flags.bits index attributes is_behind_pointers }
{
    let is_unwanted = flags.intersects(TypeFormatterFlags::NO_FUNCTION_RETURN);
    if (is_unwanted && !is_behind_pointers) || attributes.is_constructor() {
        return None;
    }
    index
}
