//! Pointers after the text of the type to which they point.

ghost use Rattle.std.specs.Prelude.{◌≡◌, ◌++◌, reverse, string_bytes};
ghost use Rattle.pdb_type_printing.specs.Printed.{Prints, say};
ghost use Rattle.pdb_type_printing.specs.Pointers.{level_of, leading_to, sigil, ends_in_sigil};
ghost use Rattle.pdb_type_printing.specs.Pointers.{target_text, space_text, pointer_text};
ghost use Rattle.pdb_type_printing.specs.Pointers.{pointers_text};

use crate::flags::TypeFormatterFlags;
use crate::text::emit;
use bitflags::Flags;
use pdb_records::{PointerMode, PointerType};
use pdb_resolving::stop::Result;

/// One of several pointers on one another.
#[derive(Clone, Copy)]
pub struct PointerLevel {
    /// The mode: a pointer, a reference, or one to a member.
    pub mode: PointerMode,
    /// Whether the pointer itself is constant.
    pub is_constant: bool,
    /// Whether the type to which it leads is constant.
    pub leads_to_constant: bool,
}

/// A pointer as one level, which is constant also where `is_constant`.
pub fn level_of(is_constant: bool, pointer: &PointerType) -> PointerLevel
    ensures { result ≡ level_of is_constant pointer.now }
{
    PointerLevel {
        mode: pointer.attributes.pointer_mode(),
        is_constant: pointer.attributes.is_const() || is_constant,
        leads_to_constant: false,
    }
}

/// The level as one that leads to a constant type or not.
pub fn leading_to(is_constant: bool, pointer: PointerLevel) -> PointerLevel
    ensures { result ≡ leading_to is_constant pointer }
{
    PointerLevel {
        leads_to_constant: is_constant,
        ..pointer
    }
}

fn sigil(mode: PointerMode) -> &'static str
    ensures { result.now ≡ sigil mode }
{
    match mode {
        PointerMode::Pointer => "*",
        PointerMode::LValueReference => "&",
        PointerMode::Member | PointerMode::MemberFunction => "::*",
        PointerMode::RValueReference => "&&",
    }
}

/// Whether a text ends with the sign of a pointer or reference.
pub fn ends_in_sigil(text: &[u8]) -> bool
    ensures { result ≡ ends_in_sigil text.now }
{
    match text.last() {
        None => false,
        Some(byte) => *byte == b'*' || *byte == b'&',
    }
}

/// Appends one pointer. A space may begin it where `may_space`; another pointer's sign stands
/// before it where `is_behind_sigil`.
fn emit_pointer(
    w: &mut String,
    flags: TypeFormatterFlags,
    may_space: bool,
    is_behind_sigil: bool,
    pointer: PointerLevel,
) -> Result<()>
    ensures { Prints result (string_bytes w.new)
        (say (pointer_text flags.bits may_space is_behind_sigil pointer) (string_bytes w.old)) }
{
    if pointer.leads_to_constant {
        emit(w, if may_space { " const" } else { "const" })?;
    }
    if flags.intersects(TypeFormatterFlags::SPACE_BEFORE_POINTER)
        && (pointer.leads_to_constant || (may_space && !is_behind_sigil))
    {
        emit(w, " ")?;
    }
    emit(w, sigil(pointer.mode))?;
    if pointer.is_constant {
        emit(w, " const")?;
    }
    Ok(())
}

/// Appends pointers, of which the first is the outermost, from the innermost one on.
///
/// # Errors
/// `OutOfMemory`.
pub fn emit_pointers(
    w: &mut String,
    flags: TypeFormatterFlags,
    pointers: &[PointerLevel],
    may_space: bool,
    is_behind_sigil: bool,
) -> Result<()>
    ensures { Prints result (string_bytes w.new)
        (say (pointers_text flags.bits may_space is_behind_sigil (reverse pointers.now))
        (string_bytes w.old)) }
{
    let mut may_space = may_space;
    let mut is_behind_sigil = is_behind_sigil;
    for k in 0..pointers.len() {
        let pointer = pointers[pointers.len() - 1 - k];
        emit_pointer(w, flags, may_space, is_behind_sigil, pointer)?;
        may_space = true;
        is_behind_sigil = !pointer.is_constant;
    }
    Ok(())
}
