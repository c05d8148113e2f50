//! The letters of qualifiers.

ghost use Rattle.std.specs.Prelude.{◌≡◌};
ghost use Rattle.msvc_demangler.specs.Qualified.{extended, letter_qualifiers};
ghost use Rattle.msvc_demangler.specs.Qualified.{qualified as qualified_of};

use crate::bytes::{after_optional, byte_at};
use crate::qualifiers::Qualifiers;

/// `const` and `volatile`, as these say.
pub(crate) fn qualified(is_const: bool, is_volatile: bool) -> Qualifiers
    ensures { result ≡ qualified_of is_const is_volatile }
{
    Qualifiers {
        is_const,
        is_volatile,
        is_restrict: false,
        is_unaligned: false,
    }
}

/// The qualifiers that a letter stands for: `A` to `D` for what is no member, `Q` to `T` for a
/// member.
#[tactic(auto, unfolding(crate::specs::Qualified::letter_qualifiers))]
pub(crate) fn qualifiers_of(code: u8) -> Option<Qualifiers>
    ensures { result ≡ letter_qualifiers code }
{
    match code {
        b'A' | b'Q' => Some(qualified(false, false)),
        b'B' | b'R' => Some(qualified(true, false)),
        b'C' | b'S' => Some(qualified(false, true)),
        b'D' | b'T' => Some(qualified(true, true)),
        _ => None,
    }
}

/// The qualifiers of a pointer before its pointee: `E` for one of 64 bits, which isn't printed, `I`
/// for `__restrict` and `F` for `__unaligned`; and the rest after them.
pub(crate) fn extended_qualifiers(rest: &[u8]) -> (Qualifiers, &[u8])
    ensures { (result.0, result.1.now) ≡ extended rest.now }
{
    let wide = after_optional(b'E', rest);
    let restricted = after_optional(b'I', wide);
    let qualifiers = Qualifiers {
        is_const: false,
        is_volatile: false,
        is_restrict: byte_at(wide, 0) == b'I',
        is_unaligned: byte_at(restricted, 0) == b'F',
    };
    (qualifiers, after_optional(b'F', restricted))
}
