//! Flags of a formatter of types.

ghost use Rattle.std.specs.Prelude.{◌≡◌, bit_and, bit_or, bit_xor};

use bitflags::{Flag, Flags};
use std::ops::{
    BitAnd, BitAndAssign, BitOr, BitOrAssign, BitXor, BitXorAssign, Not, Sub, SubAssign,
};

/// Flags of a formatter of types: a set of bits, of which six are known. The other bits stay, and
/// change nothing.
#[derive(Clone, Copy, Debug, PartialEq, Eq)]
pub struct TypeFormatterFlags {
    bits: u32,
}

/// The known flags, in the order of their bits.
static FLAGS: [Flag<TypeFormatterFlags>; 6] = [
    Flag {
        name: "NO_FUNCTION_RETURN",
        value: TypeFormatterFlags::NO_FUNCTION_RETURN,
    },
    Flag {
        name: "NO_MEMBER_FUNCTION_STATIC",
        value: TypeFormatterFlags::NO_MEMBER_FUNCTION_STATIC,
    },
    Flag {
        name: "SPACE_AFTER_COMMA",
        value: TypeFormatterFlags::SPACE_AFTER_COMMA,
    },
    Flag {
        name: "SPACE_BEFORE_POINTER",
        value: TypeFormatterFlags::SPACE_BEFORE_POINTER,
    },
    Flag {
        name: "NAME_ONLY",
        value: TypeFormatterFlags::NAME_ONLY,
    },
    Flag {
        name: "NO_ARGUMENTS",
        value: TypeFormatterFlags::NO_ARGUMENTS,
    },
];

impl TypeFormatterFlags {
    /// The return type of a function isn't printed, unless a pointer leads to the function.
    pub const NO_FUNCTION_RETURN: TypeFormatterFlags = TypeFormatterFlags { bits: 1 };

    /// `static` isn't printed before a method without a `this` pointer.
    pub const NO_MEMBER_FUNCTION_STATIC: TypeFormatterFlags = TypeFormatterFlags { bits: 2 };

    /// A space is printed after each comma of an argument list.
    pub const SPACE_AFTER_COMMA: TypeFormatterFlags = TypeFormatterFlags { bits: 4 };

    /// A space is printed before the `*` or `&` of a pointer or a reference.
    pub const SPACE_BEFORE_POINTER: TypeFormatterFlags = TypeFormatterFlags { bits: 8 };

    /// `class`, `struct`, `interface`, `union` and `enum` aren't printed before names.
    pub const NAME_ONLY: TypeFormatterFlags = TypeFormatterFlags { bits: 16 };

    /// The arguments of the function that is asked for, and of methods anywhere, aren't printed.
    pub const NO_ARGUMENTS: TypeFormatterFlags = TypeFormatterFlags { bits: 32 };
}

/// `NO_FUNCTION_RETURN`, `NO_MEMBER_FUNCTION_STATIC`, `SPACE_AFTER_COMMA` and `NAME_ONLY`.
impl Default for TypeFormatterFlags {
    ghost is_default = { λ f. f.bits ≡ 23 };

    fn default() -> TypeFormatterFlags {
        TypeFormatterFlags { bits: 23 }
    }
}

impl Flags for TypeFormatterFlags {
    ghost use Rattle.std.specs.Prelude.{⊤};
    ghost use Rattle.pdb_type_printing.specs.FlagTable.{flag_table};

    type Bits = u32;

    ghost exact = { ⊤ };

    ghost table = { flag_table };

    ghost set_of = { λ f. f.bits };

    fn flags<'a>() -> &'a [Flag<TypeFormatterFlags>] {
        &FLAGS
    }

    fn bits(&self) -> u32 {
        self.bits
    }

    fn from_bits_retain(bits: u32) -> TypeFormatterFlags {
        TypeFormatterFlags { bits }
    }
}

impl BitOr for TypeFormatterFlags {
    type Output = TypeFormatterFlags;

    ghost bitor_gives = { λ x y r. r.bits ≡ bit_or x.bits y.bits };

    fn bitor(self, other: TypeFormatterFlags) -> TypeFormatterFlags {
        TypeFormatterFlags {
            bits: self.bits | other.bits,
        }
    }
}

impl BitOrAssign for TypeFormatterFlags {
    ghost bitor_assign_gives = { λ x y r. r.bits ≡ bit_or x.bits y.bits };

    fn bitor_assign(&mut self, other: TypeFormatterFlags) {
        self.bits |= other.bits;
    }
}

impl BitAnd for TypeFormatterFlags {
    type Output = TypeFormatterFlags;

    ghost bitand_gives = { λ x y r. r.bits ≡ bit_and x.bits y.bits };

    fn bitand(self, other: TypeFormatterFlags) -> TypeFormatterFlags {
        TypeFormatterFlags {
            bits: self.bits & other.bits,
        }
    }
}

impl BitAndAssign for TypeFormatterFlags {
    ghost bitand_assign_gives = { λ x y r. r.bits ≡ bit_and x.bits y.bits };

    fn bitand_assign(&mut self, other: TypeFormatterFlags) {
        self.bits &= other.bits;
    }
}

impl BitXor for TypeFormatterFlags {
    type Output = TypeFormatterFlags;

    ghost bitxor_gives = { λ x y r. r.bits ≡ bit_xor x.bits y.bits };

    fn bitxor(self, other: TypeFormatterFlags) -> TypeFormatterFlags {
        TypeFormatterFlags {
            bits: self.bits ^ other.bits,
        }
    }
}

impl BitXorAssign for TypeFormatterFlags {
    ghost bitxor_assign_gives = { λ x y r. r.bits ≡ bit_xor x.bits y.bits };

    fn bitxor_assign(&mut self, other: TypeFormatterFlags) {
        self.bits ^= other.bits;
    }
}

/// The flags of the first set that aren't among those of the second.
impl Sub for TypeFormatterFlags {
    ghost use Rattle.pdb_type_printing.specs.FlagTable.{bits_without};

    type Output = TypeFormatterFlags;

    ghost sub_gives = { λ x y r. r.bits ≡ bits_without x.bits y.bits };

    fn sub(self, other: TypeFormatterFlags) -> TypeFormatterFlags {
        TypeFormatterFlags {
            bits: self.bits & !other.bits,
        }
    }
}

impl SubAssign for TypeFormatterFlags {
    ghost use Rattle.pdb_type_printing.specs.FlagTable.{bits_without};

    ghost sub_assign_gives = { λ x y r. r.bits ≡ bits_without x.bits y.bits };

    fn sub_assign(&mut self, other: TypeFormatterFlags) {
        self.bits &= !other.bits;
    }
}

/// The known flags that aren't among these.
impl Not for TypeFormatterFlags {
    ghost use Rattle.pdb_type_printing.specs.FlagTable.{missing_bits};

    type Output = TypeFormatterFlags;

    ghost not_gives = { λ x r. r.bits ≡ missing_bits x.bits };

    fn not(self) -> TypeFormatterFlags {
        TypeFormatterFlags {
            bits: !self.bits & 63,
        }
    }
}
