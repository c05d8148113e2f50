//! Qualifiers of types.

/// Qualifiers of a type.
#[derive(Clone, Copy)]
pub(crate) struct Qualifiers {
    /// `const`.
    pub(crate) is_const: bool,
    /// `volatile`.
    pub(crate) is_volatile: bool,
    /// `__restrict`.
    pub(crate) is_restrict: bool,
    /// `__unaligned`.
    pub(crate) is_unaligned: bool,
}

/// None of the qualifiers.
pub(crate) const UNQUALIFIED: Qualifiers = Qualifiers {
    is_const: false,
    is_volatile: false,
    is_restrict: false,
    is_unaligned: false,
};

impl Qualifiers {
    /// The qualifiers of both.
    pub(crate) fn with(self, other: Qualifiers) -> Qualifiers {
        Qualifiers {
            is_const: self.is_const || other.is_const,
            is_volatile: self.is_volatile || other.is_volatile,
            is_restrict: self.is_restrict || other.is_restrict,
            is_unaligned: self.is_unaligned || other.is_unaligned,
        }
    }

    /// The words that are printed of the qualifiers before other words; `__unaligned` isn't
    /// printed.
    pub(crate) fn text(self) -> &'static str {
        match (self.is_const, self.is_volatile, self.is_restrict) {
            (false, false, false) => "",
            (false, false, true) => "__restrict",
            (false, true, false) => "volatile",
            (false, true, true) => "volatile __restrict",
            (true, false, false) => "const",
            (true, false, true) => "const __restrict",
            (true, true, false) => "const volatile",
            (true, true, true) => "const volatile __restrict",
        }
    }

    /// The same after a space, if there are any.
    pub(crate) fn spaced_text(self) -> &'static str {
        match (self.is_const, self.is_volatile, self.is_restrict) {
            (false, false, false) => "",
            (false, false, true) => " __restrict",
            (false, true, false) => " volatile",
            (false, true, true) => " volatile __restrict",
            (true, false, false) => " const",
            (true, false, true) => " const __restrict",
            (true, true, false) => " const volatile",
            (true, true, true) => " const volatile __restrict",
        }
    }
}
