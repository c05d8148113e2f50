//! The parts of a name that its text leaves out.

/// The parts of a name that its text leaves out, as the options of `llvm-undname` say.
#[derive(Clone, Copy, Debug, Default, PartialEq, Eq)]
pub struct DemangleFlags {
    /// `public: `, `protected: ` and `private: `.
    pub no_access_specifier: bool,
    /// The calling convention of a function, but for those that pointers lead to.
    pub no_calling_convention: bool,
    /// `static `, `virtual ` and `extern "C" `.
    pub no_member_type: bool,
    /// The type that a function returns, but for those that pointers lead to.
    pub no_return_type: bool,
    /// The type of a variable.
    pub no_variable_type: bool,
}

/// A full text: nothing is left out.
pub const FULL_TEXT: DemangleFlags = DemangleFlags {
    no_access_specifier: false,
    no_calling_convention: false,
    no_member_type: false,
    no_return_type: false,
    no_variable_type: false,
};

/// Only the calling convention is left out.
pub(crate) const NO_CONVENTION: DemangleFlags = DemangleFlags {
    no_access_specifier: false,
    no_calling_convention: true,
    no_member_type: false,
    no_return_type: false,
    no_variable_type: false,
};

/// A short text, as `llvm-symbolizer` prints it: access, the calling convention, `static`,
/// `virtual` and the type that a function returns are left out.
pub const SHORT_TEXT: DemangleFlags = DemangleFlags {
    no_access_specifier: true,
    no_calling_convention: true,
    no_member_type: true,
    no_return_type: true,
    no_variable_type: false,
};
