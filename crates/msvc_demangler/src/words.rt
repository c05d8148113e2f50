//! Words that letters stand for: basic types, calling conventions, access.

ghost use Rattle.std.specs.Prelude.{◌≡◌, option_map};
ghost use Rattle.msvc_demangler.specs.Methods.{access_text, storage};
ghost use Rattle.msvc_demangler.specs.Qualified.{affinity_text, pointer};
ghost use Rattle.msvc_demangler.specs.Words.{basic_type, convention, keyword, later_basic_type};

use crate::letters::qualified;
use crate::qualifiers::Qualifiers;

/// The access to a member: who may name it.
#[derive(Clone, Copy)]
pub(crate) enum Access {
    /// The class alone.
    Private,
    /// The class and its derived classes.
    Protected,
    /// Everyone.
    Public,
}

impl Access {
    /// The text that is printed before a member.
    pub(crate) fn text(self) -> &'static str
        ensures { result.now ≡ access_text self }
    {
        match self {
            Access::Private => "private: ",
            Access::Protected => "protected: ",
            Access::Public => "public: ",
        }
    }
}

/// The way in which a type leads to another.
#[derive(Clone, Copy)]
pub(crate) enum Affinity {
    /// A pointer.
    Pointer,
    /// An lvalue reference.
    Reference,
    /// An rvalue reference.
    RvalueReference,
}

impl Affinity {
    /// The sign of the pointer or reference.
    pub(crate) fn text(self) -> &'static str
        ensures { result.now ≡ affinity_text self }
    {
        match self {
            Affinity::Pointer => "*",
            Affinity::Reference => "&",
            Affinity::RvalueReference => "&&",
        }
    }
}

/// A word that is wanted, or an empty one.
pub(crate) fn word_if(is_wanted: bool, word: &'static str) -> &'static str {
    if is_wanted { word } else { "" }
}

/// The pointer or reference that a letter stands for, with its own qualifiers.
#[tactic(auto, unfolding(crate::specs::Qualified::pointer))]
pub(crate) fn pointer_of(code: u8) -> Option<(Affinity, Qualifiers)>
    ensures { result ≡ pointer code }
{
    match code {
        b'A' => Some((Affinity::Reference, qualified(false, false))),
        b'P' => Some((Affinity::Pointer, qualified(false, false))),
        b'Q' => Some((Affinity::Pointer, qualified(true, false))),
        b'R' => Some((Affinity::Pointer, qualified(false, true))),
        b'S' => Some((Affinity::Pointer, qualified(true, true))),
        _ => None,
    }
}

/// The calling convention that a letter stands for; empty for one that isn't known.
#[tactic(auto, unfolding(crate::specs::Words::convention))]
pub(crate) fn convention_of(code: u8) -> &'static str
    ensures { result.now ≡ convention code }
{
    match code {
        b'A' | b'B' => "__cdecl",
        b'C' | b'D' => "__pascal",
        b'E' | b'F' => "__thiscall",
        b'G' | b'H' => "__stdcall",
        b'I' | b'J' => "__fastcall",
        b'M' | b'N' => "__clrcall",
        b'O' | b'P' => "__eabi",
        b'Q' => "__vectorcall",
        b'S' => "__attribute__((__swiftcall__)) ",
        b'W' => "__attribute__((__swiftasynccall__)) ",
        _ => "",
    }
}

/// The basic type that a letter stands for.
#[tactic(auto, unfolding(crate::specs::Words::basic_type))]
pub(crate) fn basic_type_of(code: u8) -> Option<&'static str>
    ensures { option_map (λ w. w.now) result ≡ basic_type code }
{
    match code {
        b'C' => Some("signed char"),
        b'D' => Some("char"),
        b'E' => Some("unsigned char"),
        b'F' => Some("short"),
        b'G' => Some("unsigned short"),
        b'H' => Some("int"),
        b'I' => Some("unsigned int"),
        b'J' => Some("long"),
        b'K' => Some("unsigned long"),
        b'M' => Some("float"),
        b'N' => Some("double"),
        b'O' => Some("long double"),
        b'X' => Some("void"),
        _ => None,
    }
}

/// The basic type that a letter after `_` stands for.
#[tactic(auto, unfolding(crate::specs::Words::later_basic_type))]
pub(crate) fn later_basic_type_of(code: u8) -> Option<&'static str>
    ensures { option_map (λ w. w.now) result ≡ later_basic_type code }
{
    match code {
        b'J' => Some("__int64"),
        b'K' => Some("unsigned __int64"),
        b'N' => Some("bool"),
        b'Q' => Some("char8_t"),
        b'S' => Some("char16_t"),
        b'U' => Some("char32_t"),
        b'W' => Some("wchar_t"),
        _ => None,
    }
}

/// The keyword that a letter before a class's name stands for.
#[tactic(auto, unfolding(crate::specs::Words::keyword))]
pub(crate) fn keyword_of(code: u8) -> Option<&'static str>
    ensures { option_map (λ w. w.now) result ≡ keyword code }
{
    match code {
        b'T' => Some("union"),
        b'U' => Some("struct"),
        b'V' => Some("class"),
        b'W' => Some("enum"),
        _ => None,
    }
}

/// The access of a variable of this storage class: `0` to `2` are static members, `3` is global,
/// `4` local to a function.
#[tactic(auto, unfolding(crate::specs::Methods::storage))]
pub(crate) fn storage_of(code: u8) -> Option<Option<Access>>
    ensures { result ≡ storage code }
{
    match code {
        b'0' => Some(Some(Access::Private)),
        b'1' => Some(Some(Access::Protected)),
        b'2' => Some(Some(Access::Public)),
        b'3' | b'4' => Some(None),
        _ => None,
    }
}
