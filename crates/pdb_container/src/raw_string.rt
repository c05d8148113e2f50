//! Raw strings: texts of a database whose encoding isn't known.

ghost use Rattle.std.specs.Prelude.{◌≡◌, ◌==◌, length, IsOk, IfOk, IsOkUnless};
ghost use Rattle.std.specs.Cow.{cow_str_bytes, IsBorrowedStr};
ghost use Rattle.std.specs.Str.{IsUtf8};
ghost use Rattle.std.specs.Str.Lossy.{utf8_lossy};
ghost use Rattle.pdb_container.specs.RawString.{raw_bytes};

use crate::error::{Error, Result};
use bstr::{BStr, ByteSlice};
use std::alloc::Global;
use std::borrow::CowStr;
use std::fmt;

/// A raw string: a text whose encoding isn't known, mostly UTF-8, such as the name of a symbol, a
/// type, a module or a file. It prints as UTF-8 with U+FFFD for what is no character.
#[derive(Clone, Copy, PartialEq, Eq, Hash)]
pub struct RawString<'b>(&'b [u8]);

impl<'b> From<&'b [u8]> for RawString<'b> {
    ghost from_gives = { λ bytes text. raw_bytes text ≡ bytes.now };

    fn from(bytes: &'b [u8]) -> RawString<'b> {
        RawString(bytes)
    }
}

impl<'b> From<&'b str> for RawString<'b> {
    ghost from_gives = { λ text raw. raw_bytes raw ≡ text.now };

    fn from(text: &'b str) -> RawString<'b> {
        RawString(text.as_bytes())
    }
}

impl<'b> RawString<'b> {
    /// The bytes.
    pub fn as_bytes(&self) -> &'b [u8]
        ensures { result.now ≡ raw_bytes self.now }
    {
        self.0
    }

    /// The number of bytes.
    pub fn len(&self) -> usize
        ensures { result ≡ length (raw_bytes self.now) }
    {
        self.0.len()
    }

    /// Whether there is no byte.
    pub fn is_empty(&self) -> bool
        ensures { result ≡ (length (raw_bytes self.now) == 0) }
    {
        self.0.is_empty()
    }

    /// The text, with U+FFFD for what is no character; borrowed where the bytes are UTF-8, and then
    /// without memory.
    ///
    /// # Errors
    /// `OutOfMemory` alone.
    pub fn to_string(&self, alloc: Global) -> Result<CowStr<'b>>
        ensures text { IfOk result (λ text. cow_str_bytes text ≡ utf8_lossy (raw_bytes self.now)) }
        ensures borrowed { IsUtf8 (raw_bytes self.now)
            → IsOk result × IfOk result (λ text. IsBorrowedStr text) }
        ensures memory { IsOkUnless result Error.OutOfMemory }
    {
        Ok(self.0.to_str_lossy(alloc)?)
    }
}

impl fmt::Display for RawString<'_> {
    ghost use Rattle.std.specs.Prelude.{Some};

    ghost output = { λ text. Some (utf8_lossy (raw_bytes text)) };

    fn fmt<W: fmt::Write>(&self, f: &mut fmt::Formatter<W>) -> fmt::Result {
        BStr::new(self.0).fmt(f)
    }
}

impl fmt::Debug for RawString<'_> {
    fn fmt<W: fmt::Write>(&self, f: &mut fmt::Formatter<W>) -> fmt::Result {
        BStr::new(self.0).fmt(f)
    }
}
