//! The string table (`/names`): the names that lines and modules refer to. Its layout is
//! microsoft-pdb's nmt.h.

ghost use Rattle.std.specs.Prelude.{◌≡◌, ◌<◌, ◌^◌, ◌≤◌, ◌==◌, ◌&&◌, ◌||◌, length, take, drop, IfOk};
ghost use Rattle.std.specs.Cow.{cow_str_bytes};
ghost use Rattle.pdb_container.specs.Fault.{Gives, Parses};
ghost use Rattle.pdb_container.specs.StringTable.{names_of, name_in, text_in};
ghost use Rattle.pdb_container.specs.RawString.{raw_bytes};

use crate::buffer::ParseBuffer;
use crate::error::{Error, Result};
use crate::msf::Stream;
use crate::numbers::word_at;
use crate::raw_string::RawString;
use std::alloc::Global;
use std::borrow::CowStr;
use std::marker::Model;

/// The signature with which the table's stream begins.
const SIGNATURE: u32 = 0xeffe_effe;

/// The number of bytes before the names.
const HEADER_SIZE: usize = 12;

/// An offset into the string table (`/names`): the place at which a name begins among the table's
/// names, in bytes.
#[derive(Clone, Copy, Debug, PartialEq, Eq, PartialOrd, Ord, Hash)]
pub struct StringRef(pub u32);

/// The string table (`/names`): names in a stream of their own.
#[derive(Debug, Drop)]
pub struct StringTable<'s> {
    stream: Stream<'s>,
    size: usize,
}

impl<'s> Model for StringTable<'s> {
    ghost use Rattle.std.specs.Prelude.{ℕ, List, take, drop, ◌≤◌, length};

    ghost Value = { List ℕ };

    ghost view = { λ t. take t.size (drop 12 t.stream) };

    ghost invariant = { λ t. t.size ≤ length (drop 12 t.stream) };
}

impl<'s> StringTable<'s> {
    /// The table in a stream.
    ///
    /// # Errors
    /// `UnexpectedEof`; `UnimplementedFeature` for another signature or version than 1 and 2.
    pub fn parse(stream: Stream<'s>) -> Result<StringTable<'s>>
        ensures { Parses (λ t. t) result (names_of stream.entry) }
    {
        match names_size(stream.as_slice()) {
            Ok(size) => Ok(StringTable { stream, size }),
            Err(fault) => Err(fault),
        }
    }

    /// The name at a place among the names.
    ///
    /// # Errors
    /// `UnexpectedEof` outside them, and where no NUL among them ends it.
    #[tactic(auto, unfolding(crate::specs::StringTable::name_in))]
    pub fn get(&self, offset: StringRef) -> Result<RawString<'_>>
        ensures { Parses raw_bytes result (name_in self.now offset.0) }
    {
        let mut buffer = ParseBuffer::from(self.names());
        buffer.seek(offset.0 as usize);
        buffer.parse_cstring()
    }

    /// The bytes of the names, fewer than 2^32; each name ends with a NUL.
    pub fn names(&self) -> &[u8]
        ensures names { result.now ≡ self.now }
        ensures few { length result.now < 2 ^ 32 }
    {
        let mut buffer = ParseBuffer::from(self.stream.as_slice());
        buffer.seek(HEADER_SIZE);
        &buffer.left()[..self.size]
    }
}

impl StringRef {
    /// The name in a table.
    ///
    /// # Errors
    /// Those of [`StringTable::get`].
    pub fn to_raw_string<'t>(self, strings: &'t StringTable<'_>) -> Result<RawString<'t>>
        ensures { Parses raw_bytes result (name_in strings.now self.0) }
    {
        strings.get(self)
    }

    /// The name in a table as text, with U+FFFD for what is no character.
    ///
    /// # Errors
    /// Those of [`StringTable::get`], and `OutOfMemory`.
    pub fn to_string_lossy<'t>(
        self,
        alloc: Global,
        strings: &'t StringTable<'_>,
    ) -> Result<CowStr<'t>>
        ensures { Gives cow_str_bytes ⊥ result (text_in strings.now self.0) }
    {
        match strings.get(self) {
            Ok(name) => name.to_string(alloc),
            Err(fault) => Err(fault),
        }
    }
}

/// The number of bytes that the names have in the table of these bytes.
#[tactic(auto, using(crate::proofs::Names::names_short, crate::proofs::Names::names_unknown, crate::proofs::Names::names_missing, crate::proofs::Names::names_there))]
fn names_size(bytes: &[u8]) -> Result<usize>
    ensures value { Parses (λ size. take size (drop 12 bytes.now)) result (names_of bytes.now) }
    ensures within { IfOk result (λ size. size ≤ length (drop 12 bytes.now)) }
{
    if bytes.len() < HEADER_SIZE {
        return Err(Error::UnexpectedEof);
    }
    if !is_known(word_at(bytes, 0), word_at(bytes, 4)) {
        return Err(Error::UnimplementedFeature("string table"));
    }
    let size = word_at(bytes, 8) as usize;
    if bytes.len() - HEADER_SIZE < size {
        return Err(Error::UnexpectedEof);
    }
    Ok(size)
}

/// Whether a table with this signature and version can be read.
fn is_known(signature: u32, version: u32) -> bool
    ensures { result ≡ ((signature == 0xeffeeffe) && ((version == 1) || (version == 2))) }
{
    signature == SIGNATURE && (version == 1 || version == 2)
}
