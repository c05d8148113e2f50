//! One symbol of a list.

ghost use Rattle.std.specs.Prelude.{◌≡◌, ◌<◌, ◌^◌, length};
ghost use Rattle.pdb_container.specs.Fault.{Parses};
ghost use Rattle.pdb_symbol_records.specs.Kinds.{starts_scope, ends_scope};
ghost use Rattle.pdb_symbol_records.specs.Symbols.{kind_of, payload_of, symbol_at};

use crate::kinds;
use pdb_container::{Error, Result, SymbolIndex, half_at};
use std::marker::Model;

/// A CodeView symbol: the place of its length in the bytes of its list, and the bytes after the
/// length, which begin with its kind.
#[derive(Debug, Drop)]
pub struct Symbol<'t> {
    index: SymbolIndex,
    bytes: &'t [u8],
}

impl<'t> Model for Symbol<'t> {
    ghost use Rattle.std.specs.Prelude.{◌≤◌, length};
    ghost use Rattle.pdb_symbol_records.specs.Symbols as symbols;

    ghost Value = { symbols.Symbol };

    ghost view = { λ s. record { index = s.index.0; bytes = s.bytes.now } };

    ghost invariant = { λ s. 2 ≤ length s.bytes.now };
}

impl<'t> Symbol<'t> {
    /// The symbol index: the place of its length in the bytes of its list.
    pub fn index(&self) -> SymbolIndex
        ensures { result.0 ≡ self.now.index }
    {
        self.index
    }

    /// The number of its kind (`S_*`).
    pub fn raw_kind(&self) -> u16
        ensures { result ≡ kind_of self.now }
    {
        u16::from_le_bytes([self.bytes[0], self.bytes[1]])
    }

    /// The record's bytes after the length: the kind, and the payload.
    pub fn raw_bytes(&self) -> &'t [u8]
        ensures { result.now ≡ self.now.bytes }
    {
        self.bytes
    }

    /// Whether it is a procedure, a thunk, separated code or an inline site, by its kind: then
    /// other symbols may lie in it. It isn't parsed for that, so a walk asks before it parses.
    pub fn starts_scope(&self) -> bool
        ensures { result ≡ starts_scope (kind_of self.now) }
    {
        kinds::starts_scope(self.raw_kind())
    }

    /// Whether it ends a procedure, a thunk, separated code or an inline site, by its kind.
    pub fn ends_scope(&self) -> bool
        ensures { result ≡ ends_scope (kind_of self.now) }
    {
        kinds::ends_scope(self.raw_kind())
    }

    /// The bytes after its kind.
    pub(crate) fn payload(&self) -> &'t [u8]
        ensures { result.now ≡ payload_of self.now }
    {
        &self.bytes[2..]
    }
}

/// The symbol at a place of a list's bytes, and the place after it. `SymbolTooShort`,
/// `UnexpectedEof`.
#[tactic(auto, using(pdb_container::proofs::Taking::drop_within), unfolding(crate::specs::Symbols::symbol_at))]
pub(crate) fn parse_symbol(bytes: &[u8], place: usize) -> Result<(Symbol<'_>, usize)>
    requires { length bytes.now < 2 ^ 32 }
    ensures { Parses (λ found. found) result (symbol_at bytes.now place) }
{
    let left = &bytes[place.min(bytes.len())..];
    if left.len() < 2 {
        return Err(Error::UnexpectedEof);
    }
    let size = usize::from(half_at(left, 0));
    if size < 2 {
        return Err(Error::SymbolTooShort);
    }
    if left.len() - 2 < size {
        return Err(Error::UnexpectedEof);
    }
    let symbol = Symbol {
        index: SymbolIndex(place as u32),
        bytes: &left[2..2 + size],
    };
    Ok((symbol, place + 2 + size))
}
