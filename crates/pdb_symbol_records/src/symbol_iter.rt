//! Symbol iterators: the symbols of a list in their order.

ghost use Rattle.std.specs.Prelude.{◌≡◌, ◌<◌, ◌≤◌, ◌^◌, length};
ghost use Rattle.pdb_container.specs.Fault.{Parses};
ghost use Rattle.pdb_container.specs.Listing.{Advances};
ghost use Rattle.pdb_symbol_records.specs.Iteration.{iteration_at, found_next, symbol_of};
ghost use Rattle.pdb_symbol_records.specs.Iteration.{symbols_behind};
ghost use Rattle.pdb_symbol_records.specs.Iteration.{symbols_left};
ghost use Rattle.pdb_symbol_records.specs.Symbols.{next};

use crate::kinds::is_padding;
use crate::symbol::{Symbol, parse_symbol};
use pdb_container::{Error, FallibleIterator, Result, SymbolIndex};
use std::marker::Model;

/// An iterator over the symbols of a list in their order. At the end and after an error it stands
/// at the list's end, and returns `None` until it is sent to a place again.
#[derive(Debug, Drop)]
pub struct SymbolIter<'t> {
    bytes: &'t [u8],
    place: usize,
}

impl<'t> Model for SymbolIter<'t> {
    ghost use Rattle.std.specs.Prelude.{◌<◌, ◌^◌, length};
    ghost use Rattle.pdb_symbol_records.specs.Iteration.{SymbolIteration};

    ghost Value = { SymbolIteration };

    ghost view = { λ it. record { bytes = it.bytes.now; place = it.place } };

    ghost invariant = { λ it. length it.bytes.now < 2 ^ 32 };
}

impl<'t> SymbolIter<'t> {
    /// The symbols that these bytes hold from a place on. The bytes are fewer than 2^32.
    pub fn over(bytes: &'t [u8], place: SymbolIndex) -> SymbolIter<'t>
        requires { length bytes.now < 2 ^ 32 }
        ensures { result ≡ iteration_at bytes.now place.0 }
    {
        SymbolIter {
            bytes,
            place: place.0 as usize,
        }
    }

    /// Goes to a place, in bytes. The next symbol is the first one there or later; at the end, and
    /// past it, there is none.
    pub fn seek(&mut self, index: SymbolIndex)
        ensures { self.new ≡ iteration_at self.old.bytes index.0 }
    {
        self.place = index.0 as usize;
    }

    /// The first symbol at a place or later. The iterator then goes on after that symbol. Where
    /// there is none, and after an error, it goes to the list's end, and returns `None` until it is
    /// sent to a place again.
    ///
    /// # Errors
    /// `SymbolTooShort` and `UnexpectedEof`.
    pub fn skip_to(&mut self, index: SymbolIndex) -> Result<Option<Symbol<'t>>>
        ensures symbol { Parses (λ s. s) result (symbol_of (next self.old.bytes index.0)) }
        ensures state { self.new ≡ symbols_behind self.old.bytes (next self.old.bytes index.0) }
    {
        self.seek(index);
        self.next()
    }
}

impl<'t> FallibleIterator for SymbolIter<'t> {
    type Item = Symbol<'t>;

    type Error = Error;

    ghost has_ended = { λ it. length it.bytes ≤ it.place };

    ghost next_gives = { λ old result new. Parses (λ s. s) result (symbol_of (found_next old))
        × (new ≡ symbols_behind old.bytes (found_next old))
        × Advances (λ s. s) (symbols_left old) result (symbols_left new) };

    /// The next symbol: the first one at the iterator's place or later. Where there is none, and
    /// after an error, it goes to the list's end.
    ///
    /// # Errors
    /// `SymbolTooShort` and `UnexpectedEof`.
    #[tactic(auto, using(crate::proofs::Lists::symbols_more, crate::proofs::Lists::symbols_end, crate::proofs::Lists::symbols_fault, crate::proofs::Lists::symbols_past, crate::proofs::Lists::next_past))]
    fn next(&mut self) -> Result<Option<Symbol<'t>>> {
        match next_symbol(self.bytes, self.place) {
            Ok(Some((symbol, behind))) => {
                self.place = behind;
                Ok(Some(symbol))
            }
            Ok(None) => {
                self.place = self.bytes.len();
                Ok(None)
            }
            Err(fault) => {
                self.place = self.bytes.len();
                Err(fault)
            }
        }
    }
}

/// The first symbol at a place or later, and the place after it. `SymbolTooShort`, `UnexpectedEof`.
#[tactic(auto, using(crate::proofs::Lists::next_past, crate::proofs::Lists::next_found, crate::proofs::Lists::next_behind, crate::proofs::Lists::behind_further, crate::proofs::Lists::behind_within))]
fn next_symbol(bytes: &[u8], start: usize) -> Result<Option<(Symbol<'_>, usize)>>
    requires { length bytes.now < 2 ^ 32 }
    ensures { Parses (λ found. found) result (next bytes.now start) }
{
    let mut place = start;
    while place < bytes.len() {
        let (symbol, behind) = parse_symbol(bytes, place)?;
        if !is_padding(symbol.raw_kind()) {
            return Ok(Some((symbol, behind)));
        }
        place = behind;
    }
    Ok(None)
}
