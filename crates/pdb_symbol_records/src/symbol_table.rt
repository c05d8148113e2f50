//! Symbol tables: the symbols that a stream holds.

ghost use Rattle.std.specs.Prelude.{◌≡◌};
ghost use Rattle.pdb_symbol_records.specs.Iteration.{iteration_at};

use crate::symbol_iter::SymbolIter;
use pdb_container::{Stream, SymbolIndex};
use std::marker::Model;

/// A symbol table: the symbols that a stream holds from its first byte on.
#[derive(Debug, Drop)]
pub struct SymbolTable<'s> {
    stream: Stream<'s>,
}

impl<'s> Model for SymbolTable<'s> {
    ghost use Rattle.std.specs.Prelude.{ℕ, List};

    ghost Value = { List ℕ };

    ghost view = { λ t. t.stream };
}

impl<'s> SymbolTable<'s> {
    /// The symbol table that a stream holds.
    pub fn new(stream: Stream<'s>) -> SymbolTable<'s>
        ensures { result ≡ stream.entry }
    {
        SymbolTable { stream }
    }

    /// The symbols in their order.
    pub fn iter(&self) -> SymbolIter<'_>
        ensures { result ≡ iteration_at self.now 0 }
    {
        self.iter_at(SymbolIndex(0))
    }

    /// The symbols from a place on, in bytes.
    pub fn iter_at(&self, index: SymbolIndex) -> SymbolIter<'_>
        ensures { result ≡ iteration_at self.now index.0 }
    {
        SymbolIter::over(self.stream.as_slice(), index)
    }
}
