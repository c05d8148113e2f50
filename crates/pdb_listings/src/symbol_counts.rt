//! The numbers of procedures and public symbols.

ghost use Rattle.std.specs.Prelude.{◌≡◌};
ghost use Rattle.pdb_listings.specs.Symbols.{GivesKind, count_after, kinds_left};
ghost use Rattle.pdb_symbol_records.specs.Kinds.{is_procedure as is_procedure_kind};
ghost use Rattle.pdb_symbol_records.specs.Kinds.{is_public as is_public_kind};

use pdb_container::FallibleIterator;
use pdb_symbol_records::kinds::{is_procedure, is_public};
use pdb_symbols_modules::SymbolIter;

/// The numbers of procedures and public symbols that were counted.
#[derive(Clone, Copy, Default)]
pub struct SymbolCounts {
    /// Procedures.
    pub procedures: u64,
    /// Public symbols.
    pub publics: u64,
}

/// The kind of the next symbol; none at the end, and where it can't be read.
#[tactic(auto, using(crate::proofs::KindCounts::kinds_more, crate::proofs::KindCounts::kinds_ended))]
fn next_kind(symbols: &mut SymbolIter<'_>) -> Option<u16>
    ensures { GivesKind (kinds_left symbols.old) result (kinds_left symbols.new) }
{
    match symbols.next() {
        Ok(Some(symbol)) => Some(symbol.raw_kind()),
        Ok(None) => None,
        Err(_) => None,
    }
}

impl SymbolCounts {
    /// Counts symbols up to the first that can't be read. At `u64::MAX` a count stays.
    #[tactic(auto, using(crate::proofs::KindCounts::counted_more))]
    pub fn add(&mut self, mut symbols: SymbolIter<'_>)
        ensures procedures { self.new.procedures
            ≡ count_after self.old.procedures is_procedure_kind symbols.entry }
        ensures publics { self.new.publics
            ≡ count_after self.old.publics is_public_kind symbols.entry }
    {
        let mut procedures = self.procedures;
        let mut publics = self.publics;
        while let Some(kind) = next_kind(&mut symbols) {
            procedures = procedures.saturating_add(u64::from(is_procedure(kind)));
            publics = publics.saturating_add(u64::from(is_public(kind)));
        }
        self.procedures = procedures;
        self.publics = publics;
    }
}
