//! Laws of the definitions: functions that do nothing, whose contracts are proved.

ghost use Rattle.std.specs.Prelude.{◌≡◌, ℕ, List, Ok, Some};
ghost use Rattle.pdb_symbol_records.specs.Symbols.{Symbol as SymbolValue, next, next_by_step};
ghost use Rattle.pdb_symbol_records.specs.Symbols.{symbol_before, symbols_from, IsFound};

/// Nothing is found at the end of the list and past it. Otherwise the symbol at the place counts: a
/// fault is returned, a symbol is found, and after padding between symbols the search goes on.
pub fn next_by_one_step()
    ensures { (bytes : List ℕ) (place : ℕ) → next bytes place ≡ next_by_step bytes place }
{}

/// A symbol that is found from a place on stands there or later, within the list, and is found from
/// its index on.
pub fn found_symbols()
    ensures { (bytes : List ℕ) (place : ℕ) (s : SymbolValue) (behind : ℕ)
        → next bytes place ≡ Ok (Some (s, behind)) → IsFound bytes place s behind }
{}

/// The symbols from a place on are the first one and those after it, or end as the search for it
/// does.
pub fn symbols_by_one_step()
    ensures { (bytes : List ℕ) (place : ℕ) → symbols_from bytes place
        ≡ symbol_before (symbols_from bytes) (next bytes place) }
{}
