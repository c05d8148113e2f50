//! Laws of the definitions: functions that do nothing, whose contracts are proved.

ghost use Rattle.std.specs.Prelude.{◌≡◌, ◌↔◌, ℕ, true, Ok};
ghost use Rattle.pdb_symbols_modules.specs.Shared.{module_number, provider};
ghost use Rattle.pdb_symbols_modules.specs.Streams.{Streams};
ghost use Rattle.pdb_symbols_modules.specs.declared.stream_index.StreamIndex.{
  StreamIndex as Number,
};

use crate::stream_index::StreamIndex;
use std::hash::Hash;

/// `==` of numbers of streams returns true exactly for one and the same number, and equal numbers
/// hash alike.
pub fn equal_stream_indices_hash_alike()
    ensures equal { (a b : Number) → (⟦<StreamIndex as PartialEq>⟧.eq a b ≡ true) ↔ (a ≡ b) }
    ensures hash { (a b : Number) → a ≡ b
        → ⟦<StreamIndex as Hash>⟧.hash_input a ≡ ⟦<StreamIndex as Hash>⟧.hash_input b }
{}

/// A module's own stream and stream 3 decide what the module holds. Where both are equal in two
/// databases, so are the module's symbols, lines, inlined functions, imports and exports, with
/// their faults.
#[tactic(auto, using(crate::proofs::Provided::one_module))]
pub fn one_module()
    ensures { (s t : Streams) (k : ℕ) → s.at 3 ≡ t.at 3
        → ((n : ℕ) → module_number (s.at 3) k ≡ Ok n → s.at n ≡ t.at n)
        → provider s k ≡ provider t k }
{}
