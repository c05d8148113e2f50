//! Laws of indices: functions that do nothing, whose contracts are proved.

ghost use Rattle.std.specs.Prelude.{◌≡◌};
ghost use Rattle.pdb_container.specs.EqualHashing.{HashAlike};
ghost use Rattle.pdb_container.specs.declared.index.Local.{Local as LocalOf};

use crate::index::{IdIndex, Local, TypeIndex};
use crate::index_numbers::{FileIndex, SymbolIndex};
use std::hash::Hash;

/// `==` of indices returns true exactly for one and the same index, and equal ones hash alike.
pub fn equal_indices_hash_alike()
    ensures types { HashAlike ⟦<TypeIndex as PartialEq>⟧.eq ⟦<TypeIndex as Hash>⟧.hash_input }
    ensures ids { HashAlike ⟦<IdIndex as PartialEq>⟧.eq ⟦<IdIndex as Hash>⟧.hash_input }
    ensures files { HashAlike ⟦<FileIndex as PartialEq>⟧.eq ⟦<FileIndex as Hash>⟧.hash_input }
    ensures symbols { HashAlike ⟦<SymbolIndex as PartialEq>⟧.eq ⟦<SymbolIndex as Hash>⟧.hash_input }
    ensures local_types { HashAlike ⟦<Local<TypeIndex> as PartialEq>⟧.eq
        ⟦<Local<TypeIndex> as Hash>⟧.hash_input }
    ensures local_ids { HashAlike ⟦<Local<IdIndex> as PartialEq>⟧.eq
        ⟦<Local<IdIndex> as Hash>⟧.hash_input }
{}

/// `==` of indices as a module names them returns what `==` of the indices does.
pub fn equal_locals<I: PartialEq>()
    ensures { (a b : LocalOf I) → ⟦<Local<I> as PartialEq>⟧.eq a b ≡ I.eq a.0 b.0 }
{}
