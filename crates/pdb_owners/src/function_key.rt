//! Keys that tell functions apart, without their names.

ghost use Rattle.std.specs.Prelude.{◌≡◌, Some, refl};
ghost use Rattle.std.specs.Cmp.{eq_by_cmp_equiv, partial_equiv_from_equiv};
ghost use Rattle.std.specs.Cmp.{partial_order_from_total};
ghost use Rattle.pdb_owners.specs.Answers.{is_same};
ghost use Rattle.pdb_owners.specs.KeyOrder.{key_cmp, key_module, key_numbers, key_total};
ghost use Rattle.pdb_owners.specs.KeyOrder.{key_exact};

use crate::countable::Countable;
use pdb_addresses::PdbInternalSectionOffset;
use std::cmp::Ordering;

/// A key that tells functions apart, without their names: what is found by one key is one function.
#[derive(Clone, Copy, Debug)]
pub enum FunctionKey {
    /// A procedure, by its module's index and its own index among that module's procedures.
    Procedure(u16, usize),
    /// An entry of the public list, by its place, and the index of the module that holds the place
    /// at which it was found.
    Public(u16, PdbInternalSectionOffset),
}

impl FunctionKey {
    /// Returns the index of the key's module.
    pub fn module_index(&self) -> u16
        ensures { result ≡ key_module self.now }
    {
        match self {
            FunctionKey::Procedure(module_index, _) | FunctionKey::Public(module_index, _) => {
                *module_index
            }
        }
    }

    /// Returns the numbers by which the key is compared.
    fn numbers(&self) -> (u8, u16, usize, u32)
        ensures { result ≡ key_numbers self.now }
    {
        match self {
            FunctionKey::Procedure(module_index, number) => (0, *module_index, *number, 0),
            FunctionKey::Public(module_index, start) => {
                (1, *module_index, usize::from(start.section), start.offset)
            }
        }
    }
}

/// Two keys are equal where all their numbers are.
impl PartialEq for FunctionKey {
    ghost eq = { is_same key_cmp };

    ghost laws = { partial_equiv_from_equiv (eq_by_cmp_equiv key_total) };

    fn eq(&self, other: &FunctionKey) -> bool {
        self.cmp(other).is_eq()
    }
}

impl Eq for FunctionKey {
    ghost laws = { eq_by_cmp_equiv key_total };
}

/// Procedures by module and number, and then public entries by module and place.
impl PartialOrd for FunctionKey {
    ghost partial_cmp = { λ a b. Some (key_cmp a b) };

    ghost laws = { partial_order_from_total key_total };

    fn partial_cmp(&self, other: &FunctionKey) -> Option<Ordering> {
        Some(self.cmp(other))
    }
}

/// Procedures by module and number, and then public entries by module and place.
impl Ord for FunctionKey {
    ghost cmp = { key_cmp };

    ghost total = { key_total };

    ghost matches_partial_cmp = { λ a b. refl };

    ghost matches_eq = { λ a b. refl };

    fn cmp(&self, other: &FunctionKey) -> Ordering {
        let (kind, module_index, number, offset) = self.numbers();
        let (other_kind, other_module_index, other_number, other_offset) = other.numbers();
        kind.cmp(&other_kind)
            .then(module_index.cmp(&other_module_index))
            .then(number.cmp(&other_number))
            .then(offset.cmp(&other_offset))
    }
}

/// Two keys that compare as equal are one.
impl Countable for FunctionKey {
    ghost exact = { key_exact };
}
