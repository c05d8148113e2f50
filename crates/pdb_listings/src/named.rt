//! Names that bytes are counted by.

ghost use Rattle.std.specs.Prelude.{◌≡◌, Some, refl};
ghost use Rattle.std.specs.Cmp.{eq_by_cmp_equiv, partial_equiv_from_equiv};
ghost use Rattle.std.specs.Cmp.{partial_order_from_total};
ghost use Rattle.std.specs.Cmp.Lexicographic.{slice_cmp, nat_list_cmp_total};
ghost use Rattle.std.specs.Ordering.{nat_cmp};
ghost use Rattle.pdb_owners.specs.Answers.{is_same};
ghost use Rattle.pdb_listings.specs.Sizes.{name_exact};

use pdb_owners::Countable;
use std::cmp::Ordering;
use std::marker::Model;

/// A name that bytes are counted by, in the order of its bytes.
#[derive(Drop)]
pub struct Named {
    /// The name.
    pub name: String,
}

impl Model for Named {
    ghost use Rattle.std.specs.Prelude.{ℕ, List, string_bytes};

    ghost Value = { List ℕ };

    ghost view = { λ n. string_bytes n.name };
}

/// Two names are equal where their bytes are.
impl PartialEq for Named {
    ghost eq = { is_same (slice_cmp nat_cmp) };

    ghost laws = { partial_equiv_from_equiv (eq_by_cmp_equiv nat_list_cmp_total) };

    fn eq(&self, other: &Named) -> bool {
        self.cmp(other).is_eq()
    }
}

impl Eq for Named {
    ghost laws = { eq_by_cmp_equiv nat_list_cmp_total };
}

/// The order of names by their bytes.
impl PartialOrd for Named {
    ghost partial_cmp = { λ a b. Some (slice_cmp nat_cmp a b) };

    ghost laws = { partial_order_from_total nat_list_cmp_total };

    fn partial_cmp(&self, other: &Named) -> Option<Ordering> {
        Some(self.cmp(other))
    }
}

/// The order of names by their bytes.
impl Ord for Named {
    ghost cmp = { slice_cmp nat_cmp };

    ghost total = { nat_list_cmp_total };

    ghost matches_partial_cmp = { λ a b. refl };

    ghost matches_eq = { λ a b. refl };

    fn cmp(&self, other: &Named) -> Ordering {
        self.name.cmp(&other.name)
    }
}

/// Two names that compare as equal are one.
impl Countable for Named {
    ghost exact = { name_exact };
}
