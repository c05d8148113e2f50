//! Laws of the definitions: functions that do nothing, whose contracts are proved.

ghost use Rattle.std.specs.Prelude.{◌≡◌, ◌==◌, ◌||◌, ◌⊎◌, ℕ, true, List};
ghost use Rattle.pdb_addresses.specs.declared.internal_section_offset.PdbInternalSectionOffset.{
  PdbInternalSectionOffset,
};
ghost use Rattle.pdb_resolving.specs.Failed.{stands, with_part};
ghost use Rattle.pdb_resolving.specs.Failures.{Failures, Part, IsPart, IsPlace, has_failed};
ghost use Rattle.pdb_resolving.specs.Failures.{number_of, with_failed};

/// The part with that number stands as failed once it is stored; so does each that stood before,
/// and no other.
pub fn kept_numbers_stand()
    ensures { (failed : List ℕ) (number other : ℕ)
        → stands (with_part failed number) other ≡ ((other == number) || stands failed other) }
{}

/// No two places in modules have one number.
pub fn places_have_own_numbers()
    ensures { (m n : ℕ) (p q : PdbInternalSectionOffset) → IsPlace p → IsPlace q
        → number_of m p ≡ number_of n q → (m ≡ n) × (p ≡ q) }
{}

/// A part of a module stands as failed once it is stored; so does each that stood before, and no
/// other.
pub fn kept_parts_stand()
    ensures kept { (f : Failures) (part : Part) → has_failed (with_failed f part) part ≡ true }
    ensures stay { (f : Failures) (part other : Part) → has_failed f other ≡ true
        → has_failed (with_failed f part) other ≡ true }
    ensures others { (f : Failures) (part other : Part) → IsPart part → IsPart other
        → has_failed (with_failed f part) other ≡ true
        → (other ≡ part) ⊎ (has_failed f other ≡ true) }
{}
