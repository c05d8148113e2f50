//! Laws of the definitions: functions that do nothing, whose contracts are proved.

ghost use Rattle.std.specs.Prelude.{◌≡◌, ◌≢◌, ◌↔◌, ◌<◌, ◌^◌, ℕ, List, Option, None, Some};
ghost use Rattle.std.specs.declared.cmp.Ordering.TheVariants.{Equal};
ghost use Rattle.pdb_container.specs.EqualHashing.{HashAlike};
ghost use Rattle.std.specs.Bool.{Decides};
ghost use Rattle.pdb_addresses.specs.Addresses.{Map, IsOrdered, is_ordered, inner, outer};
ghost use Rattle.pdb_addresses.specs.PartedRuns.{laid_out, one_by_one, AreParted};
ghost use Rattle.pdb_addresses.specs.Places.{Place};
ghost use Rattle.pdb_addresses.specs.Ranges.{runs};
ghost use Rattle.pdb_addresses.specs.Sections.{place, address};
ghost use Rattle.pdb_addresses.specs.declared.omap.OMAPRecord.{OMAPRecord as Record};
ghost use Rattle.pdb_addresses.specs.declared.section_offset.SectionOffset.{
  SectionOffset as ImagePlace,
};
ghost use Rattle.pdb_addresses.specs.declared.internal_section_offset.PdbInternalSectionOffset.{
  PdbInternalSectionOffset as InternalPlace,
};
ghost use Rattle.pdb_addresses.specs.declared.sections.ImageSectionHeader.{
  ImageSectionHeader as Header,
};

use crate::internal_rva::PdbInternalRva;
use crate::internal_section_offset::PdbInternalSectionOffset;
use crate::rva::Rva;
use crate::section_offset::SectionOffset;
use std::hash::Hash;

/// Addresses keep their numbers in a direction without a map.
pub fn without_maps()
    ensures inward { (m : Map) (a : ℕ) → m.to_internal ≡ None → inner m a ≡ Some a }
    ensures outward { (m : Map) (a : ℕ) → m.to_image ≡ None → outer m a ≡ Some a }
{}

/// Whether a map is ordered is computed: true exactly where in both directions no source lies below
/// the one before it.
#[tactic(auto, using(crate::proofs::Ordered::ordered_decided))]
pub fn ordered_maps()
    ensures { (m : Map) → Decides (is_ordered m) (IsOrdered m) }
{}

/// The place of an address has that address, in every list of sections.
pub fn place_and_back()
    ensures { (sections : List Header) (a : ℕ) (p : Place) → a < 2 ^ 32 → place sections a ≡ Some p
        → address sections p.section p.offset ≡ Some a }
{}

/// The ranges that a range becomes, laid end to end, are the results of its addresses one by one,
/// in order, without those that become nothing or 0xffffffff; and no two neighbors among them came
/// by one record. This holds of every map, and where there is none.
pub fn ranges_laid_end_to_end()
    ensures one_by_one { (omap : Option (List Record)) (start end : ℕ)
        → laid_out (runs omap start end) ≡ one_by_one omap start end }
    ensures parted { (omap : Option (List Record)) (start end : ℕ)
        → AreParted (runs omap start end) }
{}

/// Two places compare as equal exactly where they are equal, and don't compare exactly where their
/// sections differ.
pub fn compared_places()
    ensures image_equal { (a b : ImagePlace)
        → (⟦<SectionOffset as PartialOrd>⟧.partial_cmp a b ≡ Some Equal) ↔ (a ≡ b) }
    ensures image_none { (a b : ImagePlace)
        → (⟦<SectionOffset as PartialOrd>⟧.partial_cmp a b ≡ None) ↔ (a.section ≢ b.section) }
    ensures internal_equal { (a b : InternalPlace)
        → (⟦<PdbInternalSectionOffset as PartialOrd>⟧.partial_cmp a b ≡ Some Equal) ↔ (a ≡ b) }
    ensures internal_none { (a b : InternalPlace)
        → (⟦<PdbInternalSectionOffset as PartialOrd>⟧.partial_cmp a b ≡ None)
        ↔ (a.section ≢ b.section) }
{}

/// `==` of addresses and places returns true exactly for one and the same value, and equal values
/// hash alike.
pub fn equal_hash_alike()
    ensures image_address { HashAlike ⟦<Rva as PartialEq>⟧.eq ⟦<Rva as Hash>⟧.hash_input }
    ensures internal_address { HashAlike ⟦<PdbInternalRva as PartialEq>⟧.eq
        ⟦<PdbInternalRva as Hash>⟧.hash_input }
    ensures image_place { HashAlike ⟦<SectionOffset as PartialEq>⟧.eq
        ⟦<SectionOffset as Hash>⟧.hash_input }
    ensures internal_place { HashAlike ⟦<PdbInternalSectionOffset as PartialEq>⟧.eq
        ⟦<PdbInternalSectionOffset as Hash>⟧.hash_input }
{}
