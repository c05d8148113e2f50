//! The number of bytes for which the place of an address goes on.

ghost use Rattle.std.specs.Prelude.{◌≡◌, ℕ, ◌+◌, ◌^◌, ◌<◌, ◌≤◌, option_map};
ghost use Rattle.pdb_addresses.specs.Places.{internal_place as in_internal_space};
ghost use Rattle.pdb_addresses.specs.SectionRun.{bounds, up_to_next, place_on};
ghost use Rattle.pdb_addresses.specs.Sections.{place as place_of};

use crate::address_map::AddressMap;
use crate::internal_rva::PdbInternalRva;
use crate::internal_section_offset::PdbInternalSectionOffset;
use crate::section_list::internal;

impl<'s> AddressMap<'s> {
    /// The place of an internal address, and the number of bytes from it on over which places go on
    /// as they begin: one by one in the same section, or none at all. The count ends at the next
    /// start or end of an internal section past the address, and is at most `limit`, which is at
    /// least 1 and leads no further than to the end of 32 bits.
    #[tactic(auto, using(crate::proofs::PlaceSteps::place_inside, crate::proofs::RunSteps::run_is_some, crate::proofs::RunSteps::places_go_on))]
    pub fn section_run(
        &self,
        address: PdbInternalRva,
        limit: u32,
    ) -> (Option<PdbInternalSectionOffset>, u32)
        requires some { 1 ≤ limit }
        requires within { address.0 + limit ≤ 2 ^ 32 }
        ensures place { result.0 ≡ option_map in_internal_space
            (place_of self.now.internal address.0) }
        ensures count { result.1 ≡ up_to_next (bounds self.now.internal) address.0 limit }
        ensures some { 1 ≤ result.1 }
        ensures along { (k : ℕ) → k < result.1 → place_of self.now.internal (address.0 + k)
            ≡ place_on k (place_of self.now.internal address.0) }
    {
        let (place, count) = self.internal_sections().run(address.0, limit);
        (internal(place), count)
    }
}
