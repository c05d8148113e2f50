//! The number of addresses over which places follow one another.

ghost use Rattle.std.specs.Prelude.{◌≡◌, ◌≢◌, ℕ, ◌+◌, ◌-◌, ◌^◌, ◌<◌, ◌≤◌, true, Some, IfSome};
ghost use Rattle.std.specs.Prelude.{option_map};
ghost use Rattle.pdb_addresses.specs.Addresses.{IsOrdered, inner, inner_place};
ghost use Rattle.pdb_addresses.specs.PlaceRun.{breaks};
ghost use Rattle.pdb_addresses.specs.Places.{internal_place as in_internal_space};
ghost use Rattle.pdb_addresses.specs.SectionRun.{place_on};

use crate::address_map::AddressMap;
use crate::internal_rva::PdbInternalRva;
use crate::internal_section_offset::PdbInternalSectionOffset;
use crate::ranges::record_run;
use crate::rva::Rva;

impl<'s> AddressMap<'s> {
    /// The internal place of an address, if it has one, and the number of addresses from there on
    /// and before `end` over which places follow one another, or are missing. Such addresses go by
    /// one record of the OMAP, and become internal addresses between which no section starts or
    /// ends, or all become nothing. An address that becomes 0xffffffff is alone.
    pub fn place_run(&self, address: Rva, end: Rva) -> (Option<PdbInternalSectionOffset>, u32)
        requires ordered { IsOrdered self.now }
        requires some { address.0 < end.0 }
        ensures place { result.0 ≡ option_map in_internal_space (inner_place self.now address.0) }
        ensures some { 1 ≤ result.1 }
        ensures within { address.0 + result.1 ≤ end.0 }
        ensures fits { IfSome result.0 (λ place. place.offset + result.1 ≤ 2 ^ 32) }
        ensures along { (k : ℕ) → k < result.1 → inner_place self.now (address.0 + k)
            ≡ place_on k (inner_place self.now address.0) }
        ensures alone { 1 < result.1 → (k : ℕ) → k < result.1
            → inner self.now (address.0 + k) ≢ Some (2 ^ 32 - 1) }
        ensures ends { address.0 + result.1 < end.0
            → breaks self.now (address.0 + result.1) ≡ true }
    {
        match record_run(self.to_internal(), address.0, end.0) {
            (None, count) => (None, count),
            (Some(internal), count) => {
                let below_last = (u32::MAX - internal).max(1);
                self.section_run(PdbInternalRva(internal), count.min(below_last))
            }
        }
    }
}
