//! Internal RVAs: addresses of the space in which a database was written.

ghost use Rattle.std.specs.Prelude.{◌≡◌, ◌+◌, ◌-◌, ◌%◌, ◌^◌, min, option_map};
ghost use Rattle.pdb_addresses.specs.Addresses.{IsOrdered, outer, outer_place};
ghost use Rattle.pdb_addresses.specs.Numbers.{in_32_bits, distance, distance_around, image_address};
ghost use Rattle.pdb_addresses.specs.Numbers.{internal_address};
ghost use Rattle.pdb_addresses.specs.Places.{image_place, internal_place as in_internal_space};
ghost use Rattle.pdb_addresses.specs.Sections.{place as place_of};

use crate::address_map::AddressMap;
use crate::internal_section_offset::PdbInternalSectionOffset;
use crate::rva::Rva;
use crate::section_list::internal;
use crate::section_offset::SectionOffset;

/// An internal RVA: an address in the space in which the database was written, in bytes from the
/// image's start. It is that of the image where no tool has moved the image's code since.
#[derive(Clone, Copy, Debug, Default, PartialEq, Eq, PartialOrd, Ord, Hash)]
pub struct PdbInternalRva(pub u32);

impl PdbInternalRva {
    /// Its address in the image; `None` where the map sends it nowhere.
    pub fn to_rva(self, map: &AddressMap<'_>) -> Option<Rva>
        requires { IsOrdered map.now }
        ensures { result ≡ option_map image_address (outer map.now self.0) }
    {
        map.outer(self.0).map(Rva)
    }

    /// The image's place of its address in the image; `None` where there is no such address, or no
    /// section holds it.
    pub fn to_section_offset(self, map: &AddressMap<'_>) -> Option<SectionOffset>
        requires { IsOrdered map.now }
        ensures { result ≡ option_map image_place (outer_place map.now self.0) }
    {
        self.to_rva(map)?.to_section_offset(map)
    }

    /// Its place among the internal sections; `None` where none holds it.
    #[tactic(auto, using(crate::proofs::PlaceSteps::place_inside))]
    pub fn to_internal_offset(self, map: &AddressMap<'_>) -> Option<PdbInternalSectionOffset>
        ensures { result ≡ option_map in_internal_space (place_of map.now.internal self.0) }
    {
        internal(map.internal_sections().place(self.0))
    }

    /// The address that many bytes further; `None` past 32 bits.
    pub fn checked_add(self, offset: u32) -> Option<PdbInternalRva>
        ensures { result ≡ option_map internal_address (in_32_bits (self.0 + offset)) }
    {
        self.0.checked_add(offset).map(PdbInternalRva)
    }

    /// The address that many bytes further, at most 0xffffffff.
    pub fn saturating_add(self, offset: u32) -> PdbInternalRva
        ensures { result ≡ internal_address (min (self.0 + offset) (2 ^ 32 - 1)) }
    {
        PdbInternalRva(self.0.saturating_add(offset))
    }

    /// The address that many bytes further, which continues from 0 past 0xffffffff.
    pub fn wrapping_add(self, offset: u32) -> PdbInternalRva
        ensures { result ≡ internal_address ((self.0 + offset) % 2 ^ 32) }
    {
        PdbInternalRva(self.0.wrapping_add(offset))
    }

    /// Its distance in bytes past another address; `None` where it lies below.
    pub fn checked_sub(self, other: PdbInternalRva) -> Option<u32>
        ensures { result ≡ distance other.0 self.0 }
    {
        self.0.checked_sub(other.0)
    }

    /// Its distance in bytes past another address; 0 where it lies below.
    pub fn saturating_sub(self, other: PdbInternalRva) -> u32
        ensures { result ≡ self.0 - other.0 }
    {
        self.0.saturating_sub(other.0)
    }

    /// Its distance in bytes past another address, going on from 0 past 0xffffffff.
    pub fn wrapping_sub(self, other: PdbInternalRva) -> u32
        ensures { result ≡ distance_around other.0 self.0 }
    {
        self.0.wrapping_sub(other.0)
    }
}
