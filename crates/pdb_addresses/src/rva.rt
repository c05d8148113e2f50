//! RVAs: addresses of an image.

ghost use Rattle.std.specs.Prelude.{◌≡◌, ◌+◌, ◌-◌, ◌%◌, ◌^◌, min, option_map};
ghost use Rattle.pdb_addresses.specs.Addresses.{IsOrdered, inner, inner_place};
ghost use Rattle.pdb_addresses.specs.Numbers.{in_32_bits, distance, distance_around, image_address};
ghost use Rattle.pdb_addresses.specs.Numbers.{internal_address};
ghost use Rattle.pdb_addresses.specs.Places.{image_place, internal_place as in_internal_space};
ghost use Rattle.pdb_addresses.specs.Sections.{place as place_of};

use crate::address_map::AddressMap;
use crate::internal_rva::PdbInternalRva;
use crate::internal_section_offset::PdbInternalSectionOffset;
use crate::section_offset::SectionOffset;

/// An RVA: an address in the image as it was loaded, in bytes from its start.
#[derive(Clone, Copy, Debug, Default, PartialEq, Eq, PartialOrd, Ord, Hash)]
pub struct Rva(pub u32);

impl Rva {
    /// Its internal address; `None` where the map sends it nowhere.
    pub fn to_internal_rva(self, map: &AddressMap<'_>) -> Option<PdbInternalRva>
        requires { IsOrdered map.now }
        ensures { result ≡ option_map internal_address (inner map.now self.0) }
    {
        map.inner(self.0).map(PdbInternalRva)
    }

    /// Its place among the image's sections; `None` where none holds it.
    pub fn to_section_offset(self, map: &AddressMap<'_>) -> Option<SectionOffset>
        ensures { result ≡ option_map image_place (place_of map.now.image self.0) }
    {
        map.image_sections().place(self.0)
    }

    /// The internal place of its internal address; `None` where there is no such address, or no
    /// section holds it.
    pub fn to_internal_offset(self, map: &AddressMap<'_>) -> Option<PdbInternalSectionOffset>
        requires { IsOrdered map.now }
        ensures { result ≡ option_map in_internal_space (inner_place map.now self.0) }
    {
        self.to_internal_rva(map)?.to_internal_offset(map)
    }

    /// The address that many bytes further; `None` past 32 bits.
    pub fn checked_add(self, offset: u32) -> Option<Rva>
        ensures { result ≡ option_map image_address (in_32_bits (self.0 + offset)) }
    {
        self.0.checked_add(offset).map(Rva)
    }

    /// The address that many bytes further, at most 0xffffffff.
    pub fn saturating_add(self, offset: u32) -> Rva
        ensures { result ≡ image_address (min (self.0 + offset) (2 ^ 32 - 1)) }
    {
        Rva(self.0.saturating_add(offset))
    }

    /// The address that many bytes further, which continues from 0 past 0xffffffff.
    pub fn wrapping_add(self, offset: u32) -> Rva
        ensures { result ≡ image_address ((self.0 + offset) % 2 ^ 32) }
    {
        Rva(self.0.wrapping_add(offset))
    }

    /// Its distance in bytes past another address; `None` where it lies below.
    pub fn checked_sub(self, other: Rva) -> Option<u32>
        ensures { result ≡ distance other.0 self.0 }
    {
        self.0.checked_sub(other.0)
    }

    /// Its distance in bytes past another address; 0 where it lies below.
    pub fn saturating_sub(self, other: Rva) -> u32
        ensures { result ≡ self.0 - other.0 }
    {
        self.0.saturating_sub(other.0)
    }

    /// Its distance in bytes past another address, going on from 0 past 0xffffffff.
    pub fn wrapping_sub(self, other: Rva) -> u32
        ensures { result ≡ distance_around other.0 self.0 }
    {
        self.0.wrapping_sub(other.0)
    }
}
