//! Section offsets: places in the sections of an image.

ghost use Rattle.std.specs.Prelude.{◌≡◌, ◌+◌, ◌-◌, ◌%◌, ◌^◌, min, option_map};
ghost use Rattle.pdb_addresses.specs.Addresses.{IsOrdered, inner_of_place, place_inside};
ghost use Rattle.pdb_addresses.specs.Numbers.{in_32_bits, image_address, internal_address};
ghost use Rattle.pdb_addresses.specs.Places.{compared, internal_place, image_place_at};
ghost use Rattle.pdb_addresses.specs.Sections.{address as address_of};

use crate::address_map::AddressMap;
use crate::internal_rva::PdbInternalRva;
use crate::internal_section_offset::PdbInternalSectionOffset;
use crate::rva::Rva;
use std::cmp::Ordering;

/// A section offset: a place in the image as it was loaded, as a section's number, counted from 1,
/// and an offset in it in bytes.
#[derive(Clone, Copy, Debug, Default, PartialEq, Eq, Hash)]
pub struct SectionOffset {
    /// The offset in bytes from the section's start.
    pub offset: u32,
    /// The section's number, counted from 1.
    pub section: u16,
}

/// Places in one section compare by their offsets; places in two sections don't compare.
impl PartialOrd for SectionOffset {
    ghost use Rattle.std.specs.Prelude.{refl};
    ghost use Rattle.pdb_addresses.specs.ComparedLaws.{compared_laws};

    ghost partial_cmp = { λ a b. compared a.section a.offset b.section b.offset };

    ghost laws = { compared_laws (λ p. p.section) (λ p. p.offset) (λ x y. refl) };

    fn partial_cmp(&self, other: &SectionOffset) -> Option<Ordering> {
        if self.section == other.section {
            Some(self.offset.cmp(&other.offset))
        } else {
            None
        }
    }
}

impl SectionOffset {
    /// Its address in the image; `None` past 32 bits, and for a section that isn't there.
    pub fn to_rva(self, map: &AddressMap<'_>) -> Option<Rva>
        ensures { result ≡ option_map image_address
            (address_of map.now.image self.section self.offset) }
    {
        map.image_sections()
            .address(self.section, self.offset)
            .map(Rva)
    }

    /// The internal address of its address; `None` where there is no such address, or the map sends
    /// it nowhere.
    pub fn to_internal_rva(self, map: &AddressMap<'_>) -> Option<PdbInternalRva>
        requires { IsOrdered map.now }
        ensures { result ≡ option_map internal_address
            (inner_of_place map.now self.section self.offset) }
    {
        self.to_rva(map)?.to_internal_rva(map)
    }

    /// The internal place of its address; `None` where there is no such address, the map sends it
    /// nowhere, or no section holds what it becomes.
    pub fn to_internal_offset(self, map: &AddressMap<'_>) -> Option<PdbInternalSectionOffset>
        requires { IsOrdered map.now }
        ensures { result ≡ option_map internal_place
            (place_inside map.now self.section self.offset) }
    {
        self.to_rva(map)?.to_internal_offset(map)
    }

    /// The place that many bytes further in the same section; `None` past 32 bits.
    pub fn checked_add(self, offset: u32) -> Option<SectionOffset>
        ensures { result ≡ option_map (image_place_at self) (in_32_bits (self.offset + offset)) }
    {
        let offset = self.offset.checked_add(offset)?;
        Some(SectionOffset { offset, ..self })
    }

    /// The place that many bytes further in the same section, at most 0xffffffff.
    pub fn saturating_add(self, offset: u32) -> SectionOffset
        ensures { result ≡ image_place_at self (min (self.offset + offset) (2 ^ 32 - 1)) }
    {
        SectionOffset {
            offset: self.offset.saturating_add(offset),
            ..self
        }
    }

    /// The place that many bytes further in the same section, which continues from 0 past
    /// 0xffffffff.
    pub fn wrapping_add(self, offset: u32) -> SectionOffset
        ensures { result ≡ image_place_at self ((self.offset + offset) % 2 ^ 32) }
    {
        SectionOffset {
            offset: self.offset.wrapping_add(offset),
            ..self
        }
    }
}
