//! Lists of sections: the places of addresses in them, and the addresses of places.

ghost use Rattle.std.specs.Prelude.{◌≡◌, ◌+◌, ◌<◌, ◌≤◌, ◌^◌, length, option_map, IfOk};
ghost use Rattle.std.specs.List.{AllWithin};
ghost use Rattle.std.specs.List.Sorted.{IsNonDecreasing};
ghost use Rattle.pdb_addresses.specs.SectionOrder.{end_of as end_of_section};
ghost use Rattle.pdb_addresses.specs.SectionOrder.{greatest_ends as greatest_ends_from, AreInOrder};
ghost use Rattle.pdb_addresses.specs.Places.{image_place, as_internal};
ghost use Rattle.pdb_addresses.specs.SectionRun.{bounds, nearer as nearer_of, up_to_next};
ghost use Rattle.pdb_addresses.specs.Sections.{place_in, place as place_of, address as address_of};

use crate::internal_section_offset::PdbInternalSectionOffset;
use crate::section_offset::SectionOffset;
use crate::sections::ImageSectionHeader;
use std::alloc::{AllocError, Global};
use std::marker::Model;

/// The sections of a space, in any order. Two lists are stored beside them, so that binary search
/// finds what concerns an address: the greatest end of the sections up to each one, and the starts
/// and ends of sections, in ascending order.
#[derive(Debug, Drop)]
pub(crate) struct SectionList {
    headers: Vec<ImageSectionHeader>,
    ends: Vec<u64>,
    bounds: Vec<u64>,
}

impl Model for SectionList {
    ghost use Rattle.std.specs.Prelude.{List};
    ghost use Rattle.pdb_addresses.specs.SectionOrder.{AreKept};
    ghost use Rattle.pdb_addresses.specs.declared.sections.ImageSectionHeader.{
      ImageSectionHeader as Header,
    };

    ghost Value = { List Header };

    ghost view = { λ s. s.headers.items };

    ghost invariant = { λ s. AreKept s.headers.items s.ends.items s.bounds.items };
}

impl SectionList {
    pub(crate) fn new(
        alloc: Global,
        headers: Vec<ImageSectionHeader>,
    ) -> Result<SectionList, AllocError>
        ensures { IfOk result (λ s. s ≡ headers.items) }
    {
        let ends = greatest_ends(alloc, &headers)?;
        let bounds = bounds_in_order(alloc, &headers)?;
        Ok(SectionList {
            headers,
            ends,
            bounds,
        })
    }

    /// The headers.
    pub(crate) fn as_slice(&self) -> &[ImageSectionHeader]
        ensures { result.now ≡ self.now }
    {
        self.headers.as_slice()
    }

    /// The place of an address: that of the first section that holds it, all before it and itself
    /// beginning at or below it. `None` without such a section, and past section 65535.
    pub(crate) fn place(&self, address: u32) -> Option<SectionOffset>
        ensures { result ≡ option_map image_place (place_of self.now address) }
    {
        place_among(&self.headers, &self.ends, address)
    }

    /// The place of an address, and the lesser of `limit` and the distance to the next start or end
    /// of a section past it.
    #[tactic(auto, using(crate::proofs::RunSteps::next_in_order))]
    pub(crate) fn run(&self, address: u32, limit: u32) -> (Option<SectionOffset>, u32)
        ensures place { result.0 ≡ option_map image_place (place_of self.now address) }
        ensures count { result.1 ≡ up_to_next (bounds self.now) address limit }
    {
        (
            place_among(&self.headers, &self.ends, address),
            run_length(&self.bounds, address, limit),
        )
    }

    /// The address of an offset in the section with that index. `None` past 32 bits, and for a
    /// section that isn't there.
    pub(crate) fn address(&self, section: u16, offset: u32) -> Option<u32>
        ensures { result ≡ address_of self.now section offset }
    {
        address(&self.headers, section, offset)
    }
}

/// A place among the internal sections as an internal one.
pub(crate) fn internal(place: Option<SectionOffset>) -> Option<PdbInternalSectionOffset>
    ensures { result ≡ option_map as_internal place }
{
    match place {
        None => None,
        Some(SectionOffset { offset, section }) => Some(PdbInternalSectionOffset {
            offset,
            section,
        }),
    }
}

/// The end of a section, which can lie past 32 bits.
fn end_of(section: &ImageSectionHeader) -> u64
    ensures { result ≡ end_of_section section.now }
{
    u64::from(section.virtual_address) + u64::from(section.virtual_size)
}

/// The greatest end of the sections up to each one.
#[tactic(auto, using(crate::proofs::OrderSteps::ends_start, crate::proofs::OrderSteps::ends_more, crate::proofs::OrderSteps::ends_done))]
fn greatest_ends(alloc: Global, sections: &[ImageSectionHeader]) -> Result<Vec<u64>, AllocError>
    ensures { IfOk result (λ v. v.items ≡ greatest_ends_from 0 sections.now) }
{
    let mut ends = Vec::new(alloc);
    let mut greatest = 0;
    for section in sections {
        greatest = greatest.max(end_of(section));
        ends.push(greatest)?;
    }
    Ok(ends)
}

/// The starts and ends of sections, in ascending order.
#[tactic(auto, using(crate::proofs::RunSteps::bounds_more))]
fn bounds_in_order(alloc: Global, sections: &[ImageSectionHeader]) -> Result<Vec<u64>, AllocError>
    ensures { IfOk result (λ v. AreInOrder (bounds sections.now) v.items) }
{
    let mut bounds = Vec::new(alloc);
    for section in sections {
        bounds.push(u64::from(section.virtual_address))?;
        bounds.push(end_of(section))?;
    }
    bounds.sort_unstable();
    Ok(bounds)
}

/// The count of the numbers, which don't fall, at or below an address. It is a binary search.
fn passed(numbers: &[u64], address: u32) -> usize
    requires { IsNonDecreasing numbers.now }
    ensures bound { result ≤ length numbers.now }
    ensures low { AllWithin (λ n. n ≤ address) numbers.now 0 result }
    ensures high { AllWithin (λ n. address < n) numbers.now result (length numbers.now) }
{
    numbers.partition_point(|number| *number <= u64::from(address))
}

/// The place of an address. No section before the first one whose greatest end lies past the
/// address holds it, and that greatest end is the section's own: the section holds the address
/// exactly if it begins at or below it.
fn place_among(sections: &[ImageSectionHeader], ends: &[u64], address: u32) -> Option<SectionOffset>
    requires { ends.now ≡ greatest_ends_from 0 sections.now }
    ensures { result ≡ option_map image_place (place_of sections.now address) }
{
    let index = passed(ends, address);
    let Some(section) = sections.get(index) else {
        return None;
    };
    match address.checked_sub(section.virtual_address) {
        None => None,
        Some(offset) => numbered(index, offset),
    }
}

/// The place at an offset of the section with that index, counted from 0; `None` past section
/// 65535.
fn numbered(index: usize, offset: u32) -> Option<SectionOffset>
    ensures { result ≡ option_map image_place (place_in (index + 1) offset) }
{
    if index >= 65535 {
        return None;
    }
    let section = index as u16 + 1;
    Some(SectionOffset { offset, section })
}

/// The lesser of `limit` and the distance to the first of some bounds, which don't fall, past an
/// address.
#[tactic(auto, using(crate::proofs::RunSteps::none_past, crate::proofs::RunSteps::first_past))]
fn run_length(bounds: &[u64], address: u32, limit: u32) -> u32
    requires { IsNonDecreasing bounds.now }
    ensures { result ≡ up_to_next bounds.now address limit }
{
    match bounds.get(passed(bounds, address)) {
        None => limit,
        Some(bound) => nearer(address, *bound, limit),
    }
}

/// The lesser of `far` and the distance to a bound, if that lies past an address.
fn nearer(address: u32, bound: u64, far: u32) -> u32
    ensures { result ≡ nearer_of address bound far }
{
    let distance = bound.saturating_sub(u64::from(address));
    if 0 < distance && distance < u64::from(far) {
        distance as u32
    } else {
        far
    }
}

/// The address of an offset in the section with that index. `None` past 32 bits, and for a section
/// that isn't there.
fn address(sections: &[ImageSectionHeader], section: u16, offset: u32) -> Option<u32>
    ensures { result ≡ address_of sections.now section offset }
{
    if section == 0 {
        return None;
    }
    match sections.get(usize::from(section) - 1) {
        None => None,
        Some(section) => section.virtual_address.checked_add(offset),
    }
}
