//! Addresses and places from an address map.

ghost use Rattle.pdb_addresses.specs.Addresses.{IsOrdered};

use crate::reads::question::{Question, Task};
use crate::reads::shown::{push, shown};
use crate::reads::words::not_a_case;
use pdb_container::Result;
use pdb_container_types::{
    AddressMap, ImageSectionHeader, PdbInternalRva, PdbInternalSectionOffset, Rva, SectionOffset,
};
use std::alloc::Global;
use std::ops::Range;

/// Answers a question from an address map. A map that isn't ordered has one answer, which says so.
///
/// # Errors
/// `UnimplementedFeature` for an unknown case; `OutOfMemory`.
pub fn ask(alloc: Global, map: &AddressMap<'_>, question: &Question<'_>) -> Result<String> {
    if !map.is_ordered() {
        return shown(alloc, &"not ordered");
    }
    let (number, end, _) = question.numbers;
    let section = u16::try_from(number).unwrap_or(0xffff);
    match question.task {
        Task::ImageSections => shown(alloc, &map.image_section_headers()),
        Task::SectionNames => section_names(alloc, map.image_section_headers()),
        Task::ImageAddress => image_address(alloc, map, Rva(number)),
        Task::InternalAddress => internal_address(alloc, map, PdbInternalRva(number)),
        Task::ImagePlace => image_place(alloc, map, section, end),
        Task::InternalPlace => internal_place(alloc, map, section, end),
        Task::ImageRange => image_range(alloc, map, number..end),
        Task::InternalRange => internal_range(alloc, map, number..end),
        Task::Run => run(alloc, map, number, end),
        _ => Err(not_a_case()),
    }
}

/// Returns the names of sections, and whether code may run in them.
fn section_names(alloc: Global, sections: &[ImageSectionHeader]) -> Result<String> {
    let mut text = String::new(alloc);
    for section in sections {
        push(
            alloc,
            &mut text,
            &(section.name(), section.characteristics.execute()),
        )?;
    }
    Ok(text)
}

/// Converts an address of the image to an internal address, a place, and an internal place.
fn image_address(alloc: Global, map: &AddressMap<'_>, address: Rva) -> Result<String>
    requires { IsOrdered map.now }
{
    let inner = address.to_internal_rva(map);
    let place = address.to_section_offset(map);
    shown(alloc, &(inner, place, address.to_internal_offset(map)))
}

/// Converts an internal address to an address of the image, a place, and an internal place.
fn internal_address(alloc: Global, map: &AddressMap<'_>, address: PdbInternalRva) -> Result<String>
    requires { IsOrdered map.now }
{
    let outer = address.to_rva(map);
    let place = address.to_section_offset(map);
    shown(alloc, &(outer, place, address.to_internal_offset(map)))
}

/// Converts a place of the image to an address of the image, an internal address, and an internal
/// place.
fn image_place(alloc: Global, map: &AddressMap<'_>, section: u16, offset: u32) -> Result<String>
    requires { IsOrdered map.now }
{
    let place = SectionOffset { offset, section };
    let outer = place.to_rva(map);
    let inner = place.to_internal_rva(map);
    shown(alloc, &(outer, inner, place.to_internal_offset(map)))
}

/// Converts an internal place to an address of the image, an internal address, and a place.
fn internal_place(alloc: Global, map: &AddressMap<'_>, section: u16, offset: u32) -> Result<String>
    requires { IsOrdered map.now }
{
    let place = PdbInternalSectionOffset { offset, section };
    let outer = place.to_rva(map);
    let inner = place.to_internal_rva(map);
    shown(alloc, &(outer, inner, place.to_section_offset(map)))
}

/// Converts a range of the image, and lists its internal addresses.
fn image_range(alloc: Global, map: &AddressMap<'_>, range: Range<u32>) -> Result<String>
    requires { IsOrdered map.now }
{
    let mut text = String::new(alloc);
    for run in map.internal_rva_ranges(Rva(range.start)..Rva(range.end)) {
        push_addresses(alloc, &mut text, run.start.0..run.end.0)?;
    }
    Ok(text)
}

/// Converts an internal range, and lists its addresses of the image.
fn internal_range(alloc: Global, map: &AddressMap<'_>, range: Range<u32>) -> Result<String>
    requires { IsOrdered map.now }
{
    let mut text = String::new(alloc);
    for run in map.rva_ranges(PdbInternalRva(range.start)..PdbInternalRva(range.end)) {
        push_addresses(alloc, &mut text, run.start.0..run.end.0)?;
    }
    Ok(text)
}

/// Appends the addresses of a range.
fn push_addresses(alloc: Global, text: &mut String, range: Range<u32>) -> Result<()> {
    for address in range {
        push(alloc, text, &address)?;
    }
    Ok(())
}

/// Returns the place of an internal address, and the number of addresses over which places go on.
fn run(alloc: Global, map: &AddressMap<'_>, address: u32, limit: u32) -> Result<String> {
    if limit == 0 || u64::from(address) + u64::from(limit) > 0x1_0000_0000 {
        return Err(not_a_case());
    }
    shown(alloc, &map.section_run(PdbInternalRva(address), limit))
}
