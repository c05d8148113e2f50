//! The counts of ranges.

use crate::addr2line::one_function::OneFunction;
use pdb_addresses::{AddressMap, ImageSectionHeader, OMAPRecord};
use pdb_owners::{count_runs, sizes_text};
use std::alloc::{AllocError, Global};
use std::test::Fail;

/// Makes the records of a map.
fn records(alloc: Global, pairs: &[(u32, u32)]) -> Result<Vec<OMAPRecord>, AllocError> {
    let mut records = Vec::new(alloc);
    for (source_address, target_address) in pairs {
        records.push(OMAPRecord {
            source_address: *source_address,
            target_address: *target_address,
        })?;
    }
    Ok(records)
}

/// Makes one section of 0x100 bytes at 0x1000.
fn section(alloc: Global) -> Result<Vec<ImageSectionHeader>, AllocError> {
    let mut sections = Vec::new(alloc);
    sections.push(ImageSectionHeader {
        virtual_size: 0x100,
        virtual_address: 0x1000,
        ..ImageSectionHeader::default()
    })?;
    Ok(sections)
}

/// Makes the address map of the section, with OMAPs to it and back.
fn moved(alloc: Global) -> Result<AddressMap<'static>, AllocError> {
    let inward = records(alloc, &[(0x2000, 0x1010), (0x2008, 0)])?;
    let outward = records(alloc, &[(0x1010, 0x2000)])?;
    AddressMap::new(
        alloc,
        Some(section(alloc)?),
        section(alloc)?,
        Some(inward),
        Some(outward),
    )
}

/// Returns the report's text, and the number of places that were looked up.
fn sizes(
    alloc: Global,
    map: &AddressMap<'_>,
    start: u32,
    end: u32,
) -> Result<(String, u64), AllocError> {
    let mut runs = OneFunction {
        lookups: 0,
        answered: 0,
    };
    if !map.is_ordered() || end < start {
        return Ok((String::new(alloc), 0));
    }
    let sizes = count_runs(alloc, map, &mut runs, start, end)?;
    Ok((sizes_text(alloc, &sizes)?, runs.lookups))
}

/// Makes the address map of the section, without OMAPs.
fn plain(alloc: Global) -> Result<AddressMap<'static>, AllocError> {
    AddressMap::new(alloc, None, section(alloc)?, None, None)
}

#[test]
fn part_of_a_function(rt: HostRuntime) -> Result<(), Fail> {
    let (text, lookups) = sizes(rt.alloc(), &plain(rt.alloc())?, 0x1018, 0x1030)?;
    assert_eq!(rt; text.as_str(), "0x00001010 24 f\nnone 0\n");
    assert_eq!(rt; lookups, 1);
    Ok(())
}

#[test]
fn empty_range(rt: HostRuntime) -> Result<(), Fail> {
    let (text, lookups) = sizes(rt.alloc(), &plain(rt.alloc())?, 0x1018, 0x1018)?;
    assert_eq!(rt; text.as_str(), "none 0\n");
    assert_eq!(rt; lookups, 0);
    Ok(())
}

#[test]
fn section_with_a_function(rt: HostRuntime) -> Result<(), Fail> {
    let (text, lookups) = sizes(rt.alloc(), &plain(rt.alloc())?, 0x1000, 0x1100)?;
    assert_eq!(rt; text.as_str(), "0x00001010 32 f\nnone 224\n");
    assert_eq!(rt; lookups, 3);
    Ok(())
}

#[test]
fn all_addresses(rt: HostRuntime) -> Result<(), Fail> {
    let (text, lookups) = sizes(rt.alloc(), &plain(rt.alloc())?, 0, 0xffff_ffff)?;
    assert_eq!(rt; text.as_str(), "0x00001010 32 f\nnone 4294967263\n");
    assert_eq!(rt; lookups, 3);
    Ok(())
}

#[test]
fn map_with_a_hole(rt: HostRuntime) -> Result<(), Fail> {
    let (text, lookups) = sizes(rt.alloc(), &moved(rt.alloc())?, 0x2000, 0x2010)?;
    assert_eq!(rt; text.as_str(), "0x00001010 8 f\nnone 8\n");
    assert_eq!(rt; lookups, 1);
    Ok(())
}
