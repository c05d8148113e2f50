//! The addresses of an image at which code may run.

ghost use Rattle.std.specs.Prelude.{◌≡◌, ◌+◌, ◌-◌, ◌^◌, ℕ, Bool, IfOk, min};
ghost use Rattle.std.specs.List.Sorted.{IsNonDecreasingBy};
ghost use Rattle.pdb_owners.specs.Counts.{is_section_bound};
ghost use Rattle.pdb_symbol_files.specs.Code.{AreAscending, BeginAt, HoldsCode, LieBetween, start_of};
ghost use Rattle.pdb_symbol_files.specs.Code.{in_ranges, is_in, is_within};

use pdb_addresses::ImageSectionHeader;
use std::alloc::{AllocError, Global};

/// A range of addresses; the address at its end isn't part of it.
#[derive(Clone, Copy, PartialEq, Eq)]
pub struct AddressRange {
    /// The first address.
    pub start: u32,
    /// The address after the last one.
    pub end: u32,
}

/// The addresses of a section, below the last one of 32 bits.
fn range_of(section: &ImageSectionHeader) -> AddressRange
    ensures within { (address : ℕ) → is_within address result ≡ is_in section.now address }
    ensures start { result.start ≡ section.now.virtual_address }
    ensures end { result.end
        ≡ min (section.now.virtual_address + section.now.virtual_size) (2 ^ 32 - 1) }
{
    AddressRange {
        start: section.virtual_address,
        end: section.virtual_address.saturating_add(section.virtual_size),
    }
}

/// The ranges of the sections in which code may run.
fn executable_ranges(
    alloc: Global,
    sections: &[ImageSectionHeader],
) -> Result<Vec<AddressRange>, AllocError>
    ensures code { IfOk result (λ ranges. HoldsCode ranges.items sections.now) }
    ensures bounds { IfOk result
        (λ ranges. LieBetween (is_section_bound sections.now) ranges.items) }
{
    let mut ranges = Vec::new(alloc);
    for section in sections {
        if section.characteristics.execute() {
            ranges.push(range_of(section))?;
        }
    }
    Ok(ranges)
}

/// Ranges in the order of their first addresses.
fn in_order(ranges: Vec<AddressRange>) -> Vec<AddressRange>
    ensures order { IsNonDecreasingBy start_of result.items }
    ensures same { (address : ℕ) → in_ranges result.items address
        ≡ in_ranges ranges.items address }
    ensures bounds { (test : ℕ → Bool) → LieBetween test ranges.items
        → LieBetween test result.items }
{
    let mut ranges = ranges;
    ranges.sort_unstable_by_key(|range: &AddressRange| range.start);
    ranges
}

/// The addresses of ranges that are in order, in ascending order: ranges that have none in common.
fn disjoint(alloc: Global, ranges: &[AddressRange]) -> Result<Vec<AddressRange>, AllocError>
    requires { IsNonDecreasingBy start_of ranges.now }
    ensures ascending { IfOk result (λ made. AreAscending 0 made.items) }
    ensures same { IfOk result (λ made. (address : ℕ) → in_ranges made.items address
        ≡ in_ranges ranges.now address) }
    ensures bounds { IfOk result (λ made. (test : ℕ → Bool) → LieBetween test ranges.now
        → BeginAt test made.items) }
{
    let mut made = Vec::new(alloc);
    let mut done = 0;
    for range in ranges {
        let start = range.start.max(done);
        if start < range.end {
            made.push(AddressRange {
                start,
                end: range.end,
            })?;
            done = range.end;
        }
    }
    Ok(made)
}

/// The addresses at which code may run, in ascending order: ranges that have none in common. They
/// are the addresses of the sections in which code may run, below 0xffffffff. A range begins where
/// a section begins or ends.
///
/// # Errors
/// `AllocError` when memory runs out.
pub fn code_ranges(
    alloc: Global,
    sections: &[ImageSectionHeader],
) -> Result<Vec<AddressRange>, AllocError>
    ensures ascending { IfOk result (λ ranges. AreAscending 0 ranges.items) }
    ensures code { IfOk result (λ ranges. HoldsCode ranges.items sections.now) }
    ensures bounds { IfOk result
        (λ ranges. BeginAt (is_section_bound sections.now) ranges.items) }
{
    let ranges = in_order(executable_ranges(alloc, sections)?);
    disjoint(alloc, ranges.as_slice())
}

/// The number of addresses that ranges have.
pub fn size_of_all(ranges: &[AddressRange]) -> u64 {
    let mut size: u64 = 0;
    for range in ranges {
        size = size.saturating_add(u64::from(range.end.saturating_sub(range.start)));
    }
    size
}
