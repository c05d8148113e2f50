//! Offsets at which answers may change, of all sections in one row, and the distance to the next of
//! them.

ghost use Rattle.std.specs.Prelude.{◌≡◌, ◌++◌, OnOk, IfOk};
ghost use Rattle.std.specs.List.{flat_map};
ghost use Rattle.pdb_addresses.specs.SectionOrder.{AreInOrder};
ghost use Rattle.pdb_addresses.specs.SectionRun.{up_to_next};
ghost use Rattle.pdb_contributions.specs.BoundNumbers.{bound_number as number_of_bound};
ghost use Rattle.pdb_contributions.specs.BoundNumbers.{numbers_of, contribution_numbers};
ghost use Rattle.pdb_contributions.specs.BoundNumbers.{AreContributionBounds};

use crate::contribution::ModuleSectionContribution;
use pdb_addresses::PdbInternalSectionOffset;
use pdb_pieces::to_next;
use std::alloc::{AllocError, Global};
use std::marker::Model;

/// The count of numbers for each section: so many that no distance from a 32-bit offset to a bound
/// of another section fits in 32 bits.
const SECTION_NUMBERS: u64 = 1 << 34;

/// The number of an offset in a section.
fn bound_number(section: u16, offset: u64) -> u64
    ensures { result ≡ number_of_bound section offset }
{
    u64::from(section) * SECTION_NUMBERS + offset.min(SECTION_NUMBERS - 1)
}

/// Appends the numbers of a start and an end in a section.
///
/// # Errors
/// `AllocError` when memory runs out.
pub fn push_bounds(
    numbers: &mut Vec<u64>,
    section: u16,
    start: u64,
    end: u64,
) -> Result<(), AllocError>
    ensures { OnOk result (numbers.new.items ≡ numbers.old.items ++ numbers_of section start end) }
{
    numbers.push(bound_number(section, start))?;
    numbers.push(bound_number(section, end))?;
    Ok(())
}

/// Bounds by their numbers, in ascending order.
#[derive(Drop)]
pub struct SortedBounds {
    numbers: Vec<u64>,
}

impl Model for SortedBounds {
    ghost use Rattle.std.specs.Prelude.{List, ℕ};
    ghost use Rattle.std.specs.List.Sorted.{IsNonDecreasing};

    ghost Value = { List ℕ };

    ghost view = { λ s. s.numbers.items };

    ghost invariant = { λ s. IsNonDecreasing s.numbers.items };
}

impl SortedBounds {
    /// Sorts the numbers of bounds.
    pub fn new(mut numbers: Vec<u64>) -> SortedBounds
        ensures { AreInOrder numbers.items result }
    {
        numbers.sort_unstable();
        SortedBounds { numbers }
    }

    /// The lesser of `far` and the distance from a place to the next bound past it. It halves.
    pub fn up_to_next(&self, place: PdbInternalSectionOffset, far: u32) -> u32
        ensures { result ≡ up_to_next self.now (number_of_bound place.section place.offset) far }
    {
        let number = bound_number(place.section, u64::from(place.offset));
        to_next(self.numbers.as_slice(), number, far)
    }
}

/// The numbers of contributions' starts and ends.
#[tactic(auto, using(crate::proofs::BoundSteps::numbers_done))]
fn contribution_numbers_of(
    alloc: Global,
    contributions: &[ModuleSectionContribution],
) -> Result<Vec<u64>, AllocError>
    ensures { IfOk result (λ v. v.items ≡ flat_map contribution_numbers contributions.now) }
{
    let mut numbers = Vec::with_capacity(alloc, contributions.len().saturating_mul(2))?;
    for contribution in contributions {
        let start = u64::from(contribution.start_offset);
        let end = u64::from(contribution.end_offset);
        push_bounds(&mut numbers, contribution.section_index, start, end)?;
    }
    Ok(numbers)
}

/// The starts and ends of contributions.
pub(crate) fn contribution_bounds(
    alloc: Global,
    contributions: &[ModuleSectionContribution],
) -> Result<SortedBounds, AllocError>
    ensures { IfOk result (λ s. AreContributionBounds contributions.now s) }
{
    let numbers = contribution_numbers_of(alloc, contributions)?;
    Ok(SortedBounds::new(numbers))
}
