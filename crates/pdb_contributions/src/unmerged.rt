//! The contributions of modules where entries may stand in any order: each as it stands.

ghost use Rattle.std.specs.Prelude.{◌≡◌, ◌++◌, OnOk};
ghost use Rattle.pdb_resolving.specs.Fault.{Answers};
ghost use Rattle.pdb_contributions.specs.UnmergedContributions.{held_in_any_order, is_for_order};
ghost use Rattle.pdb_contributions.specs.UnmergedContributions.{unless_first, unmerged_by};
ghost use Rattle.pdb_contributions.specs.UnmergedContributions.{unmerged_of};

use crate::contribution::{ModuleSectionContribution, is_kept, span_of};
use crate::holding::{SectionContributions, compute_section_contributions};
use pdb_addresses::{ImageSectionHeader, PdbInternalSectionOffset};
use pdb_container::FallibleIterator;
use pdb_resolving::{Error, Result};
use pdb_symbols_modules::{DBISectionContributionIter, DebugInformation};
use std::alloc::{AllocError, Global};
use std::marker::Model;

/// Appends the start of an entry, unless it is the first.
fn push_later(
    later_starts: &mut Vec<PdbInternalSectionOffset>,
    front: &[ModuleSectionContribution],
    start: PdbInternalSectionOffset,
) -> std::result::Result<(), AllocError>
    ensures { OnOk result
        (later_starts.new.items ≡ later_starts.old.items ++ unless_first front.now start) }
{
    if !front.is_empty() {
        later_starts.push(start)?;
    }
    Ok(())
}

/// The contributions of entries, each as it stands, in the order of their list.
#[tactic(auto, using(crate::proofs::UnmergedSteps::listing_start, crate::proofs::UnmergedSteps::listing_skipped, crate::proofs::UnmergedSteps::listing_kept, crate::proofs::UnmergedSteps::listing_end, crate::proofs::UnmergedSteps::listing_fault))]
fn list_entries(
    alloc: Global,
    sections: &[ImageSectionHeader],
    mut entries: DBISectionContributionIter<'_>,
) -> Result<SectionContributions>
    ensures { Answers (λ h. h) result (unmerged_by sections.now entries.entry) }
{
    let mut contributions = Vec::new(alloc);
    let mut later_starts = Vec::new(alloc);
    while let Some(entry) = entries.next()? {
        if is_kept(sections, entry) {
            push_later(&mut later_starts, contributions.as_slice(), entry.offset)?;
            contributions.push(span_of(entry))?;
        }
    }
    Ok(SectionContributions {
        contributions,
        later_starts,
    })
}

/// The section contributions of the DBI stream that count, each as it stands.
#[tactic(auto, using(pdb_resolving::proofs::Lifting::parsed_fails_on))]
fn list_contributions(
    alloc: Global,
    debug_info: &DebugInformation<'_>,
    sections: &[ImageSectionHeader],
) -> Result<SectionContributions>
    ensures { Answers (λ h. h) result (unmerged_of sections.now debug_info.now.contributions) }
{
    let entries = debug_info.section_contributions()?;
    list_entries(alloc, sections, entries)
}

/// Whether merging was refused for the order of the entries.
fn is_refused_for_order(merged: &Result<SectionContributions>) -> bool
    ensures { result ≡ is_for_order merged.now }
{
    matches!(merged, Err(Error::UnorderedSectionContributions(_, _)))
}

/// The section contributions of the DBI stream that count, as [`compute_section_contributions`]
/// merges them. Where it refuses the order of their entries, each stands as it is, in the order of
/// the file, and the first one that holds a place is its holder; GNU ld before 2.44 writes such
/// lists.
///
/// # Errors
/// As [`compute_section_contributions`], but for `UnorderedSectionContributions`.
#[tactic(auto, using(crate::proofs::UnmergedSteps::by_order, crate::proofs::UnmergedSteps::by_merging), unfolding(crate::specs::UnmergedContributions::held_in_any_order))]
pub fn compute_section_contributions_in_any_order(
    alloc: Global,
    debug_info: &DebugInformation<'_>,
    sections: &[ImageSectionHeader],
) -> Result<SectionContributions>
    ensures { Answers (λ h. h) result
        (held_in_any_order sections.now debug_info.now.contributions) }
{
    let merged = compute_section_contributions(alloc, debug_info, sections);
    if is_refused_for_order(&merged) {
        return list_contributions(alloc, debug_info, sections);
    }
    merged
}
