//! The contributions of modules: section contributions that count, merged, in order, and apart.

ghost use Rattle.std.specs.Prelude.{◌≢◌, IfErr, MatchResult};
ghost use Rattle.pdb_resolving.specs.Fault.{Answers};
ghost use Rattle.pdb_resolving.specs.declared.error.Error.TheVariants as errors;
ghost use Rattle.pdb_contributions.specs.MergedContributions.{MergesInto, FailsToMerge, merged_by};
ghost use Rattle.pdb_contributions.specs.MergedContributions.{held_of, apart};

use crate::contribution::{
    ModuleSectionContribution, is_kept, is_of_same, overlaps, span_of, up_to,
};
use pdb_addresses::{ImageSectionHeader, PdbInternalSectionOffset};
use pdb_container::FallibleIterator;
use pdb_resolving::{Error, Result};
use pdb_symbols_modules::{DBISectionContributionIter, DebugInformation};
use std::alloc::{AllocError, Global};
use std::marker::Model;

/// The contributions of modules, and the starts of the entries that count, but for the first.
#[derive(Debug, Drop)]
pub struct SectionContributions {
    /// The contributions of modules, by section and start; no two overlap.
    pub contributions: Vec<ModuleSectionContribution>,
    /// The starts of the entries that count, but for the first, in the order of their list.
    pub later_starts: Vec<PdbInternalSectionOffset>,
}

impl Model for SectionContributions {
    ghost use Rattle.pdb_contributions.specs.MergedContributions.{Held};

    ghost Value = { Held };

    ghost view = { λ h. record {
      contributions = h.contributions.items;
      later_starts = h.later_starts.items;
    } };
}

/// The contribution that is merged further before an entry's: the same one, which now ends where
/// the entry's does, if they are of one module and section; otherwise the entry's, and the one
/// before it is done.
fn merge_next(
    merged: &mut Vec<ModuleSectionContribution>,
    last: ModuleSectionContribution,
    next: ModuleSectionContribution,
) -> Result<ModuleSectionContribution>
    ensures { MatchResult result (MergesInto merged.old.items last next merged.new.items)
        (FailsToMerge last next) }
{
    if !is_of_same(last, next) {
        merged.push(last)?;
        return Ok(next);
    }
    if next.end_offset < last.end_offset {
        return Err(Error::UnorderedSectionContributions(
            usize::from(next.module_index),
            next.section_index,
        ));
    }
    Ok(up_to(last, next))
}

/// The contributions of entries, merged, in the order of their list.
#[tactic(auto, using(crate::proofs::MergeSteps::merging_start, crate::proofs::MergeSteps::merging_skipped, crate::proofs::MergeSteps::merging_first, crate::proofs::MergeSteps::merging_more, crate::proofs::MergeSteps::merging_not, crate::proofs::MergeSteps::merging_end, crate::proofs::MergeSteps::merging_fault))]
fn merge_entries(
    alloc: Global,
    sections: &[ImageSectionHeader],
    mut entries: DBISectionContributionIter<'_>,
) -> Result<SectionContributions>
    ensures { Answers (λ h. h) result (merged_by sections.now entries.entry) }
{
    let mut contributions = Vec::new(alloc);
    let mut later_starts = Vec::new(alloc);
    let mut current: Option<ModuleSectionContribution> = None;
    while let Some(entry) = entries.next()? {
        if is_kept(sections, entry) {
            let next = span_of(entry);
            current = match current {
                None => Some(next),
                Some(last) => {
                    later_starts.push(entry.offset)?;
                    Some(merge_next(&mut contributions, last, next)?)
                }
            };
        }
    }
    if let Some(last) = current {
        contributions.push(last)?;
    }
    Ok(SectionContributions {
        contributions,
        later_starts,
    })
}

/// Refuses the first contribution that begins before the end of the one before it in its section.
fn check_apart(contributions: &[ModuleSectionContribution]) -> Result<()>
    ensures apart { Answers (λ u. u) result (apart contributions.now) }
    ensures memory { IfErr result (λ e. e ≢ errors.OutOfMemory) }
{
    let mut before: Option<ModuleSectionContribution> = None;
    for next in contributions {
        if let Some(last) = before {
            if overlaps(last, *next) {
                return Err(Error::OverlappingSectionContributions(
                    next.section_index,
                    usize::from(last.module_index),
                    usize::from(next.module_index),
                ));
            }
        }
        before = Some(*next);
    }
    Ok(())
}

/// The section contributions of the DBI stream that count: entries that have a size and lie in a
/// section in which code may run (`IMAGE_SCN_MEM_EXECUTE`). Consecutive entries of one module and
/// section are one contribution, from the first one's start to the last one's end; an end past 32
/// bits is cut to 2^32 - 1.
///
/// # Errors
/// `UnimplementedFeature` for the list's version; entry by entry `UnexpectedEof`, or
/// `UnorderedSectionContributions` for one that ends before those with which it merges. Then
/// `OverlappingSectionContributions` for the first one, by section, start, end and module, that
/// begins before the end of the one before it in its section. `OutOfMemory`.
#[tactic(auto, using(crate::proofs::HeldSteps::held_unread, crate::proofs::HeldSteps::held_unmerged))]
pub fn compute_section_contributions(
    alloc: Global,
    debug_info: &DebugInformation<'_>,
    sections: &[ImageSectionHeader],
) -> Result<SectionContributions>
    ensures { Answers (λ h. h) result (held_of sections.now debug_info.now.contributions) }
{
    let entries = debug_info.section_contributions()?;
    let mut held = merge_entries(alloc, sections, entries)?;
    held.contributions.sort_unstable();
    check_apart(held.contributions.as_slice())?;
    Ok(held)
}
