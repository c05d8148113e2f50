//! The contributions of modules, and binary searches for the contribution that holds a place and
//! for the next start or end of one.

ghost use Rattle.std.specs.Prelude.{◌≡◌, ◌↔◌, IfOk, Ok, None, true, slice_get};
ghost use Rattle.std.specs.List.{flat_map};
ghost use Rattle.pdb_addresses.specs.SectionRun.{nearer as nearer_of, up_to_next};
ghost use Rattle.pdb_contributions.specs.ContributionPieces.{
  contribution_span as span_of_contribution,
};
ghost use Rattle.pdb_contributions.specs.ContributionPieces.{
  contribution_spans as spans_of_contributions,
};
ghost use Rattle.pdb_contributions.specs.ContributionPieces.{IsShort, AreShort, StandFor};
ghost use Rattle.pdb_contributions.specs.ContributionPieces.{AreApart, AreSearchable, end_number};
ghost use Rattle.pdb_contributions.specs.MergedContributions.{holder as holder_of};
ghost use Rattle.pdb_contributions.specs.SectionBounds.{bounds_of_one};
ghost use Rattle.pdb_contributions.specs.SectionBounds.{
  contribution_bounds as bounds_of_contribution,
};

use crate::contribution::{ModuleSectionContribution, holds};
use crate::sorted_bounds::{SortedBounds, contribution_bounds};
use pdb_addresses::PdbInternalSectionOffset;
use pdb_pieces::{Begins, Mark, Pieces, Span, count_begun, place_number};
use std::alloc::{AllocError, Global};
use std::marker::Model;

/// The tables for searches among contributions that don't lie apart.
#[derive(Drop)]
struct SearchTables {
    /// Pieces of places with the number of the contribution that holds each.
    pieces: Pieces,
    /// The starts and ends of contributions.
    bounds: SortedBounds,
}

/// Contributions in their order, and tables for searches, unless the contributions lie apart in
/// ascending order: then the list itself is searched, and takes no more memory.
#[derive(Drop)]
pub struct HeldPlaces {
    contributions: Vec<ModuleSectionContribution>,
    tables: Option<SearchTables>,
}

impl Model for HeldPlaces {
    ghost use Rattle.std.specs.Prelude.{List};
    ghost use Rattle.pdb_contributions.specs.declared.contribution.ModuleSectionContribution.{
      ModuleSectionContribution,
    };
    ghost use Rattle.pdb_contributions.specs.ContributionPieces.{AreSearchable};

    ghost Value = { List ModuleSectionContribution };

    ghost view = { λ h. h.contributions.items };

    // The tables are those of the contributions; without tables these lie apart.
    ghost invariant = { λ h. AreSearchable h.contributions.items h.tables };
}

/// A contribution begins at the number of the place of its start.
impl Begins for ModuleSectionContribution {
    ghost use Rattle.pdb_contributions.specs.ContributionPieces.{start_number};

    ghost beginning = { λ c. start_number c };

    fn begins_at(&self) -> u64 {
        place_number(PdbInternalSectionOffset {
            offset: self.start_offset,
            section: self.section_index,
        })
    }
}

/// The number of the place at which a contribution ends.
fn end_of(contribution: ModuleSectionContribution) -> u64
    ensures number { result ≡ end_number contribution }
    ensures short { IsShort contribution }
{
    place_number(PdbInternalSectionOffset {
        offset: contribution.end_offset,
        section: contribution.section_index,
    })
}

/// Whether each contribution begins where the one before it ends, or after that, and none ends
/// before it begins.
fn are_apart(contributions: &[ModuleSectionContribution]) -> bool
    ensures apart { (result ≡ true) ↔ AreApart 0 contributions.now }
    ensures short { result ≡ true → AreShort contributions.now }
{
    let mut end = 0;
    for contribution in contributions {
        let start = contribution.begins_at();
        let next_end = end_of(*contribution);
        if start < end || next_end < start {
            return false;
        }
        end = next_end;
    }
    true
}

/// The span that a contribution of this number holds.
fn contribution_span(number: usize, contribution: ModuleSectionContribution) -> Span
    ensures span { result ≡ span_of_contribution number contribution }
    ensures short { IsShort contribution }
{
    Span {
        start: contribution.begins_at(),
        end: end_of(contribution),
        mark: Mark {
            rank: 0,
            value: number,
        },
    }
}

/// The spans that contributions hold.
fn contribution_spans(
    alloc: Global,
    contributions: &[ModuleSectionContribution],
) -> Result<Vec<Span>, AllocError>
    ensures spans { IfOk result (λ v. v.items ≡ spans_of_contributions 0 contributions.now) }
    ensures short { IfOk result (λ v. AreShort contributions.now) }
{
    let mut spans = Vec::new(alloc);
    for (number, contribution) in contributions.iter().enumerate() {
        spans.push(contribution_span(number, *contribution))?;
    }
    Ok(spans)
}

/// Pieces of places with the number of the contribution that holds each.
#[tactic(auto, using(crate::proofs::PieceSteps::stand_for))]
fn contribution_pieces(
    alloc: Global,
    contributions: &[ModuleSectionContribution],
) -> Result<Pieces, AllocError>
    ensures { IfOk result (λ pieces. StandFor pieces contributions.now) }
{
    let spans = contribution_spans(alloc, contributions)?;
    Pieces::new(alloc, spans.as_slice())
}

/// Tables for searches, unless the contributions lie apart in ascending order. Then no memory is
/// taken.
fn tables_unless_apart(
    alloc: Global,
    contributions: &[ModuleSectionContribution],
) -> Result<Option<SearchTables>, AllocError>
    ensures searchable { IfOk result (λ tables. AreSearchable contributions.now tables) }
    ensures apart { AreApart 0 contributions.now → result ≡ Ok None }
{
    if are_apart(contributions) {
        return Ok(None);
    }
    let pieces = contribution_pieces(alloc, contributions)?;
    let bounds = contribution_bounds(alloc, contributions)?;
    Ok(Some(SearchTables { pieces, bounds }))
}

/// The contribution with that number, if it is there.
fn numbered(
    contributions: &[ModuleSectionContribution],
    number: usize,
) -> Option<ModuleSectionContribution>
    ensures { result ≡ slice_get contributions.now number }
{
    contributions.get(number).copied()
}

/// The contribution that holds a place, of contributions that lie apart in ascending order: no
/// contribution but the last one that begins there or before can hold it.
fn holder_by_halving(
    contributions: &[ModuleSectionContribution],
    place: PdbInternalSectionOffset,
) -> Option<ModuleSectionContribution>
    requires { AreApart 0 contributions.now }
    ensures { result ≡ holder_of contributions.now place }
{
    let count = count_begun(contributions, place_number(place)).0;
    if count == 0 {
        return None;
    }
    let last = numbered(contributions, count - 1)?;
    if holds(place, last) { Some(last) } else { None }
}

/// The first contribution that holds a place, by pieces.
fn holder_by_pieces(
    contributions: &[ModuleSectionContribution],
    pieces: &Pieces,
    place: PdbInternalSectionOffset,
) -> Option<ModuleSectionContribution>
    requires { StandFor pieces.now contributions.now }
    ensures { result ≡ holder_of contributions.now place }
{
    let number = pieces.value_at(place)?;
    numbered(contributions, number)
}

/// The lesser of `far` and the distance from a place to a bound in its section, if that lies past
/// the place.
fn nearer(place: PdbInternalSectionOffset, bound: u32, far: u32) -> u32
    ensures { result ≡ nearer_of place.offset bound far }
{
    if place.offset < bound {
        far.min(bound - place.offset)
    } else {
        far
    }
}

/// The lesser of `far` and the distance from a place to the next start or end of one contribution,
/// if it is there.
fn to_bounds_of_one(
    contribution: Option<ModuleSectionContribution>,
    place: PdbInternalSectionOffset,
    far: u32,
) -> u32
    ensures { result ≡ up_to_next (bounds_of_one place contribution) place.offset far }
{
    match contribution {
        None => far,
        Some(it) => {
            if it.section_index == place.section {
                nearer(place, it.start_offset, nearer(place, it.end_offset, far))
            } else {
                far
            }
        }
    }
}

/// The lesser of `far` and the distance from a place to the next start or end, of contributions
/// that lie apart in ascending order: no contribution can have it but the last one that begins at
/// the place or before it, and the one after that.
fn next_bound_by_halving(
    contributions: &[ModuleSectionContribution],
    place: PdbInternalSectionOffset,
    far: u32,
) -> u32
    requires apart { AreApart 0 contributions.now }
    requires short { AreShort contributions.now }
    ensures { result ≡ up_to_next (flat_map (bounds_of_contribution place) contributions.now)
        place.offset far }
{
    let count = count_begun(contributions, place_number(place)).0;
    let near = to_bounds_of_one(numbered(contributions, count), place, far);
    if count == 0 {
        near
    } else {
        to_bounds_of_one(numbered(contributions, count - 1), place, near)
    }
}

impl HeldPlaces {
    /// Contributions, prepared for searches. Those that lie apart in ascending order are searched
    /// themselves, which takes no more memory.
    ///
    /// # Errors
    /// `AllocError` when memory runs out.
    pub fn new(
        alloc: Global,
        contributions: Vec<ModuleSectionContribution>,
    ) -> Result<HeldPlaces, AllocError>
        ensures { IfOk result (λ h. h ≡ contributions.items) }
    {
        let tables = tables_unless_apart(alloc, contributions.as_slice())?;
        Ok(HeldPlaces {
            contributions,
            tables,
        })
    }

    /// The contributions in their order.
    pub fn as_slice(&self) -> &[ModuleSectionContribution]
        ensures { result.now ≡ self.now }
    {
        self.contributions.as_slice()
    }

    /// The contribution that holds a place; of several contributions the first. It takes as many
    /// steps as the number of contributions, or of pieces where there are any, has binary digits.
    pub fn holder(&self, place: PdbInternalSectionOffset) -> Option<ModuleSectionContribution>
        ensures { result ≡ holder_of self.now place }
    {
        let contributions = self.contributions.as_slice();
        match &self.tables {
            None => holder_by_halving(contributions, place),
            Some(tables) => holder_by_pieces(contributions, &tables.pieces, place),
        }
    }

    /// The lesser of `far` and the distance, in bytes, from a place to the next start or end of a
    /// contribution in its section. It halves.
    #[tactic(auto, using(crate::proofs::BoundSteps::contributions_alike))]
    pub fn to_next_bound(&self, place: PdbInternalSectionOffset, far: u32) -> u32
        ensures { result ≡ up_to_next (flat_map (bounds_of_contribution place) self.now)
            place.offset far }
    {
        match &self.tables {
            None => next_bound_by_halving(self.contributions.as_slice(), place, far),
            Some(tables) => tables.bounds.up_to_next(place, far),
        }
    }
}
