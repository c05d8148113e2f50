//! The distance along a section over which answers stay the same.

ghost use Rattle.std.specs.Prelude.{◌≡◌, [], option_copied};
ghost use Rattle.pdb_addresses.specs.SectionRun.{up_to_next};
ghost use Rattle.pdb_frames.specs.NearBounds.{bounds_near, contributions_near, publics_near};
ghost use Rattle.pdb_frames.specs.NearBounds.{up_to_bound, up_to_procedure, up_to_shared};

use crate::parts::ContextParts;
use pdb_addresses::PdbInternalSectionOffset;
use pdb_contributions::PublicList;
use pdb_known_modules::BasicModuleInfo;
use pdb_pieces::to_next;
use pdb_resolving::ModuleTables;

/// Returns the lesser of `far` and the distance from a place to the next start or end of a
/// contribution.
fn to_next_contribution(
    parts: &ContextParts<'_, '_>,
    place: PdbInternalSectionOffset,
    far: u32,
) -> u32
    ensures { result ≡ up_to_next (contributions_near parts.now place) place.offset far }
{
    parts.contributions.to_next_bound(place, far)
}

/// Returns the lesser of `far` and the distance from a place to the next start or end of a module's
/// procedure. A module without data has none.
fn to_next_procedure<I: ModuleTables>(
    known: Option<&BasicModuleInfo<'_, I>>,
    place: PdbInternalSectionOffset,
    far: u32,
) -> u32
    ensures { result ≡ up_to_procedure (option_copied known.entry) place far }
{
    match known {
        None => far,
        Some(known) => known.to_next_procedure(place, far),
    }
}

/// Returns the lesser of `far` and the distance from a place to the next public entry.
#[tactic(auto, using(crate::proofs::NextPublic::next_is_near, crate::proofs::NextPublic::none_is_near))]
fn to_next_public(publics: &PublicList<'_>, place: PdbInternalSectionOffset, far: u32) -> u32
    ensures { result ≡ up_to_next (publics_near publics.now place) place.offset far }
{
    match publics.next_behind(place) {
        None => far,
        Some(public) => {
            let next = [public.start_offset.offset];
            to_next(&next, u64::from(place.offset), far)
        }
    }
}

/// Returns the lesser of `far` and the distance from a place to the next public entry, or start or
/// end of a contribution.
fn to_next_of_all_modules(
    parts: &ContextParts<'_, '_>,
    place: PdbInternalSectionOffset,
    far: u32,
) -> u32
    ensures { result ≡ up_to_shared parts.now place far }
{
    let near = to_next_public(&parts.publics, place, far);
    to_next_contribution(parts, place, near)
}

/// Returns the lesser of `limit` and the distance from a place that no module holds to the next
/// place at which an answer may change.
#[tactic(auto, using(pdb_contributions::proofs::NextBounds::next_of_two))]
pub fn to_next_shared_bound(
    parts: &ContextParts<'_, '_>,
    place: PdbInternalSectionOffset,
    limit: u32,
) -> u32
    ensures { result ≡ up_to_next (bounds_near parts.now [] place) place.offset limit }
{
    to_next_of_all_modules(parts, place, limit)
}

/// Returns the lesser of `limit` and the distance from a place to the next place at which an answer
/// may change, from the data of the module that holds it.
#[tactic(auto, using(pdb_contributions::proofs::NextBounds::next_of_all))]
pub fn to_next_bound<I: ModuleTables>(
    parts: &ContextParts<'_, '_>,
    known: Option<&BasicModuleInfo<'_, I>>,
    place: PdbInternalSectionOffset,
    limit: u32,
) -> u32
    ensures { result ≡ up_to_bound parts.now (option_copied known.entry) place limit }
{
    let near = to_next_procedure(known, place, limit);
    to_next_of_all_modules(parts, place, near)
}
