//! The public list in order, and searches in it.

ghost use Rattle.std.specs.Prelude.{◌≡◌, IfOk, OnOk, is_some, length, slice_get};
ghost use Rattle.std.specs.Prelude.{true, false, ℕ, ◌<◌, ◌≤◌, Some, option_and_then};
ghost use Rattle.pdb_contributions.specs.Publics.{public_list, publics_among, placeholders};
ghost use Rattle.pdb_contributions.specs.Publics.{missing, public_exactly, public_over, next_public};
ghost use Rattle.pdb_contributions.specs.Publics.{is_at as at_place, is_before as comes_before};
ghost use Rattle.pdb_contributions.specs.Publics.{last_at_or_before as last_before, joined};
ghost use Rattle.pdb_contributions.specs.Publics.{last_of as last_of_list, Rises, IsSplit};
ghost use Rattle.pdb_contributions.specs.Publics.{if_at as only_at, in_section as only_in_section};
ghost use Rattle.pdb_contributions.specs.Publics.{first_of_two, last_of_two};

use crate::public_entries::{PublicFunction, push_section_ends};
use pdb_addresses::{ImageSectionHeader, PdbInternalSectionOffset};
use std::alloc::AllocError;
use std::marker::Model;

/// The public list: public symbols, and placeholders at the starts of contributions and the ends of
/// sections, by their places, one entry a place.
#[derive(Debug, Drop)]
pub struct PublicList<'s> {
    /// Public symbols and ends of sections, by their places, one entry a place.
    functions: Vec<PublicFunction<'s>>,
    /// The other starts of contributions in order, each once: no entry of `functions` begins there.
    /// So a placeholder takes 8 bytes, and not 24.
    starts: Vec<PdbInternalSectionOffset>,
}

impl<'s> Model for PublicList<'s> {
    ghost use Rattle.std.specs.Prelude.{List};
    ghost use Rattle.pdb_contributions.specs.Publics as publics;
    ghost use Rattle.pdb_contributions.specs.Publics.{StandApart, joined};

    ghost Value = { List publics.PublicFunction };

    ghost view = { λ l. joined l.functions.items l.starts.items };

    // Places ascend in both, and no place is in both.
    ghost invariant = { λ l. StandApart l.functions.items l.starts.items };
}

/// Brings entries into the order of their places, one a place: a named entry before a placeholder,
/// and then the first.
fn sort_and_dedup(functions: &mut Vec<PublicFunction<'_>>) -> Result<(), AllocError>
    ensures { OnOk result (functions.new.items ≡ publics_among functions.old.items) }
{
    functions.sort_by_key(|f: &PublicFunction<'_>| {
        (
            f.start_offset.section,
            f.start_offset.offset,
            f.name.is_none(),
        )
    })?;
    functions.dedup_by_key(|f: &mut PublicFunction<'_>| f.start_offset);
    Ok(())
}

/// Brings places into order, each once.
fn sort_and_dedup_starts(starts: &mut Vec<PdbInternalSectionOffset>)
    ensures { placeholders starts.new.items ≡ publics_among (placeholders starts.old.items) }
{
    starts.sort_unstable_by_key(|start: &PdbInternalSectionOffset| (start.section, start.offset));
    starts.dedup_by_key(|start: &mut PdbInternalSectionOffset| *start);
}

/// Whether a place comes before another one, by section and offset.
fn is_before(place: PdbInternalSectionOffset, other: PdbInternalSectionOffset) -> bool
    ensures { result ≡ comes_before place other }
{
    place.section < other.section || (place.section == other.section && place.offset < other.offset)
}

/// The number of entries of a list in order that begin at a place or before it, in its section or
/// in one before. It is a binary search.
fn count_up_to(functions: &[PublicFunction<'_>], place: PdbInternalSectionOffset) -> usize
    requires { Rises functions.now }
    ensures { IsSplit functions.now place result }
{
    functions.partition_point(|f| !is_before(place, f.start_offset))
}

/// The number of places in order that are at a place or before it, in its section or in one before.
/// It is a binary search.
fn count_starts(starts: &[PdbInternalSectionOffset], place: PdbInternalSectionOffset) -> usize
    requires { Rises (placeholders starts.now) }
    ensures { IsSplit (placeholders starts.now) place result }
{
    starts.partition_point(|start| !is_before(place, *start))
}

/// The entry of a list with that index, counted from 0.
fn entry_at<'s>(functions: &[PublicFunction<'s>], number: usize) -> Option<PublicFunction<'s>>
    ensures { result ≡ slice_get functions.now number }
{
    match functions.get(number) {
        None => None,
        Some(function) => Some(PublicFunction {
            start_offset: function.start_offset,
            name: function.name,
        }),
    }
}

/// The placeholder at the place with that index, counted from 0.
#[tactic(auto, using(crate::proofs::Lookup::start_there, crate::proofs::Lookup::start_missing))]
fn start_at<'s>(starts: &[PdbInternalSectionOffset], number: usize) -> Option<PublicFunction<'s>>
    ensures { result ≡ slice_get (placeholders starts.now) number }
{
    match starts.get(number) {
        None => None,
        Some(start) => Some(PublicFunction {
            start_offset: *start,
            name: None,
        }),
    }
}

/// The last of the first `count` entries of a list.
fn last_of<'s>(functions: &[PublicFunction<'s>], count: usize) -> Option<PublicFunction<'s>>
    ensures { result ≡ last_of_list functions.now count }
{
    if count == 0 {
        return None;
    }
    entry_at(functions, count - 1)
}

/// The placeholder at the last of the first `count` places.
fn last_start_of<'s>(
    starts: &[PdbInternalSectionOffset],
    count: usize,
) -> Option<PublicFunction<'s>>
    ensures { result ≡ last_of_list (placeholders starts.now) count }
{
    if count == 0 {
        return None;
    }
    start_at(starts, count - 1)
}

/// An entry, if it begins at a place.
fn if_at<'s>(
    found: Option<PublicFunction<'s>>,
    place: PdbInternalSectionOffset,
) -> Option<PublicFunction<'s>>
    ensures { result ≡ option_and_then (only_at place) found.entry }
{
    let Some(function) = found else {
        return None;
    };
    let start = function.start_offset;
    if start.section == place.section && start.offset == place.offset {
        Some(function)
    } else {
        None
    }
}

/// An entry, if it begins in the section of a place.
fn in_section<'s>(
    found: Option<PublicFunction<'s>>,
    place: PdbInternalSectionOffset,
) -> Option<PublicFunction<'s>>
    ensures { result ≡ option_and_then (only_in_section place) found.entry }
{
    let Some(function) = found else {
        return None;
    };
    if function.start_offset.section == place.section {
        Some(function)
    } else {
        None
    }
}

/// The first of two entries that may be there.
fn first_of<'s>(
    found: Option<PublicFunction<'s>>,
    other: Option<PublicFunction<'s>>,
) -> Option<PublicFunction<'s>>
    ensures { result ≡ first_of_two found.entry other.entry }
{
    match (found, other) {
        (Some(function), Some(start)) => {
            if is_before(start.start_offset, function.start_offset) {
                Some(start)
            } else {
                Some(function)
            }
        }
        (None, other) => other,
        (found, None) => found,
    }
}

/// The last of two entries that may be there.
fn latter_of<'s>(
    found: Option<PublicFunction<'s>>,
    other: Option<PublicFunction<'s>>,
) -> Option<PublicFunction<'s>>
    ensures { result ≡ last_of_two found.entry other.entry }
{
    match (found, other) {
        (Some(function), Some(start)) => {
            if is_before(function.start_offset, start.start_offset) {
                Some(start)
            } else {
                Some(function)
            }
        }
        (None, other) => other,
        (found, None) => found,
    }
}

/// The entry of a list in order at exactly a place, from the number that begin at the place or
/// before it.
#[tactic(auto, using(crate::proofs::Lookup::exactly_by_split))]
fn last_at<'s>(
    functions: &[PublicFunction<'s>],
    count: usize,
    place: PdbInternalSectionOffset,
) -> Option<PublicFunction<'s>>
    requires rises { Rises functions.now }
    requires split { IsSplit functions.now place count }
    ensures { result ≡ public_exactly functions.now place }
{
    if_at(last_of(functions, count), place)
}

/// The entry of a list in order at exactly a place.
fn function_exactly<'s>(
    functions: &[PublicFunction<'s>],
    place: PdbInternalSectionOffset,
) -> Option<PublicFunction<'s>>
    requires { Rises functions.now }
    ensures { result ≡ public_exactly functions.now place }
{
    last_at(functions, count_up_to(functions, place), place)
}

/// The placeholder at exactly a place, if it is one of places in order.
#[tactic(auto, using(crate::proofs::Lookup::exactly_by_split))]
fn start_exactly<'s>(
    starts: &[PdbInternalSectionOffset],
    place: PdbInternalSectionOffset,
) -> Option<PublicFunction<'s>>
    requires { Rises (placeholders starts.now) }
    ensures { result ≡ public_exactly (placeholders starts.now) place }
{
    if_at(last_start_of(starts, count_starts(starts, place)), place)
}

/// The last entry of a list in order at a place or before it, in its section.
#[tactic(auto, using(crate::proofs::Lookup::last_by_split))]
fn last_function<'s>(
    functions: &[PublicFunction<'s>],
    place: PdbInternalSectionOffset,
) -> Option<PublicFunction<'s>>
    requires { Rises functions.now }
    ensures { result ≡ last_before functions.now place }
{
    in_section(last_of(functions, count_up_to(functions, place)), place)
}

/// The placeholder at the last of places in order that is at a place or before it, in its section.
#[tactic(auto, using(crate::proofs::Lookup::last_by_split))]
fn last_start<'s>(
    starts: &[PdbInternalSectionOffset],
    place: PdbInternalSectionOffset,
) -> Option<PublicFunction<'s>>
    requires { Rises (placeholders starts.now) }
    ensures { result ≡ last_before (placeholders starts.now) place }
{
    in_section(last_start_of(starts, count_starts(starts, place)), place)
}

/// The next entry of a list in order after a place, in its section.
#[tactic(auto, using(crate::proofs::Lookup::next_by_split))]
fn next_function<'s>(
    functions: &[PublicFunction<'s>],
    place: PdbInternalSectionOffset,
) -> Option<PublicFunction<'s>>
    requires { Rises functions.now }
    ensures { result ≡ next_public functions.now place }
{
    in_section(entry_at(functions, count_up_to(functions, place)), place)
}

/// The placeholder at the next of places in order after a place, in its section.
#[tactic(auto, using(crate::proofs::Lookup::next_by_split))]
fn next_start<'s>(
    starts: &[PdbInternalSectionOffset],
    place: PdbInternalSectionOffset,
) -> Option<PublicFunction<'s>>
    requires { Rises (placeholders starts.now) }
    ensures { result ≡ next_public (placeholders starts.now) place }
{
    in_section(start_at(starts, count_starts(starts, place)), place)
}

/// Whether the first `count` entries of a list in order begin at a place or before it: the last of
/// these entries decides.
#[tactic(auto, using(crate::proofs::Lookup::front_up_to, crate::proofs::Lookup::front_none))]
fn all_begun(
    functions: &[PublicFunction<'_>],
    count: usize,
    place: PdbInternalSectionOffset,
) -> bool
    requires rises { Rises functions.now }
    requires bound { count ≤ length functions.now }
    ensures { result ≡ true → (i : ℕ) (f : _) → i < count → slice_get functions.now i ≡ Some f
        → comes_before place f.start_offset ≡ false }
{
    match last_of(functions, count) {
        None => true,
        Some(last) => !is_before(place, last.start_offset),
    }
}

/// Whether the entries of a list in order from the number `count` on begin after a place: the first
/// of these entries decides.
#[tactic(auto, using(crate::proofs::Lookup::back_from, crate::proofs::Lookup::back_none))]
fn others_follow(
    functions: &[PublicFunction<'_>],
    count: usize,
    place: PdbInternalSectionOffset,
) -> bool
    requires { Rises functions.now }
    ensures { result ≡ true → (i : ℕ) (f : _) → count ≤ i → slice_get functions.now i ≡ Some f
        → comes_before place f.start_offset ≡ true }
{
    match entry_at(functions, count) {
        None => true,
        Some(next) => is_before(place, next.start_offset),
    }
}

/// Whether that many entries of a list in order begin at a place or before it, and all others after
/// it.
#[tactic(auto, using(crate::proofs::Lookup::split_by))]
fn is_split_at(
    functions: &[PublicFunction<'_>],
    number: usize,
    place: PdbInternalSectionOffset,
) -> bool
    requires { Rises functions.now }
    ensures { result ≡ true → IsSplit functions.now place number }
{
    if number > functions.len() || !all_begun(functions, number, place) {
        return false;
    }
    others_follow(functions, number, place)
}

/// The number of entries of a list in order that begin at a place or before it. The number `guess`
/// is tried first, then the one after it: places that are asked for in order take one step or two
/// each, others a binary search.
fn count_from(
    functions: &[PublicFunction<'_>],
    guess: usize,
    place: PdbInternalSectionOffset,
) -> usize
    requires { Rises functions.now }
    ensures { IsSplit functions.now place result }
{
    if is_split_at(functions, guess, place) {
        return guess;
    }
    let following = guess.saturating_add(1);
    if is_split_at(functions, following, place) {
        return following;
    }
    count_up_to(functions, place)
}

/// Whether an entry of a list in order begins at a place. `count` is the number of entries that
/// begin at the place asked for last or before it, and then at this one: places that are asked for
/// in order take one step or two each.
fn begins_next(
    functions: &[PublicFunction<'_>],
    count: &mut usize,
    place: PdbInternalSectionOffset,
) -> bool
    requires { Rises functions.now }
    ensures { result ≡ is_some (public_exactly functions.now place) }
{
    *count = count_from(functions, *count, place);
    last_at(functions, *count, place).is_some()
}

/// Leaves of places those at which no entry of a list in order begins. It takes no memory.
#[tactic(auto, using(crate::proofs::Missing::kept_start, crate::proofs::Missing::kept_more, crate::proofs::Missing::kept_passed, crate::proofs::Missing::kept_end))]
fn keep_missing(functions: &[PublicFunction<'_>], starts: &mut Vec<PdbInternalSectionOffset>)
    requires { Rises functions.now }
    ensures { starts.new.items ≡ missing functions.now starts.old.items }
{
    let mut count = 0;
    let mut kept = 0;
    for index in 0..starts.len() {
        let start = starts[index];
        if !begins_next(functions, &mut count, start) {
            starts[kept] = start;
            kept += 1;
        }
    }
    starts.truncate(kept);
}

impl<'s> PublicList<'s> {
    /// The public list of public symbols, of the starts of contributions, and of the sections'
    /// ends. Of the entries at one place a named one counts before a placeholder, and then the
    /// first.
    ///
    /// A public symbol is at most of the starts. The others stay in the memory in which they came.
    ///
    /// # Errors
    /// `AllocError` when memory runs out.
    #[tactic(auto, using(crate::proofs::Joined::all_stand))]
    pub fn new(
        mut functions: Vec<PublicFunction<'s>>,
        mut starts: Vec<PdbInternalSectionOffset>,
        sections: &[ImageSectionHeader],
    ) -> Result<PublicList<'s>, AllocError>
        ensures { IfOk result
            (λ l. l ≡ public_list functions.entry.items starts.items sections.now) }
    {
        push_section_ends(&mut functions, sections)?;
        sort_and_dedup(&mut functions)?;
        keep_missing(functions.as_slice(), &mut starts);
        sort_and_dedup_starts(&mut starts);
        Ok(PublicList { functions, starts })
    }

    /// The number of its entries.
    #[tactic(auto, using(crate::proofs::Joined::joined_length))]
    pub fn len(&self) -> usize
        ensures { result ≡ length self.now }
    {
        self.functions.len() + self.starts.len()
    }

    /// Public symbols and the ends of sections, and the places of the other placeholders; both in
    /// the order of their places.
    pub fn as_slices(&self) -> (&[PublicFunction<'s>], &[PdbInternalSectionOffset])
        ensures { self.now ≡ joined result.0.now result.1.now }
    {
        (self.functions.as_slice(), self.starts.as_slice())
    }

    /// The entry at exactly a place.
    #[tactic(auto, using(crate::proofs::Joined::exactly_joined))]
    pub fn exactly(&self, place: PdbInternalSectionOffset) -> Option<PublicFunction<'s>>
        ensures { result ≡ public_exactly self.now place }
    {
        let function = function_exactly(&self.functions, place);
        first_of(function, start_exactly(&self.starts, place))
    }

    /// The last entry at a place or before it, in its section.
    #[tactic(auto, using(crate::proofs::Joined::last_joined))]
    fn last_at_or_before(&self, place: PdbInternalSectionOffset) -> Option<PublicFunction<'s>>
        ensures { result ≡ last_before self.now place }
    {
        let function = last_function(&self.functions, place);
        latter_of(function, last_start(&self.starts, place))
    }

    /// The entry of a place: the last one at the place or before it, in its section; `None` where
    /// that one lies before `start`, the start of the contribution that holds the place.
    pub fn over(&self, start: u32, place: PdbInternalSectionOffset) -> Option<PublicFunction<'s>>
        ensures { result ≡ public_over self.now start place }
    {
        let found = self.last_at_or_before(place)?;
        if found.start_offset.offset < start {
            return None;
        }
        Some(found)
    }

    /// The next entry after a place, in its section.
    #[tactic(auto, using(crate::proofs::Lookup::rises, crate::proofs::Joined::next_joined))]
    pub fn next_behind(&self, place: PdbInternalSectionOffset) -> Option<PublicFunction<'s>>
        ensures next { result ≡ next_public self.now place }
        ensures rises { Rises self.now }
    {
        let function = next_function(&self.functions, place);
        first_of(function, next_start(&self.starts, place))
    }
}
