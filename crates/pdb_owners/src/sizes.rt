//! Counts the answers of a range of addresses, run by run.

ghost use Rattle.std.specs.Prelude.{◌≡◌, ◌+◌, ◌-◌, ◌^◌, ◌<◌, ◌≤◌, true, IfOk, OnOk};
ghost use Rattle.std.specs.Prelude.{length};
ghost use Rattle.pdb_addresses.specs.Addresses.{IsOrdered};
ghost use Rattle.pdb_owners.specs.Counted.{AreCounts, CountsAddresses, CountsAlong, CountsFrom};
ghost use Rattle.pdb_owners.specs.Counted.{CountsRange};
ghost use Rattle.pdb_owners.specs.Counted.{RisesAlong, RisesFrom, RisesOver};
ghost use Rattle.pdb_owners.specs.Counted.{asked_pieces as asked};
ghost use Rattle.pdb_owners.specs.Counts.{count_of_none, is_section_bound};
ghost use Rattle.pdb_owners.specs.Table.{IsTable, IsResolved, sum_of};

use crate::countable::Countable;
use crate::runs::Runs;
use crate::table::Counts;
use pdb_addresses::laws::ranges_laid_end_to_end;
use pdb_addresses::{AddressMap, PdbInternalRva, PdbInternalSectionOffset, Rva};
use std::alloc::{AllocError, Global};
use std::ops::Range;

/// The sizes of a range: the number of its addresses with each answer, and with none.
#[derive(Drop)]
pub struct Sizes<A: Countable> {
    /// Answers in their order, each with the number of its addresses.
    pub counts: Counts<A>,
    /// The number of addresses without an answer.
    pub none: u64,
}

/// Counts the answers of the addresses from `start` on and before `end`. It asks at most once for
/// each piece, and once for the answer of each key that it found; there are no more keys than
/// pieces.
///
/// # Errors
/// `AllocError` when memory runs out.
pub fn count_runs<R: Runs>(
    alloc: Global,
    map: &AddressMap<'_>,
    runs: &mut R,
    start: u32,
    end: u32,
) -> Result<Sizes<R::Found>, AllocError>
    requires ordered { IsOrdered map.now }
    requires order { start ≤ end }
    ensures each { IfOk result (λ sizes. AreCounts R.Found.cmp sizes.counts map.now
        (R.keyed runs.old) start end) }
    ensures table { IfOk result (λ sizes. IsTable R.Found.cmp sizes.counts) }
    ensures none { IfOk result (λ sizes. sizes.none
        ≡ count_of_none map.now (R.keyed runs.old).places start end) }
    ensures all { IfOk result (λ sizes. sum_of sizes.counts + sizes.none ≡ end - start) }
    ensures lookups { OnOk result (R.lookups runs.new
        ≤ R.lookups runs.old + asked map.now (R.keyed runs.old) start end) }
    ensures answered { OnOk result (R.answered runs.new
        ≤ R.answered runs.old + asked map.now (R.keyed runs.old) start end) }
    ensures same { R.keyed runs.new ≡ R.keyed runs.old }
{
    let keys = count_keys(alloc, map, runs, start, end)?;
    let counts = resolve(alloc, runs, &keys)?;
    let none = u64::from(end - start) - counts.total();
    Ok(Sizes { counts, none })
}

/// Counts the addresses from `start` on and before `end` by the keys of their answers. It asks at
/// most once for each piece.
///
/// # Errors
/// `AllocError` when memory runs out.
pub fn count_keys<R: Runs>(
    alloc: Global,
    map: &AddressMap<'_>,
    runs: &mut R,
    start: u32,
    end: u32,
) -> Result<Counts<R::Key>, AllocError>
    requires ordered { IsOrdered map.now }
    requires order { start ≤ end }
    ensures counted { IfOk result (CountsAddresses map.now (R.keyed runs.old) start end) }
    ensures lookups { OnOk result (R.lookups runs.new
        ≤ R.lookups runs.old + asked map.now (R.keyed runs.old) start end) }
    ensures keys { IfOk result (λ keys. length keys
        ≤ asked map.now (R.keyed runs.old) start end) }
    ensures answered { OnOk result (R.answered runs.new ≡ R.answered runs.old) }
    ensures same { R.keyed runs.new ≡ R.keyed runs.old }
{
    ranges_laid_end_to_end();
    let mut keys = Counts::new(alloc);
    let mut ranges = map.internal_rva_ranges(Rva(start)..Rva(end));
    while let Some(range) = ranges.next() {
        count_range(alloc, map, runs, &mut keys, range)?;
    }
    Ok(keys)
}

/// Returns the counts of the answers that keys stand for. The answer of each key is asked for once.
fn resolve<R: Runs>(
    alloc: Global,
    runs: &mut R,
    keys: &Counts<R::Key>,
) -> Result<Counts<R::Found>, AllocError>
    requires room { sum_of keys.now < 2 ^ 64 }
    ensures resolved { IfOk result (λ counts. IsResolved
        (R.keyed runs.old).answer_of keys.now counts) }
    ensures lookups { OnOk result (R.lookups runs.new ≡ R.lookups runs.old) }
    ensures answered { OnOk result (R.answered runs.new
        ≤ R.answered runs.old + length keys.now) }
    ensures same { R.keyed runs.new ≡ R.keyed runs.old }
{
    let mut counts = Counts::new(alloc);
    for (key, count) in keys.by_answer() {
        let answer = runs.answer_of(alloc, key)?;
        counts.add_answer(answer, *count)?;
    }
    Ok(counts)
}

/// Counts the answers of a range of internal addresses.
fn count_range<R: Runs>(
    alloc: Global,
    map: &AddressMap<'_>,
    runs: &mut R,
    keys: &mut Counts<R::Key>,
    range: Range<PdbInternalRva>,
) -> Result<(), AllocError>
    requires room { sum_of keys.old + (range.end.0 - range.start.0) < 2 ^ 64 }
    ensures counted { OnOk result (CountsRange map.now (R.keyed runs.old) range keys.old keys.new) }
    ensures lookups { OnOk result (RisesOver map.now (R.keyed runs.old) range
        (R.lookups runs.old) (R.lookups runs.new)) }
    ensures keys { OnOk result (RisesOver map.now (R.keyed runs.old) range
        (length keys.old) (length keys.new)) }
    ensures answered { OnOk result (R.answered runs.new ≡ R.answered runs.old) }
    ensures same { R.keyed runs.new ≡ R.keyed runs.old }
{
    let end = range.end.0;
    let mut address = range.start.0;
    while address < end {
        address += count_section(
            alloc,
            map,
            runs,
            keys,
            PdbInternalRva(address),
            end - address,
        )?;
    }
    Ok(())
}

/// Counts the answers from an internal address on, to the next start or end of a section, over
/// `limit` addresses at most.
fn count_section<R: Runs>(
    alloc: Global,
    map: &AddressMap<'_>,
    runs: &mut R,
    keys: &mut Counts<R::Key>,
    address: PdbInternalRva,
    limit: u32,
) -> Result<u32, AllocError>
    requires some { 1 ≤ limit }
    requires within { address.0 + limit ≤ 2 ^ 32 }
    requires room { sum_of keys.old + limit < 2 ^ 64 }
    ensures some { IfOk result (λ n. 1 ≤ n) }
    ensures within { IfOk result (λ n. n ≤ limit) }
    ensures counted { IfOk result (CountsFrom map.now (R.keyed runs.old) address keys.old
        keys.new) }
    ensures lookups { IfOk result (RisesFrom map.now (R.keyed runs.old) address
        (R.lookups runs.old) (R.lookups runs.new)) }
    ensures keys { IfOk result (RisesFrom map.now (R.keyed runs.old) address (length keys.old)
        (length keys.new)) }
    ensures answered { OnOk result (R.answered runs.new ≡ R.answered runs.old) }
    ensures ends { IfOk result (λ n. n < limit
        → is_section_bound map.now.internal (address.0 + n) ≡ true) }
    ensures same { R.keyed runs.new ≡ R.keyed runs.old }
{
    let (place, count) = map.section_run(address, limit);
    match place {
        None => Ok(count),
        Some(place) => {
            count_places(alloc, runs, keys, place, count)?;
            Ok(count)
        }
    }
}

/// Counts the answers of that many places from one on.
fn count_places<R: Runs>(
    alloc: Global,
    runs: &mut R,
    keys: &mut Counts<R::Key>,
    place: PdbInternalSectionOffset,
    count: u32,
) -> Result<(), AllocError>
    requires within { place.offset + count ≤ 2 ^ 32 }
    requires room { sum_of keys.old + count < 2 ^ 64 }
    ensures counted { OnOk result (CountsAlong (R.keyed runs.old) place keys.old keys.new count) }
    ensures lookups { OnOk result (RisesAlong (R.keyed runs.old) place (R.lookups runs.old)
        (R.lookups runs.new) count) }
    ensures keys { OnOk result (RisesAlong (R.keyed runs.old) place (length keys.old)
        (length keys.new) count) }
    ensures answered { OnOk result (R.answered runs.new ≡ R.answered runs.old) }
    ensures same { R.keyed runs.new ≡ R.keyed runs.old }
{
    let mut done = 0;
    while done < count {
        let next = PdbInternalSectionOffset {
            offset: place.offset + done,
            section: place.section,
        };
        let (key, length) = runs.run_at(alloc, next, count - done)?;
        keys.add_answer(key, u64::from(length))?;
        done += length;
    }
    Ok(())
}
