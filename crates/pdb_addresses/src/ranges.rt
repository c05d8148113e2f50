//! Ranges of addresses, and the ranges that they become.

ghost use Rattle.std.specs.Prelude.{◌≡◌, ℕ, ◌+◌, ◌-◌, ◌<◌, ◌≤◌, true, length, option_map};
ghost use Rattle.std.specs.Prelude.{option_and_then, slice_get};
ghost use Rattle.std.specs.Iterator.{at_most};
ghost use Rattle.pdb_addresses.specs.Addresses.{IsInOrder, IsOrdered};
ghost use Rattle.pdb_addresses.specs.Cursor.{IsAt, IsAtIn, left_of, next_source as next_source_of};
ghost use Rattle.pdb_addresses.specs.Cursor.{source_before as source_before_of, sent_by_number};
ghost use Rattle.pdb_addresses.specs.Cursor.{sent_along};
ghost use Rattle.pdb_addresses.specs.Cursor.{run_between as run_between_of, run_in_front, GivesRun};
ghost use Rattle.pdb_addresses.specs.Omap.{source, record_at, records_of};
ghost use Rattle.pdb_addresses.specs.Omap.{sent_by as sent_by_record, translated};
ghost use Rattle.pdb_addresses.specs.PlaceRun.{begins_record};
ghost use Rattle.pdb_addresses.specs.Ranges.{number_for, runs, image_ranges, internal_ranges};
ghost use Rattle.pdb_addresses.specs.Ranges.{GivesNext};

use crate::address_map::AddressMap;
use crate::internal_rva::PdbInternalRva;
use crate::omap::{OMAPRecord, last_number, sent_by};
use crate::rva::Rva;
use std::marker::Model;
use std::ops::Range;

/// The state of a walk over a map: `number` records were passed, and `address` comes next.
#[derive(Clone, Copy, Debug)]
pub(crate) struct Cursor {
    number: usize,
    address: u32,
}

/// The cursor of a walk that begins at an address.
fn cursor_at(omap: Option<&[OMAPRecord]>, address: u32) -> Cursor
    requires { IsInOrder (records_of omap) }
    ensures at { IsAt (records_of omap.entry) result.number result.address }
    ensures number { result.number ≡ number_for (records_of omap.entry) address }
    ensures address { result.address ≡ address }
{
    let number = match omap {
        None => 0,
        Some(records) => last_number(records, address),
    };
    Cursor { number, address }
}

/// The source of the record after the cursor.
fn next_source(omap: Option<&[OMAPRecord]>, number: usize) -> Option<u32>
    ensures { result ≡ next_source_of (records_of omap.entry) number }
{
    match omap {
        None => None,
        Some(records) => source_at(records, number),
    }
}

/// The source of the record after the cursor, where it lies before an address.
fn source_before(omap: Option<&[OMAPRecord]>, number: usize, end: u32) -> Option<u32>
    ensures { result ≡ source_before_of (records_of omap.entry) number end }
{
    match next_source(omap, number) {
        Some(source) if source < end => Some(source),
        _ => None,
    }
}

fn source_at(records: &[OMAPRecord], number: usize) -> Option<u32>
    ensures { result ≡ option_map source (slice_get records.now number) }
{
    match records.get(number) {
        None => None,
        Some(entry) => Some(entry.source_address),
    }
}

/// The address that the cursor's address becomes by the record with the cursor's number, counted
/// from 1.
fn sent(omap: Option<&[OMAPRecord]>, at: Cursor) -> Option<u32>
    requires { IsAt (records_of omap) at.number at.address }
    ensures { result ≡ sent_by_number (records_of omap.entry) at.number at.address }
{
    match omap {
        None => Some(at.address),
        Some(records) => sent_in(records, at),
    }
}

#[tactic(auto, using(crate::proofs::OmapLemmas::no_first, crate::proofs::OmapLemmas::record_before))]
fn sent_in(records: &[OMAPRecord], at: Cursor) -> Option<u32>
    requires { IsAtIn records.now at.number at.address }
    ensures { result ≡ option_and_then (sent_by_record at.address)
        (record_at records.now at.number) }
{
    if at.number == 0 {
        return None;
    }
    sent_by(records[at.number - 1], at.address)
}

/// The addresses that those from a cursor's on and before another become, up to 0xfffffffe.
fn run_between(omap: Option<&[OMAPRecord]>, at: Cursor, stop: u32) -> Option<Range<u32>>
    requires at { IsAt (records_of omap) at.number at.address }
    requires order { at.address ≤ stop }
    ensures { result ≡ run_between_of (records_of omap.entry) at.number at.address stop }
{
    let start = sent(omap, at)?;
    let end = start.saturating_add(stop - at.address);
    if start < end { Some(start..end) } else { None }
}

/// The addresses that those of the cursor's record before `end` become, and the next cursor.
#[tactic(auto, using(crate::proofs::RangeSteps::up_to_source, crate::proofs::RangeSteps::up_to_end, crate::proofs::RangeSteps::at_source, crate::proofs::RangeSteps::at_end, crate::proofs::RangeSteps::on_to_source))]
fn step(omap: Option<&[OMAPRecord]>, at: Cursor, end: u32) -> (Option<Range<u32>>, Cursor)
    requires order { IsInOrder (records_of omap) }
    requires at { IsAt (records_of omap) at.number at.address }
    requires some { at.address < end }
    ensures at { IsAt (records_of omap.entry) result.1.number result.1.address }
    ensures bound { result.1.address ≤ end }
    ensures runs { runs (records_of omap.entry) at.address end
        ≡ run_in_front at.number result.0 (runs (records_of omap.entry) result.1.address end) }
    ensures on { left_of (records_of omap.entry) result.1.number + (end - result.1.address)
        < left_of (records_of omap.entry) at.number + (end - at.address) }
{
    match source_before(omap, at.number, end) {
        Some(source) => {
            let next = Cursor {
                number: at.number + 1,
                address: source,
            };
            (run_between(omap, at, source), next)
        }
        None => {
            let next = Cursor {
                number: at.number,
                address: end,
            };
            (run_between(omap, at, end), next)
        }
    }
}

/// The next run before `end`, and the cursor after it.
fn find(omap: Option<&[OMAPRecord]>, at: Cursor, end: u32) -> (Option<Range<u32>>, Cursor)
    requires order { IsInOrder (records_of omap) }
    requires at { IsAt (records_of omap) at.number at.address }
    ensures at { IsAt (records_of omap.entry) result.1.number result.1.address }
    ensures gives { GivesRun (runs (records_of omap.entry) at.address end) result.0
        (runs (records_of omap.entry) result.1.address end) }
{
    let mut cursor = at;
    while cursor.address < end {
        let (run, next) = step(omap, cursor, end);
        if run.is_some() {
            return (run, next);
        }
        cursor = next;
    }
    (None, cursor)
}

/// The address that an address becomes, and the number of addresses from there on and before `end`
/// that go by its record.
pub(crate) fn record_run(omap: Option<&[OMAPRecord]>, address: u32, end: u32) -> (Option<u32>, u32)
    requires order { IsInOrder (records_of omap) }
    requires some { address < end }
    ensures some { 1 ≤ result.1 }
    ensures within { address + result.1 ≤ end }
    ensures along { (k : ℕ) → k < result.1 → translated (records_of omap.entry) (address + k)
        ≡ sent_along result.0 k }
    ensures ends { address + result.1 < end
        → begins_record (records_of omap.entry) (address + result.1) ≡ true }
{
    let cursor = cursor_at(omap, address);
    let stop = source_before(omap, cursor.number, end).unwrap_or(end);
    (sent(omap, cursor), stop - address)
}

/// A walk over the addresses of a range.
#[derive(Debug, Drop)]
struct RangeIter<'t> {
    omap: Option<&'t [OMAPRecord]>,
    cursor: Cursor,
    end: u32,
}

impl<'t> Model for RangeIter<'t> {
    ghost use Rattle.std.specs.Prelude.{List};
    ghost use Rattle.pdb_addresses.specs.Cursor.{IsSteady};
    ghost use Rattle.pdb_addresses.specs.Omap.{records_of};
    ghost use Rattle.pdb_addresses.specs.Ranges.{TranslatedRun, runs};

    ghost Value = { List TranslatedRun };

    ghost view = { λ i. runs (records_of i.omap) i.cursor.address i.end };

    ghost invariant = { λ i. IsSteady (records_of i.omap) i.cursor.number i.cursor.address };
}

impl<'t> RangeIter<'t> {
    fn new(omap: Option<&'t [OMAPRecord]>, range: Range<u32>) -> RangeIter<'t>
        requires { IsInOrder (records_of omap) }
        ensures { result ≡ runs (records_of omap.entry) range.start range.end }
    {
        let cursor = cursor_at(omap, range.start);
        RangeIter {
            omap,
            cursor,
            end: range.end,
        }
    }

    fn next(&mut self) -> Option<Range<u32>>
        ensures { GivesRun self.old result self.new }
    {
        let (run, cursor) = find(self.omap, self.cursor, self.end);
        self.cursor = cursor;
        run
    }
}

/// The ranges that a range of internal RVAs becomes in the image, in the order of the range: one
/// range for all addresses that go by one record. Addresses that become nothing are left out, and
/// those that become 0xffffffff.
#[derive(Debug, Drop)]
pub struct RvaRangeIter<'t>(RangeIter<'t>);

impl<'t> Model for RvaRangeIter<'t> {
    ghost use Rattle.std.specs.Prelude.{List, map};
    ghost use Rattle.std.specs.declared.ops.Range.{Range as Between};
    ghost use Rattle.pdb_addresses.specs.declared.rva.Rva.{Rva as Address};
    ghost use Rattle.pdb_addresses.specs.Ranges.{image_range};

    ghost Value = { List (Between Address) };

    ghost view = { λ i. map image_range i.0 };
}

impl<'t> Iterator for RvaRangeIter<'t> {
    type Item = Range<Rva>;

    ghost next_gives = { GivesNext };

    ghost remaining = { λ due. at_most (length due) };

    fn next(&mut self) -> Option<Range<Rva>> {
        let run = self.0.next()?;
        Some(Rva(run.start)..Rva(run.end))
    }
}

/// The ranges that a range of RVAs becomes among the internal ones, in the order of the range: one
/// range for all addresses that go by one record. Addresses that become nothing are left out, and
/// those that become 0xffffffff.
#[derive(Debug, Drop)]
pub struct PdbInternalRvaRangeIter<'t>(RangeIter<'t>);

impl<'t> Model for PdbInternalRvaRangeIter<'t> {
    ghost use Rattle.std.specs.Prelude.{List, map};
    ghost use Rattle.std.specs.declared.ops.Range.{Range as Between};
    ghost use Rattle.pdb_addresses.specs.declared.internal_rva.PdbInternalRva.{
      PdbInternalRva as Address,
    };
    ghost use Rattle.pdb_addresses.specs.Ranges.{internal_range};

    ghost Value = { List (Between Address) };

    ghost view = { λ i. map internal_range i.0 };
}

impl<'t> Iterator for PdbInternalRvaRangeIter<'t> {
    type Item = Range<PdbInternalRva>;

    ghost next_gives = { GivesNext };

    ghost remaining = { λ due. at_most (length due) };

    fn next(&mut self) -> Option<Range<PdbInternalRva>> {
        let run = self.0.next()?;
        Some(PdbInternalRva(run.start)..PdbInternalRva(run.end))
    }
}

impl<'s> AddressMap<'s> {
    /// The ranges that a range of internal addresses becomes in the image.
    pub fn rva_ranges(&self, range: Range<PdbInternalRva>) -> RvaRangeIter<'_>
        requires { IsOrdered self.now }
        ensures { result ≡ image_ranges self.now.to_image range.start.0 range.end.0 }
    {
        RvaRangeIter(RangeIter::new(self.to_image(), range.start.0..range.end.0))
    }

    /// The ranges that a range of addresses of the image becomes among the internal ones.
    pub fn internal_rva_ranges(&self, range: Range<Rva>) -> PdbInternalRvaRangeIter<'_>
        requires { IsOrdered self.now }
        ensures { result ≡ internal_ranges self.now.to_internal range.start.0 range.end.0 }
    {
        PdbInternalRvaRangeIter(RangeIter::new(self.to_internal(), range.start.0..range.end.0))
    }
}
