//! Reports on a range of addresses: the number of them that each function has, or each source file.

ghost use Rattle.std.specs.Prelude.{◌≤◌, IfOk};
ghost use Rattle.pdb_addresses.specs.Addresses.{IsOrdered};
ghost use Rattle.pdb_report.specs.RangeReports.{CountsPlaces, CountsSizes, IsCounted};
ghost use Rattle.pdb_report.specs.RangeReports.{by_file_in, by_file_with, sizes_in, sizes_with};
ghost use Rattle.pdb_report.specs.RangeReports.{counted_loaded, counted_with};

use crate::counted::{ContextRuns, Counted};
use crate::fault::RunFault;
use pdb_addr2line::{FileContext, Function, Symbolizer};
use pdb_addresses::AddressMap;
use pdb_engine::{Watched, write_all, write_fault};
use pdb_loading::ContributionOrder;
use pdb_owners::{CountedFile, count_runs};
use std::alloc::{AllocError, Global};
use std::io::Write;

/// The tally of a report of sizes.
#[derive(Debug, Drop, PartialEq)]
pub struct Tally {
    /// The number of places that were looked up.
    pub lookups: u64,
    /// The number of times that an answer was made of a key that lookups found: once for each key.
    pub answered: u64,
}

/// The text of the report on a range from a context, and the tally of counting.
///
/// # Errors
/// `AllocError` when memory runs out.
pub(crate) fn count_text<A: Counted>(
    alloc: Global,
    map: &AddressMap<'_>,
    context: FileContext<'_>,
    start: u32,
    end: u32,
) -> Result<(String, Tally), AllocError>
    requires ordered { IsOrdered map.now }
    requires order { start ≤ end }
    ensures { IfOk result (CountsPlaces A.kind map.now (A.keyed context.entry).places start end
        context.entry.lookups) }
{
    let mut runs = ContextRuns::<A>::new(context);
    let sizes = count_runs(alloc, map, &mut runs, start, end)?;
    let text = A::report_text(alloc, &sizes)?;
    let tally = Tally {
        lookups: runs.lookups(),
        answered: runs.answered(),
    };
    Ok((text, tally))
}

/// The text of the report on a range from a file that was loaded, and the tally of counting.
///
/// # Errors
/// `AllocError` when memory runs out.
fn count_loaded<A: Counted>(
    alloc: Global,
    symbolizer: &Symbolizer,
    start: u32,
    end: u32,
) -> Result<(String, Tally), AllocError>
    requires { start ≤ end }
    ensures { IfOk result
        (IsCounted (counted_loaded A.kind symbolizer.now) start end) }
{
    match symbolizer.context(alloc) {
        Ok(context) => count_text::<A>(alloc, symbolizer.address_map(), context, start, end),
        Err(_) => Err(AllocError),
    }
}

/// Writes the report on a range from a file that was loaded, unless the range is reversed.
///
/// # Errors
/// `ReversedRange`; `Write` where a write failed; `OutOfMemory`.
fn report_in_order<A: Counted, W: Write>(
    alloc: Global,
    symbolizer: &Symbolizer,
    start: u32,
    end: u32,
    writer: &mut Watched<W>,
) -> Result<Tally, RunFault>
    ensures { CountsSizes (counted_loaded A.kind symbolizer.now) start end
        W.contents writer.old writer.new result }
{
    if end < start {
        return Err(RunFault::ReversedRange);
    }
    let Ok((text, tally)) = count_loaded::<A>(alloc, symbolizer, start, end) else {
        return Err(RunFault::OutOfMemory);
    };
    match write_all(writer, text.as_bytes()) {
        Ok(()) => Ok(tally),
        Err(kind) => Err(RunFault::from(write_fault(kind))),
    }
}

/// Writes a report on a range from the program database of the bytes.
///
/// # Errors
/// As [`run_sizes`].
fn run_report<A: Counted, W: Write>(
    alloc: Global,
    bytes: Vec<u8>,
    order: ContributionOrder,
    start: u32,
    end: u32,
    writer: &mut Watched<W>,
) -> Result<Tally, RunFault>
    ensures { CountsSizes (counted_with A.kind order bytes.items) start end
        W.contents writer.old writer.new result }
{
    match Symbolizer::open_with_order(alloc, bytes, order) {
        Ok(symbolizer) => report_in_order::<A, W>(alloc, &symbolizer, start, end, writer),
        Err(fault) => Err(RunFault::from(fault)),
    }
}

/// Writes the number of the addresses from `start` on and before `end` that each function has in
/// the program database of the bytes: a line for each function, in the order of start, end and
/// name. Last come `none` and the number of addresses that have no function.
///
/// # Errors
/// `Load` where the file has a loading fault, then `ReversedRange` where `start` is above `end`,
/// and then nothing was written; `Write` where the writer failed in this call; `OutOfMemory`.
pub fn run_sizes<W: Write>(
    alloc: Global,
    bytes: Vec<u8>,
    start: u32,
    end: u32,
    writer: &mut Watched<W>,
) -> Result<Tally, RunFault>
    ensures { CountsSizes (sizes_in bytes.items) start end W.contents writer.old writer.new result }
{
    run_report::<Function, W>(alloc, bytes, ContributionOrder::InOrder, start, end, writer)
}

/// Writes the number of the addresses from `start` on and before `end` that each source file has in
/// the program database of the bytes: a line for each file, with its count and its text. The lines
/// stand in the order of the texts' bytes. Last come `no file`, `none` and `unreadable`: the
/// numbers of addresses that have a function without a known file, no function, and a function
/// whose frames can't be read.
///
/// # Errors
/// `Load` where the file has a loading fault, then `ReversedRange` where `start` is above `end`,
/// and then nothing was written; `Write` where the writer failed in this call; `OutOfMemory`.
pub fn run_sizes_by_file<W: Write>(
    alloc: Global,
    bytes: Vec<u8>,
    start: u32,
    end: u32,
    writer: &mut Watched<W>,
) -> Result<Tally, RunFault>
    ensures { CountsSizes (by_file_in bytes.items) start end
        W.contents writer.old writer.new result }
{
    run_report::<CountedFile, W>(alloc, bytes, ContributionOrder::InOrder, start, end, writer)
}

/// As [`run_sizes`], where section contributions have to stand in that order.
///
/// # Errors
/// The errors of [`run_sizes`]. In any order no `Load` is for the order of section contributions.
pub fn run_sizes_with_order<W: Write>(
    alloc: Global,
    bytes: Vec<u8>,
    order: ContributionOrder,
    start: u32,
    end: u32,
    writer: &mut Watched<W>,
) -> Result<Tally, RunFault>
    ensures { CountsSizes (sizes_with order bytes.items) start end
        W.contents writer.old writer.new result }
{
    run_report::<Function, W>(alloc, bytes, order, start, end, writer)
}

/// As [`run_sizes_by_file`], where section contributions have to stand in that order.
///
/// # Errors
/// The errors of [`run_sizes_by_file`]. In any order no `Load` is for the order of section
/// contributions.
pub fn run_sizes_by_file_with_order<W: Write>(
    alloc: Global,
    bytes: Vec<u8>,
    order: ContributionOrder,
    start: u32,
    end: u32,
    writer: &mut Watched<W>,
) -> Result<Tally, RunFault>
    ensures { CountsSizes (by_file_with order bytes.items) start end
        W.contents writer.old writer.new result }
{
    run_report::<CountedFile, W>(alloc, bytes, order, start, end, writer)
}
