//! Reports on a range of addresses, from a file that is read on demand.

ghost use Rattle.std.specs.Prelude.{◌≡◌, ◌≤◌, IfErr, IfOk};
ghost use Rattle.pdb_addr2line.specs.FileAnswers.{IsKnown, IsUnasked};
ghost use Rattle.pdb_file_views.specs.Views.{Grows};
ghost use Rattle.pdb_report.specs.RangeReports.{CountsFileSizes, CountsIfKnown, IsCounted};
ghost use Rattle.pdb_report.specs.RangeReports.{by_file_of, counted_held, counted_of, sizes_of};
ghost use Rattle.pdb_report.specs.RunFaults.{OnMemoryOrFile};

use crate::counted::Counted;
use crate::fault::RunFault;
use crate::file_report::memory_fault;
use crate::sizes::{Tally, count_text};
use pdb_addr2line::{FileOnDemand, FileSymbolizer, Function, NotLoaded, TRIES};
use pdb_engine::{Watched, write_all, write_fault};
use pdb_owners::CountedFile;
use std::alloc::{AllocError, Global};
use std::io::Write;
use std::os::unix::fs::FileExt;

/// The text of the report on a range from what was read of a file, and the tally of counting. The
/// context is let go.
///
/// # Errors
/// `AllocError` where memory runs out, where something has to be read first, or where there is no
/// context.
fn count_held<A: Counted, F: Drop>(
    alloc: Global,
    symbolizer: &mut FileSymbolizer<'_, F>,
    start: u32,
    end: u32,
) -> Result<(String, Tally), AllocError>
    requires order { start ≤ end }
    requires flags { symbolizer.old.flags ≡ 23 }
    requires unasked { IsUnasked symbolizer.old }
    ensures contents { symbolizer.new.contents ≡ symbolizer.old.contents }
    ensures order { symbolizer.new.order ≡ symbolizer.old.order }
    ensures flags { symbolizer.new.flags ≡ symbolizer.old.flags }
    ensures views { symbolizer.new.views ≡ symbolizer.old.views }
    ensures unasked { IsUnasked symbolizer.new }
    ensures counted { IsKnown symbolizer.new → IfOk result
        (IsCounted (counted_held A.kind symbolizer.old) start end) }
{
    let Some(context) = symbolizer.take_context() else {
        return Err(AllocError);
    };
    count_text::<A>(alloc, symbolizer.address_map(), context, start, end)
}

/// The text of the report on a range from a file that was loaded and is read on demand, and the
/// tally of the last count.
///
/// # Errors
/// `File` where the file couldn't be read; `OutOfMemory`.
fn count_file<A: Counted, F: FileExt + Drop>(
    alloc: Global,
    symbolizer: &mut FileSymbolizer<'_, F>,
    start: u32,
    end: u32,
) -> Result<(String, Tally), RunFault>
    requires order { start ≤ end }
    requires flags { symbolizer.old.flags ≡ 23 }
    requires unasked { IsUnasked symbolizer.old }
    ensures contents { symbolizer.new.contents ≡ symbolizer.old.contents }
    ensures order { symbolizer.new.order ≡ symbolizer.old.order }
    ensures flags { symbolizer.new.flags ≡ symbolizer.old.flags }
    ensures grows { Grows symbolizer.old.views symbolizer.new.views }
    ensures kind { IfErr result OnMemoryOrFile }
    ensures counted { IsKnown symbolizer.new → IfOk result
        (IsCounted (counted_held A.kind symbolizer.old) start end) }
{
    symbolizer.ask_between(alloc, start, end);
    match symbolizer.go_on(alloc) {
        Ok(_) => {}
        Err(kind) => return Err(memory_fault(Some(kind))),
    }
    for _ in 0..TRIES {
        match count_held::<A, F>(alloc, symbolizer, start, end) {
            Ok(counted) => return Ok(counted),
            Err(_) => {}
        }
        match symbolizer.go_on(alloc) {
            Ok(true) => {}
            Ok(false) => return Err(RunFault::OutOfMemory),
            Err(kind) => return Err(memory_fault(Some(kind))),
        }
    }
    Err(RunFault::OutOfMemory)
}

/// The outcome of a run on a range over a file that is read on demand, and the file.
#[derive(Drop)]
pub struct FileSizes<'a, F: Drop> {
    /// The outcome of the run.
    pub outcome: Result<Tally, RunFault>,
    /// The file, with what was read of it.
    pub source: FileOnDemand<'a, F>,
}

/// Writes a report on a range from a file that was loaded and is read on demand, unless the range
/// is reversed.
///
/// # Errors
/// `ReversedRange`; `Write` where a write failed; `File` where the file couldn't be read;
/// `OutOfMemory`.
fn write_file_report<A: Counted, F: FileExt + Drop, W: Write>(
    alloc: Global,
    symbolizer: &mut FileSymbolizer<'_, F>,
    start: u32,
    end: u32,
    writer: &mut Watched<W>,
) -> Result<Tally, RunFault>
    requires flags { symbolizer.old.flags ≡ 23 }
    requires unasked { IsUnasked symbolizer.old }
    ensures contents { symbolizer.new.contents ≡ symbolizer.old.contents }
    ensures same { symbolizer.new.order ≡ symbolizer.old.order }
    ensures grows { IsKnown symbolizer.new → IsKnown symbolizer.old }
    ensures run { CountsIfKnown (IsKnown symbolizer.new)
        (counted_held A.kind symbolizer.old) start end
        W.contents writer.old writer.new result }
{
    if end < start {
        return Err(RunFault::ReversedRange);
    }
    match count_file::<A, F>(alloc, symbolizer, start, end) {
        Ok((text, tally)) => match write_all(writer, text.as_bytes()) {
            Ok(()) => Ok(tally),
            Err(kind) => Err(RunFault::from(write_fault(kind))),
        },
        Err(fault) => Err(fault),
    }
}

/// Writes a report on a range from a file that is read on demand.
///
/// # Errors
/// As [`run_file_sizes`].
fn run_file_report<'a, A: Counted, F: FileExt + Drop, W: Write>(
    alloc: Global,
    source: FileOnDemand<'a, F>,
    start: u32,
    end: u32,
    writer: &mut Watched<W>,
) -> FileSizes<'a, F>
    ensures { CountsFileSizes (counted_of A.kind source.entry) start end
        W.contents writer.old writer.new result }
{
    match FileSymbolizer::open(alloc, source) {
        Ok(mut symbolizer) => {
            let outcome = write_file_report::<A, F, W>(alloc, &mut symbolizer, start, end, writer);
            let (source, context) = symbolizer.into_parts();
            drop(context);
            FileSizes { outcome, source }
        }
        Err(NotLoaded { fault, source }) => FileSizes {
            outcome: Err(RunFault::from(fault)),
            source,
        },
    }
}

/// Writes the number of the addresses from `start` on and before `end` that each function has in a
/// file that is read on demand, as [`run_sizes`](crate::run_sizes) does. What is said of the file's
/// bytes holds of those that `source` takes the file to have, where they agree with everything that
/// was read.
///
/// # Errors
/// As [`run_sizes`](crate::run_sizes); `File` where the file couldn't be read.
pub fn run_file_sizes<'a, F: FileExt + Drop, W: Write>(
    alloc: Global,
    source: FileOnDemand<'a, F>,
    start: u32,
    end: u32,
    writer: &mut Watched<W>,
) -> FileSizes<'a, F>
    ensures { CountsFileSizes (sizes_of source.entry) start end
        W.contents writer.old writer.new result }
{
    run_file_report::<Function, F, W>(alloc, source, start, end, writer)
}

/// Writes the number of the addresses from `start` on and before `end` that each source file has in
/// a file that is read on demand, as [`run_sizes_by_file`](crate::run_sizes_by_file) does.
///
/// # Errors
/// As [`run_file_sizes`].
pub fn run_file_sizes_by_file<'a, F: FileExt + Drop, W: Write>(
    alloc: Global,
    source: FileOnDemand<'a, F>,
    start: u32,
    end: u32,
    writer: &mut Watched<W>,
) -> FileSizes<'a, F>
    ensures { CountsFileSizes (by_file_of source.entry) start end
        W.contents writer.old writer.new result }
{
    run_file_report::<CountedFile, F, W>(alloc, source, start, end, writer)
}
