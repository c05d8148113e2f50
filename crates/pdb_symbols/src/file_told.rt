//! The addresses of a file that is read on demand, with what is told of them.

ghost use Rattle.std.specs.Prelude.{◌≡◌, ◌+◌, ◌-◌, ◌^◌, ◌≤◌, IfOk, IfSome, OnErr, OnOk, min};
ghost use Rattle.pdb_addr2line.specs.FileAnswers.{IsKnown, with_context};
ghost use Rattle.pdb_file_views.specs.Views.{Grows};
ghost use Rattle.pdb_owners.specs.Databases.{place_of};
ghost use Rattle.pdb_symbol_files.specs.PlainAnswers.{IsPlainTold};
ghost use Rattle.pdb_symbols.specs.Lookups.{EndsAtBound, is_bound_by, rise};
ghost use Rattle.pdb_symbols.specs.Told.{TellsPlaces, told_place_by};

use crate::told_places::told_at_place;
use pdb_addr2line::{Error, FileSymbolizer, TRIES};
use pdb_addresses::{PdbInternalSectionOffset, Rva};
use pdb_symbol_files::{ToldFault, ToldRun, ToldRuns};
use std::alloc::Global;
use std::io::ErrorKind;
use std::os::unix::fs::FileExt;

/// The fault of a failed read; out of memory has one name.
fn read_fault(kind: ErrorKind) -> ToldFault {
    match kind {
        ErrorKind::OutOfMemory => ToldFault::OutOfMemory,
        kind => ToldFault::File(kind),
    }
}

/// Returns what is told of a place from what was read of a file, and the number of places from
/// there on of which it is told. The context's lookups for it are added to `lookups`.
///
/// # Errors
/// `OutOfMemory` alone, also where something has to be read first.
fn told_held<F: Drop>(
    alloc: Global,
    symbolizer: &mut FileSymbolizer<'_, F>,
    lookups: &mut u64,
    inlines: bool,
    place: PdbInternalSectionOffset,
    limit: u32,
) -> Result<ToldRun, Error>
    requires { 1 ≤ limit }
    ensures kept { symbolizer.new ≡ with_context symbolizer.old symbolizer.new.context }
    ensures some { IfOk result (λ run. 1 ≤ run.count) }
    ensures within { IfOk result (λ run. run.count ≤ limit) }
    ensures told { IsKnown symbolizer.old
        → IfOk result (TellsPlaces (told_place_by inlines symbolizer.old) (place_of place)) }
    ensures plain { IfOk result (λ run. IfSome run.told IsPlainTold) }
    ensures ends { IsKnown symbolizer.old
        → IfOk result (EndsAtBound (is_bound_by symbolizer.old) (place_of place) limit) }
    ensures counted { OnOk result (lookups.new ≡ min
        (lookups.old + rise symbolizer.old.context symbolizer.new.context) (2 ^ 64 - 1)) }
    ensures lookups { OnOk result (lookups.new ≤ lookups.old + 2) }
    ensures uncounted { OnErr result (lookups.new ≡ lookups.old) }
{
    let Some(mut context) = symbolizer.take_context() else {
        return Err(Error::OutOfMemory);
    };
    let run = told_at_place(alloc, &mut context, lookups, inlines, place, limit);
    symbolizer.put_context(context);
    run
}

/// Returns what is told of a place, and the number of places from there on of which it is told.
/// Missing parts of the file are read. The lookups of the last time, when nothing was missing, are
/// added to `lookups`.
///
/// # Errors
/// `File` where the file couldn't be read; `OutOfMemory`.
fn told_read<F: FileExt + Drop>(
    alloc: Global,
    symbolizer: &mut FileSymbolizer<'_, F>,
    lookups: &mut u64,
    inlines: bool,
    place: PdbInternalSectionOffset,
    limit: u32,
) -> Result<ToldRun, ToldFault>
    requires { 1 ≤ limit }
    ensures contents { symbolizer.new.contents ≡ symbolizer.old.contents }
    ensures order { symbolizer.new.order ≡ symbolizer.old.order }
    ensures flags { symbolizer.new.flags ≡ symbolizer.old.flags }
    ensures held { symbolizer.new.held ≡ symbolizer.old.held }
    ensures grows { Grows symbolizer.old.views symbolizer.new.views }
    ensures some { IfOk result (λ run. 1 ≤ run.count) }
    ensures within { IfOk result (λ run. run.count ≤ limit) }
    ensures told { IsKnown symbolizer.new
        → IfOk result (TellsPlaces (told_place_by inlines symbolizer.old) (place_of place)) }
    ensures plain { IfOk result (λ run. IfSome run.told IsPlainTold) }
    ensures ends { IsKnown symbolizer.new
        → IfOk result (EndsAtBound (is_bound_by symbolizer.old) (place_of place) limit) }
    ensures lookups { OnOk result (lookups.new ≤ lookups.old + 2) }
{
    for _ in 0..TRIES {
        match told_held(alloc, symbolizer, lookups, inlines, place, limit) {
            Ok(run) => return Ok(run),
            Err(_) => {}
        }
        match symbolizer.go_on(alloc) {
            Ok(true) => {}
            Ok(false) => break,
            Err(kind) => return Err(read_fault(kind)),
        }
    }
    Err(ToldFault::OutOfMemory)
}

/// A value that tells of the addresses of a file that is read on demand.
pub struct FileTold<'a, F: Drop> {
    /// The file.
    pub symbolizer: FileSymbolizer<'a, F>,
    /// Whether inlined calls are told.
    pub inlines: bool,
    /// The number of the context's lookups of places, for what was told: where something was
    /// missing, lookups before it was read aren't counted. At `u64::MAX` the count stays.
    pub lookups: u64,
}

impl<'a, F: FileExt + Drop> ToldRuns for FileTold<'a, F> {
    ghost use Rattle.pdb_addr2line.specs.FileAnswers.{IsKnown};
    ghost use Rattle.pdb_symbols.specs.Lookups.{begins_of};
    ghost use Rattle.pdb_symbols.specs.Told.{told_named};
    ghost use Rattle.pdb_symbols_modules.specs.Streams.{streams};

    ghost known = { λ t. IsKnown t.symbolizer };

    ghost told = { λ t. told_named t.inlines t.symbolizer.flags t.symbolizer.order
        (streams t.symbolizer.contents) };

    ghost file = { λ t. t.symbolizer.contents };

    ghost begins = { λ t. begins_of t.symbolizer };

    ghost lookups = { λ t. t.lookups };

    fn prepare(&mut self, _addresses: u64) {
        self.symbolizer.ask_all();
    }

    fn told_run(&mut self, alloc: Global, address: u32, end: u32) -> Result<ToldRun, ToldFault> {
        let map = self.symbolizer.address_map();
        let (place, count) = map.place_run(Rva(address), Rva(end));
        let place = match place {
            None => return Ok(ToldRun { told: None, count }),
            Some(place) => place,
        };
        let inlines = self.inlines;
        let (symbolizer, lookups) = (&mut self.symbolizer, &mut self.lookups);
        told_read(alloc, symbolizer, lookups, inlines, place, count)
    }
}
