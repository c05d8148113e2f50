//! The distance over which the frames at a place in a chosen function go on.

ghost use Rattle.std.specs.Prelude.{◌≡◌, ◌++◌, IfOk, Ok, option_copied};
ghost use Rattle.pdb_frames.specs.ChosenSeen.{chosen_seen};
ghost use Rattle.pdb_frames.specs.Choice as choice;
ghost use Rattle.pdb_frames.specs.FrameRuns.{cuts_in};
ghost use Rattle.pdb_frames.specs.RunsSeen.{IsNextCut, ReachesByPublicRows, ReachesByRows};
ghost use Rattle.pdb_frames.specs.RunsSeen.{ReachesIn, ReachesInData};
ghost use Rattle.pdb_known_modules.specs.KnownModules.{extended_of};
ghost use Rattle.pdb_known_modules.specs.Seen.{extended_seen};
ghost use Rattle.pdb_module_data.specs.FunctionLine.{row_starts};
ghost use Rattle.pdb_module_data.specs.InlinePieces.{cuts_of};

use crate::choice::Chosen;
use crate::file_runs::Stretch;
use pdb_addresses::PdbInternalSectionOffset;
use pdb_known_modules::{
    BasicModuleInfo, ExtendedModuleInfo, read_extended, read_extended_procedure,
};
use pdb_module_data::{FunctionRows, InlineRanges, Procedure};
use pdb_resolving::{Error, ModuleTables, Result};
use std::alloc::{AllocError, Global};

/// Returns the distance over which the line row and the inlined calls at a place in a procedure
/// stay, from the procedure's rows and sites.
#[tactic(auto, using(crate::proofs::FrameRunSteps::next_of_both))]
fn procedure_count_by(stretch: Stretch, rows: &FunctionRows, ranges: &InlineRanges<'_>) -> u32
    ensures { IsNextCut (row_starts rows.now ++ cuts_of ranges.now.rows) stretch result }
{
    let offset = stretch.place.offset;
    rows.to_next_start(offset, ranges.to_next_cut(offset, stretch.far))
}

/// Returns the distance over which the frames at a place in a procedure go on, from its module's
/// line program and inlinees. Cached rows and sites of the procedure are not read again.
#[tactic(auto, using(pdb_resolving::proofs::Lifting::fails_on))]
fn procedure_count<'m, I: ModuleTables>(
    alloc: Global,
    known: &BasicModuleInfo<'m, I>,
    extended: &ExtendedModuleInfo<'m>,
    number: usize,
    procedure: &Procedure<'_>,
    stretch: Stretch,
) -> Result<u32>
    requires { extended_of known.now.stream ≡ Ok (extended_seen extended.now) }
    ensures { ReachesByRows known.now extended.now (choice.Proc procedure.now) stretch result }
{
    if let Some(read) = known.extended_procedure(number, procedure) {
        return Ok(procedure_count_by(stretch, read.rows, read.ranges));
    }
    let read = read_extended_procedure(alloc, known.module_info, extended, procedure)?;
    Ok(procedure_count_by(stretch, &read.rows, &read.ranges))
}

/// Returns the distance over which the frames at a place in the function of a public entry go on,
/// from its module's line program. Cached rows of the function are not read again.
#[tactic(auto, using(crate::proofs::FrameRunSteps::count_fails))]
fn public_count<'m, I: ModuleTables>(
    alloc: Global,
    known: &BasicModuleInfo<'m, I>,
    extended: &ExtendedModuleInfo<'m>,
    start: PdbInternalSectionOffset,
    stretch: Stretch,
) -> Result<u32>
    requires { extended_of known.now.stream ≡ Ok (extended_seen extended.now) }
    ensures { ReachesByPublicRows extended.now start stretch result }
{
    let offset = stretch.place.offset;
    if let Some(rows) = known.public_rows(start) {
        return Ok(rows.to_next_start(offset, stretch.far));
    }
    let rows = FunctionRows::read(alloc, &extended.line_program, start)?;
    Ok(rows.to_next_start(offset, stretch.far))
}

/// Returns the distance over which the frames at a place in a chosen function go on, from its
/// module's line program and inlinees.
fn chosen_count<'m, I: ModuleTables>(
    alloc: Global,
    known: &BasicModuleInfo<'m, I>,
    extended: &ExtendedModuleInfo<'m>,
    chosen: Chosen<'_, '_>,
    stretch: Stretch,
) -> Result<u32>
    requires { extended_of known.now.stream ≡ Ok (extended_seen extended.now) }
    ensures { ReachesByRows known.now extended.now (chosen_seen chosen.entry) stretch result }
{
    match chosen {
        Chosen::Procedure(number, procedure) => {
            procedure_count(alloc, known, extended, number, procedure, stretch)
        }
        Chosen::Public(start, _) => public_count(alloc, known, extended, start, stretch),
    }
}

/// Returns the distance over which the frames at a place in a chosen function go on, from its
/// module's data. A cached line program is not read again.
#[tactic(auto, using(crate::proofs::FrameRunSteps::count_fails), unfolding(crate::specs::FrameRuns::cuts_in_stream))]
fn data_count<'m, I: ModuleTables>(
    alloc: Global,
    known: &BasicModuleInfo<'m, I>,
    chosen: Chosen<'_, '_>,
    stretch: Stretch,
) -> Result<u32>
    ensures { ReachesInData known.now (chosen_seen chosen.entry) stretch result }
{
    if let Some(extended) = known.extended() {
        return chosen_count(alloc, known, extended, chosen, stretch);
    }
    let extended = read_extended(alloc, known.module_info)?;
    chosen_count(alloc, known, &extended, chosen, stretch)
}

/// Returns the distance over which the frames at a place in a chosen function go on: up to the next
/// start of a line row, or the next start or end of a row of one of the function's inline sites; or
/// the whole stretch where that is shorter.
fn count_of_frames<I: ModuleTables>(
    alloc: Global,
    known: Option<&BasicModuleInfo<'_, I>>,
    chosen: Chosen<'_, '_>,
    stretch: Stretch,
) -> Result<u32>
    ensures { ReachesIn (option_copied known.entry) (chosen_seen chosen.entry) stretch result }
{
    match known {
        None => Ok(stretch.far),
        Some(known) => data_count(alloc, known, chosen, stretch),
    }
}

/// Returns the distance over which the frames at a place in a chosen function go on: up to the next
/// start of a line row, or the next start or end of a row of one of the function's inline sites; or
/// the whole stretch where that is shorter, or where such rows can't be read.
///
/// # Errors
/// [`AllocError`] where memory is refused.
#[tactic(auto, using(crate::proofs::FrameRunSteps::count_read, crate::proofs::FrameRunSteps::count_unread))]
pub fn frames_count_in<I: ModuleTables>(
    alloc: Global,
    known: Option<&BasicModuleInfo<'_, I>>,
    chosen: Chosen<'_, '_>,
    stretch: Stretch,
) -> std::result::Result<u32, AllocError>
    ensures { IfOk result (IsNextCut
        (cuts_in (option_copied known.entry) (chosen_seen chosen.entry)) stretch) }
{
    match count_of_frames(alloc, known, chosen, stretch) {
        Ok(count) => Ok(count),
        Err(Error::OutOfMemory) => Err(AllocError),
        Err(_) => Ok(stretch.far),
    }
}
