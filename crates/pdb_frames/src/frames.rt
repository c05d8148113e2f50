//! The frames at a place in a chosen function.

ghost use Rattle.std.specs.Prelude.{◌≡◌, Ok, Some, IfOk, option_copied, option_map};
ghost use Rattle.std.specs.Arc.{arc_str_bytes};
ghost use Rattle.std.specs.Cow.{cow_str_bytes};
ghost use Rattle.pdb_container.specs.Fault.{Gives};
ghost use Rattle.pdb_module_data.specs.FunctionLine.{function_row, row_at};
ghost use Rattle.pdb_module_data.specs.InlinePieces.{StandForSites};
ghost use Rattle.pdb_names.specs.Printing.{env_of};
ghost use Rattle.pdb_frames.specs.Choice as choice;
ghost use Rattle.pdb_frames.specs.FramesAt.{frame_row as frame_row_of, call_row as call_row_of};
ghost use Rattle.pdb_frames.specs.FramesAt.{function_frame_row, named_file};
ghost use Rattle.pdb_frames.specs.FramesSeen.{AreOfCalls, ChecksFrames, FindsCalls, FramesIn};
ghost use Rattle.pdb_frames.specs.FramesSeen.{FramesInData, IsCallFrame, IsFunctionFrame};
ghost use Rattle.pdb_frames.specs.FramesSeen.{calls_among, program_of, site_rows};
ghost use Rattle.pdb_known_modules.specs.KnownModules.{extended_of};
ghost use Rattle.pdb_frames.specs.ChosenSeen.{chosen_seen};
ghost use Rattle.pdb_known_modules.specs.Seen.{extended_seen};

use crate::choice::{Chosen, rva_of};
use crate::chosen_name::name_of;
use crate::parts::ContextParts;
use pdb_addresses::PdbInternalSectionOffset;
use pdb_container::FileIndex;
use pdb_known_modules::{
    BasicModuleInfo, ExtendedModuleInfo, read_extended, read_extended_procedure,
};
use pdb_module_data::{
    CodeSpan, FunctionRows, InlineRanges, InlinedCall, LineRow, Procedure, file_name,
};
use pdb_names::Namer;
use pdb_owners::{FrameRow, SharedFrame};
use pdb_resolving::{ModuleProvider, ModuleTables, Result};
use std::alloc::{AllocError, Global};
use std::borrow::CowStr;
use std::sync::ArcStr;

/// The line row of a place in a procedure, and the inlined calls over the place, from the
/// procedure's rows and sites.
fn row_and_calls_by<'a>(
    alloc: Global,
    extended: &ExtendedModuleInfo<'a>,
    procedure: &Procedure<'_>,
    rows: &FunctionRows,
    ranges: &InlineRanges<'a>,
    place: PdbInternalSectionOffset,
) -> std::result::Result<(Option<LineRow>, Vec<InlinedCall>), AllocError>
    requires { StandForSites (site_rows extended.now procedure.now) ranges.now }
    ensures row { IfOk result (λ r. r.0 ≡ row_at rows.now place.offset) }
    ensures calls { IfOk result (λ r. r.1.items
        ≡ calls_among extended.now procedure.now ranges.now.sites place) }
{
    let calls = ranges.calls_over(alloc, &extended.inlinees, procedure.offset, place)?;
    Ok((rows.at(place.offset), calls))
}

/// The line row of a place in a procedure, and the inlined calls over the place, innermost first,
/// from its module's line program and inlinees. What is cached of the procedure is used, or else it
/// is read.
#[tactic(auto, using(crate::proofs::ProcedureSteps::row_and_calls_are, crate::proofs::ProcedureSteps::row_and_calls_fail))]
fn procedure_row_and_calls<'m, I: ModuleTables>(
    alloc: Global,
    known: &BasicModuleInfo<'m, I>,
    extended: &ExtendedModuleInfo<'m>,
    number: usize,
    procedure: &Procedure<'_>,
    place: PdbInternalSectionOffset,
) -> Result<(Option<LineRow>, Vec<InlinedCall>)>
    requires { extended_of (known.now).stream ≡ Ok (extended_seen extended.now) }
    ensures { FindsCalls known.now extended.now (choice.Proc procedure.now) place result }
{
    if let Some(read) = known.extended_procedure(number, procedure) {
        let found = row_and_calls_by(alloc, extended, procedure, read.rows, read.ranges, place)?;
        return Ok(found);
    }
    let read = read_extended_procedure(alloc, known.module_info, extended, procedure)?;
    let found = row_and_calls_by(alloc, extended, procedure, &read.rows, &read.ranges, place)?;
    Ok(found)
}

/// The line row of a place in the function that begins at another place, from its module's line
/// program. The cached rows of the function are used, or else they are read.
fn public_row<'m, I: ModuleTables>(
    alloc: Global,
    known: &BasicModuleInfo<'m, I>,
    extended: &ExtendedModuleInfo<'m>,
    start: PdbInternalSectionOffset,
    place: PdbInternalSectionOffset,
) -> pdb_container::Result<Option<LineRow>>
    requires { extended_of (known.now).stream ≡ Ok (extended_seen extended.now) }
    ensures { Gives (λ r. r) ⊥ result
        (function_row (extended_seen extended.now).program start place) }
{
    if let Some(rows) = known.public_rows(start) {
        return Ok(rows.at(place.offset));
    }
    let rows = FunctionRows::read(alloc, &extended.line_program, start)?;
    Ok(rows.at(place.offset))
}

/// The line row of a place in a chosen function, and the inlined calls over the place, innermost
/// first; none in a public entry.
#[tactic(auto, using(pdb_resolving::proofs::Lifting::given_fails_on), unfolding(crate::specs::FramesAt::row_and_calls))]
fn row_and_calls_in<'m, I: ModuleTables>(
    alloc: Global,
    known: &BasicModuleInfo<'m, I>,
    extended: &ExtendedModuleInfo<'m>,
    chosen: Chosen<'_, '_>,
    place: PdbInternalSectionOffset,
) -> Result<(Option<LineRow>, Vec<InlinedCall>)>
    requires { extended_of (known.now).stream ≡ Ok (extended_seen extended.now) }
    ensures { FindsCalls known.now extended.now (chosen_seen chosen.entry) place result }
{
    match chosen {
        Chosen::Procedure(number, procedure) => {
            procedure_row_and_calls(alloc, known, extended, number, procedure, place)
        }
        Chosen::Public(start, _) => {
            let row = public_row(alloc, known, extended, start, place)?;
            Ok((row, Vec::new(alloc)))
        }
    }
}

/// The name of a source file that may be known.
fn file_of<'a>(
    alloc: Global,
    parts: &ContextParts<'a, '_>,
    extended: &ExtendedModuleInfo<'_>,
    file: Option<FileIndex>,
) -> std::result::Result<Option<CowStr<'a>>, AllocError>
    ensures { IfOk result (λ n. option_map cow_str_bytes n
        ≡ named_file parts.now (program_of extended.now) file) }
{
    match file {
        None => Ok(None),
        Some(index) => file_name(alloc, &extended.line_program, &parts.names, index),
    }
}

/// The row whose code begins at a place, if the place has an RVA.
fn frame_row(
    parts: &ContextParts<'_, '_>,
    place: PdbInternalSectionOffset,
    length: Option<u32>,
) -> Option<FrameRow>
    ensures { result ≡ frame_row_of parts.now place length }
{
    match rva_of(parts, place) {
        None => None,
        Some(start_rva) => Some(FrameRow { start_rva, length }),
    }
}

/// The row of an inlined call, if the call has code at the place and that code's start has an RVA.
fn call_row(parts: &ContextParts<'_, '_>, code: Option<CodeSpan>) -> Option<FrameRow>
    ensures { result ≡ call_row_of parts.now code }
{
    match code {
        None => None,
        Some(code) => frame_row(parts, code.offset, Some(code.length)),
    }
}

/// The row of a function that begins in a section, if the row's start has an RVA.
fn function_row_in(parts: &ContextParts<'_, '_>, section: u16, row: LineRow) -> Option<FrameRow>
    ensures { result ≡ function_frame_row parts.now section (Some row) }
{
    let start = PdbInternalSectionOffset {
        offset: row.start,
        section,
    };
    frame_row(parts, start, row.length)
}

/// The frame of an inlined call.
fn call_frame<'a, P: ModuleProvider>(
    alloc: Global,
    parts: &ContextParts<'a, '_>,
    namer: &mut Namer<'_, '_, P>,
    module_index: u16,
    extended: &ExtendedModuleInfo<'_>,
    call: InlinedCall,
) -> std::result::Result<SharedFrame<'a>, AllocError>
    ensures same { namer.new ≡ namer.old }
    ensures frame { IfOk result (IsCallFrame parts.now (env_of P.provided namer.old module_index)
        extended.now call) }
{
    let function = namer.inlined_name(alloc, module_index, call.inlinee)?;
    let file = file_of(alloc, parts, extended, call.file)?;
    Ok(SharedFrame {
        function,
        file,
        line: call.line,
        row: call_row(parts, call.row),
    })
}

/// The frames of inlined calls, in their order.
fn call_frames<'a, P: ModuleProvider>(
    alloc: Global,
    parts: &ContextParts<'a, '_>,
    namer: &mut Namer<'_, '_, P>,
    module_index: u16,
    extended: &ExtendedModuleInfo<'_>,
    calls: &[InlinedCall],
) -> std::result::Result<Vec<SharedFrame<'a>>, AllocError>
    ensures same { namer.new ≡ namer.old }
    ensures frames { IfOk result (AreOfCalls parts.now (env_of P.provided namer.old module_index)
        extended.now calls.now) }
{
    let mut frames = Vec::with_capacity(alloc, calls.len() + 1)?;
    for call in calls {
        let frame = call_frame(alloc, parts, namer, module_index, extended, *call)?;
        frames.push(frame)?;
    }
    Ok(frames)
}

/// The frame of a function that begins in a section, from its name and its line row.
fn function_frame<'a>(
    alloc: Global,
    parts: &ContextParts<'a, '_>,
    extended: &ExtendedModuleInfo<'_>,
    function: Option<ArcStr>,
    section: u16,
    row: Option<LineRow>,
) -> std::result::Result<SharedFrame<'a>, AllocError>
    ensures { IfOk result (IsFunctionFrame parts.now extended.now
        (option_map arc_str_bytes function) section row) }
{
    match row {
        None => Ok(SharedFrame {
            function,
            file: None,
            line: None,
            row: None,
        }),
        Some(row) => {
            let file = file_of(alloc, parts, extended, Some(row.file_index))?;
            Ok(SharedFrame {
                function,
                file,
                line: Some(row.line_start),
                row: function_row_in(parts, section, row),
            })
        }
    }
}

/// A place in a chosen function, and the index of the function's module.
#[derive(Clone, Copy)]
pub struct PlaceInFunction<'c, 'a> {
    /// The index of the module that holds the place.
    pub module_index: u16,
    /// The function that is chosen there.
    pub chosen: Chosen<'c, 'a>,
    /// The place.
    pub place: PdbInternalSectionOffset,
}

/// The frames at a place in a chosen function, from its module's line program and inlinees: the
/// rows of the function's subsection and a procedure's sites are read in this order, and the first
/// fault is returned.
#[tactic(auto, using(pdb_resolving::proofs::Lifting::given_fails_on, pdb_resolving::proofs::Lifting::parsed_fails_on, pdb_resolving::proofs::Lifting::fails_on), unfolding(crate::specs::FramesAt::frames_in_data))]
fn frames_by<'a, 'm, P: ModuleProvider>(
    alloc: Global,
    parts: &ContextParts<'a, '_>,
    namer: &mut Namer<'a, '_, P>,
    known: &BasicModuleInfo<'m, P::Info>,
    extended: &ExtendedModuleInfo<'m>,
    at: PlaceInFunction<'_, 'a>,
) -> Result<Vec<SharedFrame<'a>>>
    requires extended { extended_of (known.now).stream ≡ Ok (extended_seen extended.now) }
    ensures same { namer.new ≡ namer.old }
    ensures frames { FramesInData parts.now (env_of P.provided namer.old) known.now at.entry
        result }
{
    let PlaceInFunction {
        module_index,
        chosen,
        place,
    } = at;
    let (row, calls) = row_and_calls_in(alloc, known, extended, chosen, place)?;
    let mut frames = call_frames(
        alloc,
        parts,
        namer,
        module_index,
        extended,
        calls.as_slice(),
    )?;
    let function = name_of(alloc, parts, namer, module_index, chosen)?;
    let section = chosen.start().section;
    let frame = function_frame(alloc, parts, extended, function, section, row)?;
    frames.push(frame)?;
    Ok(frames)
}

/// The frames at a place in a chosen function, from its module's data: line program and inlinees
/// are the cached ones, or else are read first, and their first fault is returned.
#[tactic(auto, using(pdb_resolving::proofs::Lifting::given_fails_on), unfolding(crate::specs::FramesAt::frames_in_data))]
fn frames_in_data<'a, P: ModuleProvider>(
    alloc: Global,
    parts: &ContextParts<'a, '_>,
    namer: &mut Namer<'a, '_, P>,
    known: &BasicModuleInfo<'_, P::Info>,
    at: PlaceInFunction<'_, 'a>,
) -> Result<Vec<SharedFrame<'a>>>
    ensures same { namer.new ≡ namer.old }
    ensures frames { FramesInData parts.now (env_of P.provided namer.old) known.now at.entry
        result }
{
    let Some(extended) = known.extended() else {
        let extended = read_extended(alloc, known.module_info)?;
        return frames_by(alloc, parts, namer, known, &extended, at);
    };
    frames_by(alloc, parts, namer, known, extended, at)
}

/// The frames at a place in a chosen function whose module may have no data: without data the
/// function alone, without file, line and row.
///
/// # Errors
/// The first fault of the module's parts from which the frames are made; `OutOfMemory`.
pub fn frames_in<'a, P: ModuleProvider>(
    alloc: Global,
    parts: &ContextParts<'a, '_>,
    namer: &mut Namer<'a, '_, P>,
    known: Option<&BasicModuleInfo<'_, P::Info>>,
    at: PlaceInFunction<'_, 'a>,
) -> Result<Vec<SharedFrame<'a>>>
    ensures same { namer.new ≡ namer.old }
    ensures frames { FramesIn parts.now (env_of P.provided namer.old) (option_copied known.entry)
        at.entry result }
{
    match known {
        None => {
            let function = name_of(alloc, parts, namer, at.module_index, at.chosen)?;
            let mut frames = Vec::new(alloc);
            frames.push(SharedFrame {
                function,
                file: None,
                line: None,
                row: None,
            })?;
            Ok(frames)
        }
        Some(known) => frames_in_data(alloc, parts, namer, known, at),
    }
}

/// Reads the parts from which the frames at a place in a chosen function are made, as [`frames_in`]
/// does, and makes no frames.
///
/// # Errors
/// The errors of [`frames_in`].
#[tactic(auto, using(pdb_resolving::proofs::Lifting::given_fails_on, pdb_resolving::proofs::Lifting::fails_on), unfolding(crate::specs::FramesAt::frames_in_data))]
pub fn check_frames<I: ModuleTables>(
    alloc: Global,
    known: Option<&BasicModuleInfo<'_, I>>,
    chosen: Chosen<'_, '_>,
    place: PdbInternalSectionOffset,
) -> Result<()>
    ensures { ChecksFrames (option_copied known.entry) (chosen_seen chosen.entry) place result }
{
    let Some(known) = known else {
        return Ok(());
    };
    match known.extended() {
        Some(extended) => row_and_calls_in(alloc, known, extended, chosen, place)?,
        None => {
            let extended = read_extended(alloc, known.module_info)?;
            row_and_calls_in(alloc, known, &extended, chosen, place)?
        }
    };
    Ok(())
}
