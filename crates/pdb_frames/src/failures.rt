//! The parts of modules that can't be read.

ghost use Rattle.std.specs.Prelude.{IfOk, option_copied};
ghost use Rattle.pdb_frames.specs.FailingSeen.{IsFailing, IsFailingInStream, IsFailingProcedure};
ghost use Rattle.pdb_frames.specs.FailingSeen.{IsFailingSites};
ghost use Rattle.pdb_known_modules.specs.KnownModules.{procedure_sites};
ghost use Rattle.pdb_resolving.specs.Fault.{Answers};

use crate::choice::Chosen;
use pdb_known_modules::{BasicModuleInfo, ExtendedModuleInfo, read_extended};
use pdb_module_data::{FunctionRows, InlineSites, Procedure, SitesError};
use pdb_resolving::{Error, ModuleTables, Part, Result};
use std::alloc::{AllocError, Global};

/// Reads the inline sites of a procedure to their end. The faults of [`ModuleTables::symbols`] and
/// of the sites come as `PdbError`; further ones are `ProcedureInlineRangesUnsuccessful` and
/// `OutOfMemory`.
#[tactic(auto, using(pdb_known_modules::proofs::SitesSteps::sites_fail, pdb_resolving::proofs::Lifting::given_fails_on, pdb_resolving::proofs::Lifting::parsed_fails_on))]
fn read_sites<'m, I: ModuleTables>(
    alloc: Global,
    module_info: &'m I,
    procedure: &Procedure<'_>,
) -> Result<InlineSites<'m>>
    ensures { Answers (λ s. s) result (procedure_sites (I.held module_info.now) procedure.now) }
{
    let symbols = module_info.symbols()?;
    match InlineSites::read(alloc, symbols, procedure) {
        Ok(sites) => Ok(sites),
        Err(SitesError::Pdb(error)) => Err(Error::from(error)),
        Err(SitesError::Unsuccessful) => Err(Error::ProcedureInlineRangesUnsuccessful),
    }
}

/// Returns the part of a chosen procedure's sites, if they can't be read.
fn failing_sites<I: ModuleTables>(
    alloc: Global,
    module_info: &I,
    module_index: u16,
    chosen: Chosen<'_, '_>,
) -> std::result::Result<Option<Part>, AllocError>
    ensures { IfOk result (IsFailingSites module_index (I.held module_info.now) chosen.entry) }
{
    let Chosen::Procedure(_, procedure) = chosen else {
        return Ok(None);
    };
    match read_sites(alloc, module_info, procedure) {
        Ok(_) => Ok(None),
        Err(Error::OutOfMemory) => Err(AllocError),
        Err(_) => Ok(Some(Part::ProcedureInlineRanges(module_index, procedure.offset))),
    }
}

/// Returns the first part that can't be read: the rows of a chosen function, or then its sites.
fn failing_procedure<I: ModuleTables>(
    alloc: Global,
    module_info: &I,
    extended: &ExtendedModuleInfo<'_>,
    module_index: u16,
    chosen: Chosen<'_, '_>,
) -> std::result::Result<Option<Part>, AllocError>
    ensures { IfOk result (IsFailingProcedure module_index (I.held module_info.now) extended.now
        chosen.entry) }
{
    let start = chosen.start();
    match FunctionRows::read(alloc, &extended.line_program, start) {
        Ok(_) => failing_sites(alloc, module_info, module_index, chosen),
        Err(pdb_container::Error::OutOfMemory) => Err(AllocError),
        Err(_) => Ok(Some(Part::ProcedureLines(module_index, start))),
    }
}

/// Returns the first part that can't be read: line program with inlinees, the rows of a chosen
/// function, or its sites.
fn failing_module<I: ModuleTables>(
    alloc: Global,
    module_info: &I,
    module_index: u16,
    chosen: Chosen<'_, '_>,
) -> std::result::Result<Option<Part>, AllocError>
    ensures { IfOk result (IsFailingInStream module_index (I.held module_info.now) chosen.entry) }
{
    match read_extended(alloc, module_info) {
        Ok(extended) => failing_procedure(alloc, module_info, &extended, module_index, chosen),
        Err(pdb_container::Error::OutOfMemory) => Err(AllocError),
        Err(_) => Ok(Some(Part::ExtendedModule(module_index))),
    }
}

/// Returns the first part that can't be read of the parts from which the frames in a chosen
/// function are made: line program with inlinees, the function's rows, or a procedure's inline
/// sites. It is `None` where the module has no data. A cached line program isn't read again.
///
/// # Errors
/// `AllocError` when memory runs out.
pub fn failing_in<I: ModuleTables>(
    alloc: Global,
    module_index: u16,
    known: Option<&BasicModuleInfo<'_, I>>,
    chosen: Chosen<'_, '_>,
) -> std::result::Result<Option<Part>, AllocError>
    ensures { IfOk result (IsFailing module_index (option_copied known.entry) chosen.entry) }
{
    let Some(known) = known else {
        return Ok(None);
    };
    match known.extended() {
        None => failing_module(alloc, known.module_info, module_index, chosen),
        Some(extended) => {
            failing_procedure(alloc, known.module_info, extended, module_index, chosen)
        }
    }
}
