//! The starts and ends of procedures, of all sections in one row.

ghost use Rattle.std.specs.Prelude.{◌≡◌, ◌++◌, OnOk, IfOk};
ghost use Rattle.std.specs.List.{flat_map};
ghost use Rattle.pdb_known_modules.specs.Bounds.{procedure_numbers, AreProcedureBounds};

use pdb_contributions::{SortedBounds, push_bounds};
use pdb_module_data::Procedure;
use std::alloc::{AllocError, Global};

/// Appends the numbers of a procedure's start and end, which may lie past 32 bits.
fn push_procedure(numbers: &mut Vec<u64>, procedure: &Procedure<'_>) -> Result<(), AllocError>
    ensures { OnOk result
        (numbers.new.items ≡ numbers.old.items ++ procedure_numbers procedure.now) }
{
    let start = u64::from(procedure.offset.offset);
    let end = start + u64::from(procedure.len);
    push_bounds(numbers, procedure.offset.section, start, end)
}

/// The numbers of procedures' starts and ends.
#[tactic(auto, using(pdb_contributions::proofs::BoundSteps::numbers_done))]
fn procedure_numbers_of(alloc: Global, procedures: &[Procedure<'_>]) -> Result<Vec<u64>, AllocError>
    ensures { IfOk result (λ v. v.items ≡ flat_map procedure_numbers procedures.now) }
{
    let mut numbers = Vec::with_capacity(alloc, procedures.len().saturating_mul(2))?;
    for procedure in procedures {
        push_procedure(&mut numbers, procedure)?;
    }
    Ok(numbers)
}

/// The starts and ends of procedures.
///
/// # Errors
/// `AllocError` when memory runs out.
pub fn procedure_bounds(
    alloc: Global,
    procedures: &[Procedure<'_>],
) -> Result<SortedBounds, AllocError>
    ensures { IfOk result (λ s. AreProcedureBounds procedures.now s) }
{
    let numbers = procedure_numbers_of(alloc, procedures)?;
    Ok(SortedBounds::new(numbers))
}
