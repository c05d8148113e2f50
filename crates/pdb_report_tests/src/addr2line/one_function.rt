//! A database with one function.

ghost use Rattle.std.specs.Prelude.{◌≡◌, ◌≤◌, IfOk};
ghost use Rattle.pdb_owners.specs.Databases.{IsOneRun, place_of};
ghost use Rattle.pdb_report_tests.specs.OneFunction.{one_function};

use pdb_addresses::PdbInternalSectionOffset;
use pdb_owners::{Function, Runs};
use std::alloc::{AllocError, Global};

/// The function f at offsets 0x10 to 0x30 of section 1, the number of places that were looked up,
/// and how often an answer was made of a key.
#[derive(Drop)]
pub(crate) struct OneFunction {
    pub(crate) lookups: u64,
    pub(crate) answered: u64,
}

impl Runs for OneFunction {
    ghost use Rattle.pdb_report_tests.specs.OneFunction.{keyed_function};

    type Key = Function;

    type Found = Function;

    ghost keyed = { λ _. keyed_function };

    ghost lookups = { λ s. s.lookups };

    ghost answered = { λ s. s.answered };

    fn run_at(
        &mut self,
        alloc: Global,
        place: PdbInternalSectionOffset,
        limit: u32,
    ) -> Result<(Option<Function>, u32), AllocError> {
        let answer = function_at(alloc, place)?;
        let count = run_at(place, limit);
        self.lookups = self.lookups.saturating_add(1);
        Ok((answer, count))
    }

    fn answer_of(&mut self, alloc: Global, key: &Function) -> Result<Option<Function>, AllocError> {
        let function = key.try_clone(alloc)?;
        self.answered = self.answered.saturating_add(1);
        Ok(Some(function))
    }
}

/// Returns the function at a place.
fn function_at(
    alloc: Global,
    place: PdbInternalSectionOffset,
) -> Result<Option<Function>, AllocError>
    ensures { IfOk result (λ f. f ≡ one_function.answer (place_of place)) }
{
    if place.section == 1 && (16 <= place.offset && place.offset < 48) {
        let name = String::from_str(alloc, "f")?;
        Ok(Some(Function {
            start_rva: 0x1010,
            end_rva: Some(0x1030),
            name: Some(name),
        }))
    } else {
        Ok(None)
    }
}

/// Returns the distance over which the answer at a place goes on.
#[tactic(auto, using(crate::proofs::addr2line::OneFunctionSteps::elsewhere, crate::proofs::addr2line::OneFunctionSteps::past, crate::proofs::addr2line::OneFunctionSteps::before, crate::proofs::addr2line::OneFunctionSteps::inside))]
fn run_at(place: PdbInternalSectionOffset, limit: u32) -> u32
    requires { 1 ≤ limit }
    ensures { IsOneRun one_function (place_of place) limit result }
{
    if place.section != 1 || 48 <= place.offset {
        return limit;
    }
    if place.offset < 16 {
        return limit.min(16 - place.offset);
    }
    limit.min(48 - place.offset)
}
