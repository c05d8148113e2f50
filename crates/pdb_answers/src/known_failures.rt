//! The parts that fail in functions that were asked for, so that they aren't read again.

ghost use Rattle.std.specs.Prelude.{◌≡◌, ◌↔◌, ℕ, true, Option};
ghost use Rattle.pdb_frames.specs.FailingParts.{unsuccessful_error};
ghost use Rattle.pdb_frames.specs.Choice.{start_of};
ghost use Rattle.pdb_frames.specs.ChosenSeen.{chosen_seen};
ghost use Rattle.pdb_known_modules.specs.KnownModules.{ModuleData};
ghost use Rattle.pdb_answers.specs.KnownFailures.{AreFailuresOf, IsAbout, IsKnownIn};
ghost use Rattle.pdb_answers.specs.KnownFailures.{StayFailuresWith, those_failing, those_like};

use pdb_addresses::PdbInternalSectionOffset;
use pdb_container::SymbolIndex;
use pdb_frames::{Chosen, Part, number_of};
use pdb_resolving::Error;
use std::alloc::{AllocError, Global};
use std::collections::BTreeMap;

/// Returns the error that says that a part stands as failed.
pub(crate) fn unsuccessful(part: Part) -> Error
    ensures { result ≡ unsuccessful_error part }
{
    match part {
        Part::ExtendedModule(_) => Error::ExtendedModuleInfoUnsuccessful,
        Part::ProcedureLines(_, _) => Error::ProcedureLinesUnsuccessful,
        Part::ProcedureInlineRanges(_, _) => Error::ProcedureInlineRangesUnsuccessful,
    }
}

/// The functions of a module of which something is known.
#[derive(Clone, Copy)]
pub(crate) enum Asked {
    /// All functions of the module.
    Module,
    /// The procedure that begins at a place, with the place of its symbol and of the symbol that
    /// ends it.
    Procedure(PdbInternalSectionOffset, SymbolIndex, SymbolIndex),
    /// The public entry of a place.
    Public(PdbInternalSectionOffset),
}

impl Asked {
    /// Returns the functions like a chosen one.
    fn like(chosen: Chosen<'_, '_>) -> Asked
        ensures { result ≡ those_like (chosen_seen chosen.entry) }
    {
        match chosen {
            Chosen::Procedure(_, procedure) => Asked::Procedure(
                procedure.offset,
                procedure.symbol_index,
                procedure.end_symbol_index,
            ),
            Chosen::Public(start, _) => Asked::Public(start),
        }
    }

    /// Returns the functions in which a part fails that fails in a chosen one.
    fn failing(chosen: Chosen<'_, '_>, part: Part) -> Asked
        ensures { result ≡ those_failing (chosen_seen chosen.entry) part }
    {
        match part {
            Part::ExtendedModule(_) => Asked::Module,
            _ => Asked::like(chosen),
        }
    }

    /// Whether a chosen function is one of these.
    fn is_about(self, chosen: Chosen<'_, '_>) -> bool
        ensures { (result ≡ true) ↔ IsAbout self (chosen_seen chosen.entry) }
    {
        match (self, chosen) {
            (Asked::Module, _) => true,
            (Asked::Procedure(start, symbol, end), Chosen::Procedure(_, procedure)) => {
                procedure.offset == start
                    && procedure.symbol_index == symbol
                    && procedure.end_symbol_index == end
            }
            (Asked::Public(start), Chosen::Public(place, _)) => place == start,
            _ => false,
        }
    }
}

/// A part of the module with that index that can't be read, and the functions in whose frames it is
/// the first such part.
#[derive(Clone, Copy)]
pub(crate) struct KnownFailure {
    module_index: u16,
    asked: Asked,
    part: Part,
}

/// The failures known of functions that were asked for and whose frames can't be read.
#[derive(Drop)]
pub struct KnownFailures {
    /// Each failure under the number of a place in its module, or under the number of the module.
    by_number: BTreeMap<u64, KnownFailure>,
}

/// Returns the number under which a failure of functions of a module is stored. No clause says
/// which number it is: the failure that is stored there says itself what it is about.
fn number_for(module_index: u16, asked: Asked) -> u64 {
    match asked {
        Asked::Module => u64::from(module_index),
        Asked::Procedure(start, _, _) => number_of(module_index, start),
        Asked::Public(start) => number_of(module_index, start),
    }
}

impl KnownFailures {
    /// Returns failures of which none is known yet.
    pub fn new(alloc: Global) -> KnownFailures
        ensures { (own : ℕ → Option ModuleData) → AreFailuresOf own result }
    {
        KnownFailures {
            by_number: BTreeMap::new(alloc),
        }
    }

    /// Returns the part that fails in a chosen function of a module, if a failure under a number
    /// says so.
    #[tactic(auto, using(crate::proofs::KnownSteps::known_part))]
    fn under(&self, number: u64, module_index: u16, chosen: Chosen<'_, '_>) -> Option<Part>
        ensures { IsKnownIn self.now module_index (chosen_seen chosen.entry) result }
    {
        match self.by_number.get(&number) {
            Some(known) if known.module_index == module_index && known.asked.is_about(chosen) => {
                Some(known.part)
            }
            _ => None,
        }
    }

    /// Returns the first part that can't be read, of the parts from which the frames in a chosen
    /// function of a module are made, if it is known.
    pub(crate) fn part(&self, module_index: u16, chosen: Chosen<'_, '_>) -> Option<Part>
        ensures { IsKnownIn self.now module_index (chosen_seen chosen.entry) result }
    {
        let of_module = number_for(module_index, Asked::Module);
        if let Some(part) = self.under(of_module, module_index, chosen) {
            return Some(part);
        }
        let of_function = number_for(module_index, Asked::like(chosen));
        self.under(of_function, module_index, chosen)
    }

    /// Stores the first part that can't be read, of the parts from which the frames in a chosen
    /// function of a module are made.
    ///
    /// # Errors
    /// [`AllocError`] where memory is refused; then what is known stays as it was.
    #[tactic(auto, using(crate::proofs::KnownSteps::known_now, crate::proofs::KnownSteps::known_before))]
    pub(crate) fn keep_first_failing(
        &mut self,
        module_index: u16,
        chosen: Chosen<'_, '_>,
        part: Part,
    ) -> Result<(), AllocError>
        ensures { StayFailuresWith module_index (chosen_seen chosen.entry) part self.old self.new }
    {
        let asked = Asked::failing(chosen, part);
        let known = KnownFailure {
            module_index,
            asked,
            part,
        };
        self.by_number
            .insert(number_for(module_index, asked), known)?;
        Ok(())
    }
}
