//! Frames at places.

ghost use Rattle.std.specs.Prelude.{◌≡◌, IfSome, Some};
ghost use Rattle.pdb_answers.specs.PlaceAnswers.{StayFailuresAt, failed_held, failing_found};
ghost use Rattle.pdb_answers.specs.PlaceAnswers.{failing_on, found_seen, frames_found};
ghost use Rattle.pdb_answers.specs.PlaceAnswers.{told_found, told_held, told_on};
ghost use Rattle.pdb_answers.specs.Symbolizers.{lasting};
ghost use Rattle.pdb_frames.specs.FailingParts.{failed_after};
ghost use Rattle.pdb_resolving.specs.Fault.{Answers};

use crate::known_failures::{KnownFailures, unsuccessful};
use crate::symbolizer::PlaceSymbolizer;
use pdb_addresses::PdbInternalSectionOffset;
use pdb_contributions::ModuleSectionContribution;
use pdb_frames::{
    Chosen, ContextParts, Failures, Namer, Part, PlaceInFunction, check_frames, choose, failing_in,
    frames_in,
};
use pdb_known_modules::{BasicModuleInfo, known_at};
use pdb_owners::SharedFunctionFrames;
use pdb_resolving::{Error, ModuleProvider, ModuleTables, Result};
use std::alloc::Global;

/// A place in a chosen function, with the data of its module, and the first of the function's parts
/// that can't be read, where this part is known.
#[derive(Drop)]
pub(crate) struct ChosenPlace<'c, 'a, I: ModuleTables> {
    pub(crate) module_index: u16,
    pub(crate) known: Option<&'c BasicModuleInfo<'a, I>>,
    pub(crate) chosen: Chosen<'c, 'a>,
    pub(crate) failing: Option<Part>,
    pub(crate) place: PdbInternalSectionOffset,
}

/// Returns the frames at a place in a chosen function, if the function has an RVA. Where it has
/// none, its module's data are read all the same, but no frame is made.
pub(crate) fn chosen_frames<'a, P: ModuleProvider>(
    alloc: Global,
    parts: &ContextParts<'a, '_>,
    namer: &mut Namer<'a, '_, P>,
    found: &ChosenPlace<'_, 'a, P::Info>,
) -> Result<Option<SharedFunctionFrames<'a>>>
    ensures same { namer.new ≡ namer.old }
    ensures frames { Answers (λ f. f) result
        (frames_found P.provided namer.old parts.now (found_seen found.now)) }
{
    let ChosenPlace {
        module_index,
        known,
        chosen,
        failing: _,
        place,
    } = *found;
    let Some(start_rva) = chosen.start_rva(parts) else {
        check_frames(alloc, known, chosen, place)?;
        return Ok(None);
    };
    let at = PlaceInFunction {
        module_index,
        chosen,
        place,
    };
    let frames = frames_in(alloc, parts, namer, known, at)?;
    Ok(Some(SharedFunctionFrames {
        start_rva,
        end_rva: chosen.end_of_frames(parts, start_rva),
        frames,
    }))
}

/// Returns the frames at a place in a chosen function, if the function has an RVA. The part that
/// can't be read, if there is one, stands as failed from then on: where it did before, this is
/// reported. It is known from then on for the functions like the chosen one.
#[tactic(auto, using(crate::proofs::FailedSteps::told_own, crate::proofs::FailedSteps::told_alone))]
fn frames_told<'a, P: ModuleProvider>(
    alloc: Global,
    parts: &ContextParts<'a, '_>,
    namer: &mut Namer<'a, '_, P>,
    failed: &mut Failures,
    known_failures: &mut KnownFailures,
    found: &ChosenPlace<'_, 'a, P::Info>,
) -> Result<Option<SharedFunctionFrames<'a>>>
    ensures same { namer.new ≡ namer.old }
    ensures failed { failed.new
        ≡ failed_after (failing_found (found_seen found.now)) result failed.old }
    ensures known { StayFailuresAt (found_seen found.now) known_failures.old known_failures.new }
    ensures frames { Answers (λ f. f) result
        (told_found P.provided namer.old parts.now failed.old found.now) }
{
    let frames = chosen_frames(alloc, parts, namer, found);
    match frames {
        Ok(frames) => Ok(frames),
        Err(Error::OutOfMemory) => Err(Error::OutOfMemory),
        Err(fault) => match failing_in(alloc, found.module_index, found.known, found.chosen)? {
            None => Err(fault),
            Some(part) => {
                let stood = failed.has(part);
                known_failures.keep_first_failing(found.module_index, found.chosen, part)?;
                failed.keep(part)?;
                if stood {
                    return Err(unsuccessful(part));
                }
                Err(fault)
            }
        },
    }
}

/// Returns the frames at a place in a chosen function, as [`frames_told`] does. Where a part is
/// known as the first that can't be read, and stands as failed, nothing is read.
#[tactic(auto, using(crate::proofs::FaultSteps::told_standing, crate::proofs::FaultSteps::after_standing))]
fn frames_unless_known<'a, P: ModuleProvider>(
    alloc: Global,
    parts: &ContextParts<'a, '_>,
    namer: &mut Namer<'a, '_, P>,
    failed: &mut Failures,
    known_failures: &mut KnownFailures,
    found: &ChosenPlace<'_, 'a, P::Info>,
) -> Result<Option<SharedFunctionFrames<'a>>>
    requires { IfSome found.now.failing
        (λ part. failing_found (found_seen found.now) ≡ Some part) }
    ensures same { namer.new ≡ namer.old }
    ensures failed { failed.new
        ≡ failed_after (failing_found (found_seen found.now)) result failed.old }
    ensures known { StayFailuresAt (found_seen found.now) known_failures.old known_failures.new }
    ensures frames { Answers (λ f. f) result
        (told_found P.provided namer.old parts.now failed.old found.now) }
{
    match found.failing {
        Some(part) if failed.has(part) => {
            failed.keep(part)?;
            Err(unsuccessful(part))
        }
        _ => frames_told(alloc, parts, namer, failed, known_failures, found),
    }
}

impl<'a, 's, P: ModuleProvider> PlaceSymbolizer<'a, 's, P> {
    /// Returns the frames at a place that a contribution holds.
    #[tactic(auto, unfolding(pdb_frames::specs::FramesAt::frames_at, crate::specs::KnownFailures::data_of_modules))]
    fn frames_at(
        &mut self,
        alloc: Global,
        contribution: ModuleSectionContribution,
        place: PdbInternalSectionOffset,
    ) -> Result<Option<SharedFunctionFrames<'a>>>
        ensures same { lasting self.new ≡ lasting self.old }
        ensures failed { self.new.failed
            ≡ failed_held P.provided self.old contribution place result }
        ensures frames { Answers (λ f. f) result
            (told_held P.provided self.old contribution place) }
    {
        let number = self.data.keep_place(
            alloc,
            &self.namer,
            &self.known_failures,
            contribution,
            place,
        )?;
        let data = &self.data;
        let module_index = contribution.module_index();
        let known = known_at(&data.cached, usize::from(module_index));
        let Some(chosen) = choose(&data.parts, known, number, contribution, place) else {
            return Ok(None);
        };
        let found = ChosenPlace {
            module_index,
            known,
            chosen,
            failing: self.known_failures.part(module_index, chosen),
            place,
        };
        frames_unless_known(
            alloc,
            &data.parts,
            &mut self.namer,
            &mut self.failed,
            &mut self.known_failures,
            &found,
        )
    }

    /// Returns the frames at a place: the inlined calls over it, innermost first, and then the
    /// function. `None` where there is no function.
    ///
    /// # Errors
    /// The first fault of the module's parts from which the frames are made, or that this part
    /// stands as failed; `OutOfMemory`.
    pub fn frames(
        &mut self,
        alloc: Global,
        place: PdbInternalSectionOffset,
    ) -> Result<Option<SharedFunctionFrames<'a>>>
        ensures same { lasting self.new ≡ lasting self.old }
        ensures failed { self.new.failed
            ≡ failed_after (failing_on P.provided self.old place) result self.old.failed }
        ensures frames { Answers (λ f. f) result (told_on P.provided self.old place) }
    {
        match self.data.parts.holding_contribution(place) {
            None => Ok(None),
            Some(contribution) => self.frames_at(alloc, contribution, place),
        }
    }
}
