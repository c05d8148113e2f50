//! Runs of frames: the frames at a place, and how far they go on.

ghost use Rattle.std.specs.Prelude.{◌≡◌, ◌≤◌, IfOk, IfSome, Ok, Some};
ghost use Rattle.pdb_answers.specs.PlaceAnswers.{IsRunOf, StayFailuresAt, failing_found};
ghost use Rattle.pdb_answers.specs.PlaceAnswers.{found_seen, frames_in, frames_on};
ghost use Rattle.pdb_answers.specs.PlaceAnswers.{frames_run_held, run_found};
ghost use Rattle.pdb_resolving.specs.Fault.{Answers};

use crate::file_runs::keep_failure;
use crate::frames::{ChosenPlace, chosen_frames};
use crate::known_failures::KnownFailures;
use crate::symbolizer::PlaceSymbolizer;
use pdb_addresses::PdbInternalSectionOffset;
use pdb_contributions::ModuleSectionContribution;
use pdb_frames::{
    ContextParts, Namer, Stretch, choose, frames_count_in, to_next_bound, to_next_shared_bound,
};
use pdb_known_modules::known_at;
use pdb_owners::SharedFunctionFrames;
use pdb_resolving::{Error, ModuleProvider, Result};
use std::alloc::{AllocError, Global};

/// Returns the frames at a place in a chosen function, and how far they go on, from parts that are
/// read where they aren't cached. Where a part can't be read there are no frames up to the next
/// bound of functions, and the part is stored for functions like this one.
fn read_run<'a, P: ModuleProvider>(
    alloc: Global,
    parts: &ContextParts<'a, '_>,
    namer: &mut Namer<'a, '_, P>,
    known_failures: &mut KnownFailures,
    found: &ChosenPlace<'_, 'a, P::Info>,
    far: u32,
) -> std::result::Result<(Option<SharedFunctionFrames<'a>>, u32), AllocError>
    ensures same { namer.new ≡ namer.old }
    ensures known { StayFailuresAt (found_seen found.now) known_failures.old known_failures.new }
    ensures run { IfOk result
        (λ run. run ≡ run_found P.provided namer.old parts.now (found_seen found.now) far) }
{
    let stretch = Stretch {
        module_index: found.module_index,
        place: found.place,
        far,
    };
    match chosen_frames(alloc, parts, namer, found) {
        Ok(None) => Ok((None, far)),
        Ok(Some(frames)) => {
            let count = frames_count_in(alloc, found.known, found.chosen, stretch)?;
            Ok((Some(frames), count))
        }
        Err(Error::OutOfMemory) => Err(AllocError),
        Err(_) => {
            keep_failure(
                alloc,
                known_failures,
                found.module_index,
                found.known,
                found.chosen,
            )?;
            Ok((None, far))
        }
    }
}

/// Returns the frames at a place in a chosen function, and how far they go on. Nothing is read
/// where a part of the function is known to be unreadable.
#[tactic(auto, using(crate::proofs::FrameRunSteps::known_unreadable))]
fn run_unless_known<'a, P: ModuleProvider>(
    alloc: Global,
    parts: &ContextParts<'a, '_>,
    namer: &mut Namer<'a, '_, P>,
    known_failures: &mut KnownFailures,
    found: &ChosenPlace<'_, 'a, P::Info>,
    far: u32,
) -> std::result::Result<(Option<SharedFunctionFrames<'a>>, u32), AllocError>
    requires { IfSome found.now.failing
        (λ part. failing_found (found_seen found.now) ≡ Some part) }
    ensures same { namer.new ≡ namer.old }
    ensures known { StayFailuresAt (found_seen found.now) known_failures.old known_failures.new }
    ensures run { IfOk result
        (λ run. run ≡ run_found P.provided namer.old parts.now (found_seen found.now) far) }
{
    match found.failing {
        Some(_) => Ok((None, far)),
        None => read_run(alloc, parts, namer, known_failures, found, far),
    }
}

impl<'a, 's, P: ModuleProvider> PlaceSymbolizer<'a, 's, P> {
    /// Returns the frames at a place that a contribution holds, and how far they go on.
    #[tactic(auto, unfolding(crate::specs::KnownFailures::data_of_modules))]
    fn frames_run_at(
        &mut self,
        alloc: Global,
        contribution: ModuleSectionContribution,
        place: PdbInternalSectionOffset,
        limit: u32,
    ) -> std::result::Result<(Option<SharedFunctionFrames<'a>>, u32), AllocError>
        ensures same { self.new ≡ self.old }
        ensures run { IfOk result
            (λ run. run ≡ frames_run_held P.provided self.old contribution place limit) }
    {
        let number = self.data.keep_place(
            alloc,
            &self.namer,
            &self.known_failures,
            contribution,
            place,
        )?;
        let data = &self.data;
        let module_index = contribution.module_index();
        let known = known_at(&data.cached, usize::from(module_index));
        let far = to_next_bound(&data.parts, known, place, limit);
        let Some(chosen) = choose(&data.parts, known, number, contribution, place) else {
            return Ok((None, far));
        };
        let found = ChosenPlace {
            module_index,
            known,
            chosen,
            failing: self.known_failures.part(module_index, chosen),
            place,
        };
        run_unless_known(
            alloc,
            &data.parts,
            &mut self.namer,
            &mut self.known_failures,
            &found,
            far,
        )
    }

    /// Returns the frames at a place, and the number of bytes from there on that have these frames:
    /// the lesser of `limit` and the distance to the next bound of functions or, where there are
    /// frames, to the next place at which a line row of the function begins, or a row of one of its
    /// inline sites begins or ends. There are no frames where they can't be read. Nothing is
    /// counted as failed.
    ///
    /// # Errors
    /// `OutOfMemory` alone.
    pub fn frames_run(
        &mut self,
        alloc: Global,
        place: PdbInternalSectionOffset,
        limit: u32,
    ) -> Result<(Option<SharedFunctionFrames<'a>>, u32)>
        requires { 1 ≤ limit }
        ensures same { self.new ≡ self.old }
        ensures frames { Answers (λ run. run.0) result (Ok (frames_on P.provided self.old place)) }
        ensures count { IsRunOf (frames_in P.provided self.old) place limit result }
    {
        match self.data.parts.holding_contribution(place) {
            None => Ok((None, to_next_shared_bound(&self.data.parts, place, limit))),
            Some(contribution) => {
                let found = self.frames_run_at(alloc, contribution, place, limit)?;
                Ok(found)
            }
        }
    }
}
