//! The frames at a place, and how far they go on.

ghost use Rattle.std.specs.Prelude.{◌≡◌, ◌≤◌, true, IfOk, Ok};
ghost use Rattle.pdb_addr2line.specs.Context.{lookups_after, uncounted};
ghost use Rattle.pdb_addr2line.specs.ContextAnswers.{AnswersAlike, IsRunOf, frames_in, frames_on};
ghost use Rattle.pdb_resolving.specs.Fault.{Answers};

use crate::context::Context;
use pdb_addresses::PdbInternalSectionOffset;
use pdb_owners::{FunctionFrames, SharedFunctionFrames};
use pdb_resolving::{ModuleProvider, Result};
use std::alloc::Global;

/// Returns a run of frames that was found, with names of their own.
fn owned_run<'a>(
    alloc: Global,
    run: Result<(Option<SharedFunctionFrames<'a>>, u32)>,
) -> Result<(Option<FunctionFrames<'a>>, u32)>
    ensures frames { AnswersAlike (λ run. run.0) run.entry result }
    ensures same { IfOk result (λ owned. run.entry ≡ Ok owned) }
{
    let (frames, count) = run?;
    match frames {
        None => Ok((None, count)),
        Some(frames) => {
            let frames = frames.to_frames(alloc)?;
            Ok((Some(frames), count))
        }
    }
}

impl<'a, 's, P: ModuleProvider> Context<'a, 's, P> {
    /// Returns the frames at a place, and the number of bytes from there on over which they are the
    /// same, the rows of frames among them. There are none where there is no function, and none
    /// where the frames can't be read. The number of bytes is the lesser of `limit`, which is at
    /// least 1, and the distance to the next bound. Bounds are the places at which the function may
    /// change ([`Context::find_function_run`]) and, where there are frames, those at which a line
    /// row of the function begins, or a row of one of its inlined calls begins or ends. What stands
    /// as failed doesn't change.
    ///
    /// # Errors
    /// `OutOfMemory` alone.
    pub fn find_frames_run(
        &mut self,
        alloc: Global,
        offset: PdbInternalSectionOffset,
        limit: u32,
    ) -> Result<(Option<FunctionFrames<'a>>, u32)>
        requires { 1 ≤ limit }
        ensures same { uncounted self.new ≡ uncounted self.old }
        ensures lookups { self.new.lookups ≡ lookups_after true result self.old.lookups }
        ensures frames { Answers (λ run. run.0) result (Ok (frames_on P.provided self.old offset)) }
        ensures count { IsRunOf (frames_in P.provided self.old) offset limit result }
    {
        let run = self.symbolizer.frames_run(alloc, offset, limit);
        let run = owned_run(alloc, run);
        self.counted(run)
    }

    /// Returns the frames at a place, and how far they go on, as [`Context::find_frames_run`] does,
    /// with names that are shared with the context's cache, so that none is copied.
    ///
    /// # Errors
    /// `OutOfMemory` alone.
    pub fn find_shared_frames_run(
        &mut self,
        alloc: Global,
        offset: PdbInternalSectionOffset,
        limit: u32,
    ) -> Result<(Option<SharedFunctionFrames<'a>>, u32)>
        requires { 1 ≤ limit }
        ensures same { uncounted self.new ≡ uncounted self.old }
        ensures lookups { self.new.lookups ≡ lookups_after true result self.old.lookups }
        ensures frames { Answers (λ run. run.0) result (Ok (frames_on P.provided self.old offset)) }
        ensures count { IsRunOf (frames_in P.provided self.old) offset limit result }
    {
        let run = self.symbolizer.frames_run(alloc, offset, limit);
        self.counted(run)
    }
}
