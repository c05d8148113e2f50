//! The frames at an address or a place, from a file that is read on demand.

ghost use Rattle.std.specs.Prelude.{◌≡◌, ◌≤◌, Err, IfOk, Option, Result as Answer};
ghost use Rattle.pdb_addr2line.specs.FileAnswers.{IsKnown, answer_of_file, frames_of_file};
ghost use Rattle.pdb_addr2line.specs.FileFrames.{FindsFrames, FindsHeldFrames, IsFramesRun};
ghost use Rattle.pdb_addr2line.specs.FileFrames.{found_at};
ghost use Rattle.pdb_file_views.specs.Views.{Grows};
ghost use Rattle.pdb_owners.specs.Frames.{FunctionFrames as Found};
ghost use Rattle.pdb_resolving.specs.Fault.{Fault};

use crate::file_symbolizer::{FileSymbolizer, TRIES};
use pdb_addresses::PdbInternalSectionOffset;
use pdb_owners::{FunctionFrames, SharedFunctionFrames};
use pdb_resolving::Error;
use std::alloc::Global;
use std::io::ErrorKind;
use std::os::unix::fs::FileExt;
use thiserror::Error as ThisError;

/// The reason that the frames at an address aren't found in a file that is read on demand.
#[derive(Debug, Drop, ThisError)]
pub enum FileFramesFault {
    /// A fault that a file in memory has, too.
    #[error("{0}")]
    Context(Error),
    /// The file couldn't be read.
    #[error("File({0:?})")]
    File(ErrorKind),
}

/// The fault for an error in reading a file; out of memory has one name.
fn read_fault(kind: ErrorKind) -> FileFramesFault
    ensures { (answered : Answer (Option Found) Fault) → FindsFrames (Err result) answered }
{
    match kind {
        ErrorKind::OutOfMemory => FileFramesFault::Context(Error::OutOfMemory),
        kind => FileFramesFault::File(kind),
    }
}

impl<'a, F: Drop> FileSymbolizer<'a, F> {
    /// The frames at an RVA from what was read.
    ///
    /// # Errors
    /// As [`Context::find_frames`](crate::Context::find_frames); `OutOfMemory`, too, where
    /// something has to be read first.
    #[tactic(auto, using(crate::proofs::FileSteps::frames_found))]
    fn find_held_frames(
        &mut self,
        alloc: Global,
        probe: u32,
    ) -> Result<Option<FunctionFrames<'a>>, Error>
        ensures contents { self.new.contents ≡ self.old.contents }
        ensures order { self.new.order ≡ self.old.order }
        ensures flags { self.new.flags ≡ self.old.flags }
        ensures held { self.new.held ≡ self.old.held }
        ensures views { self.new.views ≡ self.old.views }
        ensures frames { IsKnown self.new
            → FindsHeldFrames result
            (answer_of_file self.old probe) }
    {
        match &mut self.context {
            Some(context) => context.find_frames(alloc, probe),
            None => Err(Error::OutOfMemory),
        }
    }

    /// The frames at an RVA from what was read, with names that are shared with the context's
    /// cache, so that none is copied. What is missing is read by [`FileSymbolizer::go_on`].
    ///
    /// # Errors
    /// As [`Context::find_shared_frames`](crate::Context::find_shared_frames); `OutOfMemory`, too,
    /// where something has to be read first.
    #[tactic(auto, using(crate::proofs::FileSteps::frames_found))]
    pub fn find_held_shared_frames(
        &mut self,
        alloc: Global,
        probe: u32,
    ) -> Result<Option<SharedFunctionFrames<'a>>, Error>
        ensures contents { self.new.contents ≡ self.old.contents }
        ensures order { self.new.order ≡ self.old.order }
        ensures flags { self.new.flags ≡ self.old.flags }
        ensures held { self.new.held ≡ self.old.held }
        ensures views { self.new.views ≡ self.old.views }
        ensures frames { IsKnown self.new
            → FindsHeldFrames result
            (answer_of_file self.old probe) }
    {
        match &mut self.context {
            Some(context) => context.find_shared_frames(alloc, probe),
            None => Err(Error::OutOfMemory),
        }
    }

    /// The frames at a place from what was read, and how far they go on.
    ///
    /// # Errors
    /// `OutOfMemory` alone, also where something has to be read first.
    #[tactic(auto, using(crate::proofs::FileSteps::run_found, crate::proofs::FileSteps::run_counted))]
    fn find_held_run(
        &mut self,
        alloc: Global,
        place: PdbInternalSectionOffset,
        limit: u32,
    ) -> Result<(Option<FunctionFrames<'a>>, u32), Error>
        requires { 1 ≤ limit }
        ensures contents { self.new.contents ≡ self.old.contents }
        ensures order { self.new.order ≡ self.old.order }
        ensures flags { self.new.flags ≡ self.old.flags }
        ensures held { self.new.held ≡ self.old.held }
        ensures views { self.new.views ≡ self.old.views }
        ensures frames { IsKnown self.new → IfOk result
            (λ run. run.0 ≡ found_at (frames_of_file self.old) place) }
        ensures count { IsKnown self.new → IfOk result
            (λ run. IsFramesRun (frames_of_file self.old) place limit run.1) }
    {
        match &mut self.context {
            Some(context) => context.find_frames_run(alloc, place, limit),
            None => Err(Error::OutOfMemory),
        }
    }
}

impl<'a, F: FileExt + Drop> FileSymbolizer<'a, F> {
    /// The frames at an RVA: the inlined calls over it, innermost first, and then the function.
    /// `None` where there is no function. What is missing of the file is read.
    ///
    /// # Errors
    /// `Context` as [`Context::find_frames`](crate::Context::find_frames); `File` where the file
    /// couldn't be read.
    pub fn find_frames(
        &mut self,
        alloc: Global,
        probe: u32,
    ) -> Result<Option<FunctionFrames<'a>>, FileFramesFault>
        ensures contents { self.new.contents ≡ self.old.contents }
        ensures order { self.new.order ≡ self.old.order }
        ensures flags { self.new.flags ≡ self.old.flags }
        ensures held { self.new.held ≡ self.old.held }
        ensures grows { Grows self.old.views self.new.views }
        ensures frames { IsKnown self.new
            → FindsFrames result
            (answer_of_file self.old probe) }
    {
        for _ in 0..TRIES {
            match self.find_held_frames(alloc, probe) {
                Ok(found) => return Ok(found),
                Err(Error::OutOfMemory) => {}
                Err(error) => return Err(FileFramesFault::Context(error)),
            }
            match self.go_on(alloc) {
                Ok(true) => {}
                Ok(false) => break,
                Err(kind) => return Err(read_fault(kind)),
            }
        }
        Err(FileFramesFault::Context(Error::OutOfMemory))
    }

    /// The frames at a place, and the number of bytes from there on over which they are the same,
    /// the rows of frames among them, as
    /// [`Context::find_frames_run`](crate::Context::find_frames_run) counts them. There are none
    /// where there is no function, and none where the frames can't be read. What is missing of the
    /// file is read.
    ///
    /// # Errors
    /// `Context` with `OutOfMemory`; `File` where the file couldn't be read.
    pub fn find_frames_run(
        &mut self,
        alloc: Global,
        place: PdbInternalSectionOffset,
        limit: u32,
    ) -> Result<(Option<FunctionFrames<'a>>, u32), FileFramesFault>
        requires { 1 ≤ limit }
        ensures contents { self.new.contents ≡ self.old.contents }
        ensures order { self.new.order ≡ self.old.order }
        ensures flags { self.new.flags ≡ self.old.flags }
        ensures held { self.new.held ≡ self.old.held }
        ensures grows { Grows self.old.views self.new.views }
        ensures frames { IsKnown self.new → IfOk result
            (λ run. run.0 ≡ found_at (frames_of_file self.old) place) }
        ensures count { IsKnown self.new → IfOk result
            (λ run. IsFramesRun (frames_of_file self.old) place limit run.1) }
    {
        for _ in 0..TRIES {
            match self.find_held_run(alloc, place, limit) {
                Ok(run) => return Ok(run),
                Err(Error::OutOfMemory) => {}
                Err(error) => return Err(FileFramesFault::Context(error)),
            }
            match self.go_on(alloc) {
                Ok(true) => {}
                Ok(false) => break,
                Err(kind) => return Err(read_fault(kind)),
            }
        }
        Err(FileFramesFault::Context(Error::OutOfMemory))
    }
}
