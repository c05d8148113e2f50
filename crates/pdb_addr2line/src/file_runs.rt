//! The file of a place, and how far it goes on.

ghost use Rattle.std.specs.Prelude.{◌≡◌, ◌≤◌, true, Ok};
ghost use Rattle.pdb_answers.specs.PlaceAnswers.{GivesKey};
ghost use Rattle.pdb_frames.specs.Files.{file_by, if_any};
ghost use Rattle.pdb_addr2line.specs.Context.{lookups_after, uncounted};
ghost use Rattle.pdb_addr2line.specs.ContextAnswers.{IsRunOf, file_on, files_in};
ghost use Rattle.pdb_owners.specs.FileAnswers.{file_seen};
ghost use Rattle.pdb_resolving.specs.Fault.{Answers};

use crate::context::Context;
use pdb_addresses::PdbInternalSectionOffset;
use pdb_owners::{CountedFile, FileAnswer, FileKey};
use pdb_resolving::{ModuleProvider, Result};
use std::alloc::Global;

impl<'a, 's, P: ModuleProvider> Context<'a, 's, P> {
    /// Returns the source file of the function at a place, and the number of bytes from there on
    /// over which the file is the same: the lesser of `limit`, which is at least 1, and the
    /// distance to the next bound. Bounds are the places at which the function may change
    /// ([`Context::find_function_run`]) and, where there are frames, those at which a line row of
    /// the function begins. What stands as failed doesn't change.
    ///
    /// # Errors
    /// `OutOfMemory` alone.
    pub fn find_file_run(
        &mut self,
        alloc: Global,
        offset: PdbInternalSectionOffset,
        limit: u32,
    ) -> Result<(FileAnswer, u32)>
        requires { 1 ≤ limit }
        ensures same { uncounted self.new ≡ uncounted self.old }
        ensures lookups { self.new.lookups ≡ lookups_after true result self.old.lookups }
        ensures file { Answers (λ run. file_seen run.0) result
            (Ok (file_on P.provided self.old offset)) }
        ensures count { IsRunOf (files_in P.provided self.old) offset limit result }
    {
        let run = self.symbolizer.file_run(alloc, offset, limit);
        self.counted(run)
    }

    /// Returns a key of the file at a place, if there is a function, and how far it goes on, as
    /// [`Context::find_file_run`] counts it. No name is made.
    ///
    /// # Errors
    /// `OutOfMemory` alone.
    pub fn find_file_key_run(
        &mut self,
        alloc: Global,
        offset: PdbInternalSectionOffset,
        limit: u32,
    ) -> Result<(Option<FileKey>, u32)>
        requires { 1 ≤ limit }
        ensures same { uncounted self.new ≡ uncounted self.old }
        ensures lookups { self.new.lookups ≡ lookups_after true result self.old.lookups }
        ensures file { GivesKey (file_by self.old.parts)
            (if_any (file_on P.provided self.old offset)) result }
        ensures count { IsRunOf (files_in P.provided self.old) offset limit result }
    {
        let run = self.symbolizer.file_key_run(alloc, offset, limit);
        self.counted(run)
    }

    /// Returns the file that a key stands for. It isn't counted as a lookup.
    ///
    /// # Errors
    /// `OutOfMemory` alone.
    pub fn file_by_key(&self, alloc: Global, key: &FileKey) -> Result<Option<CountedFile>>
        ensures { Answers (λ file. file) result (Ok (file_by self.now.parts key.now)) }
    {
        self.symbolizer.file_by_key(alloc, key)
    }
}
