//! Files at places: a key of the file at a place, how far it goes on, and the file of a key.

ghost use Rattle.std.specs.Prelude.{◌≡◌, ◌≤◌, IfOk, Ok, Some};
ghost use Rattle.std.specs.Prelude.{option_and_then, option_copied};
ghost use Rattle.pdb_answers.specs.FileOrNothing.{file_or_nothing};
ghost use Rattle.pdb_answers.specs.PlaceAnswers.{GivesKey, IsRunOf, RunsFile, RunsFileGiven};
ghost use Rattle.pdb_answers.specs.PlaceAnswers.{StayFailuresOf, StayFailuresOver, file_on};
ghost use Rattle.pdb_answers.specs.PlaceAnswers.{file_run_held, files_in};
ghost use Rattle.pdb_frames.specs.Choice.{start_address};
ghost use Rattle.pdb_frames.specs.FileRuns.{run_if_addressed as addressed_run};
ghost use Rattle.pdb_frames.specs.Files.{file_by, if_any};
ghost use Rattle.pdb_frames.specs.ChosenSeen.{chosen_seen};
ghost use Rattle.pdb_owners.specs.FileAnswers.{file_seen};
ghost use Rattle.pdb_resolving.specs.Fault.{Answers};

use crate::known_failures::KnownFailures;
use crate::symbolizer::PlaceSymbolizer;
use pdb_addresses::PdbInternalSectionOffset;
use pdb_container::StringRef;
use pdb_contributions::ModuleSectionContribution;
use pdb_frames::{
    Chosen, ContextParts, Stretch, choose, failing_in, file_named, file_run_in, to_next_bound,
    to_next_shared_bound,
};
use pdb_known_modules::{BasicModuleInfo, known_at};
use pdb_owners::{CountedFile, FileAnswer, FileKey};
use pdb_resolving::{Error, ModuleProvider, ModuleTables, Result};
use std::alloc::{AllocError, Global};

/// Returns a run in a chosen function, by the key of its file and its length; nothing up to the
/// next bound where the function's start has no RVA.
fn run_if_addressed(
    parts: &ContextParts<'_, '_>,
    chosen: Chosen<'_, '_>,
    run: (FileKey, u32),
    far: u32,
) -> (Option<FileKey>, u32)
    ensures { result ≡ addressed_run (start_address parts.now (chosen_seen chosen.entry)) far run }
{
    match chosen.start_rva(parts) {
        None => (None, far),
        Some(_) => (Some(run.0), run.1),
    }
}

/// Stores the first part of a chosen function that can't be read, if there is one.
pub(crate) fn keep_failure<I: ModuleTables>(
    alloc: Global,
    known_failures: &mut KnownFailures,
    module_index: u16,
    known: Option<&BasicModuleInfo<'_, I>>,
    chosen: Chosen<'_, '_>,
) -> std::result::Result<(), AllocError>
    ensures { StayFailuresOf module_index (option_copied known.entry) known_failures.old
        known_failures.new }
{
    match failing_in(alloc, module_index, known, chosen)? {
        None => Ok(()),
        Some(part) => known_failures.keep_first_failing(module_index, chosen, part),
    }
}

/// Returns the run at a place in a chosen function, whose parts are read where they aren't cached.
/// The part that can't be read, if there is one, is stored for functions like this one.
fn read_run<I: ModuleTables>(
    alloc: Global,
    parts: &ContextParts<'_, '_>,
    known_failures: &mut KnownFailures,
    known: Option<&BasicModuleInfo<'_, I>>,
    chosen: Chosen<'_, '_>,
    stretch: Stretch,
) -> std::result::Result<(Option<FileKey>, u32), AllocError>
    ensures known { StayFailuresOver stretch (option_copied known.entry) known_failures.old
        known_failures.new }
    ensures run { RunsFile parts.now (option_copied known.entry) (chosen_seen chosen.entry) stretch
        result }
{
    match file_run_in(alloc, known, chosen, stretch) {
        Ok(run) => Ok(run_if_addressed(parts, chosen, run, stretch.far)),
        Err(Error::OutOfMemory) => Err(AllocError),
        Err(_) => {
            keep_failure(alloc, known_failures, stretch.module_index, known, chosen)?;
            Ok((Some(FileKey::Unreadable), stretch.far))
        }
    }
}

/// Returns the run at a place in a chosen function. Nothing is read where a part of the function is
/// known to be unreadable.
#[tactic(auto, using(crate::proofs::FileRunFaults::known_unreadable))]
fn run_unless_known<I: ModuleTables>(
    alloc: Global,
    parts: &ContextParts<'_, '_>,
    known_failures: &mut KnownFailures,
    known: Option<&BasicModuleInfo<'_, I>>,
    chosen: Chosen<'_, '_>,
    stretch: Stretch,
) -> std::result::Result<(Option<FileKey>, u32), AllocError>
    ensures known { StayFailuresOver stretch (option_copied known.entry) known_failures.old
        known_failures.new }
    ensures run { RunsFileGiven parts.now known_failures.old (option_copied known.entry)
        chosen.entry stretch result }
{
    match known_failures.part(stretch.module_index, chosen) {
        Some(_) => Ok((Some(FileKey::Unreadable), stretch.far)),
        None => read_run(alloc, parts, known_failures, known, chosen, stretch),
    }
}

impl<'a, 's, P: ModuleProvider> PlaceSymbolizer<'a, 's, P> {
    /// Returns the run at a place that a contribution holds, by the key of its file and its length.
    #[tactic(auto, unfolding(crate::specs::KnownFailures::data_of_modules))]
    fn file_key_run_at(
        &mut self,
        alloc: Global,
        contribution: ModuleSectionContribution,
        place: PdbInternalSectionOffset,
        limit: u32,
    ) -> std::result::Result<(Option<FileKey>, u32), AllocError>
        ensures same { self.new ≡ self.old }
        ensures run { IfOk result
            (λ run. run ≡ file_run_held P.provided self.old contribution place limit) }
    {
        let number = self.data.keep_place(
            alloc,
            &self.namer,
            &self.known_failures,
            contribution,
            place,
        )?;
        let data = &self.data;
        let module_index = contribution.module_index();
        let known = known_at(&data.cached, usize::from(module_index));
        let far = to_next_bound(&data.parts, known, place, limit);
        let Some(chosen) = choose(&data.parts, known, number, contribution, place) else {
            return Ok((None, far));
        };
        let stretch = Stretch {
            module_index,
            place,
            far,
        };
        run_unless_known(
            alloc,
            &data.parts,
            &mut self.known_failures,
            known,
            chosen,
            stretch,
        )
    }

    /// Returns a key of the file at a place, and the number of bytes from there on that have this
    /// file: the lesser of `limit` and the distance to the next bound of functions or, where there
    /// are frames, to the next line row of the place's function. No name is made, and nothing is
    /// counted as failed.
    ///
    /// # Errors
    /// `OutOfMemory` alone.
    pub fn file_key_run(
        &mut self,
        alloc: Global,
        place: PdbInternalSectionOffset,
        limit: u32,
    ) -> Result<(Option<FileKey>, u32)>
        requires { 1 ≤ limit }
        ensures same { self.new ≡ self.old }
        ensures file { GivesKey (file_by self.old.parts)
            (if_any (file_on P.provided self.old place)) result }
        ensures count { IsRunOf (files_in P.provided self.old) place limit result }
    {
        match self.data.parts.holding_contribution(place) {
            None => Ok((None, to_next_shared_bound(&self.data.parts, place, limit))),
            Some(contribution) => {
                let found = self.file_key_run_at(alloc, contribution, place, limit)?;
                Ok(found)
            }
        }
    }

    /// Returns the file that a key stands for.
    ///
    /// # Errors
    /// `OutOfMemory` alone.
    pub fn file_by_key(&self, alloc: Global, key: &FileKey) -> Result<Option<CountedFile>>
        ensures { Answers (λ file. file) result (Ok (file_by self.now.parts key.now)) }
    {
        let answer = match key {
            FileKey::Unreadable => FileAnswer::Unreadable,
            FileKey::NoFile => FileAnswer::NoFile,
            FileKey::Name(offset) => file_named(alloc, &self.data.parts, StringRef(*offset))?,
        };
        Ok(Some(CountedFile { answer }))
    }

    /// Returns the file that a key stands for, and nothing where there is no key.
    fn file_of_key(&self, alloc: Global, key: Option<FileKey>) -> Result<FileAnswer>
        ensures { Answers file_seen result
            (Ok (file_or_nothing (option_and_then (file_by self.now.parts) key))) }
    {
        let Some(key) = key else {
            return Ok(FileAnswer::Nothing);
        };
        match self.file_by_key(alloc, &key)? {
            Some(file) => Ok(file.answer),
            None => Ok(FileAnswer::Nothing),
        }
    }

    /// Returns the file at a place, and the number of bytes from there on that have this file, as
    /// [`PlaceSymbolizer::file_key_run`] counts them.
    ///
    /// # Errors
    /// `OutOfMemory` alone.
    #[tactic(auto, using(crate::proofs::FileSteps::nothing_or_file))]
    pub fn file_run(
        &mut self,
        alloc: Global,
        place: PdbInternalSectionOffset,
        limit: u32,
    ) -> Result<(FileAnswer, u32)>
        requires { 1 ≤ limit }
        ensures same { self.new ≡ self.old }
        ensures file { Answers (λ run. file_seen run.0) result
            (Ok (file_on P.provided self.old place)) }
        ensures count { IsRunOf (files_in P.provided self.old) place limit result }
    {
        let (key, count) = self.file_key_run(alloc, place, limit)?;
        let file = self.file_of_key(alloc, key)?;
        Ok((file, count))
    }
}
