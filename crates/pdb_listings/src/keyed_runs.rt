//! Contexts that are asked for runs of functions and of source files.

use pdb_addr2line::{Context, Function};
use pdb_addresses::PdbInternalSectionOffset;
use pdb_owners::{CountedFile, FileKey, FunctionKey, Runs};
use pdb_resolving::ModuleProvider;
use std::alloc::{AllocError, Global};

/// A context that is asked for runs of functions, and the number of times that a key's function was
/// asked for.
#[derive(Drop)]
pub(crate) struct FunctionRuns<'a, 's, P: ModuleProvider> {
    pub(crate) context: Context<'a, 's, P>,
    pub(crate) answered: u64,
}

impl<'a, 's, P: ModuleProvider> Runs for FunctionRuns<'a, 's, P> {
    ghost use Rattle.pdb_addr2line.specs.ContextAnswers.{keyed_in};

    type Key = FunctionKey;

    type Found = Function;

    ghost keyed = { λ runs. keyed_in P.provided runs.context };

    ghost lookups = { λ runs. runs.context.lookups };

    ghost answered = { λ runs. runs.answered };

    fn run_at(
        &mut self,
        alloc: Global,
        place: PdbInternalSectionOffset,
        limit: u32,
    ) -> Result<(Option<FunctionKey>, u32), AllocError> {
        match self.context.find_key_run(alloc, place, limit) {
            Ok(run) => Ok(run),
            Err(_) => Err(AllocError),
        }
    }

    fn answer_of(
        &mut self,
        alloc: Global,
        key: &FunctionKey,
    ) -> Result<Option<Function>, AllocError> {
        self.answered = self.answered.saturating_add(1);
        match self.context.function_by_key(alloc, key) {
            Ok(function) => Ok(function),
            Err(_) => Err(AllocError),
        }
    }
}

/// A context that is asked for runs of source files, and the number of times that a key's file was
/// asked for.
#[derive(Drop)]
pub(crate) struct FileRuns<'a, 's, P: ModuleProvider> {
    pub(crate) context: Context<'a, 's, P>,
    pub(crate) answered: u64,
}

impl<'a, 's, P: ModuleProvider> Runs for FileRuns<'a, 's, P> {
    ghost use Rattle.pdb_addr2line.specs.ContextAnswers.{files_keyed_in};

    type Key = FileKey;

    type Found = CountedFile;

    ghost keyed = { λ runs. files_keyed_in P.provided runs.context };

    ghost lookups = { λ runs. runs.context.lookups };

    ghost answered = { λ runs. runs.answered };

    fn run_at(
        &mut self,
        alloc: Global,
        place: PdbInternalSectionOffset,
        limit: u32,
    ) -> Result<(Option<FileKey>, u32), AllocError> {
        match self.context.find_file_key_run(alloc, place, limit) {
            Ok(run) => Ok(run),
            Err(_) => Err(AllocError),
        }
    }

    fn answer_of(
        &mut self,
        alloc: Global,
        key: &FileKey,
    ) -> Result<Option<CountedFile>, AllocError> {
        self.answered = self.answered.saturating_add(1);
        match self.context.file_by_key(alloc, key) {
            Ok(file) => Ok(file),
            Err(_) => Err(AllocError),
        }
    }
}
