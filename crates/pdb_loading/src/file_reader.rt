//! An open file whose modules' streams are read through a shared reference.

ghost use Rattle.std.specs.Prelude.{◌≡◌, None, Ok};
ghost use Rattle.pdb_container.specs.Fault.{Gives};
ghost use Rattle.pdb_loading.specs.FileModules.{kept_by, module_by, parts_of as parts_in};
ghost use Rattle.pdb_loading.specs.StreamReads.{AnswersBy};
ghost use Rattle.pdb_symbols_modules.specs.Streams.{streams};

use crate::module_infos::{KeptInfo, keep};
use pdb_container::{Result, Source};
use pdb_file_views::{FileLimits, FileSource};
use pdb_symbols_modules::{Module, ModuleInfo, PDB, StreamIndex};
use std::alloc::Global;
use std::marker::Model;
use std::sync::Mutex;

/// The numbers of a module's entry by which the module is read: its own stream, and the sizes of
/// the stream's parts in bytes.
#[derive(Clone, Copy, Debug)]
pub struct ModuleParts {
    pub(crate) stream: u16,
    pub(crate) symbols_size: u32,
    pub(crate) c11_lines_size: u32,
    pub(crate) c13_lines_size: u32,
}

impl ModuleParts {
    /// The numbers of a module.
    pub fn of(entry: &Module<'_>) -> ModuleParts
        ensures { result ≡ parts_in entry.now }
    {
        ModuleParts {
            stream: entry.stream().0,
            symbols_size: entry.symbols_size(),
            c11_lines_size: entry.c11_lines_size(),
            c13_lines_size: entry.c13_lines_size(),
        }
    }
}

/// An open file whose modules' streams are read through a shared reference. Its value in contracts
/// is the file's bytes.
#[derive(Drop)]
pub struct FileReader<'s> {
    alloc: Global,
    pdb: PDB<'s, FileSource>,
    /// The numbers of bytes that might be copied and listed when the reader was made.
    whole: FileLimits,
    /// The numbers of bytes that may still be copied and listed.
    left: Mutex<FileLimits>,
}

impl<'s> Model for FileReader<'s> {
    ghost use Rattle.std.specs.Prelude.{◌≡◌, ℕ, List, None};
    ghost use Rattle.pdb_symbols_modules.specs.Streams.{streams};

    ghost Value = { List ℕ };

    ghost view = { λ r. r.pdb };

    ghost invariant = { λ r. (streams r.pdb).open_fault ≡ None };
}

impl<'s> FileReader<'s> {
    /// A reader of a file that is open.
    pub fn new(alloc: Global, pdb: PDB<'s, FileSource>) -> FileReader<'s>
        requires { (streams pdb).open_fault ≡ None }
        ensures { result ≡ pdb.entry }
    {
        let whole = pdb.source().limits();
        FileReader {
            alloc,
            pdb,
            whole,
            left: Mutex::new(whole),
        }
    }

    /// The file's bytes.
    pub fn source(&self) -> &FileSource
        ensures { result.now ≡ self.now }
    {
        self.pdb.source()
    }

    /// A module's own stream, or the fault in reading it. `OutOfMemory` alone, and then nothing is
    /// counted. Where another thread reads at that time, the module is read within the limits as
    /// they stood at first, and isn't counted.
    pub fn read(&self, parts: ModuleParts) -> Result<KeptInfo<'s>>
        ensures { Gives (λ k. k) ⊥ result (Ok (kept_by self.now parts)) }
    {
        match self.left.try_lock() {
            Some(mut left) => self.read_within(&mut left, parts),
            None => {
                let mut left = self.whole;
                self.read_within(&mut left, parts)
            }
        }
    }

    /// A module's own stream, or the fault in reading it, within these limits. `OutOfMemory` alone,
    /// and then the limits stay as they are.
    #[tactic(auto, using(crate::proofs::FileSteps::info_given, crate::proofs::FileSteps::info_read, crate::proofs::OpenFiles::module_fails))]
    fn read_within(&self, left: &mut FileLimits, parts: ModuleParts) -> Result<KeptInfo<'s>>
        ensures { Gives (λ k. k) ⊥ result (Ok (kept_by self.now parts)) }
    {
        let mut source = self.pdb.source().share(*left)?;
        let kept = match read_parts(&self.pdb, self.alloc, &mut source, parts) {
            Ok(info) => Ok(info),
            Err(error) => keep(error)?,
        };
        *left = source.limits();
        Ok(kept)
    }
}

/// The module information of a module, whose bytes are views of another source of the database.
#[tactic(auto, using(pdb_container::proofs::Outside::outside_alone), unfolding(pdb_symbols_modules::specs::DatabaseCalls::module_info, pdb_symbols_modules::specs::Shared::info_in))]
fn read_parts<'s, S: Source + Drop, T: Source>(
    pdb: &PDB<'s, S>,
    alloc: Global,
    source: &mut T,
    parts: ModuleParts,
) -> Result<Option<ModuleInfo<'s>>>
    requires { T.bytes source.old ≡ S.bytes pdb.now }
    ensures { AnswersBy T.bytes T.failures source.old source.new (λ m. m) result
        (module_by parts) }
{
    match pdb.raw_stream_from(source, alloc, StreamIndex(parts.stream))? {
        None => Ok(None),
        Some(stream) => Ok(Some(ModuleInfo::new(
            alloc,
            stream,
            parts.symbols_size,
            parts.c11_lines_size,
            parts.c13_lines_size,
        )?)),
    }
}
