//! The file at a place in a chosen function, by its key, and how far it goes on.

ghost use Rattle.std.specs.Prelude.{◌≡◌, IfOk, Ok, option_copied};
ghost use Rattle.pdb_frames.specs.ChosenSeen.{chosen_seen};
ghost use Rattle.pdb_frames.specs.Choice as choice;
ghost use Rattle.pdb_frames.specs.Files.{file_named as file_of_name, row_key as key_of_row};
ghost use Rattle.pdb_frames.specs.FileRuns.{run_by_rows};
ghost use Rattle.pdb_frames.specs.RunsSeen.{RunsByPublicRows, RunsByRows, RunsIn, RunsInData};
ghost use Rattle.pdb_owners.specs.FileAnswers.{file_seen};
ghost use Rattle.pdb_known_modules.specs.KnownModules.{extended_of};
ghost use Rattle.pdb_known_modules.specs.Seen.{extended_seen};

use crate::choice::Chosen;
use crate::parts::ContextParts;
use pdb_addresses::PdbInternalSectionOffset;
use pdb_container::StringRef;
use pdb_known_modules::{
    BasicModuleInfo, ExtendedModuleInfo, read_extended, read_extended_procedure,
};
use pdb_lines::LineProgram;
use pdb_module_data::{FunctionRows, LineRow, Procedure};
use pdb_owners::{FileAnswer, FileKey};
use pdb_resolving::{ModuleTables, Result};
use std::alloc::{AllocError, Global};

/// Returns the key of a row's file, from its module's line program. No file is known without a row,
/// or where the file has no entry among the module's checksums.
fn row_key(line_program: &LineProgram<'_>, row: Option<LineRow>) -> FileKey
    ensures { result ≡ key_of_row line_program.now row }
{
    let Some(row) = row else {
        return FileKey::NoFile;
    };
    match line_program.get_file_info(row.file_index) {
        Err(_) => FileKey::NoFile,
        Ok(file) => FileKey::Name(file.name.0),
    }
}

/// A place in a function of a module, and the number of bytes from there on that have this
/// function.
#[derive(Clone, Copy)]
pub struct Stretch {
    /// The module's index, counted from 0.
    pub module_index: u16,
    /// The place.
    pub place: PdbInternalSectionOffset,
    /// The number of bytes.
    pub far: u32,
}

impl Stretch {
    /// Returns the key of the file at the place, and the distance to the next row, or to the end
    /// where this is nearer, from the function's line rows.
    fn run_by_rows(self, line_program: &LineProgram<'_>, rows: &FunctionRows) -> (FileKey, u32)
        ensures { result ≡ run_by_rows line_program.now self.place self.far rows.now }
    {
        let key = row_key(line_program, rows.at(self.place.offset));
        (key, rows.to_next_start(self.place.offset, self.far))
    }
}

/// Returns the key of the file at a place in a procedure, and how far it goes on, from its module's
/// line program and inlinees. Cached rows and sites of the procedure are not read again.
#[tactic(auto, using(pdb_resolving::proofs::Lifting::fails_on))]
fn procedure_run<'m, I: ModuleTables>(
    alloc: Global,
    known: &BasicModuleInfo<'m, I>,
    extended: &ExtendedModuleInfo<'m>,
    number: usize,
    procedure: &Procedure<'_>,
    stretch: Stretch,
) -> Result<(FileKey, u32)>
    requires { extended_of known.now.stream ≡ Ok (extended_seen extended.now) }
    ensures { RunsByRows known.now extended.now (choice.Proc procedure.now) stretch result }
{
    if let Some(read) = known.extended_procedure(number, procedure) {
        return Ok(stretch.run_by_rows(&extended.line_program, read.rows));
    }
    let read = read_extended_procedure(alloc, known.module_info, extended, procedure)?;
    Ok(stretch.run_by_rows(&extended.line_program, &read.rows))
}

/// Returns the key of the file at a place in the function of a public entry, and how far it goes
/// on, from its module's line program. Cached rows of the function are not read again.
#[tactic(auto, using(pdb_resolving::proofs::Lifting::given_fails_on))]
fn public_run<'m, I: ModuleTables>(
    alloc: Global,
    known: &BasicModuleInfo<'m, I>,
    extended: &ExtendedModuleInfo<'m>,
    start: PdbInternalSectionOffset,
    stretch: Stretch,
) -> Result<(FileKey, u32)>
    requires { extended_of known.now.stream ≡ Ok (extended_seen extended.now) }
    ensures { RunsByPublicRows extended.now start stretch result }
{
    if let Some(rows) = known.public_rows(start) {
        return Ok(stretch.run_by_rows(&extended.line_program, rows));
    }
    let rows = FunctionRows::read(alloc, &extended.line_program, start)?;
    Ok(stretch.run_by_rows(&extended.line_program, &rows))
}

/// Returns the key of the file at a place in a chosen function, and how far it goes on, from its
/// module's line program and inlinees.
fn chosen_run<'m, I: ModuleTables>(
    alloc: Global,
    known: &BasicModuleInfo<'m, I>,
    extended: &ExtendedModuleInfo<'m>,
    chosen: Chosen<'_, '_>,
    stretch: Stretch,
) -> Result<(FileKey, u32)>
    requires { extended_of known.now.stream ≡ Ok (extended_seen extended.now) }
    ensures { RunsByRows known.now extended.now (chosen_seen chosen.entry) stretch result }
{
    match chosen {
        Chosen::Procedure(number, procedure) => {
            procedure_run(alloc, known, extended, number, procedure, stretch)
        }
        Chosen::Public(start, _) => public_run(alloc, known, extended, start, stretch),
    }
}

/// Returns the key of the file at a place in a chosen function, and how far it goes on, from its
/// module's data. A cached line program is not read again.
#[tactic(auto, using(pdb_resolving::proofs::Lifting::given_fails_on), unfolding(crate::specs::FileRuns::file_run_in))]
fn data_run<'m, I: ModuleTables>(
    alloc: Global,
    known: &BasicModuleInfo<'m, I>,
    chosen: Chosen<'_, '_>,
    stretch: Stretch,
) -> Result<(FileKey, u32)>
    ensures { RunsInData known.now (chosen_seen chosen.entry) stretch result }
{
    if let Some(extended) = known.extended() {
        return chosen_run(alloc, known, extended, chosen, stretch);
    }
    let extended = read_extended(alloc, known.module_info)?;
    chosen_run(alloc, known, &extended, chosen, stretch)
}

/// Returns the key of the file at a place in a chosen function, and the distance to the next line
/// row, or the whole stretch where that is shorter. No name is made, and no inlined call is looked
/// for. A module without data has no files.
///
/// # Errors
/// The first fault of line program, inlinees, the function's rows and its inline sites, as
/// `PdbError`; `ProcedureInlineRangesUnsuccessful`; `OutOfMemory`.
pub fn file_run_in<I: ModuleTables>(
    alloc: Global,
    known: Option<&BasicModuleInfo<'_, I>>,
    chosen: Chosen<'_, '_>,
    stretch: Stretch,
) -> Result<(FileKey, u32)>
    ensures { RunsIn (option_copied known.entry) (chosen_seen chosen.entry) stretch result }
{
    match known {
        None => Ok((FileKey::NoFile, stretch.far)),
        Some(known) => data_run(alloc, known, chosen, stretch),
    }
}

/// Returns the file whose name is at an offset in the string table; `NoFile` where there is no such
/// name.
///
/// # Errors
/// [`AllocError`] where memory is refused.
pub fn file_named(
    alloc: Global,
    parts: &ContextParts<'_, '_>,
    name: StringRef,
) -> std::result::Result<FileAnswer, AllocError>
    ensures { IfOk result (λ file. file_seen file ≡ file_of_name parts.now name.0) }
{
    match parts.names.text(alloc, name)? {
        None => Ok(FileAnswer::NoFile),
        Some(name) => {
            let name = name.into_owned(alloc)?;
            Ok(FileAnswer::File(name))
        }
    }
}
