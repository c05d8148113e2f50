//! The columns of lines.

use pdb_addr2line::pdb::{Error, FallibleIterator, LineProgram, Module, PdbInternalSectionOffset};
use pdb_addr2line::{Held, KeptModules, ModuleProvider};
use pdb_llvm_protocol::{column_for, has_columns};
use std::alloc::{AllocError, Global};
use std::collections::BTreeMap;

/// The columns of a file's lines. A module's are read when they are first asked for.
#[derive(Drop)]
pub struct Columns<'a> {
    held: &'a Held,
    /// The lines of modules by their numbers; `None` where they have no columns.
    programs: BTreeMap<usize, Option<LineProgram<'a>>>,
}

/// Keeps what was read of a module, by its number.
fn keep<T: Drop>(
    kept: &mut BTreeMap<usize, T>,
    number: usize,
    read: Result<T, AllocError>,
) -> Result<(), AllocError> {
    kept.insert(number, read?)?;
    Ok(())
}

impl<'a> Columns<'a> {
    /// The columns of a file's lines, of which none is read.
    pub fn new(alloc: Global, held: &'a Held) -> Columns<'a> {
        Columns {
            held,
            programs: BTreeMap::new(alloc),
        }
    }

    /// The module with that number in the list of modules, if it is there.
    fn module(&self, number: usize) -> Option<Module<'a>> {
        let mut modules = self.held.debug_information().modules();
        for _ in 0..number {
            if !matches!(modules.next(), Ok(Some(_))) {
                return None;
            }
        }
        modules.next().unwrap_or(None)
    }

    /// The lines of a module, if they have columns and can be read.
    fn read_program(
        &self,
        alloc: Global,
        modules: &'a KeptModules<'static>,
        number: usize,
    ) -> Result<Option<LineProgram<'a>>, AllocError> {
        let Some(module) = self.module(number) else {
            return Ok(None);
        };
        let info = match modules.get_module_info(number, &module) {
            Ok(Some(info)) => info,
            Err(Error::OutOfMemory) => return Err(AllocError),
            Ok(None) | Err(_) => return Ok(None),
        };
        match info.line_program(alloc) {
            Ok(program) if has_columns(&program) => Ok(Some(program)),
            Err(Error::OutOfMemory) => Err(AllocError),
            Ok(_) | Err(_) => Ok(None),
        }
    }

    /// The column of an offset in the function of a module that begins at a place, 0 where it
    /// isn't known. `modules` are those of the file.
    ///
    /// # Errors
    /// Where memory ran out, or where something has to be read first.
    pub fn column_at(
        &mut self,
        alloc: Global,
        modules: &'a KeptModules<'static>,
        number: usize,
        start: PdbInternalSectionOffset,
        offset: u32,
    ) -> Result<u32, AllocError> {
        if !self.programs.contains_key(&number) {
            let program = self.read_program(alloc, modules, number);
            keep(&mut self.programs, number, program)?;
        }
        let Some(Some(program)) = self.programs.get(&number) else {
            return Ok(0);
        };
        match column_for(program, start, offset) {
            Ok(Some(column)) => Ok(column),
            Ok(None) | Err(_) => Ok(0),
        }
    }
}
