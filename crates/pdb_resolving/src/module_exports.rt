//! The exports of a module, by its own indices.

ghost use Rattle.std.specs.Prelude.{◌≡◌, IfOk};
ghost use Rattle.pdb_subsections.specs.Exports.{first_export};
ghost use Rattle.pdb_resolving.specs.KeptTables.{AreFirst, entry_of};

use pdb_container::Local;
use pdb_symbols_modules::{CrossModuleExport, CrossModuleExports};
use std::alloc::{AllocError, Global};
use std::collections::BTreeMap;
use std::marker::Model;

/// The exports of a module, and the first of each index as the module names it.
#[derive(Drop)]
pub struct ModuleExports<'a> {
    exports: CrossModuleExports<'a>,
    /// Under each index as the module names it, the index in the database's table by the first
    /// export of it.
    firsts: BTreeMap<u32, u32>,
}

impl<'a> Model for ModuleExports<'a> {
    ghost use Rattle.std.specs.Prelude.{List};
    ghost use Rattle.pdb_subsections.specs.Exports.{Entry};
    ghost use Rattle.pdb_resolving.specs.KeptTables.{AreFirst};

    ghost Value = { List Entry };

    ghost view = { λ m. m.exports };

    ghost invariant = { λ m. AreFirst m.exports m.firsts };
}

impl<'a> ModuleExports<'a> {
    /// The exports of a module. They are gone over once.
    ///
    /// # Errors
    /// `AllocError` when memory runs out.
    pub fn read(
        alloc: Global,
        exports: CrossModuleExports<'a>,
    ) -> Result<ModuleExports<'a>, AllocError>
        ensures { IfOk result (λ m. m ≡ exports.entry) }
    {
        let firsts = first_exports(alloc, &exports)?;
        Ok(ModuleExports { exports, firsts })
    }

    /// The index in the database's table by the first export of an index as the module names it.
    pub fn first(&self, local: u32) -> Option<u32>
        ensures { result ≡ first_export self.now local }
    {
        self.firsts.get(&local).copied()
    }
}

/// Under each index as the module names it, the index in the database's table by the first of these
/// exports of it.
fn first_exports(
    alloc: Global,
    exports: &CrossModuleExports<'_>,
) -> Result<BTreeMap<u32, u32>, AllocError>
    ensures { IfOk result (λ firsts. AreFirst exports.now firsts) }
{
    let mut firsts = BTreeMap::new(alloc);
    for export in exports.exports() {
        let (local, global) = indices(export);
        firsts.entry(local)?.or_insert(global);
    }
    Ok(firsts)
}

/// An export's index as the module names it, and its index in the database's table.
fn indices(export: CrossModuleExport) -> (u32, u32)
    ensures { result ≡ ((entry_of export).local, (entry_of export).global) }
{
    match export {
        CrossModuleExport::OfType(Local(local), global) => (local.0, global.0),
        CrossModuleExport::Id(Local(local), global) => (local.0, global.0),
    }
}
