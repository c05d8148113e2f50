//! Indices that lead into another module.

ghost use Rattle.std.specs.Prelude.{◌≡◌, OnErr, OnOk, Some};
ghost use Rattle.std.specs.Option.{option_copied};
ghost use Rattle.pdb_subsections.specs.Imports.{imported as import_by, reference};
ghost use Rattle.pdb_resolving.specs.Cause.{Finds, of_no_table};
ghost use Rattle.pdb_resolving.specs.Fault.{Answers, lifted};
ghost use Rattle.pdb_resolving.specs.KeptTables.{export_of as module_export};
ghost use Rattle.pdb_resolving.specs.KeptTables.{import_of as module_import};
ghost use Rattle.pdb_resolving.specs.KeptTables.{named_at, resolved_by_steps};
ghost use Rattle.pdb_resolving.specs.Resolving.{exported as exported_of};
ghost use Rattle.pdb_resolving.specs.Resolving.{resolve, none_failed_of, modules_by, with_failed};

use crate::error::{Error, Result};
use crate::failed_parts::FailedParts;
use crate::kept_tables::{KeptExports, KeptImports, keep_exports, keep_imports};
use crate::module_exports::ModuleExports;
use crate::module_names::ModuleNames;
use crate::named_modules::NamedModules;
use crate::provider::ModuleProvider;
use crate::stop::{self, Stop};
use crate::table::Table;
use pdb_container::{ItemIndex, Local, StringRef, StringTable, TypeIndex};
use pdb_symbols_modules::{CrossModuleImports, CrossModuleRef, Module, ModuleRef};
use std::alloc::{AllocError, Global};
use std::collections::BTreeMap;
use std::marker::Model;

/// The modules of a database, by which indices that lead from one into another are resolved.
/// Imports, exports and names of modules are read and cached once they are asked for.
#[derive(Drop)]
pub struct Resolver<'a, 's, P: ModuleProvider> {
    provider: &'a P,
    modules: Vec<Module<'a>>,
    string_table: Option<&'a StringTable<'s>>,
    /// The indices of the modules by their names.
    names: ModuleNames,
    /// The modules that names of the string table lead to.
    named: NamedModules,
    /// The imports that were read.
    imports: KeptImports<'a>,
    /// The exports that were read.
    exports: KeptExports<'a>,
    /// The modules whose imports stand as failed.
    failed_imports: FailedParts,
    /// The modules whose exports stand as failed.
    failed_exports: FailedParts,
}

impl<'a, 's, P: ModuleProvider> Model for Resolver<'a, 's, P> {
    ghost use Rattle.std.specs.Prelude.{option_map, IfSome};
    ghost use Rattle.pdb_resolving.specs.KeptTables.{AreNamed, AreNames, AreRead};
    ghost use Rattle.pdb_resolving.specs.Resolving.{exports_read, imports_read, Kept};

    ghost Value = { Kept P };

    ghost view = { λ r. record {
      provider = r.provider.now;
      entries = r.modules.items;
      names = option_map (λ t. t.now) r.string_table;
      failed = record { imports = r.failed_imports; exports = r.failed_exports };
    } };

    // Each cached value is what reading gives, so that the cache shows nowhere.
    ghost invariant = { λ r. AreNames r.modules.items r.names
        × IfSome (option_map (λ t. t.now) r.string_table)
        (λ names. AreNamed names r.modules.items r.named)
        × AreRead (imports_read (P.provided r.provider.now) r.modules.items) r.imports
        × AreRead (exports_read (P.provided r.provider.now) r.modules.items) r.exports };
}

impl<'a, 's, P: ModuleProvider> Resolver<'a, 's, P> {
    /// A resolver over the provider of the modules, their entries in order, and the string table by
    /// which they refer to one another, if there is one. No table stands as failed.
    pub fn new(
        alloc: Global,
        provider: &'a P,
        modules: Vec<Module<'a>>,
        string_table: Option<&'a StringTable<'s>>,
    ) -> Resolver<'a, 's, P>
        ensures { result
            ≡ none_failed_of provider.now modules.entry.items (option_copied string_table.entry) }
    {
        Resolver {
            provider,
            modules,
            string_table,
            names: ModuleNames::new(),
            named: NamedModules::new(alloc),
            imports: BTreeMap::new(alloc),
            exports: BTreeMap::new(alloc),
            failed_imports: FailedParts::new(alloc),
            failed_exports: FailedParts::new(alloc),
        }
    }

    /// The modules in order.
    pub fn modules(&self) -> &[Module<'a>]
        ensures { result.now ≡ self.now.entries }
    {
        self.modules.as_slice()
    }

    /// The index for which an index of a type or of an id stands in the database's table of these.
    /// The module at `module_index`, counted from 0, has the index. Without bit 31 it stands for
    /// itself; otherwise for the first export of it in the module from which it is imported.
    /// Modules are named without regard to ASCII case, and of equal names the last counts.
    ///
    /// # Errors
    /// The first fault of: `CantResolveCrossModuleRefWithoutStringTable`; the asking module's
    /// imports (`OutOfRangeModuleIndex`, the provider's fault, `ModuleInfoNotFound`, their own);
    /// `CrossModuleRefNotFound`; the module's name in the string table; `ModuleNameNotFound`; the
    /// other module's exports, as its imports; `LocalIndexNotInExports`. Imports and exports that
    /// stand as failed are `ModuleImportsUnsuccessful` and `ModuleExportsUnsuccessful`; a fault of
    /// others comes with their table. `OutOfMemory`.
    #[tactic(auto, using(crate::proofs::Steps::by_steps))]
    pub fn resolve(&mut self, alloc: Global, module_index: usize, index: u32) -> stop::Result<u32>
        ensures same { self.new ≡ self.old }
        ensures value { Finds (λ n. n) result
            (resolve (modules_by P.provided self.old) module_index index) }
    {
        if !TypeIndex(index).is_cross_module() {
            return Ok(index);
        }
        self.resolve_elsewhere(alloc, module_index, TypeIndex(index))
    }

    /// Stores a table as failed. Nothing changes when memory runs out.
    ///
    /// # Errors
    /// `AllocError` when memory runs out.
    pub fn keep_failed(&mut self, table: Table) -> std::result::Result<(), AllocError>
        ensures kept { OnOk result (self.new ≡ with_failed self.old table) }
        ensures same { OnErr result (self.new ≡ self.old) }
    {
        match table {
            Table::Imports(number) => self.failed_imports.keep_number(number as u64),
            Table::Exports(number) => self.failed_exports.keep_number(number as u64),
        }
    }

    /// The index for which an index stands that leads into another module.
    #[tactic(auto, using(crate::proofs::Ending::ends_on, crate::proofs::Ending::ends_by_given_on, crate::proofs::Ending::ends_by_error_on), unfolding(crate::specs::KeptTables::resolved_by_steps))]
    fn resolve_elsewhere(
        &mut self,
        alloc: Global,
        module_index: usize,
        index: TypeIndex,
    ) -> stop::Result<u32>
        ensures same { self.new ≡ self.old }
        ensures value { Finds (λ n. n) result
            (resolved_by_steps (modules_by P.provided self.old) module_index index.0) }
    {
        let Some(names) = self.string_table else {
            return Err(Stop::ByError(Error::CantResolveCrossModuleRefWithoutStringTable));
        };
        let CrossModuleRef(ModuleRef(name), local) = self.import_of(alloc, module_index, index)?;
        let number = self.module_by_name(alloc, names, name)?;
        self.export_of(alloc, number, local)
    }

    /// The import for which an index stands in the module with that index.
    ///
    /// # Errors
    /// `ModuleImportsUnsuccessful` where the module's imports stand as failed; otherwise the
    /// module's fault or that of its imports, with this table, or `CrossModuleRefNotFound`;
    /// `OutOfMemory`.
    #[tactic(auto, using(crate::proofs::Ending::ends_by_table_on))]
    fn import_of(
        &mut self,
        alloc: Global,
        number: usize,
        index: TypeIndex,
    ) -> stop::Result<CrossModuleRef<TypeIndex>>
        ensures same { self.new ≡ self.old }
        ensures value { Finds (reference (λ i. i.0)) result
            (module_import (modules_by P.provided self.old) number index.0) }
    {
        if self.failed_imports.stands(number as u64) {
            return Err(Stop::ByError(Error::ModuleImportsUnsuccessful));
        }
        let modules = self.modules.as_slice();
        match keep_imports(&mut self.imports, alloc, self.provider, modules, number) {
            Ok(()) => imported(&self.imports[&number], index),
            Err(Error::OutOfMemory) => Err(Stop::ByError(Error::OutOfMemory)),
            Err(fault) => Err(Stop::ByTable(Table::Imports(number), fault)),
        }
    }

    /// The index of the last module with a name of the string table.
    ///
    /// # Errors
    /// The name's fault, `ModuleNameNotFound`, `OutOfMemory`.
    fn module_by_name(
        &mut self,
        alloc: Global,
        strings: &StringTable<'_>,
        name: StringRef,
    ) -> Result<usize>
        requires { Some strings.now ≡ self.old.names }
        ensures same { self.new ≡ self.old }
        ensures value { Answers (λ n. n) result (named_at strings.now self.old.entries name.0) }
    {
        let modules = self.modules.as_slice();
        self.named
            .number_by_reference(alloc, strings, modules, &mut self.names, name)
    }

    /// The first export of the module with that index under an index as it names it.
    ///
    /// # Errors
    /// `ModuleExportsUnsuccessful` where the module's exports stand as failed; otherwise the
    /// module's fault or that of its exports, with this table, or `LocalIndexNotInExports`;
    /// `OutOfMemory`.
    #[tactic(auto, using(crate::proofs::Ending::ends_by_table_on))]
    fn export_of(
        &mut self,
        alloc: Global,
        number: usize,
        local: Local<TypeIndex>,
    ) -> stop::Result<u32>
        ensures same { self.new ≡ self.old }
        ensures value { Finds (λ n. n) result
            (module_export (modules_by P.provided self.old) number local.0.0) }
    {
        if self.failed_exports.stands(number as u64) {
            return Err(Stop::ByError(Error::ModuleExportsUnsuccessful));
        }
        let modules = self.modules.as_slice();
        match keep_exports(&mut self.exports, alloc, self.provider, modules, number) {
            Ok(()) => exported(&self.exports[&number], local),
            Err(Error::OutOfMemory) => Err(Stop::ByError(Error::OutOfMemory)),
            Err(fault) => Err(Stop::ByTable(Table::Exports(number), fault)),
        }
    }
}

/// The import for which an index stands, from a module's imports.
///
/// # Errors
/// `CrossModuleRefNotFound`.
#[tactic(auto, using(crate::proofs::Ending::ends_by_parsed))]
fn imported(
    imports: &CrossModuleImports<'_>,
    index: TypeIndex,
) -> stop::Result<CrossModuleRef<TypeIndex>>
    ensures { Finds (reference (λ i. i.0)) result
        (of_no_table (lifted (import_by imports.now index.0))) }
{
    Ok(imports.resolve_import(index)?)
}

/// The index in the database's table by a module's first export of an index as it names it.
///
/// # Errors
/// `LocalIndexNotInExports`.
fn exported(exports: &ModuleExports<'_>, local: Local<TypeIndex>) -> stop::Result<u32>
    ensures { Finds (λ n. n) result
        (of_no_table (exported_of exports.now local.0.0)) }
{
    match exports.first(local.0.0) {
        Some(index) => Ok(index),
        None => Err(Stop::ByError(Error::LocalIndexNotInExports(local.0.0))),
    }
}
