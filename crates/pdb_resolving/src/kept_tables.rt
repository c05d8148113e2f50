//! The imports and exports of modules, as they are read and cached.

ghost use Rattle.std.specs.Prelude.{◌≡◌, IfErr, IsSome, OnOk, option_map, slice_get};
ghost use Rattle.std.specs.BTreeMap.{get};
ghost use Rattle.std.specs.Ordering.{nat_cmp};
ghost use Rattle.pdb_resolving.specs.Fault.{Answers, Fails, lifted};
ghost use Rattle.pdb_resolving.specs.KeptTables.{AreRead};
ghost use Rattle.pdb_resolving.specs.Resolving.{exports_read, imports_read, module_numbered};

use crate::error::{Error, Result};
use crate::module_exports::ModuleExports;
use crate::provider::{ModuleProvider, ModuleTables};
use pdb_symbols_modules::{CrossModuleImports, Module};
use std::alloc::Global;
use std::collections::BTreeMap;

/// The imports of modules that were read, each under its module's index.
pub type KeptImports<'a> = BTreeMap<usize, CrossModuleImports<'a>>;

/// The exports of modules that were read, each under its module's index.
pub type KeptExports<'a> = BTreeMap<usize, ModuleExports<'a>>;

/// Reads and caches the imports of the module with that index, unless they are cached.
///
/// # Errors
/// The module's fault, or that of its imports; `OutOfMemory`. Nothing is cached then.
pub fn keep_imports<'a, P: ModuleProvider>(
    kept: &mut KeptImports<'a>,
    alloc: Global,
    provider: &'a P,
    modules: &[Module<'_>],
    number: usize,
) -> Result<()>
    requires { AreRead (imports_read (P.provided provider.now) modules.now) kept.old }
    ensures right { AreRead (imports_read (P.provided provider.now) modules.now) kept.new }
    ensures there { OnOk result (IsSome (get nat_cmp kept.new number)) }
    ensures fails { IfErr result
        (λ e. Fails e (imports_read (P.provided provider.now) modules.now number)) }
{
    if kept.contains_key(&number) {
        return Ok(());
    }
    let imports = read_imports(alloc, provider, modules, number)?;
    kept.insert(number, imports)?;
    Ok(())
}

/// Reads and caches the exports of the module with that index, unless they are cached.
///
/// # Errors
/// The module's fault, or that of its exports; `OutOfMemory`. Nothing is cached then.
pub fn keep_exports<'a, P: ModuleProvider>(
    kept: &mut KeptExports<'a>,
    alloc: Global,
    provider: &'a P,
    modules: &[Module<'_>],
    number: usize,
) -> Result<()>
    requires { AreRead (exports_read (P.provided provider.now) modules.now) kept.old }
    ensures right { AreRead (exports_read (P.provided provider.now) modules.now) kept.new }
    ensures there { OnOk result (IsSome (get nat_cmp kept.new number)) }
    ensures fails { IfErr result
        (λ e. Fails e (exports_read (P.provided provider.now) modules.now number)) }
{
    if kept.contains_key(&number) {
        return Ok(());
    }
    let exports = read_exports(alloc, provider, modules, number)?;
    kept.insert(number, exports)?;
    Ok(())
}

/// The imports of the module with that index.
///
/// # Errors
/// The module's fault, or that of its imports; `OutOfMemory`.
#[tactic(auto, using(crate::proofs::Lifting::fails_on, crate::proofs::Lifting::given_fails), unfolding(crate::specs::Resolving::imports_read))]
fn read_imports<'p, P: ModuleProvider>(
    alloc: Global,
    provider: &'p P,
    modules: &[Module<'_>],
    number: usize,
) -> Result<CrossModuleImports<'p>>
    ensures { Answers (λ i. i) result (imports_read (P.provided provider.now) modules.now number) }
{
    let own = module_info(provider, modules, number)?;
    Ok(own.imports(alloc)?)
}

/// The exports of the module with that index.
///
/// # Errors
/// The module's fault, or that of its exports; `OutOfMemory`.
#[tactic(auto, using(crate::proofs::Lifting::fails_on, crate::proofs::Lifting::parsed_fails), unfolding(crate::specs::Resolving::exports_read))]
fn read_exports<'p, P: ModuleProvider>(
    alloc: Global,
    provider: &'p P,
    modules: &[Module<'_>],
    number: usize,
) -> Result<ModuleExports<'p>>
    ensures { Answers (λ e. e) result (exports_read (P.provided provider.now) modules.now number) }
{
    let own = module_info(provider, modules, number)?;
    let exports = own.exports()?;
    Ok(ModuleExports::read(alloc, exports)?)
}

/// The content of the module with that index.
///
/// # Errors
/// `OutOfRangeModuleIndex`, the provider's fault, `ModuleInfoNotFound`; `OutOfMemory`.
#[tactic(auto, using(crate::proofs::ModuleSteps::module_past, crate::proofs::ModuleSteps::module_given, crate::proofs::ModuleSteps::module_missing, crate::proofs::ModuleSteps::module_fails))]
fn module_info<'p, P: ModuleProvider>(
    provider: &'p P,
    modules: &[Module<'_>],
    number: usize,
) -> Result<&'p P::Info>
    ensures { Answers (λ info. P.Info.held info.now) result
        (module_numbered (P.provided provider.now) modules.now number) }
{
    let Some(module) = module_numbered(modules, number) else {
        return Err(Error::OutOfRangeModuleIndex(number));
    };
    match info_of(provider, module, number) {
        Ok(Some(info)) => Ok(info),
        Ok(None) => Err(Error::ModuleInfoNotFound(number)),
        Err(fault) => Err(fault),
    }
}

/// The content of the module with that index and entry, if it has a stream of its own.
///
/// # Errors
/// The provider's fault; `OutOfMemory`.
#[tactic(auto, using(crate::proofs::Lifting::given_fails))]
fn info_of<'p, P: ModuleProvider>(
    provider: &'p P,
    module: &Module<'_>,
    number: usize,
) -> Result<Option<&'p P::Info>>
    ensures { Answers (option_map (λ info. P.Info.held info.now)) result
        (lifted (P.provided provider.now number «module».now)) }
{
    Ok(provider.get_module_info(number, module)?)
}

/// The module with that index, counted from 0.
fn module_numbered<'m, 'a>(modules: &'m [Module<'a>], number: usize) -> Option<&'m Module<'a>>
    ensures { option_map (λ m. m.now) result ≡ slice_get modules.now number }
{
    modules.get(number)
}
