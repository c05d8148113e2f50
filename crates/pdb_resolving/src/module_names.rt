//! The names of modules.

ghost use Rattle.std.specs.Prelude.{◌≡◌, IfOk, IsSome, List, OnOk, option_and_then, string_bytes};
ghost use Rattle.std.specs.BTreeMap.{get_by_text};
ghost use Rattle.std.specs.Str.{str_to_ascii_lowercase};
ghost use Rattle.std.specs.Str.Lossy.{utf8_lossy};
ghost use Rattle.pdb_symbols_modules.specs.Modules as entries;
ghost use Rattle.pdb_resolving.specs.Fault.{Answers};
ghost use Rattle.pdb_resolving.specs.KeptTables.{AreLast, AreNames, numbered};

use crate::error::{Error, Result};
use pdb_symbols_modules::Module;
use std::alloc::{AllocError, Global};
use std::collections::BTreeMap;

/// The indices of modules by their names.
#[derive(Drop)]
pub struct ModuleNames {
    /// Under each name, in ASCII lower case, the index of the last module with that name. `None`
    /// until a module was looked for.
    numbers: Option<BTreeMap<String, usize>>,
}

impl ModuleNames {
    /// The value in which no name was read yet.
    pub fn new() -> ModuleNames
        ensures { (modules : List entries.Module) → AreNames modules result }
    {
        ModuleNames { numbers: None }
    }

    /// The index of the last module with that name, without regard to ASCII case. The names of the
    /// modules are read once and cached.
    ///
    /// # Errors
    /// `ModuleNameNotFound`, `OutOfMemory`.
    #[tactic(auto, using(crate::proofs::Steps::number_kept, crate::proofs::Steps::number_missing))]
    pub fn number(&mut self, alloc: Global, modules: &[Module<'_>], name: &str) -> Result<usize>
        requires { AreNames modules.now self.old }
        ensures kept { AreNames modules.now self.new }
        ensures value { Answers (λ n. n) result (numbered name.now modules.now) }
    {
        self.keep_names(alloc, modules)?;
        let name = name.to_ascii_lowercase(alloc)?;
        match self.find(name.as_str()) {
            Some(number) => Ok(number),
            None => Err(Error::ModuleNameNotFound(name)),
        }
    }

    /// Caches the names of the modules, unless they are cached. Nothing changes when memory runs
    /// out.
    fn keep_names(
        &mut self,
        alloc: Global,
        modules: &[Module<'_>],
    ) -> std::result::Result<(), AllocError>
        requires { AreNames modules.now self.old }
        ensures kept { AreNames modules.now self.new }
        ensures there { OnOk result (IsSome self.new.numbers) }
    {
        if self.numbers.is_some() {
            return Ok(());
        }
        self.numbers = Some(numbers_by_name(alloc, modules)?);
        Ok(())
    }

    /// The index that is cached under a name in ASCII lower case.
    fn find(&self, name: &str) -> Option<usize>
        ensures { result
            ≡ option_and_then (λ numbers. get_by_text numbers name.now) self.now.numbers }
    {
        match &self.numbers {
            None => None,
            Some(numbers) => numbers.get(name).copied(),
        }
    }
}

/// Under each name, in ASCII lower case, the index of the last module with that name.
#[tactic(auto, using(crate::proofs::LastPlaces::last_start, crate::proofs::LastPlaces::last_further))]
fn numbers_by_name(
    alloc: Global,
    modules: &[Module<'_>],
) -> std::result::Result<BTreeMap<String, usize>, AllocError>
    ensures { IfOk result (λ numbers. AreLast modules.now numbers) }
{
    let mut numbers = BTreeMap::new(alloc);
    for number in 0..modules.len() {
        let name = lower_name(alloc, &modules[number])?;
        numbers.insert(name, number)?;
    }
    Ok(numbers)
}

/// The name of a module in ASCII lower case.
fn lower_name(alloc: Global, module: &Module<'_>) -> std::result::Result<String, AllocError>
    ensures { IfOk result
        (λ n. string_bytes n ≡ str_to_ascii_lowercase (utf8_lossy «module».now.module_name)) }
{
    match module.module_name(alloc) {
        Ok(name) => name.as_str().to_ascii_lowercase(alloc),
        Err(_) => Err(AllocError),
    }
}
