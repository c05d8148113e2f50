//! The contributions and modules of a database.

use crate::fault::{Fault, load_fault};
use crate::loaded::Loaded;
use pdb_addr2line::{KeptModules, LoadFault};
use pdb_container::{Error, FallibleIterator};
use pdb_listings::{Counts, ModulePart, module_sizes};
use pdb_resolving::ModuleProvider;
use pdb_symbols_modules::{DBISectionContribution, Module, ModuleInfo};
use std::alloc::{AllocError, Global};

/// The section contributions of a database, in the order of its list.
///
/// # Errors
/// `Load`, `OutOfMemory`.
pub fn contributions_of(
    alloc: Global,
    loaded: Loaded<'_>,
) -> Result<Vec<DBISectionContribution>, Fault> {
    let path = loaded.path;
    let mut found = Vec::new(alloc);
    let mut list = match loaded.held.debug_information().section_contributions() {
        Ok(list) => list,
        Err(error) => return Err(load_fault(alloc, path, LoadFault::from(error))),
    };
    for _ in 0..u64::MAX {
        match list.next() {
            Ok(Some(contribution)) => found.push(contribution)?,
            Ok(None) => break,
            Err(error) => return Err(load_fault(alloc, path, LoadFault::from(error))),
        }
    }
    Ok(found)
}

/// The modules of a database, in the order of its list.
///
/// # Errors
/// `Load`, `OutOfMemory`.
pub fn modules_of<'a>(alloc: Global, loaded: Loaded<'a>) -> Result<Vec<Module<'a>>, Fault> {
    let path = loaded.path;
    let mut found = Vec::new(alloc);
    let mut list = loaded.held.debug_information().modules();
    for _ in 0..u64::MAX {
        match list.next() {
            Ok(Some(module)) => found.push(module)?,
            Ok(None) => break,
            Err(error) => return Err(load_fault(alloc, path, LoadFault::from(error))),
        }
    }
    Ok(found)
}

/// What a module's own stream holds; `None` where it has none, or it can't be read.
///
/// # Errors
/// `AllocError` when memory runs out.
pub fn information_of<'a>(
    modules: &'a KeptModules<'static>,
    number: usize,
    module: &Module<'_>,
) -> Result<Option<&'a ModuleInfo<'static>>, AllocError> {
    match modules.get_module_info(number, module) {
        Ok(information) => Ok(information),
        Err(Error::OutOfMemory) => Err(AllocError),
        Err(_) => Ok(None),
    }
}

/// What the own streams of modules hold, in the order of the modules; those that have none are left
/// out, and those that can't be read.
///
/// # Errors
/// `AllocError` when memory runs out.
pub fn information_of_all<'a>(
    alloc: Global,
    kept: &'a KeptModules<'static>,
    modules: &[Module<'_>],
) -> Result<Vec<&'a ModuleInfo<'static>>, AllocError> {
    let mut found = Vec::new(alloc);
    for (number, module) in modules.iter().enumerate() {
        if let Some(information) = information_of(kept, number, module)? {
            found.push(information)?;
        }
    }
    Ok(found)
}

/// How many bytes each part of each module contributes.
///
/// # Errors
/// `Load`, `OutOfMemory`.
pub fn sizes_of_modules(alloc: Global, loaded: Loaded<'_>) -> Result<Counts<ModulePart>, Fault> {
    let contributions = contributions_of(alloc, loaded)?;
    if contributions.len() >= 1 << 32 {
        return Err(Fault::OutOfMemory);
    }
    Ok(module_sizes(alloc, &contributions)?)
}
