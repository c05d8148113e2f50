//! Cross-module imports (`DEBUG_S_CROSSSCOPEIMPORTS`): types and ids of other modules.

ghost use Rattle.std.specs.Prelude.{◌≡◌, map, [], option_map, slice_get};
ghost use Rattle.std.specs.Int.{w32};
ghost use Rattle.pdb_container.specs.Buffer.{rest, ParsesFront};
ghost use Rattle.pdb_container.specs.Fault.{Gives, Parses};
ghost use Rattle.pdb_container.specs.Fields.{number_at};
ghost use Rattle.pdb_container.specs.RecordFields.{many_at};
ghost use Rattle.pdb_subsections.specs.Imports.{import_at, imports_of, import_in, numbers_in};
ghost use Rattle.pdb_subsections.specs.Imports.{imported, imported_from, found_import, reference};

use pdb_container::{Error, ItemIndex, Local, ParseBuffer, Result, StringRef};
use std::alloc::Global;
use std::marker::Model;

/// A module that another one names: the start of its name in the string table.
#[derive(Clone, Copy, Debug, PartialEq, Eq, PartialOrd, Ord, Hash)]
pub struct ModuleRef(pub StringRef);

/// A cross-module reference, which an index stands for: another module, and the index as that
/// module names it.
#[derive(Clone, Copy, Debug, PartialEq, Eq, PartialOrd, Ord, Hash)]
pub struct CrossModuleRef<I>(pub ModuleRef, pub Local<I>);

/// A module that is named, and the indices as it names them, four bytes each.
#[derive(Clone, Copy, Debug)]
struct ImportedModule<'a> {
    name: ModuleRef,
    locals: &'a [[u8; 4]],
}

/// The cross-module imports of a module (`DEBUG_S_CROSSSCOPEIMPORTS`): the modules, and for each
/// the indices as it names them.
#[derive(Debug, Drop)]
pub struct CrossModuleImports<'a> {
    modules: Vec<ImportedModule<'a>>,
}

impl<'a> Model for CrossModuleImports<'a> {
    ghost use Rattle.std.specs.Prelude.{List, map};
    ghost use Rattle.pdb_subsections.specs.Imports.{Import, import_in};

    ghost Value = { List Import };

    ghost view = { λ i. map import_in i.modules.items };
}

impl<'a> CrossModuleImports<'a> {
    /// The cross-module imports of a module that imports nothing.
    pub fn empty(alloc: Global) -> CrossModuleImports<'a>
        ensures { result ≡ [] }
    {
        CrossModuleImports {
            modules: Vec::new(alloc),
        }
    }

    /// The cross-module imports that these bytes spell: for each module its name, the number of
    /// indices, and the indices, four bytes each.
    ///
    /// # Errors
    /// `UnexpectedEof` where bytes are missing; `OutOfMemory`.
    pub fn parse(alloc: Global, bytes: &'a [u8]) -> Result<CrossModuleImports<'a>>
        ensures { Gives (λ imports. imports) ⊥ result (imports_of bytes.now) }
    {
        let modules = parse_modules(alloc, bytes)?;
        Ok(CrossModuleImports { modules })
    }

    /// The cross-module reference that an index stands for. Bits 20 to 30 of the index pick the
    /// other module, and bits 0 to 19 the entry, both counted from 0.
    ///
    /// # Errors
    /// `NotACrossModuleRef` for an index without bit 31, `CrossModuleRefNotFound` where there is no
    /// such module or entry.
    pub fn resolve_import<I: ItemIndex>(&self, index: I) -> Result<CrossModuleRef<I>>
        ensures { Parses (reference I.number) result (imported self.now (I.number index)) }
    {
        let number: u32 = index.into();
        if !index.is_cross_module() {
            return Err(Error::NotACrossModuleRef(number));
        }
        match find(&self.modules, number) {
            Some(CrossModuleRef(name, Local(local))) => Ok(CrossModuleRef(
                name,
                Local(I::from(local)),
            )),
            None => Err(Error::CrossModuleRefNotFound(number)),
        }
    }
}

/// The modules one after another, to the end.
#[tactic(auto, using(crate::proofs::ImportSteps::imports_more, pdb_container::proofs::Entries::entries_start, pdb_container::proofs::Entries::entries_fail, pdb_container::proofs::Entries::entries_end, pdb_container::proofs::Entries::entries_done))]
fn parse_modules<'a>(alloc: Global, bytes: &'a [u8]) -> Result<Vec<ImportedModule<'a>>>
    ensures { Gives (λ v. map import_in v.items) ⊥ result (imports_of bytes.now) }
{
    let mut buffer = ParseBuffer::from(bytes);
    let mut modules = Vec::new(alloc);
    for _ in 0..bytes.len() {
        if buffer.is_empty() {
            break;
        }
        modules.push(parse_module(&mut buffer)?)?;
    }
    Ok(modules)
}

/// The module at the buffer's place; the place may have moved where it is refused.
#[tactic(auto, unfolding(crate::specs::Imports::import_at))]
fn parse_module<'a>(buffer: &mut ParseBuffer<'a>) -> Result<ImportedModule<'a>>
    ensures { ParsesFront import_in result (rest buffer.new) (import_at (rest buffer.old)) }
{
    let name = ModuleRef(StringRef(buffer.parse_u32()?));
    let count = buffer.parse_u32()?;
    let locals = parse_locals(buffer, count)?;
    Ok(ImportedModule { name, locals })
}

/// That many indices, four bytes each.
#[tactic(auto, using(crate::proofs::Chunks::numbers_read, crate::proofs::Chunks::numbers_missing))]
fn parse_locals<'a>(buffer: &mut ParseBuffer<'a>, count: u32) -> Result<&'a [[u8; 4]]>
    ensures { ParsesFront (λ locals. numbers_in locals.now) result (rest buffer.new)
        (many_at (number_at w32) count (rest buffer.old)) }
{
    let bytes = buffer.take(4 * count as usize)?;
    let (locals, _) = bytes.as_chunks::<4>();
    Ok(locals)
}

/// The module that an index stands for, and the index there.
fn find(modules: &[ImportedModule<'_>], index: u32) -> Option<CrossModuleRef<u32>>
    ensures { option_map (reference (λ number. number)) result
        ≡ found_import (map import_in modules.now) index }
{
    let named = module_at(modules, (index >> 20 & 0x7ff) as usize)?;
    entry_at(named, (index & 0xf_ffff) as usize)
}

/// The module with that index, counted from 0.
#[tactic(auto, using(crate::proofs::ImportSteps::mapped_at))]
fn module_at<'m, 'a>(
    modules: &'m [ImportedModule<'a>],
    number: usize,
) -> Option<&'m ImportedModule<'a>>
    ensures { option_map (λ m. import_in m.now) result
        ≡ slice_get (map import_in modules.now) number }
{
    modules.get(number)
}

/// The cross-module reference of an entry of a module, counted from 0.
#[tactic(auto, using(crate::proofs::ImportSteps::mapped_at))]
fn entry_at(named: &ImportedModule<'_>, entry: usize) -> Option<CrossModuleRef<u32>>
    ensures { option_map (reference (λ number. number)) result
        ≡ imported_from (import_in named.now) entry }
{
    match named.locals.get(entry) {
        None => None,
        Some(local) => Some(CrossModuleRef(named.name, Local(u32::from_le_bytes(*local)))),
    }
}
