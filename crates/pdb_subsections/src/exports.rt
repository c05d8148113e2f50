//! Cross-module exports (`DEBUG_S_CROSSSCOPEEXPORTS`): types and ids that other modules may use.

ghost use Rattle.std.specs.Prelude.{◌≡◌, ◌==◌, length, map, option_map, Ok};
ghost use Rattle.pdb_container.specs.Fault.{Parses};
ghost use Rattle.pdb_subsections.specs.Exports.{exports_of, exports_by_eight, export_in};
ghost use Rattle.pdb_subsections.specs.Exports.{export_form, first_export};

use pdb_container::{Error, IdIndex, ItemIndex, Local, Result, TypeIndex};
use std::marker::Model;

/// An index as the module names it, and the index in the file's table of types or of ids.
#[derive(Clone, Copy, Debug, PartialEq, Eq)]
struct Export {
    local: u32,
    global: u32,
}

/// A cross-module export: an index as the module names it, and the index in the TPI or the IPI.
#[derive(Clone, Copy, Debug, PartialEq, Eq)]
pub enum CrossModuleExport {
    /// A type.
    OfType(Local<TypeIndex>, TypeIndex),
    /// An id: bit 31 of the index as the module names it is set.
    Id(Local<IdIndex>, IdIndex),
}

/// The cross-module exports of a module (`DEBUG_S_CROSSSCOPEEXPORTS`), in the order of their
/// entries.
#[derive(Debug, Drop)]
pub struct CrossModuleExports<'a> {
    pairs: &'a [[u8; 8]],
}

impl<'a> Model for CrossModuleExports<'a> {
    ghost use Rattle.std.specs.Prelude.{List};
    ghost use Rattle.pdb_subsections.specs.Exports.{exports_by_eight};
    ghost use Rattle.pdb_subsections.specs.declared.exports.Export.{Export as Pair};

    ghost Value = { List Pair };

    ghost view = { λ e. exports_by_eight e.pairs.now };
}

/// The exports of a module that exports nothing.
impl<'a> Default for CrossModuleExports<'a> {
    ghost use Rattle.std.specs.Prelude.{◌≡◌, []};

    ghost is_default = { λ e. e ≡ [] };

    fn default() -> CrossModuleExports<'a> {
        CrossModuleExports { pairs: &[] }
    }
}

impl<'a> CrossModuleExports<'a> {
    /// The cross-module exports in these bytes: for each one the index as the module names it and
    /// the index in the TPI or the IPI, four bytes each.
    ///
    /// # Errors
    /// `UnexpectedEof` where the last export isn't whole.
    #[tactic(auto, using(crate::proofs::Chunks::exports_whole, crate::proofs::Chunks::exports_cut))]
    pub fn parse(bytes: &'a [u8]) -> Result<CrossModuleExports<'a>>
        ensures { Parses (λ exports. exports) result (exports_of bytes.now) }
    {
        let (pairs, left) = bytes.as_chunks::<8>();
        if !left.is_empty() {
            return Err(Error::UnexpectedEof);
        }
        Ok(CrossModuleExports { pairs })
    }

    /// The number of cross-module exports.
    pub fn len(&self) -> usize
        ensures { result ≡ length self.now }
    {
        self.pairs.len()
    }

    /// Whether there is no cross-module export.
    pub fn is_empty(&self) -> bool
        ensures { result ≡ (length self.now == 0) }
    {
        self.pairs.is_empty()
    }

    /// The cross-module exports in the order of their entries.
    pub fn exports(&self) -> CrossModuleExportIter<'_>
        ensures { result ≡ map export_form self.now }
    {
        CrossModuleExportIter { left: self.pairs }
    }

    /// The index in the TPI or the IPI for an index as the module names it, by the first export of
    /// that index; `None` exactly where no export has it.
    ///
    /// # Errors
    /// None: the result is always `Ok`.
    pub fn resolve_import<I: ItemIndex>(&self, import: Local<I>) -> Result<Option<I>>
        ensures { result ≡ Ok (option_map I.index (first_export self.now (I.number import.0))) }
    {
        let number: u32 = import.0.into();
        match first_global(self.pairs, number) {
            Some(global) => Ok(Some(I::from(global))),
            None => Ok(None),
        }
    }
}

/// An iterator over cross-module exports.
#[derive(Debug, Drop)]
pub struct CrossModuleExportIter<'e> {
    left: &'e [[u8; 8]],
}

impl<'e> Model for CrossModuleExportIter<'e> {
    ghost use Rattle.std.specs.Prelude.{List, map};
    ghost use Rattle.pdb_subsections.specs.Exports.{exports_by_eight, export_form};
    ghost use Rattle.pdb_subsections.specs.declared.exports.CrossModuleExport.{
      CrossModuleExport as Given,
    };

    ghost Value = { List Given };

    ghost view = { λ i. map export_form (exports_by_eight i.left.now) };
}

impl<'e> Iterator for CrossModuleExportIter<'e> {
    type Item = CrossModuleExport;

    ghost use Rattle.std.specs.Prelude.{length};
    ghost use Rattle.std.specs.Iterator.{at_most};
    ghost use Rattle.std.specs.Map.Iter.{TakesFirst};

    ghost next_gives = { TakesFirst (λ export. export) };

    ghost remaining = { λ left. at_most (length left) };

    fn next(&mut self) -> Option<CrossModuleExport> {
        let (pair, left) = self.left.split_first()?;
        self.left = left;
        Some(form_of(read_pair(pair)))
    }
}

/// The export in 8 bytes.
fn read_pair(pair: &[u8; 8]) -> Export
    ensures { result ≡ export_in pair.now }
{
    Export {
        local: u32::from_le_bytes([pair[0], pair[1], pair[2], pair[3]]),
        global: u32::from_le_bytes([pair[4], pair[5], pair[6], pair[7]]),
    }
}

/// An export as one of a type or of an id.
fn form_of(export: Export) -> CrossModuleExport
    ensures { result ≡ export_form export }
{
    let id = IdIndex(export.local);
    if id.is_cross_module() {
        CrossModuleExport::Id(Local(id), IdIndex(export.global))
    } else {
        CrossModuleExport::OfType(Local(TypeIndex(export.local)), TypeIndex(export.global))
    }
}

/// The index in the file's table by the first of these exports with that local index.
#[tactic(auto, using(crate::proofs::ExportSteps::first_more, crate::proofs::ExportSteps::first_found, crate::proofs::ExportSteps::first_missing))]
fn first_global(pairs: &[[u8; 8]], local: u32) -> Option<u32>
    ensures { result ≡ first_export (exports_by_eight pairs.now) local }
{
    for pair in pairs {
        let export = read_pair(pair);
        if export.local == local {
            return Some(export.global);
        }
    }
    None
}
