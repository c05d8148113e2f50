//! The entries that are put into the public list.

ghost use Rattle.std.specs.Prelude.{◌≡◌, ◌++◌, OnOk, option_map};
ghost use Rattle.pdb_container.specs.Fault.{Gives, Parses};
ghost use Rattle.pdb_contributions.specs.Publics.{as_public, entry_of_symbol};
ghost use Rattle.pdb_contributions.specs.Publics.{section_ends, are_whole, entries_read};
ghost use Rattle.pdb_symbol_records.specs.Forms.{public_form};
ghost use Rattle.pdb_symbol_records.specs.Iteration.{symbols_left};
ghost use Rattle.pdb_symbol_records.specs.Records.{symbol_form_of};

use crate::contribution::is_executable;
use pdb_addresses::{ImageSectionHeader, PdbInternalSectionOffset};
use pdb_container::{FallibleIterator, RawString, Result};
use pdb_symbol_records::kinds::is_public;
use pdb_symbol_records::{PublicSymbol, Symbol, SymbolData, SymbolIter};
use std::alloc::{AllocError, Global};
use std::marker::Model;

/// An entry of the public list: the place at which a function may begin, and its name; a
/// placeholder has no name.
#[derive(Debug, Drop)]
pub struct PublicFunction<'s> {
    /// The place: a section's number, counted from 1, and an offset in bytes.
    pub start_offset: PdbInternalSectionOffset,
    /// The name of its public symbol (`S_PUB32`) as it is stored.
    pub name: Option<RawString<'s>>,
}

impl<'s> Model for PublicFunction<'s> {
    ghost use Rattle.std.specs.Prelude.{option_map};
    ghost use Rattle.pdb_container.specs.RawString.{raw_bytes};
    ghost use Rattle.pdb_contributions.specs.Publics as publics;

    ghost Value = { publics.PublicFunction };

    ghost view = { λ f. record {
      start_offset = f.start_offset;
      name = option_map raw_bytes f.name;
    } };
}

/// The value of a public symbol, if a symbol is one that can be read. No symbol of another kind is
/// parsed.
#[tactic(auto, using(crate::proofs::PublicSteps::no_public))]
fn parse_public<'s>(symbol: &Symbol<'s>) -> Option<PublicSymbol<'s>>
    ensures { option_map public_form result ≡ as_public (symbol_form_of symbol.now) }
{
    if !is_public(symbol.raw_kind()) {
        return None;
    }
    match symbol.parse() {
        Ok(SymbolData::Public(public)) => Some(public),
        _ => None,
    }
}

/// Appends a symbol's entry, if it is a public one that can be read and lies in a section in which
/// code may run.
fn push_public<'s>(
    functions: &mut Vec<PublicFunction<'s>>,
    sections: &[ImageSectionHeader],
    symbol: &Symbol<'s>,
) -> std::result::Result<(), AllocError>
    ensures { OnOk result (functions.new.items
        ≡ functions.old.items ++ entry_of_symbol sections.now symbol.now) }
{
    if let Some(public) = parse_public(symbol) {
        if is_executable(sections, public.offset.section) {
            functions.push(PublicFunction {
                start_offset: public.offset,
                name: Some(public.name),
            })?;
        }
    }
    Ok(())
}

/// The public symbols (`S_PUB32`) of the symbol records that can be read and lie in a section in
/// which code may run, in their order. The records are read to their end.
///
/// # Errors
/// The first fault of the records: `SymbolTooShort`, `UnexpectedEof`. `OutOfMemory`.
#[tactic(auto, using(crate::proofs::PublicSteps::read_start, crate::proofs::PublicSteps::read_more, crate::proofs::PublicSteps::read_end, crate::proofs::PublicSteps::read_fault))]
pub fn read_public_symbols<'s>(
    alloc: Global,
    mut symbols: SymbolIter<'s>,
    sections: &[ImageSectionHeader],
) -> Result<Vec<PublicFunction<'s>>>
    ensures { Gives (λ v. v.items) ⊥ result
        (entries_read sections.now (symbols_left symbols.entry)) }
{
    let mut functions = Vec::new(alloc);
    while let Some(symbol) = symbols.next()? {
        push_public(&mut functions, sections, &symbol)?;
    }
    Ok(functions)
}

/// Checks that symbol records can be read to their end.
///
/// # Errors
/// The first fault of the records: `SymbolTooShort`, `UnexpectedEof`.
#[tactic(auto, using(crate::proofs::PublicSteps::whole_more, crate::proofs::PublicSteps::whole_end, crate::proofs::PublicSteps::whole_fault))]
pub fn check_symbols(mut symbols: SymbolIter<'_>) -> Result<()>
    ensures { Parses (λ _. tt) result (are_whole (symbols_left symbols.entry)) }
{
    while symbols.next()?.is_some() {}
    Ok(())
}

/// Appends placeholders at the ends of the sections in which code may run; sections past number
/// 65535 have none.
#[tactic(auto, using(crate::proofs::PublicSteps::ends_start, crate::proofs::PublicSteps::ends_more, crate::proofs::PublicSteps::ends_done, crate::proofs::PublicSteps::ends_past))]
pub(crate) fn push_section_ends(
    functions: &mut Vec<PublicFunction<'_>>,
    sections: &[ImageSectionHeader],
) -> std::result::Result<(), AllocError>
    ensures { OnOk result (functions.new.items ≡ functions.old.items ++ section_ends sections.now) }
{
    for (index, section) in sections.iter().enumerate() {
        let Ok(number) = u16::try_from(index + 1) else {
            return Ok(());
        };
        if section.characteristics.execute() {
            functions.push(PublicFunction {
                start_offset: PdbInternalSectionOffset {
                    offset: section.virtual_size,
                    section: number,
                },
                name: None,
            })?;
        }
    }
    Ok(())
}
