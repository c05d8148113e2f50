//! The procedures of a module.

ghost use Rattle.std.specs.Prelude.{◌≡◌, OnOk, Some, option_map};
ghost use Rattle.pdb_container.specs.Fault.{Gives};
ghost use Rattle.pdb_module_data.specs.Procedures.{is_procedure_kind, separated_from, said_by};
ghost use Rattle.pdb_module_data.specs.Procedures.{kept_of as kept_of_symbol, onto_new};
ghost use Rattle.pdb_module_data.specs.Procedures.{procedures_of, AreStartsOf};
ghost use Rattle.pdb_symbol_records.specs.Iteration.{symbols_left};

use pdb_addresses::PdbInternalSectionOffset;
use pdb_container::{FallibleIterator, RawString, Result, SymbolIndex, TypeIndex};
use pdb_symbol_records::kinds::{is_procedure, is_separated_code, is_thunk};
use pdb_symbol_records::{SeparatedCodeSymbol, Symbol, SymbolData, SymbolIter};
use std::alloc::{AllocError, Global};
use std::collections::BTreeSet;
use std::marker::Model;

/// A procedure of a module: a function's code, from a procedure symbol, a thunk (`S_THUNK32`) or
/// separated code (`S_SEPCODE`).
#[derive(Debug, Drop)]
pub struct Procedure<'t> {
    /// The place of its symbol in the module's symbols, in bytes.
    pub symbol_index: SymbolIndex,
    /// The place of the symbol that ends it, in bytes.
    pub end_symbol_index: SymbolIndex,
    /// The start of its code: a section's number, counted from 1, and an offset in bytes.
    pub offset: PdbInternalSectionOffset,
    /// The number of bytes of its code; never 0.
    pub len: u32,
    /// The index of its type, 0 for none. Separated code has its procedure's type, a thunk none.
    pub type_index: TypeIndex,
    /// Its name as it is stored; separated code has its procedure's name.
    pub name: RawString<'t>,
}

impl<'t> Model for Procedure<'t> {
    ghost use Rattle.pdb_container.specs.RawString.{raw_bytes};
    ghost use Rattle.pdb_module_data.specs.Procedures as procedures;

    ghost Value = { procedures.Procedure };

    ghost view = { λ q. record {
      symbol_index = q.symbol_index;
      end_symbol_index = q.end_symbol_index;
      offset = q.offset;
      len = q.len;
      type_index = q.type_index;
      name = raw_bytes q.name;
    } };
}

/// Separated code by the procedure that was taken last: with that procedure's name and type, if it
/// begins at the place of the code's parent.
fn separated_code<'t>(
    last: Option<&Procedure<'t>>,
    index: SymbolIndex,
    code: SeparatedCodeSymbol,
) -> Option<Procedure<'t>>
    ensures { result ≡ separated_from (option_map (λ q. q.now) last.entry) index.0 code }
{
    let last = last?;
    if last.offset != code.parent_offset {
        return None;
    }
    Some(Procedure {
        symbol_index: index,
        end_symbol_index: code.end,
        offset: code.offset,
        len: code.len,
        type_index: last.type_index,
        name: last.name,
    })
}

/// Whether a symbol of a kind may be a procedure's.
fn may_be_procedure(kind: u16) -> bool
    ensures { result ≡ is_procedure_kind kind }
{
    is_procedure(kind) || is_thunk(kind) || is_separated_code(kind)
}

/// A symbol as a procedure, after the procedure that was taken last. No symbol of another kind is
/// parsed.
#[tactic(auto, using(crate::proofs::ProcedureSteps::no_procedure))]
fn parse_procedure<'t>(last: Option<&Procedure<'t>>, symbol: &Symbol<'t>) -> Option<Procedure<'t>>
    ensures { result ≡ said_by (option_map (λ q. q.now) last.entry) symbol.now }
{
    if !may_be_procedure(symbol.raw_kind()) {
        return None;
    }
    match symbol.parse() {
        Ok(SymbolData::Procedure(procedure)) => Some(Procedure {
            symbol_index: symbol.index(),
            end_symbol_index: procedure.end,
            offset: procedure.offset,
            len: procedure.len,
            type_index: procedure.type_index,
            name: procedure.name,
        }),
        Ok(SymbolData::Thunk(thunk)) => Some(Procedure {
            symbol_index: symbol.index(),
            end_symbol_index: thunk.end,
            offset: thunk.offset,
            len: u32::from(thunk.len),
            type_index: TypeIndex(0),
            name: thunk.name,
        }),
        Ok(SymbolData::SeparatedCode(code)) => separated_code(last, symbol.index(), code),
        _ => None,
    }
}

/// The procedure that is taken from a symbol, after the one that was taken last, if it has code.
fn procedure_with_code<'t>(
    last: Option<&Procedure<'t>>,
    symbol: &Symbol<'t>,
) -> Option<Procedure<'t>>
    ensures { result ≡ kept_of_symbol (option_map (λ q. q.now) last.entry) symbol.now }
{
    let procedure = parse_procedure(last, symbol)?;
    if procedure.len == 0 {
        return None;
    }
    Some(procedure)
}

/// A copy of a procedure.
fn copied<'t>(procedure: &Procedure<'t>) -> Procedure<'t>
    ensures { result ≡ procedure.now }
{
    Procedure {
        symbol_index: procedure.symbol_index,
        end_symbol_index: procedure.end_symbol_index,
        offset: procedure.offset,
        len: procedure.len,
        type_index: procedure.type_index,
        name: procedure.name,
    }
}

/// Adds one more procedure, unless another one begins where it does.
#[tactic(auto, using(crate::proofs::ProcedureSteps::starts_more))]
fn push_new<'t>(
    starts: &mut BTreeSet<(u16, u32)>,
    procedures: &mut Vec<Procedure<'t>>,
    procedure: Procedure<'t>,
) -> std::result::Result<(), AllocError>
    requires { AreStartsOf starts.old procedures.old.items }
    ensures ok { OnOk result
        (procedures.new.items ≡ onto_new procedures.old.items procedure.entry) }
    ensures starts { OnOk result (AreStartsOf starts.new procedures.new.items) }
{
    if starts.insert((procedure.offset.section, procedure.offset.offset))? {
        procedures.push(procedure)?;
    }
    Ok(())
}

/// The procedures among a module's symbols, which are read to their end: procedure symbols, thunks
/// and separated code that can be read and have code, in their order; the first of those with one
/// start. Separated code has the name and the type of the procedure taken last before it, if that
/// one begins at its parent's place; otherwise it isn't taken.
///
/// # Errors
/// The first fault of the symbols: `SymbolTooShort`, `UnexpectedEof`. `OutOfMemory`.
#[tactic(auto, using(crate::proofs::ProcedureSteps::kept_start, crate::proofs::ProcedureSteps::kept_more, crate::proofs::ProcedureSteps::kept_passed, crate::proofs::ProcedureSteps::kept_end, crate::proofs::ProcedureSteps::kept_fault))]
pub fn read_procedures<'t>(alloc: Global, mut symbols: SymbolIter<'t>) -> Result<Vec<Procedure<'t>>>
    ensures { Gives (λ v. v.items) ⊥ result (procedures_of (symbols_left symbols.entry)) }
{
    let mut starts = BTreeSet::new(alloc);
    let mut procedures = Vec::new(alloc);
    let mut last = None;
    while let Some(symbol) = symbols.next()? {
        if !may_be_procedure(symbol.raw_kind()) {
            continue;
        }
        if let Some(procedure) = procedure_with_code(last.as_ref(), &symbol) {
            last = Some(copied(&procedure));
            push_new(&mut starts, &mut procedures, procedure)?;
        }
    }
    Ok(procedures)
}
