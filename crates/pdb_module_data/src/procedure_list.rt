//! The procedures of a module, and a search of the one over a place by halving.

ghost use Rattle.std.specs.Prelude.{◌≡◌, IfOk, option_and_then, slice_get};
ghost use Rattle.pdb_container.specs.Fault.{Gives};
ghost use Rattle.pdb_module_data.specs.ProcedurePieces.{procedure_span as span_of_procedure};
ghost use Rattle.pdb_module_data.specs.ProcedurePieces.{procedure_spans as spans_of_procedures};
ghost use Rattle.pdb_module_data.specs.ProcedurePieces.{IsShort, AreShort, StandFor};
ghost use Rattle.pdb_module_data.specs.Procedures.{procedures_of, over as over_of};
ghost use Rattle.pdb_symbol_records.specs.Iteration.{symbols_left};

use crate::memory::{PIECES_OF_SPAN, memory_of};
use crate::procedures::{Procedure, read_procedures};
use pdb_addresses::PdbInternalSectionOffset;
use pdb_container::Result;
use pdb_pieces::{Mark, Pieces, Span, place_number};
use pdb_symbol_records::SymbolIter;
use std::alloc::{AllocError, Global};
use std::marker::Model;

/// The procedures of a module in their order, the first of each start, and pieces of places for a
/// search among them.
#[derive(Drop)]
pub struct Procedures<'t> {
    list: Vec<Procedure<'t>>,
    pieces: Pieces,
}

impl<'t> Model for Procedures<'t> {
    ghost use Rattle.std.specs.Prelude.{List};
    ghost use Rattle.pdb_module_data.specs.ProcedurePieces.{StandFor};
    ghost use Rattle.pdb_module_data.specs.Procedures as procedures;

    ghost Value = { List procedures.Procedure };

    ghost view = { λ p. p.list.items };

    // At each place stands the procedure over it.
    ghost invariant = { λ p. StandFor p.pieces p.list.items };
}

/// The span that a procedure of this number covers, ranked by its start.
fn procedure_span(number: usize, procedure: &Procedure<'_>) -> Span
    ensures span { result ≡ span_of_procedure number procedure.now }
    ensures short { IsShort procedure.now }
{
    let PdbInternalSectionOffset { offset, section } = procedure.offset;
    let start = place_number(PdbInternalSectionOffset { offset, section });
    Span {
        start,
        end: start + u64::from(procedure.len),
        mark: Mark {
            rank: u64::from(offset),
            value: number,
        },
    }
}

/// The spans that procedures cover, each ranked by its start.
fn procedure_spans(
    alloc: Global,
    procedures: &[Procedure<'_>],
) -> std::result::Result<Vec<Span>, AllocError>
    ensures spans { IfOk result (λ v. v.items ≡ spans_of_procedures 0 procedures.now) }
    ensures short { IfOk result (λ v. AreShort procedures.now) }
{
    let mut spans = Vec::with_capacity(alloc, procedures.len())?;
    for (number, procedure) in procedures.iter().enumerate() {
        spans.push(procedure_span(number, procedure))?;
    }
    Ok(spans)
}

/// Pieces of places with the number of the procedure over each.
#[tactic(auto, using(crate::proofs::PieceSteps::stand_for))]
fn procedure_pieces(
    alloc: Global,
    procedures: &[Procedure<'_>],
) -> std::result::Result<Pieces, AllocError>
    ensures { IfOk result (λ pieces. StandFor pieces procedures.now) }
{
    let spans = procedure_spans(alloc, procedures)?;
    Pieces::new(alloc, spans.as_slice())
}

impl<'t> Procedures<'t> {
    /// The procedures among a module's symbols, which are read to their end, as [`read_procedures`]
    /// says.
    ///
    /// # Errors
    /// The first fault of the symbols: `SymbolTooShort`, `UnexpectedEof`. `OutOfMemory`.
    pub fn read(alloc: Global, symbols: SymbolIter<'t>) -> Result<Procedures<'t>>
        ensures { Gives (λ p. p) ⊥ result (procedures_of (symbols_left symbols.entry)) }
    {
        let mut found = read_procedures(alloc, symbols)?;
        let mut list = Vec::with_capacity(alloc, found.len())?;
        list.append(&mut found)?;
        let pieces = procedure_pieces(alloc, list.as_slice())?;
        Ok(Procedures { list, pieces })
    }

    /// The procedures in their order.
    pub fn as_slice(&self) -> &[Procedure<'t>]
        ensures { result.now ≡ self.now }
    {
        self.list.as_slice()
    }

    /// The number of the procedure over a place, counted from 0 in their order: the one with the
    /// greatest start among those that contain it. It takes as many steps as the number of pieces
    /// has binary digits.
    pub fn number_covering(&self, place: PdbInternalSectionOffset) -> Option<usize>
        ensures { option_and_then (λ k. slice_get self.now k) result ≡ over_of self.now place }
    {
        self.pieces.value_at(place)
    }

    /// The approximate number of bytes of memory that they take, at most.
    pub fn memory_size(&self) -> u64 {
        memory_of(self.list.len(), size_of::<Procedure<'_>>() + PIECES_OF_SPAN)
    }
}
