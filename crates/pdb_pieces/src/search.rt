//! Finds the piece that holds a place, by binary search.

ghost use Rattle.std.specs.Prelude.{◌≡◌, ℕ, ◌+◌, ◌^◌, ◌<◌, ◌≤◌, ◌↔◌, IfOk, Some, length, slice_get};
ghost use Rattle.std.specs.Option.{option_map};
ghost use Rattle.pdb_pieces.specs.Halving.{IsSplit};
ghost use Rattle.pdb_pieces.specs.ShortSpans.{stored_spans, whole_spans};
ghost use Rattle.pdb_pieces.specs.Spans.{best, place_number as number_of_place, starts_of};
ghost use Rattle.pdb_pieces.specs.Spans.{ArePieces, PieceHolds, mark_at};
ghost use Rattle.pdb_pieces.specs.declared.span.Span.{Span};

use crate::ascending::count_begun;
use crate::cut::cut;
use crate::short_spans::{ShortSpan, short_spans};
use crate::span::{Span, place_number};
use pdb_addresses::PdbInternalSectionOffset;
use std::alloc::{AllocError, Global};
use std::marker::Model;

/// Spans as they are stored: as short ones where each is short.
#[derive(Drop)]
enum Stored {
    /// Short spans.
    Short(Vec<ShortSpan>),
    /// Spans of which some aren't short.
    Whole(Vec<Span>),
}

/// Pieces: spans in ascending order, none empty and no two over one place.
#[derive(Drop)]
pub struct Pieces {
    stored: Stored,
}

impl Model for Pieces {
    ghost use Rattle.std.specs.Prelude.{List};
    ghost use Rattle.pdb_pieces.specs.declared.span.Span.{Span};
    ghost use Rattle.pdb_pieces.specs.ShortSpans.{stored_spans};
    ghost use Rattle.pdb_pieces.specs.Spans.{ArePieces};

    ghost Value = { List Span };

    ghost view = { λ p. stored_spans p.stored };

    ghost invariant = { λ p. ArePieces 0 18446744073709551615 (stored_spans p.stored) };
}

/// Stores spans.
fn store(alloc: Global, mut spans: Vec<Span>) -> Result<Stored, AllocError>
    ensures { IfOk result (λ s. stored_spans s ≡ spans.items) }
{
    match short_spans(alloc, spans.as_slice())? {
        Some(short) => Ok(Stored::Short(short)),
        None => {
            spans.shrink_to_fit();
            Ok(Stored::Whole(spans))
        }
    }
}

/// The span that the short one with that number stands for, if it is there.
#[tactic(auto, using(crate::proofs::ShortSpanSteps::numbered_alike))]
fn short_numbered(spans: &[ShortSpan], number: usize) -> Option<Span>
    ensures { result ≡ slice_get (whole_spans spans.now) number }
{
    let span = spans.get(number)?;
    Some(span.whole())
}

/// The stored span with that number, if it is there.
fn span_numbered(stored: &Stored, number: usize) -> Option<Span>
    ensures { result ≡ slice_get (stored_spans stored.now) number }
{
    match stored {
        Stored::Short(short) => short_numbered(short.as_slice(), number),
        Stored::Whole(spans) => spans.as_slice().get(number).copied(),
    }
}

/// The end of the stored span with that number; 0 where it isn't there.
fn end_numbered(stored: &Stored, number: usize) -> u64
    ensures { (s : Span) → slice_get (stored_spans stored.now) number ≡ Some s → s.end ≡ result }
{
    match span_numbered(stored, number) {
        None => 0,
        Some(span) => span.end,
    }
}

/// The number of short pieces that begin at a place or before it, and the number of probes.
#[tactic(auto, using(crate::proofs::ShortSpanSteps::short_ascend, crate::proofs::ShortSpanSteps::short_probes, crate::proofs::ShortSpanSteps::short_fewest))]
fn count_short(spans: &[ShortSpan], place: u64) -> (usize, u32)
    requires { ArePieces 0 u64.MAX (whole_spans spans.now) }
    ensures begun { IsSplit (starts_of (whole_spans spans.now)) place result.0 }
    ensures probes { (digits : ℕ) → length (whole_spans spans.now) < 2 ^ digits
        → result.1 ≤ digits }
    ensures fewest { length (whole_spans spans.now) + 1 < 2 ^ (result.1 + 1) }
{
    count_begun(spans, place)
}

/// The number of pieces that begin at a place or before it, and the number of probes.
#[tactic(auto, using(crate::proofs::ShortSpanSteps::whole_ascend))]
fn count_whole(spans: &[Span], place: u64) -> (usize, u32)
    requires { ArePieces 0 u64.MAX spans.now }
    ensures begun { IsSplit (starts_of spans.now) place result.0 }
    ensures probes { (digits : ℕ) → length spans.now < 2 ^ digits → result.1 ≤ digits }
    ensures fewest { length spans.now + 1 < 2 ^ (result.1 + 1) }
{
    count_begun(spans, place)
}

/// The number of stored pieces that begin at a place or before it, and the number of probes.
fn count_stored(stored: &Stored, place: u64) -> (usize, u32)
    requires { ArePieces 0 u64.MAX (stored_spans stored.now) }
    ensures begun { IsSplit (starts_of (stored_spans stored.now)) place result.0 }
    ensures probes { (digits : ℕ) → length (stored_spans stored.now) < 2 ^ digits
        → result.1 ≤ digits }
    ensures fewest { length (stored_spans stored.now) + 1 < 2 ^ (result.1 + 1) }
{
    match stored {
        Stored::Short(short) => count_short(short.as_slice(), place),
        Stored::Whole(spans) => count_whole(spans.as_slice(), place),
    }
}

/// The number of the stored piece that holds the place, and the number of probes.
fn find_piece(stored: &Stored, place: u64) -> (Option<usize>, u32)
    requires { ArePieces 0 u64.MAX (stored_spans stored.now) }
    ensures one { (i : ℕ) → (result.0 ≡ Some i) ↔ PieceHolds (stored_spans stored.now) place i }
    ensures best { best (stored_spans stored.now) place
        ≡ mark_at (stored_spans stored.now) result.0 }
    ensures probes { (digits : ℕ) → length (stored_spans stored.now) < 2 ^ digits
        → result.1 ≤ digits }
    ensures fewest { length (stored_spans stored.now) + 1 < 2 ^ (result.1 + 1) }
{
    let (count, probes) = count_stored(stored, place);
    if count == 0 {
        return (None, probes);
    }
    let end = end_numbered(stored, count - 1);
    if place < end {
        (Some(count - 1), probes)
    } else {
        (None, probes)
    }
}

impl Pieces {
    /// Cuts spans that may overlap into pieces: each place gets the mark of the best span over it,
    /// the one of greatest rank, of equals the first.
    ///
    /// # Errors
    /// `AllocError` when memory runs out.
    pub fn new(alloc: Global, spans: &[Span]) -> Result<Self, AllocError>
        ensures { IfOk result (λ pieces. (p : ℕ) → best pieces p ≡ best spans.now p) }
    {
        let pieces = cut(alloc, spans)?;
        let stored = store(alloc, pieces)?;
        Ok(Pieces { stored })
    }

    /// The number of the one piece that holds the place, if one does, and the number of probes: of
    /// n pieces as many as n has binary digits, or one fewer.
    pub fn at(&self, place: PdbInternalSectionOffset) -> (Option<usize>, u32)
        ensures one { (i : ℕ) → (result.0 ≡ Some i)
            ↔ PieceHolds self.now (number_of_place place) i }
        ensures best { best self.now (number_of_place place) ≡ mark_at self.now result.0 }
        ensures probes { (digits : ℕ) → length self.now < 2 ^ digits → result.1 ≤ digits }
        ensures fewest { length self.now + 1 < 2 ^ (result.1 + 1) }
    {
        find_piece(&self.stored, place_number(place))
    }

    /// The value of the piece that holds the place.
    pub fn value_at(&self, place: PdbInternalSectionOffset) -> Option<usize>
        ensures { result ≡ option_map (λ m. m.value) (best self.now (number_of_place place)) }
    {
        let number = self.at(place).0?;
        let piece = span_numbered(&self.stored, number)?;
        Some(piece.mark.value)
    }
}
