//! Short spans, which take half as much memory as others.

ghost use Rattle.std.specs.Prelude.{◌≡◌, ◌<◌, IfOk, IfSome};
ghost use Rattle.pdb_pieces.specs.ShortSpans.{rank_by, whole_span, whole_spans};

use crate::ascending::Begins;
use crate::span::{Mark, Span};
use std::alloc::{AllocError, Global};

/// The number of codes of ranks.
const CODES: u64 = 1 << 15;

/// The code of the rank that is the offset of the first place. Other codes are ranks.
const OFFSET: u64 = CODES - 1;

/// The count of numbers for the places of one section.
const SECTION: u64 = 1 << 33;

/// The bound of places below which a short span begins.
const PLACES: u64 = 1 << 49;

/// The greatest number of places that a short span may cover.
const MOST_PLACES: u64 = 1 << 32;

/// A span that begins below 2^49, covers 2^32 places at most, and has a value of 32 bits and a rank
/// that has a code.
#[derive(Clone, Copy, Debug)]
pub struct ShortSpan {
    /// The first place, times 2^15, and the code of the rank.
    place_and_code: u64,
    /// The distance from the first place to the last one.
    to_last: u32,
    /// The value of the mark.
    value: u32,
}

/// A short span begins at its first place.
impl Begins for ShortSpan {
    ghost use Rattle.std.specs.Prelude.{◌/◌};

    ghost beginning = { λ s. s.place_and_code / 32768 };

    fn begins_at(&self) -> u64 {
        self.place_and_code / CODES
    }
}

/// The code of the rank of a span that begins at a place, if it has one.
fn code_of(start: u64, rank: u64) -> Option<u64>
    ensures few { IfSome result (λ code. code < 32768) }
    ensures rank { IfSome result (λ code. rank_by start code ≡ rank) }
{
    if rank < OFFSET {
        Some(rank)
    } else if rank == start % SECTION {
        Some(OFFSET)
    } else {
        None
    }
}

/// The rank of a span that begins at a place, by its code.
fn rank_of(start: u64, code: u64) -> u64
    ensures { result ≡ rank_by start code }
{
    if code < OFFSET { code } else { start % SECTION }
}

impl ShortSpan {
    /// The span, if it is short.
    #[tactic(auto, using(crate::proofs::ShortSpanSteps::shorter))]
    fn of(span: Span) -> Option<ShortSpan>
        ensures { IfSome result (λ s. whole_span s ≡ span) }
    {
        let code = code_of(span.start, span.mark.rank)?;
        if span.start >= PLACES || span.end <= span.start {
            return None;
        }
        let to_last = span.end - span.start - 1;
        if to_last >= MOST_PLACES || span.mark.value > u32::MAX as usize {
            return None;
        }
        Some(ShortSpan {
            place_and_code: span.start * CODES + code,
            to_last: to_last as u32,
            value: span.mark.value as u32,
        })
    }

    /// The span that it stands for.
    pub fn whole(&self) -> Span
        ensures { result ≡ whole_span self.now }
    {
        let start = self.place_and_code / CODES;
        let rank = rank_of(start, self.place_and_code % CODES);
        Span {
            start,
            end: start + u64::from(self.to_last) + 1,
            mark: Mark {
                rank,
                value: self.value as usize,
            },
        }
    }
}

/// Short spans in place of these spans, if each is short.
pub fn short_spans(alloc: Global, spans: &[Span]) -> Result<Option<Vec<ShortSpan>>, AllocError>
    ensures { IfOk result (λ short. IfSome short (λ v. whole_spans v.items ≡ spans.now)) }
{
    let mut short = Vec::with_capacity(alloc, spans.len())?;
    for span in spans {
        match ShortSpan::of(*span) {
            None => return Ok(None),
            Some(one) => short.push(one)?,
        }
    }
    Ok(Some(short))
}
