//! Cuts spans that may overlap into pieces that don't.

ghost use Rattle.std.specs.Prelude.{◌≡◌, ℕ, ◌+◌, ◌*◌, ◌^◌, ◌<◌, ◌≤◌, IfOk, OnOk, Option, Some};
ghost use Rattle.std.specs.Prelude.{None, if◌then◌else◌, nat_le, min, length, drop, [], ◌∷◌};
ghost use Rattle.std.specs.Prelude.{vec_len};
ghost use Rattle.pdb_pieces.specs.Spans.{mark_over, better, best, ArePieces, AreRuns, AreWide};
ghost use Rattle.pdb_pieces.specs.Spans.{AddsBetter, IsAhead, StandsWith, FirstReaches};

use crate::span::{Mark, Span, better_of};
use std::alloc::{AllocError, Global};
use std::mem::swap;

/// Room that is taken ahead for the ends of runs, so that a list of few of them isn't moved as it
/// grows.
const RUNS_AHEAD: usize = 16;

/// The mark that stands from a place on, and the bound before which it may change.
#[derive(Clone, Copy)]
struct Ahead {
    /// The mark, if one stands there.
    mark: Option<Mark>,
    /// The bound before which it stands.
    until: u64,
}

/// The mark of the spans from a place on, where the spans from number `i` on count.
fn look_ahead(spans: &[Span], i: usize, from: u64) -> Ahead
    requires { IsAhead spans.now i from u64.MAX }
    ensures stands { StandsWith spans.now from result.until result.mark }
    ensures further { from < u64.MAX → from < result.until }
    ensures bound { result.until ≤ u64.MAX }
    ensures first { FirstReaches result.until (drop i spans.now) }
{
    if i == spans.len() {
        return Ahead {
            mark: None,
            until: u64::MAX,
        };
    }
    let span = spans[i];
    if from < span.start {
        Ahead {
            mark: None,
            until: span.start,
        }
    } else {
        Ahead {
            mark: Some(span.mark),
            until: span.end,
        }
    }
}

/// The number of the first of the spans that ends past `to`.
fn pass(spans: &[Span], i: usize, to: u64) -> usize
    requires ahead { (from : ℕ) × (from ≤ to) × IsAhead spans.now i from u64.MAX }
    requires first { FirstReaches to (drop i spans.now) }
    ensures { IsAhead spans.now result to u64.MAX }
{
    if i < spans.len() && spans[i].end <= to {
        i + 1
    } else {
        i
    }
}

/// Appends pieces that have at each place the better mark of both lists. It goes from bound to
/// bound.
fn overlay(pieces: &mut Vec<Span>, left: &[Span], right: &[Span]) -> Result<(), AllocError>
    requires left { ArePieces 0 u64.MAX left.now }
    requires right { ArePieces 0 u64.MAX right.now }
    ensures { OnOk result (AddsBetter pieces.old.items pieces.new.items left.now right.now) }
{
    let mut from = 0;
    let mut i = 0;
    let mut j = 0;
    while from < u64::MAX {
        let in_left = look_ahead(left, i, from);
        let in_right = look_ahead(right, j, from);
        let to = in_left.until.min(in_right.until);
        if let Some(mark) = better_of(in_left.mark, in_right.mark) {
            let start = from;
            pieces.push(Span {
                start,
                end: to,
                mark,
            })?;
        }
        from = to;
        i = pass(left, i, to);
        j = pass(right, j, to);
    }
    Ok(())
}

/// Appends a span; extends the last one if it continues it with the same mark.
fn push_joined(spans: &mut Vec<Span>, span: Span) -> Result<(), AllocError>
    requires wide { span.start < span.end }
    requires all_wide { AreWide spans.old.items }
    ensures wide { OnOk result (AreWide spans.new.items) }
    ensures best { OnOk result ((p : ℕ) → best spans.new.items p
        ≡ better (best spans.old.items p) (mark_over span p)) }
{
    match spans.pop() {
        None => spans.push(span)?,
        Some(last) => {
            if last.end == span.start && last.mark == span.mark {
                spans.push(Span {
                    start: last.start,
                    end: span.end,
                    mark: last.mark,
                })?;
            } else {
                spans.push(last)?;
                spans.push(span)?;
            }
        }
    }
    Ok(())
}

/// The spans that cover anything; neighbors of one mark, of which one goes on where the other ends,
/// are one span.
fn joined(alloc: Global, spans: &[Span]) -> Result<Vec<Span>, AllocError>
    ensures wide { IfOk result (λ v. AreWide v.items) }
    ensures best { IfOk result (λ v. (p : ℕ) → best v.items p ≡ best spans.now p) }
{
    let mut wide = Vec::with_capacity(alloc, spans.len())?;
    for span in spans {
        if span.start < span.end {
            push_joined(&mut wide, *span)?;
        }
    }
    Ok(wide)
}

/// The ends of the runs of spans: each run goes on as long as they ascend and lie apart.
fn run_ends(alloc: Global, spans: &[Span]) -> Result<Vec<usize>, AllocError>
    requires { AreWide spans.now }
    ensures { IfOk result (λ v. AreRuns spans.now 0 v.items (length spans.now)) }
{
    let mut ends = Vec::with_capacity(alloc, RUNS_AHEAD)?;
    let mut end = 0;
    let mut i = 0;
    while i < spans.len() {
        let span = spans[i];
        if span.start < end {
            ends.push(i)?;
        }
        end = span.end;
        i += 1;
    }
    ends.push(i)?;
    Ok(ends)
}

/// Makes one run of each two neighbors; an odd last one stays.
fn merge_pairs(
    spans: &[Span],
    ends: &[usize],
    merged: &mut Vec<Span>,
    merged_ends: &mut Vec<usize>,
) -> Result<(), AllocError>
    requires { AreRuns spans.now 0 ends.now (length spans.now) }
    ensures runs { OnOk result
        (AreRuns merged.new.items 0 merged_ends.new.items (length merged.new.items)) }
    ensures best { OnOk result ((p : ℕ) → best merged.new.items p ≡ best spans.now p) }
    ensures half { OnOk result (vec_len merged_ends.new * 2 ≤ length ends.now + 1) }
{
    merged.clear();
    merged_ends.clear();
    let mut from = 0;
    let mut i = 0;
    while i + 1 < ends.len() {
        let middle = ends[i];
        let to = ends[i + 1];
        overlay(merged, &spans[from..middle], &spans[middle..to])?;
        merged_ends.push(merged.len())?;
        from = to;
        i += 2;
    }
    if i < ends.len() {
        let to = ends[i];
        merged.extend_from_slice(&spans[from..to])?;
        merged_ends.push(merged.len())?;
    }
    Ok(())
}

/// Pieces that at each place have the mark of the best span over it: the one of greatest rank, of
/// equals the first. Neighboring runs are merged in rounds, from one list into another and back, so
/// that n spans take some n log n steps; spans that ascend and lie apart are pieces as they stand.
pub fn cut(alloc: Global, spans: &[Span]) -> Result<Vec<Span>, AllocError>
    ensures pieces { IfOk result (λ v. ArePieces 0 u64.MAX v.items) }
    ensures best { IfOk result (λ v. (p : ℕ) → best v.items p ≡ best spans.now p) }
{
    let mut runs = joined(alloc, spans)?;
    let mut ends = run_ends(alloc, &runs)?;
    if ends.len() == 1 {
        return Ok(runs);
    }
    let mut merged = Vec::with_capacity(alloc, runs.len().saturating_mul(2))?;
    let mut merged_ends = Vec::with_capacity(alloc, ends.len())?;
    while ends.len() > 1 {
        merge_pairs(&runs, &ends, &mut merged, &mut merged_ends)?;
        swap(&mut runs, &mut merged);
        swap(&mut ends, &mut merged_ends);
    }
    Ok(runs)
}
