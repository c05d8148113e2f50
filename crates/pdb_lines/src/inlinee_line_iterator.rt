//! The rows of an inlined call, one by one.

ghost use Rattle.std.specs.Prelude.{◌≡◌, ◌∷◌, [], List, None, Some, IfSome, IsSome, if◌then◌else◌};
ghost use Rattle.pdb_container.specs.Listing.{ending, Advances};
ghost use Rattle.pdb_addresses.specs.Numbers.{distance};
ghost use Rattle.pdb_symbol_records.specs.Annotations.{is_emitting};
ghost use Rattle.pdb_symbol_records.specs.declared.annotation.BinaryAnnotation.{
  BinaryAnnotation as Annotation,
};
ghost use Rattle.pdb_lines.specs.InlinedRows.{all_rows, place_behind, length_by};
ghost use Rattle.pdb_lines.specs.Operands.{own_length, given_length};
ghost use Rattle.pdb_lines.specs.RowsToCome.{rows_ahead, to_come, row_in_front};

use crate::annotation_state::AnnotationState;
use pdb_container::{Error, FallibleIterator, Result};
use pdb_subsections::{LineInfo, LineInfoKind};
use pdb_symbol_records::{BinaryAnnotation, BinaryAnnotationsIter};
use std::marker::Model;
use std::mem::replace;

/// The length that an annotation gives its row.
fn length_of(annotation: BinaryAnnotation) -> Option<u32>
    ensures { result ≡ own_length annotation }
{
    match annotation {
        BinaryAnnotation::ChangeCodeLengthAndCodeOffset(length, _) => Some(length),
        _ => None,
    }
}

/// The offset of the row that an annotation gives.
#[tactic(auto, using(crate::proofs::OneMore::place_more))]
fn place_after(origin: AnnotationState, annotation: BinaryAnnotation) -> u32
    ensures { result ≡ place_behind origin (annotation ∷ []) }
{
    let mut next = origin;
    next.pass(annotation);
    next.place()
}

/// The distance in bytes from an offset to that row, if the annotation gives one and the row
/// doesn't lie before the offset.
fn distance_at(origin: AnnotationState, start: u32, annotation: BinaryAnnotation) -> Option<u32>
    ensures { result ≡ (if is_emitting annotation
        then distance start (place_behind origin (annotation ∷ [])) else None) }
{
    if annotation.emits_line_info() {
        place_after(origin, annotation).checked_sub(start)
    } else {
        None
    }
}

/// The length that an annotation gives the code before it.
fn length_before(annotation: BinaryAnnotation) -> Option<u32>
    ensures { result ≡ given_length annotation }
{
    match annotation {
        BinaryAnnotation::ChangeCodeLength(length) => Some(length),
        _ => None,
    }
}

/// The length that an annotation gives a row that began before it.
#[tactic(auto, unfolding(crate::specs::InlinedRows::length_by))]
fn length_at(origin: AnnotationState, row: LineInfo, annotation: BinaryAnnotation) -> Option<u32>
    ensures { result ≡ length_by origin row.offset.offset row.kind [] annotation }
{
    if row.kind == origin.kind {
        length_before(annotation).or(distance_at(origin, row.offset.offset, annotation))
    } else {
        None
    }
}

/// Goes over an annotation, where a row may wait for its length. Returns the row that is then
/// whole.
#[tactic(auto, using(crate::proofs::Steps::first_row, crate::proofs::Steps::next_row, crate::proofs::Steps::still_none, crate::proofs::Steps::still_open))]
fn pass_annotation(
    origin: &mut AnnotationState,
    waiting: &mut Option<LineInfo>,
    annotation: BinaryAnnotation,
) -> Option<LineInfo>
    ensures rows { (after : List Annotation) → rows_ahead origin.old waiting.old
        (annotation ∷ after) ≡ row_in_front result (rows_ahead origin.new waiting.new after) }
    ensures waits { IfSome result (λ _. IsSome waiting.new) }
{
    if let Some(row) = waiting {
        row.length = row.length.or(length_at(*origin, *row, annotation));
    }
    origin.pass(annotation);
    if annotation.emits_line_info() {
        replace(waiting, Some(origin.row(length_of(annotation))))
    } else {
        None
    }
}

/// An iterator over the rows of an inlined call. Where an annotation can't be read, its fault is
/// returned in place of the row before it. No row comes after that.
#[derive(Debug, Drop)]
pub struct InlineeLineIterator<'a> {
    annotations: BinaryAnnotationsIter<'a>,
    origin: AnnotationState,
    waiting: Option<LineInfo>,
}

impl<'a> Model for InlineeLineIterator<'a> {
    ghost use Rattle.pdb_container.specs.Listing.{Listing};
    ghost use Rattle.pdb_subsections.specs.declared.line_info.LineInfo.{LineInfo};
    ghost use Rattle.pdb_lines.specs.RowsToCome.{to_come};

    ghost Value = { Listing LineInfo };

    ghost view = { λ i. to_come i.origin i.waiting i.annotations };
}

impl<'a> InlineeLineIterator<'a> {
    /// The rows of these annotations.
    #[tactic(auto, using(crate::proofs::Steps::from_first))]
    pub(crate) fn over_annotations(
        annotations: BinaryAnnotationsIter<'a>,
        origin: AnnotationState,
    ) -> InlineeLineIterator<'a>
        ensures { result ≡ all_rows origin annotations.entry }
    {
        InlineeLineIterator {
            annotations,
            origin,
            waiting: None,
        }
    }
}

impl<'a> FallibleIterator for InlineeLineIterator<'a> {
    type Item = LineInfo;

    type Error = Error;

    ghost has_ended = { λ i. i ≡ ending None };

    ghost next_gives = { Advances (λ row. row) };

    #[tactic(auto, using(crate::proofs::Steps::on, crate::proofs::Steps::gives, crate::proofs::Steps::last_row, crate::proofs::Steps::no_more, crate::proofs::Steps::fault_after))]
    fn next(&mut self) -> Result<Option<LineInfo>> {
        loop {
            match self.annotations.next() {
                Ok(Some(annotation)) => {
                    if let Some(row) = pass_annotation(
                        &mut self.origin,
                        &mut self.waiting,
                        annotation,
                    ) {
                        return Ok(Some(row));
                    }
                }
                Ok(None) => return Ok(self.waiting.take()),
                Err(fault) => {
                    self.waiting = None;
                    return Err(fault);
                }
            }
        }
    }
}
