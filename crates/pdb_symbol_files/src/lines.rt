//! Line records: the place of the innermost frame, over addresses where it is the same.

ghost use Rattle.std.specs.Prelude.{◌≡◌, ◌++◌, ◌∷◌, [], None, IfOk, OnOk};
ghost use Rattle.std.specs.Option.{option_to_list};
ghost use Rattle.pdb_symbol_files.specs.Output.{IsAppended};
ghost use Rattle.pdb_symbol_files.specs.PieceRecords.{begun as begun_by, ended, files_after};
ghost use Rattle.pdb_symbol_files.specs.PieceRecords.{is_key, line_spans, lines_text, longer};
ghost use Rattle.pdb_symbol_files.specs.PieceRecords.{next_span};
ghost use Rattle.pdb_symbol_files.specs.Records.{line_record};
ghost use Rattle.pdb_symbol_files.specs.RecordTexts.{line_text};
ghost use Rattle.pdb_symbol_files.specs.Spans.{place_of as place_told, same_place};

use crate::numbering::Numbering;
use crate::pieces::{Piece, Told};
use std::alloc::{AllocError, Global};
use std::marker::Model;

/// A place in a source file.
#[derive(Drop)]
pub(crate) struct SourcePlace<'p> {
    pub(crate) file: &'p str,
    pub(crate) line: u32,
}

impl<'p> Model for SourcePlace<'p> {
    ghost use Rattle.pdb_symbol_files.specs.Spans as stretching;

    ghost Value = { stretching.SourcePlace };

    ghost view = { λ s. record { file = s.file.now; line = s.line } };
}

/// Addresses with one place of the innermost frame.
#[derive(Drop)]
pub(crate) struct LineStretch<'p> {
    pub(crate) start: u32,
    pub(crate) end: u64,
    pub(crate) place: SourcePlace<'p>,
}

impl<'p> Model for LineStretch<'p> {
    ghost use Rattle.pdb_symbol_files.specs.Spans as stretching;

    ghost Value = { stretching.Span stretching.SourcePlace };

    ghost view = { λ s. record { start = s.start; end = s.end; key = s.place } };
}

/// The place of the innermost frame, if anything is known of it.
fn place_of(told: &Told) -> Option<SourcePlace<'_>>
    ensures { result ≡ place_told told.now }
{
    if told.line == 0 && told.file.as_str() == "??" {
        return None;
    }
    Some(SourcePlace {
        file: told.file.as_str(),
        line: told.line,
    })
}

/// Whether two places are the same.
fn is_one_place(a: &SourcePlace<'_>, b: &SourcePlace<'_>) -> bool
    ensures { result ≡ same_place a.now b.now }
{
    a.line == b.line && a.file == b.file
}

/// Whether a stretch goes on with a place.
fn goes_on(stretch: &LineStretch<'_>, place: &Option<SourcePlace<'_>>) -> bool
    ensures { result ≡ is_key same_place (stretch.now).key place.now }
{
    match place {
        Some(place) => is_one_place(&stretch.place, place),
        None => false,
    }
}

/// The stretch of a piece, if it has a place.
fn begun<'p>(piece: &Piece, place: Option<SourcePlace<'p>>) -> Option<LineStretch<'p>>
    ensures { result ≡ begun_by piece.now place.entry }
{
    match place {
        Some(place) => Some(LineStretch {
            start: piece.address,
            end: u64::from(piece.address) + u64::from(piece.size),
            place,
        }),
        None => None,
    }
}

/// The stretch that ends before a piece, if one does, and the stretch that runs after it.
fn advanced<'p>(
    running: Option<LineStretch<'p>>,
    piece: &Piece,
    place: Option<SourcePlace<'p>>,
) -> (Option<LineStretch<'p>>, Option<LineStretch<'p>>)
    ensures ended { option_to_list result.0
        ≡ ended running.entry (longer same_place running.entry piece.now place.entry) }
    ensures next { result.1 ≡ next_span same_place running.entry piece.now place.entry }
{
    let Some(stretch) = running else {
        return (None, begun(piece, place));
    };
    if goes_on(&stretch, &place) {
        let LineStretch {
            start,
            end: _,
            place,
        } = stretch;
        let end = u64::from(piece.address) + u64::from(piece.size);
        return (None, Some(LineStretch { start, end, place }));
    }
    (Some(stretch), begun(piece, place))
}

/// Appends a stretch, if there is one.
fn push_if_some<'p>(
    stretches: &mut Vec<LineStretch<'p>>,
    stretch: Option<LineStretch<'p>>,
) -> Result<(), AllocError>
    ensures { OnOk result (stretches.new.items
        ≡ stretches.old.items ++ option_to_list stretch.entry) }
{
    match stretch {
        Some(stretch) => Ok(stretches.push(stretch)?),
        None => Ok(()),
    }
}

/// The stretches of a function's pieces.
#[tactic(auto, using(crate::proofs::SpanSteps::line_step, crate::proofs::SpanSteps::line_end))]
fn stretches_of<'p>(alloc: Global, pieces: &'p [Piece]) -> Result<Vec<LineStretch<'p>>, AllocError>
    ensures { IfOk result (λ v. v.items ≡ line_spans pieces.now) }
{
    let mut stretches = Vec::new(alloc);
    let mut running: Option<LineStretch<'p>> = None;
    for piece in pieces {
        let (ended, next) = advanced(running, piece, place_of(&piece.told));
        push_if_some(&mut stretches, ended)?;
        running = next;
    }
    push_if_some(&mut stretches, running)?;
    Ok(stretches)
}

/// Appends the line record of a stretch.
fn append_line(
    stretch: &LineStretch<'_>,
    files: &mut Numbering,
    output: &mut String,
) -> Result<(), AllocError>
    ensures files { OnOk result (files.new ≡ files_after files.old (stretch.now ∷ [])) }
    ensures text { OnOk result
        (IsAppended output.old output.new (line_text (line_record files.old stretch.now))) }
{
    let file = files.number(stretch.place.file)?;
    let (address, line) = (stretch.start, stretch.place.line);
    let size = stretch.end.saturating_sub(u64::from(address));
    write!(output, "{address:x} {size:x} {line} {file}\n")
}

/// Appends the line records of a function's pieces.
///
/// # Errors
/// `AllocError` when memory runs out.
#[tactic(auto, using(crate::proofs::LineSteps::files_more, crate::proofs::LineSteps::text_more, crate::proofs::LineSteps::files_end, crate::proofs::LineSteps::text_end))]
pub(crate) fn append_lines(
    alloc: Global,
    pieces: &[Piece],
    files: &mut Numbering,
    output: &mut String,
) -> Result<(), AllocError>
    ensures files { OnOk result (files.new ≡ files_after files.old (line_spans pieces.now)) }
    ensures text { OnOk result
        (IsAppended output.old output.new (lines_text files.old pieces.now)) }
{
    let stretches = stretches_of(alloc, pieces)?;
    for stretch in stretches.iter() {
        append_line(stretch, files, output)?;
    }
    Ok(())
}
