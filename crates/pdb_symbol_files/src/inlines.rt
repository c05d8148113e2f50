//! INLINE records: inlined calls, over addresses where a call and all calls around it are the same.

ghost use Rattle.std.specs.Prelude.{◌≡◌, ◌++◌, ◌∷◌, [], None, IfOk, IfSome, OnOk};
ghost use Rattle.std.specs.Option.{option_to_list};
ghost use Rattle.pdb_symbol_files.specs.Output.{IsAppended};
ghost use Rattle.pdb_symbol_files.specs.CommonCalls.{common_calls as common_calls_of};
ghost use Rattle.pdb_symbol_files.specs.CommonCalls.{common_with_last};
ghost use Rattle.pdb_symbol_files.specs.PieceRecords.{begun as begun_by, depth_of as depth_in};
ghost use Rattle.pdb_symbol_files.specs.PieceRecords.{ended, inlines_text, is_key, level_spans};
ghost use Rattle.pdb_symbol_files.specs.PieceRecords.{level_text, longer, next_span, numbers_after};
ghost use Rattle.pdb_symbol_files.specs.PieceRecords.{numbers_after_inlines, path_in};
ghost use Rattle.pdb_symbol_files.specs.Records.{inline_record};
ghost use Rattle.pdb_symbol_files.specs.RecordTexts.{call_text, inline_text, range_text};
ghost use Rattle.pdb_symbol_files.specs.Spans.{same_calls};

use crate::numbering::Numbering;
use crate::pieces::{Call, Piece, is_one_call};
use std::alloc::{AllocError, Global};
use std::marker::Model;

/// An inlined call, and the calls around it, the outermost one first.
#[derive(Drop)]
pub(crate) struct Path<'p> {
    pub(crate) outer: &'p [Call],
    pub(crate) call: &'p Call,
}

impl<'p> Model for Path<'p> {
    ghost use Rattle.pdb_symbol_files.specs.Spans as stretching;

    ghost Value = { stretching.Path };

    ghost view = { λ p. record { outer = p.outer.now; call = p.call.now } };
}

/// Addresses with one path at a level of calls.
#[derive(Drop)]
pub(crate) struct CallStretch<'p> {
    pub(crate) start: u32,
    pub(crate) end: u64,
    pub(crate) path: Path<'p>,
}

impl<'p> Model for CallStretch<'p> {
    ghost use Rattle.pdb_symbol_files.specs.Spans as stretching;

    ghost Value = { stretching.Span stretching.Path };

    ghost view = { λ s. record { start = s.start; end = s.end; key = s.path } };
}

/// The path of a piece to the call at a level, if there is one.
fn path_of(piece: &Piece, level: usize) -> Option<Path<'_>>
    ensures { result ≡ path_in level piece.now }
{
    let calls = piece.told.calls.as_slice();
    if level < calls.len() {
        Some(Path {
            outer: &calls[..level],
            call: &calls[level],
        })
    } else {
        None
    }
}

/// The number of calls at the start of two lists that are the same in both.
#[tactic(auto, using(crate::proofs::CommonPaths::one_more, crate::proofs::CommonPaths::differs, crate::proofs::CommonPaths::first_ends, crate::proofs::CommonPaths::second_ends))]
fn common_calls(a: &[Call], b: &[Call]) -> usize
    ensures { result ≡ common_calls_of a.now b.now }
{
    let mut common = 0;
    while common < a.len() && common < b.len() && is_one_call(&a[common], &b[common]) {
        common += 1;
    }
    common
}

/// The number of calls that each piece has in common with the one before it; the first has none.
fn commons_of(alloc: Global, pieces: &[Piece]) -> Result<Vec<usize>, AllocError>
    ensures { IfOk result (λ commons. commons.items ≡ common_with_last [] pieces.now) }
{
    let mut commons = Vec::new(alloc);
    let mut last: &[Call] = &[];
    for piece in pieces {
        let calls = piece.told.calls.as_slice();
        commons.push(common_calls(last, calls))?;
        last = calls;
    }
    Ok(commons)
}

/// The stretch of a piece, if it has a path.
fn begun<'p>(piece: &Piece, path: Option<Path<'p>>) -> Option<CallStretch<'p>>
    ensures { result ≡ begun_by piece.now path.entry }
{
    match path {
        Some(path) => Some(CallStretch {
            start: piece.address,
            end: u64::from(piece.address) + u64::from(piece.size),
            path,
        }),
        None => None,
    }
}

/// The stretch that ends before a piece, if one does, and the stretch that runs after it. `goes_on`
/// says whether `running` goes on with the piece.
fn advanced<'p>(
    running: Option<CallStretch<'p>>,
    piece: &Piece,
    path: Option<Path<'p>>,
    goes_on: bool,
) -> (Option<CallStretch<'p>>, Option<CallStretch<'p>>)
    requires { IfSome running (λ s. goes_on ≡ is_key same_calls s.key path) }
    ensures ended { option_to_list result.0
        ≡ ended running.entry (longer same_calls running.entry piece.now path.entry) }
    ensures next { result.1 ≡ next_span same_calls running.entry piece.now path.entry }
{
    let Some(stretch) = running else {
        return (None, begun(piece, path));
    };
    if goes_on {
        let CallStretch {
            start,
            end: _,
            path,
        } = stretch;
        let end = u64::from(piece.address) + u64::from(piece.size);
        return (None, Some(CallStretch { start, end, path }));
    }
    (Some(stretch), begun(piece, path))
}

/// Appends a stretch, if there is one.
fn push_if_some<'p>(
    stretches: &mut Vec<CallStretch<'p>>,
    stretch: Option<CallStretch<'p>>,
) -> Result<(), AllocError>
    ensures { OnOk result (stretches.new.items
        ≡ stretches.old.items ++ option_to_list stretch.entry) }
{
    match stretch {
        Some(stretch) => Ok(stretches.push(stretch)?),
        None => Ok(()),
    }
}

/// The stretches of a level of a function's pieces, from the number of calls that each piece has in
/// common with the one before it.
fn stretches_of<'p>(
    alloc: Global,
    pieces: &'p [Piece],
    commons: &[usize],
    level: usize,
) -> Result<Vec<CallStretch<'p>>, AllocError>
    requires { commons.now ≡ common_with_last [] pieces.now }
    ensures { IfOk result (λ v. v.items ≡ level_spans level pieces.now) }
{
    let mut stretches = Vec::new(alloc);
    let mut running: Option<CallStretch<'p>> = None;
    for index in 0..pieces.len() {
        let (piece, goes_on) = (&pieces[index], level < commons[index]);
        let (ended, next) = advanced(running, piece, path_of(piece, level), goes_on);
        push_if_some(&mut stretches, ended)?;
        running = next;
    }
    push_if_some(&mut stretches, running)?;
    Ok(stretches)
}

/// The numbers of files and of inlined functions.
#[derive(Drop)]
pub(crate) struct Numbers {
    pub(crate) files: Numbering,
    pub(crate) origins: Numbering,
}

impl Model for Numbers {
    ghost use Rattle.pdb_symbol_files.specs.Records as numbering;

    ghost Value = { numbering.Numbers };

    ghost view = { λ n. record { files = n.files; origins = n.origins } };
}

/// Appends an INLINE record up to its addresses.
fn append_call(
    level: usize,
    line: u32,
    file: usize,
    origin: usize,
    output: &mut String,
) -> Result<(), AllocError>
    ensures { OnOk result (IsAppended output.old output.new (call_text level line file origin)) }
{
    write!(output, "INLINE {level} {line} {file} {origin} ")
}

/// Appends the addresses of an INLINE record, `size` from `address` on, and the line's end.
fn append_range(address: u32, size: u64, output: &mut String) -> Result<(), AllocError>
    ensures { OnOk result (IsAppended output.old output.new (range_text address size)) }
{
    write!(output, "{address:x} {size:x}\n")
}

/// Appends the record of a stretch of a level.
fn append_inline(
    stretch: &CallStretch<'_>,
    level: usize,
    numbers: &mut Numbers,
    output: &mut String,
) -> Result<(), AllocError>
    ensures numbers { OnOk result (numbers.new ≡ numbers_after numbers.old (stretch.now ∷ [])) }
    ensures text { OnOk result
        (IsAppended output.old output.new (inline_text (inline_record numbers.old level stretch.now))) }
{
    let call = stretch.path.call;
    let file = numbers.files.number(call.file.as_str())?;
    let origin = numbers.origins.number(call.callee.as_str())?;
    append_call(level, call.line, file, origin, output)?;
    let size = stretch.end.saturating_sub(u64::from(stretch.start));
    append_range(stretch.start, size, output)?;
    Ok(())
}

/// Appends the INLINE records of a level.
#[tactic(auto, using(crate::proofs::InlineSteps::numbers_more, crate::proofs::InlineSteps::text_more, crate::proofs::InlineSteps::numbers_end, crate::proofs::InlineSteps::text_end))]
fn append_level(
    alloc: Global,
    pieces: &[Piece],
    commons: &[usize],
    level: usize,
    numbers: &mut Numbers,
    output: &mut String,
) -> Result<(), AllocError>
    requires { commons.now ≡ common_with_last [] pieces.now }
    ensures numbers { OnOk result (numbers.new
        ≡ numbers_after numbers.old (level_spans level pieces.now)) }
    ensures text { OnOk result
        (IsAppended output.old output.new (level_text numbers.old level pieces.now)) }
{
    let stretches = stretches_of(alloc, pieces, commons, level)?;
    for stretch in stretches.iter() {
        append_inline(stretch, level, numbers, output)?;
    }
    Ok(())
}

/// The number of levels of calls that pieces have.
#[tactic(auto, using(crate::proofs::InlineSteps::depth_more, crate::proofs::InlineSteps::depth_end))]
fn levels_of(pieces: &[Piece]) -> usize
    ensures { result ≡ depth_in pieces.now }
{
    let mut depth = 0;
    for piece in pieces {
        depth = piece.told.calls.len().max(depth);
    }
    depth
}

/// Appends the INLINE records of a function's pieces, by level.
///
/// # Errors
/// `AllocError` when memory runs out.
#[tactic(auto, using(crate::proofs::InlineSteps::levels_more, crate::proofs::InlineSteps::levels_text_more, crate::proofs::InlineSteps::levels_end, crate::proofs::InlineSteps::levels_text_end))]
pub(crate) fn append_inlines(
    alloc: Global,
    pieces: &[Piece],
    numbers: &mut Numbers,
    output: &mut String,
) -> Result<(), AllocError>
    ensures numbers { OnOk result (numbers.new ≡ numbers_after_inlines numbers.old pieces.now) }
    ensures text { OnOk result
        (IsAppended output.old output.new (inlines_text numbers.old pieces.now)) }
{
    let depth = levels_of(pieces);
    let commons = commons_of(alloc, pieces)?;
    for level in 0..depth {
        append_level(alloc, pieces, commons.as_slice(), level, numbers, output)?;
    }
    Ok(())
}
