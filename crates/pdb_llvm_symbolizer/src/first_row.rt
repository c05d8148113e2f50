//! The first row of a function whose first row lies after its start.

ghost use Rattle.std.specs.Prelude.{◌≡◌};
ghost use Rattle.pdb_addr2line.specs.Context.{lasting};

use crate::loaded::frames_or_none;
use pdb_addr2line::{FileContext, Function, SharedFunctionFrames};
use pdb_llvm_protocol::{Asked, ReportOptions, ReportedFrame, report_frame};
use std::alloc::{AllocError, Global};

/// The frames at the first row of a function.
#[derive(Drop)]
pub struct FirstRow<'a> {
    found: SharedFunctionFrames<'a>,
    /// The RVA of the row.
    pub rva: u32,
    /// How many inlined calls there are at the address that is asked about.
    calls: usize,
}

/// Whether the function's own frame comes from a row that begins in the function.
fn has_begun(found: &Option<SharedFunctionFrames<'_>>, start: u32) -> bool {
    let Some(found) = found else {
        return false;
    };
    let Some(own) = found.frames.last() else {
        return false;
    };
    match own.row {
        Some(row) => start <= row.start_rva,
        None => false,
    }
}

/// Whether a row of the function has begun at an address in it.
fn has_begun_at(
    alloc: Global,
    context: &mut FileContext<'_>,
    start: u32,
    rva: u32,
) -> Result<bool, AllocError>
    ensures { lasting context.new ≡ lasting context.old }
{
    let found = frames_or_none(context, alloc, rva)?;
    Ok(has_begun(&found, start))
}

/// The first address after one at which a row of the function has begun, where one has at the
/// last. Between them the addresses are halved.
fn first_begun(
    alloc: Global,
    context: &mut FileContext<'_>,
    start: u32,
    before: u32,
    last: u32,
) -> Result<u32, AllocError>
    ensures { lasting context.new ≡ lasting context.old }
{
    let mut before = before;
    let mut begun = last;
    for _ in 0..u32::BITS {
        let span = begun.saturating_sub(before);
        if span <= 1 {
            break;
        }
        let middle = before.saturating_add(span / 2);
        if has_begun_at(alloc, context, start, middle)? {
            begun = middle;
        } else {
            before = middle;
        }
    }
    Ok(begun)
}

/// The frames at the first row of the function that covers an address, where that row lies after
/// the address.
///
/// # Errors
/// Where memory ran out.
pub fn with_first_row<'a>(
    alloc: Global,
    context: &mut FileContext<'a>,
    function: &Option<Function>,
    found: &Option<SharedFunctionFrames<'a>>,
    rva: u32,
) -> Result<Option<FirstRow<'a>>, AllocError>
    ensures { lasting context.new ≡ lasting context.old }
{
    let Some(
        Function {
            start_rva,
            end_rva: Some(end),
            ..
        },
    ) = function
    else {
        return Ok(None);
    };
    let start = *start_rva;
    let last = end.saturating_sub(1);
    if has_begun(found, start) || last <= rva || !has_begun_at(alloc, context, start, last)? {
        return Ok(None);
    }
    let first = first_begun(alloc, context, start, rva, last)?;
    let calls = match found {
        Some(found) => found.frames.len().saturating_sub(1),
        None => 0,
    };
    match frames_or_none(context, alloc, first) {
        Ok(Some(found)) => Ok(Some(FirstRow {
            found,
            rva: first,
            calls,
        })),
        Ok(None) => Ok(None),
        Err(error) => Err(error),
    }
}

impl<'a> FirstRow<'a> {
    /// Gives the last of the frames that are reported the file and line of the row with this
    /// column, if that is the function's own: the innermost frame alone is the function's where it
    /// has no inlined calls.
    pub fn report<'f>(
        &'f self,
        frames: &mut Vec<ReportedFrame<'f>>,
        options: ReportOptions,
        column: u32,
    ) {
        let Some(own) = self.found.frames.last() else {
            return;
        };
        if matches!(options.asked, Asked::Innermost) && self.calls > 0 {
            return;
        }
        let place = report_frame(own, self.found.start_rva, self.rva, options.base_names);
        if let Some(frame) = frames.last_mut() {
            frame.file = place.file;
            frame.line = place.line;
            frame.column = column;
        }
    }
}
