//! Answers, as a symbol file tells them.

ghost use Rattle.std.specs.Prelude.{◌≡◌, ◌<◌, ◌^◌, IfOk, IfSome, length, string_bytes};
ghost use Rattle.std.specs.List.{AllByRecursion};
ghost use Rattle.pdb_symbol_files.specs.Frames.{call_of as call_in, calls_of as calls_in};
ghost use Rattle.pdb_symbol_files.specs.Frames.{told_of as told_in};
ghost use Rattle.pdb_symbol_files.specs.PlainAnswers.{IsPlainCall, IsPlainTold};
ghost use Rattle.pdb_symbol_files.specs.Texts.{told_text as told_text_of};

use crate::pieces::{Call, Told};
use crate::texts::told_text;
use pdb_owners::Frame;
use std::alloc::{AllocError, Global};
use std::borrow::CowStr;

/// The text of a frame's function.
fn name_of(alloc: Global, frame: &Frame<'_>) -> Result<String, AllocError>
    ensures { IfOk result (λ name. string_bytes name ≡ told_text_of (frame.now).function) }
{
    match &frame.function {
        Some(name) => told_text(alloc, Some(name.as_str())),
        None => told_text(alloc, None),
    }
}

/// The text of a frame's source file.
fn file_of(alloc: Global, frame: &Frame<'_>) -> Result<String, AllocError>
    ensures { IfOk result (λ file. string_bytes file ≡ told_text_of (frame.now).file) }
{
    match &frame.file {
        Some(CowStr::Borrowed(file)) => told_text(alloc, Some(*file)),
        Some(CowStr::Owned(file)) => told_text(alloc, Some(file.as_str())),
        None => told_text(alloc, None),
    }
}

/// The call by which a frame's function called the function of another, inlined.
fn call_of(alloc: Global, caller: &Frame<'_>, callee: &Frame<'_>) -> Result<Call, AllocError>
    ensures is { IfOk result (λ call. call ≡ call_in caller.now callee.now) }
    ensures plain { IfOk result IsPlainCall }
{
    let file = file_of(alloc, caller)?;
    let callee = name_of(alloc, callee)?;
    Ok(Call {
        file,
        line: caller.line.unwrap_or(0),
        callee,
    })
}

/// The inlined calls of frames, innermost frame first; the outermost call comes first.
#[tactic(auto, using(crate::proofs::FrameSteps::calls_first, crate::proofs::FrameSteps::calls_more, crate::proofs::FrameSteps::calls_end, crate::proofs::FrameSteps::plain_first, crate::proofs::FrameSteps::plain_more))]
fn calls_of(alloc: Global, frames: &[Frame<'_>]) -> Result<Vec<Call>, AllocError>
    ensures are { IfOk result (λ calls. calls.items ≡ calls_in frames.now) }
    ensures plain { IfOk result (λ calls. AllByRecursion IsPlainCall calls.items) }
    ensures few { IfOk result (λ calls. length calls.items < 2 ^ 64) }
{
    let mut calls = Vec::new(alloc);
    let mut left = frames.len();
    while 1 < left {
        left -= 1;
        calls.push(call_of(alloc, &frames[left], &frames[left - 1])?)?;
    }
    Ok(calls)
}

/// Returns what a symbol file tells of frames, innermost first, in a function that begins at an
/// address, if it is known; `None` for no frames. No name or file has a control character, such as
/// a line break.
///
/// # Errors
/// `AllocError` when memory runs out.
pub fn told_of(
    alloc: Global,
    start: Option<u32>,
    frames: &[Frame<'_>],
) -> Result<Option<Told>, AllocError>
    ensures is { IfOk result (λ told. told ≡ told_in start frames.now) }
    ensures plain { IfOk result (λ told. IfSome told IsPlainTold) }
{
    let (Some(innermost), Some(outermost)) = (frames.first(), frames.last()) else {
        return Ok(None);
    };
    let function = name_of(alloc, outermost)?;
    let calls = calls_of(alloc, frames)?;
    let file = file_of(alloc, innermost)?;
    Ok(Some(Told {
        start,
        function,
        calls,
        file,
        line: innermost.line.unwrap_or(0),
    }))
}
