//! The text of an answer.

ghost use Rattle.std.specs.Prelude.{◌≡◌, ◌++◌, OnOk, Ok, Err, option_map};
ghost use Rattle.std.specs.List.{flat_map};
ghost use Rattle.pdb_resolving.specs.Fault.{Fault};
ghost use Rattle.pdb_report.specs.Adds.{Adds};
ghost use Rattle.pdb_report.specs.AddressText.{address_text, answer_text, frame_text};
ghost use Rattle.pdb_report.specs.AddressText.{number_text, row_text, text_or};
ghost use Rattle.std.specs.Cow.{cow_str_bytes};
ghost use Rattle.std.specs.Arc.{arc_str_bytes};

use crate::digits::{append_address_line, append_row_start};
use itoa::Buffer;
use pdb_owners::{FrameRow, SharedFrame, SharedFunctionFrames};
use std::alloc::AllocError;
use std::borrow::CowStr;
use std::sync::ArcStr;

/// Appends a text.
pub(crate) fn append(output: &mut Vec<u8>, text: &str) -> Result<(), AllocError>
    ensures { Adds result output.old output.new text.now }
{
    output.extend_from_slice(text.as_bytes())
}

/// Appends the line of a frame.
fn append_frame(output: &mut Vec<u8>, frame: &SharedFrame<'_>) -> Result<(), AllocError>
    ensures { Adds result output.old output.new (frame_text frame.now) }
{
    append(output, "  ")?;
    append(output, text_or_unknown(&frame.function))?;
    append(output, " at ")?;
    append(output, file_or_unknown(&frame.file))?;
    append(output, ":")?;
    append_number(output, frame.line)?;
    append_row(output, frame.row)?;
    append(output, "\n")
}

/// Appends a number, or two question marks.
fn append_number(output: &mut Vec<u8>, number: Option<u32>) -> Result<(), AllocError>
    ensures { Adds result output.old output.new (number_text number) }
{
    match number {
        None => append(output, "??"),
        Some(number) => {
            let mut buffer = Buffer::new();
            append(output, buffer.format(number))
        }
    }
}

/// Appends a row: its start, and its length in bytes; or that there is none.
fn append_row(output: &mut Vec<u8>, row: Option<FrameRow>) -> Result<(), AllocError>
    ensures { Adds result output.old output.new (row_text row) }
{
    match row {
        None => append(output, " @??"),
        Some(row) => {
            append_row_start(output, row.start_rva)?;
            append_number(output, row.length)
        }
    }
}

/// Returns the text, or two question marks.
fn text_or_unknown(text: &Option<ArcStr>) -> &str
    ensures { result.now ≡ text_or (option_map arc_str_bytes text.now) }
{
    match text {
        None => "??",
        Some(text) => text.as_str(),
    }
}

/// Returns a file's name, or two question marks.
fn file_or_unknown<'f>(file: &'f Option<CowStr<'_>>) -> &'f str
    ensures { result.now ≡ text_or (option_map cow_str_bytes file.now) }
{
    match file {
        None => "??",
        Some(CowStr::Borrowed(name)) => *name,
        Some(CowStr::Owned(name)) => name.as_str(),
    }
}

/// Appends the lines of an answer.
#[tactic(auto, unfolding(crate::specs::AddressText::answer_text))]
fn append_answer_lines(
    output: &mut Vec<u8>,
    answer: &Option<SharedFunctionFrames<'_>>,
) -> Result<(), AllocError>
    ensures { Adds result output.old output.new (answer_text (Ok answer.now)) }
{
    match answer {
        None => append(output, "  ??\n"),
        Some(found) => append_frames(output, found.frames.as_slice()),
    }
}

/// Appends the lines of frames.
#[tactic(auto, using(json_strings::proofs::Lists::text_more, json_strings::proofs::Lists::text_all))]
fn append_frames(output: &mut Vec<u8>, frames: &[SharedFrame<'_>]) -> Result<(), AllocError>
    ensures { Adds result output.old output.new (flat_map frame_text frames.now) }
{
    for frame in frames {
        append_frame(output, frame)?;
    }
    Ok(())
}

/// Appends the lines of an address: its own, and the lines of its answer.
///
/// # Errors
/// `AllocError` when memory runs out.
pub fn append_address(
    output: &mut Vec<u8>,
    address: u32,
    answer: &Option<SharedFunctionFrames<'_>>,
) -> Result<(), AllocError>
    ensures { Adds result output.old output.new (address_text address (Ok answer.now)) }
{
    append_address_line(output, address)?;
    append_answer_lines(output, answer)?;
    Ok(())
}

/// Appends the lines of an address whose answer can't be read.
///
/// # Errors
/// `AllocError` when memory runs out.
#[tactic(auto, unfolding(crate::specs::AddressText::answer_text))]
pub fn append_unreadable(output: &mut Vec<u8>, address: u32) -> Result<(), AllocError>
    ensures { OnOk result
        ((e : Fault) → output.new.items ≡ output.old.items ++ address_text address (Err e)) }
{
    append_address_line(output, address)?;
    append(output, "  unreadable\n")?;
    Ok(())
}
