//! The line of JSON for a line of the input.

ghost use Rattle.std.specs.Prelude.{◌≡◌, Ok, option_map, take};
ghost use Rattle.std.specs.Arc.{arc_str_bytes};
ghost use Rattle.std.specs.Cow.{cow_str_bytes};
ghost use Rattle.std.specs.List.{flat_map};
ghost use Rattle.pdb_report.specs.Adds.{Adds};
ghost use Rattle.pdb_report.specs.JsonLine.{address_object, json_answer, json_frame};
ghost use Rattle.pdb_report.specs.JsonLine.{json_frames, json_other, line_members};
ghost use Rattle.pdb_report.specs.JsonLine.{name_members, next_frame, number_or_null};
ghost use Rattle.pdb_report.specs.JsonLine.{row_or_null, string_or_null, unreadable_member};

use crate::digits::append_address_string;
use crate::texts::append;
use itoa::Buffer;
use json_strings::append_string;
use pdb_owners::{FrameRow, SharedFrame, SharedFunctionFrames};
use std::alloc::{AllocError, Global};
use std::borrow::CowStr;
use std::sync::ArcStr;

/// Appends a name that may be missing.
fn append_optional_name(output: &mut Vec<u8>, name: &Option<ArcStr>) -> Result<(), AllocError>
    ensures { Adds result output.old output.new
        (string_or_null (option_map arc_str_bytes name.now)) }
{
    match name {
        None => append(output, "null"),
        Some(name) => append_string(output, name.as_str()),
    }
}

/// Appends a file's name that may be missing.
fn append_optional_file(output: &mut Vec<u8>, file: &Option<CowStr<'_>>) -> Result<(), AllocError>
    ensures { Adds result output.old output.new
        (string_or_null (option_map cow_str_bytes file.now)) }
{
    match file {
        None => append(output, "null"),
        Some(CowStr::Borrowed(name)) => append_string(output, name),
        Some(CowStr::Owned(name)) => append_string(output, name.as_str()),
    }
}

/// Appends a number that may be missing.
fn append_optional_number(output: &mut Vec<u8>, number: Option<u32>) -> Result<(), AllocError>
    ensures { Adds result output.old output.new (number_or_null number) }
{
    match number {
        None => append(output, "null"),
        Some(number) => {
            let mut buffer = Buffer::new();
            append(output, buffer.format(number))
        }
    }
}

/// Appends a row.
fn append_optional_row(output: &mut Vec<u8>, row: Option<FrameRow>) -> Result<(), AllocError>
    ensures { Adds result output.old output.new (row_or_null row) }
{
    match row {
        None => append(output, "null"),
        Some(row) => {
            append(output, "{\"start\":")?;
            append_address_string(output, row.start_rva)?;
            append(output, ",\"length\":")?;
            append_optional_number(output, row.length)?;
            append(output, "}")
        }
    }
}

/// Appends the members of a frame that are names.
#[tactic(auto, unfolding(crate::specs::JsonLine::name_members))]
fn append_name_members(output: &mut Vec<u8>, frame: &SharedFrame<'_>) -> Result<(), AllocError>
    ensures { Adds result output.old output.new (name_members frame.now) }
{
    append(output, "\"function\":")?;
    append_optional_name(output, &frame.function)?;
    append(output, ",\"file\":")?;
    append_optional_file(output, &frame.file)
}

/// Appends the members of a frame for its line.
#[tactic(auto, unfolding(crate::specs::JsonLine::line_members))]
fn append_line_members(output: &mut Vec<u8>, frame: &SharedFrame<'_>) -> Result<(), AllocError>
    ensures { Adds result output.old output.new (line_members frame.now) }
{
    append(output, ",\"line\":")?;
    append_optional_number(output, frame.line)?;
    append(output, ",\"row\":")?;
    append_optional_row(output, frame.row)
}

/// Appends a frame.
#[tactic(auto, unfolding(crate::specs::JsonLine::json_frame))]
fn append_frame_object(output: &mut Vec<u8>, frame: &SharedFrame<'_>) -> Result<(), AllocError>
    ensures { Adds result output.old output.new (json_frame frame.now) }
{
    append(output, "{")?;
    append_name_members(output, frame)?;
    append_line_members(output, frame)?;
    append(output, "}")
}

/// Appends frames after the first.
#[tactic(auto, using(json_strings::proofs::Lists::text_more, json_strings::proofs::Lists::text_all))]
fn append_more_frames(output: &mut Vec<u8>, frames: &[SharedFrame<'_>]) -> Result<(), AllocError>
    ensures { Adds result output.old output.new (flat_map next_frame frames.now) }
{
    for frame in frames {
        append(output, ",")?;
        append_frame_object(output, frame)?;
    }
    Ok(())
}

/// Appends frames, with a comma between two.
fn append_frame_objects(output: &mut Vec<u8>, frames: &[SharedFrame<'_>]) -> Result<(), AllocError>
    ensures { Adds result output.old output.new (json_frames frames.now) }
{
    let Some((first, rest)) = frames.split_first() else {
        return Ok(());
    };
    append_frame_object(output, first)?;
    append_more_frames(output, rest)
}

/// Appends the frames of an answer.
fn append_frames_member(
    output: &mut Vec<u8>,
    answer: &Option<SharedFunctionFrames<'_>>,
) -> Result<(), AllocError>
    ensures { Adds result output.old output.new (json_answer (Ok answer.now)) }
{
    match answer {
        None => append(output, "\"frames\":[]"),
        Some(found) => {
            append(output, "\"frames\":[")?;
            append_frame_objects(output, found.frames.as_slice())?;
            append(output, "]")
        }
    }
}

/// Appends the line of JSON for an address, with its answer.
///
/// # Errors
/// `AllocError` when memory runs out; a part may be appended then.
#[tactic(auto, unfolding(crate::specs::JsonLine::address_object))]
pub fn append_json_address(
    output: &mut Vec<u8>,
    address: u32,
    answer: &Option<SharedFunctionFrames<'_>>,
) -> Result<(), AllocError>
    ensures { Adds result output.old output.new
        (address_object address (json_answer (Ok answer.now))) }
{
    append(output, "{\"address\":")?;
    append_address_string(output, address)?;
    append(output, ",")?;
    append_frames_member(output, answer)?;
    append(output, "}\n")
}

/// Appends the line of JSON for an address whose answer can't be read.
///
/// # Errors
/// As [`append_json_address`].
#[tactic(auto, unfolding(crate::specs::JsonLine::address_object))]
pub fn append_json_unreadable(output: &mut Vec<u8>, address: u32) -> Result<(), AllocError>
    ensures { Adds result output.old output.new (address_object address unreadable_member) }
{
    append(output, "{\"address\":")?;
    append_address_string(output, address)?;
    append(output, ",")?;
    append(output, "\"error\":\"unreadable\"")?;
    append(output, "}\n")?;
    Ok(())
}

/// Returns the first bytes of a line, at most 4,352.
#[tactic(auto, using(std::proofs::lemmas::List::take_all))]
fn line_start(line: &[u8]) -> &[u8]
    ensures { result.now ≡ take 4352 line.now }
{
    if line.len() < 4352 {
        line
    } else {
        &line[..4352]
    }
}

/// Appends the line of JSON for a line that isn't an address.
///
/// # Errors
/// As [`append_json_address`].
#[tactic(auto, unfolding(crate::specs::JsonLine::json_other))]
pub fn append_json_other(alloc: Global, output: &mut Vec<u8>, line: &[u8]) -> Result<(), AllocError>
    ensures { Adds result output.old output.new (json_other line.now) }
{
    let text = String::from_utf8_lossy(alloc, line_start(line))?;
    append(output, "{\"line\":")?;
    append_string(output, text.as_str())?;
    append(output, ",\"error\":\"not an address\"}\n")
}
