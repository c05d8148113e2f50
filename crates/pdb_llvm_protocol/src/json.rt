//! The text of an answer in the style JSON.

ghost use Rattle.std.specs.Prelude.{◌≡◌, ◌++◌, ◌<◌, OnOk, codes, option_map};
ghost use Rattle.std.specs.Prelude.{if◌then◌else◌};
ghost use Rattle.std.specs.List.{flat_map};
ghost use Rattle.pdb_llvm_protocol.specs.Json.{control_text, digit as digit_of, escaped};
ghost use Rattle.pdb_llvm_protocol.specs.Json.{frame_object, frames_array};
ghost use Rattle.pdb_llvm_protocol.specs.Json.{function_members, gap, indent, key, next_frame};
ghost use Rattle.pdb_llvm_protocol.specs.Json.{place_members, start_members};
ghost use Rattle.pdb_llvm_protocol.specs.Json.{string_member, string_text, text_or_none};

use crate::plain::{append, append_number};
use crate::reported::ReportedFrame;
use std::alloc::AllocError;

/// The digit of a number below 16, in lower case.
fn digit(number: u8) -> u8
    requires { number < 16 }
    ensures { result ≡ digit_of number }
{
    if number < 10 {
        b'0' + number
    } else {
        b'a' - 10 + number
    }
}

/// Appends a control character, escaped by its number.
fn append_control(output: &mut Vec<u8>, byte: u8) -> Result<(), AllocError>
    ensures { OnOk result (output.new.items ≡ output.old.items ++ control_text byte) }
{
    append(output, "\\u00")?;
    output.extend_from_slice(&[digit(byte / 16), digit(byte % 16)])
}

/// Appends the text of a byte in a string.
fn append_escaped(output: &mut Vec<u8>, byte: u8) -> Result<(), AllocError>
    ensures { OnOk result (output.new.items ≡ output.old.items ++ escaped byte) }
{
    match byte {
        b'"' => append(output, "\\\""),
        b'\\' => append(output, "\\\\"),
        b'\t' => append(output, "\\t"),
        b'\n' => append(output, "\\n"),
        b'\r' => append(output, "\\r"),
        0..32 => append_control(output, byte),
        _ => output.extend_from_slice(&[byte]),
    }
}

/// Appends the text of bytes in a string.
#[tactic(auto, using(crate::proofs::Lists::text_more, crate::proofs::Lists::text_all))]
fn append_bytes(output: &mut Vec<u8>, bytes: &[u8]) -> Result<(), AllocError>
    ensures { OnOk result (output.new.items ≡ output.old.items ++ flat_map escaped bytes.now) }
{
    for byte in bytes {
        append_escaped(output, *byte)?;
    }
    Ok(())
}

/// Appends a string of this text, which is in UTF-8.
#[tactic(auto, unfolding(crate::specs::Json::string_text))]
pub(crate) fn append_string(output: &mut Vec<u8>, text: &[u8]) -> Result<(), AllocError>
    ensures { OnOk result (output.new.items ≡ output.old.items ++ string_text text.now) }
{
    append(output, "\"")?;
    append_bytes(output, text)?;
    append(output, "\"")
}

/// Appends indents.
#[tactic(auto, using(crate::proofs::Lists::indent_more))]
fn append_indents(output: &mut Vec<u8>, depth: usize) -> Result<(), AllocError>
    ensures { OnOk result (output.new.items ≡ output.old.items ++ indent depth) }
{
    for _i in 0..depth {
        append(output, "  ")?;
    }
    Ok(())
}

/// Appends the text before a member or an element at a depth.
pub(crate) fn append_gap(output: &mut Vec<u8>, pretty: bool, depth: usize) -> Result<(), AllocError>
    ensures { OnOk result (output.new.items ≡ output.old.items ++ gap pretty depth) }
{
    if !pretty {
        return Ok(());
    }
    append(output, "\n")?;
    append_indents(output, depth)
}

/// Appends a member's name.
#[tactic(auto, unfolding(crate::specs::Json::key))]
pub(crate) fn append_key(
    output: &mut Vec<u8>,
    pretty: bool,
    depth: usize,
    name: &str,
) -> Result<(), AllocError>
    ensures { OnOk result (output.new.items ≡ output.old.items ++ key pretty depth name.now) }
{
    append_gap(output, pretty, depth)?;
    append(output, "\"")?;
    append(output, name)?;
    append(output, after_key(pretty))
}

/// The text after a member's name.
fn after_key(pretty: bool) -> &'static str
    ensures { result.now ≡ (if pretty then codes "\": " else codes "\":") }
{
    if pretty { "\": " } else { "\":" }
}

/// Appends a member whose value is a string.
#[tactic(auto, unfolding(crate::specs::Json::string_member))]
pub(crate) fn append_string_member(
    output: &mut Vec<u8>,
    pretty: bool,
    depth: usize,
    name: &str,
    text: &[u8],
) -> Result<(), AllocError>
    ensures { OnOk result (output.new.items
        ≡ output.old.items ++ string_member pretty depth name.now text.now) }
{
    append_key(output, pretty, depth, name)?;
    append_string(output, text)
}

/// A text, or none of its bytes.
fn bytes_or_none(text: Option<&[u8]>) -> &[u8]
    ensures { result.now ≡ text_or_none (option_map (λ s. s.now) text.entry) }
{
    match text {
        None => b"",
        Some(text) => text,
    }
}

/// The file of a frame, or none of its bytes.
fn file_text<'f>(frame: &'f ReportedFrame<'_>) -> &'f [u8]
    ensures { result.now ≡ text_or_none frame.now.file }
{
    bytes_or_none(frame.file)
}

/// The name of a frame's function, or none of its bytes.
fn function_text<'f>(frame: &'f ReportedFrame<'_>) -> &'f [u8]
    ensures { result.now ≡ text_or_none frame.now.function }
{
    bytes_or_none(frame.function)
}

/// The line of a frame.
fn line_of(frame: &ReportedFrame<'_>) -> u32
    ensures { result ≡ frame.now.line }
{
    frame.line
}

/// The column of a frame.
fn column_of(frame: &ReportedFrame<'_>) -> u32
    ensures { result ≡ frame.now.column }
{
    frame.column
}

/// Appends the members of a frame's place: column, discriminator, file.
#[tactic(auto, unfolding(crate::specs::Json::place_members))]
fn append_place_members(
    output: &mut Vec<u8>,
    pretty: bool,
    depth: usize,
    frame: &ReportedFrame<'_>,
) -> Result<(), AllocError>
    ensures { OnOk result (output.new.items
        ≡ output.old.items ++ place_members pretty depth frame.now) }
{
    append_key(output, pretty, depth, "Column")?;
    append_number(output, column_of(frame))?;
    append(output, ",")?;
    append_key(output, pretty, depth, "Discriminator")?;
    append(output, "0,")?;
    append_string_member(output, pretty, depth, "FileName", file_text(frame))?;
    append(output, ",")?;
    Ok(())
}

/// Appends the members of a frame's function: its name, the line, and its start.
#[tactic(auto, unfolding(crate::specs::Json::function_members))]
fn append_function_members(
    output: &mut Vec<u8>,
    pretty: bool,
    depth: usize,
    frame: &ReportedFrame<'_>,
) -> Result<(), AllocError>
    ensures { OnOk result (output.new.items
        ≡ output.old.items ++ function_members pretty depth frame.now) }
{
    append_string_member(output, pretty, depth, "FunctionName", function_text(frame))?;
    append(output, ",")?;
    append_key(output, pretty, depth, "Line")?;
    append_number(output, line_of(frame))?;
    append(output, ",")?;
    Ok(())
}

/// Appends the members of a function's start, of which nothing is known.
#[tactic(auto, unfolding(crate::specs::Json::start_members))]
fn append_start_members(output: &mut Vec<u8>, pretty: bool, depth: usize) -> Result<(), AllocError>
    ensures { OnOk result (output.new.items ≡ output.old.items ++ start_members pretty depth) }
{
    append_string_member(output, pretty, depth, "StartAddress", b"")?;
    append(output, ",")?;
    append_string_member(output, pretty, depth, "StartFileName", b"")?;
    append(output, ",")?;
    append_key(output, pretty, depth, "StartLine")?;
    append(output, "0")?;
    Ok(())
}

/// Appends a frame, whose object stands at a depth.
#[tactic(auto, unfolding(crate::specs::Json::frame_object))]
fn append_frame(
    output: &mut Vec<u8>,
    pretty: bool,
    depth: usize,
    frame: &ReportedFrame<'_>,
) -> Result<(), AllocError>
    requires { depth < 8 }
    ensures { OnOk result (output.new.items
        ≡ output.old.items ++ frame_object pretty depth frame.now) }
{
    append(output, "{")?;
    append_place_members(output, pretty, depth + 1, frame)?;
    append_function_members(output, pretty, depth + 1, frame)?;
    append_start_members(output, pretty, depth + 1)?;
    append_gap(output, pretty, depth)?;
    append(output, "}")
}

/// Appends frames that are elements after the first.
#[tactic(auto, using(crate::proofs::Lists::text_more, crate::proofs::Lists::text_all))]
fn append_callers(
    output: &mut Vec<u8>,
    pretty: bool,
    depth: usize,
    frames: &[ReportedFrame<'_>],
) -> Result<(), AllocError>
    requires { depth < 8 }
    ensures { OnOk result (output.new.items
        ≡ output.old.items ++ flat_map (next_frame pretty depth) frames.now) }
{
    for frame in frames {
        append_next(output, pretty, depth, frame)?;
    }
    Ok(())
}

/// Appends a frame that is an element after the first.
#[tactic(auto, unfolding(crate::specs::Json::next_frame))]
fn append_next(
    output: &mut Vec<u8>,
    pretty: bool,
    depth: usize,
    frame: &ReportedFrame<'_>,
) -> Result<(), AllocError>
    requires { depth < 8 }
    ensures { OnOk result (output.new.items
        ≡ output.old.items ++ next_frame pretty depth frame.now) }
{
    append(output, ",")?;
    append_gap(output, pretty, depth)?;
    append_frame(output, pretty, depth, frame)
}

/// Appends the array of frames, which stands at a depth.
#[tactic(auto, unfolding(crate::specs::Json::frames_array))]
pub(crate) fn append_frame_array(
    output: &mut Vec<u8>,
    pretty: bool,
    depth: usize,
    frames: &[ReportedFrame<'_>],
) -> Result<(), AllocError>
    requires { depth < 7 }
    ensures { OnOk result (output.new.items
        ≡ output.old.items ++ frames_array pretty depth frames.now) }
{
    let Some((first, callers)) = frames.split_first() else {
        return append(output, "[]");
    };
    append(output, "[")?;
    append_gap(output, pretty, depth + 1)?;
    append_frame(output, pretty, depth + 1, first)?;
    append_callers(output, pretty, depth + 1, callers)?;
    append_gap(output, pretty, depth)?;
    append(output, "]")
}
