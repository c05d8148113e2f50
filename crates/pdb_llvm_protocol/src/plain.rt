//! The text of an answer in the styles LLVM and GNU.

ghost use Rattle.std.specs.Prelude.{◌≡◌, ◌++◌, IfOk, OnOk, true, codes, option_map};
ghost use Rattle.std.specs.Prelude.{if◌then◌else◌, string_bytes};
ghost use Rattle.std.specs.Fmt.{decimal};
ghost use Rattle.std.specs.List.{flat_map};
ghost use Rattle.pdb_llvm_protocol.specs.Plain.{address_text, caller_text, column_text};
ghost use Rattle.pdb_llvm_protocol.specs.Plain.{footer_text};
ghost use Rattle.pdb_llvm_protocol.specs.Plain.{frame_text, frames_text, header_text, name_text};
ghost use Rattle.pdb_llvm_protocol.specs.Plain.{number_line};
ghost use Rattle.pdb_llvm_protocol.specs.Plain.{name_or_unknown as name_or, place_text};
ghost use Rattle.pdb_llvm_protocol.specs.Plain.{verbose_text};
ghost use Rattle.pdb_owners.specs.Texts.{text_or};

use crate::options::{Style, TextOptions};
use crate::reported::ReportedFrame;
use itoa::Buffer;
use std::alloc::{AllocError, Global};

/// Appends a text.
pub(crate) fn append(output: &mut Vec<u8>, text: &str) -> Result<(), AllocError>
    ensures { OnOk result (output.new.items ≡ output.old.items ++ text.now) }
{
    output.extend_from_slice(text.as_bytes())
}

/// Appends a number in decimal digits.
pub(crate) fn append_number(output: &mut Vec<u8>, number: u32) -> Result<(), AllocError>
    ensures { OnOk result (output.new.items ≡ output.old.items ++ decimal number) }
{
    let mut buffer = Buffer::new();
    append(output, buffer.format(number))
}

/// The text of an address.
pub(crate) fn address_string(alloc: Global, address: u64) -> Result<String, AllocError>
    ensures { IfOk result (λ text. string_bytes text ≡ address_text address) }
{
    let mut text = String::new(alloc);
    write!(text, "0x{address:x}")?;
    Ok(text)
}

/// Appends the address before its answer, if it is asked for.
pub(crate) fn append_header(
    alloc: Global,
    output: &mut Vec<u8>,
    options: TextOptions,
    address: Option<u64>,
) -> Result<(), AllocError>
    ensures { OnOk result (output.new.items ≡ output.old.items ++ header_text options address) }
{
    let Some(address) = address else {
        return Ok(());
    };
    if !options.addresses {
        return Ok(());
    }
    let text = address_string(alloc, address)?;
    append(output, text.as_str())?;
    append(output, after_address(options.pretty))
}

/// The text after the address before its answer.
fn after_address(pretty: bool) -> &'static str
    ensures { result.now ≡ (if pretty then codes ": " else codes "\n") }
{
    if pretty { ": " } else { "\n" }
}

/// The text that says that a frame called the one before it.
fn caller_mark(pretty: bool, is_caller: bool) -> &'static str
    ensures { result.now ≡ caller_text pretty is_caller }
{
    if pretty && is_caller {
        " (inlined by) "
    } else {
        ""
    }
}

/// The text after a function's name.
fn after_name(pretty: bool) -> &'static str
    ensures { result.now ≡ (if pretty then codes " at " else codes "\n") }
{
    if pretty { " at " } else { "\n" }
}

/// A text, or two question marks.
fn bytes_or_unknown(text: Option<&[u8]>) -> &[u8]
    ensures { result.now ≡ text_or (option_map (λ s. s.now) text.entry) }
{
    match text {
        None => b"??",
        Some(text) => text,
    }
}

/// A name, or two question marks where it is missing or empty.
fn name_or_unknown(name: Option<&[u8]>) -> &[u8]
    ensures { result.now ≡ name_or (option_map (λ s. s.now) name.entry) }
{
    match name {
        Some(name) if !name.is_empty() => name,
        _ => b"??",
    }
}

/// Appends the name of a frame's function, if names are asked for.
fn append_name(
    output: &mut Vec<u8>,
    options: TextOptions,
    is_caller: bool,
    frame: &ReportedFrame<'_>,
) -> Result<(), AllocError>
    ensures { OnOk result (output.new.items
        ≡ output.old.items ++ name_text options is_caller frame.now) }
{
    if !options.functions {
        return Ok(());
    }
    append(output, caller_mark(options.pretty, is_caller))?;
    output.extend_from_slice(name_or_unknown(frame.function))?;
    append(output, after_name(options.pretty))
}

/// Appends a number after a text, and a line's end.
fn append_number_line(output: &mut Vec<u8>, text: &str, number: u32) -> Result<(), AllocError>
    ensures { OnOk result (output.new.items ≡ output.old.items ++ number_line text.now number) }
{
    append(output, text)?;
    append_number(output, number)?;
    append(output, "\n")
}

/// Appends the text after the line.
fn append_column(output: &mut Vec<u8>, style: Style, column: u32) -> Result<(), AllocError>
    ensures { OnOk result (output.new.items ≡ output.old.items ++ column_text style column) }
{
    match style {
        Style::Llvm => append_number_line(output, ":", column),
        Style::Gnu | Style::Json => append(output, "\n"),
    }
}

/// Appends a frame's file and line.
fn append_place(
    output: &mut Vec<u8>,
    style: Style,
    frame: &ReportedFrame<'_>,
) -> Result<(), AllocError>
    ensures { OnOk result (output.new.items ≡ output.old.items ++ place_text style frame.now) }
{
    output.extend_from_slice(bytes_or_unknown(frame.file))?;
    append(output, ":")?;
    append_number(output, frame.line)?;
    append_column(output, style, frame.column)
}

/// Appends a frame's file, line and column, on a line each.
fn append_verbose(output: &mut Vec<u8>, frame: &ReportedFrame<'_>) -> Result<(), AllocError>
    ensures { OnOk result (output.new.items ≡ output.old.items ++ verbose_text frame.now) }
{
    append(output, "  Filename: ")?;
    output.extend_from_slice(bytes_or_unknown(frame.file))?;
    append(output, "\n  Line: ")?;
    append_number(output, frame.line)?;
    append_number_line(output, "\n  Column: ", frame.column)
}

/// Appends a frame.
fn append_frame(
    output: &mut Vec<u8>,
    options: TextOptions,
    is_caller: bool,
    frame: &ReportedFrame<'_>,
) -> Result<(), AllocError>
    ensures { OnOk result (output.new.items
        ≡ output.old.items ++ frame_text options is_caller frame.now) }
{
    append_name(output, options, is_caller, frame)?;
    if options.verbose {
        append_verbose(output, frame)
    } else {
        append_place(output, options.style, frame)
    }
}

/// Appends frames that called the one before them.
#[tactic(auto, using(crate::proofs::Lists::text_more, crate::proofs::Lists::text_all))]
fn append_callers(
    output: &mut Vec<u8>,
    options: TextOptions,
    frames: &[ReportedFrame<'_>],
) -> Result<(), AllocError>
    ensures { OnOk result (output.new.items
        ≡ output.old.items ++ flat_map (frame_text options true) frames.now) }
{
    for frame in frames {
        append_frame(output, options, true, frame)?;
    }
    Ok(())
}

/// Appends the frames of an answer.
pub(crate) fn append_frame_lines(
    output: &mut Vec<u8>,
    options: TextOptions,
    frames: &[ReportedFrame<'_>],
) -> Result<(), AllocError>
    ensures { OnOk result (output.new.items
        ≡ output.old.items ++ frames_text options frames.now) }
{
    match frames.split_first() {
        None => Ok(()),
        Some((first, callers)) => {
            append_frame(output, options, false, first)?;
            append_callers(output, options, callers)
        }
    }
}

/// Appends the end of an answer.
pub(crate) fn append_footer(output: &mut Vec<u8>, style: Style) -> Result<(), AllocError>
    ensures { OnOk result (output.new.items ≡ output.old.items ++ footer_text style) }
{
    match style {
        Style::Llvm => append(output, "\n"),
        Style::Gnu | Style::Json => Ok(()),
    }
}
