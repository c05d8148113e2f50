//! The texts of answers to requests.

ghost use Rattle.std.specs.Prelude.{◌≡◌, ◌++◌, OnOk, Some, codes, if◌then◌else◌};
ghost use Rattle.pdb_llvm_protocol.specs.Json.{frames_array, key};
ghost use Rattle.pdb_llvm_protocol.specs.Plain.{frames_text, plain_text};
ghost use Rattle.pdb_llvm_protocol.specs.AnswerTexts.{address_member, answer_text, data_members};
ghost use Rattle.pdb_llvm_protocol.specs.AnswerTexts.{data_object, data_text, depth_of, end_text};
ghost use Rattle.pdb_llvm_protocol.specs.AnswerTexts.{error_object, error_text, frames_object};
ghost use Rattle.pdb_llvm_protocol.specs.AnswerTexts.{locals_object, locals_text, module_member};
ghost use Rattle.pdb_llvm_protocol.specs.AnswerTexts.{start_text};

use crate::json::{append_frame_array, append_gap, append_key, append_string_member};
use crate::options::{Style, TextOptions};
use crate::plain::{address_string, append, append_footer, append_frame_lines, append_header};
use crate::reported::ReportedFrame;
use std::alloc::{AllocError, Global};

/// The depth of an answer's object.
fn depth(options: TextOptions) -> usize
    ensures { result ≡ depth_of options }
{
    if options.in_array { 1 } else { 0 }
}

/// Appends the member of an address, if there is one.
#[tactic(auto, unfolding(crate::specs::AnswerTexts::address_member))]
fn append_address_member(
    alloc: Global,
    output: &mut Vec<u8>,
    options: TextOptions,
    address: Option<u64>,
) -> Result<(), AllocError>
    ensures { OnOk result (output.new.items ≡ output.old.items ++ address_member options address) }
{
    let Some(address) = address else {
        return Ok(());
    };
    let text = address_string(alloc, address)?;
    let inner = depth(options) + 1;
    append_string_member(output, options.pretty, inner, "Address", text.as_bytes())?;
    append(output, ",")
}

/// Appends the start of an answer's object.
#[tactic(auto, unfolding(crate::specs::AnswerTexts::start_text))]
fn append_start(
    alloc: Global,
    output: &mut Vec<u8>,
    options: TextOptions,
    address: Option<u64>,
) -> Result<(), AllocError>
    ensures { OnOk result (output.new.items ≡ output.old.items ++ start_text options address) }
{
    append(output, "{")?;
    append_address_member(alloc, output, options, address)
}

/// Appends the member of a module.
#[tactic(auto, unfolding(crate::specs::AnswerTexts::module_member))]
fn append_module(output: &mut Vec<u8>, options: TextOptions, file: &str) -> Result<(), AllocError>
    ensures { OnOk result (output.new.items
        ≡ output.old.items ++ module_member options file.now) }
{
    let inner = depth(options) + 1;
    append_string_member(output, options.pretty, inner, "ModuleName", file.as_bytes())
}

/// Appends the end of an answer's object.
#[tactic(auto, unfolding(crate::specs::AnswerTexts::end_text))]
fn append_end(output: &mut Vec<u8>, options: TextOptions) -> Result<(), AllocError>
    ensures { OnOk result (output.new.items ≡ output.old.items ++ end_text options) }
{
    append_gap(output, options.pretty, depth(options))?;
    append(output, close(options.in_array))
}

/// The text that closes an answer's object.
fn close(in_array: bool) -> &'static str
    ensures { result.now ≡ (if in_array then codes "}" else codes "}\n") }
{
    if in_array { "}" } else { "}\n" }
}

/// Appends the object of an answer that has frames.
#[tactic(auto, unfolding(crate::specs::AnswerTexts::frames_object))]
fn append_frames_object(
    alloc: Global,
    output: &mut Vec<u8>,
    options: TextOptions,
    file: &str,
    address: Option<u64>,
    frames: &[ReportedFrame<'_>],
) -> Result<(), AllocError>
    ensures { OnOk result (output.new.items
        ≡ output.old.items ++ frames_object options file.now address frames.now) }
{
    let inner = depth(options) + 1;
    append_start(alloc, output, options, address)?;
    append_module(output, options, file)?;
    append(output, ",")?;
    append_key(output, options.pretty, inner, "Symbol")?;
    append_frame_array(output, options.pretty, inner, frames)?;
    append_end(output, options)
}

/// Appends an answer that has frames. Where a request has no address, none is written.
///
/// # Errors
/// Where memory ran out.
pub fn append_frames(
    alloc: Global,
    output: &mut Vec<u8>,
    options: TextOptions,
    file: &str,
    address: Option<u64>,
    frames: &[ReportedFrame<'_>],
) -> Result<(), AllocError>
    ensures { OnOk result (output.new.items
        ≡ output.old.items ++ answer_text options file.now address frames.now) }
{
    match options.style {
        Style::Json => append_frames_object(alloc, output, options, file, address, frames),
        Style::Llvm | Style::Gnu => {
            append_header(alloc, output, options, address)?;
            append_frame_lines(output, options, frames)?;
            append_footer(output, options.style)
        }
    }
}

/// Appends the object of an answer that is an error.
#[tactic(auto, unfolding(crate::specs::AnswerTexts::error_object))]
fn append_error_object(
    alloc: Global,
    output: &mut Vec<u8>,
    options: TextOptions,
    file: &str,
    address: u64,
    message: &str,
) -> Result<(), AllocError>
    ensures { OnOk result (output.new.items
        ≡ output.old.items ++ error_object options file.now address message.now) }
{
    let inner = depth(options) + 1;
    append_start(alloc, output, options, Some(address))?;
    append_key(output, options.pretty, inner, "Error")?;
    append(output, "{")?;
    append_string_member(
        output,
        options.pretty,
        inner + 1,
        "Message",
        message.as_bytes(),
    )?;
    append_gap(output, options.pretty, inner)?;
    append(output, "},")?;
    append_module(output, options, file)?;
    append_end(output, options)
}

/// Appends an answer for a file that isn't there or can't be loaded, for the reason in `message`.
/// The reason is written in JSON alone.
///
/// # Errors
/// Where memory ran out.
pub fn append_error(
    alloc: Global,
    output: &mut Vec<u8>,
    options: TextOptions,
    file: &str,
    address: u64,
    message: &str,
) -> Result<(), AllocError>
    ensures { OnOk result (output.new.items
        ≡ output.old.items ++ error_text options file.now address message.now) }
{
    match options.style {
        Style::Json => append_error_object(alloc, output, options, file, address, message),
        Style::Llvm | Style::Gnu => append_frames(
            alloc,
            output,
            options,
            file,
            Some(address),
            &[ReportedFrame::unknown()],
        ),
    }
}

/// Appends an answer without an object's members: a text in the styles LLVM and GNU.
fn append_plain(
    alloc: Global,
    output: &mut Vec<u8>,
    options: TextOptions,
    address: u64,
    text: &str,
) -> Result<(), AllocError>
    ensures { OnOk result (output.new.items
        ≡ output.old.items ++ plain_text options (Some address) text.now) }
{
    append_header(alloc, output, options, Some(address))?;
    append(output, text)?;
    append_footer(output, options.style)
}

/// Appends the members of data of which nothing is known.
#[tactic(auto, unfolding(crate::specs::AnswerTexts::data_members))]
fn append_data_members(output: &mut Vec<u8>, pretty: bool, depth: usize) -> Result<(), AllocError>
    ensures { OnOk result (output.new.items ≡ output.old.items ++ data_members pretty depth) }
{
    append_string_member(output, pretty, depth, "Name", b"")?;
    append(output, ",")?;
    append_string_member(output, pretty, depth, "Size", b"0x0")?;
    append(output, ",")?;
    append_string_member(output, pretty, depth, "Start", b"0x0")
}

/// Appends the object of data of which nothing is known.
#[tactic(auto, unfolding(crate::specs::AnswerTexts::data_object))]
fn append_data_object(
    alloc: Global,
    output: &mut Vec<u8>,
    options: TextOptions,
    file: &str,
    address: u64,
) -> Result<(), AllocError>
    ensures { OnOk result (output.new.items
        ≡ output.old.items ++ data_object options file.now address) }
{
    let inner = depth(options) + 1;
    append_start(alloc, output, options, Some(address))?;
    append_key(output, options.pretty, inner, "Data")?;
    append(output, "{")?;
    append_data_members(output, options.pretty, inner + 1)?;
    append_gap(output, options.pretty, inner)?;
    append(output, "},")?;
    append_module(output, options, file)?;
    append_end(output, options)
}

/// Appends the answer to a request for the data at an address, of which nothing is known.
///
/// # Errors
/// Where memory ran out.
pub fn append_no_data(
    alloc: Global,
    output: &mut Vec<u8>,
    options: TextOptions,
    file: &str,
    address: u64,
) -> Result<(), AllocError>
    ensures { OnOk result (output.new.items
        ≡ output.old.items ++ data_text options file.now address) }
{
    match options.style {
        Style::Json => append_data_object(alloc, output, options, file, address),
        Style::Llvm | Style::Gnu => {
            append_plain(alloc, output, options, address, "??\n0 0\n??:?\n")
        }
    }
}

/// Appends the object of locals, of which none are known.
#[tactic(auto, unfolding(crate::specs::AnswerTexts::locals_object))]
fn append_locals_object(
    alloc: Global,
    output: &mut Vec<u8>,
    options: TextOptions,
    file: &str,
    address: u64,
) -> Result<(), AllocError>
    ensures { OnOk result (output.new.items
        ≡ output.old.items ++ locals_object options file.now address) }
{
    let inner = depth(options) + 1;
    append_start(alloc, output, options, Some(address))?;
    append_key(output, options.pretty, inner, "Frame")?;
    append(output, "[],")?;
    append_module(output, options, file)?;
    append_end(output, options)
}

/// Appends the answer to a request for the locals at an address, of which none are known.
///
/// # Errors
/// Where memory ran out.
pub fn append_no_locals(
    alloc: Global,
    output: &mut Vec<u8>,
    options: TextOptions,
    file: &str,
    address: u64,
) -> Result<(), AllocError>
    ensures { OnOk result (output.new.items
        ≡ output.old.items ++ locals_text options file.now address) }
{
    match options.style {
        Style::Json => append_locals_object(alloc, output, options, file, address),
        Style::Llvm | Style::Gnu => append_plain(alloc, output, options, address, "??\n"),
    }
}
