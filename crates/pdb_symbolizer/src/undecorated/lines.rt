//! The lines of a report, and the names in them.

ghost use Rattle.std.specs.Prelude.{◌≡◌, ◌≤◌, IfOk, MatchOption, length};
ghost use Rattle.std.specs.List.{prefix_len};
ghost use Rattle.pdb_symbolizer.specs.UndecoratedLines.{AddsLine, AddsLines, AddsSome, IsNameText};
ghost use Rattle.pdb_symbolizer.specs.UndecoratedLines.{IsTextIn, IsUnbroken, SplitsLine};
ghost use Rattle.pdb_symbolizer.specs.UndecoratedLines.{after_blank as after_blank_of, is_in_name};
ghost use Rattle.pdb_symbolizer.specs.UndecoratedLines.{is_decorated as is_decorated_name, is_in_line};
ghost use Rattle.pdb_symbolizer.specs.UndecoratedLines.{is_in_word, name_start as name_start_of};

use json_strings::append_bytes;
use msvc_demangler::{Demangled, SHORT_TEXT, demangle};
use std::alloc::{AllocError, Global};

/// The report that a line is of, which says where the line has the name of a function.
#[derive(Clone, Copy)]
pub enum ReportKind {
    /// Frames of addresses: `  NAME at FILE:LINE @START+LENGTH`.
    Frames,
    /// Frames of addresses in JSON. A line ends at an opening brace, too, so that it has at most one
    /// frame: `"function":"NAME","file":..`.
    Json,
    /// Addresses of a range by function: `START COUNT NAME`.
    Sizes,
}

/// The number of bytes before the first blank.
fn word_length(text: &[u8]) -> usize
    ensures is { result ≡ prefix_len is_in_word text.now }
    ensures within { result ≤ length text.now }
{
    text.iter().take_while(|byte| **byte != b' ').count()
}

/// The place after the next blank from a place of a line on; the line's end if there is none.
fn after_blank(line: &[u8], start: usize) -> usize
    requires { start ≤ length line.now }
    ensures is { result ≡ after_blank_of line.now start }
    ensures within { result ≤ length line.now }
{
    let blank = start + word_length(&line[start..]);
    if blank < line.len() { blank + 1 } else { blank }
}

/// The number of a name's bytes, at the start of a text.
fn name_length(kind: ReportKind, text: &[u8]) -> usize
    ensures is { result ≡ prefix_len (is_in_name kind) text.now }
    ensures within { result ≤ length text.now }
{
    match kind {
        ReportKind::Json => string_length(text),
        _ => word_length(text),
    }
}

/// The number of bytes before the first blank or quote.
fn string_length(text: &[u8]) -> usize
    ensures is { result ≡ prefix_len (is_in_name ReportKind.Json) text.now }
    ensures within { result ≤ length text.now }
{
    text.iter()
        .take_while(|byte| **byte != b' ' && **byte != b'"')
        .count()
}

/// The place at which a line's name begins; the line's end if it has none.
#[tactic(auto, unfolding(crate::specs::UndecoratedLines::name_start))]
fn name_start(kind: ReportKind, line: &[u8]) -> usize
    ensures is { result ≡ name_start_of kind line.now }
    ensures within { result ≤ length line.now }
{
    match (kind, line) {
        (ReportKind::Sizes, _) => after_blank(line, after_blank(line, 0)),
        (ReportKind::Frames, [b' ', b' ', ..]) => 2,
        (ReportKind::Json, _) => string_start(line),
        (ReportKind::Frames, _) => line.len(),
    }
}

/// The place at which the name of a frame begins in JSON; the line's end if it has none.
#[tactic(auto, unfolding(crate::specs::UndecoratedLines::name_start))]
fn string_start(line: &[u8]) -> usize
    ensures is { result ≡ name_start_of ReportKind.Json line.now }
    ensures within { result ≤ length line.now }
{
    if line.starts_with(b"\"function\":\"") {
        12
    } else {
        line.len()
    }
}

/// Whether a name is decorated, judged by its first bytes: `??` stands for a name that isn't known.
fn begins_as_decorated(name: &[u8]) -> bool
    ensures { result ≡ is_decorated_name name.now }
{
    match name {
        [b'?', _, _, ..] => true,
        _ => false,
    }
}

/// Appends the text of a name: the name itself, if it isn't decorated.
fn append_name(alloc: Global, name: &[u8], output: &mut Vec<u8>) -> Result<(), AllocError>
    ensures { AddsSome result output.old output.new (IsNameText name.now) }
{
    if !begins_as_decorated(name) {
        return output.extend_from_slice(name);
    }
    match demangle(alloc, name, SHORT_TEXT)? {
        Demangled::Text(text) => output.extend_from_slice(text.as_slice()),
        Demangled::Undecorated => output.extend_from_slice(name),
    }
}

/// Appends the text of a name in a string of JSON: the name as it stands, if something in it is
/// escaped.
fn append_escaped_name(alloc: Global, name: &[u8], output: &mut Vec<u8>) -> Result<(), AllocError>
    ensures { AddsSome result output.old output.new (IsTextIn ReportKind.Json name.now) }
{
    if !begins_as_decorated(name) || name.contains(&b'\\') {
        return output.extend_from_slice(name);
    }
    let mut plain = Vec::new(alloc);
    append_name(alloc, name, &mut plain)?;
    append_bytes(output, plain.as_slice())
}

/// Appends the text of a name in a report of a kind.
fn append_name_in(
    alloc: Global,
    kind: ReportKind,
    name: &[u8],
    output: &mut Vec<u8>,
) -> Result<(), AllocError>
    ensures { AddsSome result output.old output.new (IsTextIn kind name.now) }
{
    match kind {
        ReportKind::Json => append_escaped_name(alloc, name, output),
        _ => append_name(alloc, name, output),
    }
}

/// Appends a line with the text of its name, and the byte that ends it.
fn append_undecorated_line(
    alloc: Global,
    kind: ReportKind,
    line: &[u8],
    end: u8,
    output: &mut Vec<u8>,
) -> Result<(), AllocError>
    ensures { AddsLine kind line.now end result output.old output.new }
{
    let start = name_start(kind, line);
    let name_end = start + name_length(kind, &line[start..]);
    output.extend_from_slice(&line[..start])?;
    append_name_in(alloc, kind, &line[start..name_end], output)?;
    output.extend_from_slice(&line[name_end..])?;
    output.push(end)?;
    Ok(())
}

/// Whether a byte is part of a line.
fn is_line_byte(kind: ReportKind, byte: u8) -> bool
    ensures { result ≡ is_in_line kind byte }
{
    match kind {
        ReportKind::Json => byte != b'\n' && byte != b'{',
        _ => byte != b'\n',
    }
}

/// The number of bytes before the first one that ends a line.
fn line_length(kind: ReportKind, text: &[u8]) -> usize
    ensures is { result ≡ prefix_len (is_in_line kind) text.now }
    ensures within { result ≤ length text.now }
{
    text.iter()
        .take_while(|byte| is_line_byte(kind, **byte))
        .count()
}

/// The first line of a text, the byte that ends it, and the rest after it, if there is such a byte.
#[tactic(auto, using(crate::proofs::LineSteps::line_whole))]
fn split_line(kind: ReportKind, text: &[u8]) -> Option<(&[u8], u8, &[u8])>
    ensures { MatchOption result (IsUnbroken kind text.now)
        (λ r. SplitsLine kind text.now r.0.now r.1 r.2.now) }
{
    let count = line_length(kind, text);
    if count < text.len() {
        Some((&text[..count], text[count], &text[count + 1..]))
    } else {
        None
    }
}

/// Appends the lines that end in a text, each with the text of its name, and returns the rest after
/// them.
///
/// # Errors
/// `AllocError` when memory runs out.
pub(crate) fn append_lines<'t>(
    alloc: Global,
    kind: ReportKind,
    text: &'t [u8],
    output: &mut Vec<u8>,
) -> Result<&'t [u8], AllocError>
    ensures { IfOk result
        (λ rest. AddsLines kind text.now rest.now output.old output.new) }
{
    let mut rest = text;
    while let Some((line, end, after)) = split_line(kind, rest) {
        append_undecorated_line(alloc, kind, line, end, output)?;
        rest = after;
    }
    Ok(rest)
}
