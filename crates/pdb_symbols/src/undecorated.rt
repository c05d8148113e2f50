//! The names of functions in records, as people read them.

ghost use Rattle.std.specs.Prelude.{◌≡◌, ◌++◌, ◌∷◌, [], ◌≤◌, ℕ, List, IfOk, MatchOption, OnOk};
ghost use Rattle.std.specs.Prelude.{length, Some};
ghost use Rattle.std.specs.List.{prefix_len};
ghost use Rattle.std.specs.Str.Lossy.{utf8_lossy};
ghost use Rattle.pdb_symbol_files.specs.Texts.{told_text as told_text_of};
ghost use Rattle.pdb_symbol_files.specs.Reading.{after_blank as after_blank_of};
ghost use Rattle.pdb_symbol_files.specs.Reading.{after_fields as after_fields_of};
ghost use Rattle.pdb_symbol_files.specs.Reading.{before_blank as before_blank_of};
ghost use Rattle.pdb_symbols.specs.NamedLines.{IsNamed, IsNameText, IsUnbroken, SplitsLine};
ghost use Rattle.pdb_symbols.specs.NamedLines.{is_decorated as is_decorated_name};
ghost use Rattle.pdb_symbols.specs.NamedLines.{is_in_line, is_in_word, name_of_line};

use msvc_demangler::{Demangled, SHORT_TEXT, demangle};
use pdb_symbol_files::told_text;
use std::alloc::{AllocError, Global};

/// The number of bytes before the first blank.
fn word_length(text: &[u8]) -> usize
    ensures is { result ≡ prefix_len is_in_word text.now }
    ensures within { result ≤ length text.now }
{
    text.iter().take_while(|byte| **byte != b' ').count()
}

/// The bytes before the first blank.
#[tactic(auto, using(crate::proofs::NamedSteps::before_it))]
fn before_blank(line: &[u8]) -> &[u8]
    ensures { result.now ≡ before_blank_of line.now }
{
    &line[..word_length(line)]
}

/// The bytes after the first blank.
#[tactic(auto, using(crate::proofs::NamedSteps::after_it, crate::proofs::NamedSteps::after_none))]
fn after_blank(line: &[u8]) -> &[u8]
    ensures { result.now ≡ after_blank_of line.now }
{
    let count = word_length(line);
    if count < line.len() {
        &line[count + 1..]
    } else {
        &line[count..]
    }
}

/// The bytes after so many fields.
#[tactic(auto, using(crate::proofs::NamedSteps::fields_more, crate::proofs::NamedSteps::fields_end))]
fn after_fields(count: usize, line: &[u8]) -> &[u8]
    ensures { result.now ≡ after_fields_of count line.now }
{
    let mut rest = line;
    for _ in 0..count {
        rest = after_blank(rest);
    }
    rest
}

/// The name of a line that may be undecorated; empty if it has none.
#[tactic(auto, unfolding(crate::specs::NamedLines::name_of_line))]
fn name_of(line: &[u8]) -> &[u8]
    ensures { result.now ≡ name_of_line line.now }
{
    let word = before_blank(line);
    if word == b"FUNC".as_slice() {
        return after_fields(4, line);
    }
    if word == b"INLINE_ORIGIN".as_slice() {
        return after_fields(2, line);
    }
    &[]
}

/// Whether a name is decorated, judged by its first bytes: `??` stands for a name that isn't known.
fn is_decorated(name: &[u8]) -> bool
    ensures { result ≡ is_decorated_name name.now }
{
    match name {
        [b'?', _, _, ..] => true,
        _ => false,
    }
}

/// Appends the text of a name without its decoration.
fn append_text(alloc: Global, text: &[u8], output: &mut Vec<u8>) -> Result<(), AllocError>
    ensures { OnOk result (output.new.items ≡ output.old.items
        ++ told_text_of (Some (utf8_lossy text.now))) }
{
    let text = String::from_utf8_lossy(alloc, text)?;
    let text = told_text(alloc, Some(text.as_str()))?;
    output.extend_from_slice(text.as_bytes())
}

/// Appends a name as people read it, if it is decorated and can be undecorated; otherwise the name.
fn append_name(alloc: Global, name: &[u8], output: &mut Vec<u8>) -> Result<(), AllocError>
    ensures { OnOk result ((text : List ℕ) × IsNameText name.now text
        × (output.new.items ≡ output.old.items ++ text)) }
{
    if !is_decorated(name) {
        return output.extend_from_slice(name);
    }
    match demangle(alloc, name, SHORT_TEXT)? {
        Demangled::Text(text) => append_text(alloc, text.as_slice(), output),
        Demangled::Undecorated => output.extend_from_slice(name),
    }
}

/// Appends a line with the text of its name, and a newline.
pub fn append_line(alloc: Global, line: &[u8], output: &mut Vec<u8>) -> Result<(), AllocError>
    ensures { OnOk result ((named : List ℕ) × IsNamed line.now named
        × (output.new.items ≡ output.old.items ++ (named ++ 10 ∷ []))) }
{
    let name = name_of(line);
    let start = line.len().saturating_sub(name.len());
    output.extend_from_slice(&line[..start])?;
    append_name(alloc, name, output)?;
    output.push(b'\n')?;
    Ok(())
}

/// The number of bytes before the first newline.
fn line_length(text: &[u8]) -> usize
    ensures is { result ≡ prefix_len is_in_line text.now }
    ensures within { result ≤ length text.now }
{
    text.iter().take_while(|byte| **byte != b'\n').count()
}

/// The first line of a text, if a newline ends it, and the text after the newline.
#[tactic(auto, using(crate::proofs::NamedSteps::line_whole))]
pub fn split_line(text: &[u8]) -> Option<(&[u8], &[u8])>
    ensures { MatchOption result (IsUnbroken text.now)
        (λ r. SplitsLine text.now r.0.now r.1.now) }
{
    let count = line_length(text);
    if count < text.len() {
        Some((&text[..count], &text[count + 1..]))
    } else {
        None
    }
}
