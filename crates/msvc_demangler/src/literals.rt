//! String literals.

ghost use Rattle.std.specs.Prelude.{◌≡◌, ◌++◌, ◌==◌, ◌<◌, ◌≤◌, IfOk, IfSome, OnOk, length};
ghost use Rattle.std.specs.Prelude.{option_map, position};
ghost use Rattle.std.specs.Int.{from_le_bytes, w32};
ghost use Rattle.std.specs.List.{flat_map};
ghost use Rattle.std.specs.Vec.{vec_len};
ghost use Rattle.msvc_demangler.specs.Characters.{character_of, written};
ghost use Rattle.msvc_demangler.specs.Literals.{AppendsQuoted, SplitsString, after_at, but_end};
ghost use Rattle.msvc_demangler.specs.Literals.{characters_of, ended, handed_literal, joined};
ghost use Rattle.msvc_demangler.specs.Literals.{literal_of, literal_text, narrow_of, narrow_text};
ghost use Rattle.msvc_demangler.specs.Literals.{prefix, quoted, read_characters, sized_of};
ghost use Rattle.msvc_demangler.specs.Literals.{string_of, suffix, wide_character_of, wide_of};
ghost use Rattle.msvc_demangler.specs.Literals.{wide_text};
ghost use Rattle.msvc_demangler.specs.Texts.{SameTasks};

use crate::bytes::byte_at;
use crate::characters::{character_size, push_character, split_character};
use crate::numbers::split_number;
use crate::parser::Parser;
use crate::stop::Stop;
use crate::tree::{Node, Symbol};
use std::alloc::{AllocError, Global};

/// The most bytes of a string that a name has. Compilers write 32; some wrote more by mistake.
const MOST_BYTES: usize = 128;

/// The texts around the characters of a string literal.
#[derive(Clone, Copy)]
pub(crate) struct Quotes {
    /// The text before the characters.
    pub(crate) before: &'static str,
    /// The text after the characters.
    pub(crate) after: &'static str,
}

/// The number that the first four bytes are, the lowest first.
fn value_of(bytes: &[u8]) -> u32
    ensures { result ≡ from_le_bytes w32 bytes.now }
{
    u32::from_le_bytes([
        byte_at(bytes, 0),
        byte_at(bytes, 1),
        byte_at(bytes, 2),
        byte_at(bytes, 3),
    ])
}

/// The text before a string of characters of that many bytes.
fn prefix_of(size: usize) -> &'static str
    ensures { result.now ≡ prefix size }
{
    match size {
        1 => "\"",
        2 => "u\"",
        _ => "U\"",
    }
}

/// The text after a string.
fn suffix_of(is_cut: bool) -> &'static str
    ensures { result.now ≡ suffix is_cut }
{
    if is_cut { "\"..." } else { "\"" }
}

/// The index of the first `@`.
fn first_at(text: &[u8]) -> Option<usize>
    ensures is { result ≡ position (λ b. b == 64) text.now }
    ensures within { IfSome result (λ place. place < length text.now) }
{
    text.iter().position(|byte| *byte == b'@')
}

/// The rest after the first `@`.
#[tactic(auto, unfolding(crate::specs::Literals::after_at))]
fn split_at_sign(text: &[u8]) -> Option<&[u8]>
    ensures { option_map (λ t. t.now) result ≡ after_at text.now }
{
    match first_at(text) {
        Some(place) => Some(&text[place + 1..]),
        None => None,
    }
}

/// The rest after the `@` that a text begins with.
#[tactic(auto, unfolding(crate::specs::Literals::ended))]
fn split_end(text: &[u8]) -> Option<&[u8]>
    ensures { option_map (λ t. t.now) result ≡ ended text.now }
{
    match text {
        [b'@', after @ ..] => Some(after),
        _ => None,
    }
}

/// A literal's size in bytes, and the rest after the checksum that follows it.
#[tactic(auto, unfolding(crate::specs::Literals::sized_of))]
fn split_size(text: &[u8]) -> Option<(u64, &[u8])>
    ensures { option_map (λ r. (r.0, r.1.now)) result ≡ sized_of text.now }
{
    let (size, after) = split_number(text)?;
    if size.is_negative {
        return None;
    }
    let bytes = split_at_sign(after)?;
    Some((size.magnitude, bytes))
}

/// A character of two bytes, the higher first, and what comes after.
#[tactic(auto, unfolding(crate::specs::Literals::wide_character_of))]
fn split_wide_character(text: &[u8]) -> Option<(u32, &[u8])>
    ensures { option_map (λ r. (r.0, r.1.now)) result ≡ wide_character_of text.now }
{
    let (high, after) = split_character(text)?;
    let (low, after) = split_character(after)?;
    Some((u32::from(high) * 256 + u32::from(low), after))
}

/// The bytes of a string before `@`, and what comes after. None if there are more than 128.
#[tactic(auto, using(crate::proofs::Strings::reading))]
fn split_bytes(alloc: Global, text: &[u8]) -> Result<Option<(Vec<u8>, &[u8])>, AllocError>
    ensures are { IfOk result (λ o. read_characters o ≡ characters_of character_of 129 text.now) }
    ensures few { IfOk result (λ o. IfSome o (λ r. vec_len r.0 ≤ 128)) }
{
    let mut bytes = Vec::new(alloc);
    let mut rest = text;
    let mut left = MOST_BYTES + 1;
    while left > 0 {
        if let Some(after) = split_end(rest) {
            return Ok(Some((bytes, after)));
        }
        let Some((byte, after)) = split_character(rest) else {
            return Ok(None);
        };
        bytes.push(byte)?;
        rest = after;
        left -= 1;
    }
    Ok(None)
}

/// The characters of a string of `wchar_t` before `@`, and what comes after.
#[tactic(auto, using(crate::proofs::Strings::reading))]
fn split_wide_characters(
    alloc: Global,
    text: &[u8],
) -> Result<Option<(Vec<u32>, &[u8])>, AllocError>
    ensures { IfOk result (λ o.
        read_characters o ≡ characters_of wide_character_of (length text.now) text.now) }
{
    let mut characters = Vec::new(alloc);
    let mut rest = text;
    let mut left = text.len();
    while left > 0 {
        if let Some(after) = split_end(rest) {
            return Ok(Some((characters, after)));
        }
        let Some((character, after)) = split_wide_character(rest) else {
            return Ok(None);
        };
        characters.push(character)?;
        rest = after;
        left -= 1;
    }
    Ok(None)
}

/// Appends so many characters of that many bytes each, as they are written.
fn push_joined(
    text: &mut Vec<u8>,
    bytes: &[u8],
    size: usize,
    count: usize,
) -> Result<(), AllocError>
    ensures { OnOk result
        (text.new.items ≡ text.old.items ++ flat_map written (joined size count bytes.now)) }
{
    let mut rest = bytes;
    let mut left = count;
    while left > 0 {
        let (character, after) = rest.split_at(size.min(rest.len()));
        push_character(text, value_of(character))?;
        rest = after;
        left -= 1;
    }
    Ok(())
}

/// Appends characters as they are written.
#[tactic(auto, using(crate::proofs::Digits::text_more, crate::proofs::Digits::text_all))]
fn push_characters(text: &mut Vec<u8>, characters: &[u32]) -> Result<(), AllocError>
    ensures { OnOk result (text.new.items ≡ text.old.items ++ flat_map written characters.now) }
{
    for character in characters {
        push_character(text, *character)?;
    }
    Ok(())
}

/// Appends the characters of a string, from its first bytes, at most 128, and its size in bytes.
#[tactic(auto, using(crate::proofs::Strings::character_size_some), unfolding(crate::specs::Literals::narrow_text))]
fn narrow(text: &mut Vec<u8>, size: u64, bytes: &[u8]) -> Result<Quotes, AllocError>
    requires { length bytes.now ≤ 128 }
    ensures { AppendsQuoted (narrow_text size bytes.now) text.old text.new result }
{
    let is_cut = size > bytes.len() as u64;
    let width = character_size(bytes, size);
    let count = bytes.len() / width;
    let printed = if is_cut {
        count
    } else {
        count.saturating_sub(1)
    };
    push_joined(text, bytes, width, printed)?;
    Ok(Quotes {
        before: prefix_of(width),
        after: suffix_of(is_cut),
    })
}

/// Drops the character that ends a string of that many bytes.
fn drop_end(characters: &mut Vec<u32>, size: u64)
    ensures { characters.new.items ≡ but_end size characters.old.items }
{
    if size > 64 || size % 2 == 1 {
        return;
    }
    let end = (size / 2).saturating_sub(1) as usize;
    if end < characters.len() {
        characters.remove(end);
    }
}

/// Appends the characters of a string of `wchar_t`, from the first ones, and its size in bytes.
#[tactic(auto, unfolding(crate::specs::Literals::wide_text))]
fn wide(text: &mut Vec<u8>, size: u64, characters: &mut Vec<u32>) -> Result<Quotes, AllocError>
    ensures { AppendsQuoted (wide_text size characters.old.items) text.old text.new result }
{
    drop_end(characters, size);
    push_characters(text, characters.as_slice())?;
    Ok(Quotes {
        before: "L\"",
        after: suffix_of(size > 64),
    })
}

/// Appends a string whose characters may have 1, 2 or 4 bytes, and returns the rest after it.
#[tactic(auto, unfolding(crate::specs::Literals::narrow_of))]
fn split_narrow<'t>(
    alloc: Global,
    output: &mut Vec<u8>,
    size: u64,
    text: &'t [u8],
) -> Result<Option<(Quotes, &'t [u8])>, AllocError>
    ensures { SplitsString (narrow_of size text.entry.now) output.old output.new result }
{
    let Some((bytes, after)) = split_bytes(alloc, text)? else {
        return Ok(None);
    };
    Ok(Some((narrow(output, size, bytes.as_slice())?, after)))
}

/// Appends a string of `wchar_t`, and returns the rest after it.
#[tactic(auto, unfolding(crate::specs::Literals::wide_of))]
fn split_wide<'t>(
    alloc: Global,
    output: &mut Vec<u8>,
    size: u64,
    text: &'t [u8],
) -> Result<Option<(Quotes, &'t [u8])>, AllocError>
    ensures { SplitsString (wide_of size text.entry.now) output.old output.new result }
{
    let Some((mut characters, after)) = split_wide_characters(alloc, text)? else {
        return Ok(None);
    };
    Ok(Some((wide(output, size, &mut characters)?, after)))
}

/// Appends a string of a kind and a size in bytes, and returns the rest after it.
fn split_string<'t>(
    alloc: Global,
    output: &mut Vec<u8>,
    kind: u8,
    size: u64,
    text: &'t [u8],
) -> Result<Option<(Quotes, &'t [u8])>, AllocError>
    ensures { SplitsString (string_of kind (size, text.entry.now)) output.old output.new result }
{
    if kind == b'0' && size >= 1 {
        return split_narrow(alloc, output, size, text);
    }
    if kind == b'1' && size >= 2 {
        return split_wide(alloc, output, size, text);
    }
    Ok(None)
}

/// Appends the characters of the string literal that stands after `??_C`, and returns the rest
/// after it. None if there is none.
///
/// # Errors
/// `AllocError` when memory runs out.
#[tactic(auto, unfolding(crate::specs::Literals::literal_of))]
fn split_literal<'t>(
    alloc: Global,
    output: &mut Vec<u8>,
    text: &'t [u8],
) -> Result<Option<(Quotes, &'t [u8])>, AllocError>
    ensures { SplitsString (literal_of text.entry.now) output.old output.new result }
{
    let [b'@', b'_', kind, after @ ..] = text else {
        return Ok(None);
    };
    match split_size(after) {
        Some((size, bytes)) => split_string(alloc, output, *kind, size, bytes),
        None => Ok(None),
    }
}

impl<'n> Parser<'n> {
    /// Hands on a string literal.
    fn give_literal(&mut self, quotes: Quotes, text: &[u8]) -> crate::stop::Result<()>
        ensures text { OnOk result (handed_literal self.new ≡ Some (quoted quotes text.now)) }
        ensures rest { self.new.rest.now ≡ self.old.rest.now }
        ensures tasks { SameTasks self.old self.new }
    {
        let text = self.tree.add_text(text)?;
        self.give(Node::Symbol(Symbol::Text(quotes.before, text, quotes.after), None))
    }

    /// Reads a string literal after `??_C`: its kind, its size in bytes, its checksum, and its
    /// first bytes.
    pub(crate) fn read_string_literal(&mut self) -> crate::stop::Result<()>
        ensures text { OnOk result (handed_literal self.new ≡ literal_text self.old.rest.now) }
        ensures rest { OnOk result
            (Some self.new.rest.now ≡ option_map (λ l. l.1) (literal_of self.old.rest.now)) }
        ensures tasks { SameTasks self.old self.new }
    {
        let rest = self.rest;
        let mut text = Vec::new(self.alloc);
        match split_literal(self.alloc, &mut text, rest)? {
            Some((quotes, after)) => {
                self.rest = after;
                self.give_literal(quotes, text.as_slice())
            }
            None => Err(Stop::Undecorated),
        }
    }
}
