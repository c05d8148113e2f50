//! The characters of string literals.

ghost use Rattle.std.specs.Prelude.{◌≡◌, ◌++◌, ◌∷◌, [], ◌==◌, ◌<◌, ◌≤◌, ◌/◌, ◌%◌, OnOk, codes};
ghost use Rattle.std.specs.Prelude.{count_by, length, not, option_map, position};
ghost use Rattle.std.specs.List.{flat_map, suffix_len};
ghost use Rattle.msvc_demangler.specs.Characters.{by_bytes, byte_digits, digit, escape, mark};
ghost use Rattle.msvc_demangler.specs.Characters.{after_mark, by_nibbles, byte_in, character_of};
ghost use Rattle.msvc_demangler.specs.Characters.{character_size as character_size_of};
ghost use Rattle.msvc_demangler.specs.Characters.{significant as significant_of, size_by, written};

use crate::numbers::nibble;
use std::alloc::AllocError;

/// The byte that a digit after `?` stands for.
fn mark_of(code: u8) -> u8
    ensures { result ≡ mark code }
{
    match code {
        b'0' => b',',
        b'1' => b'/',
        b'2' => b'\\',
        b'3' => b':',
        b'4' => b'.',
        b'5' => b' ',
        b'6' => b'\n',
        b'7' => b'\t',
        b'8' => b'\'',
        _ => b'-',
    }
}

/// The byte of two hexadecimal digits.
fn byte_of(high: u8, low: u8) -> Option<u8>
    ensures { result ≡ byte_in high low }
{
    let high = nibble(high)?;
    let low = nibble(low)?;
    Some(high * 16 + low)
}

/// The byte of two hexadecimal digits that a text begins with, and what comes after.
#[tactic(auto, unfolding(crate::specs::Characters::by_nibbles))]
fn split_nibbles(text: &[u8]) -> Option<(u8, &[u8])>
    ensures { option_map (λ r. (r.0, r.1.now)) result ≡ by_nibbles text.now }
{
    let [high, low, after @ ..] = text else {
        return None;
    };
    let byte = byte_of(*high, *low)?;
    Some((byte, after))
}

/// The byte that stands after `?`, and what comes after: two hexadecimal digits after `$`, a digit
/// for a mark, or a letter for the letter with its highest bit set.
fn split_marked(code: u8, after: &[u8]) -> Option<(u8, &[u8])>
    ensures { option_map (λ r. (r.0, r.1.now)) result ≡ after_mark code after.now }
{
    match code {
        b'$' => split_nibbles(after),
        b'0'..=b'9' => Some((mark_of(code), after)),
        b'a'..=b'z' | b'A'..=b'Z' => Some((code + 128, after)),
        _ => None,
    }
}

/// The byte of a string that a text begins with, and what comes after it: a byte after `?`, or the
/// byte itself.
#[tactic(auto, unfolding(crate::specs::Characters::character_of))]
pub(crate) fn split_character(text: &[u8]) -> Option<(u8, &[u8])>
    ensures { option_map (λ r. (r.0, r.1.now)) result ≡ character_of text.now }
{
    match text {
        [b'?', code, after @ ..] => split_marked(*code, after),
        [b'?'] | [] => None,
        [byte, after @ ..] => Some((*byte, after)),
    }
}

/// The digit of a number below 16, in upper case.
fn hexadecimal_digit(number: u8) -> u8
    requires { number < 16 }
    ensures { result ≡ digit number }
{
    if number < 10 {
        b'0' + number
    } else {
        b'A' - 10 + number
    }
}

/// The letter after a backslash that stands for a character, if there is one.
fn escape_of(character: u32) -> Option<u8>
    ensures { result ≡ escape character }
{
    match character {
        0 => Some(b'0'),
        7 => Some(b'a'),
        8 => Some(b'b'),
        9 => Some(b't'),
        10 => Some(b'n'),
        11 => Some(b'v'),
        12 => Some(b'f'),
        13 => Some(b'r'),
        34 => Some(b'"'),
        39 => Some(b'\''),
        92 => Some(b'\\'),
        _ => None,
    }
}

/// Appends the two digits of a byte.
fn push_digits(text: &mut Vec<u8>, byte: u8) -> Result<(), AllocError>
    ensures { OnOk result (text.new.items ≡ text.old.items ++ byte_digits byte) }
{
    text.extend_from_slice(&[hexadecimal_digit(byte / 16), hexadecimal_digit(byte % 16)])
}

/// Appends the digits of bytes.
#[tactic(auto, using(crate::proofs::Digits::text_more, crate::proofs::Digits::text_all))]
fn push_all_digits(text: &mut Vec<u8>, bytes: &[u8]) -> Result<(), AllocError>
    ensures { OnOk result (text.new.items ≡ text.old.items ++ flat_map byte_digits bytes.now) }
{
    for byte in bytes {
        push_digits(text, *byte)?;
    }
    Ok(())
}

/// The index of the first byte that isn't 0.
fn first_significant(bytes: &[u8]) -> Option<usize>
    ensures { result ≡ position (λ b. not (b == 0)) bytes.now }
{
    bytes.iter().position(|byte| !(*byte == 0))
}

/// Bytes without the zeros before them.
#[tactic(auto, unfolding(crate::specs::Characters::significant))]
fn significant(bytes: &[u8]) -> &[u8]
    ensures { result.now ≡ significant_of bytes.now }
{
    match first_significant(bytes) {
        Some(start) => &bytes[start..],
        None => &[],
    }
}

/// Appends a character as its bytes, or itself where it is printed as it is.
fn push_by_bytes(text: &mut Vec<u8>, character: u32) -> Result<(), AllocError>
    ensures { OnOk result (text.new.items ≡ text.old.items ++ by_bytes character) }
{
    if character > 31 && character < 127 {
        return text.extend_from_slice(&[character as u8]);
    }
    text.extend_from_slice(b"\\x")?;
    push_all_digits(text, significant(&character.to_be_bytes()))
}

/// Appends a character as it is written in a literal: itself, escaped, or by `\x` and its bytes,
/// the highest that isn't 0 first.
#[tactic(auto, unfolding(crate::specs::Characters::written))]
pub(crate) fn push_character(text: &mut Vec<u8>, character: u32) -> Result<(), AllocError>
    ensures { OnOk result (text.new.items ≡ text.old.items ++ written character) }
{
    match escape_of(character) {
        Some(letter) => text.extend_from_slice(&[b'\\', letter]),
        None => push_by_bytes(text, character),
    }
}

/// The number of bytes at the end of a string that are 0.
fn trailing_nulls(bytes: &[u8]) -> usize
    ensures { result ≡ suffix_len (λ b. b == 0) bytes.now }
{
    bytes.iter().rev().take_while(|byte| **byte == 0).count()
}

/// The number of bytes of a string that are 0.
fn count_nulls(bytes: &[u8]) -> usize
    ensures { result ≡ count_by (λ b. b == 0) bytes.now }
{
    bytes.iter().filter(|byte| **byte == 0).count()
}

/// The number of bytes of a character, where that many bytes of a string are 0, and 4 or 2 need so
/// many.
fn size_by_nulls(zeros: usize, for_four: usize, for_two: usize, size: u64) -> usize
    ensures { result ≡ size_by zeros for_four for_two size }
{
    if for_four <= zeros && size % 4 == 0 {
        4
    } else if for_two <= zeros {
        2
    } else {
        1
    }
}

/// The number of bytes of a character, from the first bytes of a string, of which a name has at
/// most 128, and the string's size.
#[tactic(auto, unfolding(crate::specs::Characters::character_size))]
pub(crate) fn character_size(bytes: &[u8], size: u64) -> usize
    requires { length bytes.now ≤ 128 }
    ensures { result ≡ character_size_of bytes.now size }
{
    if size % 2 == 1 {
        return 1;
    }
    if size < 32 {
        return size_by_nulls(trailing_nulls(bytes), 4, 2, size);
    }
    let count = bytes.len();
    size_by_nulls(count_nulls(bytes), 2 * count / 3, count / 3, size)
}
