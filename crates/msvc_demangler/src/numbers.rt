//! Encoded numbers.

ghost use Rattle.std.specs.Prelude.{◌≡◌, ◌<◌, ◌≤◌, IfSome, false, length, option_map};
ghost use Rattle.std.specs.List.{prefix_len};
ghost use Rattle.msvc_demangler.specs.Numbers.{ends_scope as ends_scope_of, hexadecimal_of};
ghost use Rattle.msvc_demangler.specs.Numbers.{is_nibble, magnitude_of, nibble_of, number_of};
ghost use Rattle.msvc_demangler.specs.Numbers.{begins_scope, ends_number as ends_number_of};
ghost use Rattle.msvc_demangler.specs.Numbers.{value_after, with_sign};

use crate::bytes::byte_at;

/// An encoded number.
#[derive(Clone, Copy)]
pub(crate) struct Number {
    /// The distance of the number from 0.
    pub(crate) magnitude: u64,
    /// Whether the number has a minus sign.
    pub(crate) is_negative: bool,
}

/// A number without a sign.
pub(crate) fn unsigned(magnitude: u64) -> Number
    ensures { result ≡ record { magnitude = magnitude; is_negative = false } }
{
    Number {
        magnitude,
        is_negative: false,
    }
}

/// The value of a hexadecimal digit, `A` to `P` for 0 to 15.
pub(crate) fn nibble(byte: u8) -> Option<u8>
    ensures value { result ≡ nibble_of byte }
    ensures small { IfSome result (λ n. n < 16) }
{
    match byte {
        b'A'..=b'P' => Some(byte - b'A'),
        _ => None,
    }
}

/// The number of bytes at the head of a text that are hexadecimal digits.
fn count_nibbles(text: &[u8]) -> usize
    ensures is { result ≡ prefix_len is_nibble text.now }
    ensures within { result ≤ length text.now }
{
    text.iter()
        .take_while(|byte| matches!(**byte, b'A'..=b'P'))
        .count()
}

/// The value of hexadecimal digits, modulo 2^64.
#[tactic(auto, using(crate::proofs::Digits::digit_more, crate::proofs::Digits::digit_all))]
fn value_of(digits: &[u8]) -> u64
    ensures { result ≡ value_after 0 digits.now }
{
    let mut value = 0u64;
    for byte in digits {
        let digit = u64::from(byte.saturating_sub(b'A'));
        value = value.wrapping_mul(16).wrapping_add(digit);
    }
    value
}

/// The number that hexadecimal digits before `@` stand for, and what comes after.
#[tactic(auto, unfolding(crate::specs::Numbers::hexadecimal_of))]
fn hexadecimal(text: &[u8]) -> Option<(u64, &[u8])>
    ensures { option_map (λ r. (r.0, r.1.now)) result ≡ hexadecimal_of text.now }
{
    let count = count_nibbles(text);
    if count < text.len() && text[count] == b'@' {
        return Some((value_of(&text[..count]), &text[count + 1..]));
    }
    None
}

/// The number without a sign that a text begins with, and what comes after: a decimal digit for 1
/// to 10, or else hexadecimal digits before `@`.
#[tactic(auto, unfolding(crate::specs::Numbers::magnitude_of))]
fn split_magnitude(text: &[u8]) -> Option<(u64, &[u8])>
    ensures { option_map (λ r. (r.0, r.1.now)) result ≡ magnitude_of text.now }
{
    match text {
        [digit @ b'0'..=b'9', after @ ..] => Some((u64::from(*digit - b'0') + 1, after)),
        _ => hexadecimal(text),
    }
}

/// A number after a sign, or after none, and what comes after.
fn split_signed(is_negative: bool, text: &[u8]) -> Option<(Number, &[u8])>
    ensures { option_map (λ r. (r.0, r.1.now)) result
        ≡ option_map (with_sign is_negative) (magnitude_of text.now) }
{
    let (magnitude, after) = split_magnitude(text)?;
    let number = Number {
        magnitude,
        is_negative,
    };
    Some((number, after))
}

/// The number that a text begins with, `?` for a minus sign before it, and what comes after.
#[tactic(auto, unfolding(crate::specs::Numbers::number_of))]
pub(crate) fn split_number(text: &[u8]) -> Option<(Number, &[u8])>
    ensures { option_map (λ r. (r.0, r.1.now)) result ≡ number_of text.now }
{
    match text {
        [b'?', digits @ ..] => split_signed(true, digits),
        _ => split_signed(false, text),
    }
}

/// Whether a text begins with hexadecimal digits, `@` and `?`.
#[tactic(auto, unfolding(crate::specs::Numbers::ends_scope))]
fn ends_scope(text: &[u8]) -> bool
    ensures { result ≡ ends_scope_of text.now }
{
    let count = count_nibbles(text);
    byte_at(text, count) == b'@' && byte_at(text, count.saturating_add(1)) == b'?'
}

/// Whether what comes after a letter ends the number of a local scope that begins with it, before
/// `?`: one digit, `@`, or hexadecimal digits before `@` of which the first isn't `A`.
fn ends_number(code: u8, after: &[u8]) -> bool
    ensures { result ≡ ends_number_of code after.now }
{
    if code == b'@' || code >= b'0' && code <= b'9' {
        return byte_at(after, 0) == b'?';
    }
    code >= b'B' && code <= b'P' && ends_scope(after)
}

/// Whether a text begins with a local scope: a number between `?`.
#[tactic(auto, unfolding(crate::specs::Numbers::begins_scope))]
pub(crate) fn begins_local_scope(text: &[u8]) -> bool
    ensures { result ≡ begins_scope text.now }
{
    match text {
        [b'?', code, after @ ..] => ends_number(*code, after),
        _ => false,
    }
}
