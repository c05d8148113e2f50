//! The number that a word stands for, in the radix that its prefix says.

ghost use Rattle.std.specs.Prelude.{◌≡◌, ◌+◌, ◌*◌, ◌^◌, ◌<◌, option_and_then};
ghost use Rattle.pdb_llvm_protocol.specs.Number.{below, digit_of, hexadecimal_of, number_of};
ghost use Rattle.pdb_llvm_protocol.specs.Number.{value_in, without_0x, written};

/// The value of a digit: of 0 to 9, and of a letter in either case from 10 on.
fn digit(byte: u8) -> Option<u64>
    ensures { result ≡ digit_of byte }
{
    match byte {
        b'0'..=b'9' => Some(u64::from(byte - b'0')),
        b'a'..=b'z' => Some(u64::from(byte - b'a') + 10),
        b'A'..=b'Z' => Some(u64::from(byte - b'A') + 10),
        _ => None,
    }
}

/// The value of a digit that is less than the radix.
fn digit_below(radix: u64, byte: u8) -> Option<u64>
    ensures { result ≡ option_and_then (below radix) (digit_of byte) }
{
    match digit(byte) {
        Some(value) if value < radix => Some(value),
        _ => None,
    }
}

/// The radix that a word is written in, and its digits.
#[tactic(auto, unfolding(crate::specs::Number::written))]
fn radix_and_digits(word: &[u8]) -> (u64, &[u8])
    ensures radix { result.0 ≡ (written word.now).0 }
    ensures some { 0 < result.0 }
    ensures digits { result.1.now ≡ (written word.now).1 }
{
    match word {
        [b'0', b'x' | b'X', digits @ ..] => (16, digits),
        [b'0', b'b' | b'B', digits @ ..] => (2, digits),
        [b'0', b'o', digits @ ..] => (8, digits),
        [b'0', b'0'..=b'9', ..] => (8, word),
        _ => (10, word),
    }
}

/// The value of digits with a digit after them, if it is below 2^64.
fn with_digit(radix: u64, value: u64, digit: u64) -> Option<u64>
    ensures { result ≡ below (2 ^ 64) (value * radix + digit) }
{
    value.checked_mul(radix)?.checked_add(digit)
}

/// The number that digits stand for in a radix.
#[tactic(auto, unfolding(crate::specs::Number::value_in), using(crate::proofs::Digits::past_at, crate::proofs::Digits::value_at))]
fn parse_digits(radix: u64, digits: &[u8]) -> Option<u64>
    requires { 0 < radix }
    ensures { result ≡ value_in radix digits.now }
{
    if digits.is_empty() {
        return None;
    }
    let mut value = 0u64;
    for byte in digits {
        let digit = digit_below(radix, *byte)?;
        value = with_digit(radix, value, digit)?;
    }
    Some(value)
}

/// The number that a word stands for: hexadecimal after `0x` or `0X`, binary after `0b` or `0B`,
/// octal after `0o` or after `0` before another digit, and otherwise decimal. None if the word has
/// no digits, or other bytes, or if the number is 2^64 or more.
#[tactic(auto, unfolding(crate::specs::Number::number_of))]
pub fn parse_number(word: &[u8]) -> Option<u64>
    ensures { result ≡ number_of word.now }
{
    let (radix, digits) = radix_and_digits(word);
    parse_digits(radix, digits)
}

/// A word without `0x` or `0X` before it.
fn after_0x(word: &[u8]) -> &[u8]
    ensures { result.now ≡ without_0x word.now }
{
    match word {
        [b'0', b'x' | b'X', digits @ ..] => digits,
        _ => word,
    }
}

/// The number that a word of hexadecimal digits stands for, after `0x` or `0X` or not. None if the
/// word has no digits, or other bytes, or if the number is 2^64 or more.
#[tactic(auto, unfolding(crate::specs::Number::hexadecimal_of))]
pub(crate) fn parse_hexadecimal(word: &[u8]) -> Option<u64>
    ensures { result ≡ hexadecimal_of word.now }
{
    parse_digits(16, after_0x(word))
}
