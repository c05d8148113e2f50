//! Strings of JSON, as RFC 8259 has them.
//!
//! The set of bytes that are escaped may not change: readers compare lines.
#![tactic(auto)]

ghost use Rattle.std.specs.Prelude.{◌≡◌, ◌++◌, ◌∷◌, [], ◌<◌, ◌/◌, ◌%◌, OnOk, codes};
ghost use Rattle.std.specs.List.{flat_map};
ghost use Rattle.json_strings.specs.Json.{digit as digit_of, escaped, string_text};

use std::alloc::AllocError;

/// The digit of a number below 16, in lower case.
fn digit(number: u8) -> u8
    requires { number < 16 }
    ensures { result ≡ digit_of number }
{
    if number < 10 {
        b'0' + number
    } else {
        b'a' - 10 + number
    }
}

/// Appends a control character, escaped by its number.
fn append_control(output: &mut Vec<u8>, byte: u8) -> Result<(), AllocError>
    ensures { OnOk result (output.new.items ≡ output.old.items
        ++ (codes "\\u00" ++ digit_of (byte / 16) ∷ digit_of (byte % 16) ∷ [])) }
{
    output.extend_from_slice(b"\\u00")?;
    output.extend_from_slice(&[digit(byte / 16), digit(byte % 16)])
}

/// Appends a byte of a string: a quote, a backslash or a control character is escaped.
fn append_escaped(output: &mut Vec<u8>, byte: u8) -> Result<(), AllocError>
    ensures { OnOk result (output.new.items ≡ output.old.items ++ escaped byte) }
{
    match byte {
        b'"' => output.extend_from_slice(b"\\\""),
        b'\\' => output.extend_from_slice(b"\\\\"),
        0..32 => append_control(output, byte),
        _ => output.extend_from_slice(&[byte]),
    }
}

/// Appends bytes of a string: quotes, backslashes and control characters are escaped.
///
/// # Errors
/// `AllocError` when memory runs out; a part may be appended then.
#[tactic(auto, using(crate::proofs::Lists::text_more, crate::proofs::Lists::text_all))]
pub fn append_bytes(output: &mut Vec<u8>, bytes: &[u8]) -> Result<(), AllocError>
    ensures { OnOk result (output.new.items ≡ output.old.items ++ flat_map escaped bytes.now) }
{
    for byte in bytes {
        append_escaped(output, *byte)?;
    }
    Ok(())
}

/// Appends a string of this text, with its quotes.
///
/// # Errors
/// `AllocError` when memory runs out; a part may be appended then.
#[tactic(auto, unfolding(crate::specs::Json::string_text))]
pub fn append_string(output: &mut Vec<u8>, text: &str) -> Result<(), AllocError>
    ensures { OnOk result (output.new.items ≡ output.old.items ++ string_text text.now) }
{
    output.extend_from_slice(b"\"")?;
    append_bytes(output, text.as_bytes())?;
    output.extend_from_slice(b"\"")
}
