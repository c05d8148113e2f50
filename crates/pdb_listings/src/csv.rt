//! Values in CSV, as RFC 4180 has them, with lines that a newline ends.

ghost use Rattle.std.specs.Prelude.{◌≡◌, ◌++◌, OnOk, true};
ghost use Rattle.std.specs.List.{flat_map, list_any};
ghost use Rattle.pdb_listings.specs.Values.{csv_text, csv_value, doubled as doubled_byte};
ghost use Rattle.pdb_listings.specs.Values.{is_special as is_special_byte};

use crate::plain::{append, bare_string};
use crate::value::Value;
use std::alloc::{AllocError, Global};

/// Whether a text that has this byte is quoted.
fn is_special(byte: u8) -> bool
    ensures { result ≡ is_special_byte byte }
{
    byte == b'"' || byte == b',' || byte == b'\n' || byte == b'\r'
}

/// Whether a text is quoted.
fn is_quoted(text: &[u8]) -> bool
    ensures { result ≡ list_any is_special_byte text.now }
{
    text.iter().any(|byte| is_special(*byte))
}

/// Appends the text of a byte between quotes.
fn append_doubled(output: &mut Vec<u8>, byte: u8) -> Result<(), AllocError>
    ensures { OnOk result (output.new.items ≡ output.old.items ++ doubled_byte byte) }
{
    if byte == b'"' {
        return append(output, "\"\"");
    }
    output.extend_from_slice(&[byte])
}

/// Appends the text of bytes between quotes.
#[tactic(auto, using(json_strings::proofs::Lists::text_more, json_strings::proofs::Lists::text_all))]
fn append_bytes(output: &mut Vec<u8>, text: &[u8]) -> Result<(), AllocError>
    ensures { OnOk result (output.new.items ≡ output.old.items ++ flat_map doubled_byte text.now) }
{
    for byte in text {
        append_doubled(output, *byte)?;
    }
    Ok(())
}

/// Appends a text.
#[tactic(auto, unfolding(crate::specs::Values::csv_text))]
fn append_csv_text(output: &mut Vec<u8>, text: &str) -> Result<(), AllocError>
    ensures { OnOk result (output.new.items ≡ output.old.items ++ csv_text text.now) }
{
    if !is_quoted(text.as_bytes()) {
        return append(output, text);
    }
    append(output, "\"")?;
    append_bytes(output, text.as_bytes())?;
    append(output, "\"")
}

/// Appends a value.
pub(crate) fn append_csv_value(
    alloc: Global,
    output: &mut Vec<u8>,
    value: &Value<'_>,
) -> Result<(), AllocError>
    ensures { OnOk result (output.new.items ≡ output.old.items ++ csv_value value.now) }
{
    if let Value::Text(text) = value {
        return append_csv_text(output, text);
    }
    let text = bare_string(alloc, value)?;
    append(output, text.as_str())
}
