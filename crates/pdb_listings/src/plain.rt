//! Values in lines for people.

ghost use Rattle.std.specs.Prelude.{◌≡◌, ◌++◌, OnOk, IfOk, codes};
ghost use Rattle.std.specs.List.{repeat};
ghost use Rattle.std.specs.Fmt.{decimal};
ghost use Rattle.std.specs.Prelude.{string_bytes};
ghost use Rattle.pdb_listings.specs.Values.{address_text, bare_value, plain_field, plain_text};
ghost use Rattle.pdb_listings.specs.Values.{plain_value, tenths_text};

use crate::value::{Field, Value};
use std::alloc::{AllocError, Global};

/// Appends a text.
pub(crate) fn append(output: &mut Vec<u8>, text: &str) -> Result<(), AllocError>
    ensures { OnOk result (output.new.items ≡ output.old.items ++ text.now) }
{
    output.extend_from_slice(text.as_bytes())
}

/// Appends blanks.
#[tactic(auto, using(crate::proofs::Lists::blank_more))]
fn append_blanks(output: &mut Vec<u8>, count: usize) -> Result<(), AllocError>
    ensures { OnOk result (output.new.items ≡ output.old.items ++ repeat count (codes " ")) }
{
    for _i in 0..count {
        append(output, " ")?;
    }
    Ok(())
}

/// Appends `before`, blanks up to a width, and a text.
fn append_padded(
    output: &mut Vec<u8>,
    before: &str,
    width: usize,
    text: &str,
) -> Result<(), AllocError>
    ensures { OnOk result (output.new.items
        ≡ output.old.items ++ plain_text before.now width text.now) }
{
    append(output, before)?;
    append_blanks(output, width.saturating_sub(text.len()))?;
    append(output, text)
}

/// The text of tenths.
pub(crate) fn tenths_string(alloc: Global, tenths: u64) -> Result<String, AllocError>
    ensures { IfOk result (λ text. string_bytes text ≡ tenths_text tenths) }
{
    let whole = tenths / 10;
    let rest = tenths % 10;
    Ok(format!(in alloc; "{whole}.{rest}")?)
}

/// The text of a share in a line for people.
fn share_string(alloc: Global, tenths: u64) -> Result<String, AllocError>
    ensures { IfOk result (λ text. string_bytes text ≡ tenths_text tenths ++ codes "%") }
{
    let mut text = tenths_string(alloc, tenths)?;
    text.push_str("%")?;
    Ok(text)
}

/// The text of a number after a sign.
fn number_string(alloc: Global, sign: &str, number: u64) -> Result<String, AllocError>
    ensures { IfOk result (λ text. string_bytes text ≡ sign.now ++ decimal number) }
{
    Ok(format!(in alloc; "{sign}{number}")?)
}

/// The text of an address.
fn address_string(alloc: Global, address: u32) -> Result<String, AllocError>
    ensures { IfOk result (λ text. string_bytes text ≡ address_text address) }
{
    Ok(format!(in alloc; "0x{address:08x}")?)
}

/// The text of a value without quotes.
pub(crate) fn bare_string(alloc: Global, value: &Value<'_>) -> Result<String, AllocError>
    ensures { IfOk result (λ text. string_bytes text ≡ bare_value value.now) }
{
    match value {
        Value::Unknown => Ok(String::new(alloc)),
        Value::Number(number) => number_string(alloc, "", *number),
        Value::Address(address) => address_string(alloc, *address),
        Value::Change(true, by) => number_string(alloc, "", *by),
        Value::Change(false, by) => number_string(alloc, "-", *by),
        Value::Share(tenths) => tenths_string(alloc, *tenths),
        Value::Text(given) => String::from_str(alloc, given),
    }
}

/// The text of a value in a line for people.
fn plain_string(alloc: Global, value: &Value<'_>) -> Result<String, AllocError>
    ensures { IfOk result (λ text. string_bytes text ≡ plain_value value.now) }
{
    match value {
        Value::Unknown => String::from_str(alloc, "??"),
        Value::Change(true, by) => number_string(alloc, "+", *by),
        Value::Share(tenths) => share_string(alloc, *tenths),
        value => bare_string(alloc, value),
    }
}

/// Appends a field as it stands in a line for people.
pub(crate) fn append_plain_field(
    alloc: Global,
    output: &mut Vec<u8>,
    field: &Field<'_>,
) -> Result<(), AllocError>
    ensures { OnOk result (output.new.items ≡ output.old.items ++ plain_field field.now) }
{
    let text = plain_string(alloc, &field.value)?;
    let column = field.column;
    append_padded(output, column.before, column.width, text.as_str())
}
