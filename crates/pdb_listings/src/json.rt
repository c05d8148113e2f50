//! Values in JSON.

ghost use Rattle.std.specs.Prelude.{◌≡◌, ◌++◌, OnOk};
ghost use Rattle.pdb_listings.specs.Values.{json_field, json_value};

use crate::plain::{append, bare_string};
use crate::value::{Field, Value};
use json_strings::append_string;
use std::alloc::{AllocError, Global};

/// Appends a value.
fn append_json_value(
    alloc: Global,
    output: &mut Vec<u8>,
    value: &Value<'_>,
) -> Result<(), AllocError>
    ensures { OnOk result (output.new.items ≡ output.old.items ++ json_value value.now) }
{
    if let Value::Unknown = value {
        return append(output, "null");
    }
    let text = bare_string(alloc, value)?;
    match value {
        Value::Address(_) | Value::Text(_) => append_string(output, text.as_str()),
        _ => append(output, text.as_str()),
    }
}

/// Appends a member of an object: its column's name, and its value.
pub(crate) fn append_json_field(
    alloc: Global,
    output: &mut Vec<u8>,
    field: &Field<'_>,
) -> Result<(), AllocError>
    ensures { OnOk result (output.new.items ≡ output.old.items ++ json_field field.now) }
{
    let column = field.column;
    append_string(output, column.name)?;
    append(output, ":")?;
    append_json_value(alloc, output, &field.value)
}
