//! Rows and headers, as texts.

ghost use Rattle.std.specs.Prelude.{◌≡◌, ◌++◌, IfOk, OnOk, map};
ghost use Rattle.std.specs.List.{flat_map};
ghost use Rattle.pdb_listings.specs.Rows.{closing_text, field_text, fields_text, header_text};
ghost use Rattle.pdb_listings.specs.Rows.{later_text, name_field, opening_text, row_text};
ghost use Rattle.pdb_listings.specs.Rows.{separator_text};

use crate::csv::append_csv_value;
use crate::json::append_json_field;
use crate::plain::{append, append_plain_field};
use crate::value::{Column, Field, Value};
use std::alloc::{AllocError, Global};

/// A form of texts.
#[derive(Clone, Copy)]
pub enum Format {
    /// Lines for people.
    Text,
    /// CSV: a line of names, and a line for each row.
    Csv,
    /// JSON Lines: an object for each row.
    Json,
}

impl Format {
    /// The text before the fields of a row.
    fn opening(self) -> &'static str
        ensures { result.now ≡ opening_text self }
    {
        match self {
            Format::Json => "{",
            Format::Text | Format::Csv => "",
        }
    }

    /// The text before each field after the first.
    fn separator(self) -> &'static str
        ensures { result.now ≡ separator_text self }
    {
        match self {
            Format::Text => "",
            Format::Csv | Format::Json => ",",
        }
    }

    /// The text after the fields.
    fn closing(self) -> &'static str
        ensures { result.now ≡ closing_text self }
    {
        match self {
            Format::Json => "}\n",
            Format::Text | Format::Csv => "\n",
        }
    }
}

/// Appends a field.
fn append_field(
    alloc: Global,
    output: &mut Vec<u8>,
    format: Format,
    field: &Field<'_>,
) -> Result<(), AllocError>
    ensures { OnOk result (output.new.items ≡ output.old.items ++ field_text format field.now) }
{
    match format {
        Format::Text => append_plain_field(alloc, output, field),
        Format::Csv => append_csv_value(alloc, output, &field.value),
        Format::Json => append_json_field(alloc, output, field),
    }
}

/// Appends fields after the first.
#[tactic(auto, using(json_strings::proofs::Lists::text_more, json_strings::proofs::Lists::text_all))]
fn append_later_fields(
    alloc: Global,
    output: &mut Vec<u8>,
    format: Format,
    fields: &[Field<'_>],
) -> Result<(), AllocError>
    ensures { OnOk result (output.new.items
        ≡ output.old.items ++ flat_map (later_text format) fields.now) }
{
    for field in fields {
        append(output, format.separator())?;
        append_field(alloc, output, format, field)?;
    }
    Ok(())
}

/// Appends fields.
fn append_fields(
    alloc: Global,
    output: &mut Vec<u8>,
    format: Format,
    fields: &[Field<'_>],
) -> Result<(), AllocError>
    ensures { OnOk result (output.new.items ≡ output.old.items ++ fields_text format fields.now) }
{
    let Some((first, rest)) = fields.split_first() else {
        return Ok(());
    };
    append_field(alloc, output, format, first)?;
    append_later_fields(alloc, output, format, rest)
}

/// Appends a row.
///
/// # Errors
/// `AllocError` when memory runs out.
pub fn append_row(
    alloc: Global,
    output: &mut Vec<u8>,
    format: Format,
    fields: &[Field<'_>],
) -> Result<(), AllocError>
    ensures { OnOk result (output.new.items ≡ output.old.items ++ row_text format fields.now) }
{
    append(output, format.opening())?;
    append_fields(alloc, output, format, fields)?;
    append(output, format.closing())
}

/// The columns' names, as the fields of a row.
#[tactic(auto, using(std::proofs::lemmas::List::map_more, std::proofs::lemmas::List::take_all))]
fn names_of(alloc: Global, columns: &[Column]) -> Result<Vec<Field<'static>>, AllocError>
    ensures { IfOk result (λ names. names.items ≡ map name_field columns.now) }
{
    let mut names = Vec::new(alloc);
    for column in columns {
        names.push(Field {
            column: *column,
            value: Value::Text(column.name),
        })?;
    }
    Ok(names)
}

/// Appends the line of the columns' names, where the form has one.
///
/// # Errors
/// `AllocError` when memory runs out.
pub fn append_header(
    alloc: Global,
    output: &mut Vec<u8>,
    format: Format,
    columns: &[Column],
) -> Result<(), AllocError>
    ensures { OnOk result (output.new.items ≡ output.old.items ++ header_text format columns.now) }
{
    if let Format::Json = format {
        return Ok(());
    }
    let names = names_of(alloc, columns)?;
    append_row(alloc, output, format, &names)
}
