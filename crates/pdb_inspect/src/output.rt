//! The output of a listing.

use crate::fault::Fault;
use pdb_listings::{Column, Field, Format, Value, append_header, append_row};
use std::alloc::Global;
use std::io::Write;

/// How many bytes are written at once.
const AT_ONCE: usize = 65_536;

/// An output that rows are written to, in a form.
#[derive(Drop)]
pub struct Output<W: Drop> {
    writer: W,
    alloc: Global,
    format: Format,
    waiting: Vec<u8>,
}

impl<W: Write + Drop> Output<W> {
    /// An output in a form.
    pub fn new(alloc: Global, writer: W, format: Format) -> Output<W> {
        Output {
            writer,
            alloc,
            format,
            waiting: Vec::new(alloc),
        }
    }

    /// Whether it writes lines for people.
    pub fn is_text(&self) -> bool {
        matches!(self.format, Format::Text)
    }

    /// Whether so much waits that it is written before the next row.
    pub fn is_full(&self) -> bool {
        self.waiting.len() >= AT_ONCE
    }

    /// Writes what waits.
    ///
    /// # Errors
    /// `Write`.
    pub fn flush(&mut self) -> Result<(), Fault> {
        match self.writer.write_all(&self.waiting) {
            Ok(()) => {
                self.waiting.clear();
                Ok(())
            }
            Err(_) => Err(Fault::Write),
        }
    }

    /// Writes the columns' names.
    ///
    /// # Errors
    /// `Write`, `OutOfMemory`.
    pub fn header(&mut self, columns: &[Column]) -> Result<(), Fault> {
        append_header(self.alloc, &mut self.waiting, self.format, columns)?;
        Ok(())
    }

    /// Writes a row: a value for each column.
    ///
    /// # Errors
    /// `Write`, `OutOfMemory`.
    pub fn row(&mut self, columns: &[Column], values: &[Value<'_>]) -> Result<(), Fault> {
        if self.is_full() {
            self.flush()?;
        }
        let mut fields = Vec::new(self.alloc);
        for (column, value) in columns.iter().zip(values) {
            fields.push(Field {
                column: *column,
                value: *value,
            })?;
        }
        append_row(self.alloc, &mut self.waiting, self.format, &fields)?;
        Ok(())
    }
}

/// A text that may be missing, as a value.
pub fn text_or_unknown(text: &Option<String>) -> Value<'_> {
    match text {
        Some(text) => Value::Text(text.as_str()),
        None => Value::Unknown,
    }
}

/// A number that may be missing, as a value.
pub fn number_or_unknown(number: Option<u32>) -> Value<'static> {
    match number {
        Some(number) => Value::Number(u64::from(number)),
        None => Value::Unknown,
    }
}

/// The share of a part in a whole, in tenths of a percent.
pub fn share_of(part: u64, whole: u64) -> Value<'static> {
    if whole == 0 {
        return Value::Share(0);
    }
    Value::Share(part.saturating_mul(1000) / whole)
}
