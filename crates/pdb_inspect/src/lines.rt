//! The list of runs of one line.

ghost use Rattle.pdb_addresses.specs.Addresses.{IsOrdered};

use crate::fault::Fault;
use crate::loaded::Loaded;
use crate::output::{Output, number_or_unknown, text_or_unknown};
use pdb_addr2line::FileContext;
use pdb_addresses::AddressMap;
use pdb_listings::{Column, Line, Value, is_same_line, line_run};
use std::alloc::Global;
use std::io::Write;

const COLUMNS: &[Column] = &[
    Column {
        name: "start",
        before: "",
        width: 10,
    },
    Column {
        name: "size",
        before: " ",
        width: 8,
    },
    Column {
        name: "file",
        before: " ",
        width: 0,
    },
    Column {
        name: "line",
        before: ":",
        width: 0,
    },
];

/// Addresses that follow one another and have one line.
#[derive(Drop)]
struct LineRun {
    start: u32,
    length: u32,
    line: Line,
}

/// Runs that are written once they end.
#[derive(Drop)]
struct Lines<'o, W: Write + Drop> {
    output: &'o mut Output<W>,
    last: Option<LineRun>,
}

impl<'o, W: Write + Drop> Lines<'o, W> {
    /// Writes the run that waits.
    fn end(&mut self) -> Result<(), Fault> {
        let Some(run) = self.last.take() else {
            return Ok(());
        };
        let values = [
            Value::Address(run.start),
            Value::Number(u64::from(run.length)),
            text_or_unknown(&run.line.file),
            number_or_unknown(run.line.line),
        ];
        self.output.row(COLUMNS, &values)
    }

    /// Goes on with so many addresses of one line, or of none: with those that wait where they
    /// follow them and have their line.
    fn add(&mut self, start: u32, length: u32, line: Option<Line>) -> Result<(), Fault> {
        let Some(line) = line else {
            return self.end();
        };
        if let Some(last) = &mut self.last {
            if last.start.saturating_add(last.length) == start && is_same_line(&last.line, &line) {
                last.length = last.length.saturating_add(length);
                return Ok(());
            }
        }
        self.end()?;
        self.last = Some(LineRun {
            start,
            length,
            line,
        });
        Ok(())
    }
}

/// Writes the runs of the addresses from one on and before another one; the last may wait.
fn write_range<W: Write + Drop>(
    alloc: Global,
    context: &mut FileContext<'_>,
    map: &AddressMap<'_>,
    range: (u32, u32),
    lines: &mut Lines<'_, W>,
) -> Result<(), Fault>
    requires { IsOrdered map.now }
{
    let (mut address, end) = range;
    while address < end {
        let (line, count) = line_run(alloc, context, map, address, end)?;
        lines.add(address, count, line)?;
        address += count;
    }
    Ok(())
}

/// Writes the runs of the sections in which code may run.
fn write_sections<W: Write + Drop>(
    alloc: Global,
    context: &mut FileContext<'_>,
    map: &AddressMap<'_>,
    lines: &mut Lines<'_, W>,
) -> Result<(), Fault>
    requires { IsOrdered map.now }
{
    for header in map.image_section_headers() {
        if header.characteristics.execute() {
            let start = header.virtual_address;
            let range = (start, start.saturating_add(header.virtual_size));
            write_range(alloc, context, map, range, lines)?;
        }
    }
    lines.end()
}

/// Writes the runs of a database's sections in which code may run.
///
/// # Errors
/// Why not all are written.
pub fn write<W: Write + Drop>(
    alloc: Global,
    loaded: Loaded<'_>,
    output: &mut Output<W>,
) -> Result<(), Fault> {
    output.header(COLUMNS)?;
    let map = loaded.address_map(alloc)?;
    let mut context = loaded.context(alloc)?;
    let mut lines = Lines { output, last: None };
    write_sections(alloc, &mut context, map, &mut lines)
}
