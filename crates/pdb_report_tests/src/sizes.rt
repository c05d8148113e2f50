//! Reports on ranges of addresses, and the number of addresses that were looked up for them.

use crate::files::{F, F0, File, Stop, ended};
use pdb_report::{Tally, Watched, run_sizes, run_sizes_by_file};
use pdb_samples::Change;
use std::alloc::Global;
use std::test::Fail;

/// The outcome of a run.
type Outcome = Result<Tally, Stop>;

/// The answers that are counted.
#[derive(Clone, Copy)]
enum Counted {
    Functions,
    Files,
}

/// Runs over a range of these bytes, and returns what is written, and how the run ends.
fn run_over(
    alloc: Global,
    bytes: Vec<u8>,
    counted: Counted,
    range: (u32, u32),
) -> (Vec<u8>, Outcome) {
    let mut report = Vec::new(alloc);
    let mut writer = Watched::new(&mut report);
    let outcome = match counted {
        Counted::Functions => run_sizes(alloc, bytes, range.0, range.1, &mut writer),
        Counted::Files => run_sizes_by_file(alloc, bytes, range.0, range.1, &mut writer),
    };
    (report, ended(outcome))
}

/// Runs over a range of a file, and returns what is written, and how the run ends.
fn run_once(
    alloc: Global,
    file: File,
    counted: Counted,
    range: (u32, u32),
) -> Result<(Vec<u8>, Outcome), Fail> {
    let bytes = file.bytes(alloc)?;
    Ok(run_over(alloc, bytes, counted, range))
}

/// Runs as [`run_once`], and once more if memory runs out.
fn run_on(
    alloc: Global,
    file: File,
    counted: Counted,
    range: (u32, u32),
) -> Result<(Vec<u8>, Outcome), Fail> {
    let first = run_once(alloc, file, counted, range)?;
    match &first.1 {
        Err(Stop::OutOfMemory) => run_once(alloc, file, counted, range),
        _ => Ok(first),
    }
}

/// A file, a range, the report on it, and the least and greatest number of addresses that may be
/// looked up for it.
type Row = (File, (u32, u32), &'static str, (u64, u64));

const ROWS: &[Row] = &[
    // A part of a function.
    (F, (0x1018, 0x1030), "0x00001010 24 f\nnone 0\n", (1, 1)),
    // Moved code, and addresses without a place, which aren't looked up.
    (
        File::MovedCode,
        (0x2000, 0x2010),
        "0x00002000 8 f\nnone 8\n",
        (1, 1),
    ),
    // No address at all.
    (F, (0x1018, 0x1018), "none 0\n", (0, 0)),
    // A whole section: answers may change after 0x10, 0x30 and 0x40 bytes.
    (F, (0x1000, 0x1100), "0x00001010 32 f\nnone 224\n", (1, 4)),
    // A function in another one, which goes on after it: answers may change at 0x1010, 0x1018,
    // 0x1020 and 0x1030.
    (
        File::With(Change::NestedProcedure),
        (0x1008, 0x1038),
        "0x00001010 24 f\n0x00001018 8 g\nnone 16\n",
        (1, 5),
    ),
];

const ROWS_BY_FILE: &[Row] = &[
    // A whole section: files may change at 0x1010, 0x1018, 0x1030 and 0x1040.
    (
        F,
        (0x1000, 0x1100),
        "32 a.c\nno file 0\nnone 224\nunreadable 0\n",
        (1, 5),
    ),
    // No rows.
    (
        F0,
        (0x1010, 0x1030),
        "no file 32\nnone 0\nunreadable 0\n",
        (1, 1),
    ),
    // Moved code.
    (
        File::MovedCode,
        (0x2000, 0x2010),
        "8 a.c\nno file 0\nnone 8\nunreadable 0\n",
        (1, 1),
    ),
    // No address at all.
    (
        F,
        (0x1018, 0x1018),
        "no file 0\nnone 0\nunreadable 0\n",
        (0, 0),
    ),
];

/// Returns whether the report of a row comes, with as many lookups as it allows.
fn is_counted(alloc: Global, counted: Counted, row: &Row) -> Result<bool, Fail> {
    let (file, range, report, (least, most)) = *row;
    let (found, outcome) = run_on(alloc, file, counted, range)?;
    let lookups = outcome?.lookups;
    Ok(found.as_slice() == report.as_bytes() && least <= lookups && lookups <= most)
}

#[test]
fn sizes(rt: HostRuntime) -> Result<(), Fail> {
    for (number, row) in ROWS.iter().enumerate() {
        assert!(rt;
            is_counted(rt.alloc(), Counted::Functions, row)?,
            "row {number}"
        );
    }
    Ok(())
}

#[test]
fn sizes_by_file(rt: HostRuntime) -> Result<(), Fail> {
    for (number, row) in ROWS_BY_FILE.iter().enumerate() {
        assert!(rt;
            is_counted(rt.alloc(), Counted::Files, row)?,
            "row {number}"
        );
    }
    Ok(())
}
