//! Readers and writers that fail at each place, or that give and take few bytes.

use crate::files::{F, File, Outcome, Stop, ended, line_buffer};
use pdb_report::{Watched, run_frames, run_sizes, run_sizes_by_file};
use pdb_samples::{PieceReader, PieceWriter};
use std::alloc::Global;
use std::io::ErrorKind;
use std::test::Fail;

/// A question about a file, and the report that answers it.
#[derive(Clone, Copy)]
struct Row {
    file: File,
    /// Addresses, one on each line.
    input: &'static [u8],
    /// The range whose addresses are counted; without one, lines are answered.
    range: Option<(u32, u32)>,
    /// Whether addresses are counted by source file.
    by_file: bool,
    /// The texts of the report: one for each line, or the text for the range.
    texts: &'static [&'static [u8]],
}

const ODD_INPUT: Row = Row {
    file: F,
    input: b"1050\nzz\n\n1014",
    range: None,
    by_file: false,
    texts: &[
        b"0x00001050\n  ??\n",
        b"not an address\n",
        b"not an address\n",
        b"0x00001014\n  f at a.c:5 @0x00001010+8\n",
    ],
};

const NESTED_SITES: Row = Row {
    file: File::NestedSites,
    input: b"1019\n",
    range: None,
    by_file: false,
    texts: &[
        b"0x00001019\n  h() at c.h:9 @0x00001018+4\n  g() at b.h:?? @??\n  \
        f at a.c:7 @0x00001018+24\n",
    ],
};

const PART_OF_A_FUNCTION: Row = Row {
    file: F,
    input: b"",
    range: Some((0x1018, 0x1030)),
    by_file: false,
    texts: &[b"0x00001010 24 f\nnone 0\n"],
};

const SECTION_BY_FILE: Row = Row {
    file: F,
    input: b"",
    range: Some((0x1000, 0x1100)),
    by_file: true,
    texts: &[b"32 a.c\nno file 0\nnone 224\nunreadable 0\n"],
};

/// A line, and one that can't be read to its end.
const CUT_LINE: Row = Row {
    file: F,
    input: b"1014\n10",
    range: None,
    by_file: false,
    texts: &[
        b"0x00001014\n  f at a.c:5 @0x00001010+8\n",
        b"0x00000010\n  ??\n",
    ],
};

/// The failure of a reader or a writer at each place, if it fails.
const FAULTS: [Option<ErrorKind>; 2] = [None, Some(ErrorKind::Interrupted)];

/// Each kind of failure.
const KINDS: &[ErrorKind] = &[
    ErrorKind::NotFound,
    ErrorKind::PermissionDenied,
    ErrorKind::ConnectionRefused,
    ErrorKind::ConnectionReset,
    ErrorKind::HostUnreachable,
    ErrorKind::NetworkUnreachable,
    ErrorKind::ConnectionAborted,
    ErrorKind::NotConnected,
    ErrorKind::AddrInUse,
    ErrorKind::AddrNotAvailable,
    ErrorKind::NetworkDown,
    ErrorKind::BrokenPipe,
    ErrorKind::AlreadyExists,
    ErrorKind::WouldBlock,
    ErrorKind::NotADirectory,
    ErrorKind::IsADirectory,
    ErrorKind::DirectoryNotEmpty,
    ErrorKind::ReadOnlyFilesystem,
    ErrorKind::FilesystemLoop,
    ErrorKind::StaleNetworkFileHandle,
    ErrorKind::InvalidInput,
    ErrorKind::InvalidData,
    ErrorKind::TimedOut,
    ErrorKind::WriteZero,
    ErrorKind::StorageFull,
    ErrorKind::NotSeekable,
    ErrorKind::QuotaExceeded,
    ErrorKind::FileTooLarge,
    ErrorKind::ResourceBusy,
    ErrorKind::ExecutableFileBusy,
    ErrorKind::Deadlock,
    ErrorKind::CrossesDevices,
    ErrorKind::TooManyLinks,
    ErrorKind::InvalidFilename,
    ErrorKind::ArgumentListTooLong,
    ErrorKind::Interrupted,
    ErrorKind::Unsupported,
    ErrorKind::UnexpectedEof,
    ErrorKind::OutOfMemory,
    ErrorKind::InProgress,
    ErrorKind::Other,
    ErrorKind::Uncategorized,
];

/// The behaviour of a reader and a writer.
#[derive(Clone, Copy)]
struct Ends {
    /// The greatest number of bytes that a read gives and a write takes.
    piece: usize,
    /// The number of bytes that the reader gives before its failure, or without one before the
    /// rest.
    cut: usize,
    /// The failure of the reader, if it fails.
    read_fault: Option<ErrorKind>,
    /// The number of bytes that the writer takes.
    room: usize,
    /// The failure of the writer after these, if it doesn't stall.
    write_fault: Option<ErrorKind>,
}

/// The number of calls that failed, and how the last one did.
type Failures = (u64, Option<ErrorKind>);

/// The bytes that a run wrote, the failures of its reader and of its writer, and how it ended.
type Ran = (Vec<u8>, Failures, Failures, Outcome);

/// Runs over a row.
fn run_once(alloc: Global, row: &Row, ends: Ends) -> Result<Ran, Fail> {
    let file = row.file.bytes(alloc)?;
    let cut = ends.cut.min(row.input.len());
    let mut reader = Watched::new(PieceReader {
        bytes: &row.input[..cut],
        rest: &row.input[cut..],
        piece: ends.piece,
        fault: ends.read_fault,
    });
    let mut inner = PieceWriter {
        written: line_buffer(alloc)?,
        piece: ends.piece,
        room: ends.room,
        fault: ends.write_fault,
    };
    let mut writer = Watched::new(&mut inner);
    let outcome = match row.range {
        None => ended(run_frames(alloc, file, &mut reader, &mut writer)),
        Some((start, end)) if row.by_file => {
            ended(run_sizes_by_file(alloc, file, start, end, &mut writer)).map(|_| ())
        }
        Some((start, end)) => { ended(run_sizes(alloc, file, start, end, &mut writer)).map(|_| ()) }
    };
    let writes = (writer.failures(), writer.last_kind());
    let reads = (reader.failures(), reader.last_kind());
    Ok((inner.written, reads, writes, outcome))
}

/// Runs over a row, and once more if memory runs out and neither reader nor writer failed.
fn run(alloc: Global, row: &Row, ends: Ends) -> Result<Ran, Fail> {
    let first = run_once(alloc, row, ends)?;
    match (first.1.0, first.2.0, first.3) {
        (0, 0, Err(Stop::OutOfMemory)) => run_once(alloc, row, ends),
        _ => Ok(first),
    }
}

/// Returns the outcome of a run whose reader fails with that kind, or doesn't fail.
fn read_outcome(kind: Option<ErrorKind>) -> Outcome {
    match kind {
        None => Ok(()),
        Some(ErrorKind::OutOfMemory) => Err(Stop::OutOfMemory),
        Some(kind) => Err(Stop::Read(kind)),
    }
}

/// Returns the outcome of a run whose writer fails with that kind, or doesn't fail.
fn write_outcome(kind: Option<ErrorKind>) -> Outcome {
    match kind {
        None => Ok(()),
        Some(ErrorKind::OutOfMemory) => Err(Stop::OutOfMemory),
        Some(kind) => Err(Stop::Write(kind)),
    }
}

/// Returns the first `count` texts of a row's report.
fn joined(alloc: Global, row: &Row, count: usize) -> Result<Vec<u8>, Fail> {
    let mut report = line_buffer(alloc)?;
    for text in row.texts.iter().take(count) {
        report.extend_from_slice(text)?;
    }
    Ok(report)
}

/// Returns the number of lines that end in these bytes.
fn count_ended(input: &[u8]) -> usize {
    input.iter().filter(|byte| **byte == b'\n').count()
}

/// Returns whether the right report comes where the reader gives pieces. If it fails after `cut`
/// bytes, it is the report on the lines that end before, or else the whole one.
fn is_read(
    alloc: Global,
    row: &Row,
    piece: usize,
    cut: usize,
    fault: Option<ErrorKind>,
) -> Result<bool, Fail> {
    let ends = Ends {
        piece,
        cut,
        read_fault: fault,
        room: usize::MAX,
        write_fault: None,
    };
    let (out, reads, writes, outcome) = run(alloc, row, ends)?;
    let lines = match fault {
        None => row.texts.len(),
        Some(_) => count_ended(row.input.get(..cut).unwrap_or(row.input)),
    };
    Ok(
        out == joined(alloc, row, lines)?
            && reads == (u64::from(fault.is_some()), fault)
            && writes == (0, None)
            && outcome == read_outcome(fault),
    )
}

/// Returns the first offset in a row's input at which a reader with this failure leads to a wrong
/// report, if any does.
fn first_misread(
    alloc: Global,
    row: &Row,
    fault: Option<ErrorKind>,
) -> Result<Option<usize>, Fail> {
    for cut in 0..=row.input.len() {
        if !is_read(alloc, row, 1, cut, fault)? || !is_read(alloc, row, usize::MAX, cut, fault)? {
            return Ok(Some(cut));
        }
    }
    Ok(None)
}

#[test]
fn readers(rt: HostRuntime) -> Result<(), Fail> {
    for fault in FAULTS {
        for row in [ODD_INPUT, NESTED_SITES, CUT_LINE] {
            let cut = first_misread(rt.alloc(), &row, fault)?;
            assert!(rt;
                cut.is_none(),
                "{fault:?} after {cut:?} bytes of {:?}",
                row.input
            );
        }
    }
    Ok(())
}

/// Returns whether the two parts of a row's input, cut after a newline, have the texts of their own
/// lines.
fn are_parts_read(alloc: Global, row: &Row, cut: usize) -> Result<bool, Fail> {
    let cut = cut.min(row.input.len());
    let lines = count_ended(&row.input[..cut]).min(row.texts.len());
    let first = Row {
        input: &row.input[..cut],
        texts: &row.texts[..lines],
        ..*row
    };
    let second = Row {
        input: &row.input[cut..],
        texts: &row.texts[lines..],
        ..*row
    };
    Ok(
        is_read(alloc, &first, usize::MAX, cut, None)?
            && is_read(alloc, &second, usize::MAX, 0, None)?,
    )
}

#[test]
fn joined_inputs(rt: HostRuntime) -> Result<(), Fail> {
    for cut in [5, 8, 9] {
        assert!(rt;
            are_parts_read(rt.alloc(), &ODD_INPUT, cut)?,
            "after {cut} bytes"
        );
    }
    Ok(())
}

/// Returns whether the written prefix of the report is as long as the writer's room. The writer
/// takes one byte at a time, and then fails or stalls.
fn is_written(
    alloc: Global,
    row: &Row,
    room: usize,
    fault: Option<ErrorKind>,
) -> Result<bool, Fail> {
    let ends = Ends {
        piece: 1,
        cut: 0,
        read_fault: None,
        room,
        write_fault: fault,
    };
    let (out, reads, writes, outcome) = run(alloc, row, ends)?;
    let report = joined(alloc, row, row.texts.len())?;
    let kind = if room < report.len() {
        Some(fault.unwrap_or(ErrorKind::WriteZero))
    } else {
        None
    };
    Ok(
        out.as_slice() == report.get(..room).unwrap_or(report.as_slice())
            && reads == (0, None)
            && writes == (u64::from(kind.is_some()), kind)
            && outcome == write_outcome(kind),
    )
}

/// Returns the least room with which a writer with this failure leads to a wrong report on a row,
/// if any does.
fn first_miswritten(
    alloc: Global,
    row: &Row,
    fault: Option<ErrorKind>,
) -> Result<Option<usize>, Fail> {
    for room in 0..=joined(alloc, row, row.texts.len())?.len() {
        if !is_written(alloc, row, room, fault)? {
            return Ok(Some(room));
        }
    }
    Ok(None)
}

#[test]
fn writers(rt: HostRuntime) -> Result<(), Fail> {
    for fault in FAULTS {
        for row in [ODD_INPUT, NESTED_SITES, PART_OF_A_FUNCTION, SECTION_BY_FILE] {
            let room = first_miswritten(rt.alloc(), &row, fault)?;
            assert!(rt;
                room.is_none(),
                "{fault:?}, room for {room:?} bytes, {:?}",
                row.input
            );
        }
    }
    Ok(())
}

#[test]
fn kinds(rt: HostRuntime) -> Result<(), Fail> {
    for kind in KINDS {
        let is_read = is_read(rt.alloc(), &CUT_LINE, usize::MAX, 7, Some(*kind))?;
        let is_written = is_written(rt.alloc(), &ODD_INPUT, 30, Some(*kind))?;
        assert!(rt; is_read && is_written, "{kind:?}");
    }
    Ok(())
}
