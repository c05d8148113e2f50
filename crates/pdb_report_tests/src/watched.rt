//! Calls of a watched reader or writer: each is one call of the wrapped one, which no clause says.

use crate::files::line_buffer;
use pdb_report::Watched;
use pdb_samples::{PieceReader, PieceWriter};
use std::io::{self, ErrorKind};
use std::test::Fail;

/// The result of a call, and the number of calls that have failed after it.
type Call = (Result<usize, ErrorKind>, u64);

/// Returns the number of bytes that a call took, or the kind of its failure.
fn outcome_of(returned: io::Result<usize>) -> Result<usize, ErrorKind> {
    match returned {
        Ok(count) => Ok(count),
        Err(error) => Err(error.kind()),
    }
}

/// Reads of one byte, of which the third fails, with room for nine.
const READS: &[Call] = &[
    (Ok(1), 0),
    (Ok(1), 0),
    (Err(ErrorKind::Interrupted), 1),
    (Ok(1), 1),
    (Ok(0), 1),
];

#[test]
fn watched_reads(rt: HostRuntime) -> Result<(), Fail> {
    let mut reader = Watched::new(PieceReader {
        bytes: b"12",
        rest: b"3",
        piece: 1,
        fault: Some(ErrorKind::Interrupted),
    });
    for call in READS {
        let outcome = outcome_of(reader.read(&mut [0; 9]));
        assert!(rt;
            outcome == call.0 && reader.failures() == call.1,
            "{outcome:?} in place of {call:?}"
        );
    }
    Ok(())
}

/// Writes of nine bytes, of which one is taken, and of which the third fails.
const WRITES: &[Call] = &[
    (Ok(1), 0),
    (Ok(1), 0),
    (Err(ErrorKind::BrokenPipe), 1),
    (Ok(1), 1),
];

#[test]
fn watched_writes(rt: HostRuntime) -> Result<(), Fail> {
    let mut writer = Watched::new(PieceWriter {
        written: line_buffer(rt.alloc())?,
        piece: 1,
        room: 2,
        fault: Some(ErrorKind::BrokenPipe),
    });
    for call in WRITES {
        let outcome = outcome_of(writer.write(b"123456789"));
        assert!(rt;
            outcome == call.0 && writer.failures() == call.1,
            "{outcome:?} in place of {call:?}"
        );
    }
    Ok(())
}
