//! The number of writes that answers take, and the reports of faults, whole or in part.

use crate::files::{F0, Outcome, Stop, ended, line_buffer};
use pdb_report::{RunFault, Watched, finish_run, run_frames};
use pdb_samples::PieceWriter;
use std::alloc::Global;
use std::io::{self, ErrorKind, Read, Write};
use std::test::Fail;

/// A reader that gives `left` newlines in all, and at most `most` of them at each call.
#[derive(Drop)]
struct Newlines {
    left: usize,
    most: usize,
}

impl Read for Newlines {
    fn read(&mut self, buf: &mut [u8]) -> io::Result<usize> {
        let count = buf.len().min(self.left).min(self.most);
        buf[..count].fill(b'\n');
        self.left -= count;
        Ok(count)
    }
}

/// A writer that takes all bytes that it is given, and counts the calls.
#[derive(Drop)]
struct CallCounter {
    calls: usize,
}

impl Write for CallCounter {
    fn write(&mut self, buf: &[u8]) -> io::Result<usize> {
        self.calls = self.calls.saturating_add(1);
        Ok(buf.len())
    }

    fn flush(&mut self) -> io::Result<()> {
        Ok(())
    }
}

/// Answers `lines` empty lines from file F0, of which a read gives at most `most`. Returns how the
/// run ends, and the number of writes that it takes.
fn count_writes(alloc: Global, lines: usize, most: usize) -> Result<(Outcome, usize), Fail> {
    let file = F0.bytes(alloc)?;
    let mut reader = Watched::new(Newlines { left: lines, most });
    let mut inner = CallCounter { calls: 0 };
    let mut writer = Watched::new(&mut inner);
    let outcome = run_frames(alloc, file, &mut reader, &mut writer);
    Ok((ended(outcome), inner.calls))
}

/// Returns whether the run succeeds and takes that many writes. If memory runs out, it runs once
/// more.
fn are_gathered(alloc: Global, lines: usize, most: usize, writes: usize) -> Result<bool, Fail> {
    let (mut outcome, mut calls) = count_writes(alloc, lines, most)?;
    if outcome == Err(Stop::OutOfMemory) {
        (outcome, calls) = count_writes(alloc, lines, most)?;
    }
    Ok(outcome == Ok(()) && calls == writes)
}

/// The number of empty lines, the most of them that a read gives, and the number of writes that
/// their answers take. Each answer has 15 bytes.
const GATHERED: &[(usize, usize, usize)] = &[
    // The answers to the lines of a read go out together.
    (1_000, usize::MAX, 1),
    // A read's line is answered before the next read.
    (3, 1, 3),
    // Gathered answers go out once they have 65,536 bytes.
    (5_000, usize::MAX, 2),
];

#[test]
fn gathered_answers(rt: HostRuntime) -> Result<(), Fail> {
    for (lines, most, writes) in GATHERED {
        let is_right = are_gathered(rt.alloc(), *lines, *most, *writes)?;
        assert!(rt; is_right, "{lines} lines, {most} at a read");
    }
    Ok(())
}

/// Returns whether a fault is reported with that text, and with the status 1.
fn is_reported(alloc: Global, fault: RunFault, text: &str) -> Result<bool, Fail> {
    let mut errors = line_buffer(alloc)?;
    let status = finish_run(Err(fault), &mut errors);
    Ok(status == 1 && errors.as_slice() == text.as_bytes())
}

// The two faults that no recorded report has.
#[test]
fn reported_faults(rt: HostRuntime) -> Result<(), Fail> {
    let read = RunFault::Read(ErrorKind::BrokenPipe);
    let write = RunFault::Write(ErrorKind::WriteZero);
    assert!(rt; is_reported(rt.alloc(), read, "fault: Read(BrokenPipe)\n")?);
    assert!(rt; is_reported(rt.alloc(), write, "fault: Write(WriteZero)\n")?);
    Ok(())
}

/// Returns whether a fault that can't be reported whole leaves a prefix of its line.
fn is_front_told(alloc: Global, room: usize) -> Result<bool, Fail> {
    let mut errors = PieceWriter {
        written: line_buffer(alloc)?,
        piece: 9,
        room,
        fault: Some(ErrorKind::BrokenPipe),
    };
    let status = finish_run(Err(RunFault::InputTooLong), &mut errors);
    let told = errors.written.as_slice();
    Ok(status == 1 && told.len() == room && b"fault: InputTooLong\n".starts_with(told))
}

#[test]
fn untold_faults(rt: HostRuntime) -> Result<(), Fail> {
    for room in [0, 3] {
        assert!(rt; is_front_told(rt.alloc(), room)?, "room for {room}");
    }
    Ok(())
}
