//! The report where no task comes of arguments: its text, its output, and the status.

use pdb_arguments::{WordsFault, tell_words};
use std::alloc::{AllocError, Global};
use std::io::{self, ErrorKind, Write};
use std::test::Fail;

/// A fault, the texts that are written of it to the output and to the errors, and the status.
type Row = (WordsFault, &'static str, &'static str, u8);

/// Returns a row for each kind of fault.
fn faults(alloc: Global) -> Result<[Row; 4], AllocError> {
    let help = String::from_str(alloc, "help\n")?;
    let cause = String::from_str(alloc, "cause\n")?;
    Ok([
        (WordsFault::Help(help), "help\n", "", 0),
        (WordsFault::Words(cause), "", "cause\n", 2),
        (WordsFault::NotAnAddress, "", "fault: NotAnAddress\n", 2),
        (WordsFault::OutOfMemory, "", "fault: OutOfMemory\n", 1),
    ])
}

/// Returns the rows of [`faults`], and asks once more if memory runs out.
fn faults_again(alloc: Global) -> Result<[Row; 4], AllocError> {
    match faults(alloc) {
        Ok(rows) => Ok(rows),
        Err(_) => faults(alloc),
    }
}

/// Makes an empty writer with room for a line.
fn line_writer(alloc: Global) -> Result<Vec<u8>, AllocError> {
    match Vec::with_capacity(alloc, 32) {
        Ok(writer) => Ok(writer),
        Err(_) => Vec::with_capacity(alloc, 32),
    }
}

#[test]
fn faults_of_each_kind(rt: HostRuntime) -> Result<(), Fail> {
    for (fault, told, told_to_errors, wanted) in &faults_again(rt.alloc())? {
        let mut output = line_writer(rt.alloc())?;
        let mut errors = line_writer(rt.alloc())?;
        let status = tell_words(fault, &mut output, &mut errors);
        assert_eq!(rt; output.as_slice(), told.as_bytes());
        assert_eq!(rt; errors.as_slice(), told_to_errors.as_bytes());
        assert_eq!(rt; status, Ok(*wanted));
    }
    Ok(())
}

/// A writer that takes nothing.
#[derive(Drop)]
struct ClosedPipe;

impl Write for ClosedPipe {
    fn write(&mut self, _bytes: &[u8]) -> io::Result<usize> {
        Err(ErrorKind::BrokenPipe.into())
    }

    fn flush(&mut self) -> io::Result<()> {
        Ok(())
    }
}

// Help that can't be written is refused. The status of all other faults, which go to the errors, is
// the same where nothing can be written.
#[test]
fn closed_pipes(rt: HostRuntime) -> Result<(), Fail> {
    for (fault, told, _, wanted) in &faults_again(rt.alloc())? {
        let status = tell_words(fault, &mut ClosedPipe, &mut ClosedPipe);
        let expected = if told.is_empty() {
            Ok(*wanted)
        } else {
            Err(ErrorKind::BrokenPipe)
        };
        assert_eq!(rt; status, expected);
    }
    Ok(())
}
