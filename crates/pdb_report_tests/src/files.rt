//! The files that the tests report on, and reports on them.

use pdb_report::{RunFault, Watched, run_frames};
use pdb_samples::{
    Change, ProgramDatabase, Result, SampleError, file_f, file_with, nested_sites, push_u32,
};
use std::alloc::Global;
use std::io::{ErrorKind, Read};

/// A file.
#[derive(Clone, Copy)]
pub enum File {
    /// File F whose code was moved: two OMAPs lead from 0x2000 to the code at 0x1010 and back, and
    /// nowhere from 0x2008 on.
    MovedCode,
    /// File F with an inline site of `g` in `f`, and one of `h` in `g`.
    NestedSites,
    /// File F0 with one change.
    With(Change),
}

/// File F0.
pub const F0: File = File::With(Change::Nothing);

/// File F.
pub const F: File = File::With(Change::LineData);

impl File {
    /// Makes the file's bytes, and tries once more if memory runs out.
    ///
    /// # Errors
    /// As [`File::made`].
    pub fn bytes(self, alloc: Global) -> Result<Vec<u8>> {
        match self.made(alloc) {
            Err(SampleError::OutOfMemory) => self.made(alloc),
            made => made,
        }
    }

    /// Makes the file's bytes.
    ///
    /// # Errors
    /// `OutOfMemory`.
    pub fn made(self, alloc: Global) -> Result<Vec<u8>> {
        match self {
            File::MovedCode => moved_code(alloc)?.bytes(alloc),
            File::NestedSites => nested_sites(alloc),
            File::With(change) => file_with(alloc, change)?.bytes(alloc),
        }
    }
}

/// Makes the file whose code was moved. Its streams of OMAPs and of the original sections come
/// after all others.
fn moved_code(alloc: Global) -> Result<ProgramDatabase> {
    let mut database = file_f(alloc)?;
    push_numbers(alloc, &mut database, 3, &[0x2000, 0x1010, 0x2008, 0])?;
    push_numbers(alloc, &mut database, 4, &[0x1010, 0x2000])?;
    let sections = Vec::from_slice(alloc, database.sections.as_slice())?;
    push_stream(&mut database, 10, sections)?;
    Ok(database)
}

/// Adds a stream of numbers, which the optional header names at that place.
fn push_numbers(
    alloc: Global,
    database: &mut ProgramDatabase,
    place: usize,
    numbers: &[u32],
) -> Result<()> {
    let mut stream = Vec::new(alloc);
    push_u32(&mut stream, numbers)?;
    push_stream(database, place, stream)
}

/// Adds a stream, which the optional header names at that place. Nine streams come before the first
/// one that is added.
fn push_stream(database: &mut ProgramDatabase, place: usize, stream: Vec<u8>) -> Result<()> {
    let number = database.further_streams.len().saturating_add(9);
    match database.debug.optional_header.get_mut(place) {
        Some(named) => *named = u16::try_from(number)?,
        None => return Err(SampleError::DoesNotFit),
    }
    database.further_streams.push(Some(stream))?;
    Ok(())
}

/// The cause with which a run ended early: a failed read or write, out of memory, or another one.
#[derive(Clone, Copy, Debug, PartialEq)]
pub enum Stop {
    /// A read failed with this kind.
    Read(ErrorKind),
    /// A write failed with this kind.
    Write(ErrorKind),
    /// Out of memory.
    OutOfMemory,
    /// Another cause.
    Other,
}

/// Returns the cause with which a run with that fault ended.
fn stop_of(fault: &RunFault) -> Stop {
    match fault {
        RunFault::Read(kind) => Stop::Read(*kind),
        RunFault::Write(kind) => Stop::Write(*kind),
        RunFault::OutOfMemory => Stop::OutOfMemory,
        _ => Stop::Other,
    }
}

/// The outcome of a run without a value.
pub type Outcome = std::result::Result<(), Stop>;

/// Returns the outcome of a run.
///
/// # Errors
/// The cause with which the run ended early.
pub fn ended<T>(outcome: std::result::Result<T, RunFault>) -> std::result::Result<T, Stop> {
    match outcome {
        Ok(value) => Ok(value),
        Err(fault) => Err(stop_of(&fault)),
    }
}

/// Runs over these bytes, and returns what was written, and how the run ended.
pub fn run_over<R: Read + Drop>(alloc: Global, bytes: Vec<u8>, input: R) -> (Vec<u8>, Outcome) {
    let mut report = Vec::new(alloc);
    let mut reader = Watched::new(input);
    let mut writer = Watched::new(&mut report);
    let outcome = run_frames(alloc, bytes, &mut reader, &mut writer);
    (report, ended(outcome))
}

/// Makes an empty list with room for the bytes of some lines.
///
/// # Errors
/// `OutOfMemory`, if memory runs out twice.
pub fn line_buffer(alloc: Global) -> Result<Vec<u8>> {
    Ok(Vec::with_capacity(alloc, 256).or_else(|_| Vec::with_capacity(alloc, 256))?)
}
