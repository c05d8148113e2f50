//! The public calls, each once in ample memory; and parts of a sample file.

use crate::files::{F, run_over};
use pdb_container::Error as Cause;
use pdb_report::{Error, Symbolizer, Watched, read_file, run_sizes, run_sizes_by_file};
use pdb_samples::PieceReader;
use std::alloc::Global;
use std::io::{self, ErrorKind, Read};
use std::test::Fail;

/// Opens a file.
fn open(alloc: Global) -> Result<(), Fail> {
    Symbolizer::open(alloc, F.made(alloc)?)?;
    Ok(())
}

/// Returns whether a file is opened and reported on.
fn is_answered(alloc: Global) -> Result<bool, Fail> {
    open(alloc)?;
    let (report, outcome) = run_over(alloc, F.made(alloc)?, b"1014\n".as_slice());
    outcome?;
    Ok(report.as_slice() == b"0x00001014\n  f at a.c:5 @0x00001010+8\n".as_slice())
}

/// Returns whether the addresses of a range are counted.
fn is_counted(alloc: Global) -> Result<bool, Fail> {
    let mut report = Vec::new(alloc);
    let mut writer = Watched::new(&mut report);
    run_sizes(alloc, F.made(alloc)?, 0x1018, 0x1030, &mut writer)?;
    Ok(report.as_slice() == b"0x00001010 24 f\nnone 0\n".as_slice())
}

/// Returns whether the addresses of a range are counted by source file.
fn is_counted_by_file(alloc: Global) -> Result<bool, Fail> {
    let mut report = Vec::new(alloc);
    let mut writer = Watched::new(&mut report);
    run_sizes_by_file(alloc, F.made(alloc)?, 0x1018, 0x1030, &mut writer)?;
    Ok(report.as_slice() == b"24 a.c\nno file 0\nnone 0\nunreadable 0\n".as_slice())
}

/// Returns whether files are read as far as they should: one whole, one with an endless tail to the
/// end of its pages, and an endless one that is no container to its 32nd byte.
fn are_files_read(alloc: Global) -> Result<bool, Fail> {
    let file = F.made(alloc)?;
    let whole = read_file(alloc, &mut file.as_slice())?;
    let pages = read_file(alloc, &mut file.as_slice().chain(io::repeat(0)))?;
    let front = read_file(alloc, &mut io::repeat(7))?;
    Ok(
        whole.as_slice() == file.as_slice()
            && pages.as_slice().starts_with(file.as_slice())
            && front.as_slice() == [7u8; 32].as_slice(),
    )
}

/// A reader of these bytes that fails once, after 20 of them.
fn failing(bytes: &[u8], fault: ErrorKind) -> PieceReader<'_> {
    let cut = bytes.len().min(20);
    PieceReader {
        bytes: &bytes[..cut],
        rest: &bytes[cut..],
        piece: usize::MAX,
        fault: Some(fault),
    }
}

/// Returns whether a file is read on after a signal interrupted a read, and not after another
/// failure.
fn is_read_on(alloc: Global) -> Result<bool, Fail> {
    let file = F.made(alloc)?;
    let whole = read_file(alloc, &mut failing(file.as_slice(), ErrorKind::Interrupted))?;
    let refused = match read_file(alloc, &mut failing(file.as_slice(), ErrorKind::Other)) {
        Ok(_) => false,
        Err(cause) => cause.kind() == ErrorKind::Other,
    };
    Ok(refused && whole.as_slice() == file.as_slice())
}

/// Returns whether three bytes are read and written.
fn are_copied(alloc: Global) -> Result<bool, Fail> {
    let mut buffer = [0u8; 4];
    let mut reader = Watched::new(b"abc".as_slice());
    let mut writer = Watched::new(Vec::with_capacity(alloc, 4)?);
    let read = reader.read(&mut buffer)?;
    let written = writer.write(b"abc")?;
    Ok((read, written, buffer) == (3, 3, *b"abc\0"))
}

/// Returns whether the errors of a context are printed.
fn are_printed(alloc: Global) -> Result<bool, Fail> {
    let error = Error::PdbError(Cause::StreamNotFound(5));
    let first = format!(in alloc; "{error}")?;
    let second = format!(in alloc; "{}", Error::OutOfMemory)?;
    Ok(first.as_str() == "PDB error: StreamNotFound(5)" && second.as_str() == "Out of memory")
}

/// Returns for each call whether it answers as written.
fn are_right(alloc: Global) -> Result<[bool; 7], Fail> {
    Ok([
        is_answered(alloc)?,
        is_counted(alloc)?,
        is_counted_by_file(alloc)?,
        are_files_read(alloc)?,
        is_read_on(alloc)?,
        are_copied(alloc)?,
        are_printed(alloc)?,
    ])
}

// The only test of this file that fails if an allocation is refused: the others ask again.
#[test]
fn first_calls_in_ample_memory(rt: HostRuntime) -> Result<(), Fail> {
    assert_eq!(rt; are_right(rt.alloc())?, [true; 7]);
    Ok(())
}

/// The offsets and bytes of parts of file F: its header, the debug information's header, the
/// symbols, and the line data.
const PARTS: &[(usize, &[u8])] = &[
    (
        0,
        b"Microsoft C/C++ MSF 7.00\r\n\x1aDS\0\0\0\0\x01\0\0\0\0\0\0\x09\0\0\0\x44\0\0\0\0\0\0\0\
        \x01\0\0\0",
    ),
    (
        0x500,
        b"\xff\xff\xff\xff\x77\x09\x31\x01\x01\0\0\0\xff\xff\0\0\xff\xff\0\0\x05\0\0\0\x4c\0\0\0\
        \x20\0\0\0\0\0\0\0\0\0\0\0\0\0\0\0\0\0\0\0\x16\0\0\0\0\0\0\0\0\0\x64\x86\0\0\0\0",
    ),
    (
        0x800,
        b"\x04\0\0\0\x2a\0\x10\x11\0\0\0\0\x30\0\0\0\0\0\0\0\x20\0\0\0\0\0\0\0\x20\0\0\0\0\0\0\0\
        \x10\0\0\0\x01\0\0f\0\0\0\0\x02\0\x06\0",
    ),
    (
        0x834,
        b"\xf4\0\0\0\x08\0\0\0\x01\0\0\0\0\0\0\0\xf2\0\0\0\x28\0\0\0\x10\0\0\0\x01\0\0\0\x20\0\0\0\
        \0\0\0\0\x02\0\0\0\x1c\0\0\0\0\0\0\0\x05\0\0\x80\x08\0\0\0\x07\0\0\x80",
    ),
];

#[test]
fn sample_is_as_written_by_hand(rt: HostRuntime) -> Result<(), Fail> {
    let file = F.bytes(rt.alloc())?;
    assert_eq!(rt; file.len(), 4096);
    for (start, part) in PARTS {
        let rest = file.as_slice().get(*start..).unwrap_or(&[]);
        assert!(rt; rest.starts_with(*part), "at {start}");
    }
    Ok(())
}
