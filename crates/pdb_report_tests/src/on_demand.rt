//! Files that are read on demand: they answer as whole ones do, and a read that fails is the run's
//! fault.

use crate::files::{F0, run_over};
use bumpalo::Bump;
use pdb_report::{
    AtEnd, FileOnDemand, FileRun, FileSizes, RunFault, Watched, run_file_frames, run_file_sizes,
    run_file_sizes_by_file, run_sizes, run_sizes_by_file,
};
use std::alloc::Global;
use std::cell::Cell;
use std::io::{self, ErrorKind};
use std::os::unix::fs::FileExt;
use std::test::Fail;

/// Lines of addresses in and around the file's only procedure.
const INPUT: &[u8] = b"0x1000\n0x1001\n0xfff\nx\n0x100f\n0x2000\n";

/// A file in memory, of which the read with that number fails, if there is one.
#[derive(Drop)]
pub(crate) struct InMemory {
    bytes: Vec<u8>,
    reads: Cell<u64>,
    fails: u64,
}

impl FileExt for InMemory {
    fn read_at(&self, buf: &mut [u8], offset: u64) -> io::Result<usize> {
        self.reads.set(self.reads.get().saturating_add(1));
        if self.reads.get() == self.fails {
            return Err(ErrorKind::PermissionDenied.into());
        }
        let rest = self.bytes.as_slice().get(offset as usize..).unwrap_or(&[]);
        let count = rest.len().min(buf.len());
        buf[..count].copy_from_slice(&rest[..count]);
        Ok(count)
    }

    fn write_at(&self, _buf: &[u8], _offset: u64) -> io::Result<usize> {
        Err(ErrorKind::Unsupported.into())
    }
}

/// A file of these bytes, which can be read.
pub(crate) fn readable(bytes: Vec<u8>) -> InMemory {
    InMemory {
        bytes,
        reads: Cell::new(0),
        fails: 0,
    }
}

/// The file, of which the read with that number fails.
fn failing(alloc: Global, fails: u64) -> Result<InMemory, Fail> {
    Ok(InMemory {
        bytes: F0.bytes(alloc)?,
        reads: Cell::new(0),
        fails,
    })
}

/// A file of which nothing was read.
fn unread<'a>(
    alloc: Global,
    arena: &'a Bump,
    file: InMemory,
) -> Result<FileOnDemand<'a, InMemory>, Fail> {
    let size = file.bytes.len() as u64;
    Ok(FileOnDemand::new(alloc, arena, file, size)?)
}

/// The report on the input, how the run ends, and how often the file was read.
fn report_of(alloc: Global, file: InMemory) -> Result<(Vec<u8>, Result<(), RunFault>, u64), Fail> {
    let arena = Bump::new(alloc);
    let source = unread(alloc, &arena, file)?;
    let mut report = Vec::new(alloc);
    let mut reader = Watched::new(INPUT);
    let mut writer = Watched::new(&mut report);
    let FileRun { outcome, source } = run_file_frames(
        alloc,
        source,
        &mut reader,
        &mut writer,
        AtEnd::GiveBack,
    );
    let reads = source.file.reads.get();
    drop(source);
    Ok((report, outcome, reads))
}

/// The reports on a range from a whole file: by function, and by source file.
fn whole_sizes(alloc: Global) -> Result<[Vec<u8>; 2], Fail> {
    let mut by_function = Vec::new(alloc);
    let mut writer = Watched::new(&mut by_function);
    run_sizes(alloc, F0.bytes(alloc)?, 0, 0x3000, &mut writer)?;
    drop(writer);
    let mut by_file = Vec::new(alloc);
    let mut writer = Watched::new(&mut by_file);
    run_sizes_by_file(alloc, F0.bytes(alloc)?, 0, 0x3000, &mut writer)?;
    drop(writer);
    Ok([by_function, by_file])
}

/// The same from a file that is read on demand.
fn demanded_sizes(alloc: Global) -> Result<[Vec<u8>; 2], Fail> {
    let arena = Bump::new(alloc);
    let mut by_function = Vec::new(alloc);
    let mut writer = Watched::new(&mut by_function);
    let source = unread(alloc, &arena, failing(alloc, 0)?)?;
    let FileSizes { outcome, source } = run_file_sizes(alloc, source, 0, 0x3000, &mut writer);
    drop(source);
    outcome?;
    drop(writer);
    let mut by_file = Vec::new(alloc);
    let mut writer = Watched::new(&mut by_file);
    let source = unread(alloc, &arena, failing(alloc, 0)?)?;
    let FileSizes { outcome, source } = run_file_sizes_by_file(
        alloc,
        source,
        0,
        0x3000,
        &mut writer,
    );
    drop(source);
    outcome?;
    drop(writer);
    Ok([by_function, by_file])
}

#[test]
fn frames_on_demand(rt: HostRuntime) -> Result<(), Fail> {
    let file = failing(rt.alloc(), 0)?;
    let (report, outcome, _) = report_of(rt.alloc(), file)?;
    let (whole, _) = run_over(rt.alloc(), F0.bytes(rt.alloc())?, INPUT);
    assert_eq!(rt; outcome, Ok(()));
    assert!(rt; !report.is_empty() && report == whole);
    Ok(())
}

#[test]
fn sizes_on_demand(rt: HostRuntime) -> Result<(), Fail> {
    let [by_function, by_file] = whole_sizes(rt.alloc())?;
    let [demanded, demanded_by_file] = demanded_sizes(rt.alloc())?;
    assert!(rt; !by_function.is_empty() && demanded == by_function);
    assert!(rt; !by_file.is_empty() && demanded_by_file == by_file);
    Ok(())
}

#[test]
fn failed_read(rt: HostRuntime) -> Result<(), Fail> {
    let (_, outcome, reads) = report_of(rt.alloc(), failing(rt.alloc(), 0)?)?;
    outcome?;
    assert!(rt; reads > 1);
    for fails in 1..=reads {
        let file = failing(rt.alloc(), fails)?;
        let (report, outcome, _) = report_of(rt.alloc(), file)?;
        assert_eq!(rt; outcome, Err(RunFault::File(ErrorKind::PermissionDenied)));
        assert!(rt; report.is_empty());
    }
    Ok(())
}
