//! Regular files, which alone are opened.

ghost use Rattle.std.specs.Prelude.{◌↔◌, IsOk};
ghost use Rattle.std.specs.Fs.{IsFile, file_type};

use std::fs::{Metadata, OpenFile};
use std::io::ErrorKind;
use std::rt::Files;
use std::{fs, io};

/// Checks that a file is a regular one.
///
/// # Errors
/// `IsADirectory` for a directory, and `Other` for a FIFO, a socket or a device.
fn check_regular(metadata: &Metadata) -> io::Result<()>
    ensures { IsOk result ↔ IsFile (file_type metadata.now) }
{
    if metadata.is_file() {
        Ok(())
    } else if metadata.is_dir() {
        Err(ErrorKind::IsADirectory.into())
    } else {
        Err(ErrorKind::Other.into())
    }
}

/// Opens a regular file for reading, and nothing else: a FIFO is waited for until something writes
/// to it, what a pipe or a terminal gives is missing where it should go, and a device may have no
/// end. The type is that of what stands at the path, and once more that of what was opened. So a
/// file that takes the path's place in between isn't read; if it is a FIFO, it is waited for. Its
/// size in bytes is returned, too.
///
/// # Errors
/// As the system's, `IsADirectory` for a directory, and `Other` for another file that isn't
/// regular.
pub fn open_regular<R: Files>(rt: &R, path: &str) -> io::Result<(R::File, u64)> {
    check_regular(&fs::metadata(rt, path)?)?;
    let file = fs::open(rt, path)?;
    let metadata = file.metadata()?;
    check_regular(&metadata)?;
    Ok((file, metadata.len()))
}
