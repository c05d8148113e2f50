//! Files that symbol files are written to.

ghost use Rattle.std.specs.Prelude.{IfErr};
ghost use Rattle.pdb_symbols.specs.Ends.{FailsToWrite};

use crate::fault::SymbolsFault;
use crate::options::{Options, Target};
use std::alloc::{AllocError, Global};
use std::fs;
use std::fs::File;
use std::io::{self, ErrorKind};
use std::os::unix::fs::MetadataExt;
use std::path::Path;
use std::rt::Files;

/// The number of names beside a path that are tried.
const NAMES: u32 = 1000;

/// The number of links in a row that are followed, as Linux does.
const LINKS: u32 = 40;

/// The outcome of a write, with a failure as a fault.
pub fn write_fault<T>(outcome: io::Result<T>) -> Result<T, SymbolsFault>
    ensures { IfErr result FailsToWrite }
{
    match outcome {
        Ok(done) => Ok(done),
        Err(error) => Err(SymbolsFault::of_write(error.kind())),
    }
}

/// The names of a file that is renamed once it is whole.
#[derive(Drop)]
struct Renaming {
    /// Its path while it is written.
    beside: String,
    /// The path that it has once it is whole.
    path: String,
}

/// A file that is written.
#[derive(Drop)]
pub struct OutputFile<F: Drop> {
    /// The file.
    pub file: F,
    /// The names of the file, where it is written beside its path.
    renaming: Option<Renaming>,
}

/// The path that the link at a path leads to.
fn target_of<S: Files + AllocGlobal>(rt: &S, link: &str) -> io::Result<String> {
    let target = fs::read_link(rt, link)?;
    let Some(folder) = Path::new(link).parent() else {
        return Ok(target.into_string());
    };
    match folder.join(rt.alloc(), target.as_path()) {
        Ok(path) => Ok(path.into_string()),
        Err(error) => Err(error.into()),
    }
}

/// The path that the links at a path lead to; the path itself where it is none of a link.
fn followed<S: Files + AllocGlobal>(rt: &S, path: String) -> io::Result<String> {
    let mut path = path;
    for _ in 0..LINKS {
        match fs::symlink_metadata(rt, path.as_str()) {
            Ok(metadata) if metadata.is_symlink() => path = target_of(rt, path.as_str())?,
            _ => return Ok(path),
        }
    }
    Err(ErrorKind::FilesystemLoop.into())
}

/// Whether the file at a path is written into: a device, a FIFO. A regular file is replaced.
fn is_written_into(rt: &impl Files, path: &str) -> Result<bool, SymbolsFault>
    ensures { IfErr result FailsToWrite }
{
    match fs::symlink_metadata(rt, path) {
        Ok(metadata) => Ok(!metadata.is_file()),
        Err(error) if error.kind() == ErrorKind::NotFound => Ok(false),
        Err(error) => Err(SymbolsFault::of_write(error.kind())),
    }
}

/// A path beside another one: `.part` after it, and a number from the second one on.
fn path_beside(alloc: Global, path: &str, number: u32) -> Result<String, AllocError> {
    if number == 0 {
        format!(in alloc; "{path}.part")
    } else {
        format!(in alloc; "{path}.part{number}")
    }
}

/// Creates a file beside the path that it is to have. No file has its name before.
fn create_beside<S: Files + AllocGlobal>(
    rt: &S,
    path: String,
) -> Result<OutputFile<S::File>, SymbolsFault>
    ensures { IfErr result FailsToWrite }
{
    for number in 0..NAMES {
        let beside = path_beside(rt.alloc(), path.as_str(), number)?;
        match File::create_new(rt, beside.as_str()) {
            Ok(file) => {
                let renaming = Some(Renaming { beside, path });
                return Ok(OutputFile { file, renaming });
            }
            Err(error) if error.kind() == ErrorKind::AlreadyExists => {}
            Err(error) => return Err(SymbolsFault::of_write(error.kind())),
        }
    }
    Err(SymbolsFault::of_write(ErrorKind::AlreadyExists))
}

/// Opens the file at a path, which is written into.
fn open_existing<S: Files>(rt: &S, path: &str) -> Result<OutputFile<S::File>, SymbolsFault>
    ensures { IfErr result FailsToWrite }
{
    match fs::create(rt, path) {
        Ok(file) => Ok(OutputFile {
            file,
            renaming: None,
        }),
        Err(error) => Err(SymbolsFault::of_write(error.kind())),
    }
}

/// Opens the file at a path, or where its links lead, for writing. A device or a FIFO is written
/// into. A regular file, which may be there or not, is written beside its path.
///
/// # Errors
/// `Write`, or out of memory.
pub fn open_output<S: Files + AllocGlobal>(
    rt: &S,
    path: String,
) -> Result<OutputFile<S::File>, SymbolsFault>
    ensures { IfErr result FailsToWrite }
{
    let path = write_fault(followed(rt, path))?;
    if is_written_into(rt, path.as_str())? {
        open_existing(rt, path.as_str())
    } else {
        create_beside(rt, path)
    }
}

impl<F: Drop> OutputFile<F> {
    /// Ends the writing: a file beside its path is renamed if it is whole, and otherwise removed.
    ///
    /// # Errors
    /// The write's error; `Write` where the file can't be renamed.
    pub fn end(
        self,
        rt: &impl Files,
        written: Result<(), SymbolsFault>,
    ) -> Result<(), SymbolsFault> {
        let OutputFile { file, renaming } = self;
        drop(file);
        let Some(Renaming { beside, path }) = renaming else {
            return written;
        };
        let outcome = match written {
            Ok(()) => write_fault(fs::rename(rt, beside.as_str(), path.as_str())),
            Err(fault) => Err(fault),
        };
        if outcome.is_err() {
            let _ = fs::remove_file(rt, beside.as_str());
        }
        outcome
    }
}

/// The device of a regular file, and its number there.
#[derive(Clone, Copy, PartialEq, Eq)]
struct Inode {
    device: u64,
    number: u64,
}

/// The regular file that a path leads to; `None` where it leads to none, or can't be followed.
fn regular_at(rt: &impl Files, path: &str) -> Result<Option<Inode>, SymbolsFault>
    ensures { IfErr result FailsToWrite }
{
    match fs::metadata(rt, path) {
        Ok(metadata) if metadata.is_file() => Ok(Some(Inode {
            device: metadata.dev(),
            number: metadata.ino(),
        })),
        Err(error) if error.kind() == ErrorKind::OutOfMemory => Err(SymbolsFault::out_of_memory()),
        _ => Ok(None),
    }
}

/// Whether a path, if there is one, leads to a regular file.
fn leads_to(rt: &impl Files, path: Option<&str>, file: Inode) -> Result<bool, SymbolsFault>
    ensures { IfErr result FailsToWrite }
{
    match path {
        Some(path) => Ok(regular_at(rt, path)? == Some(file)),
        None => Ok(false),
    }
}

/// Whether a path leads to the database or the image, by whatever paths these are named.
///
/// # Errors
/// Out of memory.
pub fn is_read(rt: &impl Files, options: &Options<'_>, path: &str) -> Result<bool, SymbolsFault>
    ensures { IfErr result FailsToWrite }
{
    let Some(output) = regular_at(rt, path)? else {
        return Ok(false);
    };
    if leads_to(rt, Some(options.file), output)? {
        return Ok(true);
    }
    leads_to(rt, options.image, output)
}

/// Whether the file of `--output` is the database or the image. The path of a store's file is known
/// only from the identity of the database.
///
/// # Errors
/// Out of memory.
pub fn is_output_read(rt: &impl Files, options: &Options<'_>) -> Result<bool, SymbolsFault> {
    match options.target {
        Target::File(path) => is_read(rt, options, path),
        _ => Ok(false),
    }
}
