//! The place where a symbol file is written.

ghost use Rattle.std.specs.Prelude.{IfErr};
ghost use Rattle.pdb_symbols.specs.Ends.{FailsToWrite};

use crate::fault::SymbolsFault;
use crate::image_file::read_image;
use crate::making::{Destination, write_in_memory};
use crate::making_on_demand::{OnDemand, write_on_demand};
use crate::options::{Options, Target};
use crate::output_file::{OutputFile, is_read, open_output, write_fault};
use crate::progress::Progress;
use bumpalo::Bump;
use pdb_addr2line::{ContributionOrder, FileOnDemand};
use pdb_file_views::reach;
use pdb_image::PdbIdentity;
use pdb_loading::read_file;
use std::alloc::{AllocError, Global};
use std::fs;
use std::fs::OpenFile;
use std::io::{self, ErrorKind, Read, Write};
use std::mem::forget;
use std::os::unix::fs::FileExt;
use std::rt::Files;

/// The size of a file that can be read at any place, in bytes; `None` of any other, such as a pipe
/// or a device, and of one that says that it has no byte, such as those of `/proc`.
fn size_of(file: &impl OpenFile) -> Option<u64> {
    match file.metadata() {
        Ok(metadata) if metadata.is_file() && metadata.len() > 0 => Some(metadata.len()),
        _ => None,
    }
}

/// The name of a file, after the last slash of its path.
fn file_name(path: &str) -> &str {
    match path.rsplit_once('/') {
        Some((_, name)) => name,
        None => path,
    }
}

/// A name without the extension of databases, in that case or another one.
fn stem_of(name: &str) -> &str {
    match name.rsplit_once('.') {
        Some((stem, extension)) if extension.eq_ignore_ascii_case("pdb") => stem,
        _ => name,
    }
}

/// The path of a symbol file in a store.
fn store_path(
    alloc: Global,
    store: &str,
    file: &str,
    identity: &PdbIdentity,
) -> Result<String, AllocError> {
    let name = file_name(file);
    let stem = stem_of(name);
    format!(in alloc; "{store}/{name}/{identity}/{stem}.sym")
}

/// The folder of a path, before its last slash.
fn folder_of(path: &str) -> &str {
    match path.rsplit_once('/') {
        Some((folder, _)) => folder,
        None => "",
    }
}

/// Makes the folder of a path, where a symbol file is to be.
///
/// # Errors
/// `OutputIsRead` where the database or the image is at that path; `Write`, or out of memory.
fn make_folder(rt: &impl Files, options: &Options<'_>, path: &str) -> Result<(), SymbolsFault>
    ensures { IfErr result FailsToWrite }
{
    if is_read(rt, options, path)? {
        return Err(SymbolsFault::OutputIsRead);
    }
    write_fault(fs::create_dir_all(rt, folder_of(path)))
}

/// The path of the symbol file of a database with an identity in a store, in a folder that is
/// there.
///
/// # Errors
/// The errors of [`make_folder`].
fn path_in_store<S: Files + AllocGlobal>(
    rt: &S,
    options: &Options<'_>,
    store: &str,
    identity: &PdbIdentity,
) -> Result<String, SymbolsFault>
    ensures { IfErr result FailsToWrite }
{
    let path = store_path(rt.alloc(), store, options.file, identity)?;
    make_folder(rt, options, path.as_str())?;
    Ok(path)
}

/// The path of the symbol file that is asked for, of a database with an identity; `None` for
/// standard output.
///
/// # Errors
/// The errors of [`path_in_store`].
fn path_asked<S: Files + AllocGlobal>(
    rt: &S,
    options: &Options<'_>,
    identity: &PdbIdentity,
) -> Result<Option<String>, SymbolsFault>
    ensures { IfErr result FailsToWrite }
{
    match options.target {
        Target::Output => Ok(None),
        Target::File(path) => Ok(Some(String::from_str(rt.alloc(), path)?)),
        Target::Store(store) => Ok(Some(path_in_store(rt, options, store, identity)?)),
    }
}

/// The place where a symbol file is written: an output, or a file.
struct Place<F: Drop, W: Drop> {
    output: W,
    /// The file, once it was opened.
    opened: Option<OutputFile<F>>,
}

impl<F: Write + Drop, W: Write + Drop> Write for Place<F, W> {
    fn write(&mut self, buf: &[u8]) -> io::Result<usize> {
        match &mut self.opened {
            Some(opened) => opened.file.write(buf),
            None => self.output.write(buf),
        }
    }

    fn flush(&mut self) -> io::Result<()> {
        match &mut self.opened {
            Some(opened) => opened.file.flush(),
            None => self.output.flush(),
        }
    }
}

impl<S: Files + AllocGlobal, W: Write + Drop> Destination<S> for Place<S::File, W> {
    fn open(
        &mut self,
        rt: &S,
        options: &Options<'_>,
        identity: &PdbIdentity,
    ) -> Result<(), SymbolsFault> {
        if let Some(path) = path_asked(rt, options, identity)? {
            self.opened = Some(open_output(rt, path)?);
        }
        Ok(())
    }
}

/// Reads a file from its beginning on.
fn read_bytes(alloc: Global, file: &mut impl Read) -> Result<Vec<u8>, SymbolsFault> {
    match read_file(alloc, file) {
        Ok(bytes) => Ok(bytes),
        Err(error) if error.kind() == ErrorKind::OutOfMemory => Err(SymbolsFault::out_of_memory()),
        Err(_) => Err(SymbolsFault::ReadFile),
    }
}

/// Opens the database's file.
fn open_file<S: Files + AllocGlobal>(rt: &S, path: &str) -> Result<S::File, SymbolsFault> {
    match fs::open(rt, path) {
        Ok(file) => Ok(file),
        Err(error) if error.kind() == ErrorKind::OutOfMemory => Err(SymbolsFault::out_of_memory()),
        Err(_) => Err(SymbolsFault::ReadFile),
    }
}

/// A file that can be read at any place.
#[derive(Drop)]
struct SizedFile<F: Drop> {
    file: F,
    /// The number of its bytes.
    size: u64,
}

/// A database's file, which can be read.
#[derive(Drop)]
enum Database<F: Drop> {
    /// A regular file, which is read on demand.
    File(SizedFile<F>),
    /// The bytes of any other file, which was read from its beginning on.
    Bytes(Vec<u8>),
}

/// Opens the database's file, and reads it if it isn't a regular one.
fn open_database<S: Files + AllocGlobal>(
    rt: &S,
    path: &str,
) -> Result<Database<S::File>, SymbolsFault>
where
    S::File: FileExt,
{
    let mut file = open_file(rt, path)?;
    let Some(size) = size_of(&file) else {
        return Ok(Database::Bytes(read_bytes(rt.alloc(), &mut file)?));
    };
    match reach(&file, size) {
        Ok(size) => Ok(Database::File(SizedFile { file, size })),
        Err(error) => Err(SymbolsFault::of_file(&error)),
    }
}

/// Writes a symbol file by a database's file, which is read on demand. The process is left to give
/// its memory back.
fn write_by_views<S: AllocGlobal, F: FileExt + Drop, W: Destination<S>, E: Write + Drop>(
    rt: &S,
    options: &Options<'_>,
    file: SizedFile<F>,
    image: Option<&[u8]>,
    output: &mut W,
    progress: Progress<E>,
) -> Result<(), SymbolsFault> {
    let SizedFile { file, size } = file;
    let arena = Bump::new(rt.alloc());
    let mut source = FileOnDemand::new(rt.alloc(), &arena, file, size)?;
    source.order = ContributionOrder::Any;
    let OnDemand { outcome, source } = write_on_demand(
        rt, options, source, image, output, progress,
    );
    drop(source);
    forget(arena);
    outcome
}

/// Writes the symbol file that is asked for, by its database's file and its image's.
fn write_by_file<S: Files + AllocGlobal, W: Destination<S>, E: Write + Drop>(
    rt: &S,
    options: &Options<'_>,
    output: &mut W,
    progress: Progress<E>,
) -> Result<(), SymbolsFault>
where
    S::File: FileExt,
{
    let database = open_database(rt, options.file)?;
    let image = read_image(rt, options.image)?;
    let image = image.as_deref();
    match database {
        Database::File(file) => write_by_views(rt, options, file, image, output, progress),
        Database::Bytes(bytes) => write_in_memory(rt, options, bytes, image, output, progress),
    }
}

/// Writes the symbol file that is asked for to where it is asked for, or to `output`.
///
/// # Errors
/// Why it isn't written.
pub fn write_symbols<S: Files + AllocGlobal, W: Write + Drop, E: Write + Drop>(
    rt: &S,
    options: &Options<'_>,
    output: W,
    progress: Progress<E>,
) -> Result<(), SymbolsFault>
where
    S::File: FileExt,
{
    let mut place = Place {
        output,
        opened: None,
    };
    let written = write_by_file(rt, options, &mut place, progress);
    let Place { output, opened } = place;
    drop(output);
    match opened {
        Some(opened) => opened.end(rt, written),
        None => written,
    }
}
