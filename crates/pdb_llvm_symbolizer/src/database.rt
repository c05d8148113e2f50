//! Files that addresses are of: images with their databases, and databases alone.

use crate::arguments::Arguments;
use crate::folders::{find_in, unless_memory};
use crate::loaded::FileAnswers;
use crate::open_error::OpenError;
use crate::regular_file::open_regular;
use crate::stores::find_in_stores;
use bumpalo::Bump;
use pdb_addr2line::{ContributionOrder, FileOnDemand, FileSymbolizer, TypeFormatterFlags};
use pdb_file_views::reach;
use pdb_image::{CodeView, ImageRecord, PdbIdentity};
use pdb_llvm_protocol::{split_identity, without_architecture};
use std::alloc::{AllocError, Global};
use std::fs;
use std::io::{self, ErrorKind};
use std::os::unix::fs::FileExt;
use std::rt::Files;

/// The name at the end of a path that an image has.
fn file_name(path: &str) -> &str {
    path.rsplit(['/', '\\']).next().unwrap_or(path)
}

/// The folder that a file lies in; empty for that of the process.
fn folder_of(file: &str) -> &str {
    match file.rsplit_once('/') {
        Some(("", _)) => "/",
        Some((folder, _)) => folder,
        None => "",
    }
}

/// The answers of a file with its database, whose image wants to be loaded at this base.
fn load<'a, F: FileExt + Drop>(
    alloc: Global,
    file: FileOnDemand<'a, F>,
    image_base: u64,
) -> Result<FileAnswers<'a, F>, OpenError> {
    // The names of functions have no arguments.
    let flags = TypeFormatterFlags::default() | TypeFormatterFlags::NO_ARGUMENTS;
    match FileSymbolizer::open_with_flags(alloc, file, flags) {
        Ok(file) => Ok(FileAnswers::new(alloc, file, image_base)),
        Err(refused) => Err(OpenError::from(refused.fault)),
    }
}

/// A regular file of so many bytes, of which nothing was read. Section contributions may stand in
/// any order.
fn read_on_demand<'a, F: FileExt + Drop>(
    alloc: Global,
    arena: &'a Bump,
    file: F,
    size: u64,
) -> Result<FileOnDemand<'a, F>, OpenError> {
    let size = reach(&file, size)?;
    let mut read = FileOnDemand::new(alloc, arena, file, size)?;
    read.order = ContributionOrder::Any;
    Ok(read)
}

/// A regular file at a path, of which nothing was read.
fn open_read<'a, F: FileExt + Drop>(
    rt: &(impl Files<File = F> + AllocGlobal),
    arena: &'a Bump,
    path: &str,
) -> Result<FileOnDemand<'a, F>, OpenError> {
    let (file, size) = open_regular(rt, path)?;
    read_on_demand(rt.alloc(), arena, file, size)
}

/// The file of an image's database, at a path.
fn database_at<'a, F: FileExt + Drop>(
    rt: &(impl Files<File = F> + AllocGlobal),
    arena: &'a Bump,
    path: &str,
) -> Result<FileOnDemand<'a, F>, OpenError> {
    match open_read(rt, arena, path) {
        Err(OpenError::File(reason)) => {
            let path = String::from_str(rt.alloc(), path)?;
            Err(OpenError::DatabaseFile(path, reason))
        }
        opened => opened,
    }
}

/// The file of an image's database in a store, or otherwise at the path that the image names.
fn stored_database<'a, F: FileExt + Drop>(
    rt: &(impl Files<File = F> + AllocGlobal),
    arena: &'a Bump,
    stores: &[&str],
    path: &str,
    identity: PdbIdentity,
) -> Result<FileOnDemand<'a, F>, OpenError> {
    let identity = format!(in rt.alloc(); "{identity}")?;
    match find_in_stores(rt, stores, file_name(path), identity.as_str()) {
        Ok(Some(stored)) => database_at(rt, arena, stored.as_str()),
        Ok(None) => database_at(rt, arena, path),
        Err(error) => Err(error.into()),
    }
}

/// The file of an image's database beside the image; None where no such file can be read.
fn database_beside<'a, F: FileExt + Drop>(
    rt: &(impl Files<File = F> + AllocGlobal),
    arena: &'a Bump,
    file: &str,
    name: &str,
) -> Result<Option<FileOnDemand<'a, F>>, OpenError> {
    let Some(path) = find_in(rt, folder_of(file), name)? else {
        return Ok(None);
    };
    match open_read(rt, arena, path.as_str()) {
        Ok(read) => Ok(Some(read)),
        Err(OpenError::File(_)) => Ok(None),
        Err(error) => Err(error),
    }
}

/// Checks that a database has the identity that an image says.
fn check_identity<F: FileExt + Drop>(
    alloc: Global,
    file: &mut FileOnDemand<'_, F>,
    wanted: PdbIdentity,
) -> Result<(), OpenError> {
    if wanted.matches(&file.identity(alloc)?) {
        Ok(())
    } else {
        Err(OpenError::OtherBuild)
    }
}

/// A database, if it has this identity.
fn of_identity<'a, F: FileExt + Drop>(
    alloc: Global,
    mut file: FileOnDemand<'a, F>,
    wanted: PdbIdentity,
) -> Result<FileOnDemand<'a, F>, OpenError> {
    match check_identity(alloc, &mut file, wanted) {
        Ok(()) => Ok(file),
        Err(error) => Err(error),
    }
}

/// The file of an image's database: that beside the image, or in a store, or at the path that the
/// image names. One beside it that can't be read or is of another build counts only where there is
/// no other.
fn database_of_image<'a, F: FileExt + Drop>(
    rt: &(impl Files<File = F> + AllocGlobal),
    arena: &'a Bump,
    file: &str,
    record: &CodeView<'_>,
    stores: &[&str],
) -> Result<FileOnDemand<'a, F>, OpenError> {
    let (alloc, wanted) = (rt.alloc(), record.identity());
    let path = record.path().to_string(alloc)?;
    let refusal = match database_beside(rt, arena, file, file_name(&path)) {
        Ok(Some(read)) => match of_identity(alloc, read, wanted) {
            Ok(read) => return Ok(read),
            Err(error) if error.is_out_of_memory() => return Err(error),
            Err(error) => Some(error),
        },
        Ok(None) => None,
        Err(error) => return Err(error),
    };
    match stored_database(rt, arena, stores, &path, wanted) {
        Ok(read) => of_identity(alloc, read, wanted),
        Err(error) if error.is_out_of_memory() => Err(error),
        Err(error) => Err(refusal.unwrap_or(error)),
    }
}

/// The record of an image's database, of an image's file of so many bytes.
fn image_record(alloc: Global, file: &impl FileExt, size: u64) -> Result<ImageRecord, OpenError> {
    match ImageRecord::read(alloc, file, size)? {
        Some(record) => Ok(record),
        None => Err(OpenError::NoDatabase),
    }
}

/// The file of an image's database that is given.
fn given_database<'a, F: FileExt + Drop>(
    rt: &(impl Files<File = F> + AllocGlobal),
    arena: &'a Bump,
    path: &str,
    wanted: PdbIdentity,
) -> Result<FileOnDemand<'a, F>, OpenError> {
    match database_at(rt, arena, path) {
        Ok(read) => of_identity(rt.alloc(), read, wanted),
        Err(error) => Err(error),
    }
}

/// Reads the database of an image: the one that is given, or otherwise the image's own.
fn open_image<'a, F: FileExt + Drop>(
    rt: &(impl Files<File = F> + AllocGlobal),
    arena: &'a Bump,
    (file, image): (&str, &ImageRecord),
    arguments: &Arguments<'_>,
) -> Result<FileAnswers<'a, F>, OpenError> {
    let record = image.code_view()?;
    let database = match arguments.choices.database {
        Some(given) => given_database(rt, arena, given, record.identity()),
        None => database_of_image(rt, arena, file, &record, &arguments.choices.stores),
    };
    match database {
        Ok(database) => load(rt.alloc(), database, image.image_base),
        Err(error) => Err(error),
    }
}

/// Checks that a database has the identity that a line asks for, if it asks for one.
fn check_asked<F: FileExt + Drop>(
    alloc: Global,
    file: &mut FileOnDemand<'_, F>,
    asked: Option<&str>,
) -> Result<(), OpenError> {
    let Some(asked) = asked else {
        return Ok(());
    };
    let identity = file.identity(alloc)?;
    let text = format!(in alloc; "{identity}")?;
    if text.eq_ignore_ascii_case(asked) {
        Ok(())
    } else {
        Err(OpenError::OtherBuild)
    }
}

/// Reads the database of a file into an arena: of an image, or the file itself, which then has the
/// identity that is asked for.
fn open_file<'a, F: FileExt + Drop>(
    rt: &(impl Files<File = F> + AllocGlobal),
    arena: &'a Bump,
    path: &str,
    identity: Option<&str>,
    arguments: &Arguments<'_>,
) -> Result<FileAnswers<'a, F>, OpenError> {
    let (file, size) = open_regular(rt, path)?;
    if is_image(&file)? {
        let image = image_record(rt.alloc(), &file, size)?;
        return open_image(rt, arena, (path, &image), arguments);
    }
    let mut read = read_on_demand(rt.alloc(), arena, file, size)?;
    match check_asked(rt.alloc(), &mut read, identity) {
        Ok(()) => load(rt.alloc(), read, 0),
        Err(error) => Err(error),
    }
}

/// Whether a file begins as an image does.
fn is_image(file: &impl FileExt) -> io::Result<bool> {
    let mut front = [0u8; 2];
    match file.read_exact_at(&mut front, 0) {
        Ok(()) => Ok(front == *b"MZ"),
        Err(error) if error.kind() == ErrorKind::UnexpectedEof => Ok(false),
        Err(error) => Err(error),
    }
}

/// The path of a file that isn't there in a store, of a name with an identity after its last colon,
/// and that identity.
fn path_in_stores<'n>(
    rt: &(impl Files + AllocGlobal),
    stores: &[&str],
    name: &'n str,
) -> Result<Option<(String, &'n str)>, AllocError> {
    let is_there = unless_memory(fs::exists(rt, name));
    let (file, identity) = match (is_there, name.rsplit_once(':')) {
        (Ok(None | Some(false)), Some(parts)) if split_identity(name.as_bytes()).is_some() => parts,
        (Ok(_), _) => return Ok(None),
        (Err(error), _) => return Err(error),
    };
    match find_in_stores(rt, stores, file_name(file), identity) {
        Ok(Some(path)) => Ok(Some((path, identity))),
        Ok(None) => Ok(None),
        Err(error) => Err(error),
    }
}

/// The name of a file without the architecture that may stand after a colon.
fn bare_name(file: &str) -> &str {
    let length = without_architecture(file.as_bytes()).len();
    file.get(..length).unwrap_or(file)
}

/// Reads the database of a file into an arena: of an image, or the file itself. An
/// architecture after a colon is left out. A file that isn't there, with an identity after a
/// colon, is looked for in the stores; a database there has to have that identity.
///
/// # Errors
/// Why it can't be read.
pub fn open<'a, F: FileExt + Drop>(
    rt: &(impl Files<File = F> + AllocGlobal),
    arena: &'a Bump,
    file: &str,
    arguments: &Arguments<'_>,
) -> Result<FileAnswers<'a, F>, OpenError> {
    let bare = bare_name(file);
    match path_in_stores(rt, &arguments.choices.stores, bare) {
        Ok(Some((path, identity))) => {
            open_file(rt, arena, path.as_str(), Some(identity), arguments)
        }
        Ok(None) => open_file(rt, arena, bare, None, arguments),
        Err(error) => Err(error.into()),
    }
}
