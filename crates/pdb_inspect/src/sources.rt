//! Source files, compared with those that a database was built of.

use crate::arguments::Request;
use crate::contributions::{information_of_all, modules_of};
use crate::fault::{Fault, read_fault};
use crate::loaded::{Loaded, Needs, load};
use crate::output::Output;
use crate::progress::Progress;
use bumpalo::Bump;
use pdb_container::StringTable;
use pdb_listings::{Column, SourceFile, StoredSum, Value, Verdict, append_sources, verdict_of};
use pdb_symbols_modules::ModuleInfo;
use std::alloc::{AllocError, Global};
use std::cmp::Ordering;
use std::fs;
use std::io::{ErrorKind, Read, Write};
use std::os::unix::fs::FileExt;
use std::rt::Files;

const COLUMNS: &[Column] = &[
    Column {
        name: "verdict",
        before: "",
        width: 11,
    },
    Column {
        name: "path",
        before: " ",
        width: 0,
    },
];

/// The word for a verdict.
fn word_of(verdict: Verdict) -> &'static str {
    match verdict {
        Verdict::Right => "right",
        Verdict::Changed => "changed",
        Verdict::Missing => "missing",
        Verdict::NoChecksum => "no checksum",
    }
}

/// A checksum as it is compared with others: its kind, and its bytes.
fn sum_key(sum: &StoredSum) -> (u8, &[u8]) {
    match sum {
        StoredSum::None => (0, b""),
        StoredSum::Md5(bytes) => (1, bytes.as_slice()),
        StoredSum::Sha1(bytes) => (2, bytes.as_slice()),
        StoredSum::Sha256(bytes) => (3, bytes.as_slice()),
    }
}

/// The order of source files: by path, and then by checksum.
fn source_order(a: &SourceFile, b: &SourceFile) -> Ordering {
    let (a_kind, a_bytes) = sum_key(&a.sum);
    let (b_kind, b_bytes) = sum_key(&b.sum);
    let paths = a.path.cmp(&b.path);
    paths.then(a_kind.cmp(&b_kind)).then(a_bytes.cmp(b_bytes))
}

/// The source files of modules, in the order of the modules.
fn listed_sources(
    alloc: Global,
    names: &StringTable<'_>,
    information: &[&ModuleInfo<'_>],
) -> Result<Vec<SourceFile>, AllocError> {
    let mut sources = Vec::new(alloc);
    for module in information {
        append_sources(alloc, names, module, &mut sources)?;
    }
    Ok(sources)
}

/// The source files of all modules, by path, and each with each of its checksums once.
fn all_sources(
    alloc: Global,
    loaded: Loaded<'_>,
    names: &StringTable<'_>,
) -> Result<Vec<SourceFile>, Fault> {
    let modules = modules_of(alloc, loaded)?;
    let information = information_of_all(alloc, loaded.modules, &modules)?;
    let mut sources = listed_sources(alloc, names, &information)?;
    sources.sort_by(|a: &SourceFile, b: &SourceFile| source_order(a, b))?;
    sources.dedup_by(|a: &mut SourceFile, b: &mut SourceFile| source_order(a, b).is_eq());
    Ok(sources)
}

/// The bytes of a regular file at a path; `None` where there is none that can be read.
fn bytes_at(rt: &(impl Files + AllocGlobal), path: &str) -> Result<Option<Vec<u8>>, AllocError> {
    // A FIFO would wait for a writer once it is opened.
    match fs::metadata(rt, path) {
        Ok(metadata) if metadata.is_file() => {}
        Err(error) if error.kind() == ErrorKind::OutOfMemory => return Err(AllocError),
        _ => return Ok(None),
    }
    let mut file = match fs::open(rt, path) {
        Ok(file) => file,
        Err(error) if error.kind() == ErrorKind::OutOfMemory => return Err(AllocError),
        Err(_) => return Ok(None),
    };
    let mut bytes = Vec::new(rt.alloc());
    match Read::by_ref(&mut file).read_to_end(&mut bytes) {
        Ok(_) => Ok(Some(bytes)),
        Err(error) if error.kind() == ErrorKind::OutOfMemory => Err(AllocError),
        Err(_) => Ok(None),
    }
}

/// The better one of two verdicts: that of a file that is right, else of one that is there.
fn better(a: Verdict, b: Verdict) -> Verdict {
    match (a, b) {
        (Verdict::Right, _) | (_, Verdict::Right) => Verdict::Right,
        (Verdict::Missing, other) => other,
        (other, _) => other,
    }
}

/// What is said of a source file by the file at a path.
fn verdict_at(
    rt: &(impl Files + AllocGlobal),
    source: &SourceFile,
    path: &str,
) -> Result<Verdict, AllocError> {
    match bytes_at(rt, path)? {
        Some(bytes) => Ok(verdict_of(&source.sum, Some(&bytes))),
        None => Ok(verdict_of(&source.sum, None)),
    }
}

/// A path with slashes in place of backslashes.
fn with_slashes(alloc: Global, path: &str) -> Result<String, AllocError> {
    let mut bytes = Vec::new(alloc);
    for byte in path.as_bytes() {
        bytes.push(if *byte == b'\\' { b'/' } else { *byte })?;
    }
    String::from_utf8_lossy(alloc, &bytes)
}

/// The end of a path after its first slash, if it has one.
fn after_slash(path: &str) -> Option<&str> {
    match path.split_once('/') {
        Some((_, end)) => Some(end),
        None => None,
    }
}

/// What is said of a source file by those in a folder that lie where an end of its path says, the
/// longest end first, up to the first that is right.
fn verdict_in(
    rt: &(impl Files + AllocGlobal),
    source: &SourceFile,
    folder: &str,
) -> Result<Verdict, AllocError> {
    let path = with_slashes(rt.alloc(), source.path.as_str())?;
    let mut rest = Some(path.as_str());
    let mut verdict = Verdict::Missing;
    for _ in 0..u64::MAX {
        let Some(end) = rest else {
            break;
        };
        let file = format!(in rt.alloc(); "{folder}/{end}")?;
        verdict = better(verdict, verdict_at(rt, source, file.as_str())?);
        if let Verdict::Right = verdict {
            return Ok(verdict);
        }
        rest = after_slash(end);
    }
    Ok(verdict)
}

/// What is said of a source file by those in folders; without folders by the file at its path.
fn verdict_by(
    rt: &(impl Files + AllocGlobal),
    source: &SourceFile,
    folders: &[&str],
) -> Result<Verdict, AllocError> {
    if let StoredSum::None = source.sum {
        return Ok(Verdict::NoChecksum);
    }
    if folders.is_empty() {
        return verdict_at(rt, source, source.path.as_str());
    }
    let mut verdict = Verdict::Missing;
    for folder in folders {
        verdict = better(verdict, verdict_in(rt, source, folder)?);
    }
    Ok(verdict)
}

/// Checks that each folder is there.
///
/// # Errors
/// `Read`, `OutOfMemory`.
fn check_folders(rt: &(impl Files + AllocGlobal), folders: &[&str]) -> Result<(), Fault> {
    for folder in folders {
        match fs::metadata(rt, *folder) {
            Ok(metadata) if metadata.is_dir() => {}
            Ok(_) => return Err(read_fault(rt.alloc(), folder, ErrorKind::NotADirectory)),
            Err(error) => return Err(read_fault(rt.alloc(), folder, error.kind())),
        }
    }
    Ok(())
}

/// Writes what is said of each of these source files.
fn write_verdicts<W: Write + Drop, E: Write>(
    rt: &(impl Files + AllocGlobal),
    sources: &[SourceFile],
    folders: &[&str],
    output: &mut Output<W>,
    progress: &mut Progress<E>,
) -> Result<(), Fault> {
    output.header(COLUMNS)?;
    for (done, source) in sources.iter().enumerate() {
        progress.files(done, sources.len());
        let verdict = verdict_by(rt, source, folders)?;
        let word = Value::Text(word_of(verdict));
        if output.is_full() {
            progress.end();
        }
        output.row(COLUMNS, &[word, Value::Text(source.path.as_str())])?;
    }
    progress.end();
    Ok(())
}

/// Writes what is said of each source file of a database.
///
/// # Errors
/// Why not all are written.
pub fn write<S: Files + AllocGlobal, W: Write + Drop, E: Write>(
    rt: &S,
    arena: &Bump,
    request: &Request<'_>,
    output: &mut Output<W>,
    progress: &mut Progress<E>,
) -> Result<(), Fault>
where
    S::File: FileExt,
{
    let loaded = load(rt, arena, request.file, Needs::Names)?;
    let folders = request.others.as_slice();
    check_folders(rt, folders)?;
    let sources = match loaded.names {
        Some(names) => all_sources(rt.alloc(), loaded, names)?,
        None => Vec::new(rt.alloc()),
    };
    write_verdicts(rt, &sources, folders, output, progress)
}
