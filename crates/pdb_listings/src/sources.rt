//! Source files of modules, and whether a file is the one from which its module was built.

ghost use Rattle.std.specs.Prelude.{◌≡◌, ◌↔◌, IfOk, IfSome, IsSome, IsTrue, OnOk, string_bytes};
ghost use Rattle.std.specs.Str.Lossy.{utf8_lossy};
ghost use Rattle.pdb_container.specs.RawString.{raw_bytes};
ghost use Rattle.pdb_lines.specs.Checksums.{checksum_seen, file_seen};
ghost use Rattle.pdb_listings.specs.Sources.{AddsSources, HasSum, source_list, sources_by};
ghost use Rattle.pdb_listings.specs.Sources.{source_of as source_of_file, sources_of, sum_seen};
ghost use Rattle.pdb_symbols_modules.specs.ModuleStream.{line_program_in as program_in};

use md5::{Digest as Md5Digest, Md5};
use pdb_container::{Error, FallibleIterator, RawString, StringTable};
use pdb_symbols_modules::{FileChecksum, FileInfo, FileIterator, ModuleInfo};
use sha1::Sha1;
use sha2::{Digest as Sha2Digest, Sha256};
use std::alloc::{AllocError, Global};

/// The checksum of a source file that a database has.
#[derive(Drop)]
pub enum StoredSum {
    /// None.
    None,
    /// By MD5.
    Md5(Vec<u8>),
    /// By SHA-1.
    Sha1(Vec<u8>),
    /// By SHA-256.
    Sha256(Vec<u8>),
}

/// A source file of a database.
#[derive(Drop)]
pub struct SourceFile {
    /// Its path, as it was built.
    pub path: String,
    /// Its checksum.
    pub sum: StoredSum,
}

/// The verdict on a source file.
#[derive(Clone, Copy)]
pub enum Verdict {
    /// A file has the stored checksum.
    Right,
    /// A file has another checksum than the stored one.
    Changed,
    /// There is no file.
    Missing,
    /// There is no stored checksum.
    NoChecksum,
}

/// Whether bytes have a checksum.
fn has_sum(sum: &StoredSum, bytes: &[u8]) -> bool
    ensures { IsTrue result ↔ HasSum sum.now bytes.now }
{
    match sum {
        StoredSum::None => false,
        StoredSum::Md5(stored) => stored.as_slice() == Md5::digest(bytes).as_slice(),
        StoredSum::Sha1(stored) => stored.as_slice() == Sha1::digest(bytes).as_slice(),
        StoredSum::Sha256(stored) => stored.as_slice() == Sha256::digest(bytes).as_slice(),
    }
}

/// The verdict on a source file, from its stored checksum and the bytes of a file, if there is one.
pub fn verdict_of(sum: &StoredSum, bytes: Option<&[u8]>) -> Verdict
    // `Right` exactly where the digest of the bytes is the stored one.
    ensures right { (result ≡ Verdict.Right)
        ↔ IfSome bytes.entry (λ it. HasSum sum.now it.now) × IsSome bytes.entry }
    ensures none { (result ≡ Verdict.NoChecksum) ↔ (sum.now ≡ StoredSum.None) }
{
    if let StoredSum::None = sum {
        return Verdict::NoChecksum;
    }
    match bytes {
        None => Verdict::Missing,
        Some(bytes) if has_sum(sum, bytes) => Verdict::Right,
        Some(_) => Verdict::Changed,
    }
}

/// A checksum with bytes of its own.
fn stored_sum(alloc: Global, checksum: FileChecksum<'_>) -> Result<StoredSum, AllocError>
    ensures { IfOk result (λ sum. sum_seen sum ≡ checksum_seen checksum.entry) }
{
    match checksum {
        FileChecksum::None => Ok(StoredSum::None),
        FileChecksum::Md5(bytes) => Ok(StoredSum::Md5(Vec::from_slice(alloc, bytes)?)),
        FileChecksum::Sha1(bytes) => Ok(StoredSum::Sha1(Vec::from_slice(alloc, bytes)?)),
        FileChecksum::Sha256(bytes) => Ok(StoredSum::Sha256(Vec::from_slice(alloc, bytes)?)),
    }
}

/// A path of its own.
fn owned_path(alloc: Global, path: RawString<'_>) -> Result<String, AllocError>
    ensures { IfOk result (λ own. string_bytes own ≡ utf8_lossy (raw_bytes path.entry)) }
{
    match path.to_string(alloc) {
        Ok(path) => String::from_str(alloc, &path),
        Err(_) => Err(AllocError),
    }
}

/// A source file with its path, if the path can be read.
fn source_of(
    alloc: Global,
    names: &StringTable<'_>,
    file: FileInfo<'_>,
) -> Result<Option<SourceFile>, AllocError>
    ensures { IfOk result (λ source. source_list source
        ≡ source_of_file names.now (file_seen file.entry)) }
{
    match names.get(file.name) {
        Err(_) => Ok(None),
        Ok(path) => {
            let path = owned_path(alloc, path)?;
            let sum = stored_sum(alloc, file.checksum)?;
            Ok(Some(SourceFile { path, sum }))
        }
    }
}

/// Appends a source file, if its path can be read.
fn append_source(
    alloc: Global,
    names: &StringTable<'_>,
    file: FileInfo<'_>,
    sources: &mut Vec<SourceFile>,
) -> Result<(), AllocError>
    ensures { OnOk result (AddsSources sources.old
        (source_of_file names.now (file_seen file.entry)) sources.new) }
{
    match source_of(alloc, names, file)? {
        None => Ok(()),
        Some(source) => {
            sources.push(source)?;
            Ok(())
        }
    }
}

/// Appends source files up to the first that can't be read.
fn append_files(
    alloc: Global,
    names: &StringTable<'_>,
    mut files: FileIterator<'_>,
    sources: &mut Vec<SourceFile>,
) -> Result<(), AllocError>
    ensures { OnOk result (AddsSources sources.old
        (sources_by names.now files.entry.items) sources.new) }
{
    while let Ok(Some(file)) = files.next() {
        append_source(alloc, names, file, sources)?;
    }
    Ok(())
}

/// Appends the source files of a module, in the order of its list. A fault of the list ends them,
/// and a file whose path can't be read is left out.
///
/// # Errors
/// `AllocError` when memory runs out.
pub fn append_sources(
    alloc: Global,
    names: &StringTable<'_>,
    info: &ModuleInfo<'_>,
    sources: &mut Vec<SourceFile>,
) -> Result<(), AllocError>
    ensures { OnOk result (AddsSources sources.old
        (sources_of names.now (program_in info.now)) sources.new) }
{
    match info.line_program(alloc) {
        Ok(program) => append_files(alloc, names, program.files(), sources),
        Err(Error::OutOfMemory) => Err(AllocError),
        Err(_) => Ok(()),
    }
}
