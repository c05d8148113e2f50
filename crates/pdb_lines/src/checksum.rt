//! Checksums of source files (`DEBUG_S_FILECHKSMS`).

ghost use Rattle.std.specs.Prelude.{◌≡◌, ◌<◌, drop, length, IfOk, None};
ghost use Rattle.pdb_container.specs.Buffer.{rest, ReadsInSteps};
ghost use Rattle.pdb_container.specs.Fault.{Parses};
ghost use Rattle.pdb_container.specs.Listing.{ending, Advances};
ghost use Rattle.pdb_lines.specs.Checksums.{checksum_of, file_at, files_of, file_in, checksum_seen};
ghost use Rattle.pdb_lines.specs.Checksums.{file_seen};

use pdb_container::{
    Error, FallibleIterator, FileIndex, ParseBuffer, Result, StringRef, padding_behind,
};
use std::marker::Model;

/// The kind of a checksum by SHA-256, the last that is known.
const SHA_256: u8 = 3;

/// The checksum of a source file: a sum over its bytes, which identifies its version.
#[derive(Clone, Copy, Debug, PartialEq, Eq)]
pub enum FileChecksum<'a> {
    /// No sum was made.
    None,
    /// By MD5.
    Md5(&'a [u8]),
    /// By SHA-1.
    Sha1(&'a [u8]),
    /// By SHA-256.
    Sha256(&'a [u8]),
}

/// A source file that code was made from: an entry of `DEBUG_S_FILECHKSMS`.
#[derive(Clone, Copy, Debug, PartialEq, Eq)]
pub struct FileInfo<'a> {
    /// The offset of its name in the string table.
    pub name: StringRef,
    /// The sum over its bytes.
    pub checksum: FileChecksum<'a>,
}

/// The checksum of these bytes, by the number of its kind.
fn checksum_by(kind: u8, bytes: &[u8]) -> FileChecksum<'_>
    ensures { checksum_seen result ≡ checksum_of kind bytes.now }
{
    match kind {
        0 => FileChecksum::None,
        1 => FileChecksum::Md5(bytes),
        2 => FileChecksum::Sha1(bytes),
        _ => FileChecksum::Sha256(bytes),
    }
}

/// The file at the buffer's place in a list. An unknown kind is refused before the checksum's bytes
/// are read, so that it comes before `UnexpectedEof` where these are missing. Where the file is
/// refused, the place may have moved.
#[tactic(auto, unfolding(crate::specs::Checksums::file_at))]
fn parse_file<'a>(buffer: &mut ParseBuffer<'a>) -> Result<FileInfo<'a>>
    ensures value { ReadsInSteps file_seen result buffer.old buffer.new
        (file_at (length buffer.old.bytes)) }
    ensures taken { IfOk result (λ _. length (rest buffer.new) < length (rest buffer.old)) }
{
    let name = StringRef(buffer.parse_u32()?);
    let size = buffer.parse_u8()?;
    let kind = buffer.parse_u8()?;
    if SHA_256 < kind {
        return Err(Error::UnimplementedFileChecksumKind(kind));
    }
    let bytes = buffer.take(usize::from(size))?;
    buffer.take(padding_behind(buffer.pos()))?;
    let checksum = checksum_by(kind, bytes);
    Ok(FileInfo { name, checksum })
}

/// The file at a place in a list: its first byte's number. `InvalidFileChecksumOffset` at the
/// list's end and past it.
#[tactic(auto, unfolding(crate::specs::Checksums::file_in))]
pub(crate) fn file_in_list(list: &[u8], index: FileIndex) -> Result<FileInfo<'_>>
    ensures { Parses file_seen result (file_in list.now index.0) }
{
    let place = index.0 as usize;
    if list.len() <= place {
        return Err(Error::InvalidFileChecksumOffset(index.0));
    }
    let mut buffer = ParseBuffer::from(list);
    buffer.seek(place);
    parse_file(&mut buffer)
}

/// An iterator over the source files of a module, in their order. A fault is returned once.
#[derive(Debug, Drop)]
pub struct FileIterator<'a> {
    list: &'a [u8],
    place: usize,
}

impl<'a> Model for FileIterator<'a> {
    ghost use Rattle.pdb_container.specs.Listing.{Listing};
    ghost use Rattle.pdb_lines.specs.Checksums.{File, files_from};

    ghost Value = { Listing File };

    ghost view = { λ it. files_from it.list.now it.place };
}

impl<'a> FileIterator<'a> {
    /// The files of a list.
    pub(crate) fn new(list: &'a [u8]) -> FileIterator<'a>
        ensures { result ≡ files_of list.now }
    {
        FileIterator { list, place: 0 }
    }
}

/// The file at a place in a list, and the place after it.
#[tactic(auto, unfolding(pdb_container::specs::Buffer::rest))]
fn split_file(list: &[u8], place: usize) -> Result<(FileInfo<'_>, usize)>
    requires { place < length list.now }
    ensures value { Parses (λ x. (file_seen x.0, drop x.1 list.now)) result
        (file_at (length list.now) (drop place list.now)) }
    ensures taken { IfOk result (λ x. length (drop x.1 list.now) < length (drop place list.now)) }
{
    let mut buffer = ParseBuffer::from(list);
    buffer.seek(place);
    let file = parse_file(&mut buffer)?;
    Ok((file, buffer.pos()))
}

impl<'a> FallibleIterator for FileIterator<'a> {
    type Item = FileInfo<'a>;

    type Error = Error;

    ghost has_ended = { λ s. s ≡ ending None };

    ghost next_gives = { Advances file_seen };

    #[tactic(auto, using(pdb_container::proofs::Listings::listing_next, pdb_container::proofs::Listings::listing_past, pdb_subsections::proofs::Steps::not_ended_here, crate::proofs::FileSteps::files_fault, crate::proofs::FileSteps::files_not_ended))]
    fn next(&mut self) -> Result<Option<FileInfo<'a>>> {
        if self.list.len() <= self.place {
            return Ok(None);
        }
        match split_file(self.list, self.place) {
            Ok((file, place)) => {
                self.place = place;
                Ok(Some(file))
            }
            Err(fault) => {
                self.place = self.list.len();
                Err(fault)
            }
        }
    }
}
