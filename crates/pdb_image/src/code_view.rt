//! The CodeView record of an image, which says what PDB it has.

ghost use Rattle.std.specs.Prelude.{◌≡◌, map, option_map};
ghost use Rattle.std.specs.List.{find, list_any};
ghost use Rattle.pdb_addresses.specs.Sections.{header_in};
ghost use Rattle.pdb_container.specs.RawString.{raw_bytes};
ghost use Rattle.pdb_image.specs.CodeView.{Returns, is_code_view as is_code_view_entry};
ghost use Rattle.pdb_image.specs.CodeView.{is_rsds as is_rsds_entry, place_in as place_in_section};
ghost use Rattle.pdb_image.specs.CodeView.{path_of, place_of, record_in, record_of, rsds_of};

use crate::error::ImageError;
use crate::file_part::part;
use crate::identity::PdbIdentity;
use pdb_container::{RawString, nul_in, word_at};
use std::marker::Model;

/// The CodeView record of an image, of the kind RSDS: what PDB the image has.
#[derive(Debug, Drop)]
pub struct CodeView<'a> {
    identity: PdbIdentity,
    path: RawString<'a>,
}

impl<'a> Model for CodeView<'a> {
    ghost use Rattle.pdb_container.specs.RawString.{raw_bytes};
    ghost use Rattle.pdb_image.specs.CodeView.{CodeView};

    ghost Value = { CodeView };

    ghost view = { λ c. record { identity = c.identity; path = raw_bytes c.path } };
}

impl<'a> CodeView<'a> {
    /// The identity of the PDB.
    pub fn identity(&self) -> PdbIdentity
        ensures { result ≡ self.now.identity }
    {
        self.identity
    }

    /// The path of the PDB, as the linker wrote it.
    pub fn path(&self) -> RawString<'a>
        ensures { raw_bytes result ≡ self.now.path }
    {
        self.path
    }
}

/// The place in the file of an address, if the data of the section with this header hold it.
fn place_in(header: &[u8; 40], address: u32) -> Option<usize>
    ensures { result ≡ place_in_section address (header_in header.now) }
{
    let start = word_at(header, 12);
    let end = u64::from(start) + u64::from(word_at(header, 16));
    if address < start || end <= u64::from(address) {
        return None;
    }
    Some(word_at(header, 20) as usize + (address - start) as usize)
}

/// The place in the file of an address, in the first of these sections whose data hold it.
#[tactic(auto, using(crate::proofs::SectionSteps::place_more, crate::proofs::SectionSteps::place_found, crate::proofs::SectionSteps::place_missing))]
pub(crate) fn file_place(sections: &[[u8; 40]], address: u32) -> Option<usize>
    ensures { result ≡ place_of address (map header_in sections.now) }
{
    for header in sections {
        if let Some(place) = place_in(header, address) {
            return Some(place);
        }
    }
    None
}

/// Whether an entry of the debug directory is of type 2, CodeView.
pub(crate) fn is_code_view(entry: &[u8; 28]) -> bool
    ensures { result ≡ is_code_view_entry entry.now }
{
    word_at(entry, 12) == 2
}

/// Whether an entry of the debug directory is a CodeView entry with an RSDS record.
fn is_rsds(file: &[u8], entry: &[u8; 28]) -> bool
    ensures { result ≡ is_rsds_entry file.now entry.now }
{
    let place = word_at(entry, 24) as usize;
    is_code_view(entry)
        && file
            .get(place..)
            .is_some_and(|bytes| bytes.starts_with(b"RSDS"))
}

/// The first CodeView entry with an RSDS record.
fn rsds_entry<'e>(file: &[u8], entries: &'e [[u8; 28]]) -> Option<&'e [u8; 28]>
    ensures { option_map (λ e. e.now) result ≡ find (is_rsds_entry file.now) entries.now }
{
    entries.iter().find(|entry| is_rsds(file, entry))
}

/// Whether there is a CodeView entry.
fn has_code_view(entries: &[[u8; 28]]) -> bool
    ensures { result ≡ list_any is_code_view_entry entries.now }
{
    entries.iter().any(is_code_view)
}

/// The CodeView record of a file with this debug directory.
#[tactic(auto, unfolding(crate::specs::CodeView::record_in))]
pub(crate) fn parse_record_in<'a>(
    file: &'a [u8],
    directory: &[u8],
) -> Result<Option<CodeView<'a>>, ImageError>
    ensures { result ≡ record_in file.now directory.now }
{
    let (entries, _) = directory.as_chunks::<28>();
    match rsds_entry(file, entries) {
        Some(entry) => Ok(Some(parse_record(file, entry)?)),
        None if has_code_view(entries) => Err(ImageError::NoRsdsRecord),
        None => Ok(None),
    }
}

/// The RSDS record of an entry of the debug directory.
#[tactic(auto, unfolding(crate::specs::CodeView::record_of))]
fn parse_record<'a>(file: &'a [u8], entry: &[u8; 28]) -> Result<CodeView<'a>, ImageError>
    ensures { result ≡ record_of file.now entry.now }
{
    let pointer = word_at(entry, 24) as usize;
    let size = word_at(entry, 16) as usize;
    parse_rsds(part(file, pointer, size).ok_or(ImageError::RecordPastEnd)?)
}

/// The CodeView record in the bytes of an RSDS record.
#[tactic(auto, unfolding(crate::specs::CodeView::rsds_of))]
pub(crate) fn parse_rsds(bytes: &[u8]) -> Result<CodeView<'_>, ImageError>
    ensures { result ≡ rsds_of bytes.now }
{
    if bytes.len() < 24 {
        return Err(ImageError::RecordTooShort);
    }
    let (_, path) = bytes.split_at(24);
    let path = parse_path(path)?;
    let mut guid = [0; 16];
    guid.copy_from_slice(&bytes[4..20]);
    let age = word_at(bytes, 20);
    Ok(CodeView {
        identity: PdbIdentity { guid, age },
        path,
    })
}

/// The path that these bytes begin with, which ends before a NUL.
#[tactic(auto, unfolding(crate::specs::CodeView::path_of))]
fn parse_path(bytes: &[u8]) -> Result<RawString<'_>, ImageError>
    ensures { Returns raw_bytes result (path_of bytes.now) }
{
    match nul_in(bytes) {
        None => Err(ImageError::PathNotEnded),
        Some(end) => Ok(RawString::from(&bytes[..end])),
    }
}
