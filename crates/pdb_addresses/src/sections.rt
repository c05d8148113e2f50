//! Section headers of an image (IMAGE_SECTION_HEADER of the PE format).

ghost use Rattle.std.specs.Prelude.{◌≡◌, ◌≤◌, [], length};
ghost use Rattle.std.specs.Str.{IsUtf8};
ghost use Rattle.pdb_container.specs.Fault.{Gives};
ghost use Rattle.pdb_addresses.specs.Sections.{header_in as header_of, section_headers_of};
ghost use Rattle.pdb_addresses.specs.Sections.{text_before_nul, may_execute};

use pdb_container::{FromBuffer, ParseBuffer, Result, half_at, nul_in, parse_entries, word_at};
use std::alloc::Global;

/// Section characteristics: the rights in a section.
#[derive(Clone, Copy, Debug, Default, PartialEq, Eq)]
pub struct SectionCharacteristics(pub u32);

impl SectionCharacteristics {
    /// Whether code may run in it.
    pub fn execute(self) -> bool
        ensures { result ≡ may_execute self }
    {
        self.0 & 0x2000_0000 != 0
    }
}

/// A section header of the PE format.
#[derive(Clone, Copy, Debug, Default, PartialEq, Eq)]
pub struct ImageSectionHeader {
    /// The name, filled up with NULs.
    pub name: [u8; 8],
    /// The size in memory, in bytes.
    pub virtual_size: u32,
    /// The address in memory, in bytes from the image's start.
    pub virtual_address: u32,
    /// The size in the image's file, in bytes.
    pub size_of_raw_data: u32,
    /// The start of its bytes in the image's file, in bytes.
    pub pointer_to_raw_data: u32,
    /// The start of its relocations in the image's file, in bytes.
    pub pointer_to_relocations: u32,
    /// The start of its line numbers in the image's file, in bytes.
    pub pointer_to_line_numbers: u32,
    /// The number of its relocations.
    pub number_of_relocations: u16,
    /// The number of its line numbers.
    pub number_of_line_numbers: u16,
    /// The rights in the section.
    pub characteristics: SectionCharacteristics,
}

/// A section header, 40 bytes; `UnexpectedEof` where fewer are left.
impl FromBuffer for ImageSectionHeader {
    ghost use Rattle.pdb_addresses.specs.Sections.{section_header_at};

    ghost read = { section_header_at };

    #[tactic(auto, unfolding(crate::specs::Sections::section_header_at))]
    fn from_buffer(buffer: &mut ParseBuffer<'_>) -> Result<ImageSectionHeader> {
        Ok(header_in(buffer.take(40)?))
    }
}

/// The section header that its 40 bytes spell.
fn header_in(bytes: &[u8]) -> ImageSectionHeader
    requires { 40 ≤ length bytes.now }
    ensures { result ≡ header_of bytes.now }
{
    let mut name = [0; 8];
    name.copy_from_slice(&bytes[..8]);
    ImageSectionHeader {
        name,
        virtual_size: word_at(bytes, 8),
        virtual_address: word_at(bytes, 12),
        size_of_raw_data: word_at(bytes, 16),
        pointer_to_raw_data: word_at(bytes, 20),
        pointer_to_relocations: word_at(bytes, 24),
        pointer_to_line_numbers: word_at(bytes, 28),
        number_of_relocations: half_at(bytes, 32),
        number_of_line_numbers: half_at(bytes, 34),
        characteristics: SectionCharacteristics(word_at(bytes, 36)),
    }
}

impl ImageSectionHeader {
    /// The name: the bytes before the first NUL, and nothing where they aren't UTF-8.
    pub fn name(&self) -> &str
        ensures text { IsUtf8 (text_before_nul self.now.name)
            → result.now ≡ text_before_nul self.now.name }
        ensures other { (IsUtf8 (text_before_nul self.now.name) → ⊥) → result.now ≡ [] }
    {
        match std::str::from_utf8(before_nul(&self.name)) {
            Ok(name) => name,
            Err(_) => "",
        }
    }
}

/// The bytes before the first NUL, or all of them.
fn before_nul(bytes: &[u8]) -> &[u8]
    ensures { result.now ≡ text_before_nul bytes.now }
{
    match nul_in(bytes) {
        None => bytes,
        Some(end) => &bytes[..end],
    }
}

/// The section headers of a stream, to its end.
///
/// # Errors
/// `UnexpectedEof` where the last one is cut, `OutOfMemory`.
pub fn parse_section_headers(alloc: Global, bytes: &[u8]) -> Result<Vec<ImageSectionHeader>>
    ensures { Gives (λ v. v.items) ⊥ result (section_headers_of bytes.now) }
{
    parse_entries(alloc, bytes)
}
