//! The header of the TPI or the IPI.

ghost use Rattle.std.specs.Prelude.{◌≡◌, ◌≤◌, length, IfOk};
ghost use Rattle.pdb_container.specs.Buffer.{ReadsInSteps};
ghost use Rattle.pdb_container.specs.Fault.{Parses};
ghost use Rattle.pdb_container_types.specs.Items.{header_at, fitting_header, item_header_of};

use pdb_container::{Error, ParseBuffer, Result};

/// The header of the TPI (types) or the IPI (ids), as far as it is used.
#[derive(Clone, Copy, Debug)]
pub struct Header {
    /// The header's own size, in bytes.
    pub header_size: u32,
    /// The first index of the table.
    pub minimum_index: u32,
    /// The first index past the table.
    pub maximum_index: u32,
}

/// The header of a TPI or IPI stream; an empty stream is a table without indices.
///
/// # Errors
/// `UnexpectedEof`, `InvalidTypeInformationHeader`.
#[tactic(auto, unfolding(crate::specs::Items::item_header_of))]
pub fn parse_header(bytes: &[u8]) -> Result<Header>
    ensures header { Parses (λ h. h) result (item_header_of bytes.now) }
    ensures there { IfOk result (λ h. h.header_size ≤ length bytes.now) }
    ensures ordered { IfOk result (λ h. h.minimum_index ≤ h.maximum_index) }
{
    if bytes.is_empty() {
        return Ok(Header {
            header_size: 0,
            minimum_index: 0,
            maximum_index: 0,
        });
    }
    let header = read_fields(&mut ParseBuffer::from(bytes))?;
    fit(bytes.len(), header)
}

#[tactic(auto, unfolding(crate::specs::Items::header_at))]
fn read_fields(buffer: &mut ParseBuffer<'_>) -> Result<Header>
    ensures { ReadsInSteps (λ h. h) result buffer.old buffer.new header_at }
{
    let _version = buffer.parse_u32()?;
    let header_size = buffer.parse_u32()?;
    let minimum_index = buffer.parse_u32()?;
    let maximum_index = buffer.parse_u32()?;
    buffer.take(40)?;
    Ok(Header {
        header_size,
        minimum_index,
        maximum_index,
    })
}

/// The header, if it fits a stream of `len` bytes.
#[tactic(auto, unfolding(crate::specs::Items::fitting_header))]
fn fit(len: usize, header: Header) -> Result<Header>
    ensures header { Parses (λ h. h) result (fitting_header len header) }
    ensures there { IfOk result (λ h. h.header_size ≤ len) }
    ensures ordered { IfOk result (λ h. h.minimum_index ≤ h.maximum_index) }
{
    if header.header_size < 56 {
        return Err(Error::InvalidTypeInformationHeader("header size is impossibly small"));
    }
    if header.header_size > 1024 {
        return Err(Error::InvalidTypeInformationHeader("header size is unreasonably large"));
    }
    if len < header.header_size as usize {
        return Err(Error::UnexpectedEof);
    }
    if header.minimum_index < 4096 {
        return Err(Error::InvalidTypeInformationHeader("minimum type index is < 4096"));
    }
    if header.maximum_index < header.minimum_index {
        return Err(Error::InvalidTypeInformationHeader(
            "maximum type index is < minimum type index",
        ));
    }
    Ok(header)
}
