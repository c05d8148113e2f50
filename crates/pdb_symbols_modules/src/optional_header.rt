//! The optional debug header of the DBI stream: numbers of further streams.

ghost use Rattle.std.specs.Prelude.{◌≡◌, ◌≤◌, ◌*◌, drop};
ghost use Rattle.std.specs.Int.{w16};
ghost use Rattle.pdb_container.specs.Fault.{Parses};
ghost use Rattle.pdb_container.specs.Fields.{number_at};
ghost use Rattle.pdb_symbols_modules.specs.OptionalHeader.{optional_at, value_or};

use crate::stream_index::StreamIndex;
use pdb_container::{Error, ParseBuffer, Result};

/// The place of the OMAP from addresses of the image to those of its database.
pub const OMAP_TO_SOURCE: usize = 3;

/// The place of the OMAP back, from addresses of the database to those of the image.
pub const OMAP_FROM_SOURCE: usize = 4;

/// The place of the section headers of the image.
pub const SECTION_HEADERS: usize = 5;

/// The place of the section headers before the image's code was moved.
pub const ORIGINAL_SECTION_HEADERS: usize = 10;

/// The number at a place of the optional debug header, counted from 0; the number that names no
/// stream where the header ends before it.
///
/// # Errors
/// `InvalidStreamLength` where the header isn't made of whole numbers.
#[tactic(auto, unfolding(crate::specs::OptionalHeader::optional_at))]
pub fn number_at_place(optional_header: &[u8], place: usize) -> Result<StreamIndex>
    requires { place ≤ 10 }
    ensures { Parses (λ n. n.0) result (optional_at place optional_header.now) }
{
    if optional_header.len() % 2 != 0 {
        return Err(Error::InvalidStreamLength("DbgDataHdr"));
    }
    Ok(StreamIndex(number_or_none(optional_header, 2 * place)))
}

/// The number in the two bytes from a place on; 65535 where these aren't there.
fn number_or_none(bytes: &[u8], place: usize) -> u16
    ensures { result ≡ value_or 65535 (number_at w16 (drop place bytes.now)) }
{
    let mut buffer = ParseBuffer::from(bytes);
    buffer.seek(place);
    buffer.parse_u16().unwrap_or(0xffff)
}
