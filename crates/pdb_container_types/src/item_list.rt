//! Items, one after another.

ghost use Rattle.std.specs.Prelude.{◌≡◌, ◌+◌, ◌-◌, ◌^◌, ◌<◌, ◌≤◌, length, drop};
ghost use Rattle.pdb_container.specs.Buffer.{rest, ReadsInSteps};
ghost use Rattle.pdb_container.specs.Fault.{Parses};
ghost use Rattle.pdb_container_types.specs.Items.{piece_at, items_from, item_number};
ghost use Rattle.pdb_container_types.specs.KeptPlaces.{Steps, seen};

use pdb_container::{Error, ParseBuffer, Result};

/// The item at the buffer's place, without its length; the place may have moved where it is
/// refused. Counts the length that it reads.
#[tactic(auto, unfolding(crate::specs::Items::piece_at))]
fn parse_piece<'b>(buffer: &mut ParseBuffer<'b>, lengths: &mut u32) -> Result<&'b [u8]>
    requires { lengths.old < 2 ^ 32 - 1 }
    ensures item { ReadsInSteps (λ piece. piece.now) result buffer.old buffer.new piece_at }
    ensures count { lengths.new ≡ lengths.old + 1 }
{
    *lengths += 1;
    let size = buffer.parse_u16()?;
    if size < 2 {
        return Err(Error::TypeTooShort);
    }
    buffer.take(usize::from(size))
}

/// The item at the buffer's place, which would get this index; `None` at the end, and then the
/// place stays. Counts a length that it reads.
///
/// # Errors
/// The item's fault, `InvalidTypeInformationHeader` where no index is left; the place stays.
#[tactic(auto, using(crate::proofs::Pieces::items_end, crate::proofs::Pieces::items_full, crate::proofs::Pieces::items_next, crate::proofs::Pieces::items_fail, crate::proofs::Pieces::piece_takes))]
pub fn next_piece<'b>(
    buffer: &mut ParseBuffer<'b>,
    index: u32,
    lengths: &mut u32,
) -> Result<Option<&'b [u8]>>
    requires { lengths.old < 2 ^ 32 - 1 }
    ensures item { Steps (λ piece. piece.now) index result buffer.old buffer.new }
    ensures count { lengths.new ≤ lengths.old + 1 }
{
    if buffer.is_empty() {
        return Ok(None);
    }
    if index == u32::MAX {
        return Err(Error::InvalidTypeInformationHeader("maximum"));
    }
    let start = buffer.pos();
    match parse_piece(buffer, lengths) {
        Ok(piece) => Ok(Some(piece)),
        Err(fault) => {
            buffer.seek(start);
            Err(fault)
        }
    }
}

/// The item `skip` items after the first one, whose index is `first`; `None` past the end. Counts
/// the lengths that it reads, at most eight.
///
/// # Errors
/// The fault of the first item on the way that has one.
#[tactic(auto, using(crate::proofs::Walks::walk_start, crate::proofs::Walks::walk_more, crate::proofs::Walks::walk_end, crate::proofs::Walks::walk_fault, crate::proofs::Walks::walk_last))]
pub fn walk<'b>(
    bytes: &'b [u8],
    first: u32,
    skip: u32,
    lengths: &mut u32,
) -> Result<Option<&'b [u8]>>
    requires fits { first + skip < 2 ^ 32 }
    requires short { skip < 8 }
    requires none { lengths.old ≡ 0 }
    ensures item { Parses (seen (λ piece. piece.now)) result
        (item_number (items_from first bytes.now) skip) }
    ensures few { lengths.new ≤ 8 }
{
    let mut buffer = ParseBuffer::from(bytes);
    for passed in 0..skip {
        match next_piece(&mut buffer, first + passed, lengths) {
            Ok(Some(_)) => {}
            Ok(None) => return Ok(None),
            Err(fault) => return Err(fault),
        }
    }
    next_piece(&mut buffer, first + skip, lengths)
}

/// The bytes from a place on.
pub fn behind(bytes: &[u8], place: usize) -> &[u8]
    requires { place ≤ length bytes.now }
    ensures { result.now ≡ drop place bytes.now }
{
    &bytes[place..]
}
