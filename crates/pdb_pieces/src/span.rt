//! Spans of places, which are numbers, and the better of two marks.

ghost use Rattle.std.specs.Prelude.{◌≡◌};
ghost use Rattle.pdb_pieces.specs.Spans.{better, place_number as number_of_place};

use pdb_addresses::PdbInternalSectionOffset;

/// The value of a span, and its rank among others.
#[derive(Clone, Copy, Debug, PartialEq, Eq)]
pub struct Mark {
    /// The rank: of marks over one place the one of the greatest rank stands there.
    pub rank: u64,
    /// The value: a number of the caller's.
    pub value: usize,
}

/// The places from `start` on and below `end`, and their mark; none where `end` isn't past `start`.
#[derive(Clone, Copy, Debug, PartialEq, Eq)]
pub struct Span {
    /// The first place.
    pub start: u64,
    /// The place after the last one.
    pub end: u64,
    /// The mark of these places.
    pub mark: Mark,
}

/// A place as a number: 2^33 numbers for each section, so that a span that begins in one section
/// ends before the next section's.
pub fn place_number(place: PdbInternalSectionOffset) -> u64
    ensures { result ≡ number_of_place place }
{
    u64::from(place.section) * 0x2_0000_0000 + u64::from(place.offset)
}

/// The one of greater rank, of equals the first.
pub fn better_of(left: Option<Mark>, right: Option<Mark>) -> Option<Mark>
    ensures { result ≡ better left right }
{
    match (left, right) {
        (None, right) => right,
        (Some(left), None) => Some(left),
        (Some(left), Some(right)) => Some(if left.rank < right.rank { right } else { left }),
    }
}
