//! The memory that data take, for a meter of what is cached. No clause says how much, since no
//! answer shows it.

use pdb_pieces::Span;

/// The number of bytes that the pieces of a span take: at most two pieces, each with its start.
pub const PIECES_OF_SPAN: usize = 2 * (size_of::<Span>() + size_of::<u64>());

/// The number of bytes that so many items take, each of a size in bytes.
pub fn memory_of(count: usize, size: usize) -> u64 {
    (count as u64).saturating_mul(size as u64)
}
