//! The order in which section contributions have to stand.

/// The order in which the section contributions of a database have to stand.
#[derive(Clone, Copy, Debug, PartialEq, Eq)]
pub enum ContributionOrder {
    /// The order in which most linkers write them: a contribution that ends before those with which
    /// it is merged is refused.
    InOrder,
    /// Any order. Where merging is refused for their order, they stay as they stand, and the first
    /// one that holds a place is its holder. GNU ld before 2.44 writes such databases.
    Any,
}
