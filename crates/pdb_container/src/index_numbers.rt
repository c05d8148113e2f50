//! File indices and symbol indices.

/// A file index: the place of a file's entry among its module's checksums (`DEBUG_S_FILECHKSMS`),
/// in bytes.
#[derive(Clone, Copy, Debug, Default, PartialEq, Eq, PartialOrd, Ord, Hash)]
pub struct FileIndex(pub u32);

/// A symbol index: the place of a symbol in the bytes of its list.
#[derive(Clone, Copy, Debug, Default, PartialEq, Eq, PartialOrd, Ord, Hash)]
pub struct SymbolIndex(pub u32);
