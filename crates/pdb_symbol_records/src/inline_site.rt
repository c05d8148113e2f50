//! Inline sites (`S_INLINESITE`, `S_INLINESITE2`): the symbols of inlined calls.

use crate::annotations::BinaryAnnotations;
use pdb_container::{IdIndex, SymbolIndex};

/// An inline site (`S_INLINESITE`, `S_INLINESITE2`), which is an inlined call: the symbol around it
/// and the one that ends it, the inlined function, and the places of its code.
#[derive(Clone, Copy, Debug)]
pub struct InlineSiteSymbol<'t> {
    /// The symbol around it, where one is named.
    pub parent: Option<SymbolIndex>,
    /// The symbol that ends it.
    pub end: SymbolIndex,
    /// The inlinee: the id of the inlined function.
    pub inlinee: IdIndex,
    /// The number of its invocations, where that is stated (`S_INLINESITE2`).
    pub invocations: Option<u32>,
    /// Its binary annotations: the places of its code, and the lines from which the code was made.
    pub annotations: BinaryAnnotations<'t>,
}
