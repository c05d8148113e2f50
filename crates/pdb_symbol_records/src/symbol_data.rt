//! CodeView symbols as values (`S_*`).

use crate::inline_site::InlineSiteSymbol;
use pdb_addresses::PdbInternalSectionOffset;
use pdb_container::{RawString, SymbolIndex, TypeIndex};

/// A CodeView symbol's value, for the kinds that have a form.
#[derive(Clone, Copy, Debug)]
pub enum SymbolData<'t> {
    /// A public symbol (`S_PUB32`): a name that other modules see.
    Public(PublicSymbol<'t>),
    /// A procedure (`S_GPROC32`, `S_LPROC32` and their like): a function's code.
    Procedure(ProcedureSymbol<'t>),
    /// A thunk (`S_THUNK32`): a piece of code that leads to another.
    Thunk(ThunkSymbol<'t>),
    /// Separated code (`S_SEPCODE`) of a procedure, which lies apart from it.
    SeparatedCode(SeparatedCodeSymbol),
    /// An inline site (`S_INLINESITE`, `S_INLINESITE2`): an inlined call.
    InlineSite(InlineSiteSymbol<'t>),
    /// The end of a symbol that others lie in (`S_END`).
    ScopeEnd,
    /// The end of a procedure whose type is an id (`S_PROC_ID_END`).
    ProcedureEnd,
    /// The end of an inline site (`S_INLINESITE_END`).
    InlineSiteEnd,
}

/// A public symbol (`S_PUB32`): a name that other modules see.
#[derive(Clone, Copy, Debug, PartialEq, Eq)]
pub struct PublicSymbol<'t> {
    /// Whether it is code: bit 0 of its flags.
    pub code: bool,
    /// Whether it is a function: bit 1.
    pub function: bool,
    /// Whether it is managed code or data: bit 2.
    pub managed: bool,
    /// Whether it is code in an intermediate language: bit 3.
    pub msil: bool,
    /// Its place: a section's number, counted from 1, and an offset in bytes.
    pub offset: PdbInternalSectionOffset,
    /// Its name as it is stored.
    pub name: RawString<'t>,
}

/// A procedure (`S_GPROC32`, `S_LPROC32` and their like): a function's code. An index 0 for the
/// symbol around it or the next one is none.
#[derive(Clone, Copy, Debug, PartialEq, Eq)]
pub struct ProcedureSymbol<'t> {
    /// Whether other modules see it, by its kind.
    pub global: bool,
    /// Whether it is a deferred procedure call (DPC), by its kind.
    pub dpc: bool,
    /// The symbol around it, where one is named.
    pub parent: Option<SymbolIndex>,
    /// The symbol that ends it.
    pub end: SymbolIndex,
    /// The next symbol of its kind, where one is named.
    pub next: Option<SymbolIndex>,
    /// The number of bytes of its code.
    pub len: u32,
    /// The start of its body, in bytes from its own start.
    pub dbg_start_offset: u32,
    /// The end of its body, in bytes from its own start.
    pub dbg_end_offset: u32,
    /// The index of its type, or of its id for the kinds of that name (`_ID`).
    pub type_index: TypeIndex,
    /// The start of its code: a section's number, counted from 1, and an offset in bytes.
    pub offset: PdbInternalSectionOffset,
    /// Its flags as they are stored.
    pub flags: u8,
    /// Its name as it is stored.
    pub name: RawString<'t>,
}

/// A thunk (`S_THUNK32`): a piece of code that leads to another. An index 0 for the symbol around
/// it or the next one is none.
#[derive(Clone, Copy, Debug, PartialEq, Eq)]
pub struct ThunkSymbol<'t> {
    /// The symbol around it, where one is named.
    pub parent: Option<SymbolIndex>,
    /// The symbol that ends it.
    pub end: SymbolIndex,
    /// The next symbol of its kind, where one is named.
    pub next: Option<SymbolIndex>,
    /// The start of its code: a section's number, counted from 1, and an offset in bytes.
    pub offset: PdbInternalSectionOffset,
    /// The number of bytes of its code.
    pub len: u16,
    /// The sort of thunk (`THUNK_ORDINAL`), as it is stored.
    pub kind: u8,
    /// Its name as it is stored.
    pub name: RawString<'t>,
}

/// Separated code (`S_SEPCODE`) of a procedure, which lies apart from it. An index 0 for the symbol
/// around it is none.
#[derive(Clone, Copy, Debug, PartialEq, Eq)]
pub struct SeparatedCodeSymbol {
    /// The symbol around it, where one is named.
    pub parent: Option<SymbolIndex>,
    /// The symbol that ends it.
    pub end: SymbolIndex,
    /// The number of bytes of its code.
    pub len: u32,
    /// Its flags as they are stored.
    pub flags: u32,
    /// The start of its code: a section's number, counted from 1, and an offset in bytes.
    pub offset: PdbInternalSectionOffset,
    /// The start of the code of its procedure: a section's number, counted from 1, and an offset in
    /// bytes.
    pub parent_offset: PdbInternalSectionOffset,
}
