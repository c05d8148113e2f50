//! The values of symbols, from their bytes.

ghost use Rattle.std.specs.Prelude.{◌≡◌, ◌≤◌, length, IfOk};
ghost use Rattle.pdb_container.specs.Buffer.{rest, ParsesFront};
ghost use Rattle.pdb_container.specs.Fault.{Parses};
ghost use Rattle.pdb_container.specs.RawString.{raw_bytes};
ghost use Rattle.pdb_symbol_records.specs.Forms as forms;
ghost use Rattle.pdb_symbol_records.specs.Forms.{symbol_form, public_form, procedure_form};
ghost use Rattle.pdb_symbol_records.specs.Forms.{thunk_form};
ghost use Rattle.pdb_symbol_records.specs.Forms.{inline_site_form};
ghost use Rattle.pdb_symbol_records.specs.Records.{index_of, symbol_name_at};
ghost use Rattle.pdb_symbol_records.specs.Records.{name_behind as name_behind_front};
ghost use Rattle.pdb_symbol_records.specs.Records.{inline_site_front};
ghost use Rattle.pdb_symbol_records.specs.Records.{invocations_in as invocations_of};
ghost use Rattle.pdb_symbol_records.specs.Records.{inline_site_in as inline_site_of_front};
ghost use Rattle.pdb_symbol_records.specs.Records.{public_in as public_of_front};
ghost use Rattle.pdb_symbol_records.specs.Records.{procedure_in as procedure_of_front};
ghost use Rattle.pdb_symbol_records.specs.Records.{thunk_in as thunk_of_front};
ghost use Rattle.pdb_symbol_records.specs.Records.{separated_code_in as separated_code_of_front};
ghost use Rattle.pdb_symbol_records.specs.Records.{public_of, procedure_symbol_at, thunk_of};
ghost use Rattle.pdb_symbol_records.specs.Records.{separated_code_of, inline_site_of, as_form};
ghost use Rattle.pdb_symbol_records.specs.Records.{end_form};
ghost use Rattle.pdb_symbol_records.specs.Records.{form_of, symbol_form_of};

use crate::annotations::BinaryAnnotations;
use crate::inline_site::InlineSiteSymbol;
use crate::kinds::{
    S_END, S_INLINESITE_END, S_INLINESITE2, S_PROC_ID_END, has_form, is_dpc, is_global,
    is_inline_site, is_procedure, is_public, is_separated_code, is_thunk,
};
use crate::symbol::Symbol;
use crate::symbol_data::{
    ProcedureSymbol, PublicSymbol, SeparatedCodeSymbol, SymbolData, ThunkSymbol,
};
use pdb_addresses::PdbInternalSectionOffset;
use pdb_container::{
    Error, IdIndex, ParseBuffer, RawString, Result, SymbolIndex, TypeIndex, half_at, word_at,
};

impl<'t> Symbol<'t> {
    /// The symbol's value, by its kind (`S_*`).
    ///
    /// # Errors
    /// `UnimplementedSymbolKind` for a kind without a form, `UnexpectedEof` where bytes are
    /// missing.
    #[tactic(auto, unfolding(crate::specs::Records::symbol_form_of))]
    pub fn parse(&self) -> Result<SymbolData<'t>>
        ensures { Parses symbol_form result (symbol_form_of self.now) }
    {
        parse_form(self.raw_kind(), self.payload())
    }
}

/// The value of a symbol, from the bytes after its kind. Most symbols of a module are of kinds
/// without a form: these are sorted out first.
#[tactic(auto, unfolding(crate::specs::Records::form_of, crate::specs::Records::end_form))]
fn parse_form(kind: u16, payload: &[u8]) -> Result<SymbolData<'_>>
    ensures { Parses symbol_form result (form_of kind payload.now) }
{
    if !has_form(kind) {
        return Err(Error::UnimplementedSymbolKind(kind));
    }
    if is_public(kind) {
        parse_public(kind, payload)
    } else if is_procedure(kind) {
        parse_procedure(kind, payload)
    } else if is_thunk(kind) {
        parse_thunk(kind, payload)
    } else if is_separated_code(kind) {
        parse_separated_code(payload)
    } else if is_inline_site(kind) {
        parse_inline_site(kind, payload)
    } else {
        parse_end(kind)
    }
}

/// The value of a symbol of a kind without fields.
#[tactic(auto, unfolding(crate::specs::Records::end_form))]
fn parse_end<'t>(kind: u16) -> Result<SymbolData<'t>>
    ensures { Parses symbol_form result (end_form kind) }
{
    match kind {
        S_END => Ok(SymbolData::ScopeEnd),
        S_PROC_ID_END => Ok(SymbolData::ProcedureEnd),
        S_INLINESITE_END => Ok(SymbolData::InlineSiteEnd),
        _ => Err(Error::UnimplementedSymbolKind(kind)),
    }
}

/// The index that a number names, none for 0.
fn optional_index(number: u32) -> Option<SymbolIndex>
    ensures { result ≡ index_of number }
{
    if number == 0 {
        return None;
    }
    Some(SymbolIndex(number))
}

/// A name: for kinds below 0x1100 a Pascal string, otherwise a C string.
#[tactic(auto, unfolding(crate::specs::Records::symbol_name_at))]
fn parse_name<'t>(kind: u16, buffer: &mut ParseBuffer<'t>) -> Result<RawString<'t>>
    ensures { ParsesFront raw_bytes result (rest buffer.new)
        (symbol_name_at kind (rest buffer.old)) }
{
    if kind < 0x1100 {
        buffer.parse_u8_pascal_string()
    } else {
        buffer.parse_cstring()
    }
}

/// The name after `front` bytes. `UnexpectedEof` where these aren't all there.
#[tactic(auto, unfolding(crate::specs::Records::name_behind))]
fn name_behind(kind: u16, front: usize, payload: &[u8]) -> Result<RawString<'_>>
    ensures name { Parses raw_bytes result (name_behind_front kind front payload.now) }
    ensures whole { IfOk result (λ _. front ≤ length payload.now) }
{
    if payload.len() < front {
        return Err(Error::UnexpectedEof);
    }
    parse_name(kind, &mut ParseBuffer::from(&payload[front..]))
}

#[tactic(auto, unfolding(crate::specs::Records::public_of))]
fn parse_public(kind: u16, payload: &[u8]) -> Result<SymbolData<'_>>
    ensures { Parses symbol_form result (as_form forms.Public (public_of kind payload.now)) }
{
    let name = name_behind(kind, 10, payload)?;
    Ok(SymbolData::Public(public_in(payload, name)))
}

/// The public symbol, from the 10 bytes before its name.
fn public_in<'t>(bytes: &[u8], name: RawString<'t>) -> PublicSymbol<'t>
    requires { 10 ≤ length bytes.now }
    ensures { public_form result ≡ public_of_front bytes.now (raw_bytes name.entry) }
{
    let flags = word_at(bytes, 0);
    PublicSymbol {
        code: flags & 1 != 0,
        function: flags & 2 != 0,
        managed: flags & 4 != 0,
        msil: flags & 8 != 0,
        offset: PdbInternalSectionOffset {
            offset: word_at(bytes, 4),
            section: half_at(bytes, 8),
        },
        name,
    }
}

#[tactic(auto, unfolding(crate::specs::Records::procedure_symbol_at))]
fn parse_procedure(kind: u16, payload: &[u8]) -> Result<SymbolData<'_>>
    ensures { Parses symbol_form result
        (as_form forms.Procedure (procedure_symbol_at kind payload.now)) }
{
    let name = name_behind(kind, 35, payload)?;
    Ok(SymbolData::Procedure(procedure_in(kind, payload, name)))
}

/// The procedure, from the 35 bytes before its name.
fn procedure_in<'t>(kind: u16, bytes: &[u8], name: RawString<'t>) -> ProcedureSymbol<'t>
    requires { 35 ≤ length bytes.now }
    ensures { procedure_form result ≡ procedure_of_front kind bytes.now (raw_bytes name.entry) }
{
    ProcedureSymbol {
        global: is_global(kind),
        dpc: is_dpc(kind),
        parent: optional_index(word_at(bytes, 0)),
        end: SymbolIndex(word_at(bytes, 4)),
        next: optional_index(word_at(bytes, 8)),
        len: word_at(bytes, 12),
        dbg_start_offset: word_at(bytes, 16),
        dbg_end_offset: word_at(bytes, 20),
        type_index: TypeIndex(word_at(bytes, 24)),
        offset: PdbInternalSectionOffset {
            offset: word_at(bytes, 28),
            section: half_at(bytes, 32),
        },
        flags: bytes[34],
        name,
    }
}

#[tactic(auto, unfolding(crate::specs::Records::thunk_of))]
fn parse_thunk(kind: u16, payload: &[u8]) -> Result<SymbolData<'_>>
    ensures { Parses symbol_form result (as_form forms.Thunk (thunk_of kind payload.now)) }
{
    let name = name_behind(kind, 21, payload)?;
    Ok(SymbolData::Thunk(thunk_in(payload, name)))
}

/// The thunk, from the 21 bytes before its name.
fn thunk_in<'t>(bytes: &[u8], name: RawString<'t>) -> ThunkSymbol<'t>
    requires { 21 ≤ length bytes.now }
    ensures { thunk_form result ≡ thunk_of_front bytes.now (raw_bytes name.entry) }
{
    ThunkSymbol {
        parent: optional_index(word_at(bytes, 0)),
        end: SymbolIndex(word_at(bytes, 4)),
        next: optional_index(word_at(bytes, 8)),
        offset: PdbInternalSectionOffset {
            offset: word_at(bytes, 12),
            section: half_at(bytes, 16),
        },
        len: half_at(bytes, 18),
        kind: bytes[20],
        name,
    }
}

#[tactic(auto, unfolding(crate::specs::Records::separated_code_of))]
fn parse_separated_code(payload: &[u8]) -> Result<SymbolData<'_>>
    ensures { Parses symbol_form result
        (as_form forms.SeparatedCode (separated_code_of payload.now)) }
{
    if payload.len() < 28 {
        return Err(Error::UnexpectedEof);
    }
    Ok(SymbolData::SeparatedCode(separated_code_in(payload)))
}

/// The separated code, from its 28 bytes.
fn separated_code_in(bytes: &[u8]) -> SeparatedCodeSymbol
    requires { 28 ≤ length bytes.now }
    ensures { result ≡ separated_code_of_front bytes.now }
{
    SeparatedCodeSymbol {
        parent: optional_index(word_at(bytes, 0)),
        end: SymbolIndex(word_at(bytes, 4)),
        len: word_at(bytes, 8),
        flags: word_at(bytes, 12),
        offset: PdbInternalSectionOffset {
            offset: word_at(bytes, 16),
            section: half_at(bytes, 24),
        },
        parent_offset: PdbInternalSectionOffset {
            offset: word_at(bytes, 20),
            section: half_at(bytes, 26),
        },
    }
}

/// The number of bytes of an inline site before its annotations.
fn inline_site_size(kind: u16) -> usize
    ensures size { result ≡ inline_site_front kind }
    ensures bound { 12 ≤ result }
{
    if kind == S_INLINESITE2 { 16 } else { 12 }
}

/// The number of invocations of an inlined call, which the newer kind states.
fn invocations_in(kind: u16, bytes: &[u8]) -> Option<u32>
    requires { inline_site_front kind ≤ length bytes.now }
    ensures { result ≡ invocations_of kind bytes.now }
{
    if kind != S_INLINESITE2 {
        return None;
    }
    Some(word_at(bytes, 12))
}

#[tactic(auto, unfolding(crate::specs::Records::inline_site_of))]
fn parse_inline_site(kind: u16, payload: &[u8]) -> Result<SymbolData<'_>>
    ensures { Parses symbol_form result
        (as_form forms.InlineSite (inline_site_of kind payload.now)) }
{
    if payload.len() < inline_site_size(kind) {
        return Err(Error::UnexpectedEof);
    }
    Ok(SymbolData::InlineSite(inline_site_in(kind, payload)))
}

/// The inline site, of which the bytes before the annotations are all there.
fn inline_site_in(kind: u16, bytes: &[u8]) -> InlineSiteSymbol<'_>
    requires { inline_site_front kind ≤ length bytes.now }
    ensures { inline_site_form result ≡ inline_site_of_front kind bytes.now }
{
    let size = inline_site_size(kind);
    InlineSiteSymbol {
        parent: optional_index(word_at(bytes, 0)),
        end: SymbolIndex(word_at(bytes, 4)),
        inlinee: IdIndex(word_at(bytes, 8)),
        invocations: invocations_in(kind, bytes),
        annotations: BinaryAnnotations::new(&bytes[size..]),
    }
}
