//! Kinds of CodeView symbols (`S_*`, SYM_ENUM_e of microsoft-pdb's cvinfo.h), as numbers. `_ST`
//! marks an older form, whose name is a Pascal string.

ghost use Rattle.std.specs.Prelude.{◌≡◌};
ghost use Rattle.pdb_symbol_records.specs.Kinds.{is_padding as is_padding_kind};
ghost use Rattle.pdb_symbol_records.specs.Kinds.{is_public as is_public_kind};
ghost use Rattle.pdb_symbol_records.specs.Kinds.{is_global as is_global_kind};
ghost use Rattle.pdb_symbol_records.specs.Kinds.{is_dpc as is_dpc_kind};
ghost use Rattle.pdb_symbol_records.specs.Kinds.{is_procedure as is_procedure_kind};
ghost use Rattle.pdb_symbol_records.specs.Kinds.{is_thunk as is_thunk_kind};
ghost use Rattle.pdb_symbol_records.specs.Kinds.{is_separated_code as is_separated_code_kind};
ghost use Rattle.pdb_symbol_records.specs.Kinds.{is_inline_site as is_inline_site_kind};
ghost use Rattle.pdb_symbol_records.specs.Kinds.{starts_scope as starts_scope_kind};
ghost use Rattle.pdb_symbol_records.specs.Kinds.{ends_scope as ends_scope_kind};
ghost use Rattle.pdb_symbol_records.specs.Kinds.{has_form as has_form_kind};

/// The end of a scope (0x0006).
pub const S_END: u16 = 0x0006;

/// Padding between symbols (0x0007).
pub const S_SKIP: u16 = 0x0007;

/// A thunk, in the older form (0x0206).
pub const S_THUNK32_ST: u16 = 0x0206;

/// Padding between symbols (0x0402).
pub const S_ALIGN: u16 = 0x0402;

/// A public symbol, in the older form (0x1009).
pub const S_PUB32_ST: u16 = 0x1009;

/// A procedure of one module, in the older form (0x100a).
pub const S_LPROC32_ST: u16 = 0x100a;

/// A procedure that other modules see, in the older form (0x100b).
pub const S_GPROC32_ST: u16 = 0x100b;

/// A thunk (0x1102).
pub const S_THUNK32: u16 = 0x1102;

/// A public symbol (0x110e).
pub const S_PUB32: u16 = 0x110e;

/// A procedure of one module (0x110f).
pub const S_LPROC32: u16 = 0x110f;

/// A procedure that other modules see (0x1110).
pub const S_GPROC32: u16 = 0x1110;

/// Separated code of a procedure, which lies apart from it (0x1132).
pub const S_SEPCODE: u16 = 0x1132;

/// A procedure of one module, whose type is an id (0x1146).
pub const S_LPROC32_ID: u16 = 0x1146;

/// A procedure that other modules see, whose type is an id (0x1147).
pub const S_GPROC32_ID: u16 = 0x1147;

/// An inline site: an inlined call (0x114d).
pub const S_INLINESITE: u16 = 0x114d;

/// The end of an inline site (0x114e).
pub const S_INLINESITE_END: u16 = 0x114e;

/// The end of a procedure whose type is an id (0x114f).
pub const S_PROC_ID_END: u16 = 0x114f;

/// A deferred procedure call (DPC) of one module (0x1155).
pub const S_LPROC32_DPC: u16 = 0x1155;

/// A deferred procedure call (DPC) of one module, whose type is an id (0x1156).
pub const S_LPROC32_DPC_ID: u16 = 0x1156;

/// An inline site, with the number of its invocations (0x115d).
pub const S_INLINESITE2: u16 = 0x115d;

/// Whether the kind is that of padding between symbols.
pub fn is_padding(kind: u16) -> bool
    ensures { result ≡ is_padding_kind kind }
{
    kind == S_ALIGN || kind == S_SKIP
}

/// Whether the kind is a public symbol's.
pub fn is_public(kind: u16) -> bool
    ensures { result ≡ is_public_kind kind }
{
    kind == S_PUB32 || kind == S_PUB32_ST
}

/// Whether the kind is that of a procedure that other modules see.
pub fn is_global(kind: u16) -> bool
    ensures { result ≡ is_global_kind kind }
{
    kind == S_GPROC32 || kind == S_GPROC32_ST || kind == S_GPROC32_ID
}

/// Whether the kind is that of a deferred procedure call (DPC).
pub fn is_dpc(kind: u16) -> bool
    ensures { result ≡ is_dpc_kind kind }
{
    kind == S_LPROC32_DPC || kind == S_LPROC32_DPC_ID
}

/// Whether the kind is a procedure's.
pub fn is_procedure(kind: u16) -> bool
    ensures { result ≡ is_procedure_kind kind }
{
    is_global(kind)
        || is_dpc(kind)
        || kind == S_LPROC32
        || kind == S_LPROC32_ST
        || kind == S_LPROC32_ID
}

/// Whether the kind is a thunk's.
pub fn is_thunk(kind: u16) -> bool
    ensures { result ≡ is_thunk_kind kind }
{
    kind == S_THUNK32 || kind == S_THUNK32_ST
}

/// Whether the kind is that of separated code.
pub fn is_separated_code(kind: u16) -> bool
    ensures { result ≡ is_separated_code_kind kind }
{
    kind == S_SEPCODE
}

/// Whether the kind is an inline site's.
pub fn is_inline_site(kind: u16) -> bool
    ensures { result ≡ is_inline_site_kind kind }
{
    kind == S_INLINESITE || kind == S_INLINESITE2
}

/// Whether the kind is that of a symbol in which others may lie: a procedure, a thunk, separated
/// code or an inline site.
pub fn starts_scope(kind: u16) -> bool
    ensures { result ≡ starts_scope_kind kind }
{
    is_procedure(kind) || is_thunk(kind) || is_separated_code(kind) || is_inline_site(kind)
}

/// Whether the kind is that of the end of such a symbol.
pub fn ends_scope(kind: u16) -> bool
    ensures { result ≡ ends_scope_kind kind }
{
    kind == S_END || kind == S_INLINESITE_END || kind == S_PROC_ID_END
}

/// Whether a symbol of the kind has a form, which is read.
pub fn has_form(kind: u16) -> bool
    ensures { result ≡ has_form_kind kind }
{
    is_public(kind) || starts_scope(kind) || ends_scope(kind)
}
