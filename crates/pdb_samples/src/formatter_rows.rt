use crate::bytes::push_u32;
use crate::database::ProgramDatabase;
use crate::debug_information::Module;
use crate::error::Result;
use crate::line_data::{BLOCK_SIZE, lines_of_f};
use crate::records::Record;
use crate::rows::{
    Change, INLINE_SITE, INLINE_SITE_END, SCOPE_END, file_with, module_of_symbols, push_scope,
};
use crate::symbols::{Procedure, push_end};
use std::alloc::Global;

/// The payload of an inline site in the record at 4, of the inlinee 0x80000000, with one row of
/// eight bytes at its procedure's start. Its end isn't known yet.
const SITE: &[u8; 15] = b"\x04\0\0\0\0\0\0\0\0\0\0\x80\x0c\x08\0";

/// The names: nothing at 0, `a.c` at 1, `c.obj` at 5 and `b.h` at 11.
const NAMES: &[u8] = b"\0a.c\0c.obj\0b.h\0";

/// The second module's contribution to section 1: 0x40 bytes at 0x80.
const SECOND: [u32; 7] = [1, 0x80, 0x40, 0x6000_0020, 1, 0, 0];

/// The checksums of the first module, in numbers of four bytes, written by hand from the format: of
/// file F's file and of a file `b.h`.
#[rattlefmt::skip]
const FIRST_CHECKSUMS: [u32; 6] = [
    // DEBUG_S_FILECHKSMS of 0x10 bytes: the names at 1 and 0xb, no checksums.
    0xf4, 0x10, 0x01, 0x00, 0x0b, 0x00,
];

/// The subsections after file F's lines in the first module: its inlinee at line 3 of `b.h`, and an
/// import from `c.obj`.
#[rattlefmt::skip]
const FIRST_INLINEES: [u32; 11] = [
    // DEBUG_S_INLINEELINES of 0x10 bytes, without further files: the inlinee, its file at 8, its
    // line.
    0xf6, 0x10, 0x00, 0x8000_0000, 0x08, 0x03,
    // DEBUG_S_CROSSSCOPEIMPORTS of 0xc bytes: from the module named at 5, one import.
    0xf7, 0x0c, 0x05, 0x01, 0x8000_1000,
];

/// The line data of the second module: a file `b.h`, its inlinee at line 4 of `b.h`, and another
/// import from `c.obj`.
#[rattlefmt::skip]
const SECOND_LINES: [u32; 15] = [
    // DEBUG_S_FILECHKSMS of 8 bytes: the name at 0xb, no checksum.
    0xf4, 0x08, 0x0b, 0x00,
    // DEBUG_S_INLINEELINES of 0x10 bytes, without further files: the inlinee, its file at 0, its
    // line.
    0xf6, 0x10, 0x00, 0x8000_0000, 0x00, 0x04,
    // DEBUG_S_CROSSSCOPEIMPORTS of 0xc bytes: from the module named at 5, one import.
    0xf7, 0x0c, 0x05, 0x01, 0x8000_1001,
];

/// The line data of `c.obj`: its exports.
#[rattlefmt::skip]
const EXPORTS: [u32; 6] = [
    // DEBUG_S_CROSSSCOPEEXPORTS of 0x10 bytes: pairs of a local and a global index.
    0xf8, 0x10, 0x8000_1000, 0x1000, 0x8000_1001, 0x1001,
];

/// No arguments, and a function without arguments that returns nothing.
pub(crate) const TYPES: &[Record] = &[
    Record::ArgumentList(&[]),
    Record::Procedure {
        return_type: 3,
        attributes: 0,
        arguments: 0x1000,
    },
];

/// Two such functions.
pub(crate) const IDS: &[Record] = &[
    Record::FunctionId {
        scope: 0,
        function_type: 0x1001,
        name: b"g",
    },
    Record::FunctionId {
        scope: 0,
        function_type: 0x1001,
        name: b"h",
    },
];

/// File F0 with these types and ids.
pub(crate) fn file_of_items(
    alloc: Global,
    types: &[Record],
    ids: &[Record],
) -> Result<ProgramDatabase> {
    let mut database = file_with(alloc, Change::Nothing)?;
    database.types.extend(types)?;
    database.ids.extend(ids)?;
    Ok(database)
}

/// Three modules with file F's section. The first two are `a.obj` with `f`, and `b.obj` with a
/// procedure `k` at 0x90 of length 0x20. Both have an inline site of the same inlinee, 0x80000000,
/// which each imports from the third, `c.obj`: the functions `g` and `h`.
///
/// # Errors
/// `OutOfMemory`.
pub fn cross_imports(alloc: Global) -> Result<Vec<u8>> {
    imports(alloc, true)?.bytes(alloc)
}

/// The database of [`cross_imports`], where the third module has no stream, and so no exports.
///
/// # Errors
/// `OutOfMemory`.
pub fn imports_of_no_stream(alloc: Global) -> Result<Vec<u8>> {
    imports(alloc, false)?.bytes(alloc)
}

/// The database of [`cross_imports`], where the third module has a stream or has none.
fn imports(alloc: Global, has_stream: bool) -> Result<ProgramDatabase> {
    let mut database = file_of_items(alloc, TYPES, IDS)?;
    database.names.clear();
    database.names.extend_from_slice(NAMES)?;
    push_u32(&mut database.debug.contributions, &SECOND)?;
    database.modules.clear();
    let mut first = module_with_site(alloc, b"a.obj", b"f", 0x10, &FIRST_CHECKSUMS)?;
    push_u32(&mut first.c13, &lines_of_f(BLOCK_SIZE))?;
    push_u32(&mut first.c13, &FIRST_INLINEES)?;
    database.modules.push(first)?;
    let second = module_with_site(alloc, b"b.obj", b"k", 0x90, &SECOND_LINES)?;
    database.modules.push(second)?;
    let mut third = module_of_symbols(alloc, b"c.obj", Vec::new(alloc))?;
    push_u32(&mut third.c13, &EXPORTS)?;
    third.has_stream = has_stream;
    database.modules.push(third)?;
    Ok(database)
}

/// A module of one procedure, which has length 0x20 and an inline site, and of these line data.
fn module_with_site(
    alloc: Global,
    name: &[u8],
    procedure: &[u8],
    offset: u32,
    lines: &[u32],
) -> Result<Module> {
    let mut records = Vec::new(alloc);
    let symbol = Procedure {
        parent: 0,
        offset,
        length: 0x20,
        type_index: 0,
        name: procedure,
    };
    symbol.push(&mut records)?;
    push_scope(&mut records, INLINE_SITE, SITE, INLINE_SITE_END)?;
    push_end(&mut records, 0, SCOPE_END)?;
    let mut module = module_of_symbols(alloc, name, records)?;
    push_u32(&mut module.c13, lines)?;
    Ok(module)
}
