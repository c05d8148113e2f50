use crate::bytes::push_u32;
use crate::error::Result;
use crate::formatter_rows::{IDS, TYPES, file_of_items};
use crate::line_data::{BLOCK_SIZE, lines_of_f};
use crate::rows::{INLINE_SITE, INLINE_SITE_END, SCOPE_END, module_of_symbols, push_scope};
use crate::symbols::{Procedure, push_end, push_record};
use std::alloc::Global;

/// The payload of an inline site in the record at 4, of the inlinee 0x1000, with one row of four
/// bytes at its procedure's start. Its end isn't known yet.
const OUTER_SITE: &[u8; 15] = b"\x04\0\0\0\0\0\0\0\0\x10\0\0\x0c\x04\0";

/// The payload of an inline site in the record at 0x30, of the inlinee 0x1001, with one row of four
/// bytes at 8 from its procedure's start. Its end isn't known yet.
const INNER_SITE: &[u8; 15] = b"\x30\0\0\0\0\0\0\0\x01\x10\0\0\x0c\x04\x08";

/// The names: nothing at 0, `a.c` at 1, `b.h` at 5 and `c.h` at 9.
const NAMES: &[u8] = b"\0a.c\0b.h\0c.h\0";

/// The checksums of file F's file and two more, in numbers of four bytes, written by hand from the
/// format.
#[rattlefmt::skip]
const CHECKSUMS: [u32; 8] = [
    // DEBUG_S_FILECHKSMS of 0x18 bytes: the names at 1, 5 and 9, no checksums.
    0xf4, 0x18, 0x01, 0x00, 0x05, 0x00, 0x09, 0x00,
];

/// The inlinees: 0x1000 at line 3 of `b.h`, 0x1001 at line 9 of `c.h`.
#[rattlefmt::skip]
const INLINEES: [u32; 9] = [
    // DEBUG_S_INLINEELINES of 0x1c bytes, without further files: each inlinee, its file, its line.
    0xf6, 0x1c, 0x00, 0x1000, 0x08, 0x03, 0x1001, 0x10, 0x09,
];

/// File F with an inline site of `g` in `f` and one of `h` in `g`. The first has one row, at 0x10
/// of length 4, of line 3 of `b.h`; the other one at 0x18 of length 4, of line 9 of `c.h`.
///
/// # Errors
/// `OutOfMemory`.
pub fn nested_sites(alloc: Global) -> Result<Vec<u8>> {
    let mut records = Vec::new(alloc);
    push_symbols(&mut records)?;
    let mut module = module_of_symbols(alloc, b"a.obj", records)?;
    push_u32(&mut module.c13, &CHECKSUMS)?;
    push_u32(&mut module.c13, &lines_of_f(BLOCK_SIZE))?;
    push_u32(&mut module.c13, &INLINEES)?;
    let mut database = file_of_items(alloc, TYPES, IDS)?;
    database.names.clear();
    database.names.extend_from_slice(NAMES)?;
    database.modules.clear();
    database.modules.push(module)?;
    database.bytes(alloc)
}

/// Appends the symbols of its module to an empty list.
fn push_symbols(records: &mut Vec<u8>) -> Result<()> {
    let procedure = Procedure {
        parent: 0,
        offset: 0x10,
        length: 0x20,
        type_index: 0,
        name: b"f",
    };
    procedure.push(records)?;
    let outer = records.len();
    push_record(records, INLINE_SITE, OUTER_SITE)?;
    push_scope(records, INLINE_SITE, INNER_SITE, INLINE_SITE_END)?;
    push_end(records, outer, INLINE_SITE_END)?;
    push_end(records, 0, SCOPE_END)
}
