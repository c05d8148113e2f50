use crate::bytes::{push_text, push_u16, push_u32};
use crate::container::PageOrder;
use crate::database::ProgramDatabase;
use crate::debug_information::{DebugInformation, Module, NO_STREAM};
use crate::error::{Result, SampleError};
use crate::line_data::{BLOCK_SIZE, CHECKSUMS_OF_F, lines_of_f};
use crate::records::ItemTable;
use crate::symbols::{FIRST_PLACE, Procedure, begin_record, end_record, push_end, push_record};
use std::alloc::Global;

pub(crate) const SCOPE_END: u16 = 0x0006;

const THUNK: u16 = 0x1102;

const SEPARATED_CODE: u16 = 0x1132;

const PUBLIC: u16 = 0x110e;

pub(crate) const INLINE_SITE: u16 = 0x114d;

pub(crate) const INLINE_SITE_END: u16 = 0x114e;

/// The payload of a thunk `t` at 0x34 of section 1, of length 6. Its end isn't known yet.
const THUNK_T: &[u8; 23] = b"\0\0\0\0\0\0\0\0\0\0\0\0\x34\0\0\0\x01\0\x06\0\0t\0";

/// The payload of separated code, all zeros. Its end isn't known yet.
const SEPARATED: &[u8; 28] = &[0; 28];

/// The payload of an inline site in the record at 4, of the inlinee 0x1000 and without annotations.
/// Its end isn't known yet.
const SITE: &[u8; 12] = b"\x04\0\0\0\0\0\0\0\0\x10\0\0";

/// The header of file F's section: 0x100 bytes at 0x1000 that may be run and read.
const TEXT: &[u8; 40] = b".text\0\0\0\0\x01\0\0\0\x10\0\0\0\0\0\0\0\0\0\0\
    \0\0\0\0\0\0\0\0\0\0\0\0\x20\0\0\x60";

/// The contribution of module 0 to section 1: its first 0x40 bytes.
const CODE: [u32; 7] = [1, 0, 0x40, 0x6000_0020, 0, 0, 0];

/// The second contribution of module 0, where there is one.
const SECOND: [u32; 7] = [1, 0x80, 0x10, 0x6000_0020, 0, 0, 0];

/// The number of the debug information's stream.
const DEBUG_STREAM: usize = 3;

/// The number of the first further stream, after module 0's and the names table.
const FURTHER_STREAM: u16 = 9;

/// The difference of a file from file F0.
#[derive(Clone, Copy)]
pub enum Change {
    /// None: it is file F0.
    Nothing,
    /// Line data, as in file F.
    LineData,
    /// Line data whose block of lines says that it has eight bytes, fewer than its own header.
    ShortLineBlock,
    /// Four bytes of the older line data.
    OlderLines,
    /// Another name of its procedure.
    Name(&'static [u8]),
    /// A type of its procedure.
    TypedProcedure(u32),
    /// A procedure `g` in `f`, at 0x18 of length 8.
    NestedProcedure,
    /// An inline site in `f`, of the inlinee 0x1000 and without annotations.
    InlineSite,
    /// A thunk `t` after `f`, at 0x34 of length 6.
    Thunk,
    /// Separated code after `f`.
    SeparatedCode,
    /// A public symbol of a function at this place of section 1.
    PublicSymbol(u32, &'static [u8]),
    /// A second contribution of its module, at 0x80 of size 0x10.
    SecondContribution,
    /// A second module without a stream.
    MissingModule,
    /// Its optional header names a further stream at this place. The stream is empty.
    FurtherStream(usize),
    /// Its streams' pages lie in descending order. The debug information has three pages.
    PermutedPages,
    /// Its directory has three pages, in descending order: a hundred and twenty further streams are
    /// absent or empty in turn.
    DirectoryReordered,
    /// All that a reader needs lies past its first 4096 bytes: its streams' pages lie in descending
    /// order, after a further stream of 4096 zeros.
    Long,
}

/// One executable section at 0x1000 of size 0x100, of which module 0 contributes the first 0x40
/// bytes. In it lies the procedure `f` at 0x10, of length 0x20 and no type. Its rows are line 5 at
/// 0x10 and line 7 at 0x18, of the file `a.c`.
///
/// # Errors
/// `OutOfMemory`.
pub fn file_f(alloc: Global) -> Result<ProgramDatabase> {
    file_with(alloc, Change::LineData)
}

/// File F with a block of lines that says that it has eight bytes, fewer than its own header.
///
/// # Errors
/// `OutOfMemory`.
pub fn short_line_block(alloc: Global) -> Result<Vec<u8>> {
    file_with(alloc, Change::ShortLineBlock)?.bytes(alloc)
}

/// File F0 with one change. File F0 is file F without line data.
///
/// # Errors
/// `DoesNotFit` where a place past the optional header is asked for; `OutOfMemory`.
pub fn file_with(alloc: Global, change: Change) -> Result<ProgramDatabase> {
    let mut records = Vec::new(alloc);
    push_symbols(&mut records, change)?;
    let mut database = empty(alloc);
    fill(alloc, &mut database, change, records)?;
    Ok(database)
}

/// A module with a stream of these symbol records alone, linked from the file of its name.
///
/// # Errors
/// `OutOfMemory`.
pub fn module_of_symbols(alloc: Global, name: &[u8], records: Vec<u8>) -> Result<Module> {
    let mut module = Module {
        name: Vec::new(alloc),
        object_name: Vec::new(alloc),
        symbols: records,
        c11: Vec::new(alloc),
        c13: Vec::new(alloc),
        has_stream: true,
    };
    set_names(&mut module, name)?;
    Ok(module)
}

fn set_names(module: &mut Module, name: &[u8]) -> Result<()> {
    module.name.extend_from_slice(name)?;
    module.object_name.extend_from_slice(name)?;
    Ok(())
}

/// A database without sections, modules and names.
fn empty(alloc: Global) -> ProgramDatabase {
    ProgramDatabase {
        page_size: 0x100,
        order: PageOrder::Natural,
        debug: debug_information(alloc),
        types: ItemTable::new(alloc),
        ids: ItemTable::new(alloc),
        sections: Vec::new(alloc),
        modules: Vec::new(alloc),
        symbol_records: Vec::new(alloc),
        names: Vec::new(alloc),
        further_streams: Vec::new(alloc),
    }
}

fn debug_information(alloc: Global) -> DebugInformation {
    DebugInformation {
        machine: 0x8664,
        symbol_records: 5,
        contributions: Vec::new(alloc),
        optional_header: Vec::new(alloc),
    }
}

/// Adds the parts of the file, with these symbol records.
fn fill(
    alloc: Global,
    database: &mut ProgramDatabase,
    change: Change,
    records: Vec<u8>,
) -> Result<()> {
    let module = module_of_symbols(alloc, b"a.obj", records)?;
    database.modules.push(module)?;
    database.names.extend_from_slice(b"\0a.c\0")?;
    fill_addresses(database)?;
    change.apply(alloc, database)
}

/// Adds the section, the contribution and the optional header.
fn fill_addresses(database: &mut ProgramDatabase) -> Result<()> {
    database.sections.extend_from_slice(TEXT)?;
    let debug = &mut database.debug;
    push_u32(&mut debug.contributions, &CODE)?;
    debug.optional_header.resize(11, NO_STREAM)?;
    set_number(debug, 5, 6)
}

/// Appends the record of `f`, of this type and name.
fn push_f(records: &mut Vec<u8>, type_index: u32, name: &[u8]) -> Result<()> {
    let procedure = Procedure {
        parent: 0,
        offset: 0x10,
        length: 0x20,
        type_index,
        name,
    };
    procedure.push(records)
}

/// Appends a procedure `g` in `f`, at 0x18 of length 8.
fn push_g(records: &mut Vec<u8>) -> Result<()> {
    let start = records.len();
    let procedure = Procedure {
        parent: FIRST_PLACE,
        offset: 0x18,
        length: 8,
        type_index: 0,
        name: b"g",
    };
    procedure.push(records)?;
    push_end(records, start, SCOPE_END)
}

/// Appends a scope with nothing in it.
pub(crate) fn push_scope(records: &mut Vec<u8>, kind: u16, payload: &[u8], end: u16) -> Result<()> {
    let start = records.len();
    push_record(records, kind, payload)?;
    push_end(records, start, end)
}

/// Appends the symbols of the file's module to an empty list.
fn push_symbols(records: &mut Vec<u8>, change: Change) -> Result<()> {
    match change {
        Change::Name(name) => push_f(records, 0, name)?,
        Change::TypedProcedure(type_index) => push_f(records, type_index, b"f")?,
        _ => push_f(records, 0, b"f")?,
    }
    match change {
        Change::NestedProcedure => push_g(records)?,
        Change::InlineSite => push_scope(records, INLINE_SITE, SITE, INLINE_SITE_END)?,
        _ => {}
    }
    push_end(records, 0, SCOPE_END)?;
    match change {
        Change::Thunk => push_scope(records, THUNK, THUNK_T, SCOPE_END),
        Change::SeparatedCode => push_scope(records, SEPARATED_CODE, SEPARATED, SCOPE_END),
        _ => Ok(()),
    }
}

impl Change {
    /// Changes file F0, but for its symbols.
    fn apply(self, alloc: Global, database: &mut ProgramDatabase) -> Result<()> {
        match self {
            Change::LineData
            | Change::ShortLineBlock
            | Change::OlderLines
            | Change::PermutedPages => self.change_module(database),
            Change::PublicSymbol(offset, name) => {
                push_public(&mut database.symbol_records, offset, name)
            }
            Change::SecondContribution => push_u32(&mut database.debug.contributions, &SECOND),
            Change::MissingModule => push_second_module(alloc, &mut database.modules),
            Change::FurtherStream(place) => {
                set_number(&mut database.debug, place, FURTHER_STREAM)?;
                database.further_streams.push(Some(Vec::new(alloc)))?;
                Ok(())
            }
            Change::DirectoryReordered | Change::Long => self.add_streams(alloc, database),
            _ => Ok(()),
        }
    }

    fn change_module(self, database: &mut ProgramDatabase) -> Result<()> {
        let Some(module) = database.modules.first_mut() else {
            return Ok(());
        };
        match self {
            Change::LineData => push_lines(module, BLOCK_SIZE),
            Change::ShortLineBlock => push_lines(module, 8),
            Change::OlderLines => push_u32(&mut module.c11, &[0]),
            _ => {
                module.object_name.resize(400, b'x')?;
                database.order = PageOrder::StreamsReversed;
                Ok(())
            }
        }
    }

    fn add_streams(self, alloc: Global, database: &mut ProgramDatabase) -> Result<()> {
        if let Change::Long = self {
            database.order = PageOrder::StreamsReversed;
            return push_zeros(alloc, &mut database.further_streams);
        }
        for _ in 0..60 {
            database.further_streams.push(None)?;
            database.further_streams.push(Some(Vec::new(alloc)))?;
        }
        database.order = PageOrder::DirectoryReversed;
        Ok(())
    }
}

/// Adds the line data of file F, whose block of lines says that it has `block_size` bytes.
fn push_lines(module: &mut Module, block_size: u32) -> Result<()> {
    push_u32(&mut module.c13, &CHECKSUMS_OF_F)?;
    push_u32(&mut module.c13, &lines_of_f(block_size))
}

/// Adds a stream of 4096 zeros.
fn push_zeros(alloc: Global, streams: &mut Vec<Option<Vec<u8>>>) -> Result<()> {
    streams.push(Some(vec![in alloc; 0u8; 4096]?))?;
    Ok(())
}

/// Adds a module without a stream.
fn push_second_module(alloc: Global, modules: &mut Vec<Module>) -> Result<()> {
    let mut module = module_of_symbols(alloc, b"b.obj", Vec::new(alloc))?;
    module.has_stream = false;
    modules.push(module)?;
    Ok(())
}

/// Names a stream at a place of the optional header.
fn set_number(debug: &mut DebugInformation, place: usize, stream: u16) -> Result<()> {
    match debug.optional_header.get_mut(place) {
        Some(number) => *number = stream,
        None => return Err(SampleError::DoesNotFit),
    }
    Ok(())
}

/// Appends the record of a public symbol of a function in section 1.
fn push_public(records: &mut Vec<u8>, offset: u32, name: &[u8]) -> Result<()> {
    let start = begin_record(records, PUBLIC)?;
    push_u32(records, &[2, offset])?;
    push_u16(records, &[1])?;
    push_text(records, name)?;
    end_record(records, start)
}

/// File F0 cut a hundred bytes after its debug information begins. This comes after all the rest,
/// also after a further stream of 4096 zeros. More than 4096 bytes are left.
///
/// # Errors
/// `OutOfMemory`.
pub fn cut_dbi(alloc: Global) -> Result<Vec<u8>> {
    let mut database = file_with(alloc, Change::Long)?;
    database.order = PageOrder::StreamLast(DEBUG_STREAM);
    let mut file = database.bytes(alloc)?;
    file.truncate(file.len().saturating_sub(0x100 - 100));
    Ok(file)
}
