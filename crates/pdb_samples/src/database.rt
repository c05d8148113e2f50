use crate::bytes::push_u32;
use crate::container::{Container, PageOrder};
use crate::debug_information::{DebugInformation, Module};
use crate::error::Result;
use crate::records::ItemTable;
use std::alloc::Global;

/// The number of the first module's stream. Ahead of it lie the old directory, the information,
/// the types, the debug information, the ids, the symbol records and the section headers.
const FIRST_MODULE_STREAM: u16 = 7;

/// The first numbers of the information stream: the version, a signature, an age and the GUID.
const INFORMATION: [u32; 7] = [20000404, 1, 1, 0, 0, 0, 0];

/// The one name of a stream, after the size of all names.
const NAMES: &[u8; 11] = b"\x07\0\0\0/names\0";

/// The first numbers of the names table, ahead of its size.
const NAMES_HEADER: [u32; 2] = [0xeffe_effe, 1];

/// The streams of a file, and `None` for an absent one.
type Streams = Vec<Option<Vec<u8>>>;

/// A program database. After the first seven streams come the streams of the modules that have one,
/// the names table, and the further streams.
pub struct ProgramDatabase {
    /// The size of a page, in bytes.
    pub page_size: u32,
    /// The order in which the pages lie.
    pub order: PageOrder,
    /// The DBI stream, but for the modules.
    pub debug: DebugInformation,
    /// The table of types (TPI).
    pub types: ItemTable,
    /// The table of ids (IPI).
    pub ids: ItemTable,
    /// The headers of the sections.
    pub sections: Vec<u8>,
    /// The modules, in the order of their list.
    pub modules: Vec<Module>,
    /// The bytes of the symbol records.
    pub symbol_records: Vec<u8>,
    /// The names of the names table, each with the zero byte that ends it.
    pub names: Vec<u8>,
    /// The streams after these, and `None` for an absent one.
    pub further_streams: Vec<Option<Vec<u8>>>,
}

impl Drop for ProgramDatabase {
    fn drop(self) {
        let ProgramDatabase {
            page_size: _,
            order: _,
            debug,
            types,
            ids,
            sections,
            modules,
            symbol_records,
            names,
            further_streams,
        } = self;
        drop((debug, types, ids, sections, modules));
        drop((symbol_records, names, further_streams));
    }
}

impl ProgramDatabase {
    /// The file's bytes.
    ///
    /// # Errors
    /// `DoesNotFit` where a number of the description doesn't fit its place; `OutOfMemory`.
    pub fn bytes(&self, alloc: Global) -> Result<Vec<u8>> {
        self.container(alloc)?.bytes(alloc)
    }

    /// The file's streams.
    ///
    /// # Errors
    /// `DoesNotFit` where a number of the description doesn't fit its place; `OutOfMemory`.
    pub fn container(&self, alloc: Global) -> Result<Container> {
        let mut streams = Vec::new(alloc);
        self.push_streams(alloc, &mut streams)?;
        Ok(Container {
            page_size: self.page_size,
            streams,
            order: self.order,
        })
    }

    /// The number of the names table's stream.
    fn names_stream(&self) -> u32 {
        let mut stream = u32::from(FIRST_MODULE_STREAM);
        for module in &self.modules {
            stream = stream.saturating_add(u32::from(module.has_stream));
        }
        stream
    }

    fn push_streams(&self, alloc: Global, streams: &mut Streams) -> Result<()> {
        self.push_fixed_streams(alloc, streams)?;
        self.push_module_streams(alloc, streams)?;
        self.push_names(alloc, streams)?;
        self.push_further_streams(alloc, streams)
    }

    fn push_fixed_streams(&self, alloc: Global, streams: &mut Streams) -> Result<()> {
        for number in 0..FIRST_MODULE_STREAM {
            let mut bytes = Vec::new(alloc);
            self.push_fixed(&mut bytes, number)?;
            streams.push(Some(bytes))?;
        }
        Ok(())
    }

    fn push_module_streams(&self, alloc: Global, streams: &mut Streams) -> Result<()> {
        for module in &self.modules {
            if module.has_stream {
                let mut bytes = Vec::new(alloc);
                module.push_stream(&mut bytes)?;
                streams.push(Some(bytes))?;
            }
        }
        Ok(())
    }

    fn push_further_streams(&self, alloc: Global, streams: &mut Streams) -> Result<()> {
        for stream in &self.further_streams {
            streams.push(copy(alloc, stream)?)?;
        }
        Ok(())
    }

    /// Appends the names table's stream.
    fn push_names(&self, alloc: Global, streams: &mut Streams) -> Result<()> {
        let mut table = Vec::new(alloc);
        push_u32(&mut table, &NAMES_HEADER)?;
        push_u32(&mut table, &[u32::try_from(self.names.len())?])?;
        table.extend_from_slice(self.names.as_slice())?;
        streams.push(Some(table))?;
        Ok(())
    }

    /// Writes the stream with an index below the modules' into an empty list of bytes.
    fn push_fixed(&self, bytes: &mut Vec<u8>, number: u16) -> Result<()> {
        match number {
            1 => self.push_information(bytes),
            2 => self.types.push_stream(bytes),
            4 => self.ids.push_stream(bytes),
            3 => self
                .debug
                .push(bytes, self.modules.as_slice(), FIRST_MODULE_STREAM),
            5 => Ok(bytes.extend_from_slice(self.symbol_records.as_slice())?),
            6 => Ok(bytes.extend_from_slice(self.sections.as_slice())?),
            _ => Ok(()),
        }
    }

    /// Appends the information stream. After the names comes their hash table: one pair of 32, at
    /// its first place.
    fn push_information(&self, bytes: &mut Vec<u8>) -> Result<()> {
        push_u32(bytes, &INFORMATION)?;
        bytes.extend_from_slice(NAMES)?;
        push_u32(bytes, &[1, 32, 1, 1, 0, 0, self.names_stream()])
    }
}

fn copy(alloc: Global, stream: &Option<Vec<u8>>) -> Result<Option<Vec<u8>>> {
    match stream {
        Some(bytes) => Ok(Some(Vec::from_slice(alloc, bytes.as_slice())?)),
        None => Ok(None),
    }
}
