use crate::bytes::{overwrite, push_text, push_u16, push_u32};
use crate::error::Result;
use std::alloc::Global;

/// The first index of a table.
const FIRST_INDEX: u32 = 0x1000;

/// The first numbers of a table's header: the version, the header's size and the first index.
const HEADER: [u32; 3] = [20040203, 56, FIRST_INDEX];

/// The rest of the header after the size of the records: no hash stream, four-byte keys, and no
/// lists.
const HASHES: [u32; 9] = [0xffff_ffff, 4, 0x3_ffff, 0, 0, 0, 0, 0, 0];

/// A record of a table of types or of ids. Indices are numbers; 0 is none where there may be none.
#[derive(Clone, Copy)]
pub enum Record {
    /// The type of a function.
    Procedure {
        return_type: u32,
        attributes: u16,
        arguments: u32,
    },
    /// The types of arguments.
    ArgumentList(&'static [u32]),
    /// The id of a function.
    FunctionId {
        scope: u32,
        function_type: u32,
        name: &'static [u8],
    },
}

/// The table of types or of ids: the records with their lengths, and their number.
#[derive(Drop)]
pub struct ItemTable {
    pub records: Vec<u8>,
    pub count: u32,
}

impl ItemTable {
    /// A table without records.
    pub fn new(alloc: Global) -> ItemTable {
        ItemTable {
            records: Vec::new(alloc),
            count: 0,
        }
    }

    /// Appends a record.
    fn push(&mut self, record: &Record) -> Result<()> {
        let start = self.records.len();
        push_u16(&mut self.records, &[0])?;
        record.push(&mut self.records)?;
        let length = self.records.len().saturating_sub(start).saturating_sub(2);
        let length = u16::try_from(length)?;
        overwrite(self.records.as_mut_slice(), start, &length.to_le_bytes())?;
        self.count = self.count.saturating_add(1);
        Ok(())
    }

    /// Appends records one after another.
    pub(crate) fn extend(&mut self, records: &[Record]) -> Result<()> {
        for record in records {
            self.push(record)?;
        }
        Ok(())
    }

    /// Appends the table's stream.
    pub(crate) fn push_stream(&self, bytes: &mut Vec<u8>) -> Result<()> {
        push_u32(bytes, &HEADER)?;
        let size = u32::try_from(self.records.len())?;
        push_u32(bytes, &[FIRST_INDEX.saturating_add(self.count), size])?;
        push_u32(bytes, &HASHES)?;
        bytes.extend_from_slice(self.records.as_slice())?;
        Ok(())
    }
}

impl Record {
    /// Appends the record's leaf and what follows it.
    fn push(&self, bytes: &mut Vec<u8>) -> Result<()> {
        match self {
            Record::Procedure {
                return_type,
                attributes,
                arguments,
            } => {
                push_u16(bytes, &[0x1008])?;
                push_u32(bytes, &[*return_type])?;
                push_u16(bytes, &[*attributes, 0])?;
                push_u32(bytes, &[*arguments])
            }
            Record::ArgumentList(indices) => push_list(bytes, *indices),
            Record::FunctionId {
                scope,
                function_type,
                name,
            } => {
                push_u16(bytes, &[0x1601])?;
                push_u32(bytes, &[*scope, *function_type])?;
                push_text(bytes, *name)
            }
        }
    }
}

/// Appends a list of arguments after their count.
fn push_list(bytes: &mut Vec<u8>, indices: &[u32]) -> Result<()> {
    push_u16(bytes, &[0x1201])?;
    push_u32(bytes, &[u32::try_from(indices.len())?])?;
    push_u32(bytes, indices)
}
