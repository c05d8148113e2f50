use crate::bytes::{overwrite, pad_to, push_text, push_u16, push_u32};
use crate::error::Result;

/// The kind of a procedure that is known to all modules.
const GLOBAL_PROCEDURE: u16 = 0x1110;

/// The place of a module's first record in its stream, after the signature.
pub(crate) const FIRST_PLACE: u32 = 4;

/// The place of the end in a record that opens a scope: after its length, its kind and its parent.
const END: usize = 8;

/// A procedure of section 1, and the record in which it lies, or 0.
#[derive(Clone, Copy)]
pub(crate) struct Procedure<'t> {
    /// The place of the record in which it lies, or 0.
    pub parent: u32,
    /// The place at which its code begins in section 1, in bytes.
    pub offset: u32,
    /// The number of bytes of its code.
    pub length: u32,
    /// The index of its type; 0 for none.
    pub type_index: u32,
    /// Its name.
    pub name: &'t [u8],
}

impl Procedure<'_> {
    /// Appends the procedure's record, whose end isn't known yet.
    pub(crate) fn push(&self, records: &mut Vec<u8>) -> Result<()> {
        let start = begin_record(records, GLOBAL_PROCEDURE)?;
        push_u32(records, &[self.parent, 0, 0, self.length, 0, self.length])?;
        push_u32(records, &[self.type_index, self.offset])?;
        push_u16(records, &[1])?;
        records.push(0)?;
        push_text(records, self.name)?;
        end_record(records, start)
    }
}

/// Appends the record of this kind and payload, filled up with zero bytes to a multiple of four.
/// Its length counts these.
pub(crate) fn push_record(records: &mut Vec<u8>, kind: u16, payload: &[u8]) -> Result<()> {
    let start = begin_record(records, kind)?;
    records.extend_from_slice(payload)?;
    end_record(records, start)
}

/// Appends the end of the scope that the record at `start` of the records opens.
pub(crate) fn push_end(records: &mut Vec<u8>, start: usize, kind: u16) -> Result<()> {
    let place = FIRST_PLACE.saturating_add(u32::try_from(records.len())?);
    overwrite(
        records.as_mut_slice(),
        start.saturating_add(END),
        &place.to_le_bytes(),
    )?;
    push_record(records, kind, &[])
}

/// Appends a length that isn't known yet, and a kind. Returns the place at which the record begins.
pub(crate) fn begin_record(records: &mut Vec<u8>, kind: u16) -> Result<usize> {
    let start = records.len();
    push_u16(records, &[0])?;
    push_u16(records, &[kind])?;
    Ok(start)
}

/// Fills up the last record, which begins at `start`, and writes its length.
pub(crate) fn end_record(records: &mut Vec<u8>, start: usize) -> Result<()> {
    pad_to(records, 4)?;
    let length = records.len().saturating_sub(start).saturating_sub(2);
    let length = u16::try_from(length)?;
    overwrite(records.as_mut_slice(), start, &length.to_le_bytes())
}
