use crate::bytes::{pad_to, push_text, push_u16, push_u32, write_size};
use crate::error::{Result, SampleError};

const SIGNATURE: u32 = 0xffff_ffff;

const VERSION: u32 = 19990903;

/// The number with which a module's symbols begin.
const SYMBOLS_SIGNATURE: u32 = 4;

/// The version of contributions.
const CONTRIBUTIONS: u32 = 0xeffe_0000 + 19970605;

/// The number that names no stream.
pub(crate) const NO_STREAM: u16 = 0xffff;

/// The places of the sizes of the module list, the contributions and the optional header.
const SIZES: [usize; 3] = [24, 28, 48];

/// A module and its stream.
pub struct Module {
    /// The module's name.
    pub name: Vec<u8>,
    /// The name of the module's object file.
    pub object_name: Vec<u8>,
    /// The records of the module's symbols, after the usual signature.
    pub symbols: Vec<u8>,
    /// The bytes of the module's C11 line data.
    pub c11: Vec<u8>,
    /// The bytes of the module's C13 line data.
    pub c13: Vec<u8>,
    /// Whether the module has a stream. Without one its entry names none, but still has the sizes.
    pub has_stream: bool,
}

/// The debug information's stream, but for the modules.
#[derive(Drop)]
pub struct DebugInformation {
    /// The number of the image's machine.
    pub machine: u16,
    /// The number of the symbol records' stream.
    pub symbol_records: u16,
    /// The contributions, of 28 bytes each.
    pub contributions: Vec<u8>,
    /// The streams that the optional header names, by their places.
    pub optional_header: Vec<u16>,
}

impl Drop for Module {
    fn drop(self) {
        let Module {
            name,
            object_name,
            symbols,
            c11,
            c13,
            has_stream: _,
        } = self;
        drop((name, object_name, symbols, c11, c13));
    }
}

impl Module {
    /// Appends the bytes of the module's stream.
    pub(crate) fn push_stream(&self, bytes: &mut Vec<u8>) -> Result<()> {
        push_u32(bytes, &[SYMBOLS_SIGNATURE])?;
        bytes.extend_from_slice(self.symbols.as_slice())?;
        bytes.extend_from_slice(self.c11.as_slice())?;
        bytes.extend_from_slice(self.c13.as_slice())?;
        Ok(())
    }

    /// Appends the module's entry, with the number of its stream.
    fn push_entry(&self, bytes: &mut Vec<u8>, stream: u16) -> Result<()> {
        let stream = if self.has_stream { stream } else { NO_STREAM };
        push_u32(bytes, &[0, 0, 0, 0, 0, 0, 0, 0, u32::from(stream) << 16])?;
        let symbols_size = self.symbols.len().saturating_add(4);
        for size in [symbols_size, self.c11.len(), self.c13.len()] {
            push_u32(bytes, &[u32::try_from(size)?])?;
        }
        self.push_names(bytes)
    }

    /// Appends the rest of the module's entry.
    fn push_names(&self, bytes: &mut Vec<u8>) -> Result<()> {
        push_u32(bytes, &[0, 0, 0, 0])?;
        push_text(bytes, self.name.as_slice())?;
        push_text(bytes, self.object_name.as_slice())?;
        pad_to(bytes, 4)
    }
}

impl DebugInformation {
    /// Writes the stream into an empty list of bytes, where the modules' streams are numbered from
    /// `first` on.
    pub(crate) fn push(&self, bytes: &mut Vec<u8>, modules: &[Module], first: u16) -> Result<()> {
        self.push_header(bytes)?;
        for (part, place) in SIZES.iter().enumerate() {
            let start = bytes.len();
            self.push_part(bytes, part, modules, first)?;
            write_size(bytes, *place, start)?;
        }
        Ok(())
    }

    /// Appends the header, without the sizes, and without streams of global and public symbols.
    fn push_header(&self, bytes: &mut Vec<u8>) -> Result<()> {
        push_u32(bytes, &[SIGNATURE, VERSION, 1])?;
        push_u16(bytes, &[NO_STREAM, 0, NO_STREAM, 0, self.symbol_records, 0])?;
        let machine = u32::from(self.machine) << 16;
        push_u32(bytes, &[0, 0, 0, 0, 0, 0, 0, 0, machine, 0])
    }

    /// Appends a part: the module list, the contributions or the optional header.
    fn push_part(
        &self,
        bytes: &mut Vec<u8>,
        part: usize,
        modules: &[Module],
        first: u16,
    ) -> Result<()> {
        match part {
            0 => push_modules(bytes, modules, first),
            1 => self.push_contributions(bytes),
            _ => push_u16(bytes, self.optional_header.as_slice()),
        }
    }

    fn push_contributions(&self, bytes: &mut Vec<u8>) -> Result<()> {
        push_u32(bytes, &[CONTRIBUTIONS])?;
        bytes.extend_from_slice(self.contributions.as_slice())?;
        Ok(())
    }
}

/// Appends the entries of the modules, whose streams are numbered from `first` on.
fn push_modules(bytes: &mut Vec<u8>, modules: &[Module], first: u16) -> Result<()> {
    let mut stream = first;
    for module in modules {
        module.push_entry(bytes, stream)?;
        if module.has_stream {
            stream = stream.checked_add(1).ok_or(SampleError::DoesNotFit)?;
        }
    }
    Ok(())
}
