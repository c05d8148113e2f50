//! The DBI stream (3): its header, and its substreams.

ghost use Rattle.std.specs.Prelude.{◌≡◌, ◌+◌, ◌≤◌, ◌<◌, ◌^◌, ◌==◌, length, if◌then◌else◌, None};
ghost use Rattle.std.specs.Prelude.{Some};
ghost use Rattle.pdb_container.specs.Fault.{Parses};
ghost use Rattle.pdb_container.specs.Listing.{Listing};
ghost use Rattle.pdb_symbols_modules.specs.Contributions.{contributions_of};
ghost use Rattle.pdb_symbols_modules.specs.Dbi.{header_of, dbi_of, contributions_place};
ghost use Rattle.pdb_symbols_modules.specs.Dbi.{optional_header_place, substreams_end};
ghost use Rattle.pdb_symbols_modules.specs.Dbi.{piece as piece_of};
ghost use Rattle.pdb_symbols_modules.specs.Machine.{machine_of};
ghost use Rattle.pdb_symbols_modules.specs.Modules.{modules_of};
ghost use Rattle.pdb_symbols_modules.specs.OptionalHeader.{optional_at};

use crate::contributions::DBISectionContributionIter;
use crate::machine::MachineType;
use crate::modules::ModuleIter;
use crate::optional_header::number_at_place;
use crate::stream_index::StreamIndex;
use pdb_container::{Error, Result, Stream, half_at, word_at};
use std::marker::Model;

/// The number of bytes of the header.
const HEADER_SIZE: usize = 64;

/// The DBI header, as far as it is used: the age, the number of a stream (65535 for none), sizes in
/// bytes, and the machine's number.
#[derive(Clone, Copy, Debug)]
pub struct DBIHeader {
    age: u32,
    symbol_records_stream: u16,
    module_list_size: u32,
    section_contribution_size: u32,
    section_map_size: u32,
    file_info_size: u32,
    type_server_map_size: u32,
    debug_header_size: u32,
    ec_substream_size: u32,
    machine: u16,
}

/// The DBI stream (3): the module list, contributions, and the optional header of a database.
#[derive(Debug, Drop)]
pub struct DebugInformation<'s> {
    stream: Stream<'s>,
    header: DBIHeader,
}

impl<'s> Model for DebugInformation<'s> {
    ghost use Rattle.std.specs.Prelude.{◌≤◌, length};
    ghost use Rattle.pdb_symbols_modules.specs.Dbi.{Dbi, dbi_in, substreams_end};

    ghost Value = { Dbi };

    ghost view = { λ d. dbi_in d.header d.stream };

    ghost invariant = { λ d. substreams_end d.header ≤ length d.stream };
}

impl<'s> DebugInformation<'s> {
    /// The DBI that a stream holds.
    ///
    /// # Errors
    /// `UnexpectedEof` where the header or a substream isn't whole, `UnimplementedFeature` for a
    /// header without signature.
    #[tactic(auto, unfolding(crate::specs::Dbi::dbi_of))]
    pub fn parse(stream: Stream<'s>) -> Result<DebugInformation<'s>>
        ensures { Parses (λ d. d) result (dbi_of stream.entry) }
    {
        let header = parse_header(stream.as_slice())?;
        if stream.as_slice().len() < header.end() {
            return Err(Error::UnexpectedEof);
        }
        Ok(DebugInformation { stream, header })
    }

    /// The machine type for which the image was made.
    pub fn machine_type(&self) -> MachineType
        ensures { result ≡ machine_of self.now.machine }
    {
        MachineType::of(self.header.machine)
    }

    /// The age: the number of times that the database was written; none where the header says 0.
    pub fn age(&self) -> Option<u32>
        ensures { result ≡ (if self.now.age == 0 then None else Some self.now.age) }
    {
        match self.header.age {
            0 => None,
            age => Some(age),
        }
    }

    /// The modules, in the order of the module list.
    pub fn modules(&self) -> ModuleIter<'_>
        ensures { result ≡ modules_of self.now.modules }
    {
        let size = self.header.module_list_size as usize;
        ModuleIter::over(piece(self.stream.as_slice(), HEADER_SIZE, size))
    }

    /// The section contributions, in the order of the list.
    ///
    /// # Errors
    /// `UnexpectedEof` where the version isn't whole, `UnimplementedFeature` where it isn't known.
    /// The iterator returns the fault of an entry.
    pub fn section_contributions(&self) -> Result<DBISectionContributionIter<'_>>
        ensures { Parses (λ it. it) result (contributions_of self.now.contributions) }
    {
        let place = self.header.contributions_place();
        let size = self.header.section_contribution_size as usize;
        DBISectionContributionIter::parse(piece(self.stream.as_slice(), place, size))
    }

    /// The number of the stream of symbol records; 0xffff for none.
    pub fn symbol_records_stream(&self) -> StreamIndex
        ensures { result.0 ≡ self.now.symbol_records_stream }
    {
        StreamIndex(self.header.symbol_records_stream)
    }

    /// The index of the stream at a place of the optional debug header, counted from 0 and at most
    /// 10.
    ///
    /// # Errors
    /// `InvalidStreamLength` where that header isn't made of whole numbers.
    pub fn optional_stream(&self, place: usize) -> Result<StreamIndex>
        requires { place ≤ 10 }
        ensures { Parses (λ n. n.0) result (optional_at place self.now.optional_header) }
    {
        let start = self.header.optional_header_place();
        let size = self.header.debug_header_size as usize;
        number_at_place(piece(self.stream.as_slice(), start, size), place)
    }
}

impl DBIHeader {
    /// The start of the list of contributions.
    fn contributions_place(self) -> usize
        ensures place { result ≡ contributions_place self }
        ensures bound { result < 2 ^ 33 }
    {
        HEADER_SIZE + self.module_list_size as usize
    }

    /// The start of the optional header.
    fn optional_header_place(self) -> usize
        ensures place { result ≡ optional_header_place self }
        ensures bound { result < 2 ^ 40 }
    {
        self.contributions_place()
            + self.section_contribution_size as usize
            + self.section_map_size as usize
            + self.file_info_size as usize
            + self.type_server_map_size as usize
            + self.ec_substream_size as usize
    }

    /// The end of the last substream.
    fn end(self) -> usize
        ensures { result ≡ substreams_end self }
    {
        self.optional_header_place() + self.debug_header_size as usize
    }
}

/// The header of stream 3. `UnexpectedEof` where it is short, `UnimplementedFeature` where it has
/// another signature.
#[tactic(auto, unfolding(crate::specs::Dbi::header_of))]
fn parse_header(bytes: &[u8]) -> Result<DBIHeader>
    ensures { Parses (λ h. h) result (header_of bytes.now) }
{
    if bytes.len() < HEADER_SIZE {
        return Err(Error::UnexpectedEof);
    }
    if word_at(bytes, 0) != 0xffff_ffff {
        return Err(Error::UnimplementedFeature("ancient DBI header"));
    }
    Ok(DBIHeader {
        age: word_at(bytes, 8),
        symbol_records_stream: half_at(bytes, 20),
        module_list_size: word_at(bytes, 24),
        section_contribution_size: word_at(bytes, 28),
        section_map_size: word_at(bytes, 32),
        file_info_size: word_at(bytes, 36),
        type_server_map_size: word_at(bytes, 40),
        debug_header_size: word_at(bytes, 48),
        ec_substream_size: word_at(bytes, 52),
        machine: half_at(bytes, 58),
    })
}

/// `size` bytes from a place on.
fn piece(bytes: &[u8], place: usize, size: usize) -> &[u8]
    requires { place + size ≤ length bytes.now }
    ensures { result.now ≡ piece_of bytes.now place size }
{
    let (part, _) = bytes[place..].split_at(size);
    part
}
