//! The information stream (1): version, signature, age and GUID of a database, and the names that
//! it gives to streams.

ghost use Rattle.std.specs.Prelude.{◌≡◌, ◌<◌, IfOk, Some, map, option_map};
ghost use Rattle.std.specs.List.{find};
ghost use Rattle.std.specs.Slice.Iter.{iter_rest};
ghost use Rattle.pdb_container.specs.Buffer.{rest, Reads, ParsesFront};
ghost use Rattle.pdb_container.specs.Fault.{Gives, Parses};
ghost use Rattle.pdb_container.specs.Fields.{bytes_of};
ghost use Rattle.pdb_container.specs.StringTable.{name_in};
ghost use Rattle.pdb_container.specs.RecordFields.{GivesFront};
ghost use Rattle.pdb_symbols_modules.specs.Information.{information_of, stream_number};
ghost use Rattle.pdb_symbols_modules.specs.Information.{stream_name_at, stream_names_at};
ghost use Rattle.pdb_symbols_modules.specs.Information.{bits_at, stream_names_of};
ghost use Rattle.pdb_symbols_modules.specs.Information.{number_in, is_named, number_of};
ghost use Rattle.pdb_container.specs.RawString.{raw_bytes};
ghost use Rattle.pdb_symbols_modules.specs.NameBlock.{stream_name_seen, stream_names_seen};

use crate::name_block::NameBlock;
use crate::stream_index::StreamIndex;
use pdb_container::{Error, ParseBuffer, RawString, Result, Stream};
use std::alloc::Global;
use std::marker::Model;

/// The number of bytes before the names.
const HEADER_SIZE: usize = 28;

/// The information stream (1): version, signature, age and GUID of a database.
#[derive(Debug, Drop)]
pub struct PDBInformation<'s> {
    /// The version of the format.
    pub version: u32,
    /// The time at which the database was made, in seconds since 1970.
    pub signature: u32,
    /// The age: the number of times that the database was written since.
    pub age: u32,
    /// The GUID: 16 bytes that identify the database.
    pub guid: [u8; 16],
    stream: Stream<'s>,
}

impl<'s> Model for PDBInformation<'s> {
    ghost use Rattle.pdb_symbols_modules.specs.Information.{Information};

    ghost Value = { Information };

    ghost view = { λ i. record {
      version = i.version;
      signature = i.signature;
      age = i.age;
      guid = i.guid;
      bytes = i.stream;
    } };
}

impl<'s> PDBInformation<'s> {
    /// The information that stream 1 holds.
    ///
    /// # Errors
    /// `UnexpectedEof` where fewer than 28 bytes are there.
    #[tactic(auto, unfolding(crate::specs::Information::information_of))]
    pub fn parse(stream: Stream<'s>) -> Result<PDBInformation<'s>>
        ensures { Parses (λ i. i) result (information_of stream.entry) }
    {
        let mut buffer = ParseBuffer::from(stream.as_slice());
        let version = buffer.parse_u32()?;
        let signature = buffer.parse_u32()?;
        let age = buffer.parse_u32()?;
        let guid = parse_guid(&mut buffer)?;
        Ok(PDBInformation {
            version,
            signature,
            age,
            guid,
            stream,
        })
    }

    /// The names that the database gives to streams.
    ///
    /// # Errors
    /// `UnexpectedEof` where the table isn't whole or a name doesn't end among the names,
    /// `OutOfMemory`.
    #[tactic(auto, unfolding(crate::specs::Information::stream_names_of))]
    pub fn stream_names(&self, alloc: Global) -> Result<StreamNames<'_>>
        ensures { Gives (λ names. names) ⊥ result (stream_names_of self.now.bytes) }
    {
        let mut buffer = ParseBuffer::from(self.stream.as_slice());
        buffer.take(HEADER_SIZE)?;
        let size = buffer.parse_u32()?;
        let names = buffer.take(size as usize)?;
        let count = buffer.parse_u32()?;
        let _room = buffer.parse_u32()?;
        take_bits(&mut buffer)?;
        take_bits(&mut buffer)?;
        let names = NameBlock::new(alloc, names)?;
        let names = parse_names(alloc, &names, &mut buffer, count)?;
        Ok(StreamNames { names })
    }
}

/// A name, and the stream that bears it.
#[derive(Clone, Copy, Debug)]
pub struct StreamName<'n> {
    /// The name.
    pub name: RawString<'n>,
    /// The stream's number; 0xffff where the table's number names no stream.
    pub stream_id: StreamIndex,
}

/// The names that a database gives to streams, in the order of its table.
#[derive(Debug, Drop)]
pub struct StreamNames<'s> {
    names: Vec<StreamName<'s>>,
}

impl<'s> Model for StreamNames<'s> {
    ghost use Rattle.std.specs.Prelude.{List, map};
    ghost use Rattle.pdb_symbols_modules.specs.Information as information;
    ghost use Rattle.pdb_symbols_modules.specs.NameBlock.{stream_name_seen};

    ghost Value = { List information.StreamName };

    ghost view = { λ n. map stream_name_seen n.names.items };
}

impl<'s> StreamNames<'s> {
    /// The names with their streams, in the order of the table.
    pub fn iter(&self) -> std::slice::Iter<'_, StreamName<'s>>
        ensures { map stream_name_seen (iter_rest result) ≡ self.now }
    {
        self.names.iter()
    }

    /// The stream of the first entry with a name. `StreamNameNotFound` where there is none, or it
    /// names no stream.
    #[tactic(auto, using(crate::proofs::NameLemmas::none_named, crate::proofs::NameLemmas::some_named))]
    pub(crate) fn find(&self, name: &[u8]) -> Result<StreamIndex>
        ensures number { Parses (λ n. n.0) result (number_of name.now self.now) }
        ensures named { IfOk result (λ n. n.0 < 65535) }
    {
        match entry_of(self.names.as_slice(), name) {
            None => Err(Error::StreamNameNotFound),
            Some(entry) => entry.named(),
        }
    }
}

impl StreamName<'_> {
    /// Whether it is the entry of a name.
    fn has_name(&self, name: &[u8]) -> bool
        ensures { result ≡ is_named name.now (stream_name_seen self.now) }
    {
        self.name.as_bytes() == name
    }

    /// The stream, if there is one.
    fn named(self) -> Result<StreamIndex>
        ensures number { Parses (λ n. n.0) result (number_in (Some (stream_name_seen self.entry))) }
        ensures named { IfOk result (λ n. n.0 < 65535) }
    {
        if self.stream_id.is_none() {
            return Err(Error::StreamNameNotFound);
        }
        Ok(self.stream_id)
    }
}

/// The first entry of a name.
fn entry_of<'e, 'n>(entries: &'e [StreamName<'n>], name: &[u8]) -> Option<&'e StreamName<'n>>
    ensures { option_map (λ e. e.now) result ≡ find (λ e. is_named name.now (stream_name_seen e))
        entries.now }
{
    entries.iter().find(|entry| entry.has_name(name))
}

/// The next sixteen bytes; `UnexpectedEof` where fewer are left.
fn parse_guid(buffer: &mut ParseBuffer<'_>) -> Result<[u8; 16]>
    ensures { Reads (λ guid. guid) result buffer.old buffer.new (bytes_of 16) }
{
    let bytes = buffer.take(16)?;
    let mut guid = [0; 16];
    guid.copy_from_slice(bytes);
    Ok(guid)
}

/// Four-byte words of bits, after their count.
fn take_bits<'b>(buffer: &mut ParseBuffer<'b>) -> Result<&'b [u8]>
    ensures { ParsesFront (λ bits. bits.now) result (rest buffer.new) (bits_at (rest buffer.old)) }
{
    let count = buffer.parse_u32()?;
    buffer.take(4 * count as usize)
}

/// That many entries, whose names stand among these. Memory for them grows with what is read, not
/// with `count`.
#[tactic(auto, using(crate::proofs::NameLemmas::names_start, crate::proofs::NameLemmas::names_more, crate::proofs::NameLemmas::names_fail, crate::proofs::NameLemmas::names_done))]
fn parse_names<'n>(
    alloc: Global,
    names: &NameBlock<'n>,
    buffer: &mut ParseBuffer<'_>,
    count: u32,
) -> Result<Vec<StreamName<'n>>>
    ensures { GivesFront stream_names_seen result (rest buffer.new)
        (stream_names_at names.now count (rest buffer.old)) }
{
    let mut entries = Vec::new(alloc);
    for _ in 0..count {
        entries.push(parse_name(names, buffer)?)?;
    }
    Ok(entries)
}

/// An entry, whose name stands among these.
#[tactic(auto, unfolding(crate::specs::Information::stream_name_at))]
fn parse_name<'n>(names: &NameBlock<'n>, buffer: &mut ParseBuffer<'_>) -> Result<StreamName<'n>>
    ensures { ParsesFront stream_name_seen result (rest buffer.new)
        (stream_name_at names.now (rest buffer.old)) }
{
    let offset = buffer.parse_u32()?;
    let number = buffer.parse_u32()?;
    let name = names.name_at(offset)?;
    Ok(StreamName {
        name,
        stream_id: StreamIndex(u16::try_from(number).unwrap_or(0xffff)),
    })
}
