//! OMAPs: maps that say where a tool has moved an image's code.

ghost use Rattle.std.specs.Prelude.{◌≡◌, ◌≤◌, ◌<◌, length};
ghost use Rattle.std.specs.List.{AllWithin};
ghost use Rattle.pdb_container.specs.Fault.{Gives};
ghost use Rattle.pdb_addresses.specs.Omap.{AreSourcesInOrder, are_sources_in_order as in_order};
ghost use Rattle.pdb_addresses.specs.Omap.{omap_of, last_number as number_of_last};
ghost use Rattle.pdb_addresses.specs.Omap.{sent_by as sent_by_record, sent};

use pdb_container::{Error, FromBuffer, ParseBuffer, Result, parse_entries};
use std::alloc::Global;

/// An OMAP record, of a map between image and internal addresses: from its source on, and up to the
/// next record's, addresses lie as far past its target as they lie past its source.
#[derive(Clone, Copy, Debug, Default, PartialEq, Eq)]
pub struct OMAPRecord {
    /// The source: the first address that goes by the record.
    pub source_address: u32,
    /// The target: the address that the source becomes; 0 where addresses that go by the record
    /// become nothing.
    pub target_address: u32,
}

/// A record, 8 bytes; `UnexpectedEof` where fewer are left.
impl FromBuffer for OMAPRecord {
    ghost use Rattle.pdb_addresses.specs.Omap.{omap_record_at};

    ghost read = { omap_record_at };

    #[tactic(auto, unfolding(crate::specs::Omap::omap_record_at))]
    fn from_buffer(buffer: &mut ParseBuffer<'_>) -> Result<OMAPRecord> {
        Ok(OMAPRecord {
            source_address: buffer.parse_u32()?,
            target_address: buffer.parse_u32()?,
        })
    }
}

/// The OMAP records of a stream, eight bytes each.
///
/// # Errors
/// `InvalidStreamLength` where the stream isn't made of whole records, `OutOfMemory`.
#[tactic(auto, unfolding(crate::specs::Omap::omap_of))]
pub fn parse_omap(alloc: Global, bytes: &[u8]) -> Result<Vec<OMAPRecord>>
    ensures { Gives (λ v. v.items) ⊥ result (omap_of bytes.now) }
{
    if bytes.len() % 8 != 0 {
        return Err(Error::InvalidStreamLength("OMAP"));
    }
    parse_entries(alloc, bytes)
}

/// Whether no source lies below the one before it.
#[tactic(auto, using(crate::proofs::OmapLemmas::in_order_start, crate::proofs::OmapLemmas::in_order_more, crate::proofs::OmapLemmas::in_order_done, crate::proofs::OmapLemmas::falls))]
pub(crate) fn are_sources_in_order(records: &[OMAPRecord]) -> bool
    ensures { result ≡ in_order records.now }
{
    for i in 1..records.len() {
        if records[i].source_address < records[i - 1].source_address {
            return false;
        }
    }
    true
}

/// The number of the last record with source at most an address, counted from 1; 0 where there is
/// none. It is a binary search.
pub(crate) fn last_number(records: &[OMAPRecord], address: u32) -> usize
    requires { AreSourcesInOrder records.now }
    ensures number { result ≡ number_of_last records.now address }
    ensures bound { result ≤ length records.now }
    ensures low { AllWithin (λ r. r.source_address ≤ address) records.now 0 result }
    ensures high { AllWithin (λ r. address < r.source_address) records.now result
        (length records.now) }
{
    records.partition_point(|record| record.source_address <= address)
}

/// The address to which a record sends an address at or past its source; `None` at target 0, and
/// past 32 bits.
pub(crate) fn sent_by(entry: OMAPRecord, address: u32) -> Option<u32>
    requires { entry.source_address ≤ address }
    ensures { result ≡ sent_by_record address entry }
{
    if entry.target_address == 0 {
        return None;
    }
    entry
        .target_address
        .checked_add(address - entry.source_address)
}

/// The address to which a map sends an address: by the last record with source at most it.
#[tactic(auto, using(crate::proofs::OmapLemmas::sent_nowhere, crate::proofs::OmapLemmas::sent_somewhere))]
pub(crate) fn lookup(records: &[OMAPRecord], address: u32) -> Option<u32>
    requires { AreSourcesInOrder records.now }
    ensures { result ≡ sent records.now address }
{
    let number = last_number(records, address);
    if number == 0 {
        return None;
    }
    sent_by(records[number - 1], address)
}
