//! Section contributions of the DBI stream: parts of sections, each with its module.

ghost use Rattle.std.specs.Prelude.{◌≡◌, ◌<◌, ◌≤◌, length, IfOk, None};
ghost use Rattle.pdb_container.specs.Buffer.{rest, ParsesFront};
ghost use Rattle.pdb_container.specs.Fault.{Parses};
ghost use Rattle.pdb_container.specs.Listing.{ending, Advances};
ghost use Rattle.pdb_symbols_modules.specs.Contributions.{contribution_at};
ghost use Rattle.pdb_symbols_modules.specs.Contributions.{contribution_in as contribution_of};
ghost use Rattle.pdb_symbols_modules.specs.Contributions.{long_contribution_at, contribution_for};
ghost use Rattle.pdb_symbols_modules.specs.Contributions.{version_of, contributions_of};

use pdb_addresses::{PdbInternalSectionOffset, SectionCharacteristics};
use pdb_container::{Error, FallibleIterator, ParseBuffer, Result, half_at, word_at};
use std::marker::Model;

/// The version of entries of 28 bytes.
const VERSION_60: u32 = 0xeffe_0000 + 19_970_605;

/// The version of entries of 32 bytes.
const VERSION_2: u32 = 0xeffe_0000 + 20_140_516;

/// A section contribution: a part of a section, from one module.
#[derive(Clone, Copy, Debug, PartialEq, Eq)]
pub struct DBISectionContribution {
    /// The start of the part: a section's number, counted from 1, and an offset in bytes.
    pub offset: PdbInternalSectionOffset,
    /// The number of its bytes.
    pub size: u32,
    /// The rights in its section.
    pub characteristics: SectionCharacteristics,
    /// The module's number, counted from 0.
    pub module: u16,
    /// A check sum of its bytes.
    pub data_crc: u32,
    /// A check sum of its relocations.
    pub reloc_crc: u32,
}

/// The version of the list of section contributions.
#[derive(Clone, Copy, Debug, PartialEq, Eq)]
pub enum Version {
    /// 0xeffe0000 + 19970605: entries of 28 bytes.
    Ver60,
    /// 0xeffe0000 + 20140516: entries of 32 bytes.
    V2,
}

/// An iterator over section contributions, in the order of their list. Its value in contracts is
/// the contributions still to come.
#[derive(Debug, Drop)]
pub struct DBISectionContributionIter<'c> {
    buffer: ParseBuffer<'c>,
    version: Version,
}

impl<'c> Model for DBISectionContributionIter<'c> {
    ghost use Rattle.pdb_container.specs.Buffer.{rest};
    ghost use Rattle.pdb_container.specs.Listing.{Listing, listing};
    ghost use Rattle.pdb_symbols_modules.specs.Contributions.{contribution_for};
    ghost use Rattle.pdb_symbols_modules.specs.declared.contributions.DBISectionContribution.{
      DBISectionContribution as Entry,
    };

    ghost Value = { Listing Entry };

    ghost view = { λ it. listing (contribution_for it.version) (rest it.buffer) };
}

impl<'c> DBISectionContributionIter<'c> {
    /// The entries of the substream, which has none where it is empty. `UnexpectedEof` where the
    /// version isn't whole, `UnimplementedFeature` for another version.
    #[tactic(auto, using(pdb_container::proofs::Listings::listing_end), unfolding(crate::specs::Contributions::contributions_of))]
    pub(crate) fn parse(bytes: &'c [u8]) -> Result<DBISectionContributionIter<'c>>
        ensures { Parses (λ it. it) result (contributions_of bytes.now) }
    {
        let mut buffer = ParseBuffer::from(bytes);
        if buffer.is_empty() {
            return Ok(DBISectionContributionIter {
                buffer,
                version: Version::Ver60,
            });
        }
        let number = buffer.parse_u32()?;
        let version = known_version(number)?;
        Ok(DBISectionContributionIter { buffer, version })
    }
}

impl<'c> FallibleIterator for DBISectionContributionIter<'c> {
    type Item = DBISectionContribution;

    type Error = Error;

    ghost has_ended = { λ it. it ≡ ending None };

    ghost next_gives = { λ old result new. Advances (λ c. c) old result new };

    #[tactic(auto, using(pdb_container::proofs::Listings::listing_next, pdb_container::proofs::Listings::listing_fault, pdb_container::proofs::Listings::listing_end, pdb_container::proofs::Listings::listing_goes_on))]
    fn next(&mut self) -> Result<Option<DBISectionContribution>> {
        if self.buffer.is_empty() {
            return Ok(None);
        }
        match parse_entry(self.version, &mut self.buffer) {
            Ok(entry) => Ok(Some(entry)),
            Err(fault) => {
                self.buffer = ParseBuffer::from(&[][..]);
                Err(fault)
            }
        }
    }
}

/// The version with that number. `UnimplementedFeature` where it isn't known.
fn known_version(number: u32) -> Result<Version>
    ensures { Parses (λ v. v) result (version_of number) }
{
    match number {
        VERSION_60 => Ok(Version::Ver60),
        VERSION_2 => Ok(Version::V2),
        _ => Err(Error::UnimplementedFeature("section contribution version")),
    }
}

/// An entry of a version. `UnexpectedEof`.
fn parse_entry(version: Version, buffer: &mut ParseBuffer<'_>) -> Result<DBISectionContribution>
    ensures value { ParsesFront (λ c. c) result (rest buffer.new)
        (contribution_for version (rest buffer.old)) }
    ensures shorter { IfOk result (λ _. length (rest buffer.new) < length (rest buffer.old)) }
{
    match version {
        Version::Ver60 => parse_contribution(buffer),
        Version::V2 => parse_long_contribution(buffer),
    }
}

/// An entry of the older version. `UnexpectedEof`.
#[tactic(auto, unfolding(crate::specs::Contributions::contribution_at))]
fn parse_contribution(buffer: &mut ParseBuffer<'_>) -> Result<DBISectionContribution>
    ensures value { ParsesFront (λ c. c) result (rest buffer.new)
        (contribution_at (rest buffer.old)) }
    ensures shorter { IfOk result (λ _. length (rest buffer.new) < length (rest buffer.old)) }
{
    Ok(contribution_in(buffer.take(28)?))
}

/// The section contribution that the 28 bytes of an entry spell.
fn contribution_in(bytes: &[u8]) -> DBISectionContribution
    requires { 28 ≤ length bytes.now }
    ensures { result ≡ contribution_of bytes.now }
{
    DBISectionContribution {
        offset: PdbInternalSectionOffset {
            section: half_at(bytes, 0),
            offset: word_at(bytes, 4),
        },
        size: word_at(bytes, 8),
        characteristics: SectionCharacteristics(word_at(bytes, 12)),
        module: half_at(bytes, 16),
        data_crc: word_at(bytes, 20),
        reloc_crc: word_at(bytes, 24),
    }
}

/// An entry of the newer version. `UnexpectedEof`.
#[tactic(auto, unfolding(crate::specs::Contributions::long_contribution_at))]
fn parse_long_contribution(buffer: &mut ParseBuffer<'_>) -> Result<DBISectionContribution>
    ensures value { ParsesFront (λ c. c) result (rest buffer.new)
        (long_contribution_at (rest buffer.old)) }
    ensures shorter { IfOk result (λ _. length (rest buffer.new) < length (rest buffer.old)) }
{
    let contribution = parse_contribution(buffer)?;
    let _more = buffer.parse_u32()?;
    Ok(contribution)
}
