//! An open program database.

ghost use Rattle.std.specs.Prelude.{◌≡◌, ◌≤◌, ◌-◌, ◌^◌, ◌⊎◌, IfOk, IfErr, Some, length};
ghost use Rattle.pdb_container.specs.Fault.{Gives};
ghost use Rattle.pdb_symbols_modules.specs.AddressTables.{read_if_there};
ghost use Rattle.pdb_addresses.specs.Omap.{omap_of};
ghost use Rattle.pdb_addresses.specs.Sections.{section_headers_of};
ghost use Rattle.pdb_symbols_modules.specs.DatabaseAnswers.{FileGives, DBIGives, listed};
ghost use Rattle.pdb_symbols_modules.specs.DatabaseAnswers.{IsOpened, IsNotOpened};
ghost use Rattle.pdb_symbols_modules.specs.DatabaseCalls.{information, named_stream, names};
ghost use Rattle.pdb_symbols_modules.specs.DatabaseCalls.{debug_information, types, ids};
ghost use Rattle.pdb_symbols_modules.specs.DatabaseCalls.{global_symbols, symbols_in, named_at};
ghost use Rattle.pdb_symbols_modules.specs.DatabaseCalls.{sections, sections_in, originals_in};
ghost use Rattle.pdb_symbols_modules.specs.DatabaseCalls.{address_map, address_map_in, map_in};
ghost use Rattle.pdb_symbols_modules.specs.DatabaseCalls.{module_info};
ghost use Rattle.pdb_symbols_modules.specs.Shared.{shared};
ghost use Rattle.pdb_symbols_modules.specs.Streams.{stream_if_named};

use crate::dbi::DebugInformation;
use crate::information::PDBInformation;
use crate::module_info::ModuleInfo;
use crate::modules::Module;
use crate::optional_header::{
    OMAP_FROM_SOURCE, OMAP_TO_SOURCE, ORIGINAL_SECTION_HEADERS, SECTION_HEADERS,
};
use crate::stream_index::StreamIndex;
use pdb_addresses::{
    AddressMap, ImageSectionHeader, OMAPRecord, parse_omap, parse_section_headers,
};
use pdb_container::{BigMSF, Error, ItemIndex, Msf, Result, Source, Stream, StringTable, open_msf};
use pdb_container_types::{IdInformation, ItemInformation, TypeInformation};
use pdb_symbol_records::SymbolTable;
use std::alloc::Global;
use std::marker::Model;

/// An open program database (PDB) over a source, which is its value in contracts. The result of a
/// call is a function of the source's bytes, whatever was asked before.
#[derive(Drop)]
pub struct PDB<'s, S: Source> {
    container: BigMSF<'s, S>,
}

impl<'s, S: Source> Model for PDB<'s, S> {
    ghost Value = { S };

    ghost view = { λ p. p.container };
}

impl<'s, S: Source + Drop> PDB<'s, S> {
    /// Opens the program database that a source holds.
    ///
    /// # Errors
    /// `UnrecognizedFileFormat`, `InvalidPageSize`, `PageReferenceOutOfRange`, `UnexpectedEof`;
    /// `IoError` where the source failed.
    #[tactic(auto, using(crate::proofs::Opening::opened_well, crate::proofs::Opening::not_opened), unfolding(crate::specs::Streams::streams))]
    pub fn open(alloc: Global, source: S) -> Result<PDB<'s, S>>
        ensures file { IfOk result (λ p. IsOpened S.bytes S.failures source p) }
        ensures err { IfErr result (λ e. IsNotOpened S.bytes S.failures source e) }
    {
        let container = open_msf(alloc, source)?;
        Ok(PDB { container })
    }

    /// An upper bound of the database's size, in bytes; `u64::MAX` where its source knows none
    /// ([`Source::size_hint`]).
    pub fn size_hint(&self) -> u64
        ensures { (length (S.bytes self.now) ≤ result) ⊎ (result ≡ 2 ^ 64 - 1) }
    {
        self.container.size_hint()
    }

    /// The source of the database's bytes.
    pub fn source(&self) -> &S
        ensures { result.now ≡ self.now }
    {
        self.container.source()
    }

    /// The bytes of an MSF stream, which another source of the same bytes views; `None` for the
    /// number that names none. The database stays as it is.
    ///
    /// # Errors
    /// As [`PDB::raw_stream`].
    #[tactic(auto, unfolding(crate::specs::Streams::if_named))]
    pub fn raw_stream_from<T: Source>(
        &self,
        source: &mut T,
        alloc: Global,
        index: StreamIndex,
    ) -> Result<Option<Stream<'s>>>
        requires { T.bytes source.old ≡ S.bytes self.now }
        ensures { FileGives T.bytes T.failures source.old source.new (λ s. s) result
            (λ s. stream_if_named s index.0) }
    {
        if index.is_none() {
            return Ok(None);
        }
        let stream = self.stream_from(source, alloc, u32::from(index.0))?;
        Ok(Some(stream))
    }

    /// The information stream (1) of the database.
    ///
    /// # Errors
    /// Those of reading a stream ([`PDB::raw_stream`]); `UnexpectedEof` where it is short.
    #[tactic(auto, using(pdb_container::proofs::Outside::outside_alone), unfolding(crate::specs::DatabaseCalls::information, crate::specs::Shared::shared))]
    pub fn pdb_information(&mut self, alloc: Global) -> Result<PDBInformation<'s>>
        ensures { FileGives S.bytes S.failures self.old self.new (λ i. i) result
            (λ s. information (shared s)) }
    {
        let stream = self.stream(alloc, 1)?;
        PDBInformation::parse(stream)
    }

    /// The DBI stream (3) of the database.
    ///
    /// # Errors
    /// Those of reading a stream; `UnexpectedEof` where the header or a list isn't whole,
    /// `UnimplementedFeature` for a header of another kind.
    #[tactic(auto, using(pdb_container::proofs::Outside::outside_alone), unfolding(crate::specs::DatabaseCalls::debug_information, crate::specs::Shared::shared))]
    pub fn debug_information(&mut self, alloc: Global) -> Result<DebugInformation<'s>>
        ensures { FileGives S.bytes S.failures self.old self.new (λ d. d) result
            (λ s. debug_information (shared s)) }
    {
        let stream = self.stream(alloc, 3)?;
        DebugInformation::parse(stream)
    }

    /// The TPI (stream 2): the table of types.
    ///
    /// # Errors
    /// Those of reading a stream; `UnexpectedEof` and `InvalidTypeInformationHeader` for its
    /// header.
    #[tactic(auto, using(pdb_container::proofs::Outside::outside_alone), unfolding(crate::specs::DatabaseCalls::types, crate::specs::Shared::shared))]
    pub fn type_information(&mut self, alloc: Global) -> Result<TypeInformation<'s>>
        ensures { FileGives S.bytes S.failures self.old self.new (λ t. t) result
            (λ s. types (shared s)) }
    {
        let stream = self.stream(alloc, 2)?;
        ItemInformation::parse(stream)
    }

    /// The IPI (stream 4): the table of ids.
    ///
    /// # Errors
    /// Those of reading a stream; `UnexpectedEof` and `InvalidTypeInformationHeader` for its
    /// header.
    #[tactic(auto, using(pdb_container::proofs::Outside::outside_alone), unfolding(crate::specs::DatabaseCalls::ids, crate::specs::Shared::shared))]
    pub fn id_information(&mut self, alloc: Global) -> Result<IdInformation<'s>>
        ensures { FileGives S.bytes S.failures self.old self.new (λ t. t) result
            (λ s. ids (shared s)) }
    {
        let stream = self.stream(alloc, 4)?;
        ItemInformation::parse(stream)
    }

    /// The bytes of an MSF stream; `None` for the number that names none.
    ///
    /// # Errors
    /// `StreamNotFound` where the container has no such stream, `PageReferenceOutOfRange` for a
    /// page outside the file, `UnexpectedEof` where the container's directory isn't whole;
    /// `IoError` past the file's end, and where the source failed; `OutOfMemory`.
    #[tactic(auto, unfolding(crate::specs::Streams::if_named))]
    pub fn raw_stream(&mut self, alloc: Global, index: StreamIndex) -> Result<Option<Stream<'s>>>
        ensures { FileGives S.bytes S.failures self.old self.new (λ s. s) result
            (λ s. stream_if_named s index.0) }
    {
        if index.is_none() {
            return Ok(None);
        }
        let stream = self.stream(alloc, u32::from(index.0))?;
        Ok(Some(stream))
    }

    /// The bytes of the stream to which the database gives a name.
    ///
    /// # Errors
    /// `StreamNameNotFound` where no stream has the name; `UnexpectedEof` where the names aren't
    /// whole; those of reading a stream.
    #[tactic(auto, using(pdb_container::proofs::Outside::outside_alone, pdb_container::proofs::Outside::outside_earlier, pdb_container::proofs::Outside::outside_later), unfolding(crate::specs::DatabaseCalls::named_stream, crate::specs::DatabaseCalls::information, crate::specs::Shared::shared, crate::specs::Shared::named, crate::specs::Shared::named_number))]
    pub fn named_stream(&mut self, alloc: Global, name: &[u8]) -> Result<Stream<'s>>
        ensures { FileGives S.bytes S.failures self.old self.new (λ s. s) result
            (λ s. named_stream s name.now) }
    {
        let information = self.pdb_information(alloc)?;
        let names = information.stream_names(alloc)?;
        let index = names.find(name)?;
        self.stream(alloc, u32::from(index.0))
    }

    /// The string table (`/names`): the names of files and modules.
    ///
    /// # Errors
    /// Those of [`PDB::named_stream`]; `UnimplementedFeature` for a table of another kind,
    /// `UnexpectedEof` where it isn't whole.
    #[tactic(auto, using(pdb_container::proofs::Outside::outside_alone), unfolding(crate::specs::DatabaseCalls::names, crate::specs::DatabaseCalls::named_stream, crate::specs::Shared::shared))]
    pub fn string_table(&mut self, alloc: Global) -> Result<StringTable<'s>>
        ensures { FileGives S.bytes S.failures self.old self.new (λ t. t) result
            (λ s. names (shared s)) }
    {
        let stream = self.named_stream(alloc, b"/names")?;
        StringTable::parse(stream)
    }

    /// The global symbols, by the stream of symbol records.
    ///
    /// # Errors
    /// Those of [`PDB::debug_information`], and of [`PDB::global_symbols_by`].
    #[tactic(auto, using(pdb_container::proofs::Outside::outside_earlier, pdb_container::proofs::Outside::outside_later, crate::proofs::SharedSteps::symbols_read), unfolding(crate::specs::DatabaseCalls::global_symbols))]
    pub fn global_symbols(&mut self, alloc: Global) -> Result<SymbolTable<'s>>
        ensures { FileGives S.bytes S.failures self.old self.new (λ s. s) result
            (λ s. global_symbols (shared s)) }
    {
        let debug_information = self.debug_information(alloc)?;
        self.global_symbols_by(alloc, &debug_information)
    }

    /// The global symbols, by the DBI that was read before.
    ///
    /// # Errors
    /// `GlobalSymbolsNotFound` where no stream of symbols is named; those of reading a stream.
    #[tactic(auto, unfolding(crate::specs::DatabaseCalls::global_symbols_by, crate::specs::Streams::if_named))]
    pub fn global_symbols_by(
        &mut self,
        alloc: Global,
        debug_information: &DebugInformation<'_>,
    ) -> Result<SymbolTable<'s>>
        ensures { DBIGives S.bytes S.failures self.old self.new debug_information.now (λ s. s)
            result symbols_in }
    {
        let index = debug_information.symbol_records_stream();
        match self.raw_stream(alloc, index)? {
            None => Err(Error::GlobalSymbolsNotFound),
            Some(stream) => Ok(SymbolTable::new(stream)),
        }
    }

    /// The module information: the content of a module's own stream; `None` where the module has
    /// none. It depends on that stream and on the sizes that the module states alone.
    ///
    /// # Errors
    /// Those of reading a stream ([`PDB::raw_stream`]).
    #[tactic(auto, unfolding(crate::specs::DatabaseCalls::module_info, crate::specs::Shared::info_in))]
    pub fn module_info(
        &mut self,
        alloc: Global,
        module: &Module<'_>,
    ) -> Result<Option<ModuleInfo<'s>>>
        ensures { FileGives S.bytes S.failures self.old self.new (λ m. m) result
            (λ s. module_info s «module».now) }
    {
        match self.raw_stream(alloc, module.stream())? {
            None => Ok(None),
            Some(stream) => Ok(Some(module.info(alloc, stream)?)),
        }
    }

    /// The section headers of the image; `None` where the database has no list of them.
    ///
    /// # Errors
    /// Those of [`PDB::debug_information`]; then `InvalidStreamLength` for a list of streams that
    /// isn't made of whole numbers; those of reading a stream; `UnexpectedEof` for a section header
    /// that isn't whole.
    #[tactic(auto, using(pdb_container::proofs::Outside::outside_earlier, pdb_container::proofs::Outside::outside_later, crate::proofs::SharedSteps::sections_read), unfolding(crate::specs::DatabaseCalls::sections))]
    pub fn sections(&mut self, alloc: Global) -> Result<Option<Vec<ImageSectionHeader>>>
        ensures { FileGives S.bytes S.failures self.old self.new listed result
            (λ s. sections (shared s)) }
    {
        let debug_information = self.debug_information(alloc)?;
        self.sections_by(alloc, &debug_information)
    }

    /// The address map: translates addresses of the image to those of the database, and back.
    ///
    /// # Errors
    /// The first fault of: [`PDB::sections`]; the sections before the code was moved, where there
    /// is a list of them, as of sections; the maps to and from these, as of reading a stream, and
    /// `InvalidStreamLength`.
    #[tactic(auto, using(pdb_container::proofs::Outside::outside_earlier, pdb_container::proofs::Outside::outside_later, crate::proofs::SharedSteps::address_map_read), unfolding(crate::specs::DatabaseCalls::address_map))]
    pub fn address_map(&mut self, alloc: Global) -> Result<AddressMap<'s>>
        ensures { FileGives S.bytes S.failures self.old self.new (λ m. m) result
            (λ s. address_map (shared s)) }
    {
        let debug_information = self.debug_information(alloc)?;
        self.address_map_by(alloc, &debug_information)
    }

    /// The bytes of a stream.
    #[tactic(auto, unfolding(crate::specs::Streams::streams))]
    fn stream(&mut self, alloc: Global, number: u32) -> Result<Stream<'s>>
        ensures { FileGives S.bytes S.failures self.old self.new (λ s. s) result
            (λ s. s.at number) }
    {
        self.container.get(alloc, number, None)
    }

    /// The bytes of a stream, which another source of the same bytes views.
    #[tactic(auto, unfolding(crate::specs::Streams::streams))]
    fn stream_from<T: Source>(
        &self,
        source: &mut T,
        alloc: Global,
        number: u32,
    ) -> Result<Stream<'s>>
        requires { T.bytes source.old ≡ S.bytes self.now }
        ensures { FileGives T.bytes T.failures source.old source.new (λ s. s) result
            (λ s. s.at number) }
    {
        self.container.get_from(source, alloc, number)
    }

    /// The stream at a place of the optional header, where one is named.
    #[tactic(auto, using(pdb_container::proofs::Outside::outside_alone), unfolding(crate::specs::OptionalHeader::optional_stream))]
    fn optional_stream(
        &mut self,
        alloc: Global,
        debug_information: &DebugInformation<'_>,
        place: usize,
    ) -> Result<Option<Stream<'s>>>
        requires { place ≤ 10 }
        ensures { DBIGives S.bytes S.failures self.old self.new debug_information.now (λ s. s)
            result (named_at place) }
    {
        let index = debug_information.optional_stream(place)?;
        self.raw_stream(alloc, index)
    }

    /// The section headers of the image, by the DBI that was read before; `None` where the database
    /// has no list of them.
    ///
    /// # Errors
    /// Those of [`PDB::sections`], except those of stream 3.
    #[tactic(auto, using(pdb_container::proofs::Outside::outside_alone), unfolding(crate::specs::AddressTables::sections_by))]
    pub fn sections_by(
        &mut self,
        alloc: Global,
        debug_information: &DebugInformation<'_>,
    ) -> Result<Option<Vec<ImageSectionHeader>>>
        ensures { DBIGives S.bytes S.failures self.old self.new debug_information.now listed
            result sections_in }
    {
        let stream = self.optional_stream(alloc, debug_information, SECTION_HEADERS)?;
        section_headers_in(alloc, stream)
    }

    /// The sections before the image's code was moved.
    #[tactic(auto, using(pdb_container::proofs::Outside::outside_alone), unfolding(crate::specs::AddressTables::original_sections_by))]
    fn original_sections_by(
        &mut self,
        alloc: Global,
        debug_information: &DebugInformation<'_>,
    ) -> Result<Option<Vec<ImageSectionHeader>>>
        ensures { DBIGives S.bytes S.failures self.old self.new debug_information.now listed
            result originals_in }
    {
        let stream = self.optional_stream(alloc, debug_information, ORIGINAL_SECTION_HEADERS)?;
        section_headers_in(alloc, stream)
    }

    /// The address map, by the DBI that was read before. It translates addresses of the image to
    /// those of the database, and back.
    ///
    /// # Errors
    /// Those of [`PDB::address_map`], except those of stream 3.
    #[tactic(auto, using(pdb_container::proofs::Outside::outside_earlier, pdb_container::proofs::Outside::outside_later), unfolding(crate::specs::AddressTables::address_map_by))]
    pub fn address_map_by(
        &mut self,
        alloc: Global,
        debug_information: &DebugInformation<'_>,
    ) -> Result<AddressMap<'s>>
        ensures { DBIGives S.bytes S.failures self.old self.new debug_information.now (λ m. m)
            result address_map_in }
    {
        let image = self.sections_by(alloc, debug_information)?;
        let image = image.unwrap_or(Vec::new(alloc));
        let original = self.original_sections_by(alloc, debug_information)?;
        self.map_with(alloc, debug_information, image, original)
    }

    /// The address map between these sections.
    fn map_with(
        &mut self,
        alloc: Global,
        debug_information: &DebugInformation<'_>,
        image: Vec<ImageSectionHeader>,
        original: Option<Vec<ImageSectionHeader>>,
    ) -> Result<AddressMap<'s>>
        ensures { DBIGives S.bytes S.failures self.old self.new debug_information.now (λ m. m)
            result (map_in image.items (listed original)) }
    {
        match original {
            None => Ok(AddressMap::new(alloc, None, image, None, None)?),
            Some(original) => self.map_between(alloc, debug_information, image, original),
        }
    }

    /// The address map between the sections of the image and those before its code was moved.
    #[tactic(auto, using(pdb_container::proofs::Outside::outside_alone, pdb_container::proofs::Outside::outside_earlier, pdb_container::proofs::Outside::outside_later), unfolding(crate::specs::AddressTables::map_behind))]
    fn map_between(
        &mut self,
        alloc: Global,
        debug_information: &DebugInformation<'_>,
        image: Vec<ImageSectionHeader>,
        original: Vec<ImageSectionHeader>,
    ) -> Result<AddressMap<'s>>
        ensures { DBIGives S.bytes S.failures self.old self.new debug_information.now (λ m. m)
            result (map_in image.items (Some original.items)) }
    {
        let to_source = self.optional_stream(alloc, debug_information, OMAP_TO_SOURCE)?;
        let to_original = omap_in(alloc, to_source)?;
        let from_source = self.optional_stream(alloc, debug_information, OMAP_FROM_SOURCE)?;
        let to_image = omap_in(alloc, from_source)?;
        Ok(AddressMap::new(alloc, Some(original), image, to_original, to_image)?)
    }
}

/// The section headers in a stream, if it is there.
fn section_headers_in(
    alloc: Global,
    stream: Option<Stream<'_>>,
) -> Result<Option<Vec<ImageSectionHeader>>>
    ensures { Gives listed ⊥ result (read_if_there section_headers_of stream.entry) }
{
    match stream {
        None => Ok(None),
        Some(stream) => Ok(Some(parse_section_headers(alloc, stream.as_slice())?)),
    }
}

/// The records of a map in a stream, if it is there.
fn omap_in(alloc: Global, stream: Option<Stream<'_>>) -> Result<Option<Vec<OMAPRecord>>>
    ensures { Gives listed ⊥ result (read_if_there omap_of stream.entry) }
{
    match stream {
        None => Ok(None),
        Some(stream) => Ok(Some(parse_omap(alloc, stream.as_slice())?)),
    }
}
