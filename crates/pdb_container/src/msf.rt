//! MSF streams: the header, and the pages in which each stream lies.

ghost use Rattle.std.specs.Prelude.{◌≡◌, ◌+◌, ◌-◌, ◌*◌, ◌%◌, ◌<◌, ◌≤◌, ◌^◌, ◌⊎◌, length, vec_len};
ghost use Rattle.std.specs.Prelude.{take, drop, None, Some, Ok, IfOk, IfErr};
ghost use Rattle.std.specs.Int.{div_ceil};
ghost use Rattle.pdb_container.specs.Container.{words, pages_in, header_in, front_in};
ghost use Rattle.pdb_container.specs.Container.{behind_header as behind, layout_of, directory_of};
ghost use Rattle.pdb_container.specs.Container.{stream_in, stream, at_most, bytes_in, words_in};
ghost use Rattle.pdb_container.specs.Container.{directory_pages_in};
ghost use Rattle.pdb_container.specs.Container.{list_count as lists_for};
ghost use Rattle.pdb_container.specs.Directory.{IsKept};
ghost use Rattle.pdb_container.specs.SourceAnswers.{Answers, AnswersAs, AnswersItems};
ghost use Rattle.pdb_container.specs.SourceAnswers.{IsFaultFrom, IsOpenedFrom, IsOpeningFault};
ghost use Rattle.pdb_container.specs.Pages.{first_pages};
ghost use Rattle.pdb_container.specs.Header.{layout, IsSound};
ghost use Rattle.std.specs.declared.io.ErrorKind.TheVariants.{UnexpectedEof};
ghost use Rattle.pdb_container.specs.declared.error.Error.TheVariants.{OutOfMemory};
ghost use Rattle.pdb_container.specs.Fault.{error_of, fault_of, IoError, Gives};
ghost use Rattle.pdb_container.specs.Fault.{HasRisen, IsOutside};

use crate::directory::{Directory, pages_of};
use crate::distinct_pages::pages_to_read;
use crate::error::{Error, Result};
use crate::front::may_be_container;
use crate::numbers::word_at;
use crate::page_list::PageList;
use crate::paged_numbers::PagedNumbers;
use crate::source::{ReadView, Source, SourceSlice};
use std::alloc::Global;
use std::io;
use std::io::ErrorKind;
use std::marker::{Model, PhantomData};

/// The number of bytes in the header before its list of pages.
const HEADER_SIZE: usize = 52;

/// The number of bytes in which the header and its list of pages lie.
const HEADER_VIEW: usize = 4096;

/// The MSF header, as far as it is used: page size in bytes, pages used, directory size in bytes,
/// and its list pages.
#[derive(Drop)]
pub struct Header {
    page_size: u32,
    pages_used: u32,
    directory_size: u32,
    list_pages: Vec<u32>,
}

/// An MSF stream: its bytes.
#[derive(Debug, Drop)]
pub struct Stream<'s> {
    view: ReadView,
    of: PhantomData<&'s ()>,
}

impl<'s> Model for Stream<'s> {
    ghost use Rattle.std.specs.Prelude.{ℕ, List, ◌<◌, ◌^◌, length};

    ghost Value = { List ℕ };

    ghost view = { λ s. s.view };

    ghost invariant = { λ s. length s.view < 2 ^ 32 };
}

impl<'s> Stream<'s> {
    /// The bytes, fewer than 2^32: a directory gives a stream's size in 32 bits.
    pub fn as_slice(&self) -> &[u8]
        ensures bytes { result.now ≡ self.now }
        ensures few { length result.now < 2 ^ 32 }
    {
        self.view.as_slice()
    }
}

#[tactic(auto, using(crate::proofs::Words::words_none, crate::proofs::Words::words_more))]
fn words_of(alloc: Global, bytes: &[u8]) -> Result<Vec<u32>>
    ensures { Gives (λ v. v.items) ⊥ result (Ok (words bytes.now)) }
{
    let mut numbers = Vec::with_capacity(alloc, bytes.len() / 4)?;
    for i in 0..bytes.len() / 4 {
        numbers.push(word_at(bytes, 4 * i))?;
    }
    Ok(numbers)
}

/// The first `size` bytes of the pages.
#[tactic(auto, using(crate::proofs::Paging::paged_len))]
fn read_pages<S: Source>(
    source: &mut S,
    alloc: Global,
    page_size: u32,
    pages: &[u32],
    size: usize,
) -> Result<ReadView>
    requires page_size { (0 < page_size) × (page_size ≤ 0x800000) }
    requires enough { size ≤ length pages.now * page_size }
    requires few { length pages.now < 2 ^ 32 }
    ensures answer { Answers S.Source source.old source.new result
        (bytes_in page_size pages.now size) }
    ensures len { IfOk result (λ v. length v ≡ size) }
{
    match list_of(alloc, page_size, pages, size) {
        Ok(list) => match source.view(alloc, list.source_slices()) {
            Ok(view) => Ok(view),
            Err(cause) => Err(Error::from(cause)),
        },
        Err(fault) => Err(fault),
    }
}

#[tactic(auto, using(crate::proofs::Paging::page_places_at, crate::proofs::Paging::flat_more, crate::proofs::Paging::flat_front_len))]
fn list_of(alloc: Global, page_size: u32, pages: &[u32], size: usize) -> Result<PageList>
    requires page_size { (0 < page_size) × (page_size ≤ 0x800000) }
    requires enough { size ≤ length pages.now * page_size }
    requires few { length pages.now < 2 ^ 32 }
    ensures { Gives (λ l. l) ⊥ result (Ok (first_pages page_size pages.now size)) }
{
    let mut list = PageList::new(alloc, page_size as usize);
    for page in pages {
        list.push(*page)?;
    }
    list.truncate(size);
    Ok(list)
}

/// The numbers that the first `size` bytes of the pages spell.
fn read_words<S: Source>(
    source: &mut S,
    alloc: Global,
    page_size: u32,
    pages: &[u32],
    size: usize,
) -> Result<Vec<u32>>
    requires page_size { (0 < page_size) × (page_size ≤ 0x800000) }
    requires enough { size ≤ length pages.now * page_size }
    requires few { length pages.now < 2 ^ 32 }
    ensures answer { AnswersItems S.Source source.old source.new result
        (words_in page_size pages.now size) }
{
    match read_pages(source, alloc, page_size, pages, size) {
        Ok(bytes) => words_of(alloc, bytes.as_slice()),
        Err(fault) => Err(fault),
    }
}

/// The directory's pages.
#[tactic(auto, using(crate::proofs::Paging::pages_enough))]
fn directory_pages<S: Source>(source: &mut S, alloc: Global, header: &Header) -> Result<Vec<u32>>
    requires { IsSound (layout header.now) }
    ensures answer { AnswersItems S.Source source.old source.new result
        (directory_pages_in (layout header.now)) }
    ensures len { IfOk result
        (λ v. vec_len v ≡ div_ceil header.now.directory_size header.now.page_size) }
{
    let count = header.directory_size.div_ceil(header.page_size) as usize;
    let list = header.list_pages.as_slice();
    match read_words(source, alloc, header.page_size, list, 4 * count) {
        Ok(numbers) => pages_of(alloc, header.pages_used, count, numbers.as_slice()),
        Err(fault) => Err(fault),
    }
}

/// The numbers that the first `size` bytes of the pages spell. Each page is read once, however
/// often the list names it.
#[tactic(auto, using(crate::proofs::PagedNumbers::read_words))]
fn read_paged<S: Source>(
    source: &mut S,
    alloc: Global,
    page_size: u32,
    pages: &[u32],
    size: usize,
) -> Result<PagedNumbers>
    requires page_size { (0 < page_size) × (page_size ≤ 0x800000) }
    requires by_four { page_size % 4 ≡ 0 }
    requires enough { size ≤ length pages.now * page_size }
    requires full { length pages.now * page_size < size + page_size }
    requires few { size < 2 ^ 32 }
    ensures answer { Answers S.Source source.old source.new result
        (words_in page_size pages.now size) }
{
    let read = pages_to_read(alloc, page_size, pages, size)?;
    match read_pages(source, alloc, page_size, read.pages.as_slice(), read.size) {
        Ok(bytes) => Ok(PagedNumbers::new(page_size, read.places, bytes, size / 4)),
        Err(fault) => Err(fault),
    }
}

/// The directory's numbers.
#[tactic(auto, using(crate::proofs::Paging::pages_enough, crate::proofs::Paging::pages_full))]
fn read_numbers<S: Source>(source: &mut S, alloc: Global, header: &Header) -> Result<PagedNumbers>
    requires { IsSound (layout header.now) }
    ensures answer { Answers S.Source source.old source.new result
        (directory_of (layout header.now)) }
{
    match directory_pages(source, alloc, header) {
        Ok(pages) => {
            let size = header.directory_size as usize;
            read_paged(source, alloc, header.page_size, pages.as_slice(), size)
        }
        Err(fault) => Err(fault),
    }
}

/// The directory, or its fault, to be stored. `OutOfMemory`, and `IoError` where the source failed,
/// aren't stored.
#[tactic(auto, using(crate::proofs::Outside::outside_alone, crate::proofs::Outside::outside_earlier, crate::proofs::Outside::outside_later))]
fn read_directory<S: Source>(
    source: &mut S,
    alloc: Global,
    header: &Header,
) -> Result<Result<Directory>>
    requires { IsSound (layout header.now) }
    ensures same { S.bytes source.new ≡ S.bytes source.old }
    ensures counts { S.failures source.old ≤ S.failures source.new }
    ensures kept { IfOk result
        (λ kept. IsKept (layout header.now) (S.bytes source.old) (Some kept)) }
    ensures err { IfErr result (λ e.
        IsFaultFrom S.Source source.old source.new e (directory_of (layout header.now))) }
{
    match read_numbers(source, alloc, header) {
        Ok(numbers) => match Directory::new(alloc, header.page_size, numbers) {
            Ok(directory) => Ok(Ok(directory)),
            Err(fault) => Err(fault),
        },
        Err(Error::OutOfMemory) => Err(Error::OutOfMemory),
        Err(Error::IoError(kind)) => match kind {
            ErrorKind::UnexpectedEof => Ok(Err(Error::IoError(kind))),
            _ => Err(Error::IoError(kind)),
        },
        Err(fault) => Ok(Err(fault)),
    }
}

/// The first bytes of a stream, by the directory or its fault. The source is asked whether all the
/// pages of the stated size may be listed, whatever the limit, since all of them are. It is asked
/// about no more pages than the directory has numbers for, so that one damaged size is still a
/// fault of that stream alone.
#[tactic(auto, using(crate::proofs::Outside::outside_alone), unfolding(crate::specs::Container::stream_in))]
fn read_stream<S: Source>(
    source: &mut S,
    alloc: Global,
    header: &Header,
    kept: &Result<Directory>,
    number: u32,
    limit: Option<usize>,
) -> Result<ReadView>
    requires sound { IsSound (layout header.now) }
    requires kept { IsKept (layout header.now) (S.bytes source.old) (Some kept.now) }
    ensures answer { Answers S.Source source.old source.new result
        (λ file. stream_in (layout header.now) file number limit) }
    ensures few { IfOk result (λ v. length v < 2 ^ 32) }
{
    let directory = match kept {
        Ok(directory) => directory,
        Err(fault) => return Err(*fault),
    };
    let stated = match directory.size_of(number) {
        Ok(size) => size,
        Err(fault) => return Err(fault),
    };
    let listed = u64::from(stated).min(directory.longest_list(header.page_size));
    if !source.may_list(listed) {
        return Err(Error::OutOfMemory);
    }
    match directory.place_of(alloc, header.page_size, header.pages_used, number) {
        Ok((size, pages)) => {
            let size = cut(limit, size as usize);
            read_pages(source, alloc, header.page_size, pages.as_slice(), size)
        }
        Err(fault) => Err(fault),
    }
}

/// The first bytes of a stream, where no directory is stored: the directory is read anew and
/// stored.
#[tactic(auto, using(crate::proofs::Outside::outside_alone, crate::proofs::Outside::outside_earlier, crate::proofs::Outside::outside_later), unfolding(crate::specs::Container::stream_in))]
fn read_anew<S: Source>(
    source: &mut S,
    alloc: Global,
    header: &Header,
    directory: &mut Option<Result<Directory>>,
    number: u32,
    limit: Option<usize>,
) -> Result<ReadView>
    requires sound { IsSound (layout header.now) }
    requires kept { IsKept (layout header.now) (S.bytes source.old) directory.old }
    ensures kept { IsKept (layout header.now) (S.bytes source.old) directory.new }
    ensures answer { Answers S.Source source.old source.new result
        (λ file. stream_in (layout header.now) file number limit) }
    ensures few { IfOk result (λ v. length v < 2 ^ 32) }
{
    match read_directory(source, alloc, header) {
        Ok(kept) => {
            let view = read_stream(source, alloc, header, &kept, number, limit);
            *directory = Some(kept);
            view
        }
        Err(fault) => Err(fault),
    }
}

fn cut(limit: Option<usize>, size: usize) -> usize
    ensures cut { result ≡ at_most limit size }
    ensures bound { result ≤ size }
{
    match limit {
        None => size,
        Some(limit) => limit.min(size),
    }
}

#[tactic(auto, using(crate::proofs::Paging::pages_enough, crate::proofs::PageSize::by_four, crate::proofs::Outside::outside_alone), unfolding(crate::specs::Container::header_in))]
fn header_of(alloc: Global, front: &[u8]) -> Result<Header>
    requires { length front.now ≡ 4096 }
    ensures exact { Gives layout ⊥ result (header_in front.now) }
    ensures sound { IfOk result (λ h. IsSound (layout h)) }
{
    if !may_be_container(front) {
        return Err(Error::UnrecognizedFileFormat);
    }
    let page_size = word_at(front, 32);
    let pages_used = word_at(front, 40);
    let directory_size = word_at(front, 44);
    if !page_size.is_power_of_two() || page_size < 0x100 || page_size > 0x80_0000 {
        return Err(Error::InvalidPageSize(page_size));
    }
    let count = list_count(page_size, directory_size);
    match pages_from(alloc, pages_used, count, behind_header(front)) {
        Ok(list_pages) => Ok(Header {
            page_size,
            pages_used,
            directory_size,
            list_pages,
        }),
        Err(fault) => Err(fault),
    }
}

/// The first `count` numbers that the bytes spell, which have to be page numbers.
fn pages_from(alloc: Global, used: u32, count: usize, bytes: &[u8]) -> Result<Vec<u32>>
    ensures exact { Gives (λ v. v.items) ⊥ result (pages_in used count (words bytes.now)) }
    ensures len { IfOk result (λ v. vec_len v ≡ count) }
{
    match words_of(alloc, bytes) {
        Ok(numbers) => pages_of(alloc, used, count, numbers.as_slice()),
        Err(fault) => Err(fault),
    }
}

#[tactic(auto, unfolding(crate::specs::Container::behind_header))]
fn behind_header(front: &[u8]) -> &[u8]
    requires { 52 ≤ length front.now }
    ensures { result.now ≡ behind front.now }
{
    rest_from(front, HEADER_SIZE)
}

fn rest_from(bytes: &[u8], at: usize) -> &[u8]
    requires { at ≤ length bytes.now }
    ensures { result.now ≡ drop at bytes.now }
{
    &bytes[at..]
}

fn list_count(page_size: u32, directory_size: u32) -> usize
    requires { 0x100 ≤ page_size }
    ensures { result ≡ lists_for page_size directory_size }
{
    (4 * directory_size.div_ceil(page_size)).div_ceil(page_size) as usize
}

/// The first bytes of a source.
#[tactic(auto, using(crate::proofs::First::first_is, crate::proofs::First::first_len, crate::proofs::First::first_on))]
fn read_first<S: Source>(source: &mut S, alloc: Global, size: usize) -> io::Result<ReadView>
    requires { 0 < size }
    ensures same { S.bytes source.new ≡ S.bytes source.old }
    ensures ok { IfOk result
        (λ v. (size ≤ length (S.bytes source.old)) × (v ≡ take size (S.bytes source.old))) }
    ensures len { IfOk result (λ v. length v ≡ size) }
    ensures counts { S.failures source.old ≤ S.failures source.new }
    ensures err { IfErr result
        (λ e. IsOutside (error_of e) (HasRisen (S.failures source.old) (S.failures source.new))
        ⊎ ((length (S.bytes source.old) < size)
        × (fault_of (error_of e) ≡ IoError UnexpectedEof))) }
{
    let slices = [SourceSlice { offset: 0, size }];
    source.view(alloc, &slices)
}

#[tactic(auto, using(crate::proofs::First::not_past), unfolding(crate::specs::Container::front_in))]
fn read_front<S: Source>(source: &mut S, alloc: Global) -> Result<ReadView>
    ensures answer { Answers S.Source source.old source.new result front_in }
    ensures len { IfOk result (λ v. length v ≡ 4096) }
{
    match read_first(source, alloc, HEADER_VIEW) {
        Ok(front) => Ok(front),
        Err(cause) => match cause.kind() {
            ErrorKind::UnexpectedEof => Err(Error::UnrecognizedFileFormat),
            _ => Err(Error::from(cause)),
        },
    }
}

/// An MSF container: numbered streams over a source.
pub trait Msf<'s, S: Source> {
    /// The source of the container's bytes.
    ghost source: { Self → S };

    /// An MSF stream by its number, or its first `limit` bytes. It views the stream's own pages
    /// alone, unless the source failed each time that the directory was read before; then it reads
    /// the directory first. A call that is refused changes no later result, unless the source
    /// counts the pages that it lists.
    ///
    /// # Errors
    /// `StreamNotFound`, `PageReferenceOutOfRange`, `UnexpectedEof`; `IoError` past the file's end,
    /// and where the source failed; `OutOfMemory`, also where the source refuses to have the
    /// stream's pages listed.
    fn get(&mut self, alloc: Global, stream_number: u32, limit: Option<usize>) -> Result<Stream<'s>>
        ensures { Answers S.Source (source self.old) (source self.new) result
            (λ file. stream file stream_number limit) };
}

/// An open big MSF container over a source, which is its value in contracts.
#[derive(Drop)]
pub struct BigMSF<'s, S: Source> {
    source: S,
    header: Header,
    directory: Option<Result<Directory>>,
    of: PhantomData<&'s ()>,
}

impl<'s, S: Source> Model for BigMSF<'s, S> {
    ghost use Rattle.std.specs.Prelude.{◌≡◌, Ok};
    ghost use Rattle.pdb_container.specs.Container.{layout_of};
    ghost use Rattle.pdb_container.specs.Header.{layout, IsSound};
    ghost use Rattle.pdb_container.specs.Directory.{IsKept};

    ghost Value = { S };

    ghost view = { λ m. m.source };

    ghost invariant = { λ m. (layout_of (S.bytes m.source) ≡ Ok (layout m.header))
        × IsSound (layout m.header)
        × IsKept (layout m.header) (S.bytes m.source) m.directory };
}

impl<'s, S: Source> Msf<'s, S> for BigMSF<'s, S> {
    ghost source = { λ m. m };

    #[tactic(auto, unfolding(crate::specs::Container::stream))]
    fn get(
        &mut self,
        alloc: Global,
        stream_number: u32,
        limit: Option<usize>,
    ) -> Result<Stream<'s>> {
        match self.view_of(alloc, stream_number, limit) {
            Ok(view) => Ok(Stream {
                view,
                of: PhantomData,
            }),
            Err(fault) => Err(fault),
        }
    }
}

impl<'s, S: Source> BigMSF<'s, S> {
    /// An upper bound of the container's size, in bytes, as its source knows it
    /// ([`Source::size_hint`]).
    pub fn size_hint(&self) -> u64
        ensures { (length (S.bytes self.now) ≤ result) ⊎ (result ≡ 2 ^ 64 - 1) }
    {
        self.source.size_hint()
    }

    /// The source of the container's bytes.
    pub fn source(&self) -> &S
        ensures { result.now ≡ self.now }
    {
        &self.source
    }

    /// An MSF stream by its number, of a container that stays as it is: another source of the same
    /// bytes views the stream's pages.
    ///
    /// # Errors
    /// As [`Msf::get`].
    #[tactic(auto, unfolding(crate::specs::Container::stream))]
    pub fn get_from<T: Source>(
        &self,
        source: &mut T,
        alloc: Global,
        stream_number: u32,
    ) -> Result<Stream<'s>>
        requires { T.bytes source.old ≡ S.bytes self.now }
        ensures { Answers T.Source source.old source.new result
            (λ file. stream file stream_number None) }
    {
        match self.view_from(source, alloc, stream_number) {
            Ok(view) => Ok(Stream {
                view,
                of: PhantomData,
            }),
            Err(fault) => Err(fault),
        }
    }

    #[tactic(auto, unfolding(crate::specs::Container::stream))]
    fn view_from<T: Source>(&self, source: &mut T, alloc: Global, number: u32) -> Result<ReadView>
        requires { T.bytes source.old ≡ S.bytes self.now }
        ensures answer { Answers T.Source source.old source.new result
            (λ file. stream file number None) }
        ensures few { IfOk result (λ v. length v < 2 ^ 32) }
    {
        match &self.directory {
            Some(kept) => read_stream(source, alloc, &self.header, kept, number, None),
            None => read_anew(source, alloc, &self.header, &mut None, number, None),
        }
    }

    #[tactic(auto, unfolding(crate::specs::Container::stream))]
    fn view_of(&mut self, alloc: Global, number: u32, limit: Option<usize>) -> Result<ReadView>
        ensures answer { Answers S.Source self.old self.new result
            (λ file. stream file number limit) }
        ensures few { IfOk result (λ v. length v < 2 ^ 32) }
    {
        match &self.directory {
            Some(kept) => read_stream(&mut self.source, alloc, &self.header, kept, number, limit),
            None => read_anew(
                &mut self.source,
                alloc,
                &self.header,
                &mut self.directory,
                number,
                limit,
            ),
        }
    }
}

/// The directory, or its fault; `None` where the source failed. `OutOfMemory`.
fn first_directory<S: Source>(
    source: &mut S,
    alloc: Global,
    header: &Header,
) -> Result<Option<Result<Directory>>>
    requires { IsSound (layout header.now) }
    ensures same { S.bytes source.new ≡ S.bytes source.old }
    ensures counts { S.failures source.old ≤ S.failures source.new }
    ensures kept { IfOk result (λ kept. IsKept (layout header.now) (S.bytes source.old) kept) }
    ensures err { IfErr result (λ e. e ≡ OutOfMemory) }
{
    match read_directory(source, alloc, header) {
        Ok(kept) => Ok(Some(kept)),
        Err(Error::OutOfMemory) => Err(Error::OutOfMemory),
        Err(_) => Ok(None),
    }
}

/// The header of a source.
#[tactic(auto, using(crate::proofs::Outside::outside_alone), unfolding(crate::specs::Container::layout_of))]
fn read_header<S: Source>(source: &mut S, alloc: Global) -> Result<Header>
    ensures answer { AnswersAs S.Source source.old source.new layout result layout_of }
    ensures sound { IfOk result (λ h. IsSound (layout h)) }
{
    match read_front(source, alloc) {
        Ok(front) => header_of(alloc, front.as_slice()),
        Err(fault) => Err(fault),
    }
}

/// Opens the MSF container that a source holds: its header and the numbers of its list pages, in
/// the first 4096 bytes. The directory is read here too, and a fault of it is returned by every
/// `get`; where the source fails in that, the next `get` tries again.
///
/// # Errors
/// `UnrecognizedFileFormat`, `InvalidPageSize`, `PageReferenceOutOfRange`, `UnexpectedEof`;
/// `IoError` where the source failed; `OutOfMemory`.
#[tactic(auto, using(crate::proofs::Outside::outside_with))]
pub fn open_msf<'s, S: Source + Drop>(alloc: Global, mut source: S) -> Result<BigMSF<'s, S>>
    ensures file { IfOk result (λ m. IsOpenedFrom S.Source source m) }
    ensures err { IfErr result (λ e. IsOpeningFault S.Source source e) }
{
    match read_header(&mut source, alloc) {
        Ok(header) => match first_directory(&mut source, alloc, &header) {
            Ok(directory) => Ok(BigMSF {
                source,
                header,
                directory,
                of: PhantomData,
            }),
            Err(fault) => Err(fault),
        },
        Err(fault) => Err(fault),
    }
}
