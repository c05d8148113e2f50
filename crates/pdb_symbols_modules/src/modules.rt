//! The module list of the DBI stream.

ghost use Rattle.std.specs.Cow.{cow_str_bytes, IsBorrowedStr};
ghost use Rattle.std.specs.Prelude.{◌≡◌, ◌<◌, drop, length, IsOk, IfOk, IsOkUnless, Ok, None};
ghost use Rattle.std.specs.Str.{IsUtf8};
ghost use Rattle.std.specs.Str.Lossy.{utf8_lossy};
ghost use Rattle.pdb_container.specs.Buffer.{rest, ParsesFront};
ghost use Rattle.pdb_container.specs.Fault.{Gives};
ghost use Rattle.pdb_container.specs.Fields.{padding};
ghost use Rattle.pdb_container.specs.Listing.{Listing, ending, Advances};
ghost use Rattle.pdb_container.specs.RawString.{raw_bytes};
ghost use Rattle.pdb_symbols_modules.specs.Shared.{module_stream};
ghost use Rattle.pdb_symbols_modules.specs.Modules.{module_at, modules_of};

use crate::module_info::ModuleInfo;
use crate::stream_index::StreamIndex;
use pdb_container::{
    Error, FallibleIterator, ParseBuffer, RawString, Result, Stream, padding_behind,
};
use std::alloc::Global;
use std::borrow::CowStr;
use std::marker::Model;

/// A module of the DBI stream: the number of its own stream, the sizes of that stream's parts, and
/// its names.
#[derive(Debug, Drop)]
pub struct Module<'m> {
    stream: u16,
    symbols_size: u32,
    c11_lines_size: u32,
    c13_lines_size: u32,
    module_name: RawString<'m>,
    object_file_name: RawString<'m>,
}

impl<'m> Model for Module<'m> {
    ghost use Rattle.pdb_container.specs.RawString.{raw_bytes};
    ghost use Rattle.pdb_symbols_modules.specs.Modules as modules;

    ghost Value = { modules.Module };

    ghost view = { λ m. record {
      stream = m.stream;
      symbols_size = m.symbols_size;
      c11_lines_size = m.c11_lines_size;
      c13_lines_size = m.c13_lines_size;
      module_name = raw_bytes m.module_name;
      object_file_name = raw_bytes m.object_file_name;
    } };
}

impl<'m> Module<'m> {
    /// The name of the module, mostly that of an object file, with U+FFFD for what is no character;
    /// borrowed where it is UTF-8, and then without memory.
    ///
    /// # Errors
    /// `OutOfMemory`, and no other.
    pub fn module_name(&self, alloc: Global) -> Result<CowStr<'m>>
        ensures text { IfOk result (λ text. cow_str_bytes text ≡ utf8_lossy self.now.module_name) }
        ensures borrowed { IsUtf8 self.now.module_name
            → IsOk result × IfOk result (λ text. IsBorrowedStr text) }
        ensures memory { IsOkUnless result Error.OutOfMemory }
    {
        self.module_name.to_string(alloc)
    }

    /// The name of the file from which the module was linked, mostly an archive or the object file
    /// itself, as [`Module::module_name`].
    ///
    /// # Errors
    /// `OutOfMemory`, and no other.
    pub fn object_file_name(&self, alloc: Global) -> Result<CowStr<'m>>
        ensures text { IfOk result (λ text. cow_str_bytes text
            ≡ utf8_lossy self.now.object_file_name) }
        ensures borrowed { IsUtf8 self.now.object_file_name
            → IsOk result × IfOk result (λ text. IsBorrowedStr text) }
        ensures memory { IsOkUnless result Error.OutOfMemory }
    {
        self.object_file_name.to_string(alloc)
    }

    /// The name of the module, as it stands in the list.
    pub fn raw_module_name(&self) -> RawString<'m>
        ensures { raw_bytes result ≡ self.now.module_name }
    {
        self.module_name
    }

    /// The name of the file from which the module was linked, as it stands in the list.
    pub fn raw_object_file_name(&self) -> RawString<'m>
        ensures { raw_bytes result ≡ self.now.object_file_name }
    {
        self.object_file_name
    }

    /// The number of the module's own stream.
    pub fn stream(&self) -> StreamIndex
        ensures { result.0 ≡ self.now.stream }
    {
        StreamIndex(self.stream)
    }

    /// The number of bytes of symbols at the stream's beginning, their signature among them.
    pub fn symbols_size(&self) -> u32
        ensures { result ≡ self.now.symbols_size }
    {
        self.symbols_size
    }

    /// The number of bytes of C11 line data (the older form) after the symbols.
    pub fn c11_lines_size(&self) -> u32
        ensures { result ≡ self.now.c11_lines_size }
    {
        self.c11_lines_size
    }

    /// The number of bytes of C13 line data after the C11 line data.
    pub fn c13_lines_size(&self) -> u32
        ensures { result ≡ self.now.c13_lines_size }
    {
        self.c13_lines_size
    }

    /// The module information in these bytes of the module's own stream. `OutOfMemory`, and no
    /// other.
    pub(crate) fn info<'s>(&self, alloc: Global, stream: Stream<'s>) -> Result<ModuleInfo<'s>>
        ensures { Gives (λ m. m) ⊥ result (Ok (module_stream self.now stream.entry)) }
    {
        let Module {
            symbols_size,
            c11_lines_size,
            c13_lines_size,
            ..
        } = self;
        ModuleInfo::new(
            alloc,
            stream,
            *symbols_size,
            *c11_lines_size,
            *c13_lines_size,
        )
    }
}

/// The modules in their order. Its value in contracts is the modules still to come.
#[derive(Debug, Drop)]
pub struct ModuleIter<'m> {
    buffer: ParseBuffer<'m>,
}

impl<'m> Model for ModuleIter<'m> {
    ghost use Rattle.pdb_container.specs.Buffer.{rest};
    ghost use Rattle.pdb_container.specs.Listing.{Listing};
    ghost use Rattle.pdb_symbols_modules.specs.Modules as modules;

    ghost Value = { Listing modules.Module };

    ghost view = { λ it. modules.modules_of (rest it.buffer) };
}

impl<'m> ModuleIter<'m> {
    /// The modules of a list.
    pub(crate) fn over(bytes: &'m [u8]) -> ModuleIter<'m>
        ensures { result ≡ modules_of bytes.now }
    {
        ModuleIter {
            buffer: ParseBuffer::from(bytes),
        }
    }
}

impl<'m> FallibleIterator for ModuleIter<'m> {
    type Item = Module<'m>;

    type Error = Error;

    ghost has_ended = { λ it. it ≡ ending None };

    ghost next_gives = { λ old result new. Advances (λ m. m) old result new };

    #[tactic(auto, using(pdb_container::proofs::Listings::listing_next, pdb_container::proofs::Listings::listing_fault, pdb_container::proofs::Listings::listing_end, pdb_container::proofs::Listings::listing_goes_on))]
    fn next(&mut self) -> Result<Option<Module<'m>>> {
        if self.buffer.is_empty() {
            return Ok(None);
        }
        match parse_module(&mut self.buffer) {
            Ok(module) => Ok(Some(module)),
            Err(fault) => {
                self.buffer = ParseBuffer::from(&[][..]);
                Err(fault)
            }
        }
    }
}

/// Goes from `size` bytes to the next multiple of four, or to the end.
fn skip_padding(buffer: &mut ParseBuffer<'_>, size: usize)
    ensures { rest buffer.new ≡ drop (padding size) (rest buffer.old) }
{
    let missing = padding_behind(size).min(buffer.len());
    let _ = buffer.take(missing);
}

/// One entry of the list. `UnexpectedEof`.
#[tactic(auto, unfolding(crate::specs::Modules::module_at))]
fn parse_module<'m>(buffer: &mut ParseBuffer<'m>) -> Result<Module<'m>>
    ensures value { ParsesFront (λ m. m) result (rest buffer.new) (module_at (rest buffer.old)) }
    ensures shorter { IfOk result (λ _. length (rest buffer.new) < length (rest buffer.old)) }
{
    let whole = buffer.len();
    buffer.take(34)?;
    let stream = buffer.parse_u16()?;
    let symbols_size = buffer.parse_u32()?;
    let c11_lines_size = buffer.parse_u32()?;
    let c13_lines_size = buffer.parse_u32()?;
    buffer.take(16)?;
    let module_name = buffer.parse_cstring()?;
    let object_file_name = buffer.parse_cstring()?;
    let size = whole.saturating_sub(buffer.len());
    skip_padding(buffer, size);
    Ok(Module {
        stream,
        symbols_size,
        c11_lines_size,
        c13_lines_size,
        module_name,
        object_file_name,
    })
}
