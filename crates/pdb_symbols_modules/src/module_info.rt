//! Module information: the content of a module's own stream.

ghost use Rattle.std.specs.Prelude.{◌≡◌, ◌<◌, ◌^◌, length, IfOk, Ok};
ghost use Rattle.pdb_container.specs.Fault.{Gives, Parses};
ghost use Rattle.pdb_symbols_modules.specs.ModuleStream.{signed as signed_bytes, symbol_list_bytes};
ghost use Rattle.pdb_symbols_modules.specs.ModuleStream.{iteration_in, line_data_in};
ghost use Rattle.pdb_symbols_modules.specs.ModuleStream.{line_program_in, with_parts};
ghost use Rattle.pdb_symbols_modules.specs.ModuleStream.{subsection_in, inlinees_in, imports_in};
ghost use Rattle.pdb_symbols_modules.specs.ModuleStream.{exports_in};
ghost use Rattle.pdb_subsections.specs.Subsections.{bytes_seen};

use pdb_container::{Error, ParseBuffer, Result, Stream, SymbolIndex};
use pdb_lines::{InlineeIterator, LineProgram};
use pdb_subsections::{
    CROSS_MODULE_EXPORTS, CROSS_MODULE_IMPORTS, CrossModuleExports, CrossModuleImports,
    INLINEE_LINES, find_subsection,
};
use pdb_symbol_records::SymbolIter;
use std::alloc::Global;
use std::marker::Model;
use std::sync::Arc;

/// The place of the first symbol: after the signature.
const FIRST_SYMBOL: SymbolIndex = SymbolIndex(4);

/// A module's information: the content of its own stream, which depends on the stream's bytes and
/// on the three sizes of its parts alone.
#[derive(Debug, Drop)]
pub struct ModuleInfo<'s> {
    stream: Arc<Stream<'s>>,
    symbols_size: u32,
    c11_lines_size: u32,
    c13_lines_size: u32,
}

impl<'s> Model for ModuleInfo<'s> {
    ghost use Rattle.pdb_symbols_modules.specs.ModuleStream.{ModuleStream};

    ghost Value = { ModuleStream };

    ghost view = { λ m. record {
      bytes = m.stream.value;
      symbols_size = m.symbols_size;
      c11_lines_size = m.c11_lines_size;
      c13_lines_size = m.c13_lines_size;
    } };
}

impl<'s> ModuleInfo<'s> {
    /// The information of a module from its stream and the sizes of that stream's parts in bytes:
    /// symbols, C11 line data, C13 line data.
    ///
    /// # Errors
    /// `OutOfMemory`.
    pub fn new(
        alloc: Global,
        stream: Stream<'s>,
        symbols_size: u32,
        c11_lines_size: u32,
        c13_lines_size: u32,
    ) -> Result<ModuleInfo<'s>>
        ensures { Gives (λ m. m) ⊥ result
            (Ok (with_parts stream.entry symbols_size c11_lines_size c13_lines_size)) }
    {
        match Arc::new(alloc, stream) {
            Ok(stream) => Ok(ModuleInfo {
                stream,
                symbols_size,
                c11_lines_size,
                c13_lines_size,
            }),
            Err(_) => Err(Error::OutOfMemory),
        }
    }

    /// The information of another module that names the same stream, with the sizes of its own
    /// parts. Both share the bytes.
    ///
    /// # Errors
    /// `OutOfMemory`.
    pub fn with_sizes(
        &self,
        symbols_size: u32,
        c11_lines_size: u32,
        c13_lines_size: u32,
    ) -> Result<ModuleInfo<'s>>
        ensures { Gives (λ m. m) ⊥ result
            (Ok (with_parts self.now.bytes symbols_size c11_lines_size c13_lines_size)) }
    {
        let stream = self.stream.clone()?;
        Ok(ModuleInfo {
            stream,
            symbols_size,
            c11_lines_size,
            c13_lines_size,
        })
    }

    /// The CodeView symbols in their order.
    ///
    /// # Errors
    /// `UnexpectedEof` where the stream is shorter than its symbols, `UnimplementedFeature` where
    /// they begin with another signature.
    pub fn symbols(&self) -> Result<SymbolIter<'_>>
        ensures { Parses (λ it. it) result (iteration_in self.now 4) }
    {
        self.symbols_at(FIRST_SYMBOL)
    }

    /// The CodeView symbols from a place of the stream on, in bytes.
    ///
    /// # Errors
    /// As [`ModuleInfo::symbols`].
    pub fn symbols_at(&self, index: SymbolIndex) -> Result<SymbolIter<'_>>
        ensures { Parses (λ it. it) result (iteration_in self.now index.0) }
    {
        let symbols = self.symbol_bytes()?;
        Ok(SymbolIter::over(symbols, index))
    }

    /// The line program: the module's lines (`DEBUG_S_LINES`) and files (`DEBUG_S_FILECHKSMS`).
    ///
    /// # Errors
    /// `UnimplementedFeature` for line data in the older form, `UnexpectedEof` where the stream or
    /// a part of it is short, `OutOfMemory`.
    #[tactic(auto, unfolding(crate::specs::ModuleStream::line_program_in))]
    pub fn line_program(&self, alloc: Global) -> Result<LineProgram<'_>>
        ensures { Gives (λ p. p) ⊥ result (line_program_in self.now) }
    {
        let line_data = self.line_data()?;
        LineProgram::parse(alloc, line_data)
    }

    /// The inlinees (`DEBUG_S_INLINEELINES`): functions that were inlined into the module; none
    /// where it has no list of them.
    ///
    /// # Errors
    /// As [`ModuleInfo::line_program`], without memory.
    #[tactic(auto, unfolding(crate::specs::ModuleStream::inlinees_in))]
    pub fn inlinees(&self) -> Result<InlineeIterator<'_>>
        ensures { Parses (λ i. i) result (inlinees_in self.now) }
    {
        match self.subsection(INLINEE_LINES)? {
            None => Ok(InlineeIterator::empty()),
            Some(bytes) => InlineeIterator::parse(bytes),
        }
    }

    /// The cross-module imports (`DEBUG_S_CROSSSCOPEIMPORTS`): types and ids of other modules; none
    /// where it has no table of them.
    ///
    /// # Errors
    /// As [`ModuleInfo::line_program`].
    #[tactic(auto, unfolding(crate::specs::ModuleStream::imports_in))]
    pub fn imports(&self, alloc: Global) -> Result<CrossModuleImports<'_>>
        ensures { Gives (λ i. i) ⊥ result (imports_in self.now) }
    {
        match self.subsection(CROSS_MODULE_IMPORTS)? {
            None => Ok(CrossModuleImports::empty(alloc)),
            Some(bytes) => CrossModuleImports::parse(alloc, bytes),
        }
    }

    /// The cross-module exports (`DEBUG_S_CROSSSCOPEEXPORTS`): types and ids that other modules may
    /// use; none where it has no table of them.
    ///
    /// # Errors
    /// As [`ModuleInfo::line_program`], without memory.
    #[tactic(auto, unfolding(crate::specs::ModuleStream::exports_in))]
    pub fn exports(&self) -> Result<CrossModuleExports<'_>>
        ensures { Parses (λ e. e) result (exports_in self.now) }
    {
        match self.subsection(CROSS_MODULE_EXPORTS)? {
            None => Ok(CrossModuleExports::default()),
            Some(bytes) => CrossModuleExports::parse(bytes),
        }
    }

    /// The bytes of the symbols, with their signature. `UnexpectedEof`, `UnimplementedFeature`.
    #[tactic(auto, unfolding(crate::specs::ModuleStream::symbol_list_bytes))]
    fn symbol_bytes(&self) -> Result<&[u8]>
        ensures bytes { Parses (λ bytes. bytes.now) result (symbol_list_bytes self.now) }
        ensures few { IfOk result (λ bytes. length bytes.now < 2 ^ 32) }
    {
        let bytes = self.stream.as_slice();
        let size = self.symbols_size as usize;
        if bytes.len() < size {
            return Err(Error::UnexpectedEof);
        }
        let (symbols, _) = bytes.split_at(size);
        signed(symbols)
    }

    /// The line data. `UnimplementedFeature` where there are line data in the older form,
    /// `UnexpectedEof`.
    #[tactic(auto, unfolding(crate::specs::ModuleStream::line_data_in))]
    fn line_data(&self) -> Result<&[u8]>
        ensures { Parses (λ bytes. bytes.now) result (line_data_in self.now) }
    {
        if self.c11_lines_size > 0 {
            return Err(Error::UnimplementedFeature("C11 line programs"));
        }
        let bytes = self.stream.as_slice();
        let start = self.symbols_size as usize;
        let size = self.c13_lines_size as usize;
        if bytes.len() < start + size {
            return Err(Error::UnexpectedEof);
        }
        let (line_data, _) = bytes[start..].split_at(size);
        Ok(line_data)
    }

    /// The bytes of the first subsection of a kind.
    #[tactic(auto, unfolding(crate::specs::ModuleStream::subsection_in))]
    fn subsection(&self, kind: u32) -> Result<Option<&[u8]>>
        ensures { Parses bytes_seen result (subsection_in self.now kind) }
    {
        let line_data = self.line_data()?;
        find_subsection(line_data, kind)
    }
}

/// Bytes that begin with the signature of symbols, or none. `UnexpectedEof`,
/// `UnimplementedFeature`.
#[tactic(auto, unfolding(crate::specs::ModuleStream::signed))]
fn signed(bytes: &[u8]) -> Result<&[u8]>
    ensures value { Parses (λ found. found.now) result (signed_bytes bytes.now) }
    ensures same { IfOk result (λ found. found.now ≡ bytes.now) }
{
    if bytes.is_empty() {
        return Ok(bytes);
    }
    let signature = ParseBuffer::from(bytes).parse_u32()?;
    if signature != 4 {
        return Err(Error::UnimplementedFeature("symbol signature"));
    }
    Ok(bytes)
}
