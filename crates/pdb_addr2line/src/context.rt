//! A context: answers about addresses of an image.

ghost use Rattle.std.specs.Prelude.{◌≡◌, ◌≤◌, true, Ok, length};
ghost use Rattle.std.specs.Prelude.{option_copied};
ghost use Rattle.pdb_addresses.specs.Addresses.{IsOrdered};
ghost use Rattle.pdb_resolving.specs.Fault.{Answers};
ghost use Rattle.pdb_answers.specs.Choice.{place_of};
ghost use Rattle.pdb_answers.specs.PlaceAnswers.{GivesKey};
ghost use Rattle.pdb_addr2line.specs.Context.{MakesContext, context_from, context_over, lasting};
ghost use Rattle.pdb_addr2line.specs.Context.{lookups_after, uncounted};
ghost use Rattle.pdb_addr2line.specs.ContextAnswers.{AnswersAlike, CountsLookup, FailsAlike};
ghost use Rattle.pdb_addr2line.specs.ContextAnswers.{IsRunOf, StoresFailed};
ghost use Rattle.pdb_addr2line.specs.ContextAnswers.{database_in, failing_of, failing_on};
ghost use Rattle.pdb_addr2line.specs.ContextAnswers.{function_of, function_of_key, function_on};
ghost use Rattle.pdb_addr2line.specs.ContextAnswers.{told_of, told_on};
ghost use Rattle.pdb_answers.specs.MaybeOwned.{value_of};

use pdb_addresses::{AddressMap, ImageSectionHeader, PdbInternalSectionOffset, Rva};
use pdb_answers::maybe_owned::MaybeOwned;
use pdb_answers::{ContextParts, Namer, PlaceSymbolizer};
use pdb_container::StringTable;
use pdb_names::TypeFormatter;
use pdb_owners::{Function, FunctionFrames, FunctionKey, SharedFunctionFrames};
use pdb_resolving::{Error, ModuleProvider, Result};
use pdb_symbol_records::SymbolTable;
use pdb_symbols_modules::DebugInformation;
use std::alloc::Global;
use std::marker::Model;

/// A context: it answers which function and which frames an address of the image has. What was
/// asked before shows in no answer.
pub struct Context<'a, 's, P: ModuleProvider> {
    pub(crate) symbolizer: PlaceSymbolizer<'a, 's, P>,
    pub(crate) starts: Option<Vec<u32>>,
    lookups: u64,
}

impl<'a, 's, P: ModuleProvider> Model for Context<'a, 's, P> {
    ghost use Rattle.std.specs.Prelude.{option_map};
    ghost use Rattle.pdb_addr2line.specs.Context as contexts;
    ghost use Rattle.pdb_frames.specs.Scopes.{entries_of, scope_of};
    ghost use Rattle.pdb_addr2line.specs.Starts.{start_addresses, AreStarts};

    ghost Value = { contexts.Context P };

    ghost view = { λ c. record {
      provider = c.symbolizer.provider;
      parts = c.symbolizer.parts;
      formatting = c.symbolizer.formatting;
      lookups = c.lookups;
      failed = c.symbolizer.failed;
    } };

    // The starts that are cached are the starts of the file's functions.
    ghost invariant = { λ c.
        AreStarts
        (start_addresses c.symbolizer.parts
        (scope_of P.provided c.symbolizer.provider c.symbolizer.formatting)
        (entries_of c.symbolizer.formatting))
        (option_map (λ v. v.items) c.starts) };
}

impl<'a, 's, P: ModuleProvider> Drop for Context<'a, 's, P> {
    fn drop(self) {
        let Context {
            symbolizer,
            starts,
            lookups: _,
        } = self;
        drop(symbolizer);
        drop(starts);
    }
}

/// The place of an RVA, if it has one.
pub(crate) fn place_at(parts: &ContextParts<'_, '_>, probe: u32) -> Option<PdbInternalSectionOffset>
    ensures { result ≡ place_of parts.now probe }
{
    Rva(probe).to_internal_offset(parts.address_map)
}

/// Frames that were found, with names of their own.
fn owned_frames<'a>(
    alloc: Global,
    found: Result<Option<SharedFunctionFrames<'a>>>,
) -> Result<Option<FunctionFrames<'a>>>
    ensures failed { FailsAlike result found.entry }
    ensures frames { AnswersAlike (λ f. f) found.entry result }
{
    match found? {
        None => Ok(None),
        Some(frames) => {
            let frames = frames.to_frames(alloc)?;
            Ok(Some(frames))
        }
    }
}

impl<'a, 's, P: ModuleProvider> Context<'a, 's, P> {
    /// A context over the provider of the modules, the sections of the image, the address map, the
    /// symbol records, the string table (`/names`), the DBI stream, and a formatter of types. The
    /// sources of the OMAPs must not decrease ([`AddressMap::is_ordered`]).
    ///
    /// # Errors
    /// `SymbolTooShort` and `UnexpectedEof` of the symbol records, as `PdbError`; then the section
    /// contributions' faults: `UnimplementedFeature` and `UnexpectedEof`, as `PdbError`,
    /// `UnorderedSectionContributions`, `OverlappingSectionContributions`. `OutOfMemory`.
    pub fn new_from_parts(
        alloc: Global,
        provider: &'a P,
        sections: &[ImageSectionHeader],
        address_map: &'a AddressMap<'s>,
        global_symbols: &'a SymbolTable<'s>,
        string_table: Option<&'a StringTable<'s>>,
        debug_info: &DebugInformation<'_>,
        type_formatter: MaybeOwned<'a, TypeFormatter<'a, 's, P>>,
    ) -> Result<Context<'a, 's, P>>
        requires { IsOrdered address_map.now }
        ensures { MakesContext result (context_from provider.now (value_of type_formatter.entry)
            sections.now address_map.now global_symbols.now debug_info.now
            (option_copied string_table.entry)) }
    {
        let parts = ContextParts::new(
            alloc,
            sections,
            address_map,
            global_symbols,
            string_table,
            debug_info,
        )?;
        Context::with_parts(alloc, provider, parts, type_formatter)
    }

    /// A context over the provider of the modules, parts that were made before
    /// ([`ContextParts::new`], [`Context::into_parts`]), and a formatter of types. Nothing of the
    /// database is read.
    ///
    /// # Errors
    /// `OutOfMemory` alone.
    pub fn with_parts(
        alloc: Global,
        provider: &'a P,
        parts: ContextParts<'a, 's>,
        type_formatter: MaybeOwned<'a, TypeFormatter<'a, 's, P>>,
    ) -> Result<Context<'a, 's, P>>
        ensures { MakesContext result
            (context_over provider.now (value_of type_formatter.entry) (Ok parts.entry)) }
    {
        let namer = Namer::new(alloc, type_formatter);
        let symbolizer = PlaceSymbolizer::new(alloc, provider, parts, namer)?;
        Ok(Context {
            symbolizer,
            starts: None,
            lookups: 0,
        })
    }

    /// The provider of the modules.
    pub fn provider(&self) -> &'a P
        ensures { result.now ≡ self.now.provider }
    {
        self.symbolizer.provider()
    }

    /// The parts that every question goes over, for another context over the same tables
    /// ([`Context::with_parts`]). What was cached of modules, names and starts is let go.
    pub fn into_parts(self) -> ContextParts<'a, 's>
        ensures { result ≡ self.entry.parts }
    {
        let Context {
            symbolizer,
            starts,
            lookups: _,
        } = self;
        drop(starts);
        symbolizer.into_parts()
    }

    /// The number of entries of the public list: public symbols and placeholders, one for each
    /// place.
    pub fn function_count(&self) -> usize
        ensures { result ≡ length self.now.parts.publics }
    {
        self.symbolizer.parts().publics.len()
    }

    /// The number of places that were looked up: one for each run, and for each question about an
    /// RVA that has a place, unless it was refused for lack of memory. At `u64::MAX` the count
    /// stays. No clause says how many [`Context::functions`] adds.
    pub fn lookups(&self) -> u64
        ensures { result ≡ self.now.lookups }
    {
        self.lookups
    }

    /// Counts a place that was looked up, unless memory ran short.
    pub(crate) fn counted<T>(&mut self, answer: Result<T>) -> Result<T>
        ensures answer { result ≡ answer }
        ensures same { uncounted self.new ≡ uncounted self.old }
        ensures lookups { self.new.lookups ≡ lookups_after true answer self.old.lookups }
    {
        match answer {
            Err(Error::OutOfMemory) => Err(Error::OutOfMemory),
            answer => {
                self.lookups = self.lookups.saturating_add(1);
                answer
            }
        }
    }

    /// The frames at a place; it isn't counted.
    fn find_at(
        &mut self,
        alloc: Global,
        place: PdbInternalSectionOffset,
    ) -> Result<Option<SharedFunctionFrames<'a>>>
        ensures same { lasting self.new ≡ lasting self.old }
        ensures lookups { self.new.lookups ≡ self.old.lookups }
        ensures failed { StoresFailed (failing_on P.provided self.old place) self.old result
            self.new }
        ensures frames { Answers (λ f. f) result (told_on P.provided self.old place) }
    {
        self.symbolizer.frames(alloc, place)
    }

    /// The frames at an RVA: the inlined calls over it, innermost first, and then the function.
    /// `None` where there is no function.
    ///
    /// # Errors
    /// Where the module's data are there and a part of them can't be read, the first part's fault,
    /// in the order line program, inlinees, rows of the function's `DEBUG_S_LINES`, inline sites:
    /// `PdbError`, `ProcedureInlineRangesUnsuccessful`. From then on the part stands as failed, and
    /// its fault is `ExtendedModuleInfoUnsuccessful`, `ProcedureLinesUnsuccessful` or
    /// `ProcedureInlineRangesUnsuccessful`. `OutOfMemory`, and then nothing stands as failed that
    /// did not before.
    #[tactic(auto, unfolding(pdb_frames::specs::FramesAt::frames))]
    pub fn find_frames(&mut self, alloc: Global, probe: u32) -> Result<Option<FunctionFrames<'a>>>
        ensures same { lasting self.new ≡ lasting self.old }
        ensures failed { StoresFailed (failing_of P.provided self.old probe) self.old result
            self.new }
        ensures lookups { CountsLookup (place_of self.old.parts probe) self.old result self.new }
        ensures frames { Answers (λ f. f) result (told_of P.provided self.old probe) }
    {
        let Some(place) = place_at(self.symbolizer.parts(), probe) else {
            return Ok(None);
        };
        let found = self.find_at(alloc, place);
        let frames = owned_frames(alloc, found);
        self.counted(frames)
    }

    /// The frames at an RVA as [`Context::find_frames`] finds them, with names that are shared with
    /// the context's cache, so that none is copied.
    ///
    /// # Errors
    /// The errors of [`Context::find_frames`].
    #[tactic(auto, unfolding(pdb_frames::specs::FramesAt::frames))]
    pub fn find_shared_frames(
        &mut self,
        alloc: Global,
        probe: u32,
    ) -> Result<Option<SharedFunctionFrames<'a>>>
        ensures same { lasting self.new ≡ lasting self.old }
        ensures failed { StoresFailed (failing_of P.provided self.old probe) self.old result
            self.new }
        ensures lookups { CountsLookup (place_of self.old.parts probe) self.old result self.new }
        ensures frames { Answers (λ f. f) result (told_of P.provided self.old probe) }
    {
        let Some(place) = place_at(self.symbolizer.parts(), probe) else {
            return Ok(None);
        };
        let frames = self.find_at(alloc, place);
        self.counted(frames)
    }

    /// The function at an RVA, if there is one.
    ///
    /// # Errors
    /// `OutOfMemory` alone.
    #[tactic(auto, unfolding(pdb_frames::specs::FramesAt::function))]
    pub fn find_function(&mut self, alloc: Global, probe: u32) -> Result<Option<Function>>
        ensures same { uncounted self.new ≡ uncounted self.old }
        ensures lookups { CountsLookup (place_of self.old.parts probe) self.old result self.new }
        ensures function { Answers (λ f. f) result (Ok (function_of P.provided self.old probe)) }
    {
        let Some(place) = place_at(self.symbolizer.parts(), probe) else {
            return Ok(None);
        };
        let function = self.symbolizer.function(alloc, place);
        self.counted(function)
    }

    /// Returns the function at a place, if there is one, and the number of bytes from there on over
    /// which it is the same: the lesser of `limit`, which is at least 1, and the distance to the
    /// next bound in the section. Bounds are where a contribution begins or ends, where a procedure
    /// of the module that holds the place begins or ends, and where a public entry begins.
    ///
    /// # Errors
    /// `OutOfMemory` alone.
    pub fn find_function_run(
        &mut self,
        alloc: Global,
        offset: PdbInternalSectionOffset,
        limit: u32,
    ) -> Result<(Option<Function>, u32)>
        requires { 1 ≤ limit }
        ensures same { uncounted self.new ≡ uncounted self.old }
        ensures lookups { self.new.lookups ≡ lookups_after true result self.old.lookups }
        ensures function { Answers (λ run. run.0) result
            (Ok (function_on P.provided self.old offset)) }
        ensures count { IsRunOf (database_in P.provided self.old) offset limit result }
    {
        let run = self.symbolizer.run(alloc, offset, limit);
        self.counted(run)
    }

    /// Returns a key of the function at a place, if there is one, and how far it goes on, as
    /// [`Context::find_function_run`] counts it. No name is made.
    ///
    /// # Errors
    /// `OutOfMemory` alone.
    pub fn find_key_run(
        &mut self,
        alloc: Global,
        offset: PdbInternalSectionOffset,
        limit: u32,
    ) -> Result<(Option<FunctionKey>, u32)>
        requires { 1 ≤ limit }
        ensures same { uncounted self.new ≡ uncounted self.old }
        ensures lookups { self.new.lookups ≡ lookups_after true result self.old.lookups }
        ensures function { GivesKey (function_of_key P.provided self.old)
            (function_on P.provided self.old offset) result }
        ensures count { IsRunOf (database_in P.provided self.old) offset limit result }
    {
        let run = self.symbolizer.key_run(alloc, offset, limit);
        self.counted(run)
    }

    /// Returns the function that a key stands for, if there is one. It isn't counted as a lookup.
    ///
    /// # Errors
    /// `OutOfMemory` alone.
    pub fn function_by_key(&mut self, alloc: Global, key: &FunctionKey) -> Result<Option<Function>>
        ensures same { self.new ≡ self.old }
        ensures function { Answers (λ f. f) result
            (Ok (function_of_key P.provided self.old key.now)) }
    {
        self.symbolizer.function_by_key(alloc, key)
    }
}
