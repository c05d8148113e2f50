//! A database that is held, of which formatters and contexts are made.

ghost use Rattle.std.specs.Prelude.{◌≡◌, ◌≤◌, IfOk, IsOkUnless, Ok};
ghost use Rattle.pdb_addresses.specs.Addresses.{IsOrdered};
ghost use Rattle.pdb_container.specs.Fault.{HasRisen};
ghost use Rattle.pdb_addr2line.specs.Formatters.{context_in, context_of_modules, context_with};
ghost use Rattle.pdb_addr2line.specs.Formatters.{formatting_of, with_modules};
ghost use Rattle.pdb_loading.specs.Held.{parts_held_with, read_in, IsOwn};
ghost use Rattle.pdb_loading.specs.StreamReads.{IsOwnFrom};
ghost use Rattle.pdb_resolving.specs.Fault.{Answers};
ghost use Rattle.pdb_addr2line.specs.Refused.{CanFail, Loads, LoadsFrom, read_of_file};
ghost use Rattle.pdb_symbols_modules.specs.Streams.{streams};

use crate::context::Context;
use pdb_addresses::AddressMap;
use pdb_answers::ContextParts;
use pdb_answers::maybe_owned::MaybeOwned;
use pdb_container::{Result, Source};
use pdb_file_views::FileSource;
use pdb_loading::{
    ContributionOrder, HeldDatabase, KeptModules, collect_modules, hold_database, read_database,
};
use pdb_names::TypeFormatter;
use pdb_resolving::{Error, ModuleProvider};
use pdb_symbol_records::SymbolTable;
use pdb_symbols_modules::{DebugInformation, Module, ModuleInfo, PDB};
use pdb_type_printing::TypeFormatterFlags;
use std::alloc::Global;
use std::marker::{Model, PhantomData};

/// A database that is held, of which formatters and contexts are made: everything of it that they
/// go over, read once and owned. `'p` is how long the database itself may be borrowed by others;
/// nothing is read of it any more, but of a file ([`ContextPdbData::try_from_file`]) the modules'
/// own streams, when they are first asked for.
pub struct ContextPdbData<'p, 's, S: Source> {
    held: HeldDatabase<'s>,
    of: PhantomData<&'p S>,
}

impl<'p, 's, S: Source> Model for ContextPdbData<'p, 's, S> {
    ghost use Rattle.std.specs.Prelude.{◌≡◌, None};
    ghost use Rattle.pdb_symbols_modules.specs.Modules.{modules_of};
    ghost use Rattle.pdb_loading.specs.Held.{Held};

    ghost Value = { Held };

    ghost view = { λ d. d.held };

    ghost invariant = { λ d. (modules_of d.held.debug_information.modules).fault ≡ None };
}

impl<'p, 's, S: Source> Drop for ContextPdbData<'p, 's, S> {
    fn drop(self) {
        let ContextPdbData { held, of: _ } = self;
        drop(held);
    }
}

impl<'p, 's, S: Source + Drop> ContextPdbData<'p, 's, S> {
    /// Reads all that formatters and contexts need of a database that is open, and lets go of it.
    ///
    /// # Errors
    /// The first fault in this order, as `PdbError`: stream 3 and its header; the symbol records'
    /// stream; types and ids with their headers; the optional header, section headers, those before
    /// the image's code was moved, and, where these exist, the map to them and the map back; the
    /// module list. `OutOfMemory`. The names table and the modules' own streams are missing where
    /// they can't be read.
    #[tactic(auto, using(crate::proofs::Refusals::refused_once, crate::proofs::Refusals::own_if_loaded))]
    pub fn try_from_pdb(
        alloc: Global,
        mut pdb: PDB<'s, S>,
    ) -> std::result::Result<ContextPdbData<'p, 's, S>, Error>
        ensures loads { Loads read_in (CanFail S.bytes S.failures pdb.entry) result
            (read_of_file (S.bytes pdb.entry)) }
        ensures own { IfOk result
            (λ d. IsOwn (streams (S.bytes pdb.entry)) (CanFail S.bytes S.failures pdb.entry) d) }
    {
        ContextPdbData::try_from_pdb_ref(alloc, &mut pdb)
    }

    /// Reads a database that has another owner. It answers the same questions afterwards as before.
    ///
    /// # Errors
    /// As [`ContextPdbData::try_from_pdb`].
    #[tactic(auto, using(crate::proofs::Refusals::refused))]
    pub fn try_from_pdb_ref(
        alloc: Global,
        pdb: &mut PDB<'s, S>,
    ) -> std::result::Result<ContextPdbData<'p, 's, S>, Error>
        ensures same { S.bytes pdb.new ≡ S.bytes pdb.old }
        ensures counts { S.failures pdb.old ≤ S.failures pdb.new }
        ensures loads { LoadsFrom S.bytes S.failures pdb.old pdb.new result }
        ensures own { IfOk result (IsOwnFrom S.bytes S.failures pdb.old pdb.new) }
    {
        match read_database(pdb, alloc) {
            Ok(held) => Ok(ContextPdbData::from_held(held)),
            Err(error) => Err(Error::from(error)),
        }
    }
}

impl<'p, 's> ContextPdbData<'p, 's, FileSource> {
    /// Reads all that formatters and contexts need of a file's database that is open, and holds the
    /// file: the modules' own streams are read when they are first asked for.
    ///
    /// # Errors
    /// The errors of [`ContextPdbData::try_from_pdb`], but none of a source.
    #[tactic(auto, using(crate::proofs::Refusals::refused))]
    pub fn try_from_file(
        alloc: Global,
        pdb: PDB<'s, FileSource>,
    ) -> std::result::Result<ContextPdbData<'p, 's, FileSource>, Error>
        ensures loads { Loads read_in (HasRisen 0 0) result (read_of_file pdb.entry) }
        ensures own { IfOk result (λ d. IsOwn (streams pdb.entry) (HasRisen 0 0) d) }
    {
        match hold_database(alloc, pdb) {
            Ok(held) => Ok(ContextPdbData::from_held(held)),
            Err(error) => Err(Error::from(error)),
        }
    }
}

impl<'p, 's, S: Source> ContextPdbData<'p, 's, S> {
    /// A database for contexts and formatters, from one that is held.
    pub fn from_held(held: HeldDatabase<'s>) -> ContextPdbData<'p, 's, S>
        ensures { result ≡ held.entry }
    {
        ContextPdbData {
            held,
            of: PhantomData,
        }
    }

    /// The address map, between RVAs and places in sections; whether the sources of its OMAPs
    /// decrease is asked there.
    pub fn address_map(&self) -> &AddressMap<'s>
        ensures { result.now ≡ self.now.tables.map }
    {
        &self.held.tables.address_map
    }

    /// Stream 3 (DBI).
    pub fn debug_information(&self) -> &DebugInformation<'s>
        ensures { result.now ≡ self.now.debug_information }
    {
        &self.held.debug_information
    }

    /// The symbol records, public symbols among them.
    pub fn symbol_records(&self) -> &SymbolTable<'s>
        ensures { result.now ≡ self.now.tables.symbol_records }
    {
        &self.held.tables.symbol_records
    }

    /// The modules' own streams.
    pub fn modules(&self) -> &KeptModules<'s>
        ensures { result.now ≡ self.now.infos }
    {
        &self.held.modules
    }

    /// A formatter of types over what was read, with the default flags.
    ///
    /// # Errors
    /// `OutOfMemory` alone.
    pub fn make_type_formatter(
        &self,
        alloc: Global,
    ) -> std::result::Result<TypeFormatter<'_, 's, KeptModules<'s>>, Error>
        ensures parts { IfOk result (λ f. f ≡ formatting_of self.now 23) }
        ensures memory { IsOkUnless result Error.OutOfMemory }
    {
        self.make_type_formatter_with_flags(alloc, TypeFormatterFlags::default())
    }

    /// A formatter of types over what was read, with these flags.
    ///
    /// # Errors
    /// `OutOfMemory` alone.
    pub fn make_type_formatter_with_flags(
        &self,
        alloc: Global,
        flags: TypeFormatterFlags,
    ) -> std::result::Result<TypeFormatter<'_, 's, KeptModules<'s>>, Error>
        ensures parts { IfOk result (λ f. f ≡ formatting_of self.now flags.bits) }
        ensures memory { IsOkUnless result Error.OutOfMemory }
    {
        self.make_type_formatter_over(alloc, &self.held.modules, flags)
    }

    /// A formatter of types over what was read, but for the modules' own streams, which these give;
    /// with these flags.
    ///
    /// # Errors
    /// `OutOfMemory` alone.
    #[tactic(auto, using(pdb_loading::proofs::HeldSteps::same_modules, pdb_loading::proofs::HeldSteps::memory_alone))]
    pub fn make_type_formatter_over<'a>(
        &'a self,
        alloc: Global,
        modules: &'a KeptModules<'s>,
        flags: TypeFormatterFlags,
    ) -> std::result::Result<TypeFormatter<'a, 's, KeptModules<'s>>, Error>
        ensures parts { IfOk result (λ f. f
            ≡ formatting_of (with_modules self.now modules.now) flags.bits) }
        ensures memory { IsOkUnless result Error.OutOfMemory }
    {
        let entries = collect_modules(alloc, self.held.debug_information.modules())?;
        let formatter = TypeFormatter::new_from_parts(
            alloc,
            modules,
            entries,
            &self.held.debug_information,
            &self.held.tables.types,
            &self.held.tables.ids,
            self.held.names.as_ref(),
            flags,
        )?;
        Ok(formatter)
    }

    /// A context over what was read, whose formatter has the default flags. The sources of the
    /// OMAPs may not decrease.
    ///
    /// # Errors
    /// As [`Context::new_from_parts`].
    pub fn make_context(
        &self,
        alloc: Global,
    ) -> std::result::Result<Context<'_, 's, KeptModules<'s>>, Error>
        requires { IsOrdered self.now.tables.map }
        ensures { Answers (λ c. c) result (context_in self.now 23) }
    {
        self.make_context_with_formatter_flags(alloc, TypeFormatterFlags::default())
    }

    /// A context over what was read, whose formatter has these flags. The sources of the OMAPs may
    /// not decrease.
    ///
    /// # Errors
    /// As [`Context::new_from_parts`].
    pub fn make_context_with_formatter_flags(
        &self,
        alloc: Global,
        flags: TypeFormatterFlags,
    ) -> std::result::Result<Context<'_, 's, KeptModules<'s>>, Error>
        requires { IsOrdered self.now.tables.map }
        ensures { Answers (λ c. c) result (context_in self.now flags.bits) }
    {
        self.make_context_with_order(alloc, flags, ContributionOrder::InOrder)
    }

    /// The parts that every question goes over, where section contributions have to stand in that
    /// order.
    fn parts(
        &self,
        alloc: Global,
        order: ContributionOrder,
    ) -> std::result::Result<ContextParts<'_, 's>, Error>
        requires { IsOrdered self.now.tables.map }
        ensures { Answers (λ p. p) result (parts_held_with order self.now) }
    {
        match order {
            ContributionOrder::InOrder => ContextParts::new(
                alloc,
                self.held.tables.address_map.image_section_headers(),
                &self.held.tables.address_map,
                &self.held.tables.symbol_records,
                self.held.names.as_ref(),
                &self.held.debug_information,
            ),
            ContributionOrder::Any => ContextParts::in_any_order(
                alloc,
                self.held.tables.address_map.image_section_headers(),
                &self.held.tables.address_map,
                &self.held.tables.symbol_records,
                self.held.names.as_ref(),
                &self.held.debug_information,
            ),
        }
    }

    /// A context as [`ContextPdbData::make_context_with_formatter_flags`] makes it, where section
    /// contributions have to stand in that order. In any order, where merging them is refused for
    /// their order, the first one in the order of the file that holds a place is its holder. GNU ld
    /// before 2.44 writes such databases.
    ///
    /// # Errors
    /// As [`Context::new_from_parts`]; in any order no `UnorderedSectionContributions`.
    pub fn make_context_with_order(
        &self,
        alloc: Global,
        flags: TypeFormatterFlags,
        order: ContributionOrder,
    ) -> std::result::Result<Context<'_, 's, KeptModules<'s>>, Error>
        requires { IsOrdered self.now.tables.map }
        ensures { Answers (λ c. c) result (context_with order self.now flags.bits) }
    {
        let formatter = self.make_type_formatter_with_flags(alloc, flags)?;
        let parts = self.parts(alloc, order)?;
        Context::with_parts(
            alloc,
            &self.held.modules,
            parts,
            MaybeOwned::Owned(formatter),
        )
    }

    /// A context over what was read, but for the modules' own streams, which `modules` gives. It
    /// takes the parts of a context that was made before ([`Context::into_parts`]), and its
    /// formatter has the default flags. Nothing of the tables is read again.
    ///
    /// # Errors
    /// `OutOfMemory` alone.
    pub fn make_context_over<'a>(
        &'a self,
        alloc: Global,
        modules: &'a KeptModules<'s>,
        parts: ContextParts<'a, 's>,
    ) -> std::result::Result<Context<'a, 's, KeptModules<'s>>, Error>
        ensures { Answers (λ c. c) result
            (context_of_modules self.now modules.now 23 parts.entry) }
    {
        let flags = TypeFormatterFlags::default();
        self.make_context_over_with_formatter_flags(alloc, modules, parts, flags)
    }

    /// A context as [`ContextPdbData::make_context_over`] makes it, whose formatter has these
    /// flags.
    ///
    /// # Errors
    /// `OutOfMemory` alone.
    pub fn make_context_over_with_formatter_flags<'a>(
        &'a self,
        alloc: Global,
        modules: &'a KeptModules<'s>,
        parts: ContextParts<'a, 's>,
        flags: TypeFormatterFlags,
    ) -> std::result::Result<Context<'a, 's, KeptModules<'s>>, Error>
        ensures { Answers (λ c. c) result
            (context_of_modules self.now modules.now flags.bits parts.entry) }
    {
        let formatter = self.make_type_formatter_over(alloc, modules, flags)?;
        Context::with_parts(alloc, modules, parts, MaybeOwned::Owned(formatter))
    }
}

/// A module goes by its number alone. The fault of its stream is answered as `Kept`.
impl<'p, 's, S: Source> ModuleProvider for ContextPdbData<'p, 's, S> {
    ghost use Rattle.pdb_loading.specs.ModuleInfos.{answered_at};
    ghost use Rattle.pdb_loading.specs.Provided.{faults_kept};

    type Info = ModuleInfo<'s>;

    ghost provided = { λ d number entry. answered_at d.infos number };

    fn get_module_info(
        &self,
        module_index: usize,
        module: &Module<'_>,
    ) -> Result<Option<&ModuleInfo<'s>>> {
        self.held.modules.get_module_info(module_index, module)
    }

    fn size_hint(&self) -> u64 {
        self.held.modules.size_hint()
    }

    ghost faults_of_modules = { λ d number entry. faults_kept d.infos number };
}
