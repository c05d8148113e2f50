//! A file that was loaded.

ghost use Rattle.std.specs.Prelude.{◌≡◌, IfOk, OnOk, IfErr, IsOkUnless, None, Some};
ghost use Rattle.pdb_addresses.specs.Addresses.{IsOrdered};
ghost use Rattle.pdb_addr2line.specs.FailingParts.{no_failures};
ghost use Rattle.pdb_loading.specs.declared.load_fault.LoadFault.TheVariants as faults;
ghost use Rattle.pdb_loading.specs.LoadFaults.{Refuses};
ghost use Rattle.pdb_loading.specs.LoadedFile.{IsLoadedWith};
ghost use Rattle.pdb_loading.specs.Loading.{load_fault, load_fault_with};
ghost use Rattle.pdb_addr2line.specs.Answer.{AnswersNamed, AnswersWith, answered_in, map_with};
ghost use Rattle.pdb_addr2line.specs.FileFormatters.{IsFormatterOf};
ghost use Rattle.pdb_addr2line.specs.Identity.{FailsIdentity, HasIdentity};
ghost use Rattle.pdb_symbols_modules.specs.Streams.{streams};

use crate::file_symbolizer::{FileContext, Held};
use crate::identity::identity_of_source;
use crate::pdb_data::ContextPdbData;
use pdb_addresses::AddressMap;
use pdb_container::SharedBytes;
use pdb_file_views::FileSource;
use pdb_image::PdbIdentity;
use pdb_loading::{ContributionOrder, KeptModules, LoadFault, LoadedFile, load_file};
use pdb_names::TypeFormatter;
use pdb_type_printing::TypeFormatterFlags;
use std::alloc::Global;
use std::marker::Model;

/// A symbolizer: a program database that was loaded, of which contexts are made. Its value in
/// contracts is the file's bytes, with the order in which section contributions have to stand.
pub struct Symbolizer {
    file: FileSource,
    order: ContributionOrder,
    held: Held,
}

impl Model for Symbolizer {
    ghost use Rattle.pdb_loading.specs.LoadedFile.{FileBytes, IsLoadedWith};

    ghost Value = { FileBytes };

    ghost view = { λ s. record { bytes = s.file; order = s.order } };

    ghost invariant = { λ s. IsLoadedWith s.order s.file s.held };
}

impl Drop for Symbolizer {
    fn drop(self) {
        let Symbolizer {
            file,
            order: _,
            held,
        } = self;
        drop(file);
        drop(held);
    }
}

/// A symbolizer of a file that was loaded.
fn of_loaded(loaded: LoadedFile) -> Symbolizer
    ensures { result ≡ loaded }
{
    let order = loaded.order;
    let (file, held) = loaded.into_parts();
    Symbolizer {
        file,
        order,
        held: ContextPdbData::from_held(held),
    }
}

impl Symbolizer {
    /// Loads the program database of a file's bytes: everything that keeps the file from being
    /// answered is found here. A module's own stream is read when it is first asked for, so it
    /// keeps no file from being loaded. No stream is copied that lies in the file in one piece, and
    /// copies take no more than 1 MB and seven times the file's bytes.
    ///
    /// # Errors
    /// The first fault, in the order in which a file is read: the container; stream 3 and its
    /// header; the stream of symbol records, types and ids with their headers; the address tables;
    /// `AddressTableDecreases` where the sources of an OMAP decrease; the module list; the symbol
    /// records to their end; the section contributions. `OutOfMemory`.
    pub fn open(alloc: Global, bytes: Vec<u8>) -> Result<Symbolizer, LoadFault>
        ensures ok { IfOk result
            (λ s. s ≡ record { bytes = bytes.items; order = ContributionOrder.InOrder }) }
        ensures loaded { OnOk result (load_fault (streams bytes.items) ≡ None) }
        ensures refused { IfErr result (λ e. Refuses e (load_fault (streams bytes.items))) }
    {
        Symbolizer::open_with_order(alloc, bytes, ContributionOrder::InOrder)
    }

    /// Loads the program database of a file's bytes as [`Symbolizer::open`], where section
    /// contributions have to stand in that order. In any order, where merging them is refused for
    /// their order, the first one in the order of the file that holds a place is its holder. GNU ld
    /// before 2.44 writes such databases.
    ///
    /// # Errors
    /// As [`Symbolizer::open`]; in any order no `UnorderedSectionContributions`.
    #[tactic(auto, using(crate::proofs::OpeningSteps::same_file))]
    pub fn open_with_order(
        alloc: Global,
        bytes: Vec<u8>,
        order: ContributionOrder,
    ) -> Result<Symbolizer, LoadFault>
        ensures ok { IfOk result (λ s. s ≡ record { bytes = bytes.items; order = order }) }
        ensures loaded { OnOk result (load_fault_with order (streams bytes.items) ≡ None) }
        ensures refused { IfErr result
            (λ e. Refuses e (load_fault_with order (streams bytes.items))) }
    {
        let Ok(file) = SharedBytes::new(bytes) else {
            return Err(LoadFault::OutOfMemory);
        };
        match load_file(alloc, FileSource::whole(file), order) {
            Ok(loaded) => Ok(of_loaded(loaded)),
            Err(fault) => Err(fault),
        }
    }

    /// The address map, between addresses of the image and places in sections; the sources of its
    /// OMAPs don't decrease.
    pub fn address_map(&self) -> &AddressMap<'static>
        ensures map { map_with self.now.order (streams self.now.bytes) ≡ Some result.now }
        ensures ordered { IsOrdered result.now }
    {
        self.held.address_map()
    }

    /// A context over the file, which answers as the file does. It was asked nothing, and nothing
    /// stands as failed in it.
    ///
    /// # Errors
    /// `OutOfMemory` alone.
    pub fn context(&self, alloc: Global) -> Result<FileContext<'_>, LoadFault>
        ensures answers { IfOk result
            (λ c. AnswersWith self.now.order answered_in (streams self.now.bytes) c) }
        ensures unasked { IfOk result (λ c. c.lookups ≡ 0) }
        ensures unfailed { IfOk result (λ c. c.failed ≡ no_failures) }
        ensures memory { IsOkUnless result faults.OutOfMemory }
    {
        self.context_with_flags(alloc, TypeFormatterFlags::default())
    }

    /// A context as [`Symbolizer::context`]; names of functions are made with these flags.
    ///
    /// # Errors
    /// `OutOfMemory` alone.
    #[tactic(auto, using(crate::proofs::OpeningSteps::context_answers, crate::proofs::OpeningSteps::context_unasked, crate::proofs::OpeningSteps::context_unfailed, crate::proofs::OpeningSteps::context_made))]
    pub fn context_with_flags(
        &self,
        alloc: Global,
        flags: TypeFormatterFlags,
    ) -> Result<FileContext<'_>, LoadFault>
        ensures answers { IfOk result (λ c.
            AnswersNamed flags.bits self.now.order answered_in (streams self.now.bytes) c) }
        ensures unasked { IfOk result (λ c. c.lookups ≡ 0) }
        ensures unfailed { IfOk result (λ c. c.failed ≡ no_failures) }
        ensures memory { IsOkUnless result faults.OutOfMemory }
    {
        match self.held.make_context_with_order(alloc, flags, self.order) {
            Ok(context) => Ok(context),
            Err(error) => Err(LoadFault::from(error)),
        }
    }

    /// A formatter of types and ids of the file, with these flags.
    ///
    /// # Errors
    /// `OutOfMemory` alone.
    pub fn type_formatter(
        &self,
        alloc: Global,
        flags: TypeFormatterFlags,
    ) -> Result<TypeFormatter<'_, 'static, KeptModules<'static>>, LoadFault>
        ensures formatter { IfOk result
            (IsFormatterOf self.now.order self.now.bytes flags.bits) }
        ensures memory { IsOkUnless result faults.OutOfMemory }
    {
        match self.held.make_type_formatter_with_flags(alloc, flags) {
            Ok(formatter) => Ok(formatter),
            Err(error) => Err(LoadFault::from(error)),
        }
    }

    /// The database of the file that is held: its tables, of which formatters and contexts are
    /// made.
    pub fn held(&self) -> &Held
        ensures { IsLoadedWith self.now.order self.now.bytes result.now }
    {
        &self.held
    }

    /// The identity of the file's database: the GUID of its information stream, and the age of the
    /// DBI header, or that of the information stream where the header has none.
    ///
    /// # Errors
    /// The errors of the information stream (1); `OutOfMemory`.
    pub fn identity(&self, alloc: Global) -> Result<PdbIdentity, LoadFault>
        ensures identity { IfOk result (HasIdentity self.now.bytes) }
        ensures refused { IfErr result (FailsIdentity self.now.bytes) }
    {
        let source = self.file.share(self.file.limits())?;
        identity_of_source(alloc, source)
    }
}
