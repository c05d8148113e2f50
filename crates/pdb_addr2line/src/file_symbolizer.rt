//! A symbolizer of a file that is read on demand.

ghost use Rattle.std.specs.Prelude.{◌≡◌, None, Ok, Some, IfErr, IfOk, IfSome, IsOkUnless};
ghost use Rattle.pdb_addr2line.specs.Formatters.{context_with, with_modules};
ghost use Rattle.pdb_addresses.specs.Addresses.{IsOrdered};
ghost use Rattle.pdb_addr2line.specs.Answer.{map_with};
ghost use Rattle.pdb_addr2line.specs.FileAnswers.{IsContextOf, IsKnown, IsUnasked, with_context};
ghost use Rattle.pdb_addr2line.specs.FileLoads.{AgreesWith, AreInfosOf, RefusesFile};
ghost use Rattle.pdb_addr2line.specs.FileLoads.{fault_of_file};
ghost use Rattle.pdb_addr2line.specs.FileFormatters.{IsFormatterOf};
ghost use Rattle.pdb_addr2line.specs.Identity.{FailsFileIdentity, HasIdentity};
ghost use Rattle.pdb_file_views.specs.Views.{Grows};
ghost use Rattle.pdb_loading.specs.declared.load_fault.LoadFault.TheVariants as faults;
ghost use Rattle.pdb_loading.specs.Held.{parts_held_with};
ghost use Rattle.pdb_loading.specs.LoadedFile.{IsLoadedWith};
ghost use Rattle.pdb_symbols_modules.specs.Streams.{streams};

use crate::context::Context;
use crate::file_on_demand::FileOnDemand;
use crate::pdb_data::ContextPdbData;
use pdb_addresses::AddressMap;
use pdb_file_views::{FileSource, Wanted};
use pdb_image::PdbIdentity;
use pdb_loading::{
    ContributionOrder, FileFault, HeldViews, KeptModules, LoadFault, hold_on_demand,
    modules_of_views,
};
use pdb_names::TypeFormatter;
use pdb_symbols_modules::DebugInformation;
use pdb_type_printing::TypeFormatterFlags;
use std::alloc::{AllocError, Global};
use std::io::ErrorKind;
use std::marker::Model;
use std::os::unix::fs::FileExt;

/// The number of times that just the modules that are asked for are read; the next time all are,
/// and then all of the file. More rounds would read less of a file of which a little is asked again
/// and again, and each makes a context.
const EXACT_ROUNDS: u32 = 2;

/// The number of times that a question is asked again after what it lacked was read. A file of
/// which all was read lacks nothing.
pub const TRIES: u32 = 8;

/// The database of a file that is held: contexts and formatters are made of it.
pub type Held = ContextPdbData<'static, 'static, FileSource>;

/// A context over a file that was loaded.
pub type FileContext<'a> = Context<'a, 'static, KeptModules<'static>>;

/// A symbolizer of a file that is read on demand: its tables were read, and a module is read when
/// an address that it holds is asked for. Contracts speak of the bytes that the file is taken to
/// have, and hold where these agree with everything that was read.
pub struct FileSymbolizer<'a, F: Drop> {
    source: FileOnDemand<'a, F>,
    /// The flags by which names of functions are made.
    flags: TypeFormatterFlags,
    held: &'a Held,
    /// The bytes that the modules lacked.
    wanted: Wanted,
    /// The context; `None` once memory ran out while one was made.
    pub(crate) context: Option<FileContext<'a>>,
    /// The number of times that what was wanted was read.
    rounds: u32,
}

impl<'a, F: Drop> Model for FileSymbolizer<'a, F> {
    ghost use Rattle.pdb_addr2line.specs.FileAnswers.{FileAnswers, IsOfContents};

    ghost Value = { FileAnswers };

    ghost view = { λ s. record {
      views = s.source.views;
      contents = s.source.contents.numbers;
      order = s.source.order;
      flags = s.flags.bits;
      held = s.held.now;
      context = s.context;
    } };

    ghost invariant = { λ s. IsOfContents record {
      views = s.source.views;
      contents = s.source.contents.numbers;
      order = s.source.order;
      flags = s.flags.bits;
      held = s.held.now;
      context = s.context;
    } };
}

impl<'a, F: Drop> Drop for FileSymbolizer<'a, F> {
    fn drop(self) {
        let FileSymbolizer {
            source,
            flags: _,
            held: _,
            wanted,
            context,
            rounds: _,
        } = self;
        drop(source);
        drop(wanted);
        drop(context);
    }
}

/// A file that is read on demand and isn't loaded, with its fault.
#[derive(Drop)]
pub struct NotLoaded<'a, F: Drop> {
    /// The fault.
    pub fault: FileFault,
    /// The file, with what was read of it.
    pub source: FileOnDemand<'a, F>,
}

/// A symbolizer of a file that is held from what was read of it. Its first context is made, and with
/// it the parts that every question goes over: the last step of loading.
///
/// # Errors
/// `Load` as [`ContextPdbData::make_context_with_order`].
#[tactic(auto, using(crate::proofs::FileSteps::opened, crate::proofs::FileSteps::known_loads, crate::proofs::FileSteps::parts_refused, crate::proofs::HeldModules::parts_of_context))]
fn of_held<'a, F: Drop>(
    alloc: Global,
    source: FileOnDemand<'a, F>,
    file: HeldViews,
    flags: TypeFormatterFlags,
) -> Result<FileSymbolizer<'a, F>, NotLoaded<'a, F>>
    requires { AgreesWith source source → file.held ≡ source.contents.numbers }
    ensures contents { IfOk result (λ s. s.contents ≡ source.entry.contents.numbers) }
    ensures order { IfOk result (λ s. s.order ≡ source.entry.order) }
    ensures flags { IfOk result (λ s. s.flags ≡ flags.bits) }
    ensures unasked { IfOk result (λ s. IsUnasked s) }
    ensures same { IfErr result (λ e. e.source.contents.numbers
        ≡ source.entry.contents.numbers) }
    ensures loaded { IfOk result (λ s. IsKnown s → fault_of_file source.entry ≡ None) }
    ensures refused { IfErr result (λ e. RefusesFile source.entry e.source e.fault) }
{
    let HeldViews { held, wanted } = file;
    let (file, held) = held.into_parts();
    drop(file);
    let Ok(held) = source.arena.try_alloc(ContextPdbData::from_held(held)) else {
        return Err(NotLoaded {
            fault: FileFault::Load(LoadFault::OutOfMemory),
            source,
        });
    };
    let held: &'a Held = held;
    match held.make_context_with_order(alloc, flags, source.order) {
        Ok(context) => Ok(FileSymbolizer {
            source,
            flags,
            held,
            wanted,
            context: Some(context),
            rounds: 0,
        }),
        Err(error) => Err(NotLoaded {
            fault: FileFault::Load(LoadFault::from(error)),
            source,
        }),
    }
}

impl<'a, F: FileExt + Drop> FileSymbolizer<'a, F> {
    /// Loads a file that is read on demand: its tables are read, and no module.
    ///
    /// # Errors
    /// `Load` as [`Symbolizer::open`](crate::Symbolizer::open); `File` where the file couldn't be
    /// read.
    pub fn open(
        alloc: Global,
        source: FileOnDemand<'a, F>,
    ) -> Result<FileSymbolizer<'a, F>, NotLoaded<'a, F>>
        ensures contents { IfOk result (λ s. s.contents ≡ source.entry.contents.numbers) }
        ensures order { IfOk result (λ s. s.order ≡ source.entry.order) }
        ensures flags { IfOk result (λ s. s.flags ≡ 23) }
        ensures unasked { IfOk result (λ s. IsUnasked s) }
        ensures same { IfErr result (λ e. e.source.contents.numbers
            ≡ source.entry.contents.numbers) }
        ensures loaded { IfOk result (λ s. IsKnown s → fault_of_file source.entry ≡ None) }
        ensures refused { IfErr result (λ e. RefusesFile source.entry e.source e.fault) }
    {
        FileSymbolizer::open_with_flags(alloc, source, TypeFormatterFlags::default())
    }

    /// Loads a file as [`FileSymbolizer::open`]; names of functions are made with these flags.
    ///
    /// # Errors
    /// As [`FileSymbolizer::open`].
    pub fn open_with_flags(
        alloc: Global,
        source: FileOnDemand<'a, F>,
        flags: TypeFormatterFlags,
    ) -> Result<FileSymbolizer<'a, F>, NotLoaded<'a, F>>
        ensures contents { IfOk result (λ s. s.contents ≡ source.entry.contents.numbers) }
        ensures order { IfOk result (λ s. s.order ≡ source.entry.order) }
        ensures flags { IfOk result (λ s. s.flags ≡ flags.bits) }
        ensures unasked { IfOk result (λ s. IsUnasked s) }
        ensures same { IfErr result (λ e. e.source.contents.numbers
            ≡ source.entry.contents.numbers) }
        ensures loaded { IfOk result (λ s. IsKnown s → fault_of_file source.entry ≡ None) }
        ensures refused { IfErr result (λ e. RefusesFile source.entry e.source e.fault) }
    {
        let FileOnDemand {
            arena,
            file,
            mut views,
            contents,
            order,
        } = source;
        let held = hold_on_demand(alloc, &file, &mut views, &contents);
        let source = FileOnDemand {
            arena,
            file,
            views,
            contents,
            order,
        };
        match held {
            Ok(file) => of_held(alloc, source, file, flags),
            Err(fault) => Err(NotLoaded { fault, source }),
        }
    }
}

/// The modules of what was read of a file. Bytes that they lack are noted as wanted.
fn modules_of_file<F: Drop>(
    alloc: Global,
    source: &FileOnDemand<'_, F>,
    wanted: &Wanted,
    held: &Held,
) -> Result<KeptModules<'static>, AllocError>
    ensures { AgreesWith source.now source.now
        → IfOk result (AreInfosOf source.now held.now) }
{
    let debug_information = held.debug_information();
    match modules_of_views(
        alloc,
        &source.views,
        &source.contents,
        wanted,
        debug_information,
    ) {
        Ok(modules) => Ok(modules),
        Err(_) => Err(AllocError),
    }
}

impl<'a, F: Drop> FileSymbolizer<'a, F> {
    /// The file, with what was read of it, and the context.
    pub fn into_parts(self) -> (FileOnDemand<'a, F>, Option<FileContext<'a>>)
        ensures { (result.0.views ≡ self.entry.views)
            × (result.0.contents.numbers ≡ self.entry.contents) }
    {
        let FileSymbolizer {
            source,
            flags: _,
            held: _,
            wanted,
            context,
            rounds: _,
        } = self;
        drop(wanted);
        (source, context)
    }

    /// The database of the file that is held: its tables, of which formatters and contexts are
    /// made.
    pub fn held(&self) -> &'a Held
        ensures held { result.now ≡ self.now.held }
        ensures loaded { IsKnown self.now
            → IsLoadedWith self.now.order self.now.contents result.now }
        ensures ordered { IsOrdered result.now.tables.map }
    {
        self.held
    }

    /// The address map, between addresses of the image and places in sections; the sources of its
    /// OMAPs don't decrease.
    #[tactic(auto, using(crate::proofs::FileSteps::map_known))]
    pub fn address_map(&self) -> &'a AddressMap<'static>
        ensures map { IsKnown self.now
            → map_with self.now.order (streams self.now.contents) ≡ Some result.now }
        ensures ordered { IsOrdered result.now }
    {
        self.held.address_map()
    }

    /// A formatter of types and ids of the file, with these flags. A text that needs a module's
    /// stream of which not all was read ends with `OutOfMemory`: [`FileSymbolizer::go_on`] reads
    /// what is missing, and then a new formatter has it.
    ///
    /// # Errors
    /// `OutOfMemory` alone.
    pub fn type_formatter(
        &self,
        alloc: Global,
        flags: TypeFormatterFlags,
    ) -> Result<TypeFormatter<'a, 'static, KeptModules<'static>>, LoadFault>
        ensures formatter { IsKnown self.now → IfOk result
            (IsFormatterOf self.now.order self.now.contents flags.bits) }
        ensures memory { IsOkUnless result faults.OutOfMemory }
    {
        let Ok(modules) = modules_of_file(alloc, &self.source, &self.wanted, self.held) else {
            return Err(LoadFault::OutOfMemory);
        };
        let Ok(modules) = self.source.arena.try_alloc(modules) else {
            return Err(LoadFault::OutOfMemory);
        };
        match self.held.make_type_formatter_over(alloc, modules, flags) {
            Ok(formatter) => Ok(formatter),
            Err(error) => Err(LoadFault::from(error)),
        }
    }

    /// Takes the context out, to ask it more than one question; [`FileSymbolizer::put_context`]
    /// puts it back. Without a context nothing is answered.
    #[tactic(auto, using(crate::proofs::FileSteps::without_context))]
    pub fn take_context(&mut self) -> Option<FileContext<'a>>
        ensures context { result ≡ self.old.context }
        ensures answers { IfSome result (λ c. IsContextOf self.new c) }
        ensures left { self.new ≡ with_context self.old None }
    {
        self.context.take()
    }

    /// Puts a context back that was taken out, and was asked since.
    pub fn put_context(&mut self, context: FileContext<'a>)
        requires { IsContextOf self.old context }
        ensures { self.new ≡ with_context self.old (Some context.entry) }
    {
        self.context = Some(context);
    }

    /// The number of the module that holds an address, if one does.
    pub fn module_at(&self, address: u32) -> Option<usize> {
        match &self.context {
            Some(context) => context.module_at(address),
            None => None,
        }
    }

    /// Asks for the modules with these numbers, and answers nothing: what they lack is read by
    /// [`FileSymbolizer::go_on`].
    pub fn ask(&self, mut numbers: Vec<usize>) {
        numbers.sort_unstable();
        numbers.dedup();
        let Some(context) = &self.context else {
            return;
        };
        for number in numbers {
            context.provider().ask(number..number.saturating_add(1));
        }
    }

    /// Asks for all modules, and answers nothing: what they lack is read by
    /// [`FileSymbolizer::go_on`].
    pub fn ask_all(&self) {
        if let Some(context) = &self.context {
            let modules = context.provider();
            modules.ask(0..modules.len());
        }
    }

    /// Makes a context over the modules of what was read. The parts that every question goes over
    /// are taken over from the last one.
    #[tactic(auto, using(crate::proofs::FileSteps::renewed, crate::proofs::FileSteps::without_context, crate::proofs::HeldModules::parts_of_context))]
    fn renew(&mut self, alloc: Global) -> Result<(), AllocError>
        ensures contents { self.new.contents ≡ self.old.contents }
        ensures order { self.new.order ≡ self.old.order }
        ensures flags { self.new.flags ≡ self.old.flags }
        ensures held { self.new.held ≡ self.old.held }
        ensures views { self.new.views ≡ self.old.views }
        ensures unasked { IsUnasked self.old → IsUnasked self.new }
    {
        let wanted = Wanted::new(alloc)?;
        let modules = modules_of_file(alloc, &self.source, &wanted, self.held)?;
        let Ok(modules) = self.source.arena.try_alloc(modules) else {
            return Err(AllocError);
        };
        let (order, flags) = (self.source.order, self.flags);
        let last = self.context.take();
        let context = context_over(alloc, self.held, modules, order, flags, last)?;
        self.context = Some(context);
        self.wanted = wanted;
        Ok(())
    }

    /// Asks for the modules that hold places at addresses from `start` on and before `end`, and
    /// answers nothing.
    pub fn ask_between(&self, alloc: Global, start: u32, end: u32) {
        if let Some(context) = &self.context {
            if let Ok(numbers) = context.modules_between(alloc, start, end) {
                self.ask(numbers);
            }
        }
    }
}

/// A context over these modules, and over the parts of another one, if there is one, with the order
/// in which section contributions have to stand, and the flags of names.
#[tactic(auto, using(crate::proofs::HeldModules::over_held, crate::proofs::HeldModules::parts_of_context))]
fn context_over<'a>(
    alloc: Global,
    held: &'a Held,
    modules: &'a KeptModules<'static>,
    order: ContributionOrder,
    flags: TypeFormatterFlags,
    last: Option<FileContext<'a>>,
) -> Result<FileContext<'a>, AllocError>
    requires ordered { IsOrdered held.now.tables.map }
    requires parts { IfSome last (λ c. parts_held_with order held.now ≡ Ok c.parts) }
    ensures made { IfOk result
        (λ c. context_with order (with_modules held.now modules.now) flags.bits ≡ Ok c) }
    ensures unasked { IfOk result (λ c. c.lookups ≡ 0) }
{
    let parts = match last {
        Some(context) => context.into_parts(),
        None => match held.make_context_with_order(alloc, flags, order) {
            Ok(context) => context.into_parts(),
            Err(_) => return Err(AllocError),
        },
    };
    match held.make_context_over_with_formatter_flags(alloc, modules, parts, flags) {
        Ok(context) => Ok(context),
        Err(_) => Err(AllocError),
    }
}

impl<'a, F: FileExt + Drop> FileSymbolizer<'a, F> {
    /// Reads what was asked for and is missing, and goes on with it: a question that was answered
    /// by `AllocError` for want of it can be asked again. Returns whether anything was missing.
    /// Twice just this is read, the third time all modules are, and from then on all of the file.
    ///
    /// # Errors
    /// The kind of the error: `OutOfMemory`, or the kind of the file's.
    #[tactic(auto, using(crate::proofs::FileSteps::grown))]
    pub fn go_on(&mut self, alloc: Global) -> Result<bool, ErrorKind>
        ensures contents { self.new.contents ≡ self.old.contents }
        ensures order { self.new.order ≡ self.old.order }
        ensures flags { self.new.flags ≡ self.old.flags }
        ensures held { self.new.held ≡ self.old.held }
        ensures grows { Grows self.old.views self.new.views }
        ensures unasked { IsUnasked self.old → IsUnasked self.new }
    {
        if !self.read_more(alloc)? {
            return Ok(false);
        }
        match self.renew(alloc) {
            Ok(()) => Ok(true),
            Err(_) => Err(ErrorKind::OutOfMemory),
        }
    }

    /// Whether just what is missing is read the next time, and not all modules.
    pub fn reads_exactly(&self) -> bool {
        self.rounds < EXACT_ROUNDS
    }

    /// Reads what was asked for and is missing; returns whether anything was.
    #[tactic(auto, using(crate::proofs::FileSteps::grown))]
    fn read_more(&mut self, alloc: Global) -> Result<bool, ErrorKind>
        ensures contents { self.new.contents ≡ self.old.contents }
        ensures order { self.new.order ≡ self.old.order }
        ensures flags { self.new.flags ≡ self.old.flags }
        ensures held { self.new.held ≡ self.old.held }
        ensures grows { Grows self.old.views self.new.views }
        ensures context { self.new.context ≡ self.old.context }
    {
        if self.rounds == EXACT_ROUNDS {
            self.ask_all();
        }
        let FileOnDemand { file, views, .. } = &mut self.source;
        match views.read_wanted(alloc, file, &self.wanted) {
            Ok(true) => {}
            Ok(false) => return Ok(false),
            Err(error) => return Err(error.kind()),
        }
        if self.rounds > EXACT_ROUNDS {
            match views.read_whole(alloc, file) {
                Ok(()) => {}
                Err(error) => return Err(error.kind()),
            }
        }
        self.rounds = self.rounds.saturating_add(1);
        Ok(true)
    }

    /// The identity of the file's database, as [`FileOnDemand::identity`] finds it.
    ///
    /// # Errors
    /// As [`FileOnDemand::identity`].
    #[tactic(auto, using(crate::proofs::FileSteps::grown))]
    pub fn identity(&mut self, alloc: Global) -> Result<PdbIdentity, FileFault>
        ensures contents { self.new.contents ≡ self.old.contents }
        ensures order { self.new.order ≡ self.old.order }
        ensures flags { self.new.flags ≡ self.old.flags }
        ensures held { self.new.held ≡ self.old.held }
        ensures grows { Grows self.old.views self.new.views }
        ensures context { self.new.context ≡ self.old.context }
        ensures identity { IsKnown self.new
            → IfOk result (HasIdentity self.old.contents) }
        ensures refused { IsKnown self.new → IfErr result
            (FailsFileIdentity self.old.contents) }
    {
        self.source.identity(alloc)
    }
}
