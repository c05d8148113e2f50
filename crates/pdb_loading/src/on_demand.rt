//! Holding a file that is read on demand: missing bytes are read, and the file is held anew from
//! those that are there then.

ghost use Rattle.std.specs.Prelude.{◌≡◌, IfErr, IfOk};
ghost use Rattle.pdb_container.specs.PrintedFault.{printed_text};
ghost use Rattle.pdb_file_views.specs.Views.{Grows};
ghost use Rattle.pdb_loading.specs.FileFaults.{OnLoadFault};
ghost use Rattle.pdb_loading.specs.FileLoads.{Agree, AreInfos, RefusesFile, RefusesToLoad};
ghost use Rattle.pdb_loading.specs.declared.load_fault.LoadFault.TheVariants as faults;
ghost use Rattle.pdb_loading.specs.declared.order.ContributionOrder.{ContributionOrder as Order};
ghost use Rattle.pdb_loading.specs.LoadFaultText.{file_fault_text};

use crate::file_modules::FileModules;
use crate::load_fault::LoadFault;
use crate::loading::{HeldFile, hold_file};
use crate::module_infos::{KeptModules, collect_modules};
use boxcar::tag::Tag;
use pdb_container::{PrintedFault, Result as ReadResult, kind_name};
use pdb_file_views::{FileSource, FileViews, Wanted};
use pdb_symbols_modules::{DebugInformation, PDB};
use std::alloc::{AllocError, Global};
use std::fmt;
use std::io::{self, ErrorKind};
use std::os::unix::fs::FileExt;

/// The number of times that loading goes on after it read what was missing. A file whose streams
/// can be found takes some ten, as docs/COSTS.md has them; three times that bounds files that lead
/// on and on.
const ROUNDS: u32 = 32;

/// The fault that keeps a file that is read on demand from being loaded. `Load` prints the fault
/// that it holds, and `File` its name and, in parentheses, its kind.
#[derive(Debug, Drop)]
pub enum FileFault {
    /// A fault that a file in memory has, too.
    Load(LoadFault),
    /// The file couldn't be read.
    File(ErrorKind),
}

impl From<AllocError> for FileFault {
    ghost use Rattle.std.specs.Prelude.{◌≡◌};
    ghost use Rattle.pdb_loading.specs.declared.load_fault.LoadFault.TheVariants as faults;
    ghost use Rattle.pdb_loading.specs.declared.on_demand.FileFault.TheVariants.{Load};

    ghost from_gives = { λ _ fault. fault ≡ Load faults.OutOfMemory };

    fn from(_: AllocError) -> FileFault {
        FileFault::Load(LoadFault::OutOfMemory)
    }
}

impl FileFault {
    /// The text that the fault prints.
    pub fn printed(&self) -> PrintedFault<'_>
        ensures { printed_text result ≡ file_fault_text self.now }
    {
        match self {
            FileFault::Load(fault) => fault.printed(),
            FileFault::File(kind) => PrintedFault::text("File(", kind_name(*kind)),
        }
    }
}

impl fmt::Display for FileFault {
    ghost use Rattle.std.specs.Prelude.{Some};
    ghost use Rattle.pdb_loading.specs.LoadFaultText.{file_fault_text};

    ghost output = { λ f. Some (file_fault_text f) };

    fn fmt<W: fmt::Write>(&self, f: &mut fmt::Formatter<W>) -> fmt::Result {
        write!(f, "{}", self.printed())
    }
}

impl std::error::Error for FileFault {}

/// The fault for an error in reading a file; out of memory has one name.
fn read_fault(error: &io::Error) -> FileFault
    ensures { OnLoadFault result (λ cause. cause ≡ faults.OutOfMemory) }
{
    match error.kind() {
        ErrorKind::OutOfMemory => FileFault::Load(LoadFault::OutOfMemory),
        kind => FileFault::File(kind),
    }
}

/// Holds a file from what was read of it. Bytes that it lacks are noted as wanted, and are out of
/// memory here.
///
/// # Errors
/// As [`hold_file`].
#[tactic(auto, using(crate::proofs::OnDemand::bytes_agree))]
fn hold_views(
    alloc: Global,
    views: &FileViews,
    contents: &Tag,
    wanted: &Wanted,
) -> Result<HeldFile, LoadFault>
    ensures ok { Agree views.now contents.now.numbers
        → IfOk result (λ f. f ≡ contents.now.numbers) }
    ensures refused { (order : Order) → Agree views.now contents.now.numbers
        → IfErr result (RefusesFile order contents.now.numbers) }
{
    let Ok(file) = FileSource::of_views(alloc, views, contents, wanted) else {
        return Err(LoadFault::OutOfMemory);
    };
    hold_file(alloc, file)
}

/// A file that is held from what was read of it.
#[derive(Drop)]
pub struct HeldViews {
    /// The file.
    pub held: HeldFile,
    /// The bytes that its modules lack once they are asked for.
    pub wanted: Wanted,
}

/// Holds a file that is read on demand. `contents` names the bytes that the clauses speak of: they
/// hold where these agree with all that was read. A fault is the file's in whichever order section
/// contributions have to stand.
///
/// # Errors
/// As [`hold_file`]; `File` where the file couldn't be read.
pub fn hold_on_demand<F: FileExt>(
    alloc: Global,
    file: &F,
    views: &mut FileViews,
    contents: &Tag,
) -> Result<HeldViews, FileFault>
    ensures grows { Grows views.old views.new }
    ensures ok { Agree views.new contents.now.numbers
        → IfOk result (λ f. f.held ≡ contents.now.numbers) }
    ensures refused { (order : Order) → Agree views.new contents.now.numbers
        → IfErr result (RefusesToLoad order contents.now.numbers) }
{
    for _ in 0..ROUNDS {
        let wanted = Wanted::new(alloc)?;
        match hold_views(alloc, views, contents, &wanted) {
            // No bytes are missing while parts are made: stream 3, which lists the section
            // contributions, symbol records and names are whole in memory once a file is held.
            Ok(held) => return Ok(HeldViews { held, wanted }),
            Err(LoadFault::OutOfMemory) => {}
            Err(fault) => return Err(FileFault::Load(fault)),
        }
        match views.read_wanted(alloc, file, &wanted) {
            Ok(true) => {}
            Ok(false) => return Err(FileFault::Load(LoadFault::OutOfMemory)),
            Err(error) => return Err(read_fault(&error)),
        }
    }
    Err(FileFault::Load(LoadFault::OutOfMemory))
}

/// The modules of a file from what was read of it. Bytes that they lack are noted as wanted.
///
/// # Errors
/// `OutOfMemory`, and a container's errors where the file changed.
#[tactic(auto, using(crate::proofs::OnDemand::bytes_agree))]
pub fn modules_of_views(
    alloc: Global,
    views: &FileViews,
    contents: &Tag,
    wanted: &Wanted,
    debug_information: &DebugInformation<'_>,
) -> ReadResult<KeptModules<'static>>
    ensures { Agree views.now contents.now.numbers
        → IfOk result (AreInfos debug_information.now contents.now.numbers) }
{
    let file = FileSource::of_views(alloc, views, contents, wanted)?;
    let pdb = PDB::open(alloc, file)?;
    let size = pdb.size_hint();
    let entries = collect_modules(alloc, debug_information.modules())?;
    let modules = FileModules::new(alloc, pdb, entries.as_slice())?;
    Ok(KeptModules::on_demand(modules, size))
}
