//! A file that is read on demand.

ghost use Rattle.std.specs.Prelude.{◌≡◌, true, IfErr, IfOk};
ghost use Rattle.pdb_addr2line.specs.FileLoads.{AgreesWith, IsUnread};
ghost use Rattle.pdb_addr2line.specs.Identity.{FailsFileIdentity, FailsIdentity, HasIdentity};
ghost use Rattle.pdb_file_views.specs.Views.{agrees, Grows};
ghost use Rattle.pdb_loading.specs.FileFaults.{OnLoadFault};
ghost use Rattle.pdb_loading.specs.declared.load_fault.LoadFault.TheVariants as faults;

use crate::identity::identity_of_source;
use boxcar::tag::Tag;
use bumpalo::Bump;
use pdb_file_views::{FileSource, FileViews, Wanted};
use pdb_image::PdbIdentity;
use pdb_loading::{ContributionOrder, FileFault, LoadFault};
use std::alloc::{AllocError, Global};
use std::io::{self, ErrorKind};
use std::os::unix::fs::FileExt;

/// The number of times that the identity is asked for again after what it lacked was read: the
/// container's directory, and two streams.
const IDENTITY_ROUNDS: u32 = 32;

/// A file that is read on demand.
#[derive(Drop)]
pub struct FileOnDemand<'a, F: Drop> {
    /// The arena in which everything that is held of the file lies. An arena drops no value, so
    /// that it stays in memory until the process ends.
    pub arena: &'a Bump,
    /// The file.
    pub file: F,
    /// The parts of the file that were read.
    pub views: FileViews,
    /// The bytes that contracts take the file to have. The tag itself has no bytes.
    pub contents: Tag,
    /// The order in which section contributions have to stand.
    pub order: ContributionOrder,
}

impl<'a, F: Drop> FileOnDemand<'a, F> {
    /// A file of `size` bytes, of which nothing was read. Its section contributions have to stand
    /// in order.
    ///
    /// # Errors
    /// `AllocError` when memory runs out.
    pub fn new(
        alloc: Global,
        arena: &'a Bump,
        file: F,
        size: u64,
    ) -> Result<FileOnDemand<'a, F>, AllocError>
        ensures { IfOk result (IsUnread size) }
    {
        let views = FileViews::new(alloc, size)?;
        Ok(FileOnDemand {
            arena,
            file,
            views,
            contents: Tag::empty(),
            order: ContributionOrder::InOrder,
        })
    }
}

/// The fault for an error in reading a file; out of memory has one name.
fn read_fault(error: &io::Error) -> FileFault
    ensures { OnLoadFault result (λ cause. cause ≡ faults.OutOfMemory) }
{
    match error.kind() {
        ErrorKind::OutOfMemory => FileFault::Load(LoadFault::OutOfMemory),
        kind => FileFault::File(kind),
    }
}

/// The identity of a file's database from what was read of it. Bytes that it lacks are noted as
/// wanted, and are out of memory here.
#[tactic(auto, using(pdb_loading::proofs::OnDemand::bytes_agree))]
fn identity_of_views(
    alloc: Global,
    views: &FileViews,
    contents: &Tag,
    wanted: &Wanted,
) -> Result<PdbIdentity, LoadFault>
    ensures identity { agrees views.now contents.now.numbers ≡ true
        → IfOk result (HasIdentity contents.now.numbers) }
    ensures refused { agrees views.now contents.now.numbers ≡ true
        → IfErr result (FailsIdentity contents.now.numbers) }
{
    let Ok(source) = FileSource::of_views(alloc, views, contents, wanted) else {
        return Err(LoadFault::OutOfMemory);
    };
    identity_of_source(alloc, source)
}

impl<'a, F: FileExt + Drop> FileOnDemand<'a, F> {
    /// The identity of the file's database: the GUID of its information stream, and the age of the
    /// DBI header, or that of the information stream where the header has none. What is missing of
    /// the file is read.
    ///
    /// # Errors
    /// `Load` with the errors of the container, of the information stream (1), and of stream 3;
    /// `File` where the file couldn't be read.
    pub fn identity(&mut self, alloc: Global) -> Result<PdbIdentity, FileFault>
        ensures contents { self.new.contents ≡ self.old.contents }
        ensures order { self.new.order ≡ self.old.order }
        ensures grows { Grows self.old.views self.new.views }
        ensures identity { AgreesWith self.new self.old
            → IfOk result (HasIdentity self.old.contents.numbers) }
        ensures refused { AgreesWith self.new self.old
            → IfErr result (FailsFileIdentity self.old.contents.numbers) }
    {
        for _ in 0..IDENTITY_ROUNDS {
            let wanted = Wanted::new(alloc)?;
            match identity_of_views(alloc, &self.views, &self.contents, &wanted) {
                Ok(identity) => return Ok(identity),
                Err(LoadFault::OutOfMemory) => {}
                Err(fault) => return Err(FileFault::Load(fault)),
            }
            match self.views.read_wanted(alloc, &self.file, &wanted) {
                Ok(true) => {}
                Ok(false) => return Err(FileFault::Load(LoadFault::OutOfMemory)),
                Err(error) => return Err(read_fault(&error)),
            }
        }
        Err(FileFault::Load(LoadFault::OutOfMemory))
    }
}
