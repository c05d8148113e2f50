//! The views that were read of a file.

ghost use Rattle.std.specs.Prelude.{◌≡◌, ℕ, [], true, List, None, length, IfOk, OnOk, replicate};
ghost use Rattle.pdb_container.specs.Places.{places_of};
ghost use Rattle.pdb_file_views.specs.Views.{with_bytes, Grows};

use crate::block_marks::{BLOCK, mark_slices};
use crate::slices::size_apart;
use crate::wanted::Wanted;
use boxcar::tag::{Names, Tag};
use pdb_container::{SharedBytes, SourceSlice};
use std::alloc::{AllocError, Global};
use std::io::{self, ErrorKind};
use std::marker::Model;
use std::os::unix::fs::FileExt;

/// The offset at which the first of the slices begins; `u64::MAX` where there is none, or where the
/// first has no byte. Bytes of two views begin at different places.
pub(crate) fn first_of(slices: &[SourceSlice]) -> u64 {
    match slices.first() {
        Some(slice) if slice.size > 0 => slice.offset,
        _ => u64::MAX,
    }
}

/// A view of a file: the slices that were asked for, and their bytes, joined.
#[derive(Drop)]
pub struct FileView {
    /// The offset at which the first slice begins ([`first_of`]).
    pub(crate) first: u64,
    pub(crate) slices: Vec<SourceSlice>,
    pub(crate) bytes: SharedBytes,
}

impl FileView {
    /// A view of these slices.
    fn new(slices: Vec<SourceSlice>, bytes: SharedBytes) -> FileView
        ensures slices { result.slices.items ≡ slices.items }
        ensures bytes { result.bytes ≡ bytes }
    {
        FileView {
            first: first_of(slices.as_slice()),
            slices,
            bytes,
        }
    }

    /// Another owner of the view's bytes; none is copied.
    ///
    /// # Errors
    /// `AllocError` when memory runs out.
    pub(crate) fn share(&self, alloc: Global) -> Result<FileView, AllocError>
        ensures { IfOk result (λ v. (v.slices.items ≡ self.now.slices.items)
            × (v.bytes ≡ self.now.bytes)) }
    {
        let mut slices = Vec::new(alloc);
        slices.extend_from_slice(self.slices.as_slice())?;
        let bytes = self.bytes.share()?;
        Ok(FileView {
            first: self.first,
            slices,
            bytes,
        })
    }
}

/// Zeros, of a number of bytes.
struct Zeros;

impl Names<u64> for Zeros {
    ghost numbers = { λ size. replicate size 0 };
}

/// Bytes, and a view that is put into them.
#[derive(Drop)]
struct PutView<'a> {
    before: &'a Tag,
    view: &'a FileView,
}

/// Bytes with the view's bytes at the view's places.
struct WithView;

impl<'a> Names<PutView<'a>> for WithView {
    ghost numbers = { λ put. with_bytes put.before.now.numbers
        (places_of put.view.now.slices.items) put.view.now.bytes };
}

/// The bytes that were read of a file: views, each with its bytes, and all of the file where all
/// was read. No block of 512 bytes is in two views. In contracts this tells which lists of bytes
/// agree with them.
#[derive(Drop)]
pub struct FileViews {
    /// The number of the file's bytes.
    pub(crate) size: u64,
    pub(crate) views: Vec<FileView>,
    pub(crate) whole: Option<SharedBytes>,
    marks: Vec<bool>,
    pub(crate) witness: Tag,
}

impl Model for FileViews {
    ghost use Rattle.pdb_file_views.specs.Views.{Views, IsWitness};

    ghost Value = { Views };

    ghost view = { λ f. record {
      size = f.size;
      views = f.views.items;
      whole = f.whole;
      witness = f.witness.numbers;
    } };

    ghost invariant = { λ f. IsWitness f.size f.views.items f.marks.items f.witness.numbers };
}

impl FileViews {
    /// A file of `size` bytes, of which nothing was read.
    ///
    /// # Errors
    /// `AllocError` when memory runs out.
    #[tactic(auto, using(crate::proofs::WitnessSteps::witness_first))]
    pub fn new(alloc: Global, size: u64) -> Result<FileViews, AllocError>
        ensures { IfOk result (λ f. (f.size ≡ size) × (f.views ≡ []) × (f.whole ≡ None)) }
    {
        let blocks = size.div_ceil(BLOCK) as usize;
        let marks = vec![in alloc; false; blocks]?;
        let witness = Tag::of::<u64, Zeros>(&size);
        Ok(FileViews {
            size,
            views: Vec::new(alloc),
            whole: None,
            marks,
            witness,
        })
    }

    /// Reads a view of the file. Returns whether it can be had: not where reading a block of it was
    /// tried before, or where one is in two of the slices, or lies past the end.
    ///
    /// # Errors
    /// The errors of the file; `UnexpectedEof` where the file became shorter; `OutOfMemory`.
    #[tactic(auto, using(crate::proofs::WitnessSteps::witness_more, crate::proofs::WitnessSteps::witness_marked, crate::proofs::WitnessSteps::places_within, crate::proofs::WitnessSteps::agreed_before))]
    pub fn read<F: FileExt>(
        &mut self,
        alloc: Global,
        file: &F,
        slices: Vec<SourceSlice>,
    ) -> io::Result<bool>
        ensures grows { Grows self.old self.new }
    {
        let Some(total) = size_apart(self.size, slices.as_slice()) else {
            return Ok(false);
        };
        if !mark_slices(&mut self.marks, slices.as_slice()) {
            return Ok(false);
        }
        let bytes = SharedBytes::new(read_bytes(alloc, file, slices.as_slice(), total)?)?;
        let view = FileView::new(slices, bytes);
        let witness = Tag::of::<PutView<'_>, WithView>(&PutView {
            before: &self.witness,
            view: &view,
        });
        self.views.push(view)?;
        self.witness = witness;
        Ok(true)
    }

    /// Reads all of the file, unless it was.
    ///
    /// # Errors
    /// The errors of [`FileViews::read`].
    pub fn read_whole<F: FileExt>(&mut self, alloc: Global, file: &F) -> io::Result<()>
        ensures grows { Grows self.old self.new }
    {
        if self.whole.is_some() {
            return Ok(());
        }
        let size = self.size as usize;
        let all = [SourceSlice { offset: 0, size }];
        self.whole = Some(SharedBytes::new(read_bytes(alloc, file, &all, size)?)?);
        Ok(())
    }
}

impl FileViews {
    /// Reads the views that are wanted, or all of the file where one of them can't be had by itself
    /// ([`FileViews::read`]). Returns whether any was wanted.
    ///
    /// # Errors
    /// The errors of [`FileViews::read`].
    pub fn read_wanted<F: FileExt>(
        &mut self,
        alloc: Global,
        file: &F,
        wanted: &Wanted,
    ) -> io::Result<bool>
        ensures grows { Grows self.old self.new }
    {
        let views = wanted.take(alloc);
        if views.is_empty() {
            return Ok(false);
        }
        if !self.read_all(alloc, file, views)? {
            self.read_whole(alloc, file)?;
        }
        Ok(true)
    }

    /// Reads views, up to one that can't be had; returns whether all could.
    ///
    /// # Errors
    /// The errors of [`FileViews::read`].
    fn read_all<F: FileExt>(
        &mut self,
        alloc: Global,
        file: &F,
        views: Vec<Vec<SourceSlice>>,
    ) -> io::Result<bool>
        ensures grows { Grows self.old self.new }
    {
        for slices in views {
            if !self.read(alloc, file, slices)? {
                return Ok(false);
            }
        }
        Ok(true)
    }
}

/// The bytes of slices, joined, whichever they are; `total` in all.
///
/// # Errors
/// The errors of the file; `UnexpectedEof`; `OutOfMemory`.
fn read_bytes<F: FileExt>(
    alloc: Global,
    file: &F,
    slices: &[SourceSlice],
    total: usize,
) -> io::Result<Vec<u8>>
    ensures { IfOk result (λ v. length v.items ≡ total) }
{
    let mut bytes = vec![in alloc; 0u8; total]?;
    let mut at = 0usize;
    for slice in slices {
        let rest = &mut bytes[at.min(total)..];
        if rest.len() < slice.size {
            return Err(ErrorKind::UnexpectedEof.into());
        }
        file.read_exact_at(&mut rest[..slice.size], slice.offset)?;
        at += slice.size;
    }
    Ok(bytes)
}
