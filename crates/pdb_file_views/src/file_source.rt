//! A source of a file's bytes, which are in memory or are read on demand.

ghost use Rattle.std.specs.Prelude.{◌≡◌, IfOk};
ghost use Rattle.pdb_file_views.specs.Views.{source_bytes};

use crate::file_views::FileViews;
use crate::view_source::ViewSource;
use crate::wanted::Wanted;
use boxcar::tag::Tag;
use pdb_container::{BoundedBytes, CopyLimits, ReadView, SharedBytes, Source, SourceSlice};
use std::alloc::{AllocError, Global};
use std::io;
use std::marker::Model;

/// The bytes of a file, in memory or not.
#[derive(Drop)]
enum FileBytes {
    /// All of them are in memory.
    Whole(BoundedBytes),
    /// Some were read, and others are noted when they are asked for.
    Views(ViewSource),
}

/// The numbers of bytes that may still be copied and listed of a file.
#[derive(Clone, Copy, Debug)]
pub enum FileLimits {
    /// The limits of a file that is in memory.
    Whole(CopyLimits),
    /// The limit of a file that is read on demand, of which nothing is copied: the number of bytes
    /// that may still be listed.
    Views(u64),
}

/// A source of a file's bytes, which are in memory or are read on demand. Its value in contracts is
/// these bytes.
#[derive(Drop)]
pub struct FileSource {
    bytes: FileBytes,
}

impl Model for FileSource {
    ghost use Rattle.std.specs.Prelude.{ℕ, List};
    ghost use Rattle.pdb_file_views.specs.Sources.{bytes_of};

    ghost Value = { List ℕ };

    ghost view = { λ s. bytes_of s.bytes };
}

impl FileSource {
    /// A file's bytes that are in memory.
    pub fn whole(bytes: SharedBytes) -> FileSource
        ensures { result ≡ bytes }
    {
        FileSource {
            bytes: FileBytes::Whole(BoundedBytes::new(bytes)),
        }
    }

    /// A source over what was read of a file so far: all of it, or views, where missing ones are
    /// noted as wanted. `contents` names the bytes that the file is taken to have, where they agree
    /// with what was read.
    ///
    /// # Errors
    /// `AllocError` when memory runs out.
    pub fn of_views(
        alloc: Global,
        views: &FileViews,
        contents: &Tag,
        wanted: &Wanted,
    ) -> Result<FileSource, AllocError>
        ensures { IfOk result (λ s. s ≡ source_bytes views.now contents.now.numbers) }
    {
        match &views.whole {
            Some(bytes) => Ok(FileSource::whole(bytes.share()?)),
            None => {
                let views = ViewSource::new(alloc, views, contents, wanted)?;
                Ok(FileSource {
                    bytes: FileBytes::Views(views),
                })
            }
        }
    }

    /// The numbers of bytes that may still be copied and listed.
    pub fn limits(&self) -> FileLimits {
        match &self.bytes {
            FileBytes::Whole(bytes) => FileLimits::Whole(bytes.limits()),
            FileBytes::Views(views) => FileLimits::Views(views.listed_left()),
        }
    }

    /// A source of the same bytes, of which so many more may be copied and listed.
    ///
    /// # Errors
    /// `AllocError` when memory runs out.
    pub fn share(&self, limits: FileLimits) -> Result<FileSource, AllocError>
        ensures { IfOk result (λ s. s ≡ self.now) }
    {
        let bytes = match (&self.bytes, limits) {
            (FileBytes::Whole(bytes), FileLimits::Whole(limits)) => {
                FileBytes::Whole(bytes.share(limits)?)
            }
            (FileBytes::Whole(bytes), FileLimits::Views(_)) => {
                FileBytes::Whole(bytes.share(bytes.limits())?)
            }
            (FileBytes::Views(views), FileLimits::Views(left)) => {
                FileBytes::Views(views.share(left)?)
            }
            (FileBytes::Views(views), FileLimits::Whole(_)) => {
                FileBytes::Views(views.share(views.listed_left())?)
            }
        };
        Ok(FileSource { bytes })
    }
}

impl Source for FileSource {
    ghost bytes = { λ s. s };

    ghost failures = { λ _. 0 };

    fn view(&mut self, alloc: Global, slices: &[SourceSlice]) -> io::Result<ReadView> {
        match &mut self.bytes {
            FileBytes::Whole(bytes) => bytes.view(alloc, slices),
            FileBytes::Views(views) => views.view(alloc, slices),
        }
    }

    fn failures(&self) -> u64 {
        0
    }

    fn size_hint(&self) -> u64 {
        match &self.bytes {
            FileBytes::Whole(bytes) => bytes.size_hint(),
            FileBytes::Views(views) => views.size_hint(),
        }
    }

    fn may_list(&mut self, size: u64) -> bool {
        match &mut self.bytes {
            FileBytes::Whole(bytes) => bytes.may_list(size),
            FileBytes::Views(views) => views.may_list(size),
        }
    }
}
