//! A source over what was read of a file.

ghost use Rattle.std.specs.Prelude.{◌≡◌, ℕ, true, List, IfOk, IfSome, Ok};
ghost use Rattle.std.specs.Arc.{arc_value};
ghost use Rattle.pdb_container.specs.Places.{bytes_at, places_of};
ghost use Rattle.pdb_file_views.specs.Views.{agreeing, HasViews};

use crate::file_views::{FileView, FileViews, first_of};
use crate::slices::size_within;
use crate::wanted::Wanted;
use boxcar::tag::{Names, Tag};
use pdb_container::{ALWAYS_ALLOWED, ReadView, Source, SourceSlice, TIMES_LISTED};
use std::alloc::{AllocError, Global};
use std::io::{self, ErrorKind};
use std::marker::Model;
use std::sync::Arc;

/// The views that were read of a file, and bytes that are asked about.
#[derive(Drop)]
struct Asked<'a> {
    views: &'a FileViews,
    contents: &'a Tag,
}

/// The bytes that are asked about, where they agree with what was read.
struct Agreeing;

impl<'a> Names<Asked<'a>> for Agreeing {
    ghost numbers = { λ asked. agreeing asked.views.now asked.contents.now.numbers };
}

/// The bytes of another tag.
struct Same;

impl Names<Tag> for Same {
    ghost numbers = { λ tag. tag.numbers };
}

/// A source over what was read of a file. A view that wasn't read is answered by `OutOfMemory`, and
/// noted. Its value in contracts is bytes that agree with what was read.
#[derive(Drop)]
pub struct ViewSource {
    size: u64,
    /// The views, in the order of their first bytes.
    views: Arc<Vec<FileView>>,
    contents: Tag,
    wanted: Wanted,
    /// The number of bytes that may still be listed.
    listed_left: u64,
}

impl Model for ViewSource {
    ghost use Rattle.std.specs.Prelude.{◌≡◌, ℕ, List, length};
    ghost use Rattle.std.specs.Arc.{arc_value};
    ghost use Rattle.pdb_file_views.specs.Views.{HasViews};

    ghost Value = { List ℕ };

    ghost view = { λ s. s.contents.numbers };

    ghost invariant = { λ s. (length s.contents.numbers ≡ s.size)
        × HasViews s.contents.numbers (arc_value s.views).items };
}

/// Other owners of the views' bytes, in the order of their first bytes.
#[tactic(auto, using(crate::proofs::SourceSteps::views_sorted))]
fn share_views(alloc: Global, views: &[FileView]) -> Result<Vec<FileView>, AllocError>
    ensures { IfOk result (λ v. (contents : List ℕ) → HasViews contents views.now
        → HasViews contents v.items) }
{
    let mut shares = copy_views(alloc, views)?;
    shares.sort_unstable_by_key(|view| view.first);
    Ok(shares)
}

/// Other owners of the views' bytes, in the same order.
#[tactic(auto, using(crate::proofs::SourceSteps::views_more, crate::proofs::SourceSteps::views_none))]
fn copy_views(alloc: Global, views: &[FileView]) -> Result<Vec<FileView>, AllocError>
    ensures { IfOk result (λ v. (contents : List ℕ) → HasViews contents views.now
        → HasViews contents v.items) }
{
    let mut shares = Vec::with_capacity(alloc, views.len())?;
    for view in views {
        shares.push(view.share(alloc)?)?;
    }
    Ok(shares)
}

/// Returns whether slices are the same.
fn are_same(slices: &[SourceSlice], others: &[SourceSlice]) -> bool
    ensures { result ≡ true → slices.now ≡ others.now }
{
    slices == others
}

/// The view of these slices, if it is one of the views, which lie in the order of their first
/// bytes.
fn find_view<'v>(views: &'v [FileView], slices: &[SourceSlice]) -> Option<&'v FileView>
    ensures { (contents : List ℕ) → HasViews contents views.now → IfSome result
        (λ view. bytes_at contents (places_of slices.now) ≡ Ok view.now.bytes) }
{
    let first = first_of(slices);
    let Ok(index) = views.binary_search_by_key(&first, |view| view.first) else {
        return None;
    };
    let view = views.get(index)?;
    if are_same(view.slices.as_slice(), slices) {
        Some(view)
    } else {
        None
    }
}

impl ViewSource {
    /// A source over what was read of a file so far. It notes what it lacks.
    ///
    /// # Errors
    /// `AllocError` when memory runs out.
    #[tactic(auto, using(crate::proofs::SourceSteps::agreeing_long, crate::proofs::SourceSteps::agreeing_has))]
    pub fn new(
        alloc: Global,
        views: &FileViews,
        contents: &Tag,
        wanted: &Wanted,
    ) -> Result<ViewSource, AllocError>
        ensures { IfOk result (λ s. s ≡ agreeing views.now contents.now.numbers) }
    {
        let shares = share_views(alloc, views.views.as_slice())?;
        let listed_left = views
            .size
            .saturating_mul(TIMES_LISTED)
            .saturating_add(ALWAYS_ALLOWED);
        Ok(ViewSource {
            size: views.size,
            views: Arc::new(alloc, shares)?,
            contents: Tag::of::<Asked<'_>, Agreeing>(&Asked { views, contents }),
            wanted: wanted.share()?,
            listed_left,
        })
    }

    /// The number of bytes that may still be listed.
    pub fn listed_left(&self) -> u64 {
        self.listed_left
    }

    /// A source of the same bytes, of which so many more may be listed.
    ///
    /// # Errors
    /// `AllocError` when memory runs out.
    pub fn share(&self, listed_left: u64) -> Result<ViewSource, AllocError>
        ensures { IfOk result (λ s. s ≡ self.now) }
    {
        Ok(ViewSource {
            size: self.size,
            views: self.views.clone()?,
            contents: Tag::of::<Tag, Same>(&self.contents),
            wanted: self.wanted.share()?,
            listed_left,
        })
    }
}

impl Source for ViewSource {
    ghost bytes = { λ s. s };

    ghost failures = { λ _. 0 };

    fn view(&mut self, alloc: Global, slices: &[SourceSlice]) -> io::Result<ReadView> {
        let _ = alloc;
        if size_within(self.size, slices).is_none() {
            return Err(ErrorKind::UnexpectedEof.into());
        }
        match find_view(self.views.as_slice(), slices) {
            Some(view) => Ok(ReadView::shared(view.bytes.share()?)),
            None => {
                self.wanted.note(slices);
                Err(ErrorKind::OutOfMemory.into())
            }
        }
    }

    fn failures(&self) -> u64 {
        0
    }

    fn size_hint(&self) -> u64 {
        self.size
    }

    fn may_list(&mut self, size: u64) -> bool {
        if self.listed_left < size {
            return false;
        }
        self.listed_left -= size;
        true
    }
}
