//! Views that were asked for and aren't there.

use crate::file_views::first_of;
use pdb_container::SourceSlice;
use std::alloc::{AllocError, Global};
use std::mem::replace;
use std::sync::{Arc, Mutex};

/// Views of a file that were asked for and weren't read yet. Its shares note in one list. No answer
/// depends on it.
#[derive(Drop)]
pub struct Wanted {
    views: Arc<Mutex<Vec<Vec<SourceSlice>>>>,
}

impl Wanted {
    /// A list of no views.
    ///
    /// # Errors
    /// `AllocError` when memory runs out.
    pub fn new(alloc: Global) -> Result<Wanted, AllocError> {
        let views = Arc::new(alloc, Mutex::new(Vec::new(alloc)))?;
        Ok(Wanted { views })
    }

    /// Another owner of the list.
    ///
    /// # Errors
    /// `AllocError` when memory runs out.
    pub fn share(&self) -> Result<Wanted, AllocError> {
        let views = self.views.clone()?;
        Ok(Wanted { views })
    }

    /// Notes a view that isn't there. Nothing is noted where memory runs out, or while another
    /// thread notes one.
    pub fn note(&self, slices: &[SourceSlice]) {
        let Some(mut views) = self.views.try_lock() else {
            return;
        };
        let alloc = *views.allocator();
        let mut noted = Vec::new(alloc);
        let Ok(()) = noted.extend_from_slice(slices) else {
            return;
        };
        let _ = views.push(noted);
    }

    /// Takes the views that were noted, each once: the list has none then.
    pub fn take(&self, alloc: Global) -> Vec<Vec<SourceSlice>> {
        let mut views = match self.views.try_lock() {
            Some(mut views) => replace(&mut *views, Vec::new(alloc)),
            None => Vec::new(alloc),
        };
        views.sort_unstable_by_key(|slices: &Vec<SourceSlice>| first_of(slices));
        views.dedup();
        views
    }
}
