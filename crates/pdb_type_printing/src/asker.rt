//! The asker of a text: its module and allocator.

use std::alloc::Global;

/// The asking module, and the allocator.
#[derive(Clone, Copy)]
pub struct Asker {
    /// The allocator, from which memory comes.
    pub alloc: Global,
    /// The number of the asking module, counted from 0.
    pub module_index: usize,
}
