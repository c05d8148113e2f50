//! Lists with a slot for each number, in which a value is cached once it was read.

ghost use Rattle.std.specs.Prelude.{◌≡◌, IfOk, None, length, option_map, replicate, slice_get};

use std::alloc::{AllocError, Global};

/// So many empty slots.
///
/// # Errors
/// `AllocError` when memory runs out.
pub fn empty_slots<T: Drop>(alloc: Global, count: usize) -> Result<Vec<Option<T>>, AllocError>
    ensures { IfOk result (λ v. v.items ≡ replicate count None) }
{
    let mut slots = Vec::with_capacity(alloc, count)?;
    for _ in 0..count {
        slots.push(None)?;
    }
    Ok(slots)
}

/// Empties all slots.
pub fn empty_all<T: Drop>(slots: &mut [Option<T>])
    ensures { slots.new ≡ replicate (length slots.old) None }
{
    for slot in 0..slots.len() {
        slots[slot] = None;
    }
}

/// The slot with that number, if it is there.
pub fn slot_at<T>(slots: &Vec<Option<T>>, number: usize) -> Option<&Option<T>>
    ensures { option_map (λ s. s.now) result ≡ slice_get slots.now.items number }
{
    slots.get(number)
}
