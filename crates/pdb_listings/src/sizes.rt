//! Bytes by name.

ghost use Rattle.std.specs.Prelude.{◌≡◌, ◌+◌, ◌-◌, ◌^◌, ◌<◌, IfOk, MatchOption, OnOk, false};
ghost use Rattle.std.specs.Prelude.{map, min};
ghost use Rattle.std.specs.List.{list_any};
ghost use Rattle.std.specs.List.Sorted.{IsNonDecreasingBy, IsPermutation};
ghost use Rattle.pdb_owners.specs.Table.{sum_of};
ghost use Rattle.pdb_listings.specs.Sizes.{AddsTo, IsLastSeparator, bytes_of, folder};
ghost use Rattle.pdb_listings.specs.Sizes.{is_separator, lack_of, size_seen};

use crate::named::Named;
use pdb_owners::Counts;
use std::alloc::{AllocError, Global};

/// A name with the number of its bytes.
#[derive(Drop)]
pub struct Size {
    /// The name.
    pub name: String,
    /// The bytes.
    pub bytes: u64,
}

/// Adds bytes to a name.
///
/// # Errors
/// `AllocError` when memory runs out.
pub fn add_bytes(
    alloc: Global,
    table: &mut Counts<Named>,
    name: &str,
    bytes: u64,
) -> Result<(), AllocError>
    requires room { sum_of table.old + bytes < 2 ^ 64 }
    ensures each { OnOk result (AddsTo name.now bytes table.old table.new) }
    ensures total { OnOk result (sum_of table.new ≡ sum_of table.old + bytes) }
{
    if bytes == 0 {
        return Ok(());
    }
    let name = String::from_str(alloc, name)?;
    table.add(Named { name }, bytes)
}

/// The folder of a path: the text before its last slash or backslash; empty where it has none.
#[tactic(auto, using(crate::proofs::Folders::folder_at, crate::proofs::Folders::no_folder))]
pub fn folder_of(path: &str) -> &str
    ensures { result.now ≡ folder path.now }
{
    match last_separator(path.as_bytes()) {
        Some(place) => &path[..place],
        None => "",
    }
}

/// The place of the last slash or backslash.
fn last_separator(path: &[u8]) -> Option<usize>
    ensures { MatchOption result (list_any is_separator path.now ≡ false)
        (IsLastSeparator path.now) }
{
    let mut place = path.len();
    while place > 0 {
        place -= 1;
        if path[place] == b'/' || path[place] == b'\\' {
            return Some(place);
        }
    }
    None
}

/// The sizes that a table has, in the order of its names.
///
/// # Errors
/// `AllocError` when memory runs out.
#[tactic(auto, using(crate::proofs::Sums::listed_more))]
pub fn listed(alloc: Global, table: &Counts<Named>) -> Result<Vec<Size>, AllocError>
    ensures { IfOk result (λ sizes. map size_seen sizes.items ≡ table.now) }
{
    let mut sizes = Vec::new(alloc);
    for (named, bytes) in table.by_answer() {
        let name = String::from_str(alloc, named.name.as_str())?;
        sizes.push(Size {
            name,
            bytes: *bytes,
        })?;
    }
    Ok(sizes)
}

/// All bytes together; at `u64::MAX` the sum stays.
pub fn total_of(sizes: &[Size]) -> u64
    ensures { result ≡ min (bytes_of sizes.now) (2 ^ 64 - 1) }
{
    let mut total: u64 = 0;
    for size in sizes {
        total = total.saturating_add(size.bytes);
    }
    total
}

/// Puts the largest sizes first. Equal sizes stay in their order.
///
/// # Errors
/// `AllocError` when memory runs out.
pub fn largest_first(sizes: &mut Vec<Size>) -> Result<(), AllocError>
    ensures same { IsPermutation sizes.old.items sizes.new.items }
    ensures order { OnOk result (IsNonDecreasingBy lack_of sizes.new.items) }
{
    sizes.sort_by_key(|size: &Size| u64::MAX - size.bytes)?;
    Ok(())
}
