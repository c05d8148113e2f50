//! The changes between the sizes of two databases.

ghost use Rattle.std.specs.Prelude.{◌≡◌, ◌+◌, ◌||◌, false, true, IfOk, OnOk, string_bytes};
ghost use Rattle.pdb_listings.specs.Sizes.{HadBytes, HadIf, HadMore, HadSame, HasIf, HaveBytes};
ghost use Rattle.pdb_listings.specs.Sizes.{HaveMore, HaveSame, IsDifference};

use crate::sizes::Size;
use std::alloc::{AllocError, Global};
use std::cmp::Ordering;

/// The change of a name: the bytes that it had, and the bytes that it has.
#[derive(Drop)]
pub struct Change {
    /// The name.
    pub name: String,
    /// The bytes that it had; 0 where it came.
    pub old: u64,
    /// The bytes that it has; 0 where it went.
    pub new: u64,
}

impl Change {
    /// Whether the name grew, and the number of bytes by which it grew or shrank.
    pub fn difference(&self) -> (bool, u64)
        ensures grew { result.0 ≡ true → self.now.old + result.1 ≡ self.now.new }
        ensures shrank { result.0 ≡ false → self.now.new + result.1 ≡ self.now.old }
    {
        if self.old <= self.new {
            (true, self.new - self.old)
        } else {
            (false, self.old - self.new)
        }
    }
}

/// The change of a name.
fn named_change(alloc: Global, name: &str, old: u64, new: u64) -> Result<Change, AllocError>
    ensures name { IfOk result (λ c. string_bytes c.name ≡ name.now) }
    ensures old { IfOk result (λ c. c.old ≡ old) }
    ensures new { IfOk result (λ c. c.new ≡ new) }
{
    let name = String::from_str(alloc, name)?;
    Ok(Change { name, old, new })
}

/// The change of a name that went.
#[tactic(auto, using(crate::proofs::Sums::old_as, crate::proofs::Sums::none_if))]
fn gone(alloc: Global, size: &Size) -> Result<Change, AllocError>
    ensures old { IfOk result (HadIf true size.now) }
    ensures new { IfOk result (HasIf false size.now) }
{
    named_change(alloc, size.name.as_str(), size.bytes, 0)
}

/// The change of a name that came.
#[tactic(auto, using(crate::proofs::Sums::new_as, crate::proofs::Sums::none_if))]
fn came(alloc: Global, size: &Size) -> Result<Change, AllocError>
    ensures old { IfOk result (HadIf false size.now) }
    ensures new { IfOk result (HasIf true size.now) }
{
    named_change(alloc, size.name.as_str(), 0, size.bytes)
}

/// The change of a name that both lists have.
#[tactic(auto, using(crate::proofs::Sums::old_as, crate::proofs::Sums::new_as))]
fn stayed(alloc: Global, old: &Size, new: &Size) -> Result<Change, AllocError>
    requires { string_bytes old.now.name ≡ string_bytes new.now.name }
    ensures old { IfOk result (HadIf true old.now) }
    ensures new { IfOk result (HasIf true new.now) }
{
    named_change(alloc, old.name.as_str(), old.bytes, new.bytes)
}

/// Appends changes of names that went.
fn append_gone(alloc: Global, changes: &mut Vec<Change>, old: &[Size]) -> Result<(), AllocError>
    ensures old { OnOk result (HadMore changes.old.items old.now changes.new.items) }
    ensures new { OnOk result (HaveSame changes.old.items changes.new.items) }
{
    for size in old {
        changes.push(gone(alloc, size)?)?;
    }
    Ok(())
}

/// Appends changes of names that came.
fn append_came(alloc: Global, changes: &mut Vec<Change>, new: &[Size]) -> Result<(), AllocError>
    ensures old { OnOk result (HadSame changes.old.items changes.new.items) }
    ensures new { OnOk result (HaveMore changes.old.items new.now changes.new.items) }
{
    for size in new {
        changes.push(came(alloc, size)?)?;
    }
    Ok(())
}

/// The change at a place of each list: of the lesser name, or of both where the names are equal;
/// and whether each list's entry is in it.
fn change_at(alloc: Global, old: &Size, new: &Size) -> Result<(Change, bool, bool), AllocError>
    ensures old { IfOk result (λ r. HadIf r.1 old.now r.0) }
    ensures new { IfOk result (λ r. HasIf r.2 new.now r.0) }
    ensures some { IfOk result (λ r. (r.1 || r.2) ≡ true) }
{
    match old.name.cmp(&new.name) {
        Ordering::Less => Ok((gone(alloc, old)?, true, false)),
        Ordering::Equal => Ok((stayed(alloc, old, new)?, true, true)),
        Ordering::Greater => Ok((came(alloc, new)?, false, true)),
    }
}

/// The changes of all names, where both lists are in the order of their names and each has a name
/// once: then the result has each name once. Whatever their order, each name has the bytes in the
/// changes that it has in the lists. So the sum of all changes is the difference of the totals.
///
/// # Errors
/// `AllocError` when memory runs out.
pub fn changes_of(alloc: Global, old: &[Size], new: &[Size]) -> Result<Vec<Change>, AllocError>
    ensures old { IfOk result (λ changes. HadBytes old.now changes.items) }
    ensures new { IfOk result (λ changes. HaveBytes new.now changes.items) }
    // The bytes that all have, less the bytes that they had, are the new total less the old one.
    ensures total { IfOk result (λ changes. IsDifference old.now new.now changes.items) }
{
    let mut changes = Vec::new(alloc);
    let mut i = 0;
    let mut j = 0;
    while i < old.len() && j < new.len() {
        let (change, from_old, from_new) = change_at(alloc, &old[i], &new[j])?;
        changes.push(change)?;
        i += usize::from(from_old);
        j += usize::from(from_new);
    }
    append_gone(alloc, &mut changes, &old[i..])?;
    append_came(alloc, &mut changes, &new[j..])?;
    Ok(changes)
}
