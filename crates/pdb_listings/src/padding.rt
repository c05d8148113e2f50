//! Bytes by function, where padding counts for the function before it.

ghost use Rattle.std.specs.Prelude.{◌+◌, ◌^◌, ◌<◌, ◌≤◌, IsTrue, OnOk};
ghost use Rattle.pdb_owners.specs.Table.{sum_of};

use crate::keyed_runs::FunctionRuns;
use crate::named::Named;
use crate::owner_sizes::name_functions;
use pdb_addr2line::Context;
use pdb_addresses::PdbInternalSectionOffset;
use pdb_owners::{Counts, FunctionKey};
use pdb_resolving::ModuleProvider;
use pdb_symbols_modules::DBISectionContribution;
use std::alloc::{AllocError, Global};

/// The function for which bytes count, and the last offset in the section at which it was found,
/// or, of a public entry, at which it begins.
#[derive(Clone, Copy)]
struct Owner {
    key: FunctionKey,
    last: u32,
}

/// The owner of the last of `count` bytes from an offset on, from the key of all of them and the
/// owner of the byte before them. The owner stays where there is no key, or the key of a public
/// entry that begins no later than the owner's last offset.
fn owner_after(
    before: Option<Owner>,
    key: Option<FunctionKey>,
    offset: u32,
    count: u32,
) -> Option<Owner> {
    let Some(key) = key else {
        return before;
    };
    match (key, before) {
        (FunctionKey::Public(_, start), Some(owner)) if start.offset <= owner.last => before,
        (FunctionKey::Public(_, start), _) => Some(Owner {
            key,
            last: start.offset,
        }),
        (FunctionKey::Procedure(_, _), _) => Some(Owner {
            key,
            last: offset.saturating_add(count.saturating_sub(1)),
        }),
    }
}

/// Whether so many bytes more can be counted.
fn has_room(keys: &Counts<FunctionKey>, size: u32) -> bool
    ensures { IsTrue result → sum_of keys.now + size < 2 ^ 64 }
{
    keys.total() <= u64::MAX - u64::from(size)
}

/// Counts the bytes of a contribution by function. A byte that has no procedure counts for the last
/// function before it in the contribution, if there is one.
fn count_joined<P: ModuleProvider>(
    alloc: Global,
    context: &mut Context<'_, '_, P>,
    contribution: &DBISectionContribution,
    keys: &mut Counts<FunctionKey>,
) -> Result<(), AllocError>
    requires room { sum_of keys.old + contribution.now.size < 2 ^ 64 }
    ensures room { OnOk result (sum_of keys.new ≤ sum_of keys.old + contribution.now.size) }
{
    let mut owner = None;
    let mut done = 0;
    while done < contribution.size {
        let Some(offset) = contribution.offset.offset.checked_add(done) else {
            return Ok(());
        };
        let place = PdbInternalSectionOffset {
            offset,
            section: contribution.offset.section,
        };
        let Ok((key, count)) = context.find_key_run(alloc, place, contribution.size - done) else {
            return Err(AllocError);
        };
        owner = owner_after(owner, key, offset, count);
        keys.add_answer(owner.map(|it| it.key), u64::from(count))?;
        done += count;
    }
    Ok(())
}

/// Counts the bytes of contributions by function ([`count_joined`]), as far as there is room.
fn count_contributions<P: ModuleProvider>(
    alloc: Global,
    context: &mut Context<'_, '_, P>,
    contributions: &[DBISectionContribution],
) -> Result<Counts<FunctionKey>, AllocError> {
    let mut keys = Counts::new(alloc);
    for contribution in contributions {
        if has_room(&keys, contribution.size) {
            count_joined(alloc, context, contribution, &mut keys)?;
        }
    }
    Ok(keys)
}

/// The bytes of functions by their names, where padding counts: a byte of a contribution counts for
/// the function that it has. A byte without a procedure counts for the last function before it in
/// the contribution: a procedure, or a public entry that begins after it.
///
/// # Errors
/// `AllocError` when memory runs out.
pub fn joined_sizes<P: ModuleProvider>(
    alloc: Global,
    context: Context<'_, '_, P>,
    contributions: &[DBISectionContribution],
    undecorate: bool,
) -> Result<Counts<Named>, AllocError> {
    let mut runs = FunctionRuns {
        context,
        answered: 0,
    };
    match count_contributions(alloc, &mut runs.context, contributions) {
        Ok(keys) => name_functions(alloc, &mut runs, &keys, undecorate),
        Err(error) => Err(error),
    }
}
