//! Bytes by function and by source file.

ghost use Rattle.std.specs.Prelude.{◌≡◌, ◌+◌, ◌<◌, ◌≤◌, ◌^◌, false};
ghost use Rattle.pdb_addr2line.specs.ContextAnswers.{files_keyed_in as files_in, keyed_in};
ghost use Rattle.pdb_addresses.specs.Addresses.{IsOrdered};
ghost use Rattle.pdb_listings.specs.NamedSizes.{AddsBytes, AddsNamed, CountsBytes, CountsNamed};
ghost use Rattle.pdb_listings.specs.NamedSizes.{CountsNames, CountsPaths};
ghost use Rattle.pdb_listings.specs.NamedSizes.{SumsBytes, SumsNamed, SumsNames};
ghost use Rattle.pdb_owners.specs.Table.{sum_of};

use crate::keyed_runs::{FileRuns, FunctionRuns};
use crate::named::Named;
use crate::naming::{FileNaming, FunctionNaming, Naming};
use pdb_addr2line::Context;
use pdb_addresses::AddressMap;
use pdb_owners::{Counts, Function, Runs, count_keys};
use pdb_resolving::ModuleProvider;
use std::alloc::{AllocError, Global};

/// Adds bytes to the name of the answer that a key stands for, if there is one.
fn add_named<R: Runs, N: Naming<Answer = R::Found>>(
    alloc: Global,
    runs: &mut R,
    naming: &N,
    table: &mut Counts<Named>,
    key: &R::Key,
    bytes: u64,
) -> Result<(), AllocError>
    requires room { sum_of table.old + bytes < 2 ^ 64 }
    ensures each { N.unsaid naming.now ≡ false → AddsNamed (N.name naming.now)
        (R.keyed runs.old) key.now bytes table.old table.new result }
    ensures total { AddsBytes (R.keyed runs.old) key.now bytes table.old table.new result }
    ensures same { R.keyed runs.new ≡ R.keyed runs.old }
{
    match runs.answer_of(alloc, key)? {
        None => Ok(()),
        Some(answer) => naming.add(alloc, table, &answer, bytes),
    }
}

/// The bytes of the answers that keys stand for, by the answers' names.
#[tactic(auto, using(crate::proofs::KeySums::entry_fits))]
fn name_answers<R: Runs, N: Naming<Answer = R::Found>>(
    alloc: Global,
    runs: &mut R,
    naming: &N,
    keys: &Counts<R::Key>,
) -> Result<Counts<Named>, AllocError>
    ensures each { N.unsaid naming.now ≡ false → SumsNamed (N.name naming.now)
        (R.keyed runs.old) keys.now result }
    ensures total { SumsBytes (R.keyed runs.old) keys.now result }
{
    let mut table = Counts::new(alloc);
    let _total = keys.total();
    for (key, bytes) in keys.by_answer() {
        add_named(alloc, runs, naming, &mut table, key, *bytes)?;
    }
    Ok(table)
}

/// The bytes of the functions that keys stand for, by the functions' names.
pub(crate) fn name_functions<R: Runs<Found = Function>>(
    alloc: Global,
    runs: &mut R,
    keys: &Counts<R::Key>,
    undecorate: bool,
) -> Result<Counts<Named>, AllocError>
    ensures each { SumsNames undecorate (R.keyed runs.old) keys.now result }
    ensures total { SumsBytes (R.keyed runs.old) keys.now result }
{
    name_answers(alloc, runs, &FunctionNaming { undecorate }, keys)
}

/// The bytes of the answers from `start` on and before `end`, by the answers' names: the number of
/// addresses there that have an answer of the name.
fn named_sizes<R: Runs, N: Naming<Answer = R::Found>>(
    alloc: Global,
    map: &AddressMap<'_>,
    runs: &mut R,
    naming: &N,
    start: u32,
    end: u32,
) -> Result<Counts<Named>, AllocError>
    requires ordered { IsOrdered map.now }
    requires order { start ≤ end }
    ensures each { N.unsaid naming.now ≡ false → CountsNamed (N.name naming.now) map.now
        (R.keyed runs.old) start end result }
    ensures total { CountsBytes map.now (R.keyed runs.old) start end result }
{
    let keys = count_keys(alloc, map, runs, start, end)?;
    name_answers(alloc, runs, naming, &keys)
}

/// The bytes of functions from `start` on and before `end`, by the functions' names: the number of
/// addresses there that have a function of the name. `??` stands for functions without a name.
///
/// # Errors
/// `AllocError` when memory runs out.
pub fn function_sizes<P: ModuleProvider>(
    alloc: Global,
    map: &AddressMap<'_>,
    context: Context<'_, '_, P>,
    start: u32,
    end: u32,
    undecorate: bool,
) -> Result<Counts<Named>, AllocError>
    requires ordered { IsOrdered map.now }
    requires order { start ≤ end }
    ensures each { CountsNames undecorate map.now (keyed_in P.provided context.entry)
        start end result }
    ensures total { CountsBytes map.now (keyed_in P.provided context.entry) start end result }
{
    let mut runs = FunctionRuns {
        context,
        answered: 0,
    };
    named_sizes(
        alloc,
        map,
        &mut runs,
        &FunctionNaming { undecorate },
        start,
        end,
    )
}

/// The bytes of source files from `start` on and before `end`, by their paths or by their folders:
/// the number of addresses there that have a function that begins in the file. `(no file)` stands
/// for functions without a known file, and `(unreadable)` for those whose frames can't be read.
///
/// # Errors
/// `AllocError` when memory runs out.
pub fn file_sizes<P: ModuleProvider>(
    alloc: Global,
    map: &AddressMap<'_>,
    context: Context<'_, '_, P>,
    start: u32,
    end: u32,
    by_folder: bool,
) -> Result<Counts<Named>, AllocError>
    requires ordered { IsOrdered map.now }
    requires order { start ≤ end }
    ensures each { CountsPaths by_folder map.now (files_in P.provided context.entry)
        start end result }
    ensures total { CountsBytes map.now (files_in P.provided context.entry) start end result }
{
    let mut runs = FileRuns {
        context,
        answered: 0,
    };
    named_sizes(alloc, map, &mut runs, &FileNaming { by_folder }, start, end)
}
