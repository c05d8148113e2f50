//! The answers for places of a database's sections, as a symbol file tells them.

ghost use Rattle.std.specs.Prelude.{◌≡◌, ◌+◌, ◌-◌, ◌^◌, ◌≤◌, IfOk, IfSome, OnErr, OnOk, min};
ghost use Rattle.pdb_addr2line.specs.Context.{lasting, uncounted};
ghost use Rattle.pdb_addr2line.specs.ContextAnswers.{IsRunOf};
ghost use Rattle.pdb_addr2line.specs.Answer.{answered_in, database_in};
ghost use Rattle.pdb_owners.specs.Databases.{place_of};
ghost use Rattle.pdb_symbol_files.specs.PlainAnswers.{IsPlainTold};
ghost use Rattle.pdb_symbols.specs.Lookups.{EndsAtBound, is_bound_for};
ghost use Rattle.pdb_symbols.specs.Told.{frames_shown, start_of as start_in, TellsPlaces};
ghost use Rattle.pdb_symbols.specs.Told.{told_found, told_place_in};

use pdb_addr2line::{Error, FileContext};
use pdb_addresses::PdbInternalSectionOffset;
use pdb_owners::{Frame, FunctionFrames};
use pdb_symbol_files::{Told, ToldRun, told_of};
use std::alloc::{AllocError, Global};

/// Frames as a symbol file has them: with inlined calls, or the outermost one alone.
fn shown<'f, 'a>(inlines: bool, frames: &'f [Frame<'a>]) -> &'f [Frame<'a>]
    ensures { result.now ≡ frames_shown inlines frames.now }
{
    if inlines {
        return frames;
    }
    &frames[frames.len().saturating_sub(1)..]
}

/// Returns what is told of frames that were found, in a function that begins at an address, if it
/// is known.
fn tell(
    alloc: Global,
    inlines: bool,
    start: Option<u32>,
    found: &Option<FunctionFrames<'_>>,
) -> Result<Option<Told>, AllocError>
    ensures is { IfOk result (λ told. told ≡ told_found inlines start found.now) }
    ensures plain { IfOk result (λ told. IfSome told IsPlainTold) }
{
    match found {
        Some(found) => told_of(alloc, start, shown(inlines, found.frames.as_slice())),
        None => Ok(None),
    }
}

/// Returns the start of the function at a place, if there is one, and the number of places from
/// there on that it holds for, `limit` at most. The function is looked up once.
fn start_run(
    alloc: Global,
    context: &mut FileContext<'_>,
    place: PdbInternalSectionOffset,
    limit: u32,
) -> Result<(Option<u32>, u32), Error>
    requires { 1 ≤ limit }
    ensures same { uncounted context.new ≡ uncounted context.old }
    ensures start { IfOk result (λ run. run.0 ≡ start_in
        ((database_in answered_in context.old).answer (place_of place))) }
    ensures count { IsRunOf (database_in answered_in context.old) place limit result }
    ensures lookups { OnOk result
        (context.new.lookups ≡ min (context.old.lookups + 1) (2 ^ 64 - 1)) }
{
    let (key, count) = context.find_key_run(alloc, place, limit)?;
    let Some(key) = key else {
        return Ok((None, count));
    };
    let function = context.function_by_key(alloc, &key)?;
    Ok((function.map(|function| function.start_rva), count))
}

/// Returns what is told of a place, with inlined calls or without, and the number of places from
/// there on of which it is told, `limit` at most. Nothing is told where frames can't be read. No
/// name or file has a control character. The function and the frames are looked up once each, and
/// the run ends at `limit` or at the next bound. The context's lookups for it are added to
/// `lookups`.
///
/// # Errors
/// `OutOfMemory` alone, also where something has to be read first.
pub fn told_at_place(
    alloc: Global,
    context: &mut FileContext<'_>,
    lookups: &mut u64,
    inlines: bool,
    place: PdbInternalSectionOffset,
    limit: u32,
) -> Result<ToldRun, Error>
    requires { 1 ≤ limit }
    ensures same { lasting context.new ≡ lasting context.old }
    ensures some { IfOk result (λ run. 1 ≤ run.count) }
    ensures within { IfOk result (λ run. run.count ≤ limit) }
    ensures told { IfOk result
        (TellsPlaces (told_place_in inlines context.old) (place_of place)) }
    ensures plain { IfOk result (λ run. IfSome run.told IsPlainTold) }
    ensures ends { IfOk result (EndsAtBound (is_bound_for context.old) (place_of place) limit) }
    ensures lookups { OnOk result
        (context.new.lookups ≡ min (context.old.lookups + 2) (2 ^ 64 - 1)) }
    ensures counted { OnOk result (lookups.new ≡ min
        (lookups.old + (context.new.lookups - context.old.lookups)) (2 ^ 64 - 1)) }
    ensures few { OnOk result (lookups.new ≤ lookups.old + 2) }
    ensures uncounted { OnErr result (lookups.new ≡ lookups.old) }
{
    let before = context.lookups();
    let (start, of_function) = start_run(alloc, context, place, limit)?;
    let (found, count) = context.find_frames_run(alloc, place, limit)?;
    let told = tell(alloc, inlines, start, &found)?;
    *lookups = lookups.saturating_add(context.lookups().saturating_sub(before));
    Ok(ToldRun {
        told,
        count: count.min(of_function),
    })
}
