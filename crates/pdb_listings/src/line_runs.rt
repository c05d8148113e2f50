//! Runs of addresses that have one line.

ghost use Rattle.std.specs.Prelude.{◌≡◌, ◌+◌, ◌<◌, ◌≤◌, ◌↔◌, IfOk, IsTrue, option_map};
ghost use Rattle.std.specs.Prelude.{string_bytes};
ghost use Rattle.std.specs.Cow.{cow_str_bytes};
ghost use Rattle.pdb_addresses.specs.Addresses.{IsOrdered, inner};
ghost use Rattle.pdb_addr2line.specs.Context.{lasting};
ghost use Rattle.pdb_owners.specs.Counts.{is_last};
ghost use Rattle.pdb_owners.specs.Databases.{place_of};
ghost use Rattle.pdb_listings.specs.Runs.{ArePlacesFrom, IsLineRun, line_in, line_seen};

use pdb_addr2line::{Context, SharedFunctionFrames};
use pdb_addresses::{AddressMap, PdbInternalSectionOffset, Rva};
use pdb_resolving::ModuleProvider;
use std::alloc::{AllocError, Global};
use std::borrow::CowStr;

/// A line of source.
#[derive(Drop, PartialEq)]
pub struct Line {
    /// The source file, if it is known.
    pub file: Option<String>,
    /// The line, counted from 1, if it is known.
    pub line: Option<u32>,
}

/// A file's name of its own.
pub(crate) fn owned_file(
    alloc: Global,
    file: &Option<CowStr<'_>>,
) -> Result<Option<String>, AllocError>
    ensures { IfOk result (λ own. option_map string_bytes own ≡ option_map cow_str_bytes file.now) }
{
    match file {
        None => Ok(None),
        Some(file) => Ok(Some(String::from_str(alloc, file)?)),
    }
}

/// The line of the innermost of frames.
fn innermost_line(
    alloc: Global,
    found: &Option<SharedFunctionFrames<'_>>,
) -> Result<Option<Line>, AllocError>
    ensures { IfOk result (λ line. option_map line_seen line ≡ line_in found.now) }
{
    let Some(found) = found else {
        return Ok(None);
    };
    let Some(frame) = found.frames.first() else {
        return Ok(None);
    };
    Ok(Some(Line {
        file: owned_file(alloc, &frame.file)?,
        line: frame.line,
    }))
}

/// Whether an address becomes 0xffffffff.
#[tactic(auto, using(crate::proofs::PlaceRuns::none_last, crate::proofs::PlaceRuns::some_last))]
fn becomes_last(map: &AddressMap<'_>, address: u32) -> bool
    requires { IsOrdered map.now }
    ensures { result ≡ is_last (inner map.now address) }
{
    match Rva(address).to_internal_rva(map) {
        None => false,
        Some(internal) => internal.0 == u32::MAX,
    }
}

/// The place of an address, if it has one, and the number of addresses from there on and before
/// `end` over which places follow one another, or are missing. An address that becomes 0xffffffff
/// has no place.
#[tactic(auto, using(crate::proofs::PlaceRuns::last_run, crate::proofs::PlaceRuns::other_run))]
fn counted_run(
    map: &AddressMap<'_>,
    address: u32,
    end: u32,
) -> (Option<PdbInternalSectionOffset>, u32)
    requires ordered { IsOrdered map.now }
    requires order { address < end }
    ensures some { 1 ≤ result.1 }
    ensures within { address + result.1 ≤ end }
    ensures along { ArePlacesFrom map.now address result.1 (option_map place_of result.0) }
{
    let (place, count) = map.place_run(Rva(address), Rva(end));
    if becomes_last(map, address) {
        return (None, count);
    }
    (place, count)
}

/// The line at an address, if it has one, and the number of addresses from there on and before
/// `end` over which it is the same, at least. An address that becomes 0xffffffff has no line. `map`
/// is the context's.
///
/// # Errors
/// `AllocError` when memory runs out.
#[tactic(auto, using(crate::proofs::Lines::no_line))]
pub fn line_run<P: ModuleProvider>(
    alloc: Global,
    context: &mut Context<'_, '_, P>,
    map: &AddressMap<'_>,
    address: u32,
    end: u32,
) -> Result<(Option<Line>, u32), AllocError>
    requires ordered { IsOrdered map.now }
    requires order { address < end }
    ensures same { lasting context.new ≡ lasting context.old }
    ensures some { IfOk result (λ run. 1 ≤ run.1) }
    ensures within { IfOk result (λ run. address + run.1 ≤ end) }
    // Each address of the run has this line, as its frames say.
    ensures each { map.now ≡ (context.old.parts).map
        → IfOk result (IsLineRun P.provided context.old address) }
{
    let (place, count) = counted_run(map, address, end);
    let Some(place) = place else {
        return Ok((None, count));
    };
    let Ok((found, count)) = context.find_shared_frames_run(alloc, place, count) else {
        return Err(AllocError);
    };
    Ok((innermost_line(alloc, &found)?, count))
}

/// Whether two lines are one: file and number are equal.
pub fn is_same_line(a: &Line, b: &Line) -> bool
    ensures { IsTrue result ↔ (line_seen a.now ≡ line_seen b.now) }
{
    a == b
}
