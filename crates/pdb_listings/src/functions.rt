//! The functions of a database with their places.

ghost use Rattle.std.specs.Prelude.{◌≡◌, IfOk, Ok, map, option_map};
ghost use Rattle.pdb_addr2line.specs.Context.{lasting};
ghost use Rattle.pdb_addr2line.specs.ContextAnswers.{answer_of};
ghost use Rattle.pdb_listings.specs.Functions.{AreListed, AreRows, FramesRead};
ghost use Rattle.pdb_listings.specs.Functions.{HaveOwnFrame, own_frame, row_by, row_in};
ghost use Rattle.pdb_listings.specs.Functions.{row_seen};
ghost use Rattle.pdb_resolving.specs.Fault.{Answers};

use crate::line_runs::owned_file;
use pdb_addr2line::{Context, Error, Frame, Function, FunctionFrames};
use pdb_resolving::ModuleProvider;
use std::alloc::{AllocError, Global};

/// Frames that were asked for.
type FoundFrames<'a> = Result<Option<FunctionFrames<'a>>, Error>;

/// A function with the place at its start.
#[derive(Drop)]
pub struct FunctionRow {
    /// The function.
    pub function: Function,
    /// The source file at its start, if it is known.
    pub file: Option<String>,
    /// The line there, counted from 1, if it is known.
    pub line: Option<u32>,
}

/// The functions that a context lists.
fn functions_of<P: ModuleProvider>(
    alloc: Global,
    context: &mut Context<'_, '_, P>,
) -> Result<Vec<Function>, AllocError>
    ensures { IfOk result (λ functions. AreListed P.provided context.old functions.items) }
{
    let mut functions = Vec::new(alloc);
    let Ok(list) = context.functions(alloc) else {
        return Err(AllocError);
    };
    for function in list {
        let Ok(function) = function else {
            return Err(AllocError);
        };
        functions.push(function)?;
    }
    Ok(functions)
}

/// The outermost frame that was found: the function's own.
fn outermost<'f, 'a>(found: &'f Option<FunctionFrames<'a>>) -> Option<&'f Frame<'a>>
    ensures { option_map (λ frame. frame.now) result ≡ own_frame (Ok found.now) }
{
    match found {
        None => None,
        Some(found) => found.frames.last(),
    }
}

/// The frames that were found; none where they can't be read.
fn if_readable<'a>(found: FoundFrames<'a>) -> Result<Option<FunctionFrames<'a>>, AllocError>
    ensures { (read : FramesRead) → Answers (λ f. f) found.entry read
        → IfOk result (HaveOwnFrame read) }
{
    match found {
        Ok(found) => Ok(found),
        Err(Error::OutOfMemory) => Err(AllocError),
        Err(_) => Ok(None),
    }
}

/// A function with the place of a frame.
fn row_of(
    alloc: Global,
    function: Function,
    frame: Option<&Frame<'_>>,
) -> Result<FunctionRow, AllocError>
    ensures { IfOk result (λ row. row_seen row
        ≡ row_by function (option_map (λ it. it.now) frame.entry)) }
{
    let Some(frame) = frame else {
        return Ok(FunctionRow {
            function,
            file: None,
            line: None,
        });
    };
    let file = owned_file(alloc, &frame.file)?;
    Ok(FunctionRow {
        function,
        file,
        line: frame.line,
    })
}

/// The frames at an address; none where they can't be read.
fn frames_found<'a, P: ModuleProvider>(
    alloc: Global,
    context: &mut Context<'a, '_, P>,
    address: u32,
) -> Result<Option<FunctionFrames<'a>>, AllocError>
    ensures same { lasting context.new ≡ lasting context.old }
    ensures frames { IfOk result (λ found. own_frame (Ok found)
        ≡ own_frame (answer_of P.provided context.old address)) }
{
    if_readable(context.find_frames(alloc, address))
}

/// A function with the place at its start, from the frames there; none of the place is known where
/// the frames can't be read.
fn row_at_start<P: ModuleProvider>(
    alloc: Global,
    context: &mut Context<'_, '_, P>,
    function: Function,
) -> Result<FunctionRow, AllocError>
    ensures same { lasting context.new ≡ lasting context.old }
    ensures row { IfOk result
        (λ row. row_seen row ≡ row_in P.provided context.old function) }
{
    let found = frames_found(alloc, context, function.start_rva)?;
    row_of(alloc, function, outermost(&found))
}

/// The functions with the places at their starts.
fn rows_of<P: ModuleProvider>(
    alloc: Global,
    context: &mut Context<'_, '_, P>,
    functions: Vec<Function>,
) -> Result<Vec<FunctionRow>, AllocError>
    ensures { IfOk result (λ rows. map row_seen rows.items
        ≡ map (row_in P.provided context.old) functions.items) }
{
    let mut rows = Vec::new(alloc);
    for function in functions {
        rows.push(row_at_start(alloc, context, function)?)?;
    }
    Ok(rows)
}

/// The functions of a database in the order of their addresses, as `lister` lists them, each with
/// the place at its start: file and line of the function's own frame there, as `context` finds it.
/// None of the place is known where the frames can't be read.
///
/// # Errors
/// `AllocError` when memory runs out.
pub fn list_functions<P: ModuleProvider>(
    alloc: Global,
    lister: Context<'_, '_, P>,
    context: &mut Context<'_, '_, P>,
) -> Result<Vec<FunctionRow>, AllocError>
    ensures { IfOk result (λ rows. AreRows P.provided lister.entry context.old rows.items) }
{
    let mut lister = lister;
    let functions = functions_of(alloc, &mut lister)?;
    rows_of(alloc, context, functions)
}
