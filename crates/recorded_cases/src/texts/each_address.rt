//! The number of times that contexts ask for modules at each address of a range.

use crate::texts::calls::{Parts, context_of};
use crate::texts::contexts::functions_text;
use crate::texts::question::Question;
use pdb_addr2line::pdb::PdbInternalSectionOffset;
use pdb_addr2line::{Context, Error, ModuleProvider};
use std::alloc::Global;
use std::cell::Cell;

/// The number of addresses of a range: the 256 of a section at 0x1000, and 16 on each side of it.
const ADDRESSES: u32 = 288;

/// A question that a context is asked about an address.
#[derive(Clone, Copy, Debug)]
enum Query {
    /// The frames at the address.
    Frames,
    /// The function at the address.
    Function,
    /// The length of the function's run in section 1, which begins at 0x1000.
    Run,
    /// All functions, whatever the address.
    Functions,
}

/// All queries.
const QUERIES: &[Query] = &[Query::Frames, Query::Function, Query::Run, Query::Functions];

/// Asks a context.
fn ask_context<P: ModuleProvider>(
    alloc: Global,
    context: &mut Context<'_, '_, P>,
    query: Query,
    rva: u32,
) -> Result<(), Error> {
    match query {
        Query::Frames => {
            context.find_frames(alloc, rva)?;
        }
        Query::Function => {
            context.find_function(alloc, rva)?;
        }
        Query::Run => {
            let offset = rva.wrapping_sub(0x1000);
            let place = PdbInternalSectionOffset { offset, section: 1 };
            context.find_function_run(alloc, place, 0x100)?;
        }
        Query::Functions => {
            functions_text(alloc, context)?;
        }
    }
    Ok(())
}

/// Returns the number of the addresses at which a new context with that query asks for modules, and
/// how often such contexts ask when they are asked again.
fn ask_new_contexts<P: ModuleProvider>(
    alloc: Global,
    provider: &P,
    calls: &Cell<u32>,
    parts: Parts<'_, '_>,
    question: &Question<'_>,
    query: Query,
) -> Result<(u32, u32), Error> {
    let mut asking = 0u32;
    let mut again = 0u32;
    for place in 0..ADDRESSES {
        let rva = question.index.saturating_add(place);
        let mut context = context_of(alloc, provider, parts, question)?;
        let before = calls.get();
        ask_context(alloc, &mut context, query, rva)?;
        let first = calls.get();
        ask_context(alloc, &mut context, query, rva)?;
        asking = asking.saturating_add(u32::from(first > before));
        again = again.saturating_add(calls.get().saturating_sub(first));
    }
    Ok((asking, again))
}

/// Asks a context for everything at each address.
fn ask_everything<P: ModuleProvider>(
    alloc: Global,
    context: &mut Context<'_, '_, P>,
    start: u32,
) -> Result<(), Error> {
    for place in 0..ADDRESSES {
        for query in QUERIES {
            ask_context(alloc, context, *query, start.saturating_add(place))?;
        }
    }
    Ok(())
}

/// Returns the number of times that a context that was asked for everything asks for modules when
/// it is asked again.
fn ask_one_context<P: ModuleProvider>(
    alloc: Global,
    context: &mut Context<'_, '_, P>,
    calls: &Cell<u32>,
    start: u32,
) -> Result<u32, Error> {
    ask_everything(alloc, context, start)?;
    let first = calls.get();
    ask_everything(alloc, context, start)?;
    Ok(calls.get().saturating_sub(first))
}

/// Returns for each query the number of addresses at which a new context asks for modules, and how
/// often such contexts ask when they are asked again. At last it returns how often one context asks
/// that is asked for everything again.
///
/// # Errors
/// A question that a context can't answer; out of memory.
pub fn ask<P: ModuleProvider>(
    alloc: Global,
    provider: &P,
    calls: &Cell<u32>,
    parts: Parts<'_, '_>,
    question: &Question<'_>,
) -> Result<String, Error> {
    let mut text = String::new(alloc);
    for query in QUERIES {
        let (asking, again) = ask_new_contexts(alloc, provider, calls, parts, question, *query)?;
        write!(text, "{query:?} {asking}, then {again}; ")?;
    }
    let mut context = context_of(alloc, provider, parts, question)?;
    let again = ask_one_context(alloc, &mut context, calls, question.index)?;
    write!(text, "everything, then {again}")?;
    Ok(text)
}
