//! The answers of a context that forgets what it cached.

use crate::texts::calls::{Parts, context_of};
use crate::texts::contexts::frames_text;
use crate::texts::question::Question;
use pdb_addr2line::{Context, Error, ModuleProvider};
use std::alloc::Global;
use std::cell::Cell;

/// The number of addresses about which a context is asked, from the first one on.
const ADDRESSES: u32 = 288;

/// The distance between the addresses about which it is asked again.
const STEP: usize = 8;

/// Returns the number of the addresses at which a context that is asked for the frames asks for
/// modules.
fn asking<P: ModuleProvider>(
    alloc: Global,
    context: &mut Context<'_, '_, P>,
    calls: &Cell<u32>,
    start: u32,
) -> Result<u32, Error> {
    let mut asking = 0u32;
    for place in 0..ADDRESSES {
        let before = calls.get();
        context.find_frames(alloc, start.saturating_add(place))?;
        asking = asking.saturating_add(u32::from(calls.get() > before));
    }
    Ok(asking)
}

/// Returns, of every eighth address, the number at which a context's frames are a new context's.
fn alike<P: ModuleProvider>(
    alloc: Global,
    context: &mut Context<'_, '_, P>,
    provider: &P,
    parts: Parts<'_, '_>,
    question: &Question<'_>,
) -> Result<u32, Error> {
    let mut alike = 0u32;
    for place in (0..ADDRESSES).step_by(STEP) {
        let rva = question.index.saturating_add(place);
        let mut new = context_of(alloc, provider, parts, question)?;
        let right = frames_text(alloc, &mut new, rva)?;
        let frames = frames_text(alloc, context, rva)?;
        alike = alike.saturating_add(u32::from(frames.as_str() == right.as_str()));
    }
    Ok(alike)
}

/// Returns the number of the addresses at which a context that is asked for the frames asks for
/// modules. Then it returns, of every eighth address, the number at which its frames are a new
/// context's.
///
/// # Errors
/// Frames that can't be read; out of memory.
pub fn ask<P: ModuleProvider>(
    alloc: Global,
    provider: &P,
    calls: &Cell<u32>,
    parts: Parts<'_, '_>,
    question: &Question<'_>,
) -> Result<String, Error> {
    let mut context = context_of(alloc, provider, parts, question)?;
    let asking = asking(alloc, &mut context, calls, question.index)?;
    let alike = alike(alloc, &mut context, provider, parts, question)?;
    Ok(format!(in alloc; "asking {asking}; then alike {alike}")?)
}
