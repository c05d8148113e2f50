//! Answers of contexts about addresses.

use crate::texts::Data;
use crate::texts::question::{Asked, Question};
use pdb_addr2line::pdb::PdbInternalSectionOffset;
use pdb_addr2line::{Context, Error, Function, FunctionFrames, ModuleProvider};
use std::alloc::Global;
use std::fmt::Debug;

/// Answers a question by a context whose formatter has the question's flags. Over an address map
/// that isn't ordered there is none, and the answer says so.
///
/// # Errors
/// A question that the context can't answer; out of memory.
pub fn ask(alloc: Global, data: &Data, question: &Question<'_>) -> Result<String, Error> {
    if !data.address_map().is_ordered() {
        return shown(alloc, &"not ordered");
    }
    let flags = question.formatter_flags();
    let mut context = data.make_context_with_formatter_flags(alloc, flags)?;
    answer_by(alloc, &mut context, question)
}

/// Returns a value as a text.
fn shown<T: Debug>(alloc: Global, value: &T) -> Result<String, Error> {
    Ok(format!(in alloc; "{value:?}")?)
}

/// Returns an answer as a text.
fn shown_answer<T: Debug + Drop>(alloc: Global, answer: Result<T, Error>) -> Result<String, Error> {
    match answer {
        Ok(value) => shown(alloc, &value),
        Err(fault) => Err(fault),
    }
}

/// Copies a function that was found, if one was.
fn copied_function(
    alloc: Global,
    found: Result<Option<Function>, Error>,
) -> Result<Option<Function>, Error> {
    match found? {
        None => Ok(None),
        Some(function) => Ok(Some(function.try_clone(alloc)?)),
    }
}

/// Copies frames that were found, if some were.
fn copied_frames<'a>(
    alloc: Global,
    found: Result<Option<FunctionFrames<'a>>, Error>,
) -> Result<Option<FunctionFrames<'a>>, Error> {
    match found? {
        None => Ok(None),
        Some(frames) => Ok(Some(frames.try_clone(alloc)?)),
    }
}

/// Returns the function that a context finds at an address, as its copy.
fn function_text<P: ModuleProvider>(
    alloc: Global,
    context: &mut Context<'_, '_, P>,
    address: u32,
) -> Result<String, Error> {
    let found = context.find_function(alloc, address);
    shown_answer(alloc, copied_function(alloc, found))
}

/// Returns the frames that a context finds at an address, as their copy.
///
/// # Errors
/// Frames that can't be read; out of memory.
pub fn frames_text<P: ModuleProvider>(
    alloc: Global,
    context: &mut Context<'_, '_, P>,
    address: u32,
) -> Result<String, Error> {
    let found = context.find_frames(alloc, address);
    shown_answer(alloc, copied_frames(alloc, found))
}

/// Returns the frames that a context finds at an address, with shared names.
fn shared_text<P: ModuleProvider>(
    alloc: Global,
    context: &mut Context<'_, '_, P>,
    address: u32,
) -> Result<String, Error> {
    let frames = context.find_shared_frames(alloc, address)?;
    shown(alloc, &frames)
}

/// Answers a question by a context: `prefixes` as `frames_at`, and any other that isn't about an
/// address as `functions`.
///
/// # Errors
/// A question that the context can't answer; out of memory.
pub fn answer_by<P: ModuleProvider>(
    alloc: Global,
    context: &mut Context<'_, '_, P>,
    question: &Question<'_>,
) -> Result<String, Error> {
    match question.asked {
        Asked::FunctionAt => function_text(alloc, context, question.index),
        Asked::FramesAt | Asked::Prefixes => frames_text(alloc, context, question.index),
        Asked::SharedAt => shared_text(alloc, context, question.index),
        Asked::RunFrom => run_text(alloc, context, question.index),
        Asked::FileRunFrom => file_run_text(alloc, context, question.index),
        Asked::FileRunAgain => file_run_again_text(alloc, context, question.index),
        Asked::FramesRunFrom => frames_run_text(alloc, context, question.index),
        _ => functions_text(alloc, context),
    }
}

/// Returns the function at an offset of section 1, how far it goes on, and the number of places
/// that were looked up.
fn run_text<P: ModuleProvider>(
    alloc: Global,
    context: &mut Context<'_, '_, P>,
    offset: u32,
) -> Result<String, Error> {
    let before = context.lookups();
    let place = PdbInternalSectionOffset { offset, section: 1 };
    let run = context.find_function_run(alloc, place, 0x100);
    let lookups = context.lookups().saturating_sub(before);
    match run {
        Ok(run) => shown(alloc, &(run, lookups)),
        Err(fault) => Err(fault),
    }
}

/// Returns the source file at an offset of section 1, how far it goes on, and the number of places
/// that were looked up.
fn file_run_text<P: ModuleProvider>(
    alloc: Global,
    context: &mut Context<'_, '_, P>,
    offset: u32,
) -> Result<String, Error> {
    let before = context.lookups();
    let place = PdbInternalSectionOffset { offset, section: 1 };
    let run = context.find_file_run(alloc, place, 0x100);
    let lookups = context.lookups().saturating_sub(before);
    match run {
        Ok(run) => shown(alloc, &(run, lookups)),
        Err(fault) => Err(fault),
    }
}

/// Returns the text of [`file_run_text`] after the context was asked for the frames there. Section
/// 1 begins at 0x1000.
fn file_run_again_text<P: ModuleProvider>(
    alloc: Global,
    context: &mut Context<'_, '_, P>,
    offset: u32,
) -> Result<String, Error> {
    let found = context.find_frames(alloc, offset.saturating_add(0x1000));
    drop(found);
    file_run_text(alloc, context, offset)
}

/// Returns the frames at an offset of section 1, how far they go on, and the number of places that
/// were looked up.
fn frames_run_text<P: ModuleProvider>(
    alloc: Global,
    context: &mut Context<'_, '_, P>,
    offset: u32,
) -> Result<String, Error> {
    let before = context.lookups();
    let place = PdbInternalSectionOffset { offset, section: 1 };
    let run = context.find_frames_run(alloc, place, 0x100);
    let lookups = context.lookups().saturating_sub(before);
    match run {
        Ok(run) => shown(alloc, &(run, lookups)),
        Err(fault) => Err(fault),
    }
}

/// Returns the number of entries of the public list, and all functions.
///
/// # Errors
/// Functions that can't be read; out of memory.
pub fn functions_text<P: ModuleProvider>(
    alloc: Global,
    context: &mut Context<'_, '_, P>,
) -> Result<String, Error> {
    let mut text = shown(alloc, &context.function_count())?;
    push_functions(alloc, context, &mut text)?;
    Ok(text)
}

/// Appends all functions.
fn push_functions<P: ModuleProvider>(
    alloc: Global,
    context: &mut Context<'_, '_, P>,
    text: &mut String,
) -> Result<(), Error> {
    for function in context.functions(alloc)? {
        push_function(text, function)?;
    }
    Ok(())
}

/// Appends a function.
fn push_function(text: &mut String, function: Result<Function, Error>) -> Result<(), Error> {
    match function {
        Ok(function) => Ok(write!(text, "; {function:?}")?),
        Err(fault) => Err(fault),
    }
}
