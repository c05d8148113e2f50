//! Answers of formatters of types.

use crate::texts::Data;
use crate::texts::question::{Asked, Question};
use pdb_addr2line::pdb::{IdIndex, TypeIndex};
use pdb_addr2line::{Error, ModuleProvider, TypeFormatter};
use std::alloc::Global;

/// Answers a question by a formatter with the question's flags.
///
/// # Errors
/// A question that the formatter can't answer; out of memory.
pub fn ask(alloc: Global, data: &Data, question: &Question<'_>) -> Result<String, Error> {
    let flags = question.formatter_flags();
    let formatter = data.make_type_formatter_with_flags(alloc, flags)?;
    answer_by(alloc, formatter, question)
}

/// Answers a question by a formatter that is asked nothing else.
fn answer_by<P: ModuleProvider>(
    alloc: Global,
    mut formatter: TypeFormatter<'_, '_, P>,
    question: &Question<'_>,
) -> Result<String, Error> {
    text_by(alloc, &mut formatter, question)
}

/// Answers a question by a formatter: any but the questions of functions and ids as `size`.
///
/// # Errors
/// A question that the formatter can't answer; out of memory.
pub fn text_by<P: ModuleProvider>(
    alloc: Global,
    formatter: &mut TypeFormatter<'_, '_, P>,
    question: &Question<'_>,
) -> Result<String, Error> {
    let (module, index) = (question.module, question.index);
    match question.asked {
        Asked::Function => formatter.format_function(alloc, "f", module, TypeIndex(index)),
        Asked::Unnamed => formatter.format_function(alloc, "", module, TypeIndex(index)),
        Asked::Emitted => emitted(alloc, formatter, module, index),
        Asked::Id => formatter.format_id(alloc, module, IdIndex(index)),
        Asked::EmittedId => emitted_id(alloc, formatter, module, index),
        _ => size_text(
            alloc,
            formatter.get_type_size(alloc, module, TypeIndex(index)),
        ),
    }
}

/// Returns the signature that a formatter writes of a function `f`.
fn emitted<P: ModuleProvider>(
    alloc: Global,
    formatter: &mut TypeFormatter<'_, '_, P>,
    module: usize,
    index: u32,
) -> Result<String, Error> {
    let mut text = String::new(alloc);
    formatter.emit_function(alloc, &mut text, "f", module, TypeIndex(index))?;
    Ok(text)
}

/// Returns the text that a formatter writes of an id.
fn emitted_id<P: ModuleProvider>(
    alloc: Global,
    formatter: &mut TypeFormatter<'_, '_, P>,
    module: usize,
    index: u32,
) -> Result<String, Error> {
    let mut text = String::new(alloc);
    formatter.emit_id(alloc, &mut text, module, IdIndex(index))?;
    Ok(text)
}

/// Returns a size as a text.
fn size_text(alloc: Global, size: Result<u64, Error>) -> Result<String, Error> {
    match size {
        Ok(size) => Ok(format!(in alloc; "{size}")?),
        Err(fault) => Err(fault),
    }
}
