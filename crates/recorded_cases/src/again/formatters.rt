//! Questions to formatters of types, each asked again if memory runs out.

use crate::again::marks::{begin, end, is_refusal, print_answer};
use crate::texts::formatters::text_by;
use crate::texts::question::question_about;
use pdb_addr2line::{Error, ModuleProvider, TypeFormatter};

/// Asks a formatter all questions, in their order, and once more. Returns whether it was made. If
/// memory ran out when it was to be made, nothing is asked. The caller called `begin` before it was
/// made.
///
/// # Errors
/// The fault in making the formatter, a failed write; out of memory.
pub fn ask_made<P: ModuleProvider>(
    rt: &(impl Print + Eprint + AllocGlobal),
    made: Result<TypeFormatter<'_, '_, P>, Error>,
    questions: &str,
) -> anyhow::Result<bool> {
    let is_refused = matches!(&made, Err(error) if is_refusal(error));
    end(rt, is_refused)?;
    if is_refused {
        return Ok(false);
    }
    let mut formatter = made?;
    ask_all(rt, &mut formatter, questions)?;
    ask_all(rt, &mut formatter, questions)?;
    Ok(true)
}

/// Asks a formatter all questions, in their order.
fn ask_all<P: ModuleProvider>(
    rt: &(impl Print + Eprint + AllocGlobal),
    formatter: &mut TypeFormatter<'_, '_, P>,
    questions: &str,
) -> anyhow::Result<()> {
    for line in questions.lines() {
        ask_line(rt, formatter, line)?;
    }
    Ok(())
}

/// Asks a formatter the question of a line, and again if memory runs out.
fn ask_line<P: ModuleProvider>(
    rt: &(impl Print + Eprint + AllocGlobal),
    formatter: &mut TypeFormatter<'_, '_, P>,
    line: &str,
) -> anyhow::Result<()> {
    let question = question_about(line);
    begin(rt)?;
    let mut answer = text_by(rt.alloc(), formatter, &question);
    let is_refused = matches!(&answer, Err(error) if is_refusal(error));
    end(rt, is_refused)?;
    if is_refused {
        answer = text_by(rt.alloc(), formatter, &question);
    }
    Ok(print_answer(rt, line, answer)?)
}
