//! The text that is written for a line of the input, from a context.

ghost use Rattle.std.specs.Prelude.{◌≡◌, [], OnErr};
ghost use Rattle.pdb_addr2line.specs.Context.{lasting};
ghost use Rattle.pdb_report.specs.Answer.{answer_of};
ghost use Rattle.pdb_report.specs.Adds.{Adds};

use crate::forms::LineForm;
use pdb_addr2line::{Context, ModuleProvider};
use pdb_engine::{Answers, parse_address};
use std::alloc::{AllocError, Global};
use std::marker::PhantomData;
use std::mem::replace;

/// The number of bytes from which on a text is moved in place of being copied: 1 MB. So a long
/// answer is held once, and twice where it is made ahead, as docs/COSTS.md counts one of 60 MB; the
/// room for short ones is used again.
const LONG_TEXT: usize = 1_048_576;

/// Appends the text in a form for a line of the input.
#[tactic(auto, using(pdb_addr2line::proofs::FileSteps::told_found))]
pub(crate) fn append_line<L: LineForm, P: ModuleProvider>(
    alloc: Global,
    context: &mut Context<'_, '_, P>,
    line: &[u8],
    output: &mut Vec<u8>,
) -> Result<(), AllocError>
    ensures same { lasting context.new ≡ lasting context.old }
    ensures text { Adds result output.old output.new
        (L.text (answer_of P.provided context.old) line.now) }
{
    match parse_address(line) {
        None => L::append_other(alloc, line, output),
        Some(address) => {
            let found = context.find_shared_frames(alloc, address);
            L::append_found(address, found, output)
        }
    }
}

/// Appends a text. A long one is moved and takes its room along, so that it is in memory once.
pub(crate) fn append_text(
    alloc: Global,
    room: &mut Vec<u8>,
    output: &mut Vec<u8>,
) -> Result<(), AllocError>
    ensures text { Adds result output.old output.new room.old.items }
    ensures refused { OnErr result (output.new.items ≡ output.old.items) }
{
    if room.len() < LONG_TEXT {
        return output.extend_from_slice(room);
    }
    let mut text = replace(room, Vec::new(alloc));
    text.extend_from_slice(output)?;
    text.rotate_right(output.len());
    *output = text;
    Ok(())
}

/// A context that is asked for the answers to lines, room for a text, and the form of texts.
#[derive(Drop)]
pub struct LineAnswers<'a, 's, P: ModuleProvider, L> {
    pub context: Context<'a, 's, P>,
    pub room: Vec<u8>,
    pub form: PhantomData<L>,
}

impl<'a, 's, P: ModuleProvider, L: LineForm> Answers for LineAnswers<'a, 's, P, L> {
    type Start = L::Start;

    ghost use Rattle.pdb_report.specs.Answer.{answer_of};

    ghost known = { λ _. Unit {0} };

    ghost text = { λ answers line. L.text (answer_of P.provided answers.context) line };

    ghost subject = { λ _. [] };

    fn place(&self, line: &[u8]) -> u32 {
        parse_address(line).unwrap_or(0)
    }

    fn answer(
        &mut self,
        alloc: Global,
        line: &[u8],
        output: &mut Vec<u8>,
    ) -> Result<(), AllocError> {
        self.room.clear();
        append_line::<L, P>(alloc, &mut self.context, line, &mut self.room)?;
        append_text(alloc, &mut self.room, output)
    }
}
