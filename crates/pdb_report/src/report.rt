//! The report on an input.

ghost use Rattle.std.specs.Prelude.{◌^◌};
ghost use Rattle.pdb_report.specs.FrameReports.{ReportsFrames, ReportsFramesIn, frames_in};
ghost use Rattle.pdb_report.specs.FrameReports.{frames_loaded, frames_with};

use crate::fault::RunFault;
use crate::forms::{LineForm, TextLines};
use crate::lines::LineAnswers;
use pdb_addr2line::Symbolizer;
use pdb_engine::{Watched, run};
use pdb_loading::ContributionOrder;
use std::alloc::Global;
use std::io::{Read, Write};
use std::marker::PhantomData;
use std::mem::forget;

/// The most bytes of input that a run reads: 2^30, some 100 million addresses. So a run ends on any
/// reader, also on one that never does. docs/COSTS.md has what an address costs.
pub(crate) const INPUT_LIMIT: u64 = 1 << 30;

/// The fate of the memory that a run's context holds, once the run ends.
#[derive(Clone, Copy, Debug, PartialEq, Eq)]
pub enum AtEnd {
    /// The memory is given back, one piece after another.
    GiveBack,
    /// The memory is left to the process, which ends and gives back all of it at once.
    LeaveToProcess,
}

/// Gives back the memory that a value holds, or leaves it to the process.
pub(crate) fn let_go<T: Drop>(value: T, at_end: AtEnd) {
    match at_end {
        AtEnd::GiveBack => drop(value),
        AtEnd::LeaveToProcess => forget(value),
    }
}

/// Answers the lines of the reader from a file that was loaded, where the input may have at most
/// `limit` bytes: [`run_frames`] calls it, with 2^30 bytes, once it has loaded the file. It is
/// public for tests with shorter limits.
///
/// # Errors
/// `Read` and `Write` where reader or writer failed in this call; `InputTooLong` past `limit` bytes
/// of input; `OutOfMemory`.
pub fn answer_lines<R: Read, W: Write>(
    alloc: Global,
    symbolizer: &Symbolizer,
    reader: &mut Watched<R>,
    writer: &mut Watched<W>,
    at_end: AtEnd,
    limit: u64,
) -> Result<(), RunFault>
    ensures { ReportsFrames (frames_loaded symbolizer.now) limit R.remaining W.contents
        reader.old reader.new writer.old writer.new result }
{
    answer_lines_in::<TextLines, R, W>(alloc, symbolizer, reader, writer, at_end, limit)
}

/// As [`answer_lines`], in any form.
///
/// # Errors
/// The errors of [`answer_lines`].
fn answer_lines_in<L: LineForm, R: Read, W: Write>(
    alloc: Global,
    symbolizer: &Symbolizer,
    reader: &mut Watched<R>,
    writer: &mut Watched<W>,
    at_end: AtEnd,
    limit: u64,
) -> Result<(), RunFault>
    ensures { ReportsFramesIn L.text (frames_loaded symbolizer.now) limit R.remaining W.contents
        reader.old reader.new writer.old writer.new result }
{
    let Ok(context) = symbolizer.context(alloc) else {
        return Err(RunFault::OutOfMemory);
    };
    let room = Vec::new(alloc);
    let form: PhantomData<L> = PhantomData;
    let mut answers = LineAnswers {
        context,
        room,
        form,
    };
    let outcome = run(alloc, &mut answers, reader, writer, limit);
    let_go(answers, at_end);
    match outcome {
        Ok(()) => Ok(()),
        Err(fault) => Err(RunFault::from(fault)),
    }
}

/// Writes the report on the lines of the reader: for each line the answer for its address in the
/// program database of the bytes, and nothing else.
///
/// # Errors
/// `Load` where the file has a loading fault, and then nothing was read and nothing written; `Read`
/// and `Write` where reader or writer failed in this call; `InputTooLong` past 2^30 bytes of input;
/// `OutOfMemory`.
pub fn run_frames<R: Read, W: Write>(
    alloc: Global,
    bytes: Vec<u8>,
    reader: &mut Watched<R>,
    writer: &mut Watched<W>,
) -> Result<(), RunFault>
    ensures { ReportsFrames (frames_in bytes.items) (2 ^ 30) R.remaining W.contents
        reader.old reader.new writer.old writer.new result }
{
    run_frames_ending(alloc, bytes, reader, writer, AtEnd::GiveBack)
}

/// As [`run_frames`], with a say in the fate of the memory that the run's context holds: a process
/// that ends after the run can be left to give it back.
///
/// # Errors
/// The errors of [`run_frames`].
pub fn run_frames_ending<R: Read, W: Write>(
    alloc: Global,
    bytes: Vec<u8>,
    reader: &mut Watched<R>,
    writer: &mut Watched<W>,
    at_end: AtEnd,
) -> Result<(), RunFault>
    ensures { ReportsFrames (frames_in bytes.items) (2 ^ 30) R.remaining W.contents
        reader.old reader.new writer.old writer.new result }
{
    run_frames_with_order(
        alloc,
        bytes,
        ContributionOrder::InOrder,
        reader,
        writer,
        at_end,
    )
}

/// As [`run_frames_ending`], where section contributions have to stand in that order.
///
/// # Errors
/// The errors of [`run_frames`]. In any order no `Load` is for the order of section contributions.
pub fn run_frames_with_order<R: Read, W: Write>(
    alloc: Global,
    bytes: Vec<u8>,
    order: ContributionOrder,
    reader: &mut Watched<R>,
    writer: &mut Watched<W>,
    at_end: AtEnd,
) -> Result<(), RunFault>
    ensures { ReportsFrames (frames_with order bytes.items) (2 ^ 30) R.remaining W.contents
        reader.old reader.new writer.old writer.new result }
{
    run_frames_in::<TextLines, R, W>(alloc, bytes, order, reader, writer, at_end)
}

/// As [`run_frames_with_order`], in any form, such as [`JsonLines`](crate::JsonLines).
///
/// # Errors
/// The errors of [`run_frames_with_order`].
#[tactic(auto, using(crate::proofs::FrameSteps::of_loaded))]
pub fn run_frames_in<L: LineForm, R: Read, W: Write>(
    alloc: Global,
    bytes: Vec<u8>,
    order: ContributionOrder,
    reader: &mut Watched<R>,
    writer: &mut Watched<W>,
    at_end: AtEnd,
) -> Result<(), RunFault>
    ensures { ReportsFramesIn L.text (frames_with order bytes.items) (2 ^ 30) R.remaining W.contents
        reader.old reader.new writer.old writer.new result }
{
    match Symbolizer::open_with_order(alloc, bytes, order) {
        Ok(symbolizer) => answer_lines_in::<L, R, W>(
            alloc,
            &symbolizer,
            reader,
            writer,
            at_end,
            INPUT_LIMIT,
        ),
        Err(fault) => Err(RunFault::from(fault)),
    }
}
