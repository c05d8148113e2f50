//! Reads lines, and writes the answer to each.

ghost use Rattle.std.specs.Prelude.{◌≡◌, ℕ, List, OnOk, OnErr, IfOk, IfErr, [], ◌∷◌};
ghost use Rattle.std.specs.Prelude.{◌++◌, length, ◌<◌, ◌≤◌};
ghost use Rattle.std.specs.List.{flat_map};
ghost use Rattle.std.specs.Io.KnownBytes.{IsAtEnd};
ghost use Rattle.pdb_engine.specs.Watched.{inner_of, CountsFailure, IsQuiet, Writes, WritesAllBut};
ghost use Rattle.pdb_engine.specs.Watched.{WritesFront, Takes};
ghost use Rattle.pdb_engine.specs.InputLines.{report_of_ended};
ghost use Rattle.pdb_engine.specs.Answering.{DecideAnswers, IfReadFails, IfTooLong, Reports};
ghost use Rattle.pdb_engine.specs.Answering.{ReportsFirst, ReportsFront, ended_answers, StoresRest};
ghost use Rattle.pdb_engine.specs.Answering.{AnswersTaken, AnswersFirst, AnswersFront, AnswersAll};
ghost use Rattle.pdb_engine.specs.Answering.{AnswersRead};
ghost use Rattle.pdb_engine.specs.Requests.{lines_of, AreAnswered, IsAnswered};
ghost use Rattle.pdb_engine.specs.InputFaults.{OnRead, OnWrite, IsOfWriting};
ghost use Rattle.pdb_engine.specs.InputFaults.{IsOfRunning, EndsAtWrite, EndsWriting, EndsRunning};

use crate::answers::Answers;
use crate::fault::{InputFault, read_fault, write_fault};
use crate::line_start::LineStart;
use crate::requests::{AHEAD_SIZE, Request, answer_ahead, append_answer, clear_room, split};
use crate::watched::Watched;
use std::alloc::Global;
use std::io::{ErrorKind, Read, Write};

/// The number of bytes that a read asks for, at most and at first: what a pipe of Linux holds, some
/// 9,000 lines. The answers to the lines of one read are made before any of them is written, so this
/// bounds the memory that they take; and data that were forgotten are read again for each read. With
/// 32 KB 100,000 addresses at random took a tenth longer; 128 KB were no quicker than 64 KB, once the
/// caches had that much less.
const READ_SIZE: usize = 65_536;

/// The number of bytes that gathered answers reach before they are written: what a pipe of Linux
/// holds.
const CHUNK_SIZE: usize = 65_536;

/// The number of bytes from which on the room of what was written is given back: 1 MB. Answers are
/// written once [`CHUNK_SIZE`] bytes of them are gathered, so just a long answer takes that much,
/// and its room isn't held to the end.
const LONG_ROOM: usize = 1_048_576;

/// The start of a line, and room for what a read takes and for texts, which is used again by each
/// read.
#[derive(Drop)]
struct Buffers<L: LineStart> {
    start: L,
    chunk: Vec<u8>,
    texts: Vec<u8>,
}

/// Answers every line of the reader's input, of which at most `limit` bytes are read, and writes
/// nothing else. A last line that no newline ends counts if it has a byte. The answers to the lines
/// that a read ends are out before the next read, in as few writes as their length allows.
///
/// # Errors
/// `Read` and `Write` at the first call that fails, and `InputTooLong` past `limit` bytes. At
/// `Read`, and at `InputTooLong` for the first `limit` bytes, the lines that newlines end are
/// answered. `OutOfMemory` when memory runs out, in whichever call.
pub fn run<A: Answers, R: Read, W: Write>(
    alloc: Global,
    answers: &mut A,
    reader: &mut Watched<R>,
    writer: &mut Watched<W>,
    limit: u64,
) -> Result<(), InputFault>
    // Every line is answered, and nothing else is written.
    requires { A.known answers.old → DecideAnswers A.Start.limit (A.text answers.old) }
    ensures ok { A.known answers.new → OnOk result
        (Reports R.remaining W.contents reader.old writer.old writer.new limit
        (A.text answers.old)) }
    // A text that is known at the end was known at the start.
    ensures grows { A.known answers.new → A.known answers.old }
    // Running changes no answer.
    ensures same { A.text answers.new ≡ A.text answers.old }
    ensures subject { A.subject answers.new ≡ A.subject answers.old }
    // No call failed unnoticed, and no fault is made up.
    ensures quiet { OnOk result (IsQuiet reader.old reader.new × IsQuiet writer.old writer.new) }
    ensures kind { IfErr result IsOfRunning }
    ensures read_fails { IfErr result (λ fault. OnRead fault
        (λ kind. CountsFailure reader.old reader.new kind)) }
    ensures write_fails { IfErr result (λ fault. OnWrite fault
        (λ kind. CountsFailure writer.old writer.new kind)) }
    // At the first call that fails a run ends with that call's fault.
    ensures ends { IfErr result
        (λ fault. EndsRunning fault reader.old reader.new writer.old writer.new) }
    // The lines that were read whole before a failed read are answered.
    ensures read_out { A.known answers.new → IfReadFails result
        (AnswersTaken R.remaining W.contents reader.old reader.new writer.old writer.new
        (report_of_ended (A.text answers.old))) }
    ensures too_long { A.known answers.new → IfTooLong result
        (ReportsFirst R.remaining W.contents reader.old writer.old writer.new limit
        (A.text answers.old)) }
    // At each fault a prefix of the report is out.
    ensures part { A.known answers.new → OnErr result
        (ReportsFront R.remaining W.contents reader.old writer.old writer.new
        (A.text answers.old)) }
{
    let Ok(chunk) = vec![in alloc; 0u8; READ_SIZE] else {
        return Err(InputFault::OutOfMemory);
    };
    let texts = Vec::new(alloc);
    let start = A::Start::new(alloc);
    let mut buffers = Buffers {
        start,
        chunk,
        texts,
    };
    match pump(alloc, answers, reader, writer, &mut buffers, limit) {
        Ok(()) => {}
        Err(fault) => return Err(fault),
    }
    if buffers.start.bytes().is_empty() {
        return Ok(());
    }
    match answer_line(alloc, answers, writer, buffers.start.bytes()) {
        Ok(()) => {}
        Err(fault) => return Err(fault),
    }
    Ok(())
}

/// Reads to the end, and answers each line that a newline ends. None waits when a read begins.
///
/// # Errors
/// As [`run`].
fn pump<A: Answers, R: Read, W: Write>(
    alloc: Global,
    answers: &mut A,
    reader: &mut Watched<R>,
    writer: &mut Watched<W>,
    buffers: &mut Buffers<A::Start>,
    limit: u64,
) -> Result<(), InputFault>
    requires { 0 < length buffers.old.chunk.items }
    ensures ok { A.known answers.new → OnOk result
        (AnswersAll A.Start.LineStart R.remaining W.contents (A.text answers.old) limit
        reader.old reader.new writer.old writer.new buffers.old.start buffers.new.start) }
    ensures quiet { OnOk result (IsQuiet reader.old reader.new × IsQuiet writer.old writer.new) }
    ensures grows { A.known answers.new → A.known answers.old }
    ensures same { A.text answers.new ≡ A.text answers.old }
    ensures subject { A.subject answers.new ≡ A.subject answers.old }
    ensures kind { IfErr result IsOfRunning }
    ensures ends { IfErr result
        (λ fault. EndsRunning fault reader.old reader.new writer.old writer.new) }
    ensures read_out { A.known answers.new → IfReadFails result
        (AnswersTaken R.remaining W.contents reader.old reader.new writer.old writer.new
        (ended_answers A.Start.LineStart (A.text answers.old) buffers.old.start)) }
    ensures too_long { A.known answers.new → IfTooLong result
        (AnswersFirst R.remaining W.contents limit reader.old reader.new writer.old writer.new
        (ended_answers A.Start.LineStart (A.text answers.old) buffers.old.start)) }
    ensures part { A.known answers.new → OnErr result
        (AnswersFront R.remaining W.contents reader.old reader.new writer.old writer.new
        (ended_answers A.Start.LineStart (A.text answers.old) buffers.old.start)) }
{
    let mut left = limit;
    'reads: loop {
        match answer_read(alloc, answers, reader, writer, buffers, left) {
            Ok(0) => return Ok(()),
            Ok(count) => left -= count,
            Err(fault) => return Err(fault),
        }
    }
}

/// Reads once, and answers the lines that end in what was read, of which at most `left` bytes
/// count. None of them waits for another read. Returns the number of bytes that were read, 0 at the
/// end.
///
/// # Errors
/// As [`run`].
fn answer_read<A: Answers, R: Read, W: Write>(
    alloc: Global,
    answers: &mut A,
    reader: &mut Watched<R>,
    writer: &mut Watched<W>,
    buffers: &mut Buffers<A::Start>,
    left: u64,
) -> Result<u64, InputFault>
    requires { 0 < length buffers.old.chunk.items }
    ensures room { 0 < length buffers.new.chunk.items }
    // The answers to the lines that end in what was read are out, and the rest of it is stored.
    ensures ok { A.known answers.new → IfOk result
        (AnswersRead A.Start.LineStart R.remaining W.contents (A.text answers.old) left
        reader.old reader.new writer.old writer.new buffers.old.start buffers.new.start) }
    ensures bound { IfOk result (λ count. count ≤ left) }
    ensures end { IfOk result (λ count. count ≡ 0 → IsAtEnd (R.remaining (inner_of reader.new))) }
    ensures quiet { OnOk result (IsQuiet reader.old reader.new × IsQuiet writer.old writer.new) }
    ensures grows { A.known answers.new → A.known answers.old }
    ensures same { A.text answers.new ≡ A.text answers.old }
    ensures subject { A.subject answers.new ≡ A.subject answers.old }
    ensures kind { IfErr result IsOfRunning }
    ensures ends { IfErr result
        (λ fault. EndsRunning fault reader.old reader.new writer.old writer.new) }
    // A read that failed is the only one: nothing was taken before it, and nothing written.
    ensures read_once { IfReadFails result
        (Takes R.remaining reader.old reader.new [] × (writer.new ≡ writer.old)) }
    ensures too_long { A.known answers.new → IfTooLong result
        (AnswersFirst R.remaining W.contents left reader.old reader.new writer.old writer.new
        (ended_answers A.Start.LineStart (A.text answers.old) buffers.old.start)) }
    ensures part { A.known answers.new → OnErr result
        (AnswersFront R.remaining W.contents reader.old reader.new writer.old writer.new
        (ended_answers A.Start.LineStart (A.text answers.old) buffers.old.start)) }
{
    let count = match reader.read(&mut buffers.chunk) {
        Ok(count) => count,
        Err(error) => return Err(read_fault(error.kind())),
    };
    let within = (count as u64).min(left) as usize;
    match feed(
        alloc,
        answers,
        writer,
        &mut buffers.start,
        &mut buffers.texts,
        &buffers.chunk[..within],
    ) {
        Ok(()) => {}
        Err(fault) => return Err(fault),
    }
    if left < count as u64 {
        return Err(InputFault::InputTooLong);
    }
    fit_chunk(&mut buffers.chunk, buffers.texts.len());
    Ok(count as u64)
}

/// Makes the next read ask for half as many bytes as the last one, where the texts that were made
/// ahead were so long that some weren't made; and for twice as many, where they were short.
fn fit_chunk(chunk: &mut Vec<u8>, texts: usize)
    ensures { 0 < length chunk.old.items → 0 < length chunk.new.items }
{
    let len = chunk.len();
    if texts >= AHEAD_SIZE && len > 1 {
        chunk.truncate(len / 2);
    } else if texts < AHEAD_SIZE / 4 && len <= READ_SIZE / 2 {
        let _ = chunk.resize(len * 2, 0);
    }
}

/// Answers the lines that the bytes end, all of them before it returns, and stores the start of the
/// line after them. Answers are made in the order of the lines' places, as far as their texts are
/// short together, and written in the order of the lines.
///
/// # Errors
/// As [`answer_line`].
fn feed<A: Answers, W: Write>(
    alloc: Global,
    answers: &mut A,
    writer: &mut Watched<W>,
    start: &mut A::Start,
    texts: &mut Vec<u8>,
    bytes: &[u8],
) -> Result<(), InputFault>
    ensures ok { A.known answers.new → OnOk result
        (Writes W.contents writer.old writer.new
        (ended_answers A.Start.LineStart (A.text answers.old) start.old bytes.now)) }
    ensures rest { OnOk result
        (StoresRest A.Start.LineStart start.old start.new bytes.now) }
    ensures grows { A.known answers.new → A.known answers.old }
    ensures same { A.text answers.new ≡ A.text answers.old }
    ensures subject { A.subject answers.new ≡ A.subject answers.old }
    ensures quiet { OnOk result (IsQuiet writer.old writer.new) }
    ensures kind { IfErr result IsOfWriting }
    ensures ends { IfErr result (λ fault. EndsWriting fault writer.old writer.new) }
    ensures part { A.known answers.new → OnErr result
        (WritesFront W.contents writer.old writer.new
        (ended_answers A.Start.LineStart (A.text answers.old) start.old bytes.now)) }
{
    let Ok(mut requests) = split(alloc, start, bytes) else {
        return Err(InputFault::OutOfMemory);
    };
    answers.prepare(alloc, &requests);
    let Ok(()) = answer_ahead(alloc, answers, &mut requests, texts) else {
        return Err(InputFault::OutOfMemory);
    };
    write_answers(alloc, answers, writer, &requests, texts)
}

/// Writes the answers to lines in the order of the lines, and makes those that weren't made before.
///
/// # Errors
/// As [`answer_line`].
fn write_answers<A: Answers, W: Write>(
    alloc: Global,
    answers: &mut A,
    writer: &mut Watched<W>,
    requests: &[Request<A::Start>],
    texts: &[u8],
) -> Result<(), InputFault>
    requires { AreAnswered (A.known answers.old) A.Start.kept
        (A.text answers.old) texts.now requests.now }
    ensures ok { A.known answers.new → OnOk result
        (Writes W.contents writer.old writer.new (flat_map (A.text answers.old)
        (lines_of A.Start.kept requests.now))) }
    ensures grows { A.known answers.new → A.known answers.old }
    ensures same { A.text answers.new ≡ A.text answers.old }
    ensures subject { A.subject answers.new ≡ A.subject answers.old }
    ensures quiet { OnOk result (IsQuiet writer.old writer.new) }
    ensures kind { IfErr result IsOfWriting }
    ensures ends { IfErr result (λ fault. EndsWriting fault writer.old writer.new) }
    ensures part { A.known answers.new → OnErr result
        (WritesFront W.contents writer.old writer.new (flat_map
        (A.text answers.old) (lines_of A.Start.kept requests.now))) }
{
    let mut pending = Vec::new(alloc);
    for request in requests {
        gather_answer(alloc, answers, writer, &mut pending, request, texts)?;
    }
    write_pending(alloc, writer, &mut pending)
}

/// Appends the answer to a line to the pending text, and writes that text if it is long.
///
/// # Errors
/// As [`answer_line`].
fn gather_answer<A: Answers, W: Write>(
    alloc: Global,
    answers: &mut A,
    writer: &mut Watched<W>,
    pending: &mut Vec<u8>,
    request: &Request<A::Start>,
    texts: &[u8],
) -> Result<(), InputFault>
    requires { IsAnswered (A.known answers.old) A.Start.kept
        (A.text answers.old) texts.now request.now }
    ensures ok { A.known answers.new → OnOk result
        (WritesAllBut W.contents writer.old writer.new pending.new.items
        (pending.old.items ++ A.text answers.old (A.Start.kept request.now.line))) }
    // The pending text stays short.
    ensures short { OnOk result (length pending.new.items < 65536) }
    ensures grows { A.known answers.new → A.known answers.old }
    ensures same { A.text answers.new ≡ A.text answers.old }
    ensures subject { A.subject answers.new ≡ A.subject answers.old }
    ensures quiet { OnOk result (IsQuiet writer.old writer.new) }
    ensures kind { IfErr result IsOfWriting }
    ensures ends { IfErr result (λ fault. EndsWriting fault writer.old writer.new) }
    ensures part { A.known answers.new → OnErr result
        (WritesFront W.contents writer.old writer.new (pending.old.items
        ++ A.text answers.old (A.Start.kept request.now.line))) }
{
    let Ok(()) = append_answer(alloc, answers, request, texts, pending) else {
        return Err(write_last(alloc, writer, pending));
    };
    if pending.len() < CHUNK_SIZE {
        return Ok(());
    }
    write_pending(alloc, writer, pending)
}

/// Writes the pending text after memory ran out, and returns that fault, or the write's own.
fn write_last<W: Write>(alloc: Global, writer: &mut Watched<W>, pending: &mut Vec<u8>) -> InputFault
    ensures kind { IsOfWriting result }
    ensures ends { EndsWriting result writer.old writer.new }
    ensures part { (more : List ℕ)
        → WritesFront W.contents writer.old writer.new (pending.old.items ++ more) }
{
    match write_pending(alloc, writer, pending) {
        Ok(()) => InputFault::OutOfMemory,
        Err(fault) => fault,
    }
}

/// Writes the pending text, and gives its room back if the text is long.
///
/// # Errors
/// `Write` when a write fails; `OutOfMemory`.
fn write_pending<W: Write>(
    alloc: Global,
    writer: &mut Watched<W>,
    pending: &mut Vec<u8>,
) -> Result<(), InputFault>
    ensures ok { OnOk result (Writes W.contents writer.old writer.new pending.old.items) }
    ensures none_pending { OnOk result (pending.new.items ≡ []) }
    ensures quiet { OnOk result (IsQuiet writer.old writer.new) }
    ensures kind { IfErr result IsOfWriting }
    // No call of the writer takes memory.
    ensures ends { IfErr result (λ fault. EndsAtWrite fault writer.old writer.new) }
    ensures part { OnErr result (WritesFront W.contents writer.old writer.new pending.old.items) }
{
    match write_all(writer, pending) {
        Ok(()) => {
            clear_room(alloc, pending, LONG_ROOM);
            Ok(())
        }
        Err(kind) => Err(write_fault(kind)),
    }
}

/// Writes the answer to a line.
///
/// # Errors
/// `Write` when a write fails; `OutOfMemory`.
fn answer_line<A: Answers, W: Write>(
    alloc: Global,
    answers: &mut A,
    writer: &mut Watched<W>,
    line: &[u8],
) -> Result<(), InputFault>
    ensures ok { A.known answers.new → OnOk result
        (Writes W.contents writer.old writer.new (A.text answers.old line.now)) }
    ensures grows { A.known answers.new → A.known answers.old }
    ensures same { A.text answers.new ≡ A.text answers.old }
    ensures subject { A.subject answers.new ≡ A.subject answers.old }
    ensures quiet { OnOk result (IsQuiet writer.old writer.new) }
    ensures kind { IfErr result IsOfWriting }
    ensures ends { IfErr result (λ fault. EndsWriting fault writer.old writer.new) }
    ensures part { A.known answers.new → OnErr result
        (WritesFront W.contents writer.old writer.new (A.text answers.old line.now)) }
{
    let mut text = Vec::new(alloc);
    let Ok(()) = answers.answer(alloc, line, &mut text) else {
        return Err(InputFault::OutOfMemory);
    };
    match write_all(writer, &text) {
        Ok(()) => Ok(()),
        Err(kind) => Err(write_fault(kind)),
    }
}

/// Writes all of the bytes, and stops at the first failure.
///
/// # Errors
/// The kind of the failure.
pub fn write_all<W: Write>(writer: &mut Watched<W>, bytes: &[u8]) -> Result<(), ErrorKind>
    ensures ok { OnOk result (Writes W.contents writer.old writer.new bytes.now) }
    ensures quiet { OnOk result (IsQuiet writer.old writer.new) }
    ensures fails { IfErr result (λ kind. CountsFailure writer.old writer.new kind) }
    ensures part { OnErr result (WritesFront W.contents writer.old writer.new bytes.now) }
{
    let mut rest = bytes;
    while !rest.is_empty() {
        match writer.write(rest) {
            Ok(0) => return Err(ErrorKind::WriteZero),
            Ok(count) => rest = &rest[count..],
            Err(error) => return Err(error.kind()),
        }
    }
    Ok(())
}
