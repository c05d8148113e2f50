//! The lines that a read ends. Their answers are made in the order of the lines' places.

ghost use Rattle.std.specs.Prelude.{◌≡◌, ◌++◌, [], ◌∷◌, ℕ, ◌<◌, ◌≤◌, false, List};
ghost use Rattle.std.specs.Prelude.{length, Ok, OnOk, OnErr, IfOk};
ghost use Rattle.pdb_engine.specs.InputLines.{kept_lines, kept_rest};
ghost use Rattle.pdb_engine.specs.Requests.{lines_of, IsAnswered, HoldAnswers, AddsLines};
ghost use Rattle.pdb_engine.specs.Requests.{AreUnanswered, MakesLast, HaveLast};

use crate::answers::Answers;
use crate::line_start::LineStart;
use std::alloc::{AllocError, Global};
use std::mem::replace;

/// The number of bytes, taken together, from which on no more texts are made before their turn: 8
/// MB. A file chooses how long its texts are, so something has to bound what waits. With lines and
/// answers as in the program's stored run, the answers to one read take 1 to 4 MB; docs/COSTS.md
/// has an answer of 60 MB. Where they take more, the next reads ask for less.
pub const AHEAD_SIZE: usize = 8_388_608;

/// The place of a line's answer among texts that were made, as offsets in bytes: from `start` on,
/// and before `end`. They have 32 bits, since many lines wait.
#[derive(Clone, Copy)]
struct Made {
    start: u32,
    end: u32,
}

/// A line that is to be answered.
#[derive(Drop)]
pub struct Request<L: LineStart> {
    /// The start of the line, which decides its answer.
    pub line: L,
    /// The place of its answer, if that was made before its turn to be written.
    made: Option<Made>,
}

/// Removes all bytes. Their room is given back if there are at least `long` of them.
pub fn clear_room(alloc: Global, bytes: &mut Vec<u8>, long: usize)
    ensures { bytes.new.items ≡ [] }
{
    if bytes.len() < long {
        bytes.clear();
    } else {
        *bytes = Vec::new(alloc);
    }
}

/// The turn of a line: lines with lesser places are answered first, and those of one place in their
/// order.
#[derive(Clone, Copy, PartialEq, Eq, PartialOrd, Ord)]
struct Turn {
    place: u32,
    index: u32,
}

/// Appends the line that the byte ends to the requests, or appends the byte to the line's start.
fn split_byte<L: LineStart>(
    alloc: Global,
    requests: &mut Vec<Request<L>>,
    start: &mut L,
    byte: u8,
) -> Result<(), AllocError>
    ensures lines { OnOk result
        (AddsLines L.LineStart requests.old requests.new start.old (byte ∷ [])) }
    ensures rest { OnOk result (L.kept start.new
        ≡ kept_rest L.limit (L.kept start.old) (byte ∷ [])) }
    ensures unanswered { AreUnanswered requests.old.items
        → OnOk result (AreUnanswered requests.new.items) }
{
    if byte != b'\n' {
        return start.push(byte);
    }
    let line = replace(start, L::new(alloc));
    requests.push(Request { line, made: None })?;
    Ok(())
}

/// The number of newlines.
fn count_newlines(bytes: &[u8]) -> usize {
    let mut count = 0usize;
    for byte in bytes {
        if *byte == b'\n' {
            count = count.saturating_add(1);
        }
    }
    count
}

/// Returns the lines that the bytes end, none of them answered yet. The start of the line after
/// them is stored.
///
/// # Errors
/// `AllocError` when memory runs out.
pub fn split<L: LineStart>(
    alloc: Global,
    start: &mut L,
    bytes: &[u8],
) -> Result<Vec<Request<L>>, AllocError>
    ensures lines { IfOk result (λ ended. lines_of L.kept ended.items
        ≡ kept_lines L.limit (L.kept start.old) bytes.now) }
    ensures rest { OnOk result (L.kept start.new
        ≡ kept_rest L.limit (L.kept start.old) bytes.now) }
    ensures unanswered { IfOk result (λ requests. AreUnanswered requests.items) }
{
    let mut requests = Vec::with_capacity(alloc, count_newlines(bytes))?;
    for byte in bytes {
        split_byte(alloc, &mut requests, start, *byte)?;
    }
    Ok(requests)
}

/// A number in 32 bits. No read ends so many lines that their numbers don't fit.
fn short_index(number: usize) -> Result<u32, AllocError> {
    match u32::try_from(number) {
        Ok(short) => Ok(short),
        Err(_) => Err(AllocError),
    }
}

/// Returns the turns of the lines by their places.
fn turns<A: Answers>(
    alloc: Global,
    answers: &A,
    requests: &[Request<A::Start>],
) -> Result<Vec<Turn>, AllocError> {
    let mut turns = Vec::with_capacity(alloc, requests.len())?;
    for (index, request) in requests.iter().enumerate() {
        let place = answers.place(request.line.bytes());
        let index = short_index(index)?;
        turns.push(Turn { place, index })?;
    }
    Ok(turns)
}

/// Makes the answer to a line before its turn to be written, and appends it to other texts. If
/// these are long, it makes none and returns `false`. A text that ends past 2^32 bytes is refused
/// like one that memory is too short for.
#[tactic(auto, using(crate::proofs::RequestSteps::made_later, crate::proofs::RequestSteps::answered_weaker))]
fn answer_request<A: Answers>(
    alloc: Global,
    answers: &mut A,
    request: &mut Request<A::Start>,
    texts: &mut Vec<u8>,
) -> Result<bool, AllocError>
    requires { IsAnswered (A.known answers.old) A.Start.kept
        (A.text answers.old) texts.old.items request.old }
    ensures line { request.new.line ≡ request.old.line }
    ensures answered { IsAnswered (A.known answers.new) A.Start.kept
        (A.text answers.old) texts.new.items request.new }
    ensures grown { (more : List ℕ) × (texts.new.items ≡ texts.old.items ++ more) }
    // Where less than 8 MB of texts stand, one more is made and noted.
    ensures room { length texts.old.items < 8388608
        → MakesLast result texts.new.items request.new }
    // Past that none is made: nobody is asked.
    ensures full { 8388608 ≤ length texts.old.items → result ≡ Ok false }
    ensures asks_none { 8388608 ≤ length texts.old.items → answers.new ≡ answers.old }
    ensures makes_none { 8388608 ≤ length texts.old.items
        → (texts.new.items ≡ texts.old.items) × (request.new ≡ request.old) }
    ensures refused { OnErr result
        ((texts.new.items ≡ texts.old.items) × (request.new ≡ request.old)) }
    ensures grows { A.known answers.new → A.known answers.old }
    ensures same { A.text answers.new ≡ A.text answers.old }
    ensures subject { A.subject answers.new ≡ A.subject answers.old }
{
    let start = texts.len();
    if start >= AHEAD_SIZE {
        return Ok(false);
    }
    answers.answer(alloc, request.line.bytes(), texts)?;
    let Ok(end) = u32::try_from(texts.len()) else {
        texts.truncate(start);
        return Err(AllocError);
    };
    let start = start as u32;
    request.made = Some(Made { start, end });
    Ok(true)
}

/// Makes the answer to the line with that index. If there is none, or other texts are long, it
/// returns `false`.
fn answer_numbered<A: Answers>(
    alloc: Global,
    answers: &mut A,
    requests: &mut Vec<Request<A::Start>>,
    index: usize,
    texts: &mut Vec<u8>,
) -> Result<bool, AllocError>
    requires { HoldAnswers (A.known answers.old) A.Start.kept
        (A.text answers.old) texts.old requests.old }
    ensures lines { lines_of A.Start.kept requests.new.items
        ≡ lines_of A.Start.kept requests.old.items }
    ensures answered { HoldAnswers (A.known answers.new) A.Start.kept
        (A.text answers.old) texts.new requests.new }
    // No text is made but those that are noted, of which each begins in the first 8 MB.
    ensures last { HaveLast texts.old.items requests.old.items
        → HaveLast texts.new.items requests.new.items }
    ensures grows { A.known answers.new → A.known answers.old }
    ensures same { A.text answers.new ≡ A.text answers.old }
    ensures subject { A.subject answers.new ≡ A.subject answers.old }
{
    match requests.get_mut(index) {
        None => Ok(false),
        Some(request) => answer_request(alloc, answers, request, texts),
    }
}

/// Makes answers in turn, as far as there is room for their texts.
fn answer_in_turn<A: Answers>(
    alloc: Global,
    answers: &mut A,
    requests: &mut Vec<Request<A::Start>>,
    turns: &[Turn],
    texts: &mut Vec<u8>,
) -> Result<(), AllocError>
    requires { HoldAnswers (A.known answers.old) A.Start.kept
        (A.text answers.old) texts.old requests.old }
    ensures lines { lines_of A.Start.kept requests.new.items
        ≡ lines_of A.Start.kept requests.old.items }
    ensures answered { HoldAnswers (A.known answers.new) A.Start.kept
        (A.text answers.old) texts.new requests.new }
    // No text is made but those that are noted, of which each begins in the first 8 MB.
    ensures last { HaveLast texts.old.items requests.old.items
        → HaveLast texts.new.items requests.new.items }
    ensures grows { A.known answers.new → A.known answers.old }
    ensures same { A.text answers.new ≡ A.text answers.old }
    ensures subject { A.subject answers.new ≡ A.subject answers.old }
{
    for turn in turns {
        if !answer_numbered(alloc, answers, requests, turn.index as usize, texts)? {
            return Ok(());
        }
    }
    Ok(())
}

/// Makes answers before their turn to be written, one after the other, in the order of the lines'
/// places, if that differs from the order of the lines. Those for which there is no room are left.
///
/// # Errors
/// `AllocError` when memory runs out; some answers are made then.
#[tactic(auto, using(crate::proofs::RequestSteps::none_made))]
pub fn answer_ahead<A: Answers>(
    alloc: Global,
    answers: &mut A,
    requests: &mut Vec<Request<A::Start>>,
    texts: &mut Vec<u8>,
) -> Result<(), AllocError>
    requires { AreUnanswered requests.old.items }
    ensures lines { lines_of A.Start.kept requests.new.items
        ≡ lines_of A.Start.kept requests.old.items }
    ensures answered { HoldAnswers (A.known answers.new) A.Start.kept
        (A.text answers.old) texts.new requests.new }
    // No text is made but those that are noted, of which each begins in the first 8 MB.
    ensures last { HaveLast texts.new.items requests.new.items }
    ensures grows { A.known answers.new → A.known answers.old }
    ensures same { A.text answers.new ≡ A.text answers.old }
    ensures subject { A.subject answers.new ≡ A.subject answers.old }
{
    clear_room(alloc, texts, AHEAD_SIZE);
    let mut turns = turns(alloc, answers, requests)?;
    if turns.is_sorted() {
        return Ok(());
    }
    turns.sort_unstable();
    answer_in_turn(alloc, answers, requests, &turns, texts)
}

/// Appends the answer to a line. If it wasn't made before, it is made now.
///
/// # Errors
/// `AllocError` when memory runs out; nothing is appended then.
pub fn append_answer<A: Answers>(
    alloc: Global,
    answers: &mut A,
    request: &Request<A::Start>,
    texts: &[u8],
    output: &mut Vec<u8>,
) -> Result<(), AllocError>
    requires { IsAnswered (A.known answers.old) A.Start.kept
        (A.text answers.old) texts.now request.now }
    ensures appended { OnOk result ((more : List ℕ)
        × (output.new.items ≡ output.old.items ++ more)) }
    ensures text { A.known answers.new → OnOk result
        (output.new.items ≡ output.old.items ++ A.text answers.old
        (A.Start.kept request.now.line)) }
    ensures refused { OnErr result (output.new.items ≡ output.old.items) }
    ensures grows { A.known answers.new → A.known answers.old }
    ensures same { A.text answers.new ≡ A.text answers.old }
    ensures subject { A.subject answers.new ≡ A.subject answers.old }
{
    match request.made {
        Some(made) => output.extend_from_slice(&texts[made.start as usize..made.end as usize]),
        None => answers.answer(alloc, request.line.bytes(), output),
    }
}
