//! The request of a line.

ghost use Rattle.std.specs.Prelude.{◌≡◌, ◌==◌};
ghost use Rattle.std.specs.List.{list_all};
ghost use Rattle.pdb_llvm_protocol.specs.Request.{Names, Returns, address_of, bare_file_of};
ghost use Rattle.pdb_llvm_protocol.specs.Request.{command_of, empty_prefix_of, file_of};
ghost use Rattle.pdb_llvm_protocol.specs.Request.{given_file_of};
ghost use Rattle.pdb_llvm_protocol.specs.Request.{number_by, prefix_of, prefixed_file_of};
ghost use Rattle.pdb_llvm_protocol.specs.Request.{quoted_of};
ghost use Rattle.pdb_llvm_protocol.specs.Request.{request_of, short_request_of, until_nul};

use crate::number::{parse_hexadecimal, parse_number};
use crate::words::{are_hexadecimal, first_of, trim, trim_start, word_end};
use thiserror::Error;

/// A command: the question about an address.
#[derive(Clone, Copy, PartialEq, Eq)]
pub enum Command {
    /// The functions, files and lines of code.
    Code,
    /// The variable.
    Data,
    /// The local variables of a function.
    Frame,
}

/// The file of a request.
#[derive(Clone, Copy)]
pub enum RequestedFile<'l> {
    /// The file that the arguments name.
    Given,
    /// The file of this name, as it stands in the line.
    Named(&'l [u8]),
    /// The file that has this build ID, which stands in hexadecimal digits.
    BuildId(&'l [u8]),
}

/// The request of a line.
#[derive(Clone, Copy, Drop)]
pub struct LineRequest<'l> {
    /// The command.
    pub command: Command,
    /// The file.
    pub file: RequestedFile<'l>,
    /// The address, as it is asked for.
    pub address: u64,
}

/// The form in which lines are read.
#[derive(Clone, Copy)]
pub struct LineForm {
    /// Whether the arguments name the file of all lines.
    pub file_given: bool,
    /// Whether addresses are hexadecimal without `0x`, too, as `llvm-addr2line` reads them.
    pub hexadecimal: bool,
}

/// The file of a request, and the text after it in the line.
#[derive(Clone, Copy)]
struct FileAndRest<'l> {
    file: RequestedFile<'l>,
    rest: &'l [u8],
}

/// The prefix before the file of a request.
#[derive(Clone, Copy, PartialEq, Eq)]
enum Prefix {
    /// Nothing.
    Bare,
    /// `FILE:`
    File,
    /// `BUILDID:`
    BuildId,
}

/// The most bytes that a request has: a path of 4,096 bytes fits, which is the longest that Linux
/// opens, and the text around it.
const LONGEST: usize = 4_351;

/// The fault of a line that is no request. It prints as `llvm-symbolizer` reports it, which for an
/// empty line and for a symbol's name reports nothing, and takes a long line for several.
#[derive(Clone, Copy, Debug, PartialEq, Eq, Error)]
pub enum RequestFault {
    /// The line has more than 4,351 bytes.
    #[error("the line has more than 4351 bytes")]
    LongLine,
    /// The line has no byte but carriage returns before its first NUL.
    #[error("the line is empty")]
    EmptyLine,
    /// `FILE:` or `BUILDID:` stands there twice.
    #[error("duplicate input file specification prefix")]
    RepeatedPrefix,
    /// Nothing follows `FILE:`.
    #[error("must be followed by an input file")]
    EmptyFilePrefix,
    /// Nothing follows `BUILDID:`.
    #[error("must be followed by a hash")]
    EmptyHashPrefix,
    /// `FILE:` or `BUILDID:` stands there, and the arguments name the file.
    #[error("input file has already been specified")]
    FileGiven,
    /// After `FILE:` or `BUILDID:` stands no name, or its quotes aren't closed.
    #[error("unbalanced quotes in input file name")]
    UnclosedQuotes,
    /// The text after `BUILDID:` has other bytes than hexadecimal digits.
    #[error("wrong format of build-id")]
    NotAHash,
    /// The line names no file, or its quotes aren't closed.
    #[error("no input filename has been specified")]
    NoFile,
    /// Nothing follows the file.
    #[error("no module offset has been specified")]
    NoAddress,
    /// The text that should be an address begins with a digit, and is no number below 2^64.
    #[error("expected a number as module offset")]
    NotANumber,
    /// The name of a symbol stands in place of an address.
    #[error("a symbol's name is no address")]
    SymbolName,
}

/// The command that a line begins with before one space, `CODE` where it begins with none, and the
/// text after it.
#[tactic(auto, unfolding(crate::specs::Request::command_of))]
fn split_command(line: &[u8]) -> (Command, &[u8])
    ensures command { result.0 ≡ (command_of line.now).0 }
    ensures rest { result.1.now ≡ (command_of line.now).1 }
{
    if line.starts_with(b"CODE ") {
        (Command::Code, &line[5..])
    } else if line.starts_with(b"DATA ") {
        (Command::Data, &line[5..])
    } else if line.starts_with(b"FRAME ") {
        (Command::Frame, &line[6..])
    } else {
        (Command::Code, line)
    }
}

/// The name before a quote, and the text after it. An empty name where the quote is missing.
#[tactic(auto, unfolding(crate::specs::Request::quoted_of))]
fn split_quoted(quote: u8, text: &[u8]) -> (&[u8], &[u8])
    ensures name { result.0.now ≡ (quoted_of quote text.now).0 }
    ensures rest { result.1.now ≡ (quoted_of quote text.now).1 }
{
    match first_of(quote, text) {
        Some(end) => (&text[..end], &text[end + 1..]),
        None => (&[], text),
    }
}

/// The name of a file that a text begins with, a word or in quotes, and the text after it.
#[tactic(auto, unfolding(crate::specs::Request::file_of))]
fn split_file(text: &[u8]) -> (&[u8], &[u8])
    ensures name { result.0.now ≡ (file_of text.now).0 }
    ensures rest { result.1.now ≡ (file_of text.now).1 }
{
    match text {
        [quote @ (b'"' | b'\''), rest @ ..] => split_quoted(*quote, rest),
        _ => text.split_at(word_end(text)),
    }
}

/// The prefix that a text begins with, and the text after it.
#[tactic(auto, unfolding(crate::specs::Request::prefix_of))]
fn split_prefix(text: &[u8]) -> (Prefix, &[u8])
    ensures prefix { result.0 ≡ (prefix_of text.now).0 }
    ensures rest { result.1.now ≡ (prefix_of text.now).1 }
{
    if text.starts_with(b"FILE:") {
        (Prefix::File, &text[5..])
    } else if text.starts_with(b"BUILDID:") {
        (Prefix::BuildId, &text[8..])
    } else {
        (Prefix::Bare, text)
    }
}

/// The fault where nothing follows a prefix.
fn empty_prefix(prefix: Prefix) -> RequestFault
    ensures { result ≡ empty_prefix_of prefix }
{
    match prefix {
        Prefix::BuildId => RequestFault::EmptyHashPrefix,
        Prefix::File | Prefix::Bare => RequestFault::EmptyFilePrefix,
    }
}

/// The file after a prefix and the blanks after it, and the text after the file.
#[tactic(auto, unfolding(crate::specs::Request::prefixed_file_of))]
fn read_prefixed(
    prefix: Prefix,
    text: &[u8],
    file_given: bool,
) -> Result<FileAndRest<'_>, RequestFault>
    ensures { Names result (prefixed_file_of prefix text.now file_given) }
{
    if text.is_empty() {
        return Err(empty_prefix(prefix));
    }
    if file_given {
        return Err(RequestFault::FileGiven);
    }
    let (name, rest) = split_file(text);
    if name.is_empty() {
        return Err(RequestFault::UnclosedQuotes);
    }
    if prefix != Prefix::BuildId {
        return Ok(FileAndRest {
            file: RequestedFile::Named(name),
            rest,
        });
    }
    if are_hexadecimal(name) {
        let file = RequestedFile::BuildId(name);
        Ok(FileAndRest { file, rest })
    } else {
        Err(RequestFault::NotAHash)
    }
}

/// The file where no prefix stands, and the text after it.
#[tactic(auto, unfolding(crate::specs::Request::bare_file_of))]
fn read_bare(text: &[u8], file_given: bool) -> Result<FileAndRest<'_>, RequestFault>
    ensures { Names result (bare_file_of text.now file_given) }
{
    if file_given {
        return Ok(FileAndRest {
            file: RequestedFile::Given,
            rest: text,
        });
    }
    let (name, rest) = split_file(text);
    if name.is_empty() {
        return Err(RequestFault::NoFile);
    }
    let file = RequestedFile::Named(name);
    Ok(FileAndRest { file, rest })
}

/// The file of a request, and the text after it.
#[tactic(auto, unfolding(crate::specs::Request::given_file_of))]
fn read_file(text: &[u8], file_given: bool) -> Result<FileAndRest<'_>, RequestFault>
    ensures { Names result (given_file_of text.now file_given) }
{
    let (prefix, rest) = split_prefix(trim_start(text));
    if prefix == Prefix::Bare {
        return read_bare(rest, file_given);
    }
    let rest = trim_start(rest);
    let (second, _) = split_prefix(rest);
    if second != Prefix::Bare {
        return Err(RequestFault::RepeatedPrefix);
    }
    read_prefixed(prefix, rest, file_given)
}

/// The number of a word, as addresses are read.
fn parse_address(word: &[u8], hexadecimal: bool) -> Option<u64>
    ensures { result ≡ number_by hexadecimal word.now }
{
    if hexadecimal {
        parse_hexadecimal(word)
    } else {
        parse_number(word)
    }
}

/// The address that a text stands for: its first word's, blanks aside.
///
/// # Errors
/// `NoAddress` where there is no word, `NotANumber` where it begins with a digit, and otherwise
/// `SymbolName`.
#[tactic(auto, unfolding(crate::specs::Request::address_of))]
fn read_address(text: &[u8], hexadecimal: bool) -> Result<u64, RequestFault>
    ensures { result ≡ address_of hexadecimal text.now }
{
    let text = trim(text);
    if text.is_empty() {
        return Err(RequestFault::NoAddress);
    }
    match parse_address(&text[..word_end(text)], hexadecimal) {
        Some(address) => Ok(address),
        None if text[0].is_ascii_digit() => Err(RequestFault::NotANumber),
        None => Err(RequestFault::SymbolName),
    }
}

/// Whether a line has no byte, carriage returns aside.
fn is_empty(line: &[u8]) -> bool
    ensures { result ≡ list_all (λ b. b == 13) line.now }
{
    line.iter().all(|byte| *byte == b'\r')
}

/// The bytes of a line before its first NUL.
#[tactic(auto, unfolding(crate::specs::Request::until_nul))]
pub fn before_nul(line: &[u8]) -> &[u8]
    ensures { result.now ≡ until_nul line.now }
{
    match first_of(0, line) {
        Some(end) => &line[..end],
        None => line,
    }
}

/// The request of a line of any length, as [`read_request`] reads it.
#[tactic(auto, unfolding(crate::specs::Request::short_request_of))]
fn read_short(line: &[u8], form: LineForm) -> Result<LineRequest<'_>, RequestFault>
    ensures { Returns result (short_request_of line.now form) }
{
    if is_empty(line) {
        return Err(RequestFault::EmptyLine);
    }
    let (command, rest) = split_command(line);
    let FileAndRest { file, rest } = read_file(rest, form.file_given)?;
    let address = read_address(rest, form.hexadecimal)?;
    Ok(LineRequest {
        command,
        file,
        address,
    })
}

/// The request of a line, where the arguments name the file or else it stands in the line: a
/// command and one space, if any, the file, a word or in quotes, if need be after `FILE:` or, by
/// its build ID, after `BUILDID:`, and the address. Text after the address or a NUL doesn't count.
/// The first 4,352 bytes of a line decide it.
///
/// # Errors
/// [`RequestFault`], the first that holds, in the order of its variants.
#[tactic(auto, unfolding(crate::specs::Request::request_of))]
pub fn read_request(line: &[u8], form: LineForm) -> Result<LineRequest<'_>, RequestFault>
    ensures { Returns result (request_of line.now form) }
{
    if line.len() > LONGEST {
        return Err(RequestFault::LongLine);
    }
    read_short(before_nul(line), form)
}
