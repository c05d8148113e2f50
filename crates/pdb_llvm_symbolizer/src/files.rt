//! The files of a run, each loaded once, and the answers to lines by them.

use crate::arguments::Arguments;
use crate::choices::{Choices, push};
use crate::open_error::OpenError;
use pdb_llvm_protocol::{
    Command, LineRequest, ReportedFrame, RequestFault, RequestedFile, Style, append_error,
    append_frames, append_no_data, append_no_locals, before_nul, read_request,
};
use std::alloc::{AllocError, Global};
use std::collections::BTreeMap;

/// An address of a file, as it is asked for.
#[derive(Clone, Copy)]
pub struct AskedAddress<'n> {
    /// What is asked about it.
    pub command: Command,
    /// The file's name.
    pub file: &'n str,
    /// The address.
    pub address: u64,
}

/// What loads files of type `L`.
pub trait Loads<L> {
    /// Loads the file of this name.
    ///
    /// # Errors
    /// Why it can't be loaded.
    fn load(&self, name: &str, arguments: &Arguments<'_>) -> Result<L, OpenError>;
}

/// A file that is loaded, and answers its addresses.
pub trait LoadedFile: Drop {
    /// Notes the module that holds an address which is asked for next.
    ///
    /// # Errors
    /// Where memory ran out.
    fn expect(&mut self, arguments: &Arguments<'_>, address: u64) -> Result<(), AllocError>;

    /// Reads the modules that were noted, as far as they are missing, at once.
    fn read_expected(&mut self, alloc: Global);

    /// Why reading the file failed after it was loaded; `None` where it didn't, or memory ran out.
    fn failed_read(&self) -> Option<&'static str>;

    /// Appends the answer to a request.
    ///
    /// # Errors
    /// Where memory ran out, or reading the file failed, which `failed_read` tells then.
    fn append_asked(
        &mut self,
        alloc: Global,
        arguments: &Arguments<'_>,
        asked: AskedAddress<'_>,
        output: &mut Vec<u8>,
    ) -> Result<(), AllocError>;
}

/// A file that was asked for: its name as text, and what answers its addresses, or why it isn't
/// loaded.
#[derive(Drop)]
struct AskedFile<L: Drop> {
    text: String,
    loaded: Result<L, String>,
}

/// The files that were asked for, each loaded once, and how their addresses are answered.
#[derive(Drop)]
pub struct AskedFiles<'a, S: Eprint + AllocGlobal, O: Drop, L: Drop> {
    /// What errors are written to.
    pub system: &'a S,
    loader: O,
    arguments: &'a Arguments<'a>,
    files: Vec<AskedFile<L>>,
    /// The number of each file, by its name in requests.
    numbers: BTreeMap<Vec<u8>, usize>,
}

/// Reports an error of a file on standard error; a write that fails is ignored.
fn tell_error(rt: &impl Eprint, arguments: &Arguments<'_>, subject: &str, reason: &str) {
    let program = arguments.program;
    let _ = eprintln!(rt; "{program}: error: '{subject}': {reason}");
}

/// Reports an error of a file, but where answers are JSON and have it.
fn tell(rt: &impl Eprint, arguments: &Arguments<'_>, subject: &str, reason: &str) {
    if arguments.texts.style != Style::Json {
        tell_error(rt, arguments, subject, reason);
    }
}

/// A line up to its first NUL, without a carriage return at its end.
fn shown_part(line: &[u8]) -> &[u8] {
    let shown = before_nul(line);
    match shown.split_last() {
        Some((last, rest)) if *last == b'\r' => rest,
        Some(_) | None => shown,
    }
}

/// Whether nothing is said of a line that is no request.
fn is_silent(fault: RequestFault) -> bool {
    matches!(fault, RequestFault::EmptyLine | RequestFault::SymbolName)
}

/// The object that a request is about.
#[derive(Clone, Copy)]
enum Subject<'n> {
    /// The file of this name.
    File(&'n [u8]),
    /// The object that has this build ID.
    BuildId(&'n [u8]),
}

/// The object that a request is about, by the file that it names and by the choices.
fn subject_of<'n>(choices: &Choices<'n>, file: RequestedFile<'n>) -> Subject<'n> {
    match (file, choices.object, choices.build_id) {
        (RequestedFile::Named(name), _, _) => Subject::File(name),
        (RequestedFile::BuildId(hash), _, _) => Subject::BuildId(hash),
        (RequestedFile::Given, Some(name), _) => Subject::File(name.as_bytes()),
        (RequestedFile::Given, None, Some(hash)) => Subject::BuildId(hash.as_bytes()),
        (RequestedFile::Given, None, None) => Subject::File(b""),
    }
}

/// Reports why a line is no request. Of an empty line and a symbol's name nothing is said.
fn tell_fault(
    rt: &(impl Eprint + AllocGlobal),
    arguments: &Arguments<'_>,
    line: &[u8],
    fault: RequestFault,
) -> Result<(), AllocError> {
    if is_silent(fault) {
        return Ok(());
    }
    let line = String::from_utf8_lossy(rt.alloc(), shown_part(line))?;
    let program = arguments.program;
    let _ = eprintln!(rt; "{program}: error: '{line}': {fault}");
    Ok(())
}

/// Appends the answer to a request for which no file is loaded, for this reason, which is written
/// in JSON alone.
fn append_failure(
    alloc: Global,
    output: &mut Vec<u8>,
    arguments: &Arguments<'_>,
    asked: AskedAddress<'_>,
    reason: &str,
) -> Result<(), AllocError> {
    let texts = arguments.texts;
    let AskedAddress {
        command,
        file,
        address,
    } = asked;
    match (command, texts.style) {
        (Command::Code, _) | (_, Style::Json) => {
            append_error(alloc, output, texts, file, address, reason)
        }
        (Command::Data, _) => append_no_data(alloc, output, texts, file, address),
        (Command::Frame, _) => append_no_locals(alloc, output, texts, file, address),
    }
}

/// Why a file can't be loaded, as text, which is reported. Where memory runs out, nothing is known
/// of the file.
fn refusal(
    rt: &(impl Eprint + AllocGlobal),
    arguments: &Arguments<'_>,
    subject: &str,
    error: &OpenError,
) -> Result<String, AllocError> {
    if error.is_out_of_memory() {
        return Err(AllocError);
    }
    let reason = format!(in rt.alloc(); "{error}")?;
    tell(rt, arguments, subject, reason.as_str());
    Ok(reason)
}

/// Appends the file of this name, as it was opened. Where it couldn't be, that is reported.
fn push_opened<L: Drop>(
    rt: &(impl Eprint + AllocGlobal),
    arguments: &Arguments<'_>,
    files: &mut Vec<AskedFile<L>>,
    text: String,
    opened: Result<L, OpenError>,
) -> Result<(), AllocError> {
    let loaded = match opened {
        Ok(loaded) => Ok(loaded),
        Err(error) => Err(refusal(rt, arguments, text.as_str(), &error)?),
    };
    push(files, AskedFile { text, loaded })
}

impl<L: Drop> AskedFile<L> {
    /// Its name, and what answers its addresses, or why it isn't loaded.
    fn parts(&mut self) -> (&str, Result<&mut L, &str>) {
        let text = self.text.as_str();
        match &mut self.loaded {
            Ok(loaded) => (text, Ok(loaded)),
            Err(reason) => (text, Err(reason.as_str())),
        }
    }

    /// What answers its addresses, if it is loaded.
    fn loaded(&self) -> Option<&L> {
        match &self.loaded {
            Ok(loaded) => Some(loaded),
            Err(_) => None,
        }
    }

    /// What answers its addresses, if it is loaded.
    fn loaded_mut(&mut self) -> Option<&mut L> {
        match &mut self.loaded {
            Ok(loaded) => Some(loaded),
            Err(_) => None,
        }
    }

    /// Its name, and why it isn't loaded; `None` where it is.
    fn refused(&self) -> Option<(&str, &str)> {
        match &self.loaded {
            Ok(_) => None,
            Err(reason) => Some((self.text.as_str(), reason.as_str())),
        }
    }
}

/// Appends the answer to a request by a file.
fn append_by_file<L: LoadedFile>(
    alloc: Global,
    arguments: &Arguments<'_>,
    file: &mut AskedFile<L>,
    request: LineRequest<'_>,
    output: &mut Vec<u8>,
) -> Result<(), AllocError> {
    let (text, loaded) = file.parts();
    let asked = AskedAddress {
        command: request.command,
        file: text,
        address: request.address,
    };
    match loaded {
        Ok(loaded) => loaded.append_asked(alloc, arguments, asked, output),
        Err(reason) => append_failure(alloc, output, arguments, asked, reason),
    }
}

/// Appends the answer to a request for the object that has this build ID, which no PDB has.
fn append_build_id(
    rt: &(impl Eprint + AllocGlobal),
    arguments: &Arguments<'_>,
    hash: &[u8],
    request: LineRequest<'_>,
    output: &mut Vec<u8>,
) -> Result<(), AllocError> {
    let mut hash = String::from_utf8_lossy(rt.alloc(), hash)?;
    hash.make_ascii_uppercase();
    let asked = AskedAddress {
        command: request.command,
        file: hash.as_str(),
        address: request.address,
    };
    let reason = "could not find build ID";
    tell(rt, arguments, asked.file, reason);
    append_failure(rt.alloc(), output, arguments, asked, reason)
}

impl<'a, S, O, L> AskedFiles<'a, S, O, L>
where
    S: Eprint + AllocGlobal,
    O: Loads<L> + Drop,
    L: LoadedFile,
{
    /// No files, which are asked as the arguments say.
    pub fn new(system: &'a S, loader: O, arguments: &'a Arguments<'a>) -> AskedFiles<'a, S, O, L> {
        AskedFiles {
            system,
            loader,
            arguments,
            files: Vec::new(system.alloc()),
            numbers: BTreeMap::new(system.alloc()),
        }
    }

    /// Loads a file unless it was asked for before, reports it where it can't be loaded, and
    /// returns its number.
    fn ask(&mut self, name: &[u8]) -> Result<usize, AllocError> {
        if let Some(number) = self.numbers.get(name) {
            return Ok(*number);
        }
        let number = self.files.len();
        self.load(String::from_utf8_lossy(self.system.alloc(), name)?)?;
        let key = Vec::from_slice(self.system.alloc(), name)?;
        self.numbers.insert(key, number)?;
        Ok(number)
    }

    /// Loads the file of this name, and reports it where it can't be loaded.
    fn load(&mut self, text: String) -> Result<(), AllocError> {
        let opened = self.loader.load(text.as_str(), self.arguments);
        push_opened(self.system, self.arguments, &mut self.files, text, opened)
    }

    /// Loads the file of `--obj`, if it is given. Returns whether that is loaded. Where it isn't,
    /// the error is appended in JSON.
    ///
    /// # Errors
    /// Where memory ran out.
    pub fn ask_object(&mut self, output: &mut Vec<u8>) -> Result<bool, AllocError> {
        let arguments = self.arguments;
        let Some(object) = arguments.choices.object else {
            return Ok(true);
        };
        let number = self.ask(object.as_bytes())?;
        let Some((text, reason)) = self.refused(number) else {
            return Ok(true);
        };
        if arguments.texts.style == Style::Json {
            let mut texts = arguments.texts;
            texts.in_array = false;
            append_error(self.system.alloc(), output, texts, text, 0, reason)?;
        }
        Ok(false)
    }

    /// The name of the file with this number, and why it isn't loaded; `None` where it is.
    fn refused(&self, number: usize) -> Option<(&str, &str)> {
        match self.files.get(number) {
            Some(file) => file.refused(),
            None => None,
        }
    }

    /// Reports the file that couldn't be read after it was loaded, if there is one. Returns whether
    /// there is.
    pub fn tell_failed_read(&self) -> bool {
        for file in &self.files {
            if let Some(loaded) = file.loaded() {
                if let Some(reason) = loaded.failed_read() {
                    tell_error(self.system, self.arguments, file.text.as_str(), reason);
                    return true;
                }
            }
        }
        false
    }

    /// Appends the answer to a request by the file of this name.
    fn append_by(
        &mut self,
        name: &[u8],
        request: LineRequest<'_>,
        output: &mut Vec<u8>,
    ) -> Result<(), AllocError> {
        let number = self.ask(name)?;
        match self.files.get_mut(number) {
            None => Ok(()),
            Some(file) => append_by_file(
                self.system.alloc(),
                self.arguments,
                file,
                request,
                output,
            ),
        }
    }

    /// Appends the answer to a request.
    fn append_request(
        &mut self,
        request: LineRequest<'_>,
        output: &mut Vec<u8>,
    ) -> Result<(), AllocError> {
        match subject_of(self.arguments.choices, request.file) {
            Subject::File(name) => self.append_by(name, request, output),
            Subject::BuildId(hash) => append_build_id(
                self.system,
                self.arguments,
                hash,
                request,
                output,
            ),
        }
    }

    /// Loads the file of a line that is answered next, and notes the module that holds its address.
    /// Returns whether lines after it may be looked at, too: not after one that is reported, since
    /// what is said of files keeps its turn.
    ///
    /// # Errors
    /// Where memory ran out.
    pub fn expect(&mut self, line: &[u8]) -> Result<bool, AllocError> {
        let arguments = self.arguments;
        let request = match read_request(line, arguments.form) {
            Ok(request) => request,
            Err(fault) => return Ok(is_silent(fault)),
        };
        let Subject::File(name) = subject_of(arguments.choices, request.file) else {
            return Ok(false);
        };
        let number = self.ask(name)?;
        if request.command == Command::Code {
            self.expect_address(number, request.address)?;
        }
        Ok(true)
    }

    /// Notes the module that holds an address of the file with this number, if it is loaded.
    fn expect_address(&mut self, number: usize, address: u64) -> Result<(), AllocError> {
        let Some(file) = self.files.get_mut(number) else {
            return Ok(());
        };
        match file.loaded_mut() {
            Some(loaded) => loaded.expect(self.arguments, address),
            None => Ok(()),
        }
    }

    /// Reads the modules that were noted of each file at once.
    pub fn read_expected(&mut self) {
        let alloc = self.system.alloc();
        for file in &mut self.files {
            if let Some(loaded) = file.loaded_mut() {
                loaded.read_expected(alloc);
            }
        }
    }

    /// Appends the answer to a line, whose file is loaded if need be.
    ///
    /// # Errors
    /// Where memory ran out, or reading a file failed after it was loaded.
    pub fn append_line(&mut self, line: &[u8], output: &mut Vec<u8>) -> Result<(), AllocError> {
        let arguments = self.arguments;
        match read_request(line, arguments.form) {
            Ok(request) => self.append_request(request, output),
            Err(fault) => {
                tell_fault(self.system, arguments, line, fault)?;
                let file = match (arguments.choices.object, fault) {
                    (None, _) | (_, RequestFault::EmptyLine) => "",
                    (Some(object), _) => object,
                };
                let unknown = [ReportedFrame::unknown()];
                append_frames(
                    self.system.alloc(),
                    output,
                    arguments.texts,
                    file,
                    None,
                    &unknown,
                )
            }
        }
    }
}
