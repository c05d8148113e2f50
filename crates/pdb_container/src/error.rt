//! Errors of reading a program database.

ghost use Rattle.std.specs.Prelude.{◌≡◌, ◌++◌, codes, decimal};
ghost use Rattle.pdb_container.specs.declared.error.Error.TheVariants.{OutOfMemory};
ghost use Rattle.pdb_container.specs.ErrorText.{error_text, kind_text, module_fault_text};
ghost use Rattle.pdb_container.specs.declared.error.Error.TheVariants as errors;
ghost use Rattle.pdb_container.specs.Fault.{error_of, kept_of};
ghost use Rattle.pdb_container.specs.PrintedFault.{printed_text};

use crate::printed_fault::{PrintedFault, PrintedPiece};
use std::alloc::{AllocError, AllocFailed};
use std::io::ErrorKind;
use std::{fmt, io};

/// The result of a call on a program database.
pub type Result<T> = std::result::Result<T, Error>;

/// The cause for which a call on a program database failed. It prints, by `Debug` too, as its
/// variant's name and, in parentheses, its values.
#[derive(Clone, Copy, PartialEq, Eq)]
pub enum Error {
    /// The file's first 4096 bytes are not there, or don't begin with the magic of a big MSF
    /// container.
    UnrecognizedFileFormat,
    /// An MSF page size in bytes that is no power of two from 0x100 to 0x800000.
    InvalidPageSize(u32),
    /// An MSF page number that is not from 1 to the number of pages used.
    PageReferenceOutOfRange(u32),
    /// The number of a stream that the MSF directory doesn't have.
    StreamNotFound(u32),
    /// No stream has the name.
    StreamNameNotFound,
    /// The stream's length is no multiple of its entries'; the text names the stream.
    InvalidStreamLength(&'static str),
    /// The source failed; `UnexpectedEof` where a page lies past its end.
    IoError(ErrorKind),
    /// Bytes end where more are needed.
    UnexpectedEof,
    /// The file uses what this reader leaves out; the text names it.
    UnimplementedFeature(&'static str),
    /// The file has no symbol records.
    GlobalSymbolsNotFound,
    /// A symbol's length leaves no room for its kind.
    SymbolTooShort,
    /// The kind (`S_*`) of a symbol that has no form here.
    UnimplementedSymbolKind(u16),
    /// The header of types (TPI) or ids (IPI) contradicts itself; the text says how.
    InvalidTypeInformationHeader(&'static str),
    /// A type's or an id's length leaves no room for its leaf.
    TypeTooShort,
    /// No type or id has the index.
    TypeNotFound(u32),
    /// The index, which lies past the known blocks, and the first index that is not known.
    TypeNotIndexed(u32, u32),
    /// The prefix of a numeric leaf that begins no number.
    UnexpectedNumericPrefix(u16),
    /// The leaf (`LF_*`) of a record that has no form here.
    UnimplementedTypeKind(u16),
    /// The kind of a source file's checksum that is unknown.
    UnimplementedFileChecksumKind(u8),
    /// The file index, in bytes, at or past the end of the checksums.
    InvalidFileChecksumOffset(u32),
    /// A byte of binary annotations that begins no compressed number.
    InvalidCompressedAnnotation,
    /// The opcode of a binary annotation that is unknown.
    UnknownBinaryAnnotation(u32),
    /// The index of a type or an id that leads to no other module: its bit 31 is not set.
    NotACrossModuleRef(u32),
    /// The index of a type or an id that the module's imports lack.
    CrossModuleRefNotFound(u32),
    /// The fault of a module's stream, which was stored when the module was read.
    Kept(ModuleFault),
    /// Out of memory.
    OutOfMemory,
}

/// The fault of a module's stream that can't be read, as it is stored for later calls.
#[derive(Clone, Copy, PartialEq, Eq)]
pub enum ModuleFault {
    /// The number of a stream that the MSF directory doesn't have.
    StreamNotFound(u32),
    /// An MSF page number that is not from 1 to the number of pages used.
    PageReferenceOutOfRange(u32),
    /// The source failed; `UnexpectedEof` where a page lies past its end.
    IoError(ErrorKind),
    /// Bytes end where more are needed.
    UnexpectedEof,
}

impl fmt::Display for Error {
    ghost use Rattle.std.specs.Prelude.{Some};
    ghost use Rattle.pdb_container.specs.ErrorText.{error_text};

    ghost output = { λ e. Some (error_text e) };

    fn fmt<W: fmt::Write>(&self, f: &mut fmt::Formatter<W>) -> fmt::Result {
        write!(f, "{}", self.printed())
    }
}

impl fmt::Debug for Error {
    fn fmt<W: fmt::Write>(&self, f: &mut fmt::Formatter<W>) -> fmt::Result {
        fmt::Display::fmt(self, f)
    }
}

impl Error {
    /// The printed text of the fault.
    pub fn printed(&self) -> PrintedFault<'static>
        ensures { printed_text result ≡ error_text self.now }
    {
        match self {
            Error::UnrecognizedFileFormat => PrintedFault::plain("UnrecognizedFileFormat"),
            Error::InvalidPageSize(value) => number("InvalidPageSize(", *value),
            Error::PageReferenceOutOfRange(value) => number("PageReferenceOutOfRange(", *value),
            Error::StreamNotFound(value) => number("StreamNotFound(", *value),
            Error::StreamNameNotFound => PrintedFault::plain("StreamNameNotFound"),
            Error::InvalidStreamLength(text) => PrintedFault::text("InvalidStreamLength(", text),
            Error::IoError(kind) => PrintedFault::text("IoError(", kind_name(*kind)),
            Error::UnexpectedEof => PrintedFault::plain("UnexpectedEof"),
            Error::UnimplementedFeature(text) => PrintedFault::text("UnimplementedFeature(", text),
            Error::GlobalSymbolsNotFound => PrintedFault::plain("GlobalSymbolsNotFound"),
            Error::SymbolTooShort => PrintedFault::plain("SymbolTooShort"),
            Error::UnimplementedSymbolKind(value) => {
                number("UnimplementedSymbolKind(", u32::from(*value))
            }
            Error::InvalidTypeInformationHeader(text) => {
                PrintedFault::text("InvalidTypeInformationHeader(", text)
            }
            Error::TypeTooShort => PrintedFault::plain("TypeTooShort"),
            Error::TypeNotFound(value) => number("TypeNotFound(", *value),
            Error::TypeNotIndexed(index, first) => {
                PrintedFault::numbers("TypeNotIndexed(", u64::from(*index), u64::from(*first))
            }
            Error::UnexpectedNumericPrefix(value) => {
                number("UnexpectedNumericPrefix(", u32::from(*value))
            }
            Error::UnimplementedTypeKind(value) => {
                number("UnimplementedTypeKind(", u32::from(*value))
            }
            Error::UnimplementedFileChecksumKind(value) => {
                number("UnimplementedFileChecksumKind(", u32::from(*value))
            }
            Error::InvalidFileChecksumOffset(value) => number("InvalidFileChecksumOffset(", *value),
            Error::InvalidCompressedAnnotation => PrintedFault::plain(
                "InvalidCompressedAnnotation",
            ),
            Error::UnknownBinaryAnnotation(value) => number("UnknownBinaryAnnotation(", *value),
            Error::NotACrossModuleRef(value) => number("NotACrossModuleRef(", *value),
            Error::CrossModuleRefNotFound(value) => number("CrossModuleRefNotFound(", *value),
            Error::Kept(fault) => printed_kept(*fault),
            Error::OutOfMemory => PrintedFault::plain("OutOfMemory"),
        }
    }
}

/// The printed text of a fault with a number of 32 bits.
fn number(name: &'static str, value: u32) -> PrintedFault<'static>
    ensures { printed_text result ≡ name.now ++ decimal value ++ codes ")" }
{
    PrintedFault::number(name, u64::from(value))
}

/// The printed text of a stored fault of a module's stream, as an error.
#[tactic(auto, using(std::proofs::Common::append_assoc))]
fn printed_kept(fault: ModuleFault) -> PrintedFault<'static>
    ensures { printed_text result ≡ codes "Kept(" ++ module_fault_text fault ++ codes ")" }
{
    match fault {
        ModuleFault::StreamNotFound(value) => {
            let value = PrintedPiece::Number(u64::from(value));
            PrintedFault::value("Kept(StreamNotFound(", value, "))")
        }
        ModuleFault::PageReferenceOutOfRange(value) => {
            let value = PrintedPiece::Number(u64::from(value));
            PrintedFault::value("Kept(PageReferenceOutOfRange(", value, "))")
        }
        ModuleFault::IoError(kind) => {
            PrintedFault::value("Kept(IoError(", PrintedPiece::Text(kind_name(kind)), "))")
        }
        ModuleFault::UnexpectedEof => PrintedFault::plain("Kept(UnexpectedEof)"),
    }
}

impl fmt::Display for ModuleFault {
    ghost use Rattle.std.specs.Prelude.{Some};
    ghost use Rattle.pdb_container.specs.ErrorText.{module_fault_text};

    ghost output = { λ e. Some (module_fault_text e) };

    fn fmt<W: fmt::Write>(&self, f: &mut fmt::Formatter<W>) -> fmt::Result {
        match self {
            ModuleFault::StreamNotFound(value) => write!(f, "StreamNotFound({value})"),
            ModuleFault::PageReferenceOutOfRange(value) => write!(
                f,
                "PageReferenceOutOfRange({value})"
            ),
            ModuleFault::IoError(kind) => write!(f, "IoError({})", kind_name(*kind)),
            ModuleFault::UnexpectedEof => f.write_str("UnexpectedEof"),
        }
    }
}

impl fmt::Debug for ModuleFault {
    fn fmt<W: fmt::Write>(&self, f: &mut fmt::Formatter<W>) -> fmt::Result {
        fmt::Display::fmt(self, f)
    }
}

/// The name of a kind in a printed fault: six kinds have their own, every other is `Other`.
pub fn kind_name(kind: ErrorKind) -> &'static str
    ensures { result.now ≡ kind_text kind }
{
    match kind {
        ErrorKind::NotFound => "NotFound",
        ErrorKind::PermissionDenied => "PermissionDenied",
        ErrorKind::Interrupted => "Interrupted",
        ErrorKind::UnexpectedEof => "UnexpectedEof",
        ErrorKind::WriteZero => "WriteZero",
        ErrorKind::BrokenPipe => "BrokenPipe",
        _ => "Other",
    }
}

impl std::error::Error for Error {}

impl From<AllocError> for Error {
    ghost from_gives = { λ _ e. e ≡ OutOfMemory };

    fn from(_e: AllocError) -> Error {
        Error::OutOfMemory
    }
}

impl<T: Drop> From<AllocFailed<T>> for Error {
    ghost from_gives = { λ _ e. e ≡ OutOfMemory };

    fn from(_e: AllocFailed<T>) -> Error {
        Error::OutOfMemory
    }
}

impl From<io::Error> for Error {
    ghost from_gives = { λ cause e. e ≡ error_of cause };

    fn from(cause: io::Error) -> Error {
        match cause.kind() {
            ErrorKind::OutOfMemory => Error::OutOfMemory,
            kind => Error::IoError(kind),
        }
    }
}

impl From<ModuleFault> for Error {
    ghost from_gives = { λ fault e. e ≡ errors.Kept fault };

    fn from(fault: ModuleFault) -> Error {
        Error::Kept(fault)
    }
}

/// The fault of a module's stream, as it is stored. Out of memory, and any other error that is no
/// fault of a stream, stays an error.
impl TryFrom<Error> for ModuleFault {
    type Error = Error;

    ghost try_from_gives = { λ cause kept. kept ≡ kept_of cause };

    fn try_from(cause: Error) -> Result<ModuleFault> {
        match cause {
            Error::StreamNotFound(number) => Ok(ModuleFault::StreamNotFound(number)),
            Error::PageReferenceOutOfRange(page) => Ok(ModuleFault::PageReferenceOutOfRange(page)),
            Error::IoError(kind) => Ok(ModuleFault::IoError(kind)),
            Error::UnexpectedEof => Ok(ModuleFault::UnexpectedEof),
            other => Err(other),
        }
    }
}
