//! Errors of images: a file is no image, or doesn't say which PDB it has.

use thiserror::Error;

/// The reason that a file is no PE image, or that the record of its PDB can't be read.
#[derive(Clone, Copy, Debug, PartialEq, Eq, Error)]
pub enum ImageError {
    /// The file doesn't begin with `MZ`.
    #[error("the file doesn't begin with MZ")]
    NoDosSignature,
    /// The file ends before the DOS header, the COFF header or the optional header does.
    #[error("the file ends before its headers do")]
    HeadersPastEnd,
    /// No `PE` and two NULs are where the DOS header says.
    #[error("the file has no PE signature")]
    NoPeSignature,
    /// The optional header's magic number, which is neither 0x10b (PE32) nor 0x20b (PE32+).
    #[error("the optional header has the unknown magic number {0:#x}")]
    UnknownMagic(u16),
    /// The optional header has no room for its fields, or for the debug directory's address and
    /// size where it counts them.
    #[error("the optional header is too short")]
    OptionalHeaderTooShort,
    /// The file ends before the section headers do.
    #[error("the file ends before its section headers do")]
    SectionsPastEnd,
    /// The address of the debug directory, which lies in no section's data.
    #[error("no section has the debug directory at address {0:#x}")]
    DebugDirectoryNotFound(u32),
    /// The file ends before the debug directory does.
    #[error("the file ends before its debug directory does")]
    DebugDirectoryPastEnd,
    /// The debug directory has CodeView records, and none of them begins with `RSDS`.
    #[error("no CodeView record is of the kind RSDS")]
    NoRsdsRecord,
    /// The file ends before the CodeView record does.
    #[error("the file ends before its CodeView record does")]
    RecordPastEnd,
    /// The CodeView record has no room for GUID and age.
    #[error("the CodeView record is too short")]
    RecordTooShort,
    /// No NUL ends the path in the CodeView record.
    #[error("the path of the PDB doesn't end")]
    PathNotEnded,
}
