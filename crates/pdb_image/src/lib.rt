//! PE images: the machine, the image base, sections, the identity and path of the program database
//! (PDB), and, of an image of x64, how its functions are unwound: the entries of its exception
//! directory (`.pdata`), their unwind codes, the rules at an address by which a frame is left, and
//! the records `STACK CFI` of a symbol file that say these rules. The layouts are those of
//! Microsoft's pages PE Format and x64 Exception Handling; the CodeView record is LLVM's
//! `PDB70DebugInfo` (CVDebugRecord.h); the records are those that Breakpad and rust-minidump read.
//!
//! Fields of an image may be added, and the way in which codes are gone over may change. The choice
//! among several records, the order of faults (`specs/CodeView`, `specs/Image`), rules
//! (`specs/Rules`) and the form of records may not, since other programs read these.
//!
//! An image's bytes and a PDB's identity tell whether the PDB belongs to the image:
//!
//! ```rust
//! fn names_pdb(image: &[u8], pdb: &PdbIdentity) -> Result<bool, ImageError> {
//!     match Image::parse(image)?.code_view()? {
//!         Some(record) => Ok(record.identity().matches(pdb)),
//!         None => Ok(false),
//!     }
//! }
//! ```
#![tactic(auto)]

mod code;
mod code_view;
mod codes;
mod entry;
mod error;
mod fault;
mod file_part;
mod frame;
mod functions;
mod identity;
mod image;
mod image_file;
mod image_record;
mod laws;
mod optional_header;
mod records;
mod rules;
mod section_data;
mod table;
mod texts;

pub use code::{UnwindCode, UnwindOperation};
pub use code_view::CodeView;
pub use entry::FunctionEntry;
pub use error::ImageError;
pub use fault::UnwindFault;
pub use functions::{UnwoundFunction, UnwoundFunctions};
pub use identity::PdbIdentity;
pub use image::Image;
pub use image_file::read_image;
pub use image_record::{ImageRecord, RecordFault};
pub use laws::unwinding;
pub use optional_header::DataDirectory;
pub use rules::{Expression, Register, Rules};
