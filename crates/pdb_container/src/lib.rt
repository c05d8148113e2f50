//! The MSF container of a program database: a file's pages, the streams that lie in them, the
//! numbers in a stream's bytes; and what all readers of records stand on: indices of types and ids,
//! numeric leaves, the fields of CodeView records. The formats are those of microsoft-pdb's msf.h
//! and cvinfo.h, and of LLVM's The MSF File Format and CodeView Type Records.
//!
//! How bytes are viewed, copied and bounded may change, and how a field is read. Which bytes a
//! stream has, which fault comes first (`specs/Container`), what a fault prints and the layout of a
//! field may not.
#![tactic(auto)]

mod bounded_bytes;
mod buffer;
mod directory;
mod distinct_pages;
mod entry_list;
mod error;
mod fallible_iterator;
mod front;
mod index;
pub mod index_laws;
mod index_numbers;
pub mod laws;
mod msf;
mod numbers;
mod page_list;
mod paged_numbers;
mod printed_fault;
mod raw_string;
mod record_fields;
mod shared_bytes;
mod source;
mod string_table;
mod variant;

pub use bounded_bytes::{ALWAYS_ALLOWED, BoundedBytes, CopyLimits, TIMES_LISTED};
pub use buffer::{FromBuffer, ParseBuffer};
pub use entry_list::parse_entries;
pub use error::{Error, ModuleFault, Result, kind_name};
pub use fallible_iterator::FallibleIterator;
pub use front::{may_be_container, pages_end};
pub use index::{IdIndex, ItemIndex, Local, TypeIndex};
pub use index_numbers::{FileIndex, SymbolIndex};
pub use msf::{BigMSF, Msf, Stream, open_msf};
pub use numbers::{half_at, nul_in, padding_behind, word_at};
pub use page_list::PageList;
pub use printed_fault::{PrintedFault, PrintedPiece};
pub use raw_string::RawString;
pub use record_fields::{parse_many, parse_name};
pub use shared_bytes::SharedBytes;
pub use source::{ReadView, Source, SourceSlice};
pub use string_table::{StringRef, StringTable};
pub use variant::{Variant, parse_numeric, parse_variant};
