//! Program databases made from a description in plain structs, and readers and writers that
//! misbehave, for tests.
//!
//! Descriptions may have more fields. The bytes of a description that is there may not change,
//! since tests know them.
#![tactic(auto)]

mod bytes;
mod container;
mod database;
mod debug_information;
mod error;
mod formatter_rows;
mod line_data;
mod records;
mod rows;
mod site_rows;
mod streams;
mod symbols;

pub use bytes::{overwrite, push_u32};
pub use container::{Container, PageOrder};
pub use database::ProgramDatabase;
pub use debug_information::{DebugInformation, Module};
pub use error::{Result, SampleError};
pub use formatter_rows::{cross_imports, imports_of_no_stream};
pub use records::ItemTable;
pub use rows::{Change, cut_dbi, file_f, file_with, module_of_symbols, short_line_block};
pub use site_rows::nested_sites;
pub use streams::{PieceReader, PieceWriter};
