//! The content of a database, as rows: the bytes of its modules, its source files, functions with
//! their places, the number of addresses over which a line goes on, and sizes by name with the
//! change between two databases; and the texts that stand for rows: lines for people, in which
//! numbers are aligned, CSV, and JSON Lines.
//!
//! A row is a list of [`Field`]s, and each names its column. Forms of rows may gain values, and a
//! listing columns at its end; present ones may not change. Data stored on the way may change. The
//! lists and counts of a context are stated by its answers, address by address, and may not.
//!
//! | to | call |
//! |---|---|
//! | write the columns' names, where a form has them, and rows | [`append_header`], [`append_row`] |
//! | sum the contributions of each module | [`module_sizes`] |
//! | count procedures and public symbols | [`SymbolCounts`] |
//! | list the source files of a module, with their checksums | [`append_sources`] |
//! | compare a file's bytes with its checksum | [`verdict_of`] |
//! | ask whether a function is called so | [`has_name`] |
//! | read which compiler made a module | [`compiler_of`] |
//! | list the functions with their files and lines | [`list_functions`] |
//! | look for functions by a name | [`functions_named`] |
//! | ask how far the line of an address goes | [`line_run`], [`is_same_line`] |
//! | count bytes by function or by source file | [`function_sizes`], [`file_sizes`] |
//! | count padding for the function before it | [`joined_sizes`] |
//! | count bytes by a name | [`Counts`], [`add_bytes`], [`listed`], [`largest_first`] |
//! | compare the bytes of two databases by name | [`changes_of`] |
#![tactic(auto)]

mod by_name;
mod changes;
mod compilers;
mod csv;
mod functions;
mod json;
mod keyed_runs;
mod line_runs;
mod modules;
mod named;
mod named_functions;
mod names;
mod naming;
mod owner_sizes;
mod padding;
mod plain;
mod rows;
mod sizes;
mod sources;
mod symbol_counts;
mod value;

pub use by_name::{file_name, function_name};
pub use changes::{Change, changes_of};
pub use compilers::compiler_of;
pub use functions::{FunctionRow, list_functions};
pub use line_runs::{Line, is_same_line, line_run};
pub use modules::{ModulePart, Part, module_sizes, part_of};
pub use named::Named;
pub use named_functions::functions_named;
pub use names::{has_name, is_called, listed_name, without_arguments};
pub use owner_sizes::{file_sizes, function_sizes};
pub use padding::joined_sizes;
pub use pdb_owners::Counts;
pub use rows::{Format, append_header, append_row};
pub use sizes::{Size, add_bytes, folder_of, largest_first, listed, total_of};
pub use sources::{SourceFile, StoredSum, Verdict, append_sources, verdict_of};
pub use symbol_counts::SymbolCounts;
pub use value::{Column, Field, Value};
