//! The procedure over a place, the line there, and the inlined calls over it, from a module's own
//! stream. The crate goes by symbols, line program, inlinees and string table, and knows nothing of
//! files, caches or types.
//!
//! How procedures, rows and calls are held and searched may change. Which of them a place has
//! (`specs/Procedures`, `specs/FunctionLine`, `specs/InlinedCalls`) may not.
#![tactic(auto)]

mod brief_sites;
mod call_rows;
mod deepest_site;
mod file_names;
mod function_line;
mod function_rows;
mod inline_ranges;
mod inline_sites;
mod inlined_calls;
mod inlinees;
pub mod laws;
mod memory;
mod procedure_list;
mod procedures;
mod site_rows;

pub use file_names::FileNames;
pub use function_line::file_name;
pub use function_rows::{FunctionRows, LineRow};
pub use inline_ranges::InlineRanges;
pub use inline_sites::{InlineSites, Site, SitesError};
pub use inlined_calls::{CodeSpan, InlinedCall};
pub use inlinees::Inlinees;
pub use memory::memory_of;
pub use pdb_pieces::Pieces;
pub use procedure_list::Procedures;
pub use procedures::Procedure;
