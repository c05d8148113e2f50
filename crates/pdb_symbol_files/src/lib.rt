//! Symbol files, which crash reporters read in place of a program database: the records of a module
//! from its database's answers for each address, and the text of these records.
//!
//! | to | call |
//! |---|---|
//! | say an answer as a symbol file does | [`told_of`] |
//! | make the records of a module's functions | [`FunctionRecords`] |
//! | make records of all addresses where code may run | [`append_functions`], from a [`ToldRuns`] |
//! | make the lines before these records | [`append_module`], [`append_code_id`] |
//! | write a text | [`write_text`], [`write_bytes`] |
//!
//! The laws are [`laws::two_roads`], that looking an address up in the records gives what is told
//! of it, and [`laws::reads_back`], that the text of records reads as these.
#![tactic(auto)]

mod addresses;
mod functions;
mod heads;
mod inlines;
pub mod laws;
mod lines;
mod numbering;
mod output;
mod pieces;
mod texts;
mod told;
mod told_runs;

pub use addresses::{AddressRange, code_ranges, size_of_all};
pub use functions::FunctionRecords;
pub use heads::{append_code_id, append_module};
pub use output::{write_bytes, write_text};
pub use pieces::{Call, Piece, Told};
pub use texts::told_text;
pub use told::told_of;
pub use told_runs::{ToldFault, ToldRun, ToldRuns, append_functions};
