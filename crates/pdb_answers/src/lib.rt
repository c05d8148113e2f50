//! Answers at a place: the frames, the function and the file, and how far these go on, over what is
//! cached of modules.
//!
//! The caches may change, since no answer shows them. Answers may not, nor which parts are known to
//! fail after a question: later answers depend on these.
#![tactic(auto)]

mod file_runs;
mod frame_runs;
mod frames;
mod functions;
mod known_failures;
pub mod laws;
mod place_data;
mod symbolizer;

pub use pdb_contributions::ModuleSectionContribution;
pub use pdb_frames::{ContextParts, Namer, maybe_owned};
pub use pdb_known_modules::{get_basic_module_info, procedures_in};
pub use symbolizer::PlaceSymbolizer;
