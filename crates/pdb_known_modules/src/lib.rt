//! One cache of modules that were asked for. It has a place for each, which holds the data read of
//! it: the data of its stream, its line program and inlinees, its line rows by subsection, and the
//! data of its procedures. The crate also gives the starts and ends of procedures in sections, and
//! the distance to the next one. It knows no names and no addresses of an image.
//!
//! What is cached, and when it is forgotten, may change, since no answer shows it. What a module
//! has at a place may not.
#![tactic(auto)]

mod bounds;
mod kept;
mod meter;
mod modules;
mod procedure_data;
mod slots;
mod subsection_rows;

pub use bounds::procedure_bounds;
pub use kept::{
    CachedModules, keep_lines, keep_module, keep_procedure, keep_public_rows, known_at,
    nothing_cached,
};
pub use modules::{
    BasicModuleInfo, ExtendedModuleInfo, get_basic_module_info, number_over, procedure_numbered,
    procedures_in, read_extended,
};
pub use procedure_data::{ExtendedProcedureInfo, LentProcedure, read_extended_procedure};
