//! The resolution of indices that lead into another module (`Resolver`). A resolver uses a provider
//! of modules, and the modules' names, imports and exports, as they are read and cached. The crate
//! also has the parts of a database that could not be read when they were asked for, and the errors
//! of answers about types and functions.
//!
//! How a module's imports and exports are searched may change. Where an index leads
//! (`specs/Resolving`), and which parts fail once they failed, may not.
#![tactic(auto)]

mod error;
mod failed_parts;
mod failures;
mod kept_tables;
pub mod laws;
mod module_exports;
mod module_names;
mod named_modules;
mod provider;
mod resolver;
pub mod stop;
mod table;

pub use error::{Error, Result};
pub use failed_parts::FailedParts;
pub use failures::{Failures, Part, number_of};
pub use kept_tables::{KeptExports, KeptImports, keep_exports, keep_imports};
pub use module_exports::ModuleExports;
pub use module_names::ModuleNames;
pub use provider::{ModuleProvider, ModuleTables};
pub use resolver::Resolver;
pub use table::Table;
