//! Loading a program database: the bytes of its file, and what is read of them once, in one order,
//! before any question. `specs/Loading` states this order, and the first fault; [`load_file`] reads
//! in it, and [`hold_file`] all but its last step: the parts that contexts go over. The modules' own
//! streams are read when they are first asked for ([`FileModules`]).
//!
//! The amount that is read at once, and what is shared, may change. The order in which a file is
//! read, and so its first fault (`specs/Loading`), may not.
#![tactic(auto)]

mod file_modules;
mod file_read;
mod file_reader;
mod held_database;
mod load_fault;
mod loading;
mod module_infos;
mod on_demand;
mod order;
mod tables;

pub use file_modules::FileModules;
pub use file_read::read_file;
pub use held_database::{HeldDatabase, hold_database, read_database};
pub use load_fault::LoadFault;
pub use loading::{HeldFile, LoadedFile, hold_file, load_file};
pub use module_infos::{KeptModules, collect_modules};
pub use on_demand::{FileFault, HeldViews, hold_on_demand, modules_of_views};
pub use order::ContributionOrder;
pub use tables::{Tables, read_tables};
