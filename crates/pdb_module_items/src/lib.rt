//! Types and ids by their indices as a module has them, and the sizes of types.
//!
//! The cache of sizes may change. Sizes, and the number of types through which one may lead
//! (`specs/Sizes`), may not.
#![tactic(auto)]

mod definitions;
mod item_map;
mod item_reader;
mod primitives;
mod references;
mod sizes;
mod type_size_cache;

pub use item_map::ItemMap;
pub use item_reader::ItemReader;
