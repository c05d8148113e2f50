//! Tests of an open program database.

mod files;
mod finder;
mod names;
mod sources;
