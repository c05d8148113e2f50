//! Tests of all that reads a database, layer by layer, where recorded cases can't show it.
//!
//! Tests may be added. An expected value comes from the format, never from this repository's code.
#![tactic(auto)]

#[cfg(test)]
mod container;
#[cfg(test)]
mod database;
#[cfg(test)]
mod failing;
#[cfg(test)]
mod file_views;
