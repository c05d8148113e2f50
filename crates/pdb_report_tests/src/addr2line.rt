//! Tests of formatters and contexts by their public calls. Also tests of the counts of ranges, over
//! a database with one function.

mod contexts;
mod errors;
mod files;
mod flags;
mod formatters;
mod frame_runs;
mod one_function;
mod seen;
mod sizes;
mod views;
