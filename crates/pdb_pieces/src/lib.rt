//! Spans of places that may overlap, cut into pieces that don't, and a binary search among these.
//!
//! How spans are cut may change. Which span counts at a place (`specs/Spans`) may not.
#![tactic(auto)]

mod ascending;
mod cut;
pub mod laws;
mod search;
mod short_spans;
mod span;

pub use ascending::{Begins, count_begun, to_next};
pub use search::Pieces;
pub use span::{Mark, Span, place_number};
