//! The contributions that hold a place, from the section contributions of the DBI stream, and the
//! public list, names and placeholders by the places at which functions may begin. The crate also
//! gives the distance to the next start or end of a contribution.
//!
//! How lists are held and searched may change. Which contribution holds a place, and what the
//! public list is (`specs/MergedContributions`, `specs/Publics`), may not.
#![tactic(auto)]

mod contribution;
mod held;
mod holding;
pub mod laws;
mod public_entries;
mod public_list;
mod sorted_bounds;
mod unmerged;

pub use contribution::{ModuleSectionContribution, is_executable};
pub use held::HeldPlaces;
pub use holding::{SectionContributions, compute_section_contributions};
pub use public_entries::{PublicFunction, check_symbols, read_public_symbols};
pub use public_list::PublicList;
pub use sorted_bounds::{SortedBounds, push_bounds};
pub use unmerged::compute_section_contributions_in_any_order;
