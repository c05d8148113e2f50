//! RVAs: the addresses of an image, and those of the space in which its database was written;
//! section headers, as the PE format has them, and OMAPs, as the pdb crate reads them.
//!
//! How places are searched may change. Which place an address is (`specs/Addresses`, `specs/Omap`)
//! may not, since each answer is stated by it.
#![tactic(auto)]

mod address_map;
mod internal_rva;
mod internal_section_offset;
pub mod laws;
mod omap;
mod place_run;
mod ranges;
mod rva;
mod section_list;
mod section_offset;
mod section_run;
mod sections;

pub use address_map::AddressMap;
pub use internal_rva::PdbInternalRva;
pub use internal_section_offset::PdbInternalSectionOffset;
pub use omap::{OMAPRecord, parse_omap};
pub use ranges::{PdbInternalRvaRangeIter, RvaRangeIter};
pub use rva::Rva;
pub use section_offset::SectionOffset;
pub use sections::{ImageSectionHeader, SectionCharacteristics, parse_section_headers};
