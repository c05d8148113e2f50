//! Places in the file of bytes at an address.

ghost use Rattle.std.specs.Prelude.{◌≡◌, map};
ghost use Rattle.pdb_addresses.specs.Sections.{header_in};
ghost use Rattle.pdb_image.specs.Tables.{whole_place_in as place_in_section, whole_place_of};

use pdb_container::word_at;

/// The place in the file of `size` bytes at an address, if the data of the section with this header
/// hold them all.
fn whole_place_in(header: &[u8; 40], address: u64, size: usize) -> Option<usize>
    ensures { result ≡ place_in_section address size (header_in header.now) }
{
    let start = u64::from(word_at(header, 12));
    let length = u64::from(word_at(header, 16));
    if address < start || length < address - start {
        return None;
    }
    let offset = address - start;
    if length - offset < size as u64 {
        return None;
    }
    Some(word_at(header, 20) as usize + offset as usize)
}

/// The place in the file of `size` bytes at an address, in the first of these sections whose data
/// hold them all.
#[tactic(auto, using(crate::proofs::SectionSteps::whole_more, crate::proofs::SectionSteps::whole_found, crate::proofs::SectionSteps::whole_missing))]
pub(crate) fn whole_place(sections: &[[u8; 40]], address: u64, size: usize) -> Option<usize>
    ensures { result ≡ whole_place_of address size (map header_in sections.now) }
{
    for header in sections {
        if let Some(place) = whole_place_in(header, address, size) {
            return Some(place);
        }
    }
    None
}
