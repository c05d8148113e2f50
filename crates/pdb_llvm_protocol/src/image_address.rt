//! The RVA of an address in its image.

ghost use Rattle.std.specs.Prelude.{◌≡◌};
ghost use Rattle.pdb_llvm_protocol.specs.ImageAddress.{rva_of as rva_at};

/// The RVA of an address: its distance in bytes from the start of an image. The start is
/// `image_base` for absolute addresses and 0 for `relative` ones, moved up by `adjust`, modulo
/// 2^64. None if the address lies 4 GiB or more after the start.
#[tactic(auto, unfolding(crate::specs::ImageAddress::rva_of))]
pub fn rva_of(address: u64, image_base: u64, adjust: u64, relative: bool) -> Option<u32>
    ensures { result ≡ rva_at address image_base adjust relative }
{
    let start = if relative { 0 } else { image_base };
    let offset = address.wrapping_sub(adjust).wrapping_sub(start);
    u32::try_from(offset).ok()
}
