//! Parts of a file by their places.

ghost use Rattle.std.specs.Prelude.{◌≡◌, length, option_map, IfSome};
ghost use Rattle.pdb_image.specs.Image.{part as part_of};

/// The `size` bytes from a place on, where all of them are there.
pub(crate) fn part(bytes: &[u8], place: usize, size: usize) -> Option<&[u8]>
    ensures bytes { option_map (λ x. x.now) result ≡ part_of bytes.now place size }
    ensures size { IfSome result (λ x. length x.now ≡ size) }
{
    bytes.get(place..)?.get(..size)
}
