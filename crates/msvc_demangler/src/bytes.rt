//! Bytes at the head of what is left of a name.

ghost use Rattle.std.specs.Prelude.{◌≡◌, ◌<◌, slice_index};
ghost use Rattle.msvc_demangler.specs.Bytes.{after_optional as after_optional_of};

/// The byte at a place; 0 past the end.
pub(crate) fn byte_at(text: &[u8], place: usize) -> u8
    ensures { result ≡ slice_index text.now place }
{
    if place < text.len() { text[place] } else { 0 }
}

/// The rest of a text after a byte that may stand at its head.
pub(crate) fn after_optional(code: u8, text: &[u8]) -> &[u8]
    requires { 0 < code }
    ensures { result.now ≡ after_optional_of code text.now }
{
    match text {
        [first, after @ ..] if *first == code => after,
        _ => text,
    }
}
