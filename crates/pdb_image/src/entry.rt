//! Entries of the exception directory.

ghost use Rattle.std.specs.Prelude.{◌≡◌, ◌≤◌, length};
ghost use Rattle.pdb_image.specs.Entries.{entry_in};

use pdb_container::word_at;

/// An entry of the exception directory (`RUNTIME_FUNCTION`): the range of a function, or of a part
/// of one, and the address of its unwind information. Addresses are in bytes from the image's
/// start.
#[derive(Clone, Copy, Debug, PartialEq, Eq)]
pub struct FunctionEntry {
    /// The address at which the function begins.
    pub begin: u32,
    /// The address after the function's last byte.
    pub end: u32,
    /// The address of the function's unwind information. An odd one, less 1, is the address of
    /// another entry, whose unwind information counts.
    pub info: u32,
}

impl FunctionEntry {
    /// The entry in 12 bytes.
    pub(crate) fn from_bytes(bytes: &[u8]) -> FunctionEntry
        requires { 12 ≤ length bytes.now }
        ensures { result ≡ entry_in bytes.now }
    {
        FunctionEntry {
            begin: word_at(bytes, 0),
            end: word_at(bytes, 4),
            info: word_at(bytes, 8),
        }
    }
}
