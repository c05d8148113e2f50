//! The first bytes of an MSF container.

ghost use Rattle.std.specs.Prelude.{◌≡◌, ◌≤◌, length, nat_eq};
ghost use Rattle.std.specs.List.{starts_with};
ghost use Rattle.pdb_container.specs.Container.{magic, pages_end as end_in};

use crate::numbers::word_at;

/// The magic with which the header begins.
const MAGIC: [u8; 32] = *b"Microsoft C/C++ MSF 7.00\r\n\x1aDS\0\0\0";

/// Whether these bytes begin as a big MSF container does.
pub fn may_be_container(front: &[u8]) -> bool
    ensures { result ≡ starts_with nat_eq front.now magic }
{
    front.starts_with(&MAGIC)
}

/// The byte at which a container's pages end, from the number of pages used that its header states:
/// no page number in range names a byte from there on.
pub fn pages_end(header: &[u8]) -> u64
    requires { 44 ≤ length header.now }
    ensures { result ≡ end_in header.now }
{
    let page_size = u64::from(word_at(header, 32));
    let pages_used = u64::from(word_at(header, 40));
    (pages_used + 1) * page_size
}
