//! The text after the last colon of a file's name: an architecture, or an identity.

ghost use Rattle.std.specs.Prelude.{◌≡◌, ◌≤◌, length, option_map};
ghost use Rattle.pdb_llvm_protocol.specs.ModuleNames.{after_colon as after_colon_of};
ghost use Rattle.pdb_llvm_protocol.specs.ModuleNames.{before_hyphen as before_hyphen_of};
ghost use Rattle.pdb_llvm_protocol.specs.ModuleNames.{file_without, identified_of};
ghost use Rattle.pdb_llvm_protocol.specs.ModuleNames.{is_architecture as is_architecture_of};
ghost use Rattle.pdb_llvm_protocol.specs.ModuleNames.{is_arm as is_arm_name, is_text};
ghost use Rattle.pdb_llvm_protocol.specs.ModuleNames.{is_identity as is_identity_of};
ghost use Rattle.pdb_llvm_protocol.specs.ModuleNames.{is_identity_length as is_identity_length_of};
ghost use Rattle.pdb_llvm_protocol.specs.ModuleNames.{is_x86 as is_x86_name};

use crate::words::{are_hexadecimal, first_of};

/// The number of bytes up to the last colon, which is included; 0 where there is none.
#[tactic(auto, unfolding(crate::specs::ModuleNames::after_colon))]
fn after_colon(name: &[u8]) -> usize
    ensures is { result ≡ after_colon_of name.now }
    ensures within { result ≤ length name.now }
{
    let mut end = name.len();
    while end > 0 && name[end - 1] != b':' {
        end -= 1;
    }
    end
}

/// The part of a text before its first hyphen, or all of it.
#[tactic(auto, unfolding(crate::specs::ModuleNames::before_hyphen))]
fn before_hyphen(text: &[u8]) -> &[u8]
    ensures { result.now ≡ before_hyphen_of text.now }
{
    match first_of(b'-', text) {
        Some(end) => &text[..end],
        None => text,
    }
}

/// Whether a text is another one.
fn is(text: &[u8], wanted: &[u8]) -> bool
    ensures { result ≡ is_text text.now wanted.now }
{
    text.starts_with(wanted) && text.len() == wanted.len()
}

/// Whether a text names an x86 architecture.
#[tactic(auto, unfolding(crate::specs::ModuleNames::is_x86))]
fn is_x86(text: &[u8]) -> bool
    ensures { result ≡ is_x86_name text.now }
{
    is(text, b"x86_64")
        || is(text, b"amd64")
        || is(text, b"x86_64h")
        || is(text, b"i386")
        || is(text, b"i486")
        || is(text, b"i586")
        || is(text, b"i686")
}

/// Whether a text names an ARM architecture.
#[tactic(auto, unfolding(crate::specs::ModuleNames::is_arm))]
fn is_arm(text: &[u8]) -> bool
    ensures { result ≡ is_arm_name text.now }
{
    is(text, b"arm")
        || is(text, b"armv7")
        || is(text, b"thumb")
        || is(text, b"thumbv7")
        || is(text, b"aarch64")
        || is(text, b"arm64")
        || is(text, b"arm64ec")
}

/// Whether a text names an architecture that images of Windows have, alone or before a hyphen.
#[tactic(auto, unfolding(crate::specs::ModuleNames::is_architecture))]
fn is_architecture(text: &[u8]) -> bool
    ensures { result ≡ is_architecture_of text.now }
{
    let name = before_hyphen(text);
    is_x86(name) || is_arm(name)
}

/// The name of a file without the architecture that may stand after its last colon.
#[tactic(auto, unfolding(crate::specs::ModuleNames::file_without))]
pub fn without_architecture(name: &[u8]) -> &[u8]
    ensures { result.now ≡ file_without name.now }
{
    let end = after_colon(name);
    if end > 0 && is_architecture(&name[end..]) {
        &name[..end - 1]
    } else {
        name
    }
}

/// Whether an identity may have so many digits.
fn is_identity_length(length: usize) -> bool
    ensures { result ≡ is_identity_length_of length }
{
    9 <= length && length <= 40
}

/// Whether a text may be an identity: 9 to 40 hexadecimal digits.
#[tactic(auto, unfolding(crate::specs::ModuleNames::is_identity))]
fn is_identity(text: &[u8]) -> bool
    ensures { result ≡ is_identity_of text.now }
{
    is_identity_length(text.len()) && are_hexadecimal(text)
}

/// The name of a file and the identity that stands after its last colon, as symbol stores have
/// it: of a database its GUID and age, of an image its time stamp and size.
#[tactic(auto, unfolding(crate::specs::ModuleNames::identified_of))]
pub fn split_identity(name: &[u8]) -> Option<(&[u8], &[u8])>
    ensures { option_map (λ p. (p.0.now, p.1.now)) result ≡ identified_of name.now }
{
    let end = after_colon(name);
    if end > 0 && is_identity(&name[end..]) {
        Some((&name[..end - 1], &name[end..]))
    } else {
        None
    }
}
