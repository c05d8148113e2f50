//! Names by which functions are looked for, and as which they are listed.

ghost use Rattle.std.specs.Prelude.{◌≡◌, ◌↔◌, ◌<◌, ◌^◌, false, IfOk, IsTrue, string_bytes};
ghost use Rattle.pdb_listings.specs.Names.{IsCalled, is_decorated as decorated};
ghost use Rattle.pdb_listings.specs.Names.{last_opening as last_opening_of};
ghost use Rattle.pdb_listings.specs.Names.{unopened_by as unopened_from};
ghost use Rattle.pdb_listings.specs.Names.{without_arguments as front_of};

use msvc_demangler::{Demangled, SHORT_TEXT, demangle};
use std::alloc::{AllocError, Global};

/// The number of closing parentheses without an opening one from a byte on, where `after` is the
/// number from the next byte on.
fn unopened_by(byte: u8, after: usize) -> usize
    requires { after < 2 ^ 63 }
    ensures { result ≡ unopened_from byte after }
{
    match byte {
        b')' => after + 1,
        b'(' => after.saturating_sub(1),
        _ => after,
    }
}

/// The last place at which a parenthesis opens that the last one of a text closes.
#[tactic(auto, using(crate::proofs::Openings::nothing_after, crate::proofs::Openings::one_before))]
fn last_opening(text: &[u8]) -> Option<usize>
    ensures { result ≡ last_opening_of text.now }
{
    let mut unopened: usize = 0;
    let mut place = text.len();
    while place > 0 {
        place -= 1;
        if text[place] == b'(' && unopened == 1 {
            return Some(place);
        }
        unopened = unopened_by(text[place], unopened);
    }
    None
}

/// A name without its arguments and the text after them: the text before the parenthesis that its
/// last one closes. The whole name where this text is empty, or there is no such parenthesis.
pub fn without_arguments(name: &[u8]) -> &[u8]
    ensures { result.now ≡ front_of name.now }
{
    match last_opening(name) {
        None | Some(0) => name,
        Some(place) => name.get(..place).unwrap_or(name),
    }
}

/// Whether a text is a name, with its arguments or without.
pub fn is_called(name: &[u8], asked: &[u8]) -> bool
    ensures { IsTrue result ↔ IsCalled name.now asked.now }
{
    name == asked || without_arguments(name) == asked
}

/// Whether a name is decorated as names of Visual C++ are: whether it begins with a question mark.
pub fn is_decorated(name: &[u8]) -> bool
    ensures { result ≡ decorated name.now }
{
    name.first() == Some(&b'?')
}

/// Whether a function of a name is called `asked`: by its name or, where this is decorated, by the
/// undecorated one, whole or without arguments.
///
/// # Errors
/// `AllocError` when memory runs out.
pub fn has_name(alloc: Global, name: &[u8], asked: &[u8]) -> Result<bool, AllocError>
    ensures stored { IfOk result (λ found. IsCalled name.now asked.now → IsTrue found) }
    ensures plain { decorated name.now ≡ false
        → IfOk result (λ found. IsTrue found → IsCalled name.now asked.now) }
{
    if is_called(name, asked) {
        return Ok(true);
    }
    if !is_decorated(name) {
        return Ok(false);
    }
    match demangle(alloc, name, SHORT_TEXT)? {
        Demangled::Text(text) => Ok(is_called(&text, asked)),
        Demangled::Undecorated => Ok(false),
    }
}

/// A name as it is listed: undecorated, if this is asked for and the name is decorated.
///
/// # Errors
/// `AllocError` when memory runs out.
pub fn listed_name(alloc: Global, name: &str, undecorate: bool) -> Result<String, AllocError>
    ensures stored { undecorate ≡ false → IfOk result (λ text. string_bytes text ≡ name.now) }
    ensures plain { decorated name.now ≡ false
        → IfOk result (λ text. string_bytes text ≡ name.now) }
{
    if !undecorate || !is_decorated(name.as_bytes()) {
        return String::from_str(alloc, name);
    }
    match demangle(alloc, name.as_bytes(), SHORT_TEXT)? {
        Demangled::Text(text) => { String::from_utf8_lossy(alloc, &text) }
        Demangled::Undecorated => String::from_str(alloc, name),
    }
}
