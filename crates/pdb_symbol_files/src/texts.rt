//! Names and files, as a symbol file has them.

ghost use Rattle.std.specs.Prelude.{◌≡◌, ◌&&◌, ◌==◌, IfOk, option_copied, string_bytes, true};
ghost use Rattle.std.specs.Str.{chars, encode_utf8_all};
ghost use Rattle.pdb_symbol_files.specs.Texts.{clean, clean_char as clean_char_of};
ghost use Rattle.pdb_symbol_files.specs.Texts.{front as front_of, shortened};
ghost use Rattle.pdb_symbol_files.specs.Texts.{told_text as told_text_of};

use std::alloc::{AllocError, Global};

/// The text of a name or a file that isn't known.
const UNKNOWN: &str = "??";

/// The largest number of bytes of a text.
const LONGEST: usize = 65_536;

/// The number of bytes of a longer text that stay, before three dots.
const KEPT: usize = 65_533;

/// A character as a symbol file has it: `leading` says whether only blanks stand before it.
fn clean_char(leading: bool, character: char) -> char
    ensures { result ≡ clean_char_of leading character }
{
    if character < ' ' || leading && character == ' ' {
        '_'
    } else {
        character
    }
}

/// Whether only blanks stand before the text after a character: `leading` says whether they do
/// before the character.
fn still_leading(leading: bool, character: char) -> bool
    ensures { result ≡ (leading && character == 32) }
{
    leading && character == ' '
}

/// A text without control characters, and without blanks before it: `_` stands for each.
fn cleaned(alloc: Global, text: &str) -> Result<String, AllocError>
    ensures { IfOk result (λ made. string_bytes made
        ≡ encode_utf8_all (clean true (chars text.now))) }
{
    let mut made = String::new(alloc);
    let mut leading = true;
    for character in text.chars() {
        made.push(clean_char(leading, character))?;
        leading = still_leading(leading, character);
    }
    Ok(made)
}

/// The longest prefix of whole characters that has so many bytes at most.
fn front(alloc: Global, text: &str, limit: usize) -> Result<String, AllocError>
    ensures { IfOk result (λ made. string_bytes made
        ≡ encode_utf8_all (front_of limit (chars text.now))) }
{
    let mut made = String::new(alloc);
    for character in text.chars() {
        if limit.saturating_sub(made.len()) < character.len_utf8() {
            return Ok(made);
        }
        made.push(character)?;
    }
    Ok(made)
}

/// A text of at most 65,536 bytes: of a longer one the beginning, and three dots.
fn short(alloc: Global, text: String) -> Result<String, AllocError>
    ensures { IfOk result (λ made. string_bytes made ≡ shortened (string_bytes text)) }
{
    if text.len() <= LONGEST {
        return Ok(text);
    }
    let mut made = front(alloc, text.as_str(), KEPT)?;
    made.push_str("...")?;
    Ok(made)
}

/// The text of a name or a file: `??` where there is none or an empty one. `_` stands for each
/// control character, and for each blank before the text. Of more than 65,536 bytes it has the
/// longest prefix of whole characters of at most 65,533 bytes, and three dots.
///
/// # Errors
/// `AllocError` when memory runs out.
pub fn told_text(alloc: Global, text: Option<&str>) -> Result<String, AllocError>
    ensures { IfOk result (λ told. string_bytes told ≡ told_text_of (option_copied text.entry)) }
{
    match text {
        Some(text) if !text.is_empty() => {
            let text = cleaned(alloc, text)?;
            short(alloc, text)
        }
        _ => String::from_str(alloc, UNKNOWN),
    }
}
