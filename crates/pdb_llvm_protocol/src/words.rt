//! The blanks and the words of a line.

ghost use Rattle.std.specs.Prelude.{◌≡◌, ◌==◌, ◌≤◌, length, not, position};
ghost use Rattle.pdb_llvm_protocol.specs.Words.{ends_word as ends_word_of, is_blank as is_blank_of};
ghost use Rattle.pdb_llvm_protocol.specs.Words.{after_blanks};
ghost use Rattle.pdb_llvm_protocol.specs.Words.{are_hexadecimal as are_hexadecimal_of};
ghost use Rattle.pdb_llvm_protocol.specs.Words.{is_hexadecimal as is_hexadecimal_of};
ghost use Rattle.pdb_llvm_protocol.specs.Words.{trimmed, word_end as word_end_of};

/// Whether a byte is a blank: a space, or one from tab to carriage return.
fn is_blank(byte: u8) -> bool
    ensures { result ≡ is_blank_of byte }
{
    matches!(byte, b' ' | b'\t'..=b'\r')
}

/// The place of the first byte of this value.
pub(crate) fn first_of(byte: u8, text: &[u8]) -> Option<usize>
    ensures { result ≡ position (λ b. b == byte) text.now }
{
    text.iter().position(|other| *other == byte)
}

/// Whether a byte is a hexadecimal digit, in either case.
fn is_hexadecimal(byte: u8) -> bool
    ensures { result ≡ is_hexadecimal_of byte }
{
    matches!(byte, b'0'..=b'9' | b'a'..=b'f' | b'A'..=b'F')
}

/// Whether bytes are hexadecimal digits.
pub fn are_hexadecimal(text: &[u8]) -> bool
    ensures { result ≡ are_hexadecimal_of text.now }
{
    text.iter().all(|byte| is_hexadecimal(*byte))
}

/// Whether a byte ends a word: a space, a newline or a carriage return, and no other blank.
fn ends_word(byte: u8) -> bool
    ensures { result ≡ ends_word_of byte }
{
    matches!(byte, b' ' | b'\n' | b'\r')
}

/// The place of the first byte that is no blank.
fn first_printed(text: &[u8]) -> Option<usize>
    ensures { result ≡ position (λ b. not (is_blank_of b)) text.now }
{
    text.iter().position(|byte| !is_blank(*byte))
}

/// The text without the blanks before it.
#[tactic(auto, unfolding(crate::specs::Words::after_blanks))]
pub(crate) fn trim_start(text: &[u8]) -> &[u8]
    ensures { result.now ≡ after_blanks text.now }
{
    match first_printed(text) {
        Some(start) => &text[start..],
        None => &[],
    }
}

/// The text without the blanks before and after it.
#[tactic(auto, unfolding(crate::specs::Words::trimmed))]
pub(crate) fn trim(text: &[u8]) -> &[u8]
    ensures { result.now ≡ trimmed text.now }
{
    let rest = trim_start(text);
    let mut end = rest.len();
    while end > 0 && is_blank(rest[end - 1]) {
        end -= 1;
    }
    &rest[..end]
}

/// The place of the first byte that ends a word.
fn first_end(text: &[u8]) -> Option<usize>
    ensures { result ≡ position ends_word_of text.now }
{
    text.iter().position(|byte| ends_word(*byte))
}

/// The number of bytes before the end of the first word.
#[tactic(auto, unfolding(crate::specs::Words::word_end))]
pub(crate) fn word_end(text: &[u8]) -> usize
    ensures is { result ≡ word_end_of text.now }
    ensures within { result ≤ length text.now }
{
    match first_end(text) {
        Some(end) => end,
        None => text.len(),
    }
}
