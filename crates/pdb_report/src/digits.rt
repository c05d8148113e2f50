//! The hexadecimal digits of addresses, in lines of a report.

ghost use Rattle.std.specs.Prelude.{◌≡◌, ◌++◌, ◌∷◌, [], ◌<◌, false, codes};
ghost use Rattle.std.specs.Fmt.{digit_glyph};
ghost use Rattle.pdb_report.specs.Adds.{Adds};
ghost use Rattle.pdb_report.specs.AddressText.{eight_digits};
ghost use Rattle.pdb_report.specs.JsonLine.{address_string};

use std::alloc::AllocError;

/// The hexadecimal digits, each at the index of its value.
static DIGITS: [u8; 16] = *b"0123456789abcdef";

/// Returns the hexadecimal digit of a value.
#[tactic(auto, using(crate::proofs::DigitSteps::digit_is))]
fn digit(value: u32) -> u8
    requires { value < 16 }
    ensures { result ≡ digit_glyph false value }
{
    DIGITS[value as usize]
}

/// Returns the eight digits of an address.
#[tactic(auto, using(crate::proofs::DigitSteps::digits_are))]
fn digits_of(address: u32) -> [u8; 8]
    ensures { result ≡ eight_digits address }
{
    [
        digit(address / 0x1000_0000),
        digit(address / 0x100_0000 % 16),
        digit(address / 0x10_0000 % 16),
        digit(address / 0x1_0000 % 16),
        digit(address / 0x1000 % 16),
        digit(address / 0x100 % 16),
        digit(address / 16 % 16),
        digit(address % 16),
    ]
}

/// Returns the line of an address itself.
fn address_line(address: u32) -> [u8; 11]
    ensures { result ≡ codes "0x" ++ eight_digits address ++ 10 ∷ [] }
{
    let mut line = *b"0x00000000\n";
    line[2..10].copy_from_slice(&digits_of(address));
    line
}

/// Returns the start of a row, with what stands before and after it.
fn row_start(start: u32) -> [u8; 13]
    ensures { result ≡ codes " @0x" ++ eight_digits start ++ codes "+" }
{
    let mut text = *b" @0x00000000+";
    text[4..12].copy_from_slice(&digits_of(start));
    text
}

/// Returns an address as a string of JSON.
#[tactic(auto, unfolding(crate::specs::JsonLine::address_string))]
fn quoted_address(address: u32) -> [u8; 12]
    ensures { result ≡ address_string address }
{
    let mut text = *b"\"0x00000000\"";
    text[3..11].copy_from_slice(&digits_of(address));
    text
}

/// Appends the line of an address itself.
///
/// # Errors
/// `AllocError` when memory runs out.
pub fn append_address_line(output: &mut Vec<u8>, address: u32) -> Result<(), AllocError>
    ensures { Adds result output.old output.new (codes "0x" ++ eight_digits address ++ 10 ∷ []) }
{
    output.extend_from_slice(&address_line(address))
}

/// Appends the start of a row, with what stands before and after it.
///
/// # Errors
/// `AllocError` when memory runs out.
pub fn append_row_start(output: &mut Vec<u8>, start: u32) -> Result<(), AllocError>
    ensures { Adds result output.old output.new (codes " @0x" ++ eight_digits start ++ codes "+") }
{
    output.extend_from_slice(&row_start(start))
}

/// Appends an address as a string of JSON.
///
/// # Errors
/// `AllocError` when memory runs out.
pub fn append_address_string(output: &mut Vec<u8>, address: u32) -> Result<(), AllocError>
    ensures { Adds result output.old output.new (address_string address) }
{
    output.extend_from_slice(&quoted_address(address))
}
