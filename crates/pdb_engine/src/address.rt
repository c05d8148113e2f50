//! The address that stands in a line.

ghost use Rattle.std.specs.Prelude.{◌≡◌};
ghost use Rattle.pdb_engine.specs.Address.{address_of, without_return, without_prefix};

/// Returns the line without a carriage return at its end.
fn strip_return(line: &[u8]) -> &[u8]
    ensures { result.now ≡ without_return line.now }
{
    if !line.is_empty() && line[line.len() - 1] == b'\r' {
        &line[..line.len() - 1]
    } else {
        line
    }
}

/// Returns the line without a prefix `0x` or `0X`.
fn strip_hex_prefix(line: &[u8]) -> &[u8]
    ensures { result.now ≡ without_prefix line.now }
{
    if line.len() >= 2 && line[0] == b'0' && (line[1] == b'x' || line[1] == b'X') {
        &line[2..]
    } else {
        line
    }
}

/// Returns the address that a line stands for, and `None` if it stands for none. One carriage
/// return at the end is dropped, then a prefix `0x` or `0X`. One to eight hexadecimal digits have
/// to be left.
pub fn parse_address(line: &[u8]) -> Option<u32>
    ensures { result ≡ address_of line.now }
{
    let digits = strip_hex_prefix(strip_return(line));
    if digits.is_empty() || digits.len() > 8 {
        return None;
    }
    let mut value = 0u32;
    for byte in digits {
        value = value * 16 + char::from(*byte).to_digit(16)?;
    }
    Some(value)
}
