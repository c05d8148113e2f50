//! One binary annotation.

ghost use Rattle.std.specs.Prelude.{◌≡◌, ◌<◌, ◌≤◌, ◌^◌, length, IfOk};
ghost use Rattle.pdb_container.specs.Buffer.{rest, ParsesFront};
ghost use Rattle.pdb_symbol_records.specs.Annotations.{is_emitting, with_operand, with_operand_at};
ghost use Rattle.pdb_symbol_records.specs.Annotations.{with_length_at, behind_opcode};
ghost use Rattle.pdb_symbol_records.specs.Annotations.{annotation_or_end};
ghost use Rattle.pdb_symbol_records.specs.Numbers.{signed_of, second_at, others_at, compressed_at};

use pdb_container::{Error, FileIndex, ParseBuffer, Result};

/// A binary annotation: a step of the list that says where an inlined call's code lies, and from
/// which lines it was made. Three kinds of them give a row, from all steps up to it. Offsets and
/// lengths are in bytes.
#[derive(Clone, Copy, Debug, PartialEq, Eq)]
pub enum BinaryAnnotation {
    /// Opcode 1: the code's offset is this one.
    CodeOffset(u32),
    /// Opcode 2: to the code's offset this one is added, at each row from here on.
    ChangeCodeOffsetBase(u32),
    /// Opcode 3: the code's offset moves on by so much; a row begins there.
    ChangeCodeOffset(u32),
    /// Opcode 4: the row so far is that long, and the code's offset moves on by as much.
    ChangeCodeLength(u32),
    /// Opcode 5: the rows lie in this file.
    ChangeFile(FileIndex),
    /// Opcode 6: the line moves by so much.
    ChangeLineOffset(i32),
    /// Opcode 7: the distance in lines from the first line to the last one.
    ChangeLineEndDelta(u32),
    /// Opcode 8: the rows are of an expression at 0, of a statement at 1; another number changes
    /// nothing.
    ChangeRangeKind(u32),
    /// Opcode 9: the first column is this one.
    ChangeColumnStart(u32),
    /// Opcode 10: the last column moves by so much.
    ChangeColumnEndDelta(i32),
    /// Opcode 11: the code's offset moves on by the first number and the line by the second; a row
    /// begins there.
    ChangeCodeOffsetAndLineOffset(u32, i32),
    /// Opcode 12: the code's offset moves on by the second number; a row begins there, as long as
    /// the first number.
    ChangeCodeLengthAndCodeOffset(u32, u32),
    /// Opcode 13: the last column is this one.
    ChangeColumnEnd(u32),
}

impl BinaryAnnotation {
    /// Whether the annotation gives a row.
    pub fn emits_line_info(self) -> bool
        ensures { result ≡ is_emitting self }
    {
        matches!(
            self,
            BinaryAnnotation::ChangeCodeOffset(_)
                | BinaryAnnotation::ChangeCodeOffsetAndLineOffset(_, _)
                | BinaryAnnotation::ChangeCodeLengthAndCodeOffset(_, _)
        )
    }
}

/// The rest of a number of two bytes, after the first.
#[tactic(auto, unfolding(crate::specs::Numbers::second_at))]
fn parse_second(buffer: &mut ParseBuffer<'_>, first: u8) -> Result<u32>
    ensures value { ParsesFront (λ n. n) result (rest buffer.new)
        (second_at first (rest buffer.old)) }
    ensures taken { length (rest buffer.new) ≤ length (rest buffer.old) }
{
    let second = buffer.parse_u8()?;
    Ok(u32::from(first % 64) * 256 + u32::from(second))
}

/// The rest of a number of four bytes, after the first.
#[tactic(auto, unfolding(crate::specs::Numbers::others_at))]
fn parse_others(buffer: &mut ParseBuffer<'_>, first: u8) -> Result<u32>
    ensures value { ParsesFront (λ n. n) result (rest buffer.new)
        (others_at first (rest buffer.old)) }
    ensures taken { length (rest buffer.new) ≤ length (rest buffer.old) }
{
    let second = buffer.parse_u8()?;
    let third = buffer.parse_u8()?;
    let fourth = buffer.parse_u8()?;
    let high = u32::from(first % 32) * 0x1000000 + u32::from(second) * 0x10000;
    Ok(high + u32::from(third) * 0x100 + u32::from(fourth))
}

/// A number of one, two or four bytes.
#[tactic(auto, unfolding(crate::specs::Numbers::compressed_at))]
fn parse_number(buffer: &mut ParseBuffer<'_>) -> Result<u32>
    ensures value { ParsesFront (λ n. n) result (rest buffer.new)
        (compressed_at (rest buffer.old)) }
    ensures taken { IfOk result (λ _. length (rest buffer.new) < length (rest buffer.old)) }
{
    let first = buffer.parse_u8()?;
    match first {
        0..=0x7f => Ok(u32::from(first)),
        0x80..=0xbf => parse_second(buffer, first),
        0xc0..=0xdf => parse_others(buffer, first),
        _ => Err(Error::InvalidCompressedAnnotation),
    }
}

/// A number with its sign in bit 0.
fn signed(number: u32) -> i32
    ensures { result ≡ signed_of number }
{
    let magnitude = (number / 2).cast_signed();
    if number % 2 == 0 {
        magnitude
    } else {
        -magnitude
    }
}

/// An annotation of one operand.
fn with_one(opcode: u32, operand: u32) -> BinaryAnnotation
    ensures { result ≡ with_operand opcode operand }
{
    match opcode {
        1 => BinaryAnnotation::CodeOffset(operand),
        2 => BinaryAnnotation::ChangeCodeOffsetBase(operand),
        3 => BinaryAnnotation::ChangeCodeOffset(operand),
        4 => BinaryAnnotation::ChangeCodeLength(operand),
        5 => BinaryAnnotation::ChangeFile(FileIndex(operand)),
        6 => BinaryAnnotation::ChangeLineOffset(signed(operand)),
        7 => BinaryAnnotation::ChangeLineEndDelta(operand),
        8 => BinaryAnnotation::ChangeRangeKind(operand),
        9 => BinaryAnnotation::ChangeColumnStart(operand),
        10 => BinaryAnnotation::ChangeColumnEndDelta(signed(operand)),
        11 => {
            BinaryAnnotation::ChangeCodeOffsetAndLineOffset(operand % 16, signed(operand / 16))
        }
        _ => BinaryAnnotation::ChangeColumnEnd(operand),
    }
}

/// An annotation of one operand, which is read.
#[tactic(auto, unfolding(crate::specs::Annotations::with_operand_at))]
fn parse_with_operand(buffer: &mut ParseBuffer<'_>, opcode: u32) -> Result<BinaryAnnotation>
    ensures value { ParsesFront (λ a. a) result (rest buffer.new)
        (with_operand_at opcode (rest buffer.old)) }
    ensures taken { IfOk result (λ _. length (rest buffer.new) ≤ length (rest buffer.old)) }
{
    let operand = parse_number(buffer)?;
    Ok(with_one(opcode, operand))
}

/// The annotation of two operands.
#[tactic(auto, unfolding(crate::specs::Annotations::with_length_at))]
fn parse_with_length(buffer: &mut ParseBuffer<'_>) -> Result<BinaryAnnotation>
    ensures value { ParsesFront (λ a. a) result (rest buffer.new)
        (with_length_at (rest buffer.old)) }
    ensures taken { IfOk result (λ _. length (rest buffer.new) ≤ length (rest buffer.old)) }
{
    let length = parse_number(buffer)?;
    let offset = parse_number(buffer)?;
    Ok(BinaryAnnotation::ChangeCodeLengthAndCodeOffset(length, offset))
}

/// The annotation after an opcode that is no end.
#[tactic(auto, unfolding(crate::specs::Annotations::behind_opcode))]
fn parse_behind(buffer: &mut ParseBuffer<'_>, opcode: u32) -> Result<BinaryAnnotation>
    ensures value { ParsesFront (λ a. a) result (rest buffer.new)
        (behind_opcode opcode (rest buffer.old)) }
    ensures taken { IfOk result (λ _. length (rest buffer.new) ≤ length (rest buffer.old)) }
{
    if opcode == 12 {
        return parse_with_length(buffer);
    }
    if opcode > 13 {
        return Err(Error::UnknownBinaryAnnotation(opcode));
    }
    parse_with_operand(buffer, opcode)
}

/// An annotation, or the end.
#[tactic(auto, unfolding(crate::specs::Annotations::annotation_or_end))]
pub(crate) fn parse_annotation(buffer: &mut ParseBuffer<'_>) -> Result<Option<BinaryAnnotation>>
    ensures value { ParsesFront (λ a. a) result (rest buffer.new)
        (annotation_or_end (rest buffer.old)) }
    ensures taken { IfOk result (λ _. length (rest buffer.new) < length (rest buffer.old)) }
{
    let opcode = parse_number(buffer)?;
    if opcode == 0 {
        return Ok(None);
    }
    Ok(Some(parse_behind(buffer, opcode)?))
}
