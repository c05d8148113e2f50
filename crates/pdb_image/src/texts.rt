//! The texts of rules in records.

ghost use Rattle.std.specs.Prelude.{◌≡◌, OnOk};
ghost use Rattle.pdb_image.specs.Texts.{added_text, expression_text, first_name};
ghost use Rattle.pdb_image.specs.Texts.{register_name, rule_text, Appends};
ghost use Rattle.std.specs.Fmt.{decimal};

use crate::rules::{Expression, Register};
use itoa::Buffer;
use std::alloc::AllocError;

/// Appends a number in decimal digits.
fn append_number(text: &mut String, number: u64) -> Result<(), AllocError>
    ensures { OnOk result (Appends text.old text.new (decimal number)) }
{
    let mut buffer = Buffer::new();
    text.push_str(buffer.format(number))
}

/// The name of one of the first eight general registers, by its number.
fn name_of(number: u8) -> &'static str
    ensures { result.now ≡ first_name number }
{
    match number {
        0 => "$rax",
        1 => "$rcx",
        2 => "$rdx",
        3 => "$rbx",
        4 => "$rsp",
        5 => "$rbp",
        6 => "$rsi",
        7 => "$rdi",
        _ => "$r",
    }
}

/// Appends the name of a register.
fn append_register(text: &mut String, register: Register) -> Result<(), AllocError>
    ensures { OnOk result (Appends text.old text.new (register_name register)) }
{
    match register {
        Register::Cfa => text.push_str(".cfa"),
        Register::ReturnAddress => text.push_str(".ra"),
        Register::General(number) => {
            text.push_str(name_of(number))?;
            if 8 <= number {
                append_number(text, u64::from(number))?;
            }
            Ok(())
        }
    }
}

/// Appends a number that is added, or its amount that is subtracted; nothing for 0.
fn append_added(text: &mut String, offset: i64) -> Result<(), AllocError>
    ensures { OnOk result (Appends text.old text.new (added_text offset)) }
{
    if offset == 0 {
        return Ok(());
    }
    text.push_str(" ")?;
    append_number(text, offset.unsigned_abs())?;
    text.push_str(if offset < 0 { " -" } else { " +" })
}

/// Appends an expression.
fn append_expression(text: &mut String, expression: Expression) -> Result<(), AllocError>
    ensures { OnOk result (Appends text.old text.new (expression_text expression)) }
{
    append_register(text, expression.base)?;
    append_added(text, expression.offset)?;
    text.push_str(if expression.is_read { " ^" } else { "" })
}

/// Appends a rule, with a blank before it.
pub(crate) fn append_rule(
    text: &mut String,
    register: Register,
    expression: Expression,
) -> Result<(), AllocError>
    ensures { OnOk result (Appends text.old text.new
        (rule_text (record { register = register; expression = expression }))) }
{
    text.push_str(" ")?;
    append_register(text, register)?;
    text.push_str(": ")?;
    append_expression(text, expression)
}
