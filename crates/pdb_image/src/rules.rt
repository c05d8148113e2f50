//! The rules by which a frame is left.

ghost use Rattle.std.specs.Prelude.{◌≡◌, ◌<◌, ◌^◌, IfSome, false, length, map, true};
ghost use Rattle.std.specs.List.{range_with_len};
ghost use Rattle.std.specs.Option.{option_map};
ghost use Rattle.pdb_image.specs.Rules.{AreShort, IsShort, IsTail, cfa_rule as cfa_rule_of};
ghost use Rattle.pdb_image.specs.Rules.{difference as signed, return_rule as return_rule_of};
ghost use Rattle.pdb_image.specs.Rules.{rule as rule_in, rules_at, saved_rule as saved_rule_of};
ghost use Rattle.pdb_image.specs.Rules.{slot_rule as slot_rule_in};

use crate::code::UnwindCode;
use crate::frame::{Frame, Saved, Tail, steps_at};

/// A register that a rule finds, or begins with.
#[derive(Clone, Copy, Debug, PartialEq, Eq)]
pub enum Register {
    /// The canonical frame address: the caller's stack pointer.
    Cfa,
    /// The return address.
    ReturnAddress,
    /// The general register of this number: 0 to 15 are `rax`, `rcx`, `rdx`, `rbx`, `rsp`, `rbp`,
    /// `rsi`, `rdi` and `r8` to `r15`.
    General(u8),
}

/// An expression that finds the caller's value of a register: the sum of a register, as it is in
/// the frame that is left, and a number of bytes, or the eight bytes that lie there.
#[derive(Clone, Copy, Debug, PartialEq, Eq)]
pub struct Expression {
    /// The register.
    pub base: Register,
    /// The number of bytes that is added to the register.
    pub offset: i64,
    /// Whether the value is read at the sum, and isn't the sum itself.
    pub is_read: bool,
}

/// The rules by which a frame is left.
#[derive(Clone, Copy, Debug, PartialEq, Eq)]
pub struct Rules {
    /// The rule of the caller's stack pointer.
    pub cfa: Expression,
    /// The rule of the return address.
    pub return_address: Expression,
    /// The rules of the general registers that were saved, by their numbers.
    pub saved: [Option<Expression>; 16],
}

/// The registers that records name, in their order.
pub(crate) const REGISTERS: [Register; 17] = [
    Register::Cfa,
    Register::ReturnAddress,
    Register::General(0),
    Register::General(1),
    Register::General(2),
    Register::General(3),
    Register::General(5),
    Register::General(6),
    Register::General(7),
    Register::General(8),
    Register::General(9),
    Register::General(10),
    Register::General(11),
    Register::General(12),
    Register::General(13),
    Register::General(14),
    Register::General(15),
];

impl Rules {
    /// The rules after the steps that are done at an offset from the function's begin.
    pub(crate) fn at(codes: &[UnwindCode], offset: u32) -> Rules
        requires { length codes.now < 2 ^ 16 }
        ensures { result ≡ rules_at codes.now offset }
    {
        Rules::above(codes, &Tail::of(codes), offset)
    }

    /// The rules after the steps that are done at an offset from the function's begin, made on top
    /// of the codes' tail.
    #[tactic(auto, using(crate::proofs::Steps::slots_short))]
    pub(crate) fn above(codes: &[UnwindCode], tail: &Tail, offset: u32) -> Rules
        requires count { length codes.now < 2 ^ 16 }
        requires tail { IsTail codes.now tail.now }
        ensures { result ≡ rules_at codes.now offset }
    {
        let steps = steps_at(codes, tail, offset);
        let (is_machine, frame) = (steps.is_machine, steps.frame());
        Rules {
            cfa: cfa_rule(is_machine, frame),
            return_address: return_rule(is_machine, frame),
            saved: saved_rules(is_machine, frame, &steps.slots),
        }
    }

    /// The rule of a register, if there is one.
    pub fn rule(&self, register: Register) -> Option<Expression>
        ensures { result ≡ rule_in self.now register }
    {
        match register {
            Register::Cfa => Some(self.cfa),
            Register::ReturnAddress => Some(self.return_address),
            Register::General(number) => match self.saved.get(usize::from(number)) {
                Some(rule) => *rule,
                None => None,
            },
        }
    }
}

/// The first number of bytes less the second.
fn difference(up: u64, down: u64) -> i64
    requires up { up < 2 ^ 62 }
    requires down { down < 2 ^ 62 }
    ensures { result ≡ signed up down }
{
    up as i64 - down as i64
}

/// The sum of a general register and a number.
fn sum_of(base: u8, offset: i64) -> Expression
    ensures { result ≡ record { base = Register.General base; offset = offset; is_read = false } }
{
    Expression {
        base: Register::General(base),
        offset,
        is_read: false,
    }
}

/// The eight bytes at the sum of a register and a number.
fn read_at(base: Register, offset: i64) -> Expression
    ensures { result ≡ record { base = base; offset = offset; is_read = true } }
{
    Expression {
        base,
        offset,
        is_read: true,
    }
}

/// The rule of the caller's stack pointer.
fn cfa_rule(is_machine: bool, frame: Frame) -> Expression
    requires { frame.low < 2 ^ 48 }
    ensures { result ≡ cfa_rule_of is_machine frame }
{
    let down = u64::from(frame.offset);
    if is_machine {
        read_at(
            Register::General(frame.register),
            difference(frame.low + 24, down),
        )
    } else {
        sum_of(frame.register, difference(frame.low + 8, down))
    }
}

/// The rule of the return address.
fn return_rule(is_machine: bool, frame: Frame) -> Expression
    requires { frame.low < 2 ^ 48 }
    ensures { result ≡ return_rule_of is_machine frame }
{
    if is_machine {
        let offset = difference(frame.low, u64::from(frame.offset));
        read_at(Register::General(frame.register), offset)
    } else {
        read_at(Register::Cfa, -8)
    }
}

/// The rule of a register that was saved in this slot.
fn saved_rule(is_machine: bool, frame: Frame, saved: Saved) -> Expression
    requires low { frame.low < 2 ^ 48 }
    requires saved { IsShort saved }
    ensures { result ≡ saved_rule_of is_machine frame saved }
{
    let base = u64::from(frame.offset);
    match saved {
        Saved::Below(depth) if is_machine => read_at(
            Register::General(frame.register),
            difference(frame.low, base + depth),
        ),
        Saved::Below(depth) => read_at(Register::Cfa, difference(0, depth + 8)),
        Saved::Above(offset) if is_machine => read_at(
            Register::General(frame.register),
            difference(u64::from(offset), base),
        ),
        Saved::Above(offset) => {
            read_at(Register::Cfa, difference(u64::from(offset), frame.low + 8))
        }
    }
}

/// The rule of a general register with this slot, if it was saved.
fn slot_rule(is_machine: bool, frame: Frame, slot: Option<Saved>) -> Option<Expression>
    requires low { frame.low < 2 ^ 48 }
    requires slot { IfSome slot IsShort }
    ensures { result ≡ option_map (saved_rule_of is_machine frame) slot }
{
    match slot {
        Some(saved) => Some(saved_rule(is_machine, frame, saved)),
        None => None,
    }
}

/// The rules of the general registers with these slots, by their numbers.
fn saved_rules(
    is_machine: bool,
    frame: Frame,
    slots: &[Option<Saved>; 16],
) -> [Option<Expression>; 16]
    requires low { frame.low < 2 ^ 48 }
    requires slots { AreShort slots.now }
    ensures { result ≡ map (slot_rule_in is_machine frame slots.now) (range_with_len 0 16) }
{
    let mut rules = [None; 16];
    for register in 0..16 {
        rules[register] = slot_rule(is_machine, frame, slots[register]);
    }
    rules
}
