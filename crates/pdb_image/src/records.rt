//! The records of a symbol file that say how a function is unwound.

ghost use Rattle.std.specs.Prelude.{◌≡◌, ◌++◌, ◌-◌, ◌<◌, ◌≤◌, OnOk, string_bytes, None, ◌==◌};
ghost use Rattle.std.specs.List.{flat_map, list_any};
ghost use Rattle.pdb_image.specs.Rules.{last_offset as last_offset_of, rules_at};
ghost use Rattle.pdb_image.specs.Rules.{rule as rule_in};
ghost use Rattle.pdb_image.specs.Records.{change_at, changed as changed_of, changes_of};
ghost use Rattle.pdb_image.specs.Records.{is_some_rule, records_of};
ghost use Rattle.pdb_image.specs.Records.{registers as named_registers};
ghost use Rattle.pdb_image.specs.Texts.{change_text, changes_text, records_text};
ghost use Rattle.pdb_image.specs.Texts.{changed_text, Appends};

use crate::code::UnwindCode;
use crate::frame::Tail;
use crate::functions::UnwoundFunction;
use crate::rules::{Expression, REGISTERS, Register, Rules};
use crate::texts::append_rule;
use std::alloc::AllocError;

/// A register's rule, if it isn't what it was.
#[tactic(auto, using(crate::proofs::Offsets::changed_same, crate::proofs::Offsets::changed_other))]
fn changed(old: Option<Expression>, new: Option<Expression>) -> Option<Expression>
    ensures { result ≡ changed_of old new }
{
    if old == new { None } else { new }
}

/// The registers that records name, in their order.
#[tactic(auto, unfolding(crate::specs::Records::registers))]
fn registers() -> &'static [Register]
    ensures { result.now ≡ named_registers }
{
    &REGISTERS
}

/// Whether the rule of one of these registers isn't what it was.
#[tactic(auto, using(crate::proofs::Offsets::nothing_more, crate::proofs::Offsets::nothing_changed))]
fn has_changes(names: &[Register], old: &Rules, new: &Rules) -> bool
    ensures { result ≡ is_some_rule (changes_of (rule_in old.now) (rule_in new.now) names.now) }
{
    for name in names {
        if changed(old.rule(*name), new.rule(*name)).is_some() {
            return true;
        }
    }
    false
}

/// Appends the rules of these registers at a function's begin.
#[tactic(auto, using(crate::proofs::Offsets::rule_appended, crate::proofs::Offsets::rule_left, crate::proofs::Offsets::rules_end))]
fn append_rules(text: &mut String, names: &[Register], rules: &Rules) -> Result<(), AllocError>
    ensures { OnOk result (Appends text.old text.new
        (changed_text (λ r. None) (rule_in rules.now) names.now)) }
{
    for name in names {
        let Some(expression) = changed(None, rules.rule(*name)) else {
            continue;
        };
        append_rule(text, *name, expression)?;
    }
    text.push_str("\n")
}

/// Appends the rules of these registers that aren't what they were.
#[tactic(auto, using(crate::proofs::Offsets::rule_appended, crate::proofs::Offsets::rule_left, crate::proofs::Offsets::rules_end))]
fn append_changes(
    text: &mut String,
    names: &[Register],
    old: &Rules,
    new: &Rules,
) -> Result<(), AllocError>
    ensures { OnOk result (Appends text.old text.new
        (changed_text (rule_in old.now) (rule_in new.now) names.now)) }
{
    for name in names {
        let Some(expression) = changed(old.rule(*name), new.rule(*name)) else {
            continue;
        };
        append_rule(text, *name, expression)?;
    }
    text.push_str("\n")
}

/// Appends the record at an address, if some rule isn't what it was.
#[tactic(auto, using(crate::proofs::Offsets::no_change_text, crate::proofs::Offsets::change_line))]
fn append_change(
    text: &mut String,
    address: u32,
    old: &Rules,
    new: &Rules,
) -> Result<(), AllocError>
    ensures { OnOk result (Appends text.old text.new (flat_map change_text
        (change_at address (changes_of (rule_in old.now) (rule_in new.now) named_registers)))) }
{
    if !has_changes(registers(), old, new) {
        return Ok(());
    }
    write!(text, "STACK CFI {address:x}")?;
    append_changes(text, registers(), old, new)
}

/// Whether a step is done at an offset, and not yet before it.
fn is_step_at(codes: &[UnwindCode], offset: u32) -> bool
    ensures { result ≡ list_any (λ code. code.offset == offset) codes.now }
{
    codes.iter().any(|code| u32::from(code.offset) == offset)
}

/// The last offset at which a step ends, or 0.
#[tactic(auto, using(crate::proofs::Offsets::last_more, crate::proofs::Offsets::last_found))]
fn last_offset(codes: &[UnwindCode]) -> u32
    ensures last { result ≡ last_offset_of codes.now }
    ensures small { result < 256 }
{
    let mut last = 0;
    for code in codes {
        last = u32::from(code.offset).max(last);
    }
    last
}

impl UnwoundFunction {
    /// Appends the function's records: the line `STACK CFI INIT`, and a line `STACK CFI` for each
    /// later address at which some rule isn't what it is one byte before.
    ///
    /// # Errors
    /// `AllocError` when memory runs out.
    pub fn append_records(&self, text: &mut String) -> Result<(), AllocError>
        ensures { OnOk result (string_bytes text.new
            ≡ string_bytes text.old ++ records_text (records_of self.now)) }
    {
        let (begin, size) = (self.begin(), self.end() - self.begin());
        write!(text, "STACK CFI INIT {begin:x} {size:x}")?;
        let rules = self.rules_at(0);
        append_rules(text, registers(), &rules)?;
        self.append_all_changes(text, rules)
    }

    /// Appends the records `STACK CFI`.
    #[tactic(auto, using(crate::proofs::Offsets::offset_changed, crate::proofs::Offsets::offset_same, crate::proofs::Offsets::rules_same, crate::proofs::Offsets::offsets_end))]
    fn append_all_changes(&self, text: &mut String, rules: Rules) -> Result<(), AllocError>
        requires { rules ≡ rules_at self.now.codes 0 }
        ensures { OnOk result (Appends text.old text.new
            (changes_text self.now (self.now.end - self.now.begin - 1))) }
    {
        let (size, codes) = (self.end() - self.begin(), self.codes());
        let tail = Tail::of(codes);
        let front = &codes[..tail.begin];
        let mut rules = rules;
        let end = size.min(last_offset(codes) + 1);
        for offset in 1..end {
            if !is_step_at(front, offset) {
                continue;
            }
            let new = Rules::above(codes, &tail, offset);
            append_change(text, self.begin() + offset, &rules, &new)?;
            rules = new;
        }
        Ok(())
    }
}
