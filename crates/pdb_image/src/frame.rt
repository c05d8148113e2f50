//! The frame that the steps of a prolog have made, at an offset.

ghost use Rattle.std.specs.Prelude.{◌≡◌, ◌+◌, ◌^◌, ◌<◌, ◌≤◌, ◌∷◌, List, [], length};
ghost use Rattle.std.specs.Prelude.{Some, slice_set};
ghost use Rattle.pdb_image.specs.Rules.{done, frame as frame_of, growth_of as growth_by};
ghost use Rattle.pdb_image.specs.Rules.{IsTail, steps_after, steps_of};
ghost use Rattle.pdb_image.specs.declared.code.UnwindCode.{UnwindCode as Code};

use crate::code::{UnwindCode, UnwindOperation};

/// The number of the stack pointer among the general registers.
const STACK_POINTER: u8 = 4;

/// A frame: the register that finds it, the register's distance above the frame's lowest address,
/// and the distance of this address below the slot of the return address, both in bytes.
#[derive(Clone, Copy)]
pub(crate) struct Frame {
    pub(crate) register: u8,
    pub(crate) offset: u8,
    pub(crate) low: u64,
}

/// The slot in which a register was saved: so far below the slot of the return address, or so far
/// above the frame's lowest address, in bytes.
#[derive(Clone, Copy)]
pub(crate) enum Saved {
    Below(u64),
    Above(u32),
}

/// The effect of steps: the distance of the slot of the return address above the stack pointer, in
/// bytes, the frame that was set, whether there is a machine frame, and the slots in which general
/// registers were saved, by their numbers.
#[derive(Clone, Copy)]
pub(crate) struct Steps {
    pub(crate) depth: u64,
    pub(crate) frame: Option<Frame>,
    pub(crate) is_machine: bool,
    pub(crate) slots: [Option<Saved>; 16],
}

impl Steps {
    /// The effect of no step.
    #[tactic(auto, using(crate::proofs::Steps::nothing_done))]
    fn none() -> Steps
        ensures { result ≡ steps_of [] }
    {
        Steps {
            depth: 0,
            frame: None,
            is_machine: false,
            slots: [None; 16],
        }
    }

    /// The frame; the stack pointer's, if none was set.
    #[tactic(auto, using(crate::proofs::Steps::frame_low))]
    pub(crate) fn frame(&self) -> Frame
        ensures frame { (steps : List Code) → self.now ≡ steps_of steps → result ≡ frame_of steps }
        ensures low { (steps : List Code) → self.now ≡ steps_of steps → self.now.depth < 2 ^ 48
            → result.low < 2 ^ 48 }
    {
        self.frame.unwrap_or(Frame {
            register: STACK_POINTER,
            offset: 0,
            low: self.depth,
        })
    }

    /// Adds the effect of one more step.
    fn take(&mut self, operation: UnwindOperation)
        requires { self.now.depth < 2 ^ 62 }
        ensures steps { self.new ≡ steps_after operation self.old }
        ensures depth { self.new.depth ≤ self.old.depth + 2 ^ 32 }
    {
        let low = self.depth;
        self.depth += growth_of(operation);
        match operation {
            UnwindOperation::Push(register) => {
                put(&mut self.slots, register, Saved::Below(self.depth));
            }
            UnwindOperation::Save(register, offset) => {
                put(&mut self.slots, register, Saved::Above(offset));
            }
            UnwindOperation::SetFrame(register, offset) => {
                self.frame = Some(Frame {
                    register,
                    offset,
                    low,
                });
            }
            UnwindOperation::MachineFrame(_) => self.is_machine = true,
            UnwindOperation::Allocate(_) => {}
        }
    }

    /// Adds the effect of a code, if its step is done at an offset.
    #[tactic(auto, using(crate::proofs::Steps::step_counted, crate::proofs::Steps::step_passed))]
    fn count(&mut self, code: UnwindCode, offset: u32)
        requires { self.now.depth < 2 ^ 62 }
        ensures steps { (before : List Code) → self.old ≡ steps_of (done offset before)
            → self.new ≡ steps_of (done offset (code ∷ before)) }
        ensures depth { self.new.depth ≤ self.old.depth + 2 ^ 32 }
    {
        if u32::from(code.offset) <= offset {
            self.take(code.operation);
        }
    }
}

/// Puts the slot of a register in place of the one before, if it is a general register.
#[tactic(auto, using(crate::proofs::Steps::not_put))]
fn put(slots: &mut [Option<Saved>; 16], register: u8, saved: Saved)
    ensures { slots.new ≡ slice_set slots.old register (Some saved) }
{
    if register < 16 {
        slots[usize::from(register)] = Some(saved);
    }
}

/// The number of bytes by which a step lowers the stack pointer below the slot of the return
/// address.
fn growth_of(operation: UnwindOperation) -> u64
    ensures growth { result ≡ growth_by operation }
    ensures small { result < 2 ^ 32 }
{
    match operation {
        UnwindOperation::Push(_) => 8,
        UnwindOperation::Allocate(size) => u64::from(size),
        UnwindOperation::MachineFrame(has_error_code) if has_error_code => 8,
        _ => 0,
    }
}

/// The tail of codes: those after the last one whose offset isn't 0, so that their steps are done
/// at each offset; where it begins in the codes, and the effect of its steps.
#[derive(Drop)]
pub(crate) struct Tail {
    pub(crate) begin: usize,
    pub(crate) steps: Steps,
}

impl Tail {
    /// The tail of codes.
    #[tactic(auto, using(crate::proofs::Steps::steps_more, crate::proofs::Steps::steps_none, crate::proofs::Steps::tail_more, crate::proofs::Steps::tail_none))]
    pub(crate) fn of(codes: &[UnwindCode]) -> Tail
        requires { length codes.now < 2 ^ 16 }
        ensures { IsTail codes.now result }
    {
        let mut steps = Steps::none();
        let mut begin = codes.len();
        while begin > 0 && codes[begin - 1].offset == 0 {
            begin -= 1;
            steps.count(codes[begin], 0);
        }
        Tail { begin, steps }
    }
}

/// The effect of the steps that are done at an offset, made on top of that of the codes' tail.
#[tactic(auto, using(crate::proofs::Steps::steps_more, crate::proofs::Steps::tail_steps))]
pub(crate) fn steps_at(codes: &[UnwindCode], tail: &Tail, offset: u32) -> Steps
    requires count { length codes.now < 2 ^ 16 }
    requires tail { IsTail codes.now tail.now }
    ensures steps { result ≡ steps_of (done offset codes.now) }
    ensures depth { result.depth < 2 ^ 48 }
{
    let mut steps = tail.steps;
    let mut left = tail.begin;
    while left > 0 {
        left -= 1;
        steps.count(codes[left], offset);
    }
    steps
}
