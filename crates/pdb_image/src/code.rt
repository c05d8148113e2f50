//! Unwind codes.

/// The operation of an unwind code: what a step of a prolog did.
#[derive(Clone, Copy, Debug, PartialEq, Eq)]
pub enum UnwindOperation {
    /// It pushed the register of this number.
    Push(u8),
    /// It took so many bytes of the stack.
    Allocate(u32),
    /// It set the register of this number, so many bytes above the stack pointer.
    SetFrame(u8, u8),
    /// It saved the register of this number so many bytes above the frame's lowest address.
    Save(u8, u32),
    /// The processor had pushed a machine frame (an interrupt's), with an error code or without
    /// one.
    MachineFrame(bool),
}

/// An unwind code: a step of a prolog, and where it ends.
#[derive(Clone, Copy, Debug, PartialEq, Eq)]
pub struct UnwindCode {
    /// The offset of the step's end from the function's begin, in bytes; 0 for the codes of a
    /// parent.
    pub offset: u8,
    /// The step's operation.
    pub operation: UnwindOperation,
}
