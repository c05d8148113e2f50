//! The law of unwinding: a function that does nothing, whose contract is proved.

ghost use Rattle.pdb_image.specs.Entries.{UnwoundFunction as Function};
ghost use Rattle.pdb_image.specs.Reading.{IsUnwound};

/// The records of a function, read as a consumer of symbol files does, give at each of its
/// addresses the rules that the steps of its prolog give which are done by then: of the caller's
/// stack pointer, of the return address, and of each general register but the stack pointer the
/// rule, or none.
pub fn unwinding()
    ensures { (f : Function) → IsUnwound f }
{}
