//! Flags of formatters: their operators, and the calls of `Flags`.

use pdb_addr2line::{Flags, TypeFormatterFlags};
use std::test::Fail;

const STATIC: TypeFormatterFlags = TypeFormatterFlags::NO_MEMBER_FUNCTION_STATIC;

const COMMA: TypeFormatterFlags = TypeFormatterFlags::SPACE_AFTER_COMMA;

const ARGUMENTS: TypeFormatterFlags = TypeFormatterFlags::NO_ARGUMENTS;

/// Returns the bits that the operators leave: of two flags together; of the flags that two sets
/// have in common; of the flags that only one of them has; of one set without the other; and of the
/// flags that a set lacks.
fn bits_of_operators() -> [u32; 5] {
    let both = STATIC | COMMA;
    let other = COMMA | ARGUMENTS;
    [
        both.bits(),
        (both & other).bits(),
        (both ^ other).bits(),
        (both - other).bits(),
        (!both).bits(),
    ]
}

/// Returns the bits that the assigning operators leave.
fn bits_of_assignments() -> [u32; 4] {
    let mut together = STATIC;
    together |= COMMA;
    let mut common = together;
    common &= COMMA | ARGUMENTS;
    let mut one = together;
    one ^= COMMA | ARGUMENTS;
    let mut less = together;
    less -= COMMA | ARGUMENTS;
    [together.bits(), common.bits(), one.bits(), less.bits()]
}

#[test]
fn operators_on_flags(rt: HostRuntime) -> Result<(), Fail> {
    assert_eq!(rt; bits_of_operators(), [6, 4, 34, 2, 57]);
    assert_eq!(rt; bits_of_assignments(), [6, 4, 34, 2]);
    assert_eq!(rt; TypeFormatterFlags::default().bits(), 23);
    assert!(rt; (STATIC | COMMA).contains(COMMA));
    assert!(rt; !STATIC.contains(COMMA));
    Ok(())
}

/// Each flag, in the order of its bit.
const NAMED: [TypeFormatterFlags; 6] = [
    TypeFormatterFlags::NO_FUNCTION_RETURN,
    STATIC,
    COMMA,
    TypeFormatterFlags::SPACE_BEFORE_POINTER,
    TypeFormatterFlags::NAME_ONLY,
    ARGUMENTS,
];

#[test]
fn bits_of_flags(rt: HostRuntime) {
    assert_eq!(rt; NAMED.map(|flag| flag.bits()), [1, 2, 4, 8, 16, 32]);
}
