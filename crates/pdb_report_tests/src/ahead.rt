//! The number of texts that are made ahead of their turn to be written.

use pdb_engine::{AddressStart, Answers, InputFault, Watched, parse_address, run};
use std::alloc::{AllocError, Global};
use std::io::{self, Write};
use std::test::Fail;

/// A value that answers each line with a long text, whose first byte is the number of the call.
/// Lines come before those with lesser addresses.
#[derive(Drop)]
struct Numbered {
    calls: u8,
    text: Vec<u8>,
}

impl Answers for Numbered {
    type Start = AddressStart;

    ghost use Rattle.std.specs.Prelude.{[]};

    ghost known = { λ _. ⊥ };

    ghost text = { λ _ _. [] };

    ghost subject = { λ _. [] };

    fn place(&self, line: &[u8]) -> u32 {
        match parse_address(line) {
            Some(address) => u32::MAX - address,
            None => 0,
        }
    }

    fn answer(
        &mut self,
        _alloc: Global,
        _line: &[u8],
        output: &mut Vec<u8>,
    ) -> Result<(), AllocError> {
        self.calls = self.calls.saturating_add(1);
        if let Some(number) = self.text.first_mut() {
            *number = self.calls;
        }
        output.extend_from_slice(&self.text)
    }
}

/// A writer that takes all bytes that it is given, and stores the first of each call, up to sixteen
/// of them.
#[derive(Drop)]
struct FirstBytes {
    bytes: [u8; 16],
    calls: usize,
}

impl Write for FirstBytes {
    fn write(&mut self, buf: &[u8]) -> io::Result<usize> {
        if let (Some(slot), Some(byte)) = (self.bytes.get_mut(self.calls), buf.first()) {
            *slot = *byte;
        }
        self.calls = self.calls.saturating_add(1);
        Ok(buf.len())
    }

    fn flush(&mut self) -> io::Result<()> {
        Ok(())
    }
}

/// The number of bytes of each text, lines that one read gives, and the numbers of the calls that
/// made their texts.
type Case = (usize, &'static [u8], &'static [u8]);

// A text has 65,536 bytes at least, so each is written by a call of its own.
const CASES: &[Case] = &[
    (65_536, b"1\n2\n3\n", &[3, 2, 1]),
    (65_536, b"3\n2\n1\n", &[1, 2, 3]),
    // Eight texts of 1 MB are made ahead. The ninth would begin at byte 8,388,608.
    (
        1_048_576,
        b"1\n2\n3\n4\n5\n6\n7\n8\n9\na\nb\nc\n",
        &[9, 10, 11, 12, 8, 7, 6, 5, 4, 3, 2, 1],
    ),
    // The second text begins at byte 8,388,607.
    (8_388_607, b"1\n2\n3\n4\n", &[3, 4, 2, 1]),
];

/// Answers the lines of a case, and returns the first byte of each write, the number of writes, and
/// how the run ends.
fn answered(alloc: Global, case: &Case) -> Result<(FirstBytes, Result<(), InputFault>), Fail> {
    let (size, lines, _) = *case;
    let mut answers = Numbered {
        calls: 0,
        text: vec![in alloc; 0u8; size]?,
    };
    let mut firsts = FirstBytes {
        bytes: [0; 16],
        calls: 0,
    };
    let outcome = run(
        alloc,
        &mut answers,
        &mut Watched::new(lines),
        &mut Watched::new(&mut firsts),
        64,
    );
    Ok((firsts, outcome))
}

/// Returns whether a case's texts are made in the right order. If memory runs out, it is tried once
/// more.
fn is_bounded(alloc: Global, case: &Case) -> Result<bool, Fail> {
    let mut found = answered(alloc, case)?;
    if found.1 == Err(InputFault::OutOfMemory) {
        found = answered(alloc, case)?;
    }
    let (_, _, numbers) = *case;
    let (firsts, outcome) = found;
    Ok(outcome == Ok(()) && firsts.bytes.get(..firsts.calls) == Some(numbers))
}

#[test]
fn texts_made_ahead(rt: HostRuntime) -> Result<(), Fail> {
    for case in CASES {
        assert!(rt;
            is_bounded(rt.alloc(), case)?,
            "texts of {} bytes for {:?}",
            case.0,
            case.1
        );
    }
    Ok(())
}
