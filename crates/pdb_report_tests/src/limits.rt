//! Inputs that are longer than the limit, and one that is exactly as long.

use crate::files::F;
use pdb_report::{AtEnd, RunFault, Symbolizer, Watched, answer_lines};
use std::alloc::Global;
use std::io::{self, Read};
use std::test::Fail;

/// The answer to the line 1014 from file F.
const ANSWER: &[u8] = b"0x00001014\n  f at a.c:5 @0x00001010+8\n";

/// A reader that gives the same bytes at each of `times` calls, and then its end.
#[derive(Drop)]
struct Repeated {
    bytes: &'static [u8],
    times: usize,
}

impl Read for Repeated {
    fn read(&mut self, buf: &mut [u8]) -> io::Result<usize> {
        if self.times == 0 {
            return Ok(0);
        }
        self.times -= 1;
        let count = buf.len().min(self.bytes.len());
        buf[..count].copy_from_slice(&self.bytes[..count]);
        Ok(count)
    }
}

/// The bytes that are read again and again, how often, the limit, what is written, and whether the
/// input is too long.
type Case = (&'static [u8], usize, u64, &'static [u8], bool);

const CASES: &[Case] = &[
    (b"1014\n", usize::MAX, 8, ANSWER, true),
    // The limit lies inside one read.
    (b"1014\n1014\n1014\n", usize::MAX, 8, ANSWER, true),
    (b"z", usize::MAX, 100, b"", true),
    (b"1014\n", 1, 5, ANSWER, false),
    (b"1014\n", 1, 4, b"", true),
];

/// Answers the lines of a case from file F, and returns what is written, and how the run ends.
fn answered(alloc: Global, case: &Case) -> Result<(Vec<u8>, Result<(), RunFault>), Fail> {
    let symbolizer = match Symbolizer::open(alloc, F.bytes(alloc)?) {
        Ok(symbolizer) => symbolizer,
        Err(_) => Symbolizer::open(alloc, F.bytes(alloc)?)?,
    };
    let (bytes, times, limit, _, _) = *case;
    let mut out = Vec::new(alloc);
    let outcome = answer_lines(
        alloc,
        &symbolizer,
        &mut Watched::new(Repeated { bytes, times }),
        &mut Watched::new(&mut out),
        AtEnd::GiveBack,
        limit,
    );
    Ok((out, outcome))
}

/// Returns whether a case ends as it should. If memory runs out, it is tried once more.
fn is_limited(alloc: Global, case: &Case) -> Result<bool, Fail> {
    let mut found = answered(alloc, case)?;
    if found.1 == Err(RunFault::OutOfMemory) {
        found = answered(alloc, case)?;
    }
    let (_, _, _, out, is_too_long) = *case;
    let wanted = if is_too_long {
        Err(RunFault::InputTooLong)
    } else {
        Ok(())
    };
    Ok(found.0.as_slice() == out && found.1 == wanted)
}

#[test]
fn limits(rt: HostRuntime) -> Result<(), Fail> {
    for case in CASES {
        assert!(rt;
            is_limited(rt.alloc(), case)?,
            "up to {} bytes of {:?}",
            case.2,
            case.0
        );
    }
    Ok(())
}
