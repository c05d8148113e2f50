//! The limit on the pieces and bytes that are printed for a name.

ghost use Rattle.std.specs.Prelude.{◌≡◌, ◌+◌, ◌-◌, ◌^◌, ◌≤◌};

/// The most pieces and bytes that are printed for a name, with those parts that are printed to be
/// referred to. MSVC cuts decorated names off at 4,096 characters: in place of a longer one it
/// writes `??@`, a digest and `@`. The text of a name of a hundred that refers back to references
/// could otherwise have any length.
const MOST_PRINTED: usize = 1 << 20;

/// The numbers of pieces and bytes that were printed for a name, and how many more may be.
#[derive(Clone, Copy)]
pub(crate) struct Budget {
    /// The number of pieces that were printed.
    pub(crate) pieces: usize,
    /// The number of bytes of the texts.
    pub(crate) bytes: usize,
    /// The number of pieces and bytes that may still be printed.
    pub(crate) left: usize,
    ghost whole: { pieces + bytes + left ≡ 2 ^ 20 },
}

impl Budget {
    /// A budget of which nothing was printed.
    pub(crate) fn new() -> Budget {
        Budget {
            pieces: 0,
            bytes: 0,
            left: MOST_PRINTED,
        }
    }

    /// The budget after so many pieces and bytes more.
    pub(crate) fn after(self, pieces: usize, bytes: usize) -> Budget
        requires { pieces + bytes ≤ self.left }
        ensures pieces { result.pieces ≡ self.pieces + pieces }
        ensures bytes { result.bytes ≡ self.bytes + bytes }
    {
        Budget {
            pieces: self.pieces + pieces,
            bytes: self.bytes + bytes,
            left: self.left - (pieces + bytes),
        }
    }
}
