//! Indices of types and of ids.

ghost use Rattle.std.specs.Prelude.{◌≡◌, ◌<◌, ◌^◌, ℕ};
ghost use Rattle.pdb_container.specs.Index.{is_cross_module};

/// An index of the TPI (types) or the IPI (ids), 32 bits wide. Each of the two has its own type.
pub trait ItemIndex: Copy + Default + PartialEq + PartialOrd + From<u32> + Into<u32> {
    /// The index as a number.
    ghost number: { Self → ℕ };

    /// A number as the index.
    ghost index: { ℕ → Self };

    /// Whether bit 31 is set: then the index leads into another module.
    fn is_cross_module(self) -> bool
        ensures { result ≡ is_cross_module (number self) };

    /// Converting a number to an index and back gives the same number.
    ghost there_and_back: { (n : ℕ) → n < 2 ^ 32 → number (index n) ≡ n };

    /// Converting an index to a number and back gives the same index.
    ghost back_and_there: { (x : Self) → index (number x) ≡ x };

    /// `from` returns the number's index.
    ghost from_number: { (n : ℕ) (x : Self) → n < 2 ^ 32 → Self.From.from_gives n x → x ≡ index n };

    /// `into` returns the index's number.
    ghost to_number: { (x : Self) (n : ℕ) → Self.Into.converts x n → n ≡ number x };
}

/// A type index: the index of a type in the TPI (stream 2).
#[derive(Clone, Copy, Debug, Default, PartialEq, Eq, PartialOrd, Ord, Hash)]
pub struct TypeIndex(pub u32);

impl From<u32> for TypeIndex {
    ghost from_gives = { λ n x. x.0 ≡ n };

    fn from(number: u32) -> TypeIndex {
        TypeIndex(number)
    }
}

impl From<TypeIndex> for u32 {
    ghost from_gives = { λ x n. n ≡ x.0 };

    fn from(index: TypeIndex) -> u32 {
        index.0
    }
}

impl ItemIndex for TypeIndex {
    ghost use Rattle.std.specs.Prelude.{refl};
    ghost use Rattle.pdb_container.specs.TypeIndex.{type_index, type_index_from, type_index_into};

    ghost number = { λ x. x.0 };

    ghost index = { type_index };

    fn is_cross_module(self) -> bool {
        has_bit_31(self.0)
    }

    ghost there_and_back = { λ n h. refl };

    ghost back_and_there = { λ x. refl };

    ghost from_number = { type_index_from };

    ghost to_number = { type_index_into };
}

/// An id index: the index of a function, a text or a place in the source in the IPI (stream 4).
#[derive(Clone, Copy, Debug, Default, PartialEq, Eq, PartialOrd, Ord, Hash)]
pub struct IdIndex(pub u32);

impl From<u32> for IdIndex {
    ghost from_gives = { λ n x. x.0 ≡ n };

    fn from(number: u32) -> IdIndex {
        IdIndex(number)
    }
}

impl From<IdIndex> for u32 {
    ghost from_gives = { λ x n. n ≡ x.0 };

    fn from(index: IdIndex) -> u32 {
        index.0
    }
}

impl ItemIndex for IdIndex {
    ghost use Rattle.std.specs.Prelude.{refl};
    ghost use Rattle.pdb_container.specs.IdIndex.{id_index, id_index_from, id_index_into};

    ghost number = { λ x. x.0 };

    ghost index = { id_index };

    fn is_cross_module(self) -> bool {
        has_bit_31(self.0)
    }

    ghost there_and_back = { λ n h. refl };

    ghost back_and_there = { λ x. refl };

    ghost from_number = { id_index_from };

    ghost to_number = { id_index_into };
}

/// A cross-module index: an index as one module names it. Where bit 31 is set, it leads into
/// another module.
#[derive(Clone, Copy, Debug, Default, PartialEq, Eq, PartialOrd, Ord, Hash)]
pub struct Local<I>(pub I);

fn has_bit_31(number: u32) -> bool
    ensures { result ≡ is_cross_module number }
{
    number & 0x8000_0000 != 0
}
