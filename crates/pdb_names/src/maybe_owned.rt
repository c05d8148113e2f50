//! A value that is owned, or borrowed for writing.

ghost use Rattle.std.specs.Prelude.{◌≡◌, []};
ghost use Rattle.std.specs.Borrow.{sem, Lends};
ghost use mir.Syntax.{named};
ghost use Rattle.pdb_names.specs.MaybeOwned.{value_of, with_value};
ghost use Rattle.pdb_names.specs.contracts.maybe_owned.MaybeOwned.{the_row};

/// A value that is owned, or borrowed for writing.
#[derive(Drop)]
pub enum MaybeOwned<'a, T> {
    /// The value itself.
    Owned(T),
    /// A value that has another owner.
    Borrowed(&'a mut T),
}

impl<'a, T> MaybeOwned<'a, T> {
    /// The value.
    pub fn get(&self) -> &T
        ensures { result.now ≡ value_of self.now }
    {
        match self {
            MaybeOwned::Owned(value) => value,
            MaybeOwned::Borrowed(value) => value,
        }
    }

    /// The value, for writing: what is written through it is the value from then on.
    pub fn get_mut(&mut self) -> &mut T
        ensures* writes_back { sem 𝓛
            (Lends (the_row (record { mir = named 1; lft = [] }) T.row) T.row self.entry result
            (with_value self.old)) }
        ensures value { result.now ≡ value_of self.old }
    {
        match self {
            MaybeOwned::Owned(value) => value,
            MaybeOwned::Borrowed(value) => value,
        }
    }
}
