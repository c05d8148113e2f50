//! Values, and the columns that they stand in.

/// A value of a row.
#[derive(Clone, Copy)]
pub enum Value<'v> {
    /// A value that isn't known.
    Unknown,
    /// A number, in decimal digits.
    Number(u64),
    /// An address: `0x` and eight hexadecimal digits or more.
    Address(u32),
    /// A change: whether a number rose, and by how much it rose or fell.
    Change(bool, u64),
    /// A share of a whole, in tenths of a percent.
    Share(u64),
    /// A text.
    Text(&'v str),
}

/// A column of a listing.
#[derive(Clone, Copy)]
pub struct Column {
    /// Its name.
    pub name: &'static str,
    /// The text before a value in a line for people.
    pub before: &'static str,
    /// The least number of bytes of a value in such a line: blanks before it fill it up.
    pub width: usize,
}

/// A value in a column.
#[derive(Clone, Copy)]
pub struct Field<'v> {
    /// The column.
    pub column: Column,
    /// The value.
    pub value: Value<'v>,
}
