//! Tables by which modules refer to one another.

/// A table of the module with that index, counted from 0.
#[derive(Clone, Copy)]
pub enum Table {
    /// The imports of the module.
    Imports(usize),
    /// The exports of the module.
    Exports(usize),
}
