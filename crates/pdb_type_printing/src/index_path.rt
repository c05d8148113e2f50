//! A path of indices, and whether an index is on it.

ghost use Rattle.std.specs.Prelude.{◌≡◌, ◌+◌, ◌<◌, ◌≤◌, ◌++◌, ◌∷◌, [], length, take};
ghost use Rattle.std.specs.Prelude.{IfOk, OnErr, OnOk};
ghost use Rattle.pdb_type_printing.specs.Paths.{is_on, may_enter};
ghost use Rattle.pdb_type_printing.specs.PathPlaces.{ArePlaced, is_placed};

use std::alloc::{AllocError, Global};
use std::marker::Model;

/// The number of indices that a path may have. So many levels fit in a stack of 4 MB: of sixteen
/// kinds of nests (`tests/stack.py`) the one that needs most takes 3.9 MB. docs/COSTS.md has the
/// stack, and the time that so many levels can take.
const MAX_LENGTH: usize = 1024;

/// The greatest number of indices of a path that gets no table.
const SHORT_LENGTH: usize = 32;

/// The count of numbers that an index's low bits can make, which is the length of a table.
const TABLE_LENGTH: u32 = 4096;

/// Whether an index is on a path.
fn is_on(path: &[u32], index: u32) -> bool
    ensures { result ≡ is_on path.now index }
{
    path.iter().any(|p| *p == index)
}

/// Whether the place that a table has for an index is one of a path's first `count`, and the index
/// there has the same low bits.
fn is_placed(table: &[u16], path: &[u32], count: usize, index: u32) -> bool
    requires table { length table.now ≡ 4096 }
    requires within { count ≤ length path.now }
    ensures { result ≡ is_placed table.now path.now count index }
{
    let place = table[(index % TABLE_LENGTH) as usize] as usize;
    place < count && path[place] % TABLE_LENGTH == index % TABLE_LENGTH
}

/// Puts the index after a path's first `count` into their table, unless one of them has the same
/// low bits.
fn put(table: &mut [u16], path: &[u32], count: usize)
    requires few { length path.now ≤ 1024 }
    requires within { count < length path.now }
    requires placed { ArePlaced table.old path.now count }
    ensures { ArePlaced table.new path.now (count + 1) }
{
    let index = path[count];
    if !is_placed(table, path, count, index) {
        table[(index % TABLE_LENGTH) as usize] = count as u16;
    }
}

/// The table of a path.
fn table_of(alloc: Global, path: &[u32]) -> Result<Vec<u16>, AllocError>
    requires { length path.now ≤ 1024 }
    ensures { IfOk result (λ t. ArePlaced t.items path.now (length path.now)) }
{
    let mut table = vec![in alloc; 0u16; TABLE_LENGTH as usize]?;
    for count in 0..path.len() {
        put(&mut table, path, count);
    }
    Ok(table)
}

/// The indices that led to a type or an id, in the order in which they were asked for. There are at
/// most 1,024.
///
/// A long path has a table, so that looking for an index takes no longer the longer the path is.
/// By the low bits of an index the table has the first place at which an index has them. If the
/// path has another index there, or ends before, then no index on it has these low bits. So the
/// table stays as it is when the path is cut.
pub struct IndexPath {
    alloc: Global,
    indices: Vec<u32>,
    /// The table, or nothing.
    table: Vec<u16>,
}

impl Model for IndexPath {
    ghost use Rattle.pdb_type_printing.specs.Paths.{Indices};
    ghost use Rattle.pdb_type_printing.specs.PathPlaces.{IsIndexed};

    ghost Value = { Indices };

    ghost view = { λ p. record { items = p.indices.items } };

    ghost invariant = { λ p. IsIndexed p.table.items p.indices.items };
}

impl Drop for IndexPath {
    #[inline(always)]
    fn drop(self) {
        let IndexPath {
            alloc: _,
            indices,
            table,
        } = self;
        drop(indices);
        drop(table);
    }
}

impl IndexPath {
    /// A path without indices.
    pub fn new(alloc: Global) -> IndexPath
        ensures items { result.items ≡ [] }
    {
        IndexPath {
            alloc,
            indices: Vec::new(alloc),
            table: Vec::new(alloc),
        }
    }

    /// The indices, in the order in which they were asked for.
    pub fn as_slice(&self) -> &[u32]
        ensures { result.now ≡ self.now.items }
    {
        self.indices.as_slice()
    }

    /// The number of indices.
    pub fn len(&self) -> usize
        ensures { result ≡ length self.now.items }
    {
        self.indices.len()
    }

    /// Whether an index is on the path.
    #[tactic(auto, using(crate::proofs::Placed::not_placed))]
    pub fn contains(&self, index: u32) -> bool
        ensures { result ≡ is_on self.now.items index }
    {
        let count = self.indices.len();
        if !self.table.is_empty() && !is_placed(&self.table, &self.indices, count, index) {
            return false;
        }
        is_on(&self.indices, index)
    }

    /// Whether an index may go on the path: it isn't there yet, and there are fewer than 1,024.
    pub fn may_enter(&self, index: u32) -> bool
        ensures { result ≡ may_enter self.now.items index }
    {
        self.indices.len() < MAX_LENGTH && !self.contains(index)
    }

    /// Puts an index at the end.
    ///
    /// # Errors
    /// `AllocError` when memory runs out; the path stays as it was.
    #[inline(never)]
    pub fn push(&mut self, index: u32) -> Result<(), AllocError>
        requires { length self.old.items < 1024 }
        ensures items { OnOk result (self.new.items ≡ self.old.items ++ index ∷ []) }
        ensures same { OnErr result (self.new.items ≡ self.old.items) }
    {
        let count = self.indices.len();
        if count >= SHORT_LENGTH && self.table.is_empty() {
            self.table = table_of(self.alloc, &self.indices)?;
        }
        self.indices.push(index)?;
        if !self.table.is_empty() {
            put(&mut self.table, &self.indices, count);
        }
        Ok(())
    }

    /// Cuts the path to its first `count` indices.
    pub fn truncate(&mut self, count: usize)
        ensures { self.new.items ≡ take count self.old.items }
    {
        self.indices.truncate(count);
    }
}
