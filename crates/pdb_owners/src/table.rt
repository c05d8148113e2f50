//! A table of answers with their counts.

ghost use Rattle.std.specs.Prelude.{◌≡◌, ◌+◌, ◌^◌, ◌<◌, ◌≤◌, [], Some, OnOk, OnErr};
ghost use Rattle.pdb_owners.specs.Table.{IsTable, IsAdded, count_in, sum_of};

use crate::countable::Countable;
use std::alloc::{AllocError, Global};
use std::collections::BTreeMap;
use std::marker::Model;

/// Answers in their order, each with its count: the number of its addresses, or of its bytes.
#[derive(Drop)]
pub struct Counts<A: Countable> {
    by_answer: BTreeMap<A, u64>,
    total: u64,
}

impl<A: Countable> Model for Counts<A> {
    ghost use Rattle.std.specs.Prelude.{◌≡◌, ℕ, List};
    ghost use Rattle.pdb_owners.specs.Table.{IsTable, sum_of};

    ghost Value = { List (A × ℕ) };

    ghost view = { λ t. t.by_answer.entries };

    ghost invariant = { λ t. IsTable A.cmp t.by_answer.entries × (sum_of t.by_answer.entries
        ≡ t.total) };
}

impl<A: Countable> Counts<A> {
    /// Makes a table without answers.
    pub fn new(alloc: Global) -> Counts<A>
        ensures { result ≡ [] }
    {
        Counts {
            by_answer: BTreeMap::new(alloc),
            total: 0,
        }
    }

    /// Returns the sum of all counts.
    pub fn total(&self) -> u64
        ensures total { result ≡ sum_of self.now }
        ensures table { IsTable A.cmp self.now }
    {
        self.total
    }

    /// Returns the number of addresses of an answer; 0 where it isn't there.
    pub(crate) fn count_of(&self, answer: &A) -> u64
        ensures { result ≡ count_in A.cmp self.now answer.now }
    {
        self.by_answer.get(answer).copied().unwrap_or(0)
    }

    /// Returns answers in their order, each with its count, which is 1 or more.
    pub fn by_answer(&self) -> &BTreeMap<A, u64>
        ensures entries { result.now.entries ≡ self.now }
        ensures table { IsTable A.cmp self.now }
    {
        &self.by_answer
    }

    /// Adds to the count of an answer, if there is one.
    ///
    /// # Errors
    /// `AllocError` when memory runs out.
    pub fn add_answer(&mut self, answer: Option<A>, count: u64) -> Result<(), AllocError>
        requires some { 1 ≤ count }
        requires room { sum_of self.old + count < 2 ^ 64 }
        ensures { OnOk result (IsAdded self.old answer count self.new) }
    {
        match answer {
            None => Ok(()),
            Some(answer) => self.add(answer, count),
        }
    }

    /// Adds to the count of an answer.
    ///
    /// # Errors
    /// `AllocError` when memory runs out.
    pub fn add(&mut self, answer: A, count: u64) -> Result<(), AllocError>
        requires some { 1 ≤ count }
        requires room { sum_of self.old + count < 2 ^ 64 }
        ensures { OnOk result (IsAdded self.old (Some answer) count self.new) }
    {
        raise(&mut self.by_answer, answer, count)?;
        self.total += count;
        Ok(())
    }
}

/// Adds to the count of an answer.
fn raise<A: Countable>(
    numbers: &mut BTreeMap<A, u64>,
    answer: A,
    count: u64,
) -> Result<(), AllocError>
    requires some { 1 ≤ count }
    requires room { sum_of numbers.old.entries + count < 2 ^ 64 }
    requires table { IsTable A.cmp numbers.old.entries }
    ensures ok { OnOk result (IsAdded numbers.old.entries (Some answer) count numbers.new.entries) }
    ensures err { OnErr result (numbers.new.entries ≡ numbers.old.entries) }
    ensures table { IsTable A.cmp numbers.new.entries }
{
    let before = numbers.get(&answer).copied().unwrap_or(0);
    numbers.insert(answer, before + count)?;
    Ok(())
}
