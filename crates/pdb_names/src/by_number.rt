//! A cache by the index of a module and a number in it, without a search.

ghost use Rattle.std.specs.Prelude.{◌≡◌, ◌<◌, ℕ, None, OnErr, OnOk, length, option_copied};
ghost use Rattle.pdb_names.specs.ByNumber.{kept_at, IsPut, IsSamePlaces};
ghost use Rattle.pdb_names.specs.CachedNames.{IsKept, IsSameKept};

use std::alloc::{AllocError, Global};

/// Cached values, each at a module's index and a number in the module, both counted from 0. A
/// look-up needs no search.
#[derive(Drop)]
pub struct ByNumber<V> {
    /// The places of each module, at the module's index. Modules past the last one with a cached
    /// value have none.
    modules: Vec<Vec<Option<V>>>,
}

/// Makes places up to a number, where there are none yet. What is cached stays.
fn make_places<V: Drop>(places: &mut Vec<Option<V>>, number: usize) -> Result<(), AllocError>
    ensures made { OnOk result (number < length places.new.items) }
    ensures same { IsSamePlaces places.old.items places.new.items }
{
    while places.len() <= number {
        places.push(None)?;
    }
    Ok(())
}

/// Puts a value at a number, in place of any that was there, and returns the number of places that
/// were made for it. When memory runs out, what is cached stays as it was.
fn put_at<V: Drop>(
    places: &mut Vec<Option<V>>,
    number: usize,
    value: V,
) -> Result<usize, AllocError>
    ensures kept { OnOk result (IsPut places.old.items places.new.items number value) }
    ensures failed { OnErr result (IsSamePlaces places.old.items places.new.items) }
{
    let before = places.len();
    make_places(places, number)?;
    let made = places.len().saturating_sub(before);
    places[number] = Some(value);
    Ok(made)
}

impl<V: Drop> ByNumber<V> {
    /// No values yet.
    pub fn new(alloc: Global) -> ByNumber<V>
        ensures { (m n : ℕ) → kept_at result m n ≡ None }
    {
        ByNumber {
            modules: Vec::new(alloc),
        }
    }

    /// The value cached at a number in the module at `module_index`, if there is one.
    pub fn get(&self, module_index: u16, number: usize) -> Option<&V>
        ensures { option_copied result ≡ kept_at self.now module_index number }
    {
        match self.modules.get(usize::from(module_index))?.get(number) {
            Some(Some(value)) => Some(value),
            _ => None,
        }
    }

    /// Makes a place for the values of the module at `module_index`, and for those of each module
    /// before it. What is cached stays.
    fn make_lists(&mut self, alloc: Global, module_index: u16) -> Result<(), AllocError>
        ensures reached { OnOk result (module_index < length self.new.modules.items) }
        ensures same { IsSameKept (kept_at self.old) (kept_at self.new) }
    {
        for _ in self.modules.len()..usize::from(module_index) + 1 {
            self.modules.push(Vec::new(alloc))?;
        }
        Ok(())
    }

    /// Caches a value at a number in the module at `module_index`, in place of any that was cached
    /// there, and returns the number of places that were made for it.
    ///
    /// # Errors
    /// `AllocError` when memory runs out. What is cached stays as it was then.
    pub fn insert(
        &mut self,
        alloc: Global,
        module_index: u16,
        number: usize,
        value: V,
    ) -> Result<usize, AllocError>
        ensures kept { OnOk result
            (IsKept (kept_at self.old) (kept_at self.new) module_index number value) }
        ensures failed { OnErr result (IsSameKept (kept_at self.old) (kept_at self.new)) }
    {
        self.make_lists(alloc, module_index)?;
        put_at(&mut self.modules[usize::from(module_index)], number, value)
    }
}
