//! A cache by the index of a module and a number in it.

ghost use Rattle.std.specs.Prelude.{◌≡◌, ◌<◌, ℕ, None, OnErr, OnOk, length, option_copied};
ghost use Rattle.pdb_names.specs.ByModule.{kept_at};
ghost use Rattle.pdb_names.specs.CachedNames.{IsKept, IsSameKept};

use std::alloc::{AllocError, Global};
use std::collections::BTreeMap;

/// Cached values, each under a module's index and a number in the module. A module's own map is
/// small, so that a look-up visits few of its nodes.
#[derive(Drop)]
pub struct ByModule<V> {
    /// The values of each module, at the module's index. Modules past the last one with a cached
    /// value have no place.
    modules: Vec<BTreeMap<u32, V>>,
}

impl<V: Drop> ByModule<V> {
    /// No values yet.
    pub fn new(alloc: Global) -> ByModule<V>
        ensures { (m n : ℕ) → kept_at result m n ≡ None }
    {
        ByModule {
            modules: Vec::new(alloc),
        }
    }

    /// The value cached under a number in the module at `module_index`, if there is one.
    pub fn get(&self, module_index: u16, number: u32) -> Option<&V>
        ensures { option_copied result ≡ kept_at self.now module_index number }
    {
        let Some(values) = self.modules.get(usize::from(module_index)) else {
            return None;
        };
        values.get(&number)
    }

    /// Makes a place for the values of the module at `module_index`, and for those of each module
    /// before it. What is cached stays.
    fn make_maps(&mut self, alloc: Global, module_index: u16) -> Result<(), AllocError>
        ensures reached { OnOk result (module_index < length self.new.modules.items) }
        ensures same { IsSameKept (kept_at self.old) (kept_at self.new) }
    {
        for _ in self.modules.len()..usize::from(module_index) + 1 {
            self.modules.push(BTreeMap::new(alloc))?;
        }
        Ok(())
    }

    /// Caches a value under a number in the module at `module_index`, in place of any that was
    /// cached there.
    ///
    /// # Errors
    /// `AllocError` when memory runs out. What is cached stays as it was then.
    pub fn insert(
        &mut self,
        alloc: Global,
        module_index: u16,
        number: u32,
        value: V,
    ) -> Result<(), AllocError>
        ensures kept { OnOk result
            (IsKept (kept_at self.old) (kept_at self.new) module_index number value) }
        ensures failed { OnErr result (IsSameKept (kept_at self.old) (kept_at self.new)) }
    {
        self.make_maps(alloc, module_index)?;
        self.modules[usize::from(module_index)].insert(number, value)?;
        Ok(())
    }
}
