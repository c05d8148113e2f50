//! The names of inlined functions that were asked for.

ghost use Rattle.std.specs.Prelude.{◌≡◌, ℕ, List, Option};
ghost use Rattle.std.specs.Arc.{arc_str_bytes};
ghost use Rattle.pdb_names.specs.InlineNames.{AreNames, inline_text};
ghost use Rattle.pdb_names.specs.StoredNames.{Names};

use crate::by_module::ByModule;
use crate::formatter::TypeFormatter;
use crate::names::{CACHED_NAMES, inlinee_name, name_size, share_name, shared_name};
use pdb_container::IdIndex;
use pdb_resolving::ModuleProvider;
use std::alloc::{AllocError, Global};
use std::sync::ArcStr;

/// The bytes of memory that a name takes besides its text, roughly.
const PLACE_SIZE: usize = 80;

/// The cached names of inlined functions, by module and id; `None` where an id has no text.
#[derive(Drop)]
pub struct InlineNames {
    /// The names, each under its id in its module.
    by_id: ByModule<Option<ArcStr>>,
    /// The bytes of memory that the names take, roughly.
    cached: u64,
    /// The most bytes that one of the names took: it may come on top, or two long names would
    /// forget each other.
    greatest: u64,
}

impl InlineNames {
    /// No names yet.
    pub fn new(alloc: Global) -> InlineNames
        ensures { (text : ℕ → ℕ → Option (List ℕ)) → AreNames text result }
    {
        InlineNames {
            by_id: ByModule::new(alloc),
            cached: 0,
            greatest: 0,
        }
    }

    /// Forgets all names where they take more memory than they may.
    fn forget_inline_names_if_full(&mut self, alloc: Global)
        ensures { (text : ℕ → ℕ → Option (List ℕ))
            → AreNames text self.old → AreNames text self.new }
    {
        if self.cached > CACHED_NAMES.saturating_add(self.greatest) {
            self.by_id = ByModule::new(alloc);
            self.cached = 0;
        }
    }

    /// The name of an inlined function by its id in the IPI, as the module at `module_index` names
    /// it; `None` where the id has no text. It is made and cached, unless it was cached before.
    /// Where the names take more memory than they may, they are forgotten first.
    ///
    /// # Errors
    /// `AllocError` when memory runs out. Nothing is cached then.
    pub fn name_of_inlinee<P: ModuleProvider>(
        &mut self,
        alloc: Global,
        formatter: &mut TypeFormatter<'_, '_, P>,
        module_index: u16,
        inlinee: IdIndex,
    ) -> Result<Option<ArcStr>, AllocError>
        requires { AreNames (inline_text P.provided formatter.old) self.old }
        ensures kept { AreNames (inline_text P.provided formatter.old) self.new }
        ensures same { formatter.new ≡ formatter.old }
        ensures name { Names arc_str_bytes result
            (inline_text P.provided formatter.old module_index inlinee.0) }
    {
        if let Some(name) = self.by_id.get(module_index, inlinee.0) {
            return share_name(name);
        }
        let name = inlinee_name(alloc, formatter, usize::from(module_index), inlinee)?;
        let name = shared_name(alloc, &name)?;
        let kept = share_name(&name)?;
        self.forget_inline_names_if_full(alloc);
        self.by_id.insert(alloc, module_index, inlinee.0, kept)?;
        let size = name_size(&name, PLACE_SIZE);
        self.cached = self.cached.saturating_add(size);
        self.greatest = self.greatest.max(size);
        Ok(name)
    }
}
