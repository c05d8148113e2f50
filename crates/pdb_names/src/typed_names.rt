//! The names of procedures that were asked for.

ghost use Rattle.std.specs.Prelude.{◌≡◌, ◌↔◌, ℕ, true, List, Option};
ghost use Rattle.std.specs.Arc.{arc_str_bytes};
ghost use Rattle.pdb_names.specs.StoredNames.{Names, procedure_text};
ghost use Rattle.pdb_names.specs.TypedNames.{AreTyped, IsNamedBy, typed_text};

use crate::by_number::ByNumber;
use crate::formatter::TypeFormatter;
use crate::names::{CACHED_NAMES, name_by_type, name_size, share_name, shared_name};
use pdb_container::{RawString, TypeIndex};
use pdb_module_data::Procedure;
use pdb_resolving::ModuleProvider;
use std::alloc::{AllocError, Global};
use std::sync::ArcStr;

/// A procedure's name by its type, with the name and the type that it was made of.
#[derive(Drop)]
pub struct TypedName<'a> {
    /// The procedure's name as it is stored.
    raw: RawString<'a>,
    /// The index of the procedure's type.
    type_index: TypeIndex,
    /// The text, if there is one.
    text: Option<ArcStr>,
}

impl<'a> TypedName<'a> {
    /// Whether the text was made of the name and the type of a procedure.
    fn is_name_of(&self, procedure: &Procedure<'_>) -> bool
        ensures { (result ≡ true) ↔ IsNamedBy procedure.now self.now }
    {
        self.type_index == procedure.type_index && self.raw.as_bytes() == procedure.name.as_bytes()
    }
}

/// The names of procedures by their types that were asked for, by module and number.
#[derive(Drop)]
pub struct TypedNames<'a> {
    /// The names, each at its procedure's number in its module.
    by_number: ByNumber<TypedName<'a>>,
    /// The bytes of memory that the names take, roughly.
    cached: u64,
    /// The most bytes that one of the names took, with the places made for it: it may come on top,
    /// or the last names of a large module would forget all others.
    greatest: u64,
}

impl<'a> TypedNames<'a> {
    /// No names yet.
    pub fn new(alloc: Global) -> TypedNames<'a>
        ensures { (text : ℕ → List ℕ → ℕ → Option (List ℕ)) → AreTyped text result }
    {
        TypedNames {
            by_number: ByNumber::new(alloc),
            cached: 0,
            greatest: 0,
        }
    }

    /// Forgets all names where they take more memory than they may.
    fn forget_typed_names_if_full(&mut self, alloc: Global)
        ensures { (text : ℕ → List ℕ → ℕ → Option (List ℕ))
            → AreTyped text self.old → AreTyped text self.new }
    {
        if self.cached > CACHED_NAMES.saturating_add(self.greatest) {
            self.by_number = ByNumber::new(alloc);
            self.cached = 0;
        }
    }

    /// The name of a procedure by its type in the module at `module_index`; `None` where the type
    /// has no text. It is made and cached at the procedure's number, unless it was cached before.
    /// Where the names take more memory than they may, they are forgotten first.
    ///
    /// # Errors
    /// `AllocError` when memory runs out. Nothing is cached then.
    pub fn name_of_procedure<P: ModuleProvider>(
        &mut self,
        alloc: Global,
        formatter: &mut TypeFormatter<'_, '_, P>,
        module_index: u16,
        number: usize,
        procedure: &Procedure<'a>,
    ) -> Result<Option<ArcStr>, AllocError>
        requires { AreTyped (typed_text P.provided formatter.old) self.old }
        ensures kept { AreTyped (typed_text P.provided formatter.old) self.new }
        ensures same { formatter.new ≡ formatter.old }
        ensures name { Names arc_str_bytes result
            (procedure_text P.provided formatter.old module_index procedure.now) }
    {
        if let Some(name) = self.by_number.get(module_index, number) {
            if name.is_name_of(procedure) {
                return share_name(&name.text);
            }
        }
        let text = name_by_type(alloc, formatter, usize::from(module_index), procedure)?;
        let text = shared_name(alloc, &text)?;
        let name = TypedName {
            raw: procedure.name,
            type_index: procedure.type_index,
            text: share_name(&text)?,
        };
        self.forget_typed_names_if_full(alloc);
        let places = self.by_number.insert(alloc, module_index, number, name)?;
        let room = places.saturating_mul(size_of::<TypedName<'_>>());
        let size = name_size(&text, room);
        self.cached = self.cached.saturating_add(size);
        self.greatest = self.greatest.max(size);
        Ok(text)
    }
}
