//! A namer of functions.

ghost use Rattle.std.specs.Prelude.{◌≡◌};
ghost use Rattle.std.specs.Arc.{arc_str_bytes};
ghost use Rattle.pdb_names.specs.InlineNames.{inline_text};
ghost use Rattle.pdb_names.specs.MaybeOwned.{value_of};
ghost use Rattle.pdb_names.specs.StoredNames.{Names, procedure_text};

use crate::formatter::TypeFormatter;
use crate::inline_names::InlineNames;
use crate::maybe_owned::MaybeOwned;
use crate::typed_names::TypedNames;
use pdb_container::IdIndex;
use pdb_module_data::Procedure;
use pdb_resolving::ModuleProvider;
use pdb_symbols_modules::Module;
use std::alloc::{AllocError, Global};
use std::marker::Model;
use std::sync::ArcStr;

/// A namer of functions: a formatter of types, and caches of the names that were asked for. The
/// namer's value is the formatter's: the cached names change no name.
pub struct Namer<'a, 's, P: ModuleProvider> {
    formatter: MaybeOwned<'a, TypeFormatter<'a, 's, P>>,
    /// The names of inlined functions.
    inlined: InlineNames,
    /// The names of procedures by their types.
    typed: TypedNames<'a>,
}

impl<'a, 's, P: ModuleProvider> Model for Namer<'a, 's, P> {
    ghost use Rattle.pdb_names.specs.InlineNames.{AreNames, inline_text};
    ghost use Rattle.pdb_names.specs.MaybeOwned.{value_of};
    ghost use Rattle.pdb_names.specs.TypedNames.{AreTyped, typed_text};
    ghost use Rattle.pdb_type_printing.specs.Printing.{Formatting};

    ghost Value = { Formatting P };

    ghost view = { λ n. value_of n.formatter };

    // The cached names are those that the formatter gives.
    ghost invariant = { λ n. AreNames (inline_text P.provided (value_of n.formatter)) n.inlined
        × AreTyped (typed_text P.provided (value_of n.formatter)) n.typed };
}

impl<'a, 's, P: ModuleProvider> Drop for Namer<'a, 's, P> {
    fn drop(self) {
        let Namer {
            formatter,
            inlined,
            typed,
        } = self;
        drop(formatter);
        drop(inlined);
        drop(typed);
    }
}

impl<'a, 's, P: ModuleProvider> Namer<'a, 's, P> {
    /// A namer over a formatter, with no names cached yet.
    pub fn new(
        alloc: Global,
        formatter: MaybeOwned<'a, TypeFormatter<'a, 's, P>>,
    ) -> Namer<'a, 's, P>
        ensures { result ≡ value_of formatter.entry }
    {
        Namer {
            formatter,
            inlined: InlineNames::new(alloc),
            typed: TypedNames::new(alloc),
        }
    }

    /// The modules in order.
    pub fn modules(&self) -> &[Module<'a>]
        ensures { result.now ≡ (self.now).reading.modules.entries }
    {
        self.formatter.get().modules()
    }

    /// The name of an inlined function by its id in the IPI, as the module at `module_index` names
    /// it; `None` where the id has no text.
    ///
    /// # Errors
    /// `AllocError` when memory runs out.
    pub fn inlined_name(
        &mut self,
        alloc: Global,
        module_index: u16,
        inlinee: IdIndex,
    ) -> Result<Option<ArcStr>, AllocError>
        ensures same { self.new ≡ self.old }
        ensures name { Names arc_str_bytes result
            (inline_text P.provided self.old module_index inlinee.0) }
    {
        self.inlined
            .name_of_inlinee(alloc, self.formatter.get_mut(), module_index, inlinee)
    }

    /// The name of a procedure by its type in the module at `module_index`, cached at the
    /// procedure's own number; `None` where the type has no text.
    ///
    /// # Errors
    /// `AllocError` when memory runs out.
    pub fn typed_name(
        &mut self,
        alloc: Global,
        module_index: u16,
        number: usize,
        procedure: &Procedure<'a>,
    ) -> Result<Option<ArcStr>, AllocError>
        ensures same { self.new ≡ self.old }
        ensures name { Names arc_str_bytes result
            (procedure_text P.provided self.old module_index procedure.now) }
    {
        self.typed.name_of_procedure(
            alloc,
            self.formatter.get_mut(),
            module_index,
            number,
            procedure,
        )
    }
}
