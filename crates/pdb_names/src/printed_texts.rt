//! Texts in one piece.

ghost use Rattle.std.specs.Prelude.{◌≡◌, string_bytes};
ghost use Rattle.pdb_resolving.specs.Cause.{Finds};
ghost use Rattle.pdb_type_printing.specs.Printing.{env_for};
ghost use Rattle.pdb_names.specs.Functions.{function_made};
ghost use Rattle.pdb_names.specs.Ids.{id_made};

use crate::printer::FunctionPrinter;
use pdb_container::{IdIndex, TypeIndex};
use pdb_resolving::ModuleProvider;
use pdb_resolving::stop::Result;
use pdb_type_printing::{Asker, IndexPath, Seen};

/// The bytes into which most texts fit, so that they aren't moved as they grow.
const USUAL_LENGTH: usize = 128;

impl<'a, 's, P: ModuleProvider> FunctionPrinter<'a, 's, P> {
    /// The signature of a function of this name whose type has this index; with type 0 it is the
    /// name alone.
    ///
    /// # Errors
    /// The first fault in the order of printing; `OutOfMemory`.
    #[tactic(auto, using(crate::proofs::PrintingFails::stops_ends))]
    pub fn function_text(
        &mut self,
        asker: Asker,
        name: &str,
        function_type_index: TypeIndex,
    ) -> Result<String>
        ensures same { self.new ≡ self.old }
        ensures text { Finds string_bytes result
            (function_made (env_for P.provided self.old asker) name.now
            function_type_index.0) }
    {
        let mut text = String::with_capacity(asker.alloc, USUAL_LENGTH)?;
        self.emit_signature(asker, &mut text, name, function_type_index)?;
        Ok(text)
    }

    /// The text of the id with that index.
    ///
    /// # Errors
    /// The errors of [`FunctionPrinter::function_text`].
    #[tactic(auto, using(crate::proofs::PrintingFails::stops_ends))]
    pub fn id_text(&mut self, asker: Asker, id_index: IdIndex) -> Result<String>
        ensures same { self.new ≡ self.old }
        ensures text { Finds string_bytes result
            (id_made (env_for P.provided self.old asker) id_index.0) }
    {
        let mut text = String::with_capacity(asker.alloc, USUAL_LENGTH)?;
        let mut path = IndexPath::new(asker.alloc);
        let mut ids = Seen::new(&mut path);
        self.emit_id_index(asker, &mut text, id_index, &mut ids)?;
        Ok(text)
    }
}
