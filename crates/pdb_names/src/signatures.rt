//! Signatures of functions.

ghost use Rattle.std.specs.Prelude.{◌≡◌, ◌≤◌, ◌==◌, ◌++◌, ◌∷◌, [], None, length};
ghost use Rattle.std.specs.Prelude.{if◌then◌else◌};
ghost use Rattle.pdb_records.specs.Shapes.{shape};
ghost use Rattle.pdb_type_printing.specs.Printed.{say};
ghost use Rattle.pdb_type_printing.specs.Level.{KeepsLevel};
ghost use Rattle.pdb_type_printing.specs.Prints.{Appends, AppendsText};
ghost use Rattle.pdb_type_printing.specs.Types.{Whole, visiting, returned_unless, method_arguments};
ghost use Rattle.pdb_names.specs.Functions.{parent_text, method_text, arguments_unless};
ghost use Rattle.pdb_names.specs.Functions.{name_and_arguments, signature};
ghost use Rattle.pdb_names.specs.Functions.{function_printed};

use crate::printer::FunctionPrinter;
use pdb_container::TypeIndex;
use pdb_records::{MemberFunctionType, ProcedureType, TypeData};
use pdb_resolving::ModuleProvider;
use pdb_resolving::stop::Result;
use pdb_type_printing::{
    Asker, IndexPath, Seen, emit, emit_name, emit_scope_end, emit_static, leaves_out_arguments,
};

impl<'a, 's, P: ModuleProvider> FunctionPrinter<'a, 's, P> {
    /// Appends a function of a name and a type; type 0 is none, and leaves the name alone.
    #[tactic(auto, using(pdb_type_printing::proofs::Failing::fails_stops))]
    pub(crate) fn emit_signature(
        &mut self,
        asker: Asker,
        w: &mut String,
        name: &str,
        index: TypeIndex,
    ) -> Result<()>
        ensures same { self.new ≡ self.old }
        ensures text { AppendsText P.provided self.old asker
            (function_printed name.now index.0) w.old w.new result }
    {
        if index.0 == 0 {
            return emit_name(w, name);
        }
        let found = self.printer.read(asker, index)?;
        let mut path = IndexPath::new(asker.alloc);
        path.push(index.0)?;
        let mut seen = Seen::new(&mut path);
        self.emit_signature_of(asker, w, name, &found, &mut seen)
    }

    /// Appends a name by its type, whose index is on the path.
    fn emit_signature_of(
        &mut self,
        asker: Asker,
        w: &mut String,
        name: &str,
        found: &TypeData<'_>,
        seen: &mut Seen<'_>,
    ) -> Result<()>
        requires { length seen.old.path.now.items ≤ 1024 }
        ensures same { self.new ≡ self.old }
        ensures level { KeepsLevel seen.old seen.new }
        ensures text { Appends P.provided self.old asker seen.old
            (signature name.now (shape found.now)) w.old w.new result }
    {
        match found {
            TypeData::MemberFunction(t) => self.emit_method(asker, w, None, name, t, seen),
            TypeData::Procedure(t) => {
                self.printer
                    .maybe_emit_return_type(asker, w, t.return_type, t.attributes, seen)?;
                self.emit_name_and_arguments(asker, w, name, t, seen)
            }
            _ => emit(w, name),
        }
    }

    /// Appends a method with a name, in the class that is named or not.
    pub(crate) fn emit_method(
        &mut self,
        asker: Asker,
        w: &mut String,
        parent: Option<TypeIndex>,
        name: &str,
        t: &MemberFunctionType,
        seen: &mut Seen<'_>,
    ) -> Result<()>
        requires { length seen.old.path.now.items ≤ 1024 }
        ensures same { self.new ≡ self.old }
        ensures level { KeepsLevel seen.old seen.new }
        ensures text { Appends P.provided self.old asker seen.old
            (method_text parent name.now t.now) w.old w.new result }
    {
        emit_static(w, self.printer.flags(), t.this_pointer_type)?;
        self.printer
            .maybe_emit_return_type(asker, w, Some(t.return_type), t.attributes, seen)?;
        self.emit_parent(asker, w, parent, seen)?;
        emit_name(w, name)?;
        self.printer.emit_method_arguments(asker, w, t, true, seen)
    }

    /// Appends the class that holds a method, if it is to be named.
    fn emit_parent(
        &mut self,
        asker: Asker,
        w: &mut String,
        parent: Option<TypeIndex>,
        seen: &mut Seen<'_>,
    ) -> Result<()>
        requires { length seen.old.path.now.items ≤ 1024 }
        ensures same { self.new ≡ self.old }
        ensures level { KeepsLevel seen.old seen.new }
        ensures text { Appends P.provided self.old asker seen.old
            (parent_text parent) w.old w.new result }
    {
        let Some(parent) = parent else {
            return Ok(());
        };
        self.printer.emit_type_index(asker, w, parent, seen)?;
        emit_scope_end(w)
    }

    /// Appends the name of a function that is no method, and its arguments.
    pub(crate) fn emit_name_and_arguments(
        &mut self,
        asker: Asker,
        w: &mut String,
        name: &str,
        t: &ProcedureType,
        seen: &mut Seen<'_>,
    ) -> Result<()>
        requires { length seen.old.path.now.items ≤ 1024 }
        ensures same { self.new ≡ self.old }
        ensures level { KeepsLevel seen.old seen.new }
        ensures text { Appends P.provided self.old asker seen.old
            (name_and_arguments name.now t.now) w.old w.new result }
    {
        emit_name(w, name)?;
        self.maybe_emit_arguments(asker, w, t.argument_list, seen)
    }

    /// Appends arguments in brackets, where no flag leaves them out.
    fn maybe_emit_arguments(
        &mut self,
        asker: Asker,
        w: &mut String,
        list: TypeIndex,
        seen: &mut Seen<'_>,
    ) -> Result<()>
        requires { length seen.old.path.now.items ≤ 1024 }
        ensures same { self.new ≡ self.old }
        ensures level { KeepsLevel seen.old seen.new }
        ensures text { Appends P.provided self.old asker seen.old
            (arguments_unless list) w.old w.new result }
    {
        if leaves_out_arguments(self.printer.flags()) {
            return Ok(());
        }
        emit(w, "(")?;
        self.printer.emit_type_index(asker, w, list, seen)?;
        emit(w, ")")
    }
}
