//! Texts of ids.

ghost use Rattle.std.specs.Prelude.{◌≡◌, ◌≤◌, ◌==◌, [], length};
ghost use Rattle.pdb_records.specs.IdForms.{id_shape};
ghost use Rattle.pdb_type_printing.specs.Printed.{say};
ghost use Rattle.pdb_type_printing.specs.Level.{KeepsLevel};
ghost use Rattle.pdb_type_printing.specs.Prints.{AppendsText};
ghost use Rattle.pdb_type_printing.specs.Types.{Whole, visiting};
ghost use Rattle.pdb_names.specs.Ids.{entered, function_id, id_form_text, indexed_id, method_id};
ghost use Rattle.pdb_names.specs.Ids.{returned_by, scope_text, scoped, unscoped};
ghost use Rattle.pdb_names.specs.Ids.{string_list_text, parts, more_parts};
ghost use Rattle.pdb_names.specs.PrintsIds.{AppendsId};

use crate::printer::FunctionPrinter;
use pdb_container::{IdIndex, TypeIndex};
use pdb_records::{FunctionId, IdData, MemberFunctionId, ProcedureType, TypeData};
use pdb_resolving::stop::{Result, Stop};
use pdb_resolving::{Error, ModuleProvider};
use pdb_type_printing::{
    Asker, IndexPath, Seen, emit, emit_between_strings, emit_scope_end, emit_string,
    emit_unhandled_id, emit_unread,
};

impl<'a, 's, P: ModuleProvider> FunctionPrinter<'a, 's, P> {
    /// Appends an id. An id that can't be read has a text of its own.
    #[cycle(scopes)]
    pub(crate) fn emit_id_index(
        &mut self,
        asker: Asker,
        w: &mut String,
        index: IdIndex,
        ids: &mut Seen<'_>,
    ) -> Result<()>
        requires { length ids.old.path.now.items ≤ 1024 }
        ensures same { self.new ≡ self.old }
        ensures level { KeepsLevel ids.old ids.new }
        ensures text { AppendsId P.provided self.old asker ids.old
            (indexed_id index) w.old w.new result }
    {
        match self.printer.read_id(asker, index) {
            Ok(found) => self.emit_entered_id(asker, w, index, &found, ids),
            Err(stop) => emit_unread(w, stop),
        }
    }

    /// Appends an id that was read, and puts its index on the path of ids.
    #[cycle(scopes)]
    fn emit_entered_id(
        &mut self,
        asker: Asker,
        w: &mut String,
        index: IdIndex,
        found: &IdData<'_>,
        ids: &mut Seen<'_>,
    ) -> Result<()>
        requires { length ids.old.path.now.items ≤ 1024 }
        ensures same { self.new ≡ self.old }
        ensures level { KeepsLevel ids.old ids.new }
        ensures text { AppendsId P.provided self.old asker ids.old
            (entered index (id_shape found.now)) w.old w.new result }
    {
        let mut level = Seen::new(&mut *ids.path);
        level.insert(index.0)?;
        self.emit_id_form(asker, w, found, &mut level)
    }

    /// Appends an id that is on the path of ids.
    #[cycle(scopes)]
    fn emit_id_form(
        &mut self,
        asker: Asker,
        w: &mut String,
        found: &IdData<'_>,
        ids: &mut Seen<'_>,
    ) -> Result<()>
        requires { length ids.old.path.now.items ≤ 1024 }
        ensures same { self.new ≡ self.old }
        ensures level { KeepsLevel ids.old ids.new }
        ensures text { AppendsId P.provided self.old asker ids.old
            (id_form_text (id_shape found.now)) w.old w.new result }
    {
        match found {
            IdData::MemberFunction(id) => self.emit_method_id(asker, w, id),
            IdData::Function(id) => self.emit_function_id(asker, w, id, ids),
            IdData::String(id) => {
                let name = id.name.to_string(asker.alloc)?;
                emit_string(w, name.as_str())
            }
            IdData::StringList(list) => self.emit_string_list(asker, w, &list.substrings),
            _ => emit_unhandled_id(w, found),
        }
    }

    /// Appends a function in its scopes.
    #[cycle(scopes)]
    #[tactic(auto, using(pdb_type_printing::proofs::Failing::fails_stops, pdb_type_printing::proofs::Others::stops_on))]
    fn emit_function_id(
        &mut self,
        asker: Asker,
        w: &mut String,
        id: &FunctionId<'_>,
        ids: &mut Seen<'_>,
    ) -> Result<()>
        requires { length ids.old.path.now.items ≤ 1024 }
        ensures same { self.new ≡ self.old }
        ensures level { KeepsLevel ids.old ids.new }
        ensures text { AppendsId P.provided self.old asker ids.old
            (function_id id.now) w.old w.new result }
    {
        let TypeData::Procedure(t) = self.printer.read(asker, id.function_type)? else {
            return Err(Stop::ByError(Error::FunctionIdIsNotProcedureType));
        };
        self.emit_scoped(asker, w, id, &t, ids)
    }

    /// Appends a function of this type in its scopes.
    #[cycle(scopes)]
    #[tactic(auto, using(pdb_type_printing::proofs::Others::stops_on))]
    fn emit_scoped(
        &mut self,
        asker: Asker,
        w: &mut String,
        id: &FunctionId<'_>,
        t: &ProcedureType,
        ids: &mut Seen<'_>,
    ) -> Result<()>
        requires { length ids.old.path.now.items ≤ 1024 }
        ensures same { self.new ≡ self.old }
        ensures level { KeepsLevel ids.old ids.new }
        ensures text { AppendsId P.provided self.old asker ids.old
            (scoped id.now t.now) w.old w.new result }
    {
        self.emit_returned(asker, w, id.function_type, t)?;
        self.emit_scope(asker, w, id.scope, ids)?;
        self.emit_unscoped(asker, w, id, t)
    }

    /// Appends the type that a function returns, from the function's type and the index of this
    /// type. Its path ends with it: so none lies on the stack while scopes are printed.
    #[inline(never)]
    fn emit_returned(
        &mut self,
        asker: Asker,
        w: &mut String,
        index: TypeIndex,
        t: &ProcedureType,
    ) -> Result<()>
        ensures same { self.new ≡ self.old }
        ensures text { AppendsText P.provided self.old asker
            (returned_by index t.now) w.old w.new result }
    {
        let mut path = IndexPath::new(asker.alloc);
        path.push(index.0)?;
        let mut seen = Seen::new(&mut path);
        self.printer
            .maybe_emit_return_type(asker, w, t.return_type, t.attributes, &mut seen)
    }

    /// Appends a function's name and arguments, without the scopes that hold it.
    #[inline(never)]
    fn emit_unscoped(
        &mut self,
        asker: Asker,
        w: &mut String,
        id: &FunctionId<'_>,
        t: &ProcedureType,
    ) -> Result<()>
        ensures same { self.new ≡ self.old }
        ensures text { AppendsText P.provided self.old asker
            (unscoped id.now t.now) w.old w.new result }
    {
        let mut path = IndexPath::new(asker.alloc);
        path.push(id.function_type.0)?;
        let mut seen = Seen::new(&mut path);
        let name = id.name.to_string(asker.alloc)?;
        self.emit_name_and_arguments(asker, w, name.as_str(), t, &mut seen)
    }

    /// Appends the scope that holds a function, if there is one.
    #[cycle(scopes)]
    fn emit_scope(
        &mut self,
        asker: Asker,
        w: &mut String,
        scope: Option<IdIndex>,
        ids: &mut Seen<'_>,
    ) -> Result<()>
        requires { length ids.old.path.now.items ≤ 1024 }
        ensures same { self.new ≡ self.old }
        ensures level { KeepsLevel ids.old ids.new }
        ensures text { AppendsId P.provided self.old asker ids.old
            (scope_text scope) w.old w.new result }
    {
        let Some(scope) = scope else {
            return Ok(());
        };
        self.emit_id_index(asker, w, scope, ids)?;
        emit_scope_end(w)
    }

    /// Appends a method in its class.
    #[tactic(auto, using(pdb_type_printing::proofs::Failing::fails_stops))]
    #[inline(never)]
    fn emit_method_id(
        &mut self,
        asker: Asker,
        w: &mut String,
        id: &MemberFunctionId<'_>,
    ) -> Result<()>
        ensures same { self.new ≡ self.old }
        ensures text { AppendsText P.provided self.old asker (method_id id.now) w.old w.new result }
    {
        let TypeData::MemberFunction(t) = self.printer.read(asker, id.function_type)? else {
            return Err(Stop::ByError(Error::MemberFunctionIdIsNotMemberFunctionType));
        };
        let mut path = IndexPath::new(asker.alloc);
        path.push(id.function_type.0)?;
        let mut seen = Seen::new(&mut path);
        let name = id.name.to_string(asker.alloc)?;
        self.emit_method(asker, w, Some(id.parent), name.as_str(), &t, &mut seen)
    }

    /// Appends a list of strings in quotation marks.
    #[inline(never)]
    fn emit_string_list(&mut self, asker: Asker, w: &mut String, list: &[TypeIndex]) -> Result<()>
        ensures same { self.new ≡ self.old }
        ensures text { AppendsText P.provided self.old asker
            (λ env. string_list_text env list.now) w.old w.new result }
    {
        emit(w, "\"")?;
        self.emit_parts(asker, w, list)?;
        emit(w, "\"")
    }

    /// Appends the strings of a list.
    fn emit_parts(&mut self, asker: Asker, w: &mut String, list: &[TypeIndex]) -> Result<()>
        ensures same { self.new ≡ self.old }
        ensures text { AppendsText P.provided self.old asker
            (λ env. parts env list.now) w.old w.new result }
    {
        let [first, more @ ..] = list else {
            return Ok(());
        };
        self.emit_alone(asker, w, *first)?;
        self.emit_more_parts(asker, w, more)
    }

    /// Appends strings with quotation marks before each.
    fn emit_more_parts(&mut self, asker: Asker, w: &mut String, list: &[TypeIndex]) -> Result<()>
        ensures same { self.new ≡ self.old }
        ensures text { AppendsText P.provided self.old asker
            (λ env. more_parts env list.now) w.old w.new result }
    {
        for index in list {
            emit_between_strings(w)?;
            self.emit_alone(asker, w, *index)?;
        }
        Ok(())
    }

    /// Appends a type with nothing on the path.
    fn emit_alone(&mut self, asker: Asker, w: &mut String, index: TypeIndex) -> Result<()>
        ensures same { self.new ≡ self.old }
        ensures text { AppendsText P.provided self.old asker
            (λ env. visiting env [] Whole [] index.0) w.old w.new result }
    {
        let mut path = IndexPath::new(asker.alloc);
        let mut seen = Seen::new(&mut path);
        self.printer.emit_type_index(asker, w, index, &mut seen)
    }
}
