//! Types as text.

ghost use Rattle.std.specs.Prelude.{◌≡◌, ◌≤◌, ◌==◌, [], Some, length};
ghost use Rattle.pdb_records.specs.Shapes.{shape};
ghost use Rattle.pdb_type_printing.specs.Printed.{read_or};
ghost use Rattle.pdb_type_printing.specs.Level.{KeepsLevel};
ghost use Rattle.pdb_type_printing.specs.Prints.{Appends};
ghost use Rattle.pdb_type_printing.specs.Types.{Whole, indexed, entered, shown_text};
ghost use Rattle.pdb_type_printing.specs.Types.{returned, returned_unless, in_brackets};
ghost use Rattle.pdb_type_printing.specs.Types.{method_arguments, method_list, method_list_inside};
ghost use Rattle.pdb_type_printing.specs.Types.{plain_text, plain_caught, record_text};
ghost use Rattle.pdb_type_printing.specs.Types.{record_caught, array_type, method_type};
ghost use Rattle.pdb_type_printing.specs.Types.{procedure_type, pointer_type, pointee};
ghost use Rattle.pdb_type_printing.specs.Types.{pointee_inside, modified_pointee};
ghost use Rattle.pdb_type_printing.specs.Types.{modified_pointee_inside, pointed_type};
ghost use Rattle.pdb_type_printing.specs.Types.{pointed_method, pointed_procedure, modified};
ghost use Rattle.pdb_type_printing.specs.Types.{modified_inside, modified_type};

use crate::argument_pieces::leaves_out_arguments;
use crate::asker::Asker;
use crate::brackets::emit_brackets;
use crate::names::{class_word, emit_named, emit_primitive, emit_unhandled};
use crate::objects::emit_constant_object;
use crate::path::Seen;
use crate::pointers::{PointerLevel, emit_pointers, ends_in_sigil, leading_to, level_of};
use crate::printer::TypePrinter;
use crate::text::{emit, emit_missing, emit_unread};
use crate::words::{emit_bare_function, emit_bare_method, emit_constant, shown_return};
use pdb_container::TypeIndex;
use pdb_records::{
    ArrayType, FunctionAttributes, MemberFunctionType, PointerType, ProcedureType, TypeData,
};
use pdb_resolving::stop::{Result, Stop};
use pdb_resolving::{Error, ModuleProvider};

impl<'a, 's, P: ModuleProvider> TypePrinter<'a, 's, P> {
    /// Appends a type on its own. A type that is missing, or whose leaf has no form, has a text of
    /// its own.
    ///
    /// # Errors
    /// `CircularTypeDefinition`, and any other fault of a type on the way; `OutOfMemory`.
    #[cycle(printing)]
    pub fn emit_type_index(
        &mut self,
        asker: Asker,
        w: &mut String,
        index: TypeIndex,
        seen: &mut Seen<'_>,
    ) -> Result<()>
        requires { length seen.old.path.now.items ≤ 1024 }
        ensures same { self.new ≡ self.old }
        ensures level { KeepsLevel seen.old seen.new }
        ensures text { Appends P.provided self.old asker seen.old
            (indexed Whole index) w.old w.new result }
    {
        match self.read(asker, index) {
            Ok(found) => self.emit_entered(asker, w, index, &found, seen),
            Err(stop) => emit_unread(w, stop),
        }
    }

    /// Appends a type that was read, and puts its index on the path.
    #[cycle(printing)]
    fn emit_entered(
        &mut self,
        asker: Asker,
        w: &mut String,
        index: TypeIndex,
        found: &TypeData<'_>,
        seen: &mut Seen<'_>,
    ) -> Result<()>
        requires { length seen.old.path.now.items ≤ 1024 }
        ensures same { self.new ≡ self.old }
        ensures level { KeepsLevel seen.old seen.new }
        ensures text { Appends P.provided self.old asker seen.old
            (entered index (shape found.now)) w.old w.new result }
    {
        let mut level = Seen::new(&mut *seen.path);
        level.insert(index.0)?;
        self.emit_type(asker, w, found, &mut level)
    }

    /// Appends a type that was read; a type that is missing in it ends it, and is named.
    #[cycle(printing)]
    #[tactic(auto, using(crate::proofs::Failing::uncaught))]
    fn emit_type(
        &mut self,
        asker: Asker,
        w: &mut String,
        found: &TypeData<'_>,
        seen: &mut Seen<'_>,
    ) -> Result<()>
        requires { length seen.old.path.now.items ≤ 1024 }
        ensures same { self.new ≡ self.old }
        ensures level { KeepsLevel seen.old seen.new }
        ensures text { Appends P.provided self.old asker seen.old
            (record_caught (shape found.now)) w.old w.new result }
    {
        match self.emit_type_inner(asker, w, found, seen) {
            Err(Stop::ByError(Error::PdbError(pdb_container::Error::TypeNotFound(index)))) => {
                emit_missing(w, index)
            }
            other => other,
        }
    }

    /// Appends a type that was read.
    #[cycle(printing)]
    fn emit_type_inner(
        &mut self,
        asker: Asker,
        w: &mut String,
        found: &TypeData<'_>,
        seen: &mut Seen<'_>,
    ) -> Result<()>
        requires { length seen.old.path.now.items ≤ 1024 }
        ensures same { self.new ≡ self.old }
        ensures level { KeepsLevel seen.old seen.new }
        ensures text { Appends P.provided self.old asker seen.old
            (record_text (shape found.now)) w.old w.new result }
    {
        match found {
            TypeData::Array(t) => self.emit_array(asker, w, t, seen),
            _ => self.emit_plain(asker, w, found, seen),
        }
    }

    /// Appends an array of arrays: the innermost element, and the brackets.
    #[cycle(printing)]
    #[inline(never)]
    fn emit_array(
        &mut self,
        asker: Asker,
        w: &mut String,
        t: &ArrayType,
        seen: &mut Seen<'_>,
    ) -> Result<()>
        requires { length seen.old.path.now.items ≤ 1024 }
        ensures same { self.new ≡ self.old }
        ensures level { KeepsLevel seen.old seen.new }
        ensures text { Appends P.provided self.old asker seen.old
            (array_type t.now) w.old w.new result }
    {
        let elements = self.elements_of(asker, t)?;
        self.emit_plain_caught(asker, w, &elements.found, seen)?;
        let size = self.size(asker, elements.index)?;
        emit_brackets(w, &elements.dimensions, size)
    }

    /// Appends a type that is no array; a type that is missing in it ends it, and is named.
    #[cycle(printing)]
    #[tactic(auto, using(crate::proofs::Failing::uncaught))]
    fn emit_plain_caught(
        &mut self,
        asker: Asker,
        w: &mut String,
        found: &TypeData<'_>,
        seen: &mut Seen<'_>,
    ) -> Result<()>
        requires { length seen.old.path.now.items ≤ 1024 }
        ensures same { self.new ≡ self.old }
        ensures level { KeepsLevel seen.old seen.new }
        ensures text { Appends P.provided self.old asker seen.old
            (plain_caught (shape found.now)) w.old w.new result }
    {
        match self.emit_plain(asker, w, found, seen) {
            Err(Stop::ByError(Error::PdbError(pdb_container::Error::TypeNotFound(index)))) => {
                emit_missing(w, index)
            }
            other => other,
        }
    }

    /// Appends a type that is no array.
    #[cycle(printing)]
    fn emit_plain(
        &mut self,
        asker: Asker,
        w: &mut String,
        found: &TypeData<'_>,
        seen: &mut Seen<'_>,
    ) -> Result<()>
        requires { length seen.old.path.now.items ≤ 1024 }
        ensures same { self.new ≡ self.old }
        ensures level { KeepsLevel seen.old seen.new }
        ensures text { Appends P.provided self.old asker seen.old
            (plain_text (shape found.now)) w.old w.new result }
    {
        match found {
            TypeData::Primitive(t) => emit_primitive(w, self.flags, *t, false),
            TypeData::Class(t) => emit_named(w, self.flags, class_word(t.kind), t.name),
            TypeData::Union(t) => emit_named(w, self.flags, "union ", t.name),
            TypeData::Enumeration(t) => emit_named(w, self.flags, "enum ", t.name),
            TypeData::Enumerate(t) => emit_named(w, self.flags, "enum class ", t.name),
            TypeData::MemberFunction(t) => self.emit_member_function(asker, w, t, seen),
            TypeData::Procedure(t) => self.emit_procedure(asker, w, t, seen),
            TypeData::ArgumentList(t) => self.emit_arguments(asker, w, &t.arguments, seen),
            TypeData::Modifier(t) => {
                self.emit_modified(asker, w, t.underlying_type, t.constant, seen)
            }
            TypeData::Pointer(t) => self.emit_pointer(asker, w, t, false, seen),
            _ => emit_unhandled(w, found),
        }
    }

    /// Appends a pointer and the type to which it leads; the pointer is constant also where
    /// `is_constant`.
    #[cycle(printing)]
    #[inline(never)]
    fn emit_pointer(
        &mut self,
        asker: Asker,
        w: &mut String,
        t: &PointerType,
        is_constant: bool,
        seen: &mut Seen<'_>,
    ) -> Result<()>
        requires { length seen.old.path.now.items ≤ 1024 }
        ensures same { self.new ≡ self.old }
        ensures level { KeepsLevel seen.old seen.new }
        ensures text { Appends P.provided self.old asker seen.old
            (pointer_type is_constant t.now) w.old w.new result }
    {
        let mut before = Vec::new(asker.alloc);
        self.emit_pointee(
            asker,
            w,
            t.underlying_type,
            &mut before,
            level_of(is_constant, t),
            seen,
        )
    }

    /// Appends a method's type.
    #[cycle(printing)]
    fn emit_member_function(
        &mut self,
        asker: Asker,
        w: &mut String,
        t: &MemberFunctionType,
        seen: &mut Seen<'_>,
    ) -> Result<()>
        requires { length seen.old.path.now.items ≤ 1024 }
        ensures same { self.new ≡ self.old }
        ensures level { KeepsLevel seen.old seen.new }
        ensures text { Appends P.provided self.old asker seen.old
            (method_type t.now) w.old w.new result }
    {
        self.maybe_emit_return_type(asker, w, Some(t.return_type), t.attributes, seen)?;
        emit_bare_method(w)?;
        self.emit_method_arguments(asker, w, t, false, seen)
    }

    /// Appends a function's type, without the bracket that would close it.
    #[cycle(printing)]
    fn emit_procedure(
        &mut self,
        asker: Asker,
        w: &mut String,
        t: &ProcedureType,
        seen: &mut Seen<'_>,
    ) -> Result<()>
        requires { length seen.old.path.now.items ≤ 1024 }
        ensures same { self.new ≡ self.old }
        ensures level { KeepsLevel seen.old seen.new }
        ensures text { Appends P.provided self.old asker seen.old
            (procedure_type t.now) w.old w.new result }
    {
        self.maybe_emit_return_type(asker, w, t.return_type, t.attributes, seen)?;
        emit_bare_function(w)?;
        self.emit_type_index(asker, w, t.argument_list, seen)
    }

    /// Appends the type that a function returns, and a space, where no flag leaves it out.
    ///
    /// # Errors
    /// Those of [`TypePrinter::emit_type_index`].
    #[cycle(printing)]
    pub fn maybe_emit_return_type(
        &mut self,
        asker: Asker,
        w: &mut String,
        index: Option<TypeIndex>,
        attributes: FunctionAttributes,
        seen: &mut Seen<'_>,
    ) -> Result<()>
        requires { length seen.old.path.now.items ≤ 1024 }
        ensures same { self.new ≡ self.old }
        ensures level { KeepsLevel seen.old seen.new }
        ensures text { Appends P.provided self.old asker seen.old
            (returned_unless index attributes) w.old w.new result }
    {
        let shown = shown_return(self.flags, index, attributes, false);
        self.emit_shown_return(asker, w, shown, seen)
    }

    /// Appends the type that a function returns to which pointers point, and a space; nothing for a
    /// constructor.
    #[cycle(printing)]
    fn emit_return_type(
        &mut self,
        asker: Asker,
        w: &mut String,
        index: Option<TypeIndex>,
        attributes: FunctionAttributes,
        seen: &mut Seen<'_>,
    ) -> Result<()>
        requires { length seen.old.path.now.items ≤ 1024 }
        ensures same { self.new ≡ self.old }
        ensures level { KeepsLevel seen.old seen.new }
        ensures text { Appends P.provided self.old asker seen.old
            (returned index attributes) w.old w.new result }
    {
        let shown = shown_return(self.flags, index, attributes, true);
        self.emit_shown_return(asker, w, shown, seen)
    }

    /// Appends the type with which a function's text begins, if there is one, and a space.
    #[cycle(printing)]
    fn emit_shown_return(
        &mut self,
        asker: Asker,
        w: &mut String,
        shown: Option<TypeIndex>,
        seen: &mut Seen<'_>,
    ) -> Result<()>
        requires { length seen.old.path.now.items ≤ 1024 }
        ensures same { self.new ≡ self.old }
        ensures level { KeepsLevel seen.old seen.new }
        ensures text { Appends P.provided self.old asker seen.old
            (shown_text shown) w.old w.new result }
    {
        let Some(index) = shown else {
            return Ok(());
        };
        self.emit_type_index(asker, w, index, seen)?;
        emit(w, " ")
    }

    /// Appends a method's arguments, in brackets, where no flag leaves them out.
    ///
    /// # Errors
    /// Those of [`TypePrinter::emit_type_index`], and `ArgumentTypeNotArgumentList`.
    #[cycle(printing)]
    pub fn emit_method_arguments(
        &mut self,
        asker: Asker,
        w: &mut String,
        t: &MemberFunctionType,
        says_constant: bool,
        seen: &mut Seen<'_>,
    ) -> Result<()>
        requires { length seen.old.path.now.items ≤ 1024 }
        ensures same { self.new ≡ self.old }
        ensures level { KeepsLevel seen.old seen.new }
        ensures text { Appends P.provided self.old asker seen.old
            (method_arguments t.now says_constant) w.old w.new result }
    {
        if leaves_out_arguments(self.flags) {
            return Ok(());
        }
        self.emit_argument_list(asker, w, t, says_constant, seen)
    }

    /// Appends a method's arguments, in brackets.
    #[cycle(printing)]
    fn emit_argument_list(
        &mut self,
        asker: Asker,
        w: &mut String,
        t: &MemberFunctionType,
        says_constant: bool,
        seen: &mut Seen<'_>,
    ) -> Result<()>
        requires { length seen.old.path.now.items ≤ 1024 }
        ensures same { self.new ≡ self.old }
        ensures level { KeepsLevel seen.old seen.new }
        ensures text { Appends P.provided self.old asker seen.old
            (method_list t.now says_constant) w.old w.new result }
    {
        let mut level = Seen::new(&mut *seen.path);
        level.insert(t.argument_list.0)?;
        self.emit_argument_list_inside(asker, w, t, says_constant, &mut level)
    }

    /// Appends the text of [`Self::emit_argument_list`], once the argument list is on the path.
    #[cycle(printing)]
    #[tactic(auto, using(crate::proofs::Failing::fails_stops))]
    fn emit_argument_list_inside(
        &mut self,
        asker: Asker,
        w: &mut String,
        t: &MemberFunctionType,
        says_constant: bool,
        seen: &mut Seen<'_>,
    ) -> Result<()>
        requires { length seen.old.path.now.items ≤ 1024 }
        ensures same { self.new ≡ self.old }
        ensures level { KeepsLevel seen.old seen.new }
        ensures text { Appends P.provided self.old asker seen.old
            (method_list_inside t.now says_constant) w.old w.new result }
    {
        let TypeData::ArgumentList(list) = self.read(asker, t.argument_list)? else {
            return Err(Stop::ByError(Error::ArgumentTypeNotArgumentList));
        };
        let this = self.this_of(asker, t.class_type, t.this_pointer_type)?;
        self.emit_in_brackets(asker, w, says_constant, &list.arguments, this, seen)
    }

    /// Appends arguments in brackets, the extra one first if there is one, and `const` where it is
    /// said of a constant object.
    #[cycle(printing)]
    fn emit_in_brackets(
        &mut self,
        asker: Asker,
        w: &mut String,
        says_constant: bool,
        list: &[TypeIndex],
        this: (bool, Option<TypeIndex>),
        seen: &mut Seen<'_>,
    ) -> Result<()>
        requires { length seen.old.path.now.items ≤ 1024 }
        ensures same { self.new ≡ self.old }
        ensures level { KeepsLevel seen.old seen.new }
        ensures text { Appends P.provided self.old asker seen.old
            (in_brackets says_constant list.now this) w.old w.new result }
    {
        let (is_constant, extra) = this;
        emit(w, "(")?;
        self.emit_extra_and_arguments(asker, w, extra, list, seen)?;
        emit(w, ")")?;
        emit_constant_object(w, is_constant && says_constant)
    }

    /// Appends the type under a Modifier.
    #[cycle(printing)]
    fn emit_modified(
        &mut self,
        asker: Asker,
        w: &mut String,
        index: TypeIndex,
        is_constant: bool,
        seen: &mut Seen<'_>,
    ) -> Result<()>
        requires { length seen.old.path.now.items ≤ 1024 }
        ensures same { self.new ≡ self.old }
        ensures level { KeepsLevel seen.old seen.new }
        ensures text { Appends P.provided self.old asker seen.old
            (modified is_constant index) w.old w.new result }
    {
        let mut level = Seen::new(&mut *seen.path);
        level.insert(index.0)?;
        self.emit_modified_inside(asker, w, index, is_constant, &mut level)
    }

    /// Appends the text of [`Self::emit_modified`], once its index is on the path.
    #[cycle(printing)]
    fn emit_modified_inside(
        &mut self,
        asker: Asker,
        w: &mut String,
        index: TypeIndex,
        is_constant: bool,
        seen: &mut Seen<'_>,
    ) -> Result<()>
        requires { length seen.old.path.now.items ≤ 1024 }
        ensures same { self.new ≡ self.old }
        ensures level { KeepsLevel seen.old seen.new }
        ensures text { Appends P.provided self.old asker seen.old
            (modified_inside is_constant index) w.old w.new result }
    {
        match self.read(asker, index)? {
            TypeData::Pointer(t) => self.emit_pointer(asker, w, &t, is_constant, seen),
            TypeData::Primitive(t) => emit_primitive(w, self.flags, t, is_constant),
            found => self.emit_modified_other(asker, w, is_constant, &found, seen),
        }
    }

    /// Appends a type, with `const ` before it where it is constant.
    #[cycle(printing)]
    fn emit_modified_other(
        &mut self,
        asker: Asker,
        w: &mut String,
        is_constant: bool,
        found: &TypeData<'_>,
        seen: &mut Seen<'_>,
    ) -> Result<()>
        requires { length seen.old.path.now.items ≤ 1024 }
        ensures same { self.new ≡ self.old }
        ensures level { KeepsLevel seen.old seen.new }
        ensures text { Appends P.provided self.old asker seen.old
            (modified_type is_constant found.now) w.old w.new result }
    {
        emit_constant(w, is_constant)?;
        self.emit_type(asker, w, found, seen)
    }

    /// Appends the type to which the last of some pointers leads, with all of them.
    #[cycle(printing)]
    fn emit_pointee(
        &mut self,
        asker: Asker,
        w: &mut String,
        index: TypeIndex,
        before: &mut Vec<PointerLevel>,
        last: PointerLevel,
        seen: &mut Seen<'_>,
    ) -> Result<()>
        requires { length seen.old.path.now.items ≤ 1024 }
        ensures same { self.new ≡ self.old }
        ensures level { KeepsLevel seen.old seen.new }
        ensures text { Appends P.provided self.old asker seen.old
            (pointee before.old last index) w.old w.new result }
    {
        let mut level = Seen::new(&mut *seen.path);
        level.insert(index.0)?;
        self.emit_pointee_inside(asker, w, index, before, last, &mut level)
    }

    /// Appends the text of [`Self::emit_pointee`], once its index is on the path.
    #[cycle(printing)]
    fn emit_pointee_inside(
        &mut self,
        asker: Asker,
        w: &mut String,
        index: TypeIndex,
        before: &mut Vec<PointerLevel>,
        last: PointerLevel,
        seen: &mut Seen<'_>,
    ) -> Result<()>
        requires { length seen.old.path.now.items ≤ 1024 }
        ensures same { self.new ≡ self.old }
        ensures level { KeepsLevel seen.old seen.new }
        ensures text { Appends P.provided self.old asker seen.old
            (pointee_inside before.old last index) w.old w.new result }
    {
        match self.read(asker, index)? {
            TypeData::Pointer(t) => {
                before.push(last)?;
                self.emit_pointee(
                    asker,
                    w,
                    t.underlying_type,
                    before,
                    level_of(false, &t),
                    seen,
                )
            }
            TypeData::Modifier(t) => self.emit_pointee_modified(
                asker,
                w,
                t.underlying_type,
                before,
                leading_to(t.constant, last),
                seen,
            ),
            found => {
                before.push(last)?;
                self.emit_pointed(asker, w, before, &found, seen)
            }
        }
    }

    /// Appends the type under a Modifier to which the last of some pointers leads, with all of
    /// them.
    #[cycle(printing)]
    fn emit_pointee_modified(
        &mut self,
        asker: Asker,
        w: &mut String,
        index: TypeIndex,
        before: &mut Vec<PointerLevel>,
        last: PointerLevel,
        seen: &mut Seen<'_>,
    ) -> Result<()>
        requires { length seen.old.path.now.items ≤ 1024 }
        ensures same { self.new ≡ self.old }
        ensures level { KeepsLevel seen.old seen.new }
        ensures text { Appends P.provided self.old asker seen.old
            (modified_pointee before.old last index) w.old w.new result }
    {
        let mut level = Seen::new(&mut *seen.path);
        level.insert(index.0)?;
        self.emit_pointee_modified_inside(asker, w, index, before, last, &mut level)
    }

    /// Appends the text of [`Self::emit_pointee_modified`], once its index is on the path.
    #[cycle(printing)]
    fn emit_pointee_modified_inside(
        &mut self,
        asker: Asker,
        w: &mut String,
        index: TypeIndex,
        before: &mut Vec<PointerLevel>,
        last: PointerLevel,
        seen: &mut Seen<'_>,
    ) -> Result<()>
        requires { length seen.old.path.now.items ≤ 1024 }
        ensures same { self.new ≡ self.old }
        ensures level { KeepsLevel seen.old seen.new }
        ensures text { Appends P.provided self.old asker seen.old
            (modified_pointee_inside before.old last index) w.old w.new result }
    {
        let found = self.read(asker, index)?;
        before.push(last)?;
        match found {
            TypeData::Pointer(t) => {
                self.emit_pointee(
                    asker,
                    w,
                    t.underlying_type,
                    before,
                    level_of(false, &t),
                    seen,
                )
            }
            found => self.emit_pointed(asker, w, before, &found, seen),
        }
    }

    /// Appends the type to which pointers lead, with the pointers.
    #[cycle(printing)]
    fn emit_pointed(
        &mut self,
        asker: Asker,
        w: &mut String,
        pointers: &[PointerLevel],
        found: &TypeData<'_>,
        seen: &mut Seen<'_>,
    ) -> Result<()>
        requires { length seen.old.path.now.items ≤ 1024 }
        ensures same { self.new ≡ self.old }
        ensures level { KeepsLevel seen.old seen.new }
        ensures text { Appends P.provided self.old asker seen.old
            (pointed_type pointers.now found.now) w.old w.new result }
    {
        match found {
            TypeData::MemberFunction(t) => self.emit_member_pointer(asker, w, pointers, t, seen),
            TypeData::Procedure(t) => self.emit_procedure_pointer(asker, w, pointers, t, seen),
            _ => {
                self.emit_type(asker, w, found, seen)?;
                let is_behind_sigil = ends_in_sigil(w.as_bytes());
                emit_pointers(w, self.flags, pointers, true, is_behind_sigil)
            }
        }
    }

    /// Appends pointers to a method.
    #[cycle(printing)]
    #[inline(never)]
    fn emit_member_pointer(
        &mut self,
        asker: Asker,
        w: &mut String,
        pointers: &[PointerLevel],
        t: &MemberFunctionType,
        seen: &mut Seen<'_>,
    ) -> Result<()>
        requires { length seen.old.path.now.items ≤ 1024 }
        ensures same { self.new ≡ self.old }
        ensures level { KeepsLevel seen.old seen.new }
        ensures text { Appends P.provided self.old asker seen.old
            (pointed_method pointers.now t.now) w.old w.new result }
    {
        self.emit_return_type(asker, w, Some(t.return_type), t.attributes, seen)?;
        emit(w, "(")?;
        self.emit_type_index(asker, w, t.class_type, seen)?;
        emit_pointers(w, self.flags, pointers, false, false)?;
        emit(w, ")")?;
        self.emit_method_arguments(asker, w, t, false, seen)
    }

    /// Appends pointers to a function.
    #[cycle(printing)]
    #[inline(never)]
    fn emit_procedure_pointer(
        &mut self,
        asker: Asker,
        w: &mut String,
        pointers: &[PointerLevel],
        t: &ProcedureType,
        seen: &mut Seen<'_>,
    ) -> Result<()>
        requires { length seen.old.path.now.items ≤ 1024 }
        ensures same { self.new ≡ self.old }
        ensures level { KeepsLevel seen.old seen.new }
        ensures text { Appends P.provided self.old asker seen.old
            (pointed_procedure pointers.now t.now) w.old w.new result }
    {
        self.emit_return_type(asker, w, t.return_type, t.attributes, seen)?;
        emit(w, "(")?;
        emit_pointers(w, self.flags, pointers, false, false)?;
        emit(w, ")(")?;
        self.emit_type_index(asker, w, t.argument_list, seen)?;
        emit(w, ")")
    }
}
