//! Arguments as text. An argument that a list names several times in a row is printed once, and its
//! text is copied.

ghost use Rattle.std.specs.Prelude.{◌≡◌, ◌≤◌, ◌∷◌, false, length, string_bytes};
ghost use Rattle.pdb_type_printing.specs.Pointers.{ends_in_sigil};
ghost use Rattle.pdb_type_printing.specs.Level.{KeepsLevel};
ghost use Rattle.pdb_type_printing.specs.Prints.{Appends};
ghost use Rattle.pdb_type_printing.specs.Types.{arguments, more_arguments, repeated};
ghost use Rattle.pdb_type_printing.specs.Types.{extra_and_arguments};

use crate::argument_pieces::{emit_comma, emit_copies};
use crate::asker::Asker;
use crate::path::Seen;
use crate::pointers::ends_in_sigil;
use crate::printer::TypePrinter;
use crate::runs::{first_and_more, first_run, run_within};
use crate::text::emit;
use pdb_container::TypeIndex;
use pdb_resolving::ModuleProvider;
use pdb_resolving::stop::Result;

impl<'a, 's, P: ModuleProvider> TypePrinter<'a, 's, P> {
    /// Appends arguments with commas between them.
    #[cycle(printing)]
    pub(crate) fn emit_arguments(
        &mut self,
        asker: Asker,
        w: &mut String,
        list: &[TypeIndex],
        seen: &mut Seen<'_>,
    ) -> Result<()>
        requires { length seen.old.path.now.items ≤ 1024 }
        ensures same { self.new ≡ self.old }
        ensures level { KeepsLevel seen.old seen.new }
        ensures text { Appends P.provided self.old asker seen.old
            (arguments list.now) w.old w.new result }
    {
        match first_and_more(list) {
            None => Ok(()),
            Some((first, more)) => self.emit_first_and_more(asker, w, first, more, seen),
        }
    }

    /// Appends an extra first argument, if there is one, and the other arguments.
    #[cycle(printing)]
    pub(crate) fn emit_extra_and_arguments(
        &mut self,
        asker: Asker,
        w: &mut String,
        extra: Option<TypeIndex>,
        list: &[TypeIndex],
        seen: &mut Seen<'_>,
    ) -> Result<()>
        requires { length seen.old.path.now.items ≤ 1024 }
        ensures same { self.new ≡ self.old }
        ensures level { KeepsLevel seen.old seen.new }
        ensures text { Appends P.provided self.old asker seen.old
            (extra_and_arguments extra list.now) w.old w.new result }
    {
        let Some(first) = extra else {
            return self.emit_arguments(asker, w, list, seen);
        };
        self.emit_first_and_more(asker, w, first, list, seen)
    }

    /// Appends an argument, and further ones with a comma before each.
    #[cycle(printing)]
    #[inline(always)]
    fn emit_first_and_more(
        &mut self,
        asker: Asker,
        w: &mut String,
        first: TypeIndex,
        more: &[TypeIndex],
        seen: &mut Seen<'_>,
    ) -> Result<()>
        requires { length seen.old.path.now.items ≤ 1024 }
        ensures same { self.new ≡ self.old }
        ensures level { KeepsLevel seen.old seen.new }
        ensures text { Appends P.provided self.old asker seen.old
            (arguments (first ∷ more.now)) w.old w.new result }
    {
        if ends_in_sigil(w.as_bytes()) {
            self.emit_type_index(asker, w, first, seen)?;
            return self.emit_more_arguments(asker, w, more, seen);
        }
        let run = run_within(first, more, seen.path.len());
        self.emit_repeated(asker, w, first, run.repeats, seen)?;
        self.emit_more_arguments(asker, w, run.rest, seen)
    }

    /// Appends arguments with a comma before each.
    #[cycle(printing)]
    fn emit_more_arguments(
        &mut self,
        asker: Asker,
        w: &mut String,
        list: &[TypeIndex],
        seen: &mut Seen<'_>,
    ) -> Result<()>
        requires { length seen.old.path.now.items ≤ 1024 }
        ensures same { self.new ≡ self.old }
        ensures level { KeepsLevel seen.old seen.new }
        ensures text { Appends P.provided self.old asker seen.old
            (more_arguments list.now) w.old w.new result }
    {
        let mut rest = list;
        while let Some(run) = first_run(rest, seen.path.len()) {
            emit_comma(w, self.flags())?;
            self.emit_repeated(asker, w, run.argument, run.repeats, seen)?;
            rest = run.rest;
        }
        Ok(())
    }

    /// Appends an argument and that many more of the same, with a comma before each of these. No
    /// sign of a pointer or reference stands before the first: the text of a type depends on that
    /// sign alone of the text before it, and so each has the text of a type that stands at the very
    /// beginning.
    #[cycle(printing)]
    #[inline(always)]
    fn emit_repeated(
        &mut self,
        asker: Asker,
        w: &mut String,
        index: TypeIndex,
        repeats: usize,
        seen: &mut Seen<'_>,
    ) -> Result<()>
        requires room { length seen.old.path.now.items ≤ 1024 }
        requires no_sign { ends_in_sigil (string_bytes w.old) ≡ false }
        ensures same { self.new ≡ self.old }
        ensures level { KeepsLevel seen.old seen.new }
        ensures text { Appends P.provided self.old asker seen.old
            (repeated index repeats) w.old w.new result }
    {
        if repeats == 0 {
            return self.emit_type_index(asker, w, index, seen);
        }
        self.emit_copied(asker, w, index, repeats, seen)
    }

    /// Appends an argument and copies of it, as [`TypePrinter::emit_repeated`].
    #[cycle(printing)]
    #[inline(never)]
    fn emit_copied(
        &mut self,
        asker: Asker,
        w: &mut String,
        index: TypeIndex,
        repeats: usize,
        seen: &mut Seen<'_>,
    ) -> Result<()>
        requires room { length seen.old.path.now.items ≤ 1024 }
        requires no_sign { ends_in_sigil (string_bytes w.old) ≡ false }
        ensures same { self.new ≡ self.old }
        ensures level { KeepsLevel seen.old seen.new }
        ensures text { Appends P.provided self.old asker seen.old
            (repeated index repeats) w.old w.new result }
    {
        let mut argument = String::new(asker.alloc);
        let printed = self.emit_type_index(asker, &mut argument, index, seen);
        emit(w, &argument)?;
        printed?;
        emit_copies(w, self.flags(), &argument, repeats)
    }
}
