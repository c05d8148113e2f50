//! Names: identifiers, templates, local scopes.

ghost use Rattle.std.specs.Prelude.{◌≡◌, IsTrue, OnOk};
ghost use Rattle.msvc_demangler.specs.Bytes.{is_digit};
ghost use Rattle.msvc_demangler.specs.References.{handed_name, names_of, next_byte, next_name};
ghost use Rattle.msvc_demangler.specs.References.{with_next};

use crate::numbers::{Number, begins_local_scope};
use crate::operators::{last_operator_of, later_operator_of, operator_of};
use crate::parser::Parser;
use crate::stop::{Result, Stop};
use crate::tasks::{Place, Task};
use crate::tree::{Identifier, Node};

/// An identifier that is always the same, if there is one.
fn fixed(name: Option<&'static str>) -> Option<Identifier> {
    match name {
        Some(name) => Some(Identifier::Fixed(name)),
        None => None,
    }
}

/// The operator, constructor or destructor that a letter or digit after `?` stands for.
fn operator_or_structor(code: u8) -> Option<Identifier> {
    match code {
        b'0' => Some(Identifier::Structor(false, None)),
        b'1' => Some(Identifier::Structor(true, None)),
        b'B' => Some(Identifier::Conversion(None)),
        _ => fixed(operator_of(code)),
    }
}

impl<'n> Parser<'n> {
    /// Reads the part that a task of names says.
    pub(crate) fn run_name(&mut self, task: Task) -> Result<()> {
        match task {
            Task::Identifier(place) => self.start_identifier(place),
            Task::Scopes(count) => self.read_scope(count),
            Task::LocalScope(number) => self.end_local_scope(number),
            Task::TemplateEnd(name, parameter, is_remembered) => {
                self.end_template(name, parameter, is_remembered)
            }
            Task::Structor => {
                let name = self.last();
                self.tree.settle_structor(name)
            }
            _ => {
                self.pop();
                Ok(())
            }
        }
    }

    /// Reads an identifier: a digit for one that is remembered, or the kind that its first bytes
    /// say.
    fn start_identifier(&mut self, place: Place) -> Result<()>
        ensures { IsTrue (is_digit (next_byte self.old))
            → OnOk result (handed_name self.new ≡ next_name self.old) }
    {
        let rest = self.rest;
        match (rest, place) {
            ([digit @ b'0'..=b'9', after @ ..], _) => {
                self.rest = after;
                self.refer_to_name(*digit)
            }
            ([b'?', b'$', after @ ..], _) => {
                self.rest = after;
                self.start_template(place)
            }
            ([b'?', b'A', after @ ..], Place::Scope) => {
                self.rest = after;
                self.read_anonymous()
            }
            ([b'?', after @ ..], Place::Symbol) => {
                self.rest = after;
                self.read_operator()
            }
            ([b'?', after @ ..], Place::Scope) if begins_local_scope(rest) => {
                self.rest = after;
                self.start_local_scope()
            }
            _ => self.read_simple(),
        }
    }

    /// Reads a plain name, and remembers it.
    fn read_simple(&mut self) -> Result<()>
        ensures { OnOk result (names_of self.new ≡ with_next self.old) }
    {
        let name = self.take_until_at()?;
        if name.count == 0 {
            return Err(Stop::Undecorated);
        }
        self.remember_name(name)?;
        self.give_identifier(Identifier::Named(name))
    }

    /// Reads an anonymous namespace, of which the key is remembered.
    fn read_anonymous(&mut self) -> Result<()>
        ensures { OnOk result (names_of self.new ≡ with_next self.old) }
    {
        let key = self.take_until_at()?;
        self.remember_name(key)?;
        self.give_identifier(Identifier::Fixed("`anonymous namespace'"))
    }

    /// Reads the code of an operator, of a constructor or of a destructor.
    fn read_operator(&mut self) -> Result<()> {
        let is_later = self.take(b"_");
        let code = self.take_byte()?;
        if is_later && code == b'_' {
            return self.read_last_operator();
        }
        self.give_operator(if is_later {
            fixed(later_operator_of(code))
        } else {
            operator_or_structor(code)
        })
    }

    /// Reads the code of an operator after `?__`.
    fn read_last_operator(&mut self) -> Result<()> {
        let code = self.take_byte()?;
        if code == b'K' {
            return self.read_suffix();
        }
        self.give_operator(fixed(last_operator_of(code)))
    }

    /// Reads the suffix of an operator of literals.
    fn read_suffix(&mut self) -> Result<()> {
        let suffix = self.take_until_at()?;
        if suffix.count == 0 {
            return Err(Stop::Undecorated);
        }
        self.give_identifier(Identifier::Literal(suffix))
    }

    /// Hands on an operator, if there is one.
    fn give_operator(&mut self, operator: Option<Identifier>) -> Result<()> {
        match operator {
            Some(identifier) => self.give_identifier(identifier),
            None => Err(Stop::Undecorated),
        }
    }

    /// Begins a template, which has names and parameters of its own to refer to.
    fn start_template(&mut self, place: Place) -> Result<()> {
        let first_name = self.first_name;
        let first_parameter = self.first_parameter;
        let is_remembered = !matches!(place, Place::Symbol);
        self.enter_template();
        self.plan_all(&[
            Task::Identifier(Place::Symbol),
            Task::Arguments(0),
            Task::TemplateEnd(first_name, first_parameter, is_remembered),
        ])
    }

    /// Ends a template.
    fn end_template(
        &mut self,
        first_name: usize,
        first_parameter: usize,
        is_remembered: bool,
    ) -> Result<()> {
        self.leave_template(first_name, first_parameter);
        if !is_remembered {
            return Ok(());
        }
        let index = self.last();
        if let (Identifier::Conversion(_), _) = self.tree.identifier_of(index)? {
            return Err(Stop::Undecorated);
        }
        self.remember_text(index)
    }

    /// Reads the next identifier of a qualified name, or its end.
    fn read_scope(&mut self, count: usize) -> Result<()> {
        if self.take(b"@") {
            let identifiers = self.pop_reversed(count)?;
            return self.give(Node::Name(identifiers));
        }
        if self.rest.is_empty() {
            return Err(Stop::Undecorated);
        }
        self.plan_all(&[
            Task::Identifier(Place::Scope),
            Task::Scopes(count.saturating_add(1)),
        ])
    }

    /// Reads the number of a local scope.
    fn start_local_scope(&mut self) -> Result<()> {
        let number = self.take_number()?;
        self.take(b"?");
        self.plan_all(&[Task::Symbol, Task::LocalScope(number)])
    }

    /// Makes an identifier of the symbol that a scope is local to.
    fn end_local_scope(&mut self, number: Number) -> Result<()> {
        let symbol = self.pop();
        let after = format!(in self.alloc; "'::`{}'", number.magnitude)?;
        let name = self.print("`", symbol, after.as_str())?;
        self.give_identifier(Identifier::Named(name))
    }

    /// Prints an identifier, and remembers its text as a name.
    pub(crate) fn remember_text(&mut self, index: usize) -> Result<()> {
        let name = self.print("", index, "")?;
        self.remember_name(name)
    }
}
