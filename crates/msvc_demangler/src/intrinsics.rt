//! Symbols that a compiler makes: tables, type information, guards, thunks.

ghost use Rattle.std.specs.Prelude.{◌≡◌, OnOk};
ghost use Rattle.msvc_demangler.specs.Literals.{HandsOn, ReadsAs, is_marked_literal, literal_text};
ghost use Rattle.msvc_demangler.specs.Literals.{marked_literal};

use crate::functions::unwritten_signature;
use crate::parser::Parser;
use crate::qualifiers::{Qualifiers, UNQUALIFIED};
use crate::stop::{Result, Stop};
use crate::tasks::{Mode, Place, Task};
use crate::tree::{Adjustment, FunctionClass, Identifier, Node, Symbol};
use crate::words::convention_of;

impl<'n> Parser<'n> {
    /// Reads the part that a task of the symbols that a compiler makes says.
    pub(crate) fn run_intrinsic(&mut self, task: Task) -> Result<()> {
        match task {
            Task::TypeName => self.end_type_information(b"", "`RTTI Type Descriptor Name'"),
            Task::TypeDescriptor => self.end_type_information(b"@8", "`RTTI Type Descriptor'"),
            Task::Untyped => self.end_untyped(true),
            Task::BaseClass => self.end_untyped(false),
            Task::Table => self.read_table(),
            Task::TableFor(qualifiers) => {
                let target = self.pop();
                self.give_table(qualifiers, Some(target))
            }
            Task::Guard => self.end_guard(),
            _ => self.end_virtual_call(),
        }
    }

    /// Reads a symbol after its `?`.
    pub(crate) fn start_intrinsic(&mut self) -> Result<()>
        ensures { ReadsAs is_marked_literal marked_literal self.old self.new result }
    {
        let rest = self.rest;
        match rest {
            [b'?', b'_', code, after @ ..] => self.start_made(*code, after),
            _ => self.start_declared(),
        }
    }

    /// Reads a symbol by the letter after its `?_`, and what comes after the letter: a symbol that
    /// a compiler makes, or else one whose name is an operator.
    fn start_made(&mut self, code: u8, after: &'n [u8]) -> Result<()>
        ensures { code ≡ 67
            → OnOk result (HandsOn (literal_text after.entry.now) self.old self.new) }
    {
        match code {
            b'_' => self.start_initializer_or_guard(after),
            b'R' => self.start_information(after),
            b'7'..=b'9' | b'A'..=b'C' | b'P' | b'S' => {
                self.rest = after;
                self.start_table(code)
            }
            _ => self.start_declared(),
        }
    }

    /// Reads a symbol by what comes after its `?__`.
    fn start_initializer_or_guard(&mut self, text: &'n [u8]) -> Result<()> {
        match text {
            [code @ (b'E' | b'F' | b'J'), after @ ..] => {
                self.rest = after;
                self.start_dynamic(*code)
            }
            _ => self.start_declared(),
        }
    }

    /// Reads a symbol by what comes after its `?_R`.
    fn start_information(&mut self, text: &'n [u8]) -> Result<()> {
        match text {
            [digit @ b'0'..=b'4', after @ ..] => {
                self.rest = after;
                self.start_type_information(*digit)
            }
            _ => self.start_declared(),
        }
    }

    /// Reads an initializer, a destructor or a guard of a static variable.
    fn start_dynamic(&mut self, code: u8) -> Result<()> {
        if code == b'J' {
            let identifier = Identifier::Guard("`local static thread guard'", 0);
            return self.start_scopes(identifier, Task::Guard);
        }
        let is_member = self.take(b"?");
        self.start_declared()?;
        let text = if code == b'F' {
            "`dynamic atexit destructor for "
        } else {
            "`dynamic initializer for "
        };
        self.plan(Task::Dynamic(text, is_member))
    }

    /// Reads the scopes of an identifier, and the part that a task says.
    fn start_scopes(&mut self, identifier: Identifier, task: Task) -> Result<()> {
        self.give_identifier(identifier)?;
        self.plan_all(&[Task::Scopes(1), task])
    }

    /// Reads information about a type.
    fn start_type_information(&mut self, digit: u8) -> Result<()> {
        match digit {
            b'0' => { self.plan_all(&[Task::Type(Mode::Returned), Task::TypeDescriptor]) }
            b'1' => self.start_base_class(),
            b'2' => self.start_fixed("`RTTI Base Class Array'", Task::Untyped),
            b'3' => self.start_fixed("`RTTI Class Hierarchy Descriptor'", Task::Untyped),
            _ => self.start_fixed("`RTTI Complete Object Locator'", Task::Table),
        }
    }

    /// Reads the scopes of a name that is always the same, and the part that a task says.
    fn start_fixed(&mut self, name: &'static str, task: Task) -> Result<()> {
        self.start_scopes(Identifier::Fixed(name), task)
    }

    /// Reads the descriptor of a base class.
    fn start_base_class(&mut self) -> Result<()> {
        let offset = self.take_unsigned()?;
        let pointer = self.take_signed()?;
        let table = self.take_unsigned()?;
        let flags = self.take_unsigned()?;
        let identifier = Identifier::BaseClass(offset, pointer, table, flags);
        self.start_scopes(identifier, Task::BaseClass)
    }

    /// Reads a table, a guard, a thunk or a string literal.
    fn start_table(&mut self, code: u8) -> Result<()>
        ensures { code ≡ 67
            → OnOk result (HandsOn (literal_text self.old.rest.now) self.old self.new) }
    {
        match code {
            b'7' => self.start_fixed("`vftable'", Task::Table),
            b'8' => self.start_fixed("`vbtable'", Task::Table),
            b'S' => self.start_fixed("`local vftable'", Task::Table),
            b'9' => self.start_scopes(Identifier::VirtualCall(0), Task::VirtualCall),
            b'B' => self.start_scopes(Identifier::Guard("`local static guard'", 0), Task::Guard),
            b'C' => self.read_string_literal(),
            _ => Err(Stop::Undecorated),
        }
    }

    /// Reads the end of information about a type.
    fn end_type_information(&mut self, end: &[u8], text: &'static str) -> Result<()> {
        let index = self.pop();
        if !self.take(end) || !self.rest.is_empty() {
            return Err(Stop::Undecorated);
        }
        self.give_named(Symbol::Variable(Some(index), None), Identifier::Fixed(text))
    }

    /// Reads the end of a symbol without a type, an `8` that may have to stand there.
    fn end_untyped(&mut self, is_needed: bool) -> Result<()> {
        let name = self.pop();
        if !self.take(b"8") && is_needed {
            return Err(Stop::Undecorated);
        }
        self.give(Node::Symbol(Symbol::Variable(None, None), Some(name)))
    }

    /// Reads the qualifiers of a class's table, and the base that it is for.
    fn read_table(&mut self) -> Result<()> {
        let code = self.take_byte()?;
        if code != b'6' && code != b'7' {
            return Err(Stop::Undecorated);
        }
        let qualifiers = self.take_qualifiers()?;
        if self.take(b"@") {
            return self.give_table(qualifiers, None);
        }
        self.plan_all(&[
            Task::Identifier(Place::Type),
            Task::Scopes(1),
            Task::TableFor(qualifiers),
        ])
    }

    /// Makes the symbol of a class's table.
    fn give_table(&mut self, qualifiers: Qualifiers, target: Option<usize>) -> Result<()> {
        let name = self.pop();
        self.give(Node::Symbol(Symbol::Table(qualifiers, target), Some(name)))
    }

    /// Reads the number of the scope of a guard.
    fn end_guard(&mut self) -> Result<()> {
        let name = self.pop();
        if !self.take(b"4IA") && !self.take(b"5") {
            return Err(Stop::Undecorated);
        }
        if !self.rest.is_empty() {
            let scope = self.take_unsigned()?;
            self.tree.set_guard(name, scope)?;
        }
        self.give(Node::Symbol(Symbol::Plain, Some(name)))
    }

    /// Reads the offset and the calling convention of a virtual call's thunk.
    fn end_virtual_call(&mut self) -> Result<()> {
        let name = self.pop();
        if !self.take(b"$B") {
            return Err(Stop::Undecorated);
        }
        let offset = self.take_unsigned()?;
        self.tree.set_last(name, Identifier::VirtualCall(offset));
        if !self.take(b"A") {
            return Err(Stop::Undecorated);
        }
        let convention = convention_of(self.take_byte()?);
        self.give_thunk(name, convention)
    }

    /// Makes the symbol of a virtual call's thunk.
    fn give_thunk(&mut self, name: usize, convention: &'static str) -> Result<()> {
        let form = unwritten_signature(convention);
        let signature = self.tree.add(Node::Type(form, UNQUALIFIED))?;
        let class = FunctionClass {
            access: None,
            is_global: false,
            is_static: false,
            is_virtual: false,
            is_extern_c: false,
        };
        let symbol = Symbol::Function(signature, class, Adjustment::Unsaid);
        self.give(Node::Symbol(symbol, Some(name)))
    }
}
