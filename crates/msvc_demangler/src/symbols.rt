//! Symbols: variables, functions, and symbols that stand for parts of others.

ghost use Rattle.std.specs.Prelude.{◌≡◌, IsTrue, OnOk};
ghost use Rattle.msvc_demangler.specs.Literals.{ReadsAs, is_literal, literal_name};

use crate::parser::Parser;
use crate::stop::{Result, Stop};
use crate::tasks::{Mode, Place, Task};
use crate::tree::{Identifier, Node, Span, Symbol, Type};
use crate::words::{Access, storage_of};

impl<'n> Parser<'n> {
    /// Reads the part that a task of symbols says.
    pub(crate) fn run_symbol(&mut self, task: Task) -> Result<()>
        ensures { task ≡ Task.Symbol → ReadsAs is_literal literal_name self.old self.new result }
    {
        match task {
            Task::Encoding => self.start_encoding(),
            Task::Variable(access) => self.read_variable(access),
            Task::VariableEnd(access) => {
                let index = self.pop();
                let symbol = Symbol::Variable(Some(index), access);
                self.give(Node::Symbol(symbol, None))
            }
            Task::Declared => self.end_declared(),
            Task::Dynamic(text, is_member) => self.end_dynamic(text, is_member),
            _ => self.start_symbol(),
        }
    }

    /// Reads a symbol.
    #[tactic(auto, unfolding(crate::specs::Literals::literal_name))]
    fn start_symbol(&mut self) -> Result<()>
        ensures { ReadsAs is_literal literal_name self.old self.new result }
    {
        let rest = self.rest;
        match rest {
            [b'.', after @ ..] => {
                self.rest = after;
                self.plan_all(&[Task::Type(Mode::Returned), Task::TypeName])
            }
            [b'?', b'?', b'@', ..] => self.read_digest(),
            [b'?', after @ ..] => {
                self.rest = after;
                self.start_intrinsic()
            }
            _ => Err(Stop::Undecorated),
        }
    }

    /// Reads a name that is a digest of another: it is its own text.
    fn read_digest(&mut self) -> Result<()> {
        self.take(b"??@");
        let digest = self.take_until_at()?;
        let located = if self.take(b"??_R4@") { 6 } else { 0 };
        let text = Span {
            start: digest.start.saturating_sub(3),
            count: digest.count.saturating_add(4).saturating_add(located),
        };
        self.give_named(Symbol::Plain, Identifier::Named(text))
    }

    /// Hands on a symbol whose name has one identifier.
    pub(crate) fn give_named(&mut self, symbol: Symbol, identifier: Identifier) -> Result<()> {
        let name = self.tree.add_name(identifier)?;
        self.give(Node::Symbol(symbol, Some(name)))
    }

    /// Reads the name of a variable or function, and what follows it.
    pub(crate) fn start_declared(&mut self) -> Result<()> {
        self.plan_all(&[
            Task::Identifier(Place::Symbol),
            Task::Scopes(1),
            Task::Structor,
            Task::Encoding,
            Task::Declared,
        ])
    }

    /// Reads what follows the name of a symbol: a variable or a function.
    fn start_encoding(&mut self) -> Result<()> {
        let rest = self.rest;
        if let [code, after @ ..] = rest {
            if let Some(access) = storage_of(*code) {
                self.rest = after;
                return self.plan_all(&[Task::Type(Mode::Bare), Task::Variable(access)]);
            }
        }
        self.plan(Task::Function)
    }

    /// Reads the qualifiers of a variable.
    fn read_variable(&mut self, access: Option<Access>) -> Result<()> {
        let index = self.last();
        let (form, _) = self.tree.type_of(index)?;
        if let Type::Pointer(_, pointee, class) = form {
            let qualifiers = self.take_extended();
            self.tree.qualify(index, qualifiers)?;
            return self.read_pointer(pointee, class.is_some(), Task::VariableEnd(access));
        }
        let qualifiers = self.take_qualifiers()?;
        self.tree.set_qualifiers(index, qualifiers)?;
        self.plan(Task::VariableEnd(access))
    }

    /// Reads further qualifiers of what a variable points to, and the class that has it.
    fn read_pointer(&mut self, pointee: usize, is_member: bool, end: Task) -> Result<()> {
        let qualifiers = self.take_qualifiers()?;
        self.tree.qualify(pointee, qualifiers)?;
        if is_member {
            let name = Task::Identifier(Place::Type);
            return self.plan_all(&[name, Task::Scopes(1), Task::Forget, end]);
        }
        self.plan(end)
    }

    /// Gives a symbol its name.
    fn end_declared(&mut self) -> Result<()> {
        let index = self.pop();
        let name = self.pop();
        self.tree.declare(index, name)?;
        self.push(index)
    }

    /// Reads what follows a variable or function whose initializer or destructor this is.
    fn end_dynamic(&mut self, text: &'static str, is_member: bool) -> Result<()> {
        let index = self.pop();
        match self.tree.symbol_of(index)? {
            (Symbol::Variable(..), _) => {
                if !self.take(b"@") || is_member && !self.take(b"@") {
                    return Err(Stop::Undecorated);
                }
                self.start_initializer(Identifier::Initializer(text, index))
            }
            (symbol, Some(name)) if !is_member => {
                let name = self.tree.add_name(Identifier::Initializer(text, name))?;
                self.tree.set(index, Node::Symbol(symbol, Some(name)));
                self.push(index)
            }
            _ => Err(Stop::Undecorated),
        }
    }

    /// Reads the function that is an initializer or destructor of a variable.
    fn start_initializer(&mut self, identifier: Identifier) -> Result<()> {
        let name = self.tree.add_name(identifier)?;
        self.push(name)?;
        self.plan_all(&[Task::Function, Task::Declared])
    }
}
