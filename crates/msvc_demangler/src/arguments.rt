//! Template arguments.

use crate::parser::Parser;
use crate::stop::{Result, Stop};
use crate::tasks::{Mode, Place, Task};
use crate::tree::{NO_NODE, NO_NODES, Node};

/// The number of offsets of a pointer to a member, by its letter.
fn count_offsets(code: u8) -> usize {
    match code {
        b'H' => 1,
        b'F' | b'I' => 2,
        b'G' | b'J' => 3,
        _ => 0,
    }
}

impl<'n> Parser<'n> {
    /// Reads the part that a task of template arguments says.
    pub(crate) fn run_argument(&mut self, task: Task) -> Result<()> {
        match task {
            Task::Arguments(count) => self.read_argument(count),
            Task::AutoArgument => {
                self.pop();
                self.start_auto_argument()
            }
            Task::MemberArgument(code, has_symbol) => self.end_member_argument(code, has_symbol),
            _ => {
                let symbol = self.pop();
                self.give(Node::Reference("", Some(symbol), NO_NODES))
            }
        }
    }

    /// Reads the next template argument, or the end of them.
    fn read_argument(&mut self, count: usize) -> Result<()> {
        if self.take(b"@") {
            return self.end_arguments(count);
        }
        if self.take_separator() {
            return self.plan(Task::Arguments(count));
        }
        let more = Task::Arguments(count.saturating_add(1));
        if self.take(b"$M") {
            return self.plan_all(&[Task::Type(Mode::Bare), Task::AutoArgument, more]);
        }
        self.start_argument()?;
        self.plan(more)
    }

    /// Goes past a mark that separates packs of arguments, and returns whether there is one.
    fn take_separator(&mut self) -> bool {
        self.take(b"$S") || self.take(b"$$V") || self.take(b"$$Z") || self.take(b"$$$V")
    }

    /// Gives the identifier of a template its arguments.
    fn end_arguments(&mut self, count: usize) -> Result<()> {
        let arguments = self.pop_list(count)?;
        let index = self.last();
        self.tree.set_arguments(index, arguments)
    }

    /// Reads a template argument.
    fn start_argument(&mut self) -> Result<()> {
        let rest = self.rest;
        match rest {
            [b'$', code @ (b'1' | b'F'..=b'J' | b'0'), after @ ..] => {
                self.rest = after;
                self.start_value(*code)
            }
            _ => self.start_type_argument(),
        }
    }

    /// Reads an argument for an `auto` parameter, after its type.
    fn start_auto_argument(&mut self) -> Result<()> {
        let rest = self.rest;
        match rest {
            [code @ (b'1' | b'F'..=b'J' | b'0'), after @ ..] => {
                self.rest = after;
                self.start_value(*code)
            }
            _ => self.start_type_argument(),
        }
    }

    /// Reads an argument that is a type, or a reference to a symbol.
    fn start_type_argument(&mut self) -> Result<()> {
        if self.take(b"$$Y") {
            return self.plan_all(&[Task::Identifier(Place::Type), Task::Scopes(1)]);
        }
        if self.rest.starts_with(b"$E?") {
            self.take(b"$E");
            return self.plan_all(&[Task::Symbol, Task::ReferenceArgument]);
        }
        let is_qualified = !self.take(b"$$B") && self.take(b"$$C");
        self.plan(Task::Type(if is_qualified {
            Mode::Qualified
        } else {
            Mode::Bare
        }))
    }

    /// Reads an argument that is a number, or a pointer to a symbol or to a member.
    fn start_value(&mut self, code: u8) -> Result<()> {
        if code == b'0' {
            let number = self.take_number()?;
            return self.give(Node::Number(number));
        }
        let has_symbol = code != b'F' && code != b'G' && self.rest.starts_with(b"?");
        let end = Task::MemberArgument(code, has_symbol);
        if has_symbol {
            return self.plan_all(&[Task::Symbol, end]);
        }
        self.plan(end)
    }

    /// Reads the offsets of a pointer to a member.
    fn end_member_argument(&mut self, code: u8, has_symbol: bool) -> Result<()> {
        let mut symbol = None;
        if has_symbol {
            symbol = Some(self.take_named()?);
        }
        let offsets = self.take_offsets(count_offsets(code))?;
        let is_pointer = code != b'F' && code != b'G';
        let sign = if is_pointer { "&" } else { "" };
        self.give(Node::Reference(sign, symbol, offsets))
    }

    /// Takes a symbol, and remembers the last identifier of its name.
    fn take_named(&mut self) -> Result<usize> {
        let symbol = self.pop();
        let (_, name) = self.tree.symbol_of(symbol)?;
        let last = self.tree.identifier_before(name.unwrap_or(NO_NODE), 0);
        self.remember_text(last)?;
        Ok(symbol)
    }
}
