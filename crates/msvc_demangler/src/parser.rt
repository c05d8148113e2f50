//! The reading of a name: the parts still to be read, those that were, and what may be referred to.

ghost use Rattle.std.specs.Prelude.{◌≡◌, ◌+◌, ◌*◌, ◌≤◌, [], IfOk, OnOk, drop, length};
ghost use Rattle.std.specs.List.{prefix_len};
ghost use Rattle.std.specs.Result.{result_ok};
ghost use Rattle.msvc_demangler.specs.References.{is_plain, names_of, next_part};
ghost use Rattle.msvc_demangler.specs.Literals.{IsLiteralAt, IsUnreadLiteral, ReadsAs};
ghost use Rattle.msvc_demangler.specs.Literals.{is_literal, literal_name};
ghost use Rattle.msvc_demangler.specs.Texts.{SameTasks, handed, last_value};

use crate::budget::Budget;
use crate::letters::{extended_qualifiers, qualifiers_of};
use crate::numbers::{Number, split_number};
use crate::printer::print_part;
use crate::qualifiers::Qualifiers;
use crate::stop::{Result, Stop};
use crate::tasks::{Place, Task};
use crate::tree::{Identifier, NO_NODE, Node, Span, Tree};
use std::alloc::{AllocError, Global};

/// The most tasks for each byte of a name, and for its end. A byte that begins a type in a list has
/// most: the list, the type, its qualifiers, the tag, its name, an identifier, and to remember it.
const TASKS_PER_BYTE: usize = 32;

/// The number of bytes before the first `@`.
fn count_plain(text: &[u8]) -> usize
    ensures is { result ≡ prefix_len is_plain text.now }
    ensures within { result ≤ length text.now }
{
    text.iter().take_while(|byte| !(**byte == b'@')).count()
}

/// The reading of a name.
#[derive(Drop)]
pub(crate) struct Parser<'n> {
    /// The allocator.
    pub(crate) alloc: Global,
    /// The number of the name's bytes.
    length: usize,
    /// The rest of the name, which is still to be read.
    pub(crate) rest: &'n [u8],
    /// The tree of the parts that have been read.
    pub(crate) tree: Tree,
    /// The tasks that are to be done, the next at the end.
    tasks: Vec<Task>,
    /// The tasks that the task at hand puts before those, the next at the start.
    planned: Vec<Task>,
    /// The nodes that were read for tasks to come.
    values: Vec<usize>,
    /// The names that were remembered, of the enclosing templates too.
    pub(crate) names: Vec<Span>,
    /// The index of the first name that may be referred to.
    pub(crate) first_name: usize,
    /// The parameters' types that were remembered, of the enclosing templates too.
    pub(crate) parameters: Vec<usize>,
    /// The index of the first parameter that may be referred to.
    pub(crate) first_parameter: usize,
    /// The budget of what was printed of parts that are referred to.
    pub(crate) budget: Budget,
}

impl<'n> Parser<'n> {
    /// The reading of a name that has not begun.
    ///
    /// # Errors
    /// `AllocError` when memory runs out.
    pub(crate) fn new(alloc: Global, name: &'n [u8]) -> std::result::Result<Parser<'n>, AllocError>
        ensures length { IfOk result (λ p. p.length ≡ length name.entry.now) }
        ensures rest { IfOk result (λ p. p.rest.now ≡ name.entry.now) }
        ensures tasks { IfOk result (λ p. (p.tasks.items ≡ []) × (p.planned.items ≡ [])) }
    {
        Ok(Parser {
            alloc,
            length: name.len(),
            rest: name,
            tree: Tree::new(alloc, name)?,
            tasks: Vec::new(alloc),
            planned: Vec::new(alloc),
            values: Vec::new(alloc),
            names: Vec::new(alloc),
            first_name: 0,
            parameters: Vec::new(alloc),
            first_parameter: 0,
            budget: Budget::new(),
        })
    }

    /// Reads the whole name, counts the tasks, and returns the index of its symbol.
    ///
    /// # Errors
    /// The name isn't decorated; memory ran out.
    pub(crate) fn read(&mut self, tasks: &mut usize) -> Result<usize>
        ensures few { tasks.new ≤ 32 * (self.old.length + 1) }
        ensures literal { IsUnreadLiteral self.old
            → IfOk result (IsLiteralAt self.old.rest.now self.new.tree) }
    {
        *tasks = 0;
        self.tasks.push(Task::Symbol)?;
        let most = self.length.saturating_add(1).saturating_mul(TASKS_PER_BYTE);
        for number in 0..most {
            let Some(task) = self.tasks.pop() else {
                return self.end();
            };
            *tasks = number + 1;
            self.run(task)?;
            self.take_over()?;
        }
        Err(Stop::Undecorated)
    }

    /// Puts the planned tasks before the other ones.
    fn take_over(&mut self) -> Result<()>
        ensures tasks { self.old.planned.items ≡ [] → SameTasks self.old self.new }
        ensures handed { handed self.new ≡ handed self.old }
        ensures texts { self.new.tree.texts.items ≡ self.old.tree.texts.items }
    {
        while let Some(task) = self.planned.pop() {
            self.tasks.push(task)?;
        }
        Ok(())
    }

    /// Plans a task, after those that the task at hand has planned.
    pub(crate) fn plan(&mut self, task: Task) -> Result<()>
        ensures { self.new.values.items ≡ self.old.values.items }
    {
        self.planned.push(task)?;
        Ok(())
    }

    /// Plans tasks, after those that the task at hand has planned.
    pub(crate) fn plan_all(&mut self, tasks: &[Task]) -> Result<()> {
        self.planned.extend_from_slice(tasks)?;
        Ok(())
    }

    /// Hands a node on to a task to come.
    #[tactic(auto, using(crate::proofs::Remembered::get_last))]
    pub(crate) fn push(&mut self, index: usize) -> Result<()>
        ensures last { OnOk result (last_value self.new ≡ Some index) }
        ensures tasks { SameTasks self.old self.new }
        ensures names { names_of self.new ≡ names_of self.old }
        ensures rest { self.new.rest.now ≡ self.old.rest.now }
        ensures tree { self.new.tree ≡ self.old.tree }
    {
        self.values.push(index)?;
        Ok(())
    }

    /// Adds a node, and hands it on.
    #[tactic(auto, using(crate::proofs::Remembered::get_last))]
    pub(crate) fn give(&mut self, node: Node) -> Result<()>
        ensures handed { OnOk result (handed self.new ≡ Some node) }
        ensures tasks { SameTasks self.old self.new }
        ensures names { names_of self.new ≡ names_of self.old }
        ensures rest { self.new.rest.now ≡ self.old.rest.now }
        ensures texts { self.new.tree.texts.items ≡ self.old.tree.texts.items }
    {
        let index = self.tree.add(node)?;
        self.push(index)
    }

    /// Adds an identifier without template arguments, and hands it on.
    pub(crate) fn give_identifier(&mut self, identifier: Identifier) -> Result<()>
        ensures handed { OnOk result (handed self.new ≡ Some (Node.Identifier identifier None)) }
        ensures names { names_of self.new ≡ names_of self.old }
        ensures texts { self.new.tree.texts.items ≡ self.old.tree.texts.items }
    {
        self.give(Node::Identifier(identifier, None))
    }

    /// The node that was handed on last, which is the symbol of the name.
    fn end(&mut self) -> Result<usize>
        ensures last { result_ok result ≡ last_value self.old }
        ensures tree { self.new.tree ≡ self.old.tree }
    {
        match self.values.pop() {
            Some(index) => Ok(index),
            None => Err(Stop::Undecorated),
        }
    }

    /// The node that was handed on last, which the task at hand takes. No node's index if there is
    /// none.
    pub(crate) fn pop(&mut self) -> usize {
        match self.values.pop() {
            Some(index) => index,
            None => NO_NODE,
        }
    }

    /// The node that was handed on last, which stays. No node's index if there is none.
    pub(crate) fn last(&self) -> usize {
        match self.values.last() {
            Some(index) => *index,
            None => NO_NODE,
        }
    }

    /// The node that was handed on last, which stays.
    pub(crate) fn top(&self) -> Result<usize>
        ensures { result_ok result ≡ last_value self.now }
    {
        match self.values.last() {
            Some(index) => Ok(*index),
            None => Err(Stop::Undecorated),
        }
    }

    /// Takes the last nodes that were handed on, and makes a list of them.
    pub(crate) fn pop_list(&mut self, count: usize) -> Result<Span> {
        let start = self.values.len().saturating_sub(count);
        let list = self
            .tree
            .add_list(self.values.as_slice().split_at(start).1)?;
        self.values.truncate(start);
        Ok(list)
    }

    /// Takes the last nodes that were handed on, and makes a list of them, the last of them first.
    pub(crate) fn pop_reversed(&mut self, count: usize) -> Result<Span> {
        let start = self.values.len().saturating_sub(count);
        let list = self
            .tree
            .add_reversed(self.values.as_slice().split_at(start).1)?;
        self.values.truncate(start);
        Ok(list)
    }

    /// Goes past a prefix, if what is left begins with it, and returns whether it does.
    pub(crate) fn take(&mut self, prefix: &[u8]) -> bool {
        let rest = self.rest;
        match rest.strip_prefix(prefix) {
            Some(after) => {
                self.rest = after;
                true
            }
            None => false,
        }
    }

    /// Goes past a byte, and returns it.
    pub(crate) fn take_byte(&mut self) -> Result<u8> {
        let rest = self.rest;
        match rest {
            [byte, after @ ..] => {
                self.rest = after;
                Ok(*byte)
            }
            [] => Err(Stop::Undecorated),
        }
    }

    /// Reads a number.
    pub(crate) fn take_number(&mut self) -> Result<Number> {
        let rest = self.rest;
        match split_number(rest) {
            Some((number, after)) => {
                self.rest = after;
                Ok(number)
            }
            None => Err(Stop::Undecorated),
        }
    }

    /// Reads a number that has no minus sign.
    pub(crate) fn take_unsigned(&mut self) -> Result<u64> {
        let number = self.take_number()?;
        if number.is_negative {
            return Err(Stop::Undecorated);
        }
        Ok(number.magnitude)
    }

    /// Reads a number whose magnitude is below 2^63. It has a minus sign only if it isn't 0.
    pub(crate) fn take_signed(&mut self) -> Result<Number> {
        let number = self.take_number()?;
        if number.magnitude > 0x7fff_ffff_ffff_ffff {
            return Err(Stop::Undecorated);
        }
        Ok(Number {
            magnitude: number.magnitude,
            is_negative: number.is_negative && number.magnitude != 0,
        })
    }

    /// Reads numbers whose magnitudes are below 2^63, and makes a list of them.
    pub(crate) fn take_offsets(&mut self, count: usize) -> Result<Span> {
        for _ in 0..count {
            let offset = self.take_signed()?;
            self.give(Node::Number(offset))?;
        }
        self.pop_list(count)
    }

    /// Reads the letter of qualifiers.
    pub(crate) fn take_qualifiers(&mut self) -> Result<Qualifiers> {
        match qualifiers_of(self.take_byte()?) {
            Some(qualifiers) => Ok(qualifiers),
            None => Err(Stop::Undecorated),
        }
    }

    /// Reads the qualifiers of a pointer before its pointee.
    pub(crate) fn take_extended(&mut self) -> Qualifiers {
        let rest = self.rest;
        let (qualifiers, after) = extended_qualifiers(rest);
        self.rest = after;
        qualifiers
    }

    /// Goes past the first `@` that is left, and returns the part before it.
    pub(crate) fn take_until_at(&mut self) -> Result<Span>
        ensures part { IfOk result (λ part. part ≡ next_part self.old) }
        ensures rest { IfOk result (λ part.
            self.new.rest.now ≡ drop (part.count + 1) self.old.rest.now) }
        ensures names { names_of self.new ≡ names_of self.old }
        ensures texts { self.new.tree.texts.items ≡ self.old.tree.texts.items }
    {
        let rest = self.rest;
        let start = self.length.saturating_sub(rest.len());
        let count = count_plain(rest);
        if count == rest.len() {
            return Err(Stop::Undecorated);
        }
        self.rest = &rest[count + 1..];
        Ok(Span { start, count })
    }

    /// Prints a node in full, and adds its text, with texts before and after it.
    pub(crate) fn print(&mut self, before: &str, index: usize, after: &str) -> Result<Span> {
        let mut budget = self.budget;
        let printed = print_part(self.alloc, &self.tree, index, &mut budget);
        self.budget = budget;
        let text = printed?;
        self.tree
            .add_texts(&[before.as_bytes(), text.as_slice(), after.as_bytes()])
    }

    /// Reads the part that a task says.
    fn run(&mut self, task: Task) -> Result<()>
        ensures { task ≡ Task.Symbol → ReadsAs is_literal literal_name self.old self.new result }
    {
        match task {
            Task::Identifier(_)
            | Task::Scopes(_)
            | Task::LocalScope(_)
            | Task::TemplateEnd(..)
            | Task::Structor
            | Task::Forget => self.run_name(task),
            Task::Arguments(_)
            | Task::AutoArgument
            | Task::MemberArgument(..)
            | Task::ReferenceArgument => self.run_argument(task),
            Task::Type(_)
            | Task::Qualify(_)
            | Task::Tagged(_)
            | Task::Custom
            | Task::Pointer(..)
            | Task::MethodPointer(_)
            | Task::MemberPointer(..)
            | Task::Array(..) => self.run_type(task),
            Task::Signature(_)
            | Task::Parameters
            | Task::MoreParameters(_)
            | Task::Remember(_)
            | Task::SignatureEnd(_)
            | Task::Function
            | Task::FunctionEnd(..) => self.run_function(task),
            Task::TypeName
            | Task::TypeDescriptor
            | Task::Untyped
            | Task::BaseClass
            | Task::Table
            | Task::TableFor(_)
            | Task::Guard
            | Task::VirtualCall => self.run_intrinsic(task),
            _ => self.run_symbol(task),
        }
    }
}
