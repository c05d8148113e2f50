//! Types.

ghost use Rattle.std.specs.Prelude.{◌≡◌, option_map};
ghost use Rattle.msvc_demangler.specs.Words.{basic_type_of as split_basic_type_of};
ghost use Rattle.msvc_demangler.specs.Words.{before as before_of, read_word};

use crate::letters::extended_qualifiers;
use crate::parser::Parser;
use crate::qualifiers::{Qualifiers, UNQUALIFIED};
use crate::stop::{Result, Stop};
use crate::tasks::{Mode, Place, Task};
use crate::tree::{Node, Type};
use crate::words::{Affinity, basic_type_of, keyword_of, later_basic_type_of, pointer_of};

/// Whether a pointer leads to a member, judged by what comes after its letter. None if neither.
fn leads_to_member(rest: &[u8]) -> Option<bool> {
    match rest {
        [b'6', ..] => Some(false),
        [b'8', ..] => Some(true),
        [b'0'..=b'9', ..] => None,
        _ => match extended_qualifiers(rest).1 {
            [b'A'..=b'D', ..] => Some(false),
            [b'Q'..=b'T', ..] => Some(true),
            _ => None,
        },
    }
}

/// A word, if there is one, and what comes after it.
fn before<'t>(word: Option<&'static str>, after: &'t [u8]) -> Option<(&'static str, &'t [u8])>
    ensures { read_word result
        ≡ before_of after.entry.now (option_map (λ w. w.now) word.entry) }
{
    match word {
        Some(word) => Some((word, after)),
        None => None,
    }
}

/// The basic type that a text begins with, and what comes after.
#[tactic(auto, unfolding(crate::specs::Words::basic_type_of))]
fn split_basic_type(rest: &[u8]) -> Option<(&'static str, &[u8])>
    ensures { read_word result ≡ split_basic_type_of rest.now }
{
    match rest {
        [b'$', b'$', b'T', after @ ..] => Some(("std::nullptr_t", after)),
        [b'_', code, after @ ..] => before(later_basic_type_of(*code), after),
        [code, after @ ..] => before(basic_type_of(*code), after),
        [] => None,
    }
}

impl<'n> Parser<'n> {
    /// Reads the part that a task of types says.
    pub(crate) fn run_type(&mut self, task: Task) -> Result<()> {
        match task {
            Task::Type(mode) => self.start_type(mode),
            Task::Qualify(qualifiers) => {
                let index = self.last();
                self.tree.qualify(index, qualifiers)
            }
            Task::Tagged(keyword) => {
                let name = self.pop();
                self.give_type(Type::Tagged(keyword, name), UNQUALIFIED)
            }
            Task::Pointer(affinity, qualifiers) => {
                let pointee = self.pop();
                self.give_type(Type::Pointer(affinity, pointee, None), qualifiers)
            }
            Task::MethodPointer(qualifiers) => self.end_member_pointer(qualifiers),
            Task::MemberPointer(qualifiers, of_member) => {
                let member = self.last();
                self.tree.set_qualifiers(member, of_member)?;
                self.end_member_pointer(qualifiers)
            }
            Task::Array(rank, qualifiers) => self.end_array(rank, qualifiers),
            _ => self.end_custom(),
        }
    }

    /// Adds a type, and hands it on.
    pub(crate) fn give_type(&mut self, form: Type, qualifiers: Qualifiers) -> Result<()> {
        self.give(Node::Type(form, qualifiers))
    }

    /// Reads a type, with its qualifiers where a mode says.
    fn start_type(&mut self, mode: Mode) -> Result<()> {
        let is_qualified = match mode {
            Mode::Bare => false,
            Mode::Qualified => true,
            Mode::Returned => self.take(b"?"),
        };
        if !is_qualified {
            return self.start_bare_type();
        }
        let qualifiers = self.take_qualifiers()?;
        self.start_bare_type()?;
        self.plan(Task::Qualify(qualifiers))
    }

    /// Makes a type that is named alone.
    fn end_custom(&mut self) -> Result<()> {
        let identifier = self.pop();
        if !self.take(b"@") {
            return Err(Stop::Undecorated);
        }
        self.give_type(Type::Custom(identifier), UNQUALIFIED)
    }

    /// Reads a type without qualifiers before it.
    fn start_bare_type(&mut self) -> Result<()> {
        let text = self.rest;
        let code = self.take_byte()?;
        match code {
            b'T'..=b'W' => self.start_tagged(code),
            b'A' | b'P'..=b'S' => self.start_pointer(code),
            b'Y' => self.start_array(),
            b'?' => self.plan_all(&[Task::Identifier(Place::Type), Task::Custom]),
            b'$' => self.start_marked_type(text),
            _ => self.read_basic_type(text),
        }
    }

    /// Reads a type after `$`, with which a text begins.
    fn start_marked_type(&mut self, text: &'n [u8]) -> Result<()> {
        if self.take(b"$Q") {
            return self.start_plain_pointer(Affinity::RvalueReference, UNQUALIFIED);
        }
        let has_this = self.take(b"$A8@@");
        if has_this || self.take(b"$A6") {
            return self.plan(Task::Signature(has_this));
        }
        self.read_basic_type(text)
    }

    /// Reads a basic type, with which a text begins.
    fn read_basic_type(&mut self, text: &'n [u8]) -> Result<()> {
        match split_basic_type(text) {
            Some((name, after)) => {
                self.rest = after;
                self.give_type(Type::Basic(name), UNQUALIFIED)
            }
            None => Err(Stop::Undecorated),
        }
    }

    /// Reads the type of a class, union, struct or enum.
    fn start_tagged(&mut self, code: u8) -> Result<()> {
        let Some(keyword) = keyword_of(code) else {
            return Err(Stop::Undecorated);
        };
        if code == b'W' && !self.take(b"4") {
            return Err(Stop::Undecorated);
        }
        self.plan_all(&[
            Task::Identifier(Place::Type),
            Task::Scopes(1),
            Task::Tagged(keyword),
        ])
    }

    /// Reads a pointer or an lvalue reference.
    fn start_pointer(&mut self, code: u8) -> Result<()> {
        let Some((affinity, qualifiers)) = pointer_of(code) else {
            return Err(Stop::Undecorated);
        };
        if let Affinity::Reference = affinity {
            return self.start_plain_pointer(affinity, qualifiers);
        }
        match leads_to_member(self.rest) {
            Some(true) => self.start_member_pointer(qualifiers),
            Some(false) => self.start_plain_pointer(affinity, qualifiers),
            None => Err(Stop::Undecorated),
        }
    }

    /// Reads the pointee of a pointer or reference that leads to no member.
    fn start_plain_pointer(&mut self, affinity: Affinity, qualifiers: Qualifiers) -> Result<()> {
        let (pointee, extended) = if self.take(b"6") {
            (Task::Signature(false), UNQUALIFIED)
        } else {
            (Task::Type(Mode::Qualified), self.take_extended())
        };
        self.plan_all(&[pointee, Task::Pointer(affinity, qualifiers.with(extended))])
    }

    /// Reads the class and the pointee of a pointer to a member.
    fn start_member_pointer(&mut self, qualifiers: Qualifiers) -> Result<()> {
        let qualifiers = qualifiers.with(self.take_extended());
        let (member, end) = if self.take(b"8") {
            (Task::Signature(true), Task::MethodPointer(qualifiers))
        } else {
            let of_member = self.take_qualifiers()?;
            (
                Task::Type(Mode::Bare),
                Task::MemberPointer(qualifiers, of_member),
            )
        };
        self.plan_all(&[Task::Identifier(Place::Type), Task::Scopes(1), member, end])
    }

    /// Makes a pointer to a member.
    fn end_member_pointer(&mut self, qualifiers: Qualifiers) -> Result<()> {
        let member = self.pop();
        let class = self.pop();
        let form = Type::Pointer(Affinity::Pointer, member, Some(class));
        self.give_type(form, qualifiers)
    }

    /// Reads the dimensions of an array.
    fn start_array(&mut self) -> Result<()> {
        let rank = self.take_unsigned()?;
        if rank == 0 {
            return Err(Stop::Undecorated);
        }
        let mut read = 0usize;
        for _ in 0..rank {
            let size = self.take_unsigned()?;
            self.give(Node::Dimension(size))?;
            read = read.saturating_add(1);
        }
        let qualifiers = self.take_array_qualifiers()?;
        self.plan_all(&[Task::Type(Mode::Bare), Task::Array(read, qualifiers)])
    }

    /// Reads the qualifiers of an array, which is no member.
    fn take_array_qualifiers(&mut self) -> Result<Qualifiers> {
        if !self.take(b"$$C") {
            return Ok(UNQUALIFIED);
        }
        if let [b'Q'..=b'T', ..] = self.rest {
            return Err(Stop::Undecorated);
        }
        self.take_qualifiers()
    }

    /// Makes an array.
    fn end_array(&mut self, rank: usize, qualifiers: Qualifiers) -> Result<()> {
        let element = self.pop();
        let dimensions = self.pop_list(rank)?;
        self.give_type(Type::Array(dimensions, element), qualifiers)
    }
}
