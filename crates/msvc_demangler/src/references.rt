//! Back references: the names, and the types of parameters, that a digit stands for.

ghost use Rattle.std.specs.Prelude.{◌≡◌, ◌-◌, [], IfOk, OnOk, drop, map, option_map, take};
ghost use Rattle.std.specs.Result.{result_ok};
ghost use Rattle.msvc_demangler.specs.References.{handed_name, is_among, names_of, part_text};
ghost use Rattle.msvc_demangler.specs.References.{referred, remember, remember_type, types_of};
ghost use Rattle.msvc_demangler.specs.References.{with_type};
ghost use Rattle.msvc_demangler.specs.Texts.{last_value, text_at};

use crate::parser::Parser;
use crate::stop::{Result, Stop};
use crate::tree::{Identifier, Span, Tree};

/// The number of names, and of parameters, to which a name may refer: a digit says which.
const REMEMBERED: usize = 10;

/// Whether a name is among those that are remembered.
#[tactic(auto, using(crate::proofs::Remembered::looking))]
fn is_remembered(tree: &Tree, known: &[Span], name: &[u8]) -> Result<bool>
    ensures { IfOk result (λ is.
        is ≡ is_among name.now (map (text_at tree.now.texts.items) known.now)) }
{
    for other in known {
        if tree.text(*other)? == name {
            return Ok(true);
        }
    }
    Ok(false)
}

/// The place in a list that a digit stands for.
fn place_of(digit: u8) -> usize
    ensures { result ≡ digit - 48 }
{
    usize::from(digit.saturating_sub(b'0'))
}

/// The values of a list from a place on.
fn from_place<T>(items: &[T], first: usize) -> &[T]
    ensures { result.now ≡ drop first items.now }
{
    items.split_at(first.min(items.len())).1
}

impl<'n> Parser<'n> {
    /// Begins a template, which has names and parameters of its own to refer to.
    pub(crate) fn enter_template(&mut self)
        ensures names { names_of self.new ≡ [] }
        ensures types { types_of self.new ≡ [] }
        ensures below { self.new.names.items ≡ self.old.names.items }
        ensures types_below { self.new.parameters.items ≡ self.old.parameters.items }
    {
        self.first_name = self.names.len();
        self.first_parameter = self.parameters.len();
    }

    /// Ends a template: its names and parameters are forgotten, and the names and parameters from
    /// these places on may be referred to again.
    pub(crate) fn leave_template(&mut self, first_name: usize, first_parameter: usize)
        ensures names { self.new.names.items ≡ take self.old.first_name self.old.names.items }
        ensures first_name { self.new.first_name ≡ first_name }
        ensures types { self.new.parameters.items
            ≡ take self.old.first_parameter self.old.parameters.items }
        ensures first_type { self.new.first_parameter ≡ first_parameter }
    {
        self.names.truncate(self.first_name);
        self.parameters.truncate(self.first_parameter);
        self.first_name = first_name;
        self.first_parameter = first_parameter;
    }

    /// Remembers a name, unless it is remembered, or as many are as can be.
    #[tactic(auto, unfolding(crate::specs::References::remember))]
    pub(crate) fn remember_name(&mut self, name: Span) -> Result<()>
        ensures { OnOk result
            (names_of self.new ≡ remember (names_of self.old) (part_text self.old name)) }
    {
        if self.first_name > self.names.len() {
            return Err(Stop::Undecorated);
        }
        let known = from_place(self.names.as_slice(), self.first_name);
        if known.len() >= REMEMBERED {
            return Ok(());
        }
        let text = self.tree.text(name)?;
        if is_remembered(&self.tree, known, text)? {
            return Ok(());
        }
        self.names.push(name)?;
        Ok(())
    }

    /// The name that a digit stands for.
    #[tactic(auto, using(crate::proofs::Remembered::mapped_at))]
    fn remembered_name(&self, digit: u8) -> Result<Span>
        ensures { option_map (part_text self.now) (result_ok result)
            ≡ referred (names_of self.now) digit }
    {
        match from_place(self.names.as_slice(), self.first_name).get(place_of(digit)) {
            Some(name) => Ok(*name),
            None => Err(Stop::Undecorated),
        }
    }

    /// Hands on the name that a digit stands for.
    pub(crate) fn refer_to_name(&mut self, digit: u8) -> Result<()>
        ensures { OnOk result (handed_name self.new ≡ referred (names_of self.old) digit) }
    {
        let name = self.remembered_name(digit)?;
        self.give_identifier(Identifier::Named(name))
    }

    /// Remembers a parameter's type, unless as many are as can be.
    #[tactic(auto, unfolding(crate::specs::References::remember_type))]
    fn remember_parameter(&mut self, index: usize) -> Result<()>
        ensures { OnOk result (types_of self.new ≡ remember_type (types_of self.old) index) }
    {
        if self.first_parameter > self.parameters.len() {
            return Err(Stop::Undecorated);
        }
        if self.parameters.len() - self.first_parameter < REMEMBERED {
            self.parameters.push(index)?;
        }
        Ok(())
    }

    /// Remembers the type that was handed on last, before which so many bytes were left, if it took
    /// more than one: a letter is as short as a digit.
    pub(crate) fn remember_long(&mut self, left: usize) -> Result<()>
        ensures { OnOk result
            (Some (types_of self.new) ≡ option_map (with_type self.old left) (last_value self.old)) }
    {
        let index = self.top()?;
        if left.saturating_sub(self.rest.len()) > 1 {
            return self.remember_parameter(index);
        }
        Ok(())
    }

    /// The parameter's type that a digit stands for.
    fn remembered_parameter(&self, digit: u8) -> Result<usize>
        ensures { result_ok result ≡ referred (types_of self.now) digit }
    {
        match from_place(self.parameters.as_slice(), self.first_parameter).get(place_of(digit)) {
            Some(index) => Ok(*index),
            None => Err(Stop::Undecorated),
        }
    }

    /// Hands on the parameter's type that a digit stands for.
    pub(crate) fn refer_to_parameter(&mut self, digit: u8) -> Result<()>
        ensures { OnOk result (last_value self.new ≡ referred (types_of self.old) digit) }
    {
        let index = self.remembered_parameter(digit)?;
        self.push(index)
    }
}
