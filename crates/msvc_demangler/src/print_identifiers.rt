//! The printing of identifiers and of template arguments.

use crate::flags::DemangleFlags;
use crate::numbers::unsigned;
use crate::printer::{Piece, Printer};
use crate::stop::{Result, Stop};
use crate::tree::{Identifier, Node, Span};
use crate::words::word_if;

impl<'t> Printer<'t> {
    /// Prints an identifier, or plans its parts.
    pub(crate) fn print_identifier(
        &mut self,
        identifier: Identifier,
        arguments: Option<Span>,
        flags: DemangleFlags,
    ) -> Result<()> {
        match identifier {
            Identifier::Named(text) => self.write_text("", text)?,
            Identifier::Fixed(word) => self.write(&[word])?,
            Identifier::Structor(is_destructor, class) => {
                self.write(&[word_if(is_destructor, "~")])?;
                self.plan_whole(class, flags)?;
            }
            Identifier::Conversion(target) => {
                self.write(&["operator"])?;
                self.plan_arguments(arguments, flags)?;
                self.plan(Piece::Word(" "))?;
                return self.plan_whole(target, flags);
            }
            Identifier::Literal(suffix) => self.write_text("operator \"\"", suffix)?,
            _ => return self.print_made_identifier(identifier, flags),
        }
        self.plan_arguments(arguments, flags)
    }

    /// Prints a word, and a text of the tree.
    fn write_text(&mut self, word: &str, text: Span) -> Result<()> {
        let tree = self.tree;
        self.push_bytes(word.as_bytes())?;
        self.push_bytes(tree.text(text)?)
    }

    /// Plans a node that must be there.
    fn plan_whole(&mut self, index: Option<usize>, flags: DemangleFlags) -> Result<()> {
        match index {
            Some(index) => self.plan(Piece::Whole(index, flags)),
            None => Err(Stop::Undecorated),
        }
    }

    /// Plans template arguments.
    fn plan_arguments(&mut self, arguments: Option<Span>, flags: DemangleFlags) -> Result<()> {
        match arguments {
            Some(list) => self.plan_all(&[
                Piece::Word("<"),
                Piece::List(list, 0, ", ", flags),
                Piece::Word(">"),
            ]),
            None => Ok(()),
        }
    }

    /// Prints an identifier that a compiler makes, or plans its parts.
    fn print_made_identifier(
        &mut self,
        identifier: Identifier,
        flags: DemangleFlags,
    ) -> Result<()> {
        match identifier {
            Identifier::Initializer(text, symbol) => self.print_initializer(text, symbol, flags),
            Identifier::Guard(text, 0) => self.write(&[text]),
            Identifier::Guard(text, scope) => self.plan_number(text, "{", scope, "}"),
            Identifier::BaseClass(offset, pointer, table, bits) => self.plan_all(&[
                Piece::Word("`RTTI Base Class Descriptor at ("),
                Piece::Number(unsigned(offset)),
                Piece::Word(", "),
                Piece::Number(pointer),
                Piece::Word(", "),
                Piece::Number(unsigned(table)),
                Piece::Word(", "),
                Piece::Number(unsigned(bits)),
                Piece::Word(")'"),
            ]),
            Identifier::VirtualCall(offset) => {
                self.plan_number("`vcall'", "{", offset, ", {flat}}")
            }
            _ => Ok(()),
        }
    }

    /// Plans words, a number, and a word.
    fn plan_number(
        &mut self,
        text: &'static str,
        open: &'static str,
        number: u64,
        close: &'static str,
    ) -> Result<()> {
        self.plan_all(&[
            Piece::Word(text),
            Piece::Word(open),
            Piece::Number(unsigned(number)),
            Piece::Word(close),
        ])
    }

    /// Plans the parts of an initializer or a destructor of a static variable, or of a function.
    fn print_initializer(
        &mut self,
        text: &'static str,
        symbol: usize,
        flags: DemangleFlags,
    ) -> Result<()> {
        let quote = match self.tree.node(symbol)? {
            Node::Symbol(..) => "`",
            _ => "'",
        };
        self.plan_all(&[
            Piece::Word(text),
            Piece::Word(quote),
            Piece::Whole(symbol, flags),
            Piece::Word("''"),
        ])
    }

    /// Prints a template argument that names a symbol, or plans its parts.
    pub(crate) fn print_reference(
        &mut self,
        sign: &'static str,
        symbol: Option<usize>,
        offsets: Span,
        flags: DemangleFlags,
    ) -> Result<()> {
        let has_offsets = offsets.count > 0;
        self.write(&[if has_offsets { "{" } else { sign }])?;
        if let Some(symbol) = symbol {
            self.plan(Piece::Whole(symbol, flags))?;
            self.plan_words(&[word_if(has_offsets, ", ")])?;
        }
        self.plan(Piece::List(offsets, 0, ", ", flags))?;
        self.plan_words(&[word_if(has_offsets, "}")])
    }
}
