//! The printing of a tree.

ghost use Rattle.std.specs.Prelude.{◌≡◌, ◌+◌, ◌≤◌, IfOk, OnOk};
ghost use Rattle.std.specs.Prelude.{[], ◌∷◌, ◌++◌};
ghost use Rattle.std.specs.Option.{ForSome};
ghost use Rattle.std.specs.Vec.{vec_len};
ghost use Rattle.msvc_demangler.specs.Literals.{literal_at};
ghost use Rattle.msvc_demangler.specs.Pieces.{PrintsAll, PrintsKnown, SamePieces, SamePrinted};
ghost use Rattle.msvc_demangler.specs.Pieces.{before, piece_text, planned_text, rest_text};

use crate::budget::Budget;
use crate::flags::{DemangleFlags, FULL_TEXT};
use crate::numbers::{Number, unsigned};
use crate::qualifiers::Qualifiers;
use crate::stop::{Result, Stop};
use crate::tree::{Node, Span, Tree, Type};
use std::alloc::Global;

/// A piece that is to be printed.
#[derive(Clone, Copy)]
pub(crate) enum Piece {
    /// These bytes.
    Word(&'static str),
    /// A text of the tree.
    Text(Span),
    /// A node.
    Whole(usize, DemangleFlags),
    /// The text before what a type is the type of.
    Before(usize, DemangleFlags),
    /// The text after what a type is the type of.
    After(usize, DemangleFlags),
    /// A list of nodes, and the text between them.
    List(Span, usize, &'static str, DemangleFlags),
    /// A space, after a letter, a digit or `>`.
    Space,
    /// `...` after parameters, and a comma between if there are any.
    Ellipsis,
    /// A number, with a minus sign where it has one.
    Number(Number),
}

/// The printing of a tree.
#[derive(Drop)]
pub(crate) struct Printer<'t> {
    /// The allocator.
    alloc: Global,
    /// The tree.
    pub(crate) tree: &'t Tree,
    /// The pieces that are to be printed, the next at the end.
    pieces: Vec<Piece>,
    /// The pieces that the piece at hand puts before those, the next at the start.
    planned: Vec<Piece>,
    /// The text that has been printed.
    text: Vec<u8>,
}

/// Prints a node in full, and counts what is printed.
///
/// # Errors
/// The node has no text, or more than may be printed; memory ran out.
pub(crate) fn print_part(
    alloc: Global,
    tree: &Tree,
    index: usize,
    budget: &mut Budget,
) -> Result<Vec<u8>> {
    print_tree(alloc, tree, Piece::Whole(index, FULL_TEXT), budget)
}

/// Prints a piece, and counts what is printed.
///
/// # Errors
/// The piece has no text, or more than may be printed; memory ran out.
#[tactic(auto, using(crate::proofs::Printing::one_piece))]
pub(crate) fn print_tree(
    alloc: Global,
    tree: &Tree,
    piece: Piece,
    budget: &mut Budget,
) -> Result<Vec<u8>>
    ensures counted { IfOk result (λ text. budget.new.bytes ≡ budget.old.bytes + vec_len text) }
    ensures text { ForSome (piece_text tree.now piece)
        (λ text. IfOk result (λ printed. printed.items ≡ text)) }
{
    let mut printer = Printer {
        alloc,
        tree,
        pieces: Vec::new(alloc),
        planned: Vec::new(alloc),
        text: Vec::new(alloc),
    };
    printer.pieces.push(piece)?;
    let mut pieces = 0;
    if let Err(stop) = printer.print(budget.left, &mut pieces) {
        *budget = budget.after(pieces, 0);
        return Err(stop);
    }
    *budget = budget.after(pieces, printer.text.len());
    let Printer { text, .. } = printer;
    Ok(text)
}

impl<'t> Printer<'t> {
    /// Prints all pieces, and counts them: with the bytes of the text, no more than so many.
    fn print(&mut self, most: usize, pieces: &mut usize) -> Result<()>
        ensures few { pieces.new ≤ most }
        ensures in_all { OnOk result (pieces.new + vec_len self.new.text ≤ most) }
        ensures text { PrintsAll self.old self.new result }
    {
        *pieces = 0;
        for step in 0..most {
            if self.text.len() > most - step {
                return Err(Stop::Undecorated);
            }
            let Some(piece) = self.pieces.pop() else {
                return Ok(());
            };
            *pieces = step + 1;
            self.run(piece)?;
            self.take_over()?;
        }
        Err(Stop::Undecorated)
    }

    /// Puts the planned pieces before the other ones.
    #[tactic(auto, using(crate::proofs::Printing::moving))]
    fn take_over(&mut self) -> Result<()>
        ensures text { self.new.text.items ≡ self.old.text.items }
        ensures planned { OnOk result (self.new.planned.items ≡ []) }
        ensures pieces { OnOk result
            (rest_text self.new ≡ before (rest_text self.old) (planned_text self.old)) }
    {
        while let Some(piece) = self.planned.pop() {
            self.pieces.push(piece)?;
        }
        Ok(())
    }

    /// Plans a piece, after those that the piece at hand has planned.
    pub(crate) fn plan(&mut self, piece: Piece) -> Result<()>
        ensures planned { OnOk result
            (self.new.planned.items ≡ self.old.planned.items ++ piece ∷ []) }
        ensures printed { SamePrinted self.old self.new }
    {
        self.planned.push(piece)?;
        Ok(())
    }

    /// Plans pieces, after those that the piece at hand has planned.
    pub(crate) fn plan_all(&mut self, pieces: &[Piece]) -> Result<()>
        ensures planned { OnOk result
            (self.new.planned.items ≡ self.old.planned.items ++ pieces.now) }
        ensures printed { SamePrinted self.old self.new }
    {
        self.planned.extend_from_slice(pieces)?;
        Ok(())
    }

    /// Plans words, but for empty ones.
    pub(crate) fn plan_words(&mut self, words: &[&'static str]) -> Result<()> {
        for word in words {
            if !word.is_empty() {
                self.plan(Piece::Word(*word))?;
            }
        }
        Ok(())
    }

    /// Prints words: nothing is planned yet that stands before them.
    pub(crate) fn write(&mut self, words: &[&str]) -> Result<()> {
        for word in words {
            self.push_bytes(word.as_bytes())?;
        }
        Ok(())
    }

    /// Prints a piece, or plans its parts.
    #[tactic(auto, using(crate::proofs::Printing::none_planned))]
    fn run(&mut self, piece: Piece) -> Result<()>
        ensures { PrintsKnown (piece_text self.old.tree.now piece) self.old self.new result }
    {
        match piece {
            Piece::Word(word) => self.push_bytes(word.as_bytes()),
            Piece::Text(span) => {
                let tree = self.tree;
                self.push_bytes(tree.text(span)?)
            }
            Piece::Whole(index, flags) => self.run_node(index, flags),
            Piece::Before(index, flags) => self.print_before(index, flags),
            Piece::After(index, flags) => self.print_after(index, flags),
            Piece::List(list, place, between, flags) => self.run_list(list, place, between, flags),
            Piece::Space => self.push_bytes(self.space().as_bytes()),
            Piece::Ellipsis => self.push_bytes(self.ellipsis().as_bytes()),
            Piece::Number(number) => self.push_number(number),
        }
    }

    /// Appends bytes.
    pub(crate) fn push_bytes(&mut self, bytes: &[u8]) -> Result<()>
        ensures text { OnOk result (self.new.text.items ≡ self.old.text.items ++ bytes.now) }
        ensures same { SamePieces self.old self.new }
    {
        self.text.extend_from_slice(bytes)?;
        Ok(())
    }

    /// Appends a number.
    fn push_number(&mut self, number: Number) -> Result<()> {
        if number.is_negative {
            self.push_bytes(b"-")?;
        }
        let digits = format!(in self.alloc; "{}", number.magnitude)?;
        self.push_bytes(digits.as_bytes())
    }

    /// Appends the size of a dimension of an array, of which 0 isn't written.
    fn push_dimension(&mut self, size: u64) -> Result<()> {
        if size == 0 {
            return Ok(());
        }
        self.push_number(unsigned(size))
    }

    /// A space, if the last byte is a letter, a digit or `>`.
    fn space(&self) -> &'static str {
        match self.text.last() {
            Some(b'>' | b'0'..=b'9' | b'A'..=b'Z' | b'a'..=b'z') => " ",
            _ => "",
        }
    }

    /// `...`, after a comma if there are parameters before it.
    fn ellipsis(&self) -> &'static str {
        match self.text.last() {
            Some(b'(') => "...",
            _ => ", ...",
        }
    }

    /// Plans the node at a place of a list, and those after it.
    fn run_list(
        &mut self,
        list: Span,
        place: usize,
        between: &'static str,
        flags: DemangleFlags,
    ) -> Result<()> {
        if place >= list.count {
            return Ok(());
        }
        if place > 0 {
            self.push_bytes(between.as_bytes())?;
        }
        let item = Piece::Whole(self.tree.item(list, place), flags);
        if place + 1 == list.count {
            return self.plan(item);
        }
        self.plan_all(&[item, Piece::List(list, place + 1, between, flags)])
    }

    /// Plans the parts of a node.
    fn run_node(&mut self, index: usize, flags: DemangleFlags) -> Result<()>
        ensures { PrintsKnown (literal_at self.old.tree.now index) self.old self.new result }
    {
        match self.tree.node(index)? {
            Node::Identifier(identifier, arguments) => {
                self.print_identifier(identifier, arguments, flags)
            }
            Node::Name(identifiers) => self.run_list(identifiers, 0, "::", flags),
            Node::Type(Type::Basic(_) | Type::Tagged(..), _) => self.print_before(index, flags),
            Node::Type(..) => {
                self.plan_all(&[Piece::Before(index, flags), Piece::After(index, flags)])
            }
            Node::Parameters(_) => Err(Stop::Undecorated),
            Node::Number(number) => self.push_number(number),
            Node::Dimension(size) => self.push_dimension(size),
            Node::Reference(sign, symbol, offsets) => {
                self.print_reference(sign, symbol, offsets, flags)
            }
            Node::Symbol(symbol, name) => self.print_symbol(symbol, name, flags),
        }
    }
}
