//! The printing of symbols.

ghost use Rattle.msvc_demangler.specs.Literals.{enclosed, literal_in};
ghost use Rattle.msvc_demangler.specs.declared.tree.Node.{Node};
ghost use Rattle.msvc_demangler.specs.Pieces.{PrintsFirst, PrintsKnown, texts_of};

use crate::flags::DemangleFlags;
use crate::printer::{Piece, Printer};
use crate::qualifiers::Qualifiers;
use crate::stop::{Result, Stop};
use crate::tree::{Adjustment, FunctionClass, Span, Symbol};
use crate::words::{Access, word_if};

/// The word that is printed for the access to a member.
fn access_word(access: Option<Access>, flags: DemangleFlags) -> &'static str {
    match access {
        Some(access) => word_if(!flags.no_access_specifier, access.text()),
        None => "",
    }
}

/// The words that are printed before the type that a function returns.
fn class_words(
    class: FunctionClass,
    adjustment: Adjustment,
    flags: DemangleFlags,
) -> [&'static str; 5] {
    let thunk = match adjustment {
        Adjustment::NotThunk => "",
        _ => "[thunk]: ",
    };
    let access = access_word(class.access, flags);
    if flags.no_member_type {
        return [thunk, access, "", "", ""];
    }
    [
        thunk,
        access,
        word_if(class.is_static && !class.is_global, "static "),
        word_if(class.is_virtual, "virtual "),
        word_if(class.is_extern_c, "extern \"C\" "),
    ]
}

impl<'t> Printer<'t> {
    /// Prints a symbol, or plans its parts.
    pub(crate) fn print_symbol(
        &mut self,
        symbol: Symbol,
        name: Option<usize>,
        flags: DemangleFlags,
    ) -> Result<()>
        ensures { PrintsKnown (literal_in (texts_of self.old) (Node.Symbol symbol name))
            self.old self.new result }
    {
        match (symbol, name) {
            (Symbol::Text(before, text, after), _) => self.print_literal(before, text, after),
            (_, Some(name)) => self.print_named(symbol, name, flags),
            (_, None) => Err(Stop::Undecorated),
        }
    }

    /// Prints a symbol that has a name, or plans its parts.
    fn print_named(&mut self, symbol: Symbol, name: usize, flags: DemangleFlags) -> Result<()> {
        match symbol {
            Symbol::Function(signature, class, adjustment) => {
                self.write(&class_words(class, adjustment, flags))?;
                self.plan_all(&[
                    Piece::Before(signature, flags),
                    Piece::Space,
                    Piece::Whole(name, flags),
                ])?;
                self.plan_adjustment(adjustment, flags)?;
                self.plan(Piece::After(signature, flags))
            }
            Symbol::Variable(of_type, access) => self.print_variable(of_type, access, name, flags),
            Symbol::Table(qualifiers, target) => self.print_table(qualifiers, target, name, flags),
            _ => self.plan(Piece::Whole(name, flags)),
        }
    }

    /// Plans a string literal.
    #[tactic(auto, using(crate::proofs::Printing::three_in_order))]
    fn print_literal(&mut self, before: &'static str, text: Span, after: &'static str) -> Result<()>
        ensures { PrintsFirst (enclosed (texts_of self.old) before.entry text after.entry)
            self.old self.new result }
    {
        self.plan_all(&[Piece::Word(before), Piece::Text(text), Piece::Word(after)])
    }

    /// Plans the adjustment of `this` by a thunk.
    fn plan_adjustment(&mut self, adjustment: Adjustment, flags: DemangleFlags) -> Result<()> {
        match adjustment {
            Adjustment::By(word, offsets) => self.plan_all(&[
                Piece::Word(word),
                Piece::List(offsets, 0, ", ", flags),
                Piece::Word("}'"),
            ]),
            _ => Ok(()),
        }
    }

    /// Prints a variable, or plans its parts.
    fn print_variable(
        &mut self,
        of_type: Option<usize>,
        access: Option<Access>,
        name: usize,
        flags: DemangleFlags,
    ) -> Result<()> {
        let is_static = access.is_some() && !flags.no_member_type;
        self.write(&[access_word(access, flags), word_if(is_static, "static ")])?;
        match of_type {
            Some(index) if !flags.no_variable_type => self.plan_all(&[
                Piece::Before(index, flags),
                Piece::Space,
                Piece::Whole(name, flags),
                Piece::After(index, flags),
            ]),
            _ => self.plan(Piece::Whole(name, flags)),
        }
    }

    /// Prints a class's table, or plans its parts.
    fn print_table(
        &mut self,
        qualifiers: Qualifiers,
        target: Option<usize>,
        name: usize,
        flags: DemangleFlags,
    ) -> Result<()> {
        let is_qualified = qualifiers.is_const || qualifiers.is_volatile;
        self.write(&[qualifiers.text(), word_if(is_qualified, " ")])?;
        match target {
            Some(target) => self.plan_all(&[
                Piece::Whole(name, flags),
                Piece::Word("{for `"),
                Piece::Whole(target, flags),
                Piece::Word("'}"),
            ]),
            None => self.plan(Piece::Whole(name, flags)),
        }
    }
}
