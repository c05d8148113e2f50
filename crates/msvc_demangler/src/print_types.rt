//! The printing of types: the text before, and after, what a type is the type of.

use crate::flags::{DemangleFlags, NO_CONVENTION};
use crate::printer::{Piece, Printer};
use crate::qualifiers::Qualifiers;
use crate::stop::Result;
use crate::tree::{Parameters, Signature, Type};
use crate::words::{Affinity, word_if};

/// The text between a pointer's pointee and its class or sign, but for `__unaligned`.
fn opening(pointee: Type) -> [&'static str; 3] {
    match pointee {
        Type::Array(..) => ["(", "", ""],
        Type::Function(signature) => ["(", signature.convention, " "],
        _ => ["", "", ""],
    }
}

impl<'t> Printer<'t> {
    /// Prints the text before what a type is the type of, or plans its parts.
    pub(crate) fn print_before(&mut self, index: usize, flags: DemangleFlags) -> Result<()> {
        let (form, qualifiers) = self.tree.type_of(index)?;
        match form {
            Type::Basic(name) => self.write(&[name, qualifiers.spaced_text()]),
            Type::Tagged(keyword, name) => {
                self.write(&[keyword, " "])?;
                self.plan_before(Piece::Whole(name, flags), qualifiers)
            }
            Type::Pointer(affinity, pointee, class) => {
                self.print_before_sign(pointee, class, qualifiers, flags)?;
                self.plan_words(&[affinity.text(), qualifiers.text()])
            }
            Type::Array(_, element) => {
                self.plan_before(Piece::Before(element, flags), qualifiers)
            }
            Type::Function(signature) => self.print_before_function(signature, flags),
            Type::Custom(identifier) => self.plan(Piece::Whole(identifier, flags)),
        }
    }

    /// Plans a piece, and qualifiers after a space.
    fn plan_before(&mut self, piece: Piece, qualifiers: Qualifiers) -> Result<()> {
        self.plan(piece)?;
        self.plan_words(&[qualifiers.spaced_text()])
    }

    /// Plans the text before the sign of a pointer.
    fn print_before_sign(
        &mut self,
        pointee: usize,
        class: Option<usize>,
        qualifiers: Qualifiers,
        flags: DemangleFlags,
    ) -> Result<()> {
        let (form, _) = self.tree.type_of(pointee)?;
        let flags_before = match form {
            Type::Function(_) => NO_CONVENTION,
            _ => flags,
        };
        self.plan_all(&[Piece::Before(pointee, flags_before), Piece::Space])?;
        let [sign, convention, space] = opening(form);
        let unaligned = word_if(qualifiers.is_unaligned, "__unaligned ");
        self.plan_words(&[unaligned, sign, convention, space])?;
        match class {
            Some(class) => self.plan_all(&[Piece::Whole(class, flags), Piece::Word("::")]),
            None => Ok(()),
        }
    }

    /// Plans the type that a function returns, and its calling convention.
    fn print_before_function(&mut self, signature: Signature, flags: DemangleFlags) -> Result<()> {
        match signature.returned {
            Some(returned) if !flags.no_return_type => {
                self.plan_all(&[Piece::Before(returned, flags), Piece::Word(" ")])?;
            }
            _ => {}
        }
        if flags.no_calling_convention {
            return Ok(());
        }
        self.plan_all(&[Piece::Space, Piece::Word(signature.convention)])
    }

    /// Prints the text after what a type is the type of, or plans its parts.
    pub(crate) fn print_after(&mut self, index: usize, flags: DemangleFlags) -> Result<()> {
        let (form, qualifiers) = self.tree.type_of(index)?;
        match form {
            Type::Pointer(_, pointee, _) => self.print_after_pointer(pointee, flags),
            Type::Array(dimensions, element) => self.plan_all(&[
                Piece::Word("["),
                Piece::List(dimensions, 0, "][", flags),
                Piece::Word("]"),
                Piece::After(element, flags),
            ]),
            Type::Function(signature) => self.print_after_function(signature, qualifiers, flags),
            _ => Ok(()),
        }
    }

    /// Prints the text after a pointer, or plans its parts.
    fn print_after_pointer(&mut self, pointee: usize, flags: DemangleFlags) -> Result<()> {
        let (form, _) = self.tree.type_of(pointee)?;
        match form {
            Type::Array(..) | Type::Function(_) => {
                self.plan_all(&[Piece::Word(")"), Piece::After(pointee, flags)])
            }
            Type::Pointer(..) => self.plan(Piece::After(pointee, flags)),
            _ => Ok(()),
        }
    }

    /// Plans a function's parameters, and the text after them.
    fn print_after_function(
        &mut self,
        signature: Signature,
        qualifiers: Qualifiers,
        flags: DemangleFlags,
    ) -> Result<()> {
        self.print_parameters(signature.parameters, flags)?;
        self.plan_words(&[
            qualifiers.spaced_text(),
            word_if(qualifiers.is_unaligned, " __unaligned"),
            word_if(signature.is_noexcept, " noexcept"),
            signature.reference,
        ])?;
        match signature.returned {
            Some(returned) if !flags.no_return_type => self.plan(Piece::After(returned, flags)),
            _ => Ok(()),
        }
    }

    /// Prints the parameters of a function, or plans them.
    fn print_parameters(&mut self, parameters: Parameters, flags: DemangleFlags) -> Result<()> {
        match parameters {
            Parameters::Unlisted => Ok(()),
            Parameters::Void => self.write(&["(void)"]),
            Parameters::Listed(list, has_more) => {
                self.write(&["("])?;
                let parameters = Piece::List(list, 0, ", ", flags);
                if has_more {
                    return self.plan_all(&[parameters, Piece::Ellipsis, Piece::Word(")")]);
                }
                self.plan_all(&[parameters, Piece::Word(")")])
            }
        }
    }
}
