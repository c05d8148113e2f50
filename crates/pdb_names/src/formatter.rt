//! A formatter.

use crate::printer::FunctionPrinter;
use pdb_resolving::ModuleProvider;
use std::marker::Model;

/// A formatter, which makes the texts of types, functions and ids.
pub struct TypeFormatter<'a, 's, P: ModuleProvider> {
    pub(crate) printer: FunctionPrinter<'a, 's, P>,
}

impl<'a, 's, P: ModuleProvider> Model for TypeFormatter<'a, 's, P> {
    ghost use Rattle.pdb_type_printing.specs.Printing.{Formatting};

    ghost Value = { Formatting P };

    ghost view = { λ f. f.printer };
}

impl<'a, 's, P: ModuleProvider> Drop for TypeFormatter<'a, 's, P> {
    fn drop(self) {
        let TypeFormatter { printer } = self;
        drop(printer);
    }
}
