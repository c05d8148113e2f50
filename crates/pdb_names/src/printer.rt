//! The printer of functions and ids, over the printer of types.

ghost use Rattle.std.specs.Prelude.{◌≡◌, Ok};
ghost use Rattle.pdb_resolving.specs.Fault.{Answers};
ghost use Rattle.pdb_type_printing.specs.Printing.{env_for};

use pdb_container::TypeIndex;
use pdb_resolving::{ModuleProvider, Result};
use pdb_type_printing::{Asker, TypePrinter};
use std::marker::Model;

/// A printer of functions and ids by their indices, as the modules of a database have them.
pub struct FunctionPrinter<'a, 's, P: ModuleProvider> {
    pub(crate) printer: TypePrinter<'a, 's, P>,
}

impl<'a, 's, P: ModuleProvider> Model for FunctionPrinter<'a, 's, P> {
    ghost use Rattle.pdb_type_printing.specs.Printing.{Formatting};

    ghost Value = { Formatting P };

    ghost view = { λ f. f.printer };
}

impl<'a, 's, P: ModuleProvider> Drop for FunctionPrinter<'a, 's, P> {
    fn drop(self) {
        let FunctionPrinter { printer } = self;
        drop(printer);
    }
}

impl<'a, 's, P: ModuleProvider> FunctionPrinter<'a, 's, P> {
    /// A printer of functions and ids over this printer of types.
    pub fn new(printer: TypePrinter<'a, 's, P>) -> FunctionPrinter<'a, 's, P>
        ensures { result ≡ printer.entry }
    {
        FunctionPrinter { printer }
    }

    /// The size in bytes of the type with that index, as the module that asks names it.
    ///
    /// # Errors
    /// `OutOfMemory`, and no other.
    pub fn size(&mut self, asker: Asker, index: TypeIndex) -> Result<u64>
        ensures same { self.new ≡ self.old }
        ensures value { Answers (λ n. n) result
            (Ok ((env_for P.provided self.old asker).size index.0)) }
    {
        self.printer.size(asker, index)
    }
}
