//! Providers of modules.

ghost use Rattle.std.specs.Prelude.{ℕ, Option, Result, option_map, IfErr};
ghost use Rattle.pdb_container.specs.Fault.{Fault, Gives, Parses};
ghost use Rattle.pdb_symbols_modules.specs.ModuleStream.{ModuleStream, iteration_in};
ghost use Rattle.pdb_symbols_modules.specs.ModuleStream.{line_program_in, inlinees_in, imports_in};
ghost use Rattle.pdb_symbols_modules.specs.ModuleStream.{exports_in};
ghost use Rattle.pdb_symbols_modules.specs.Modules as entries;
ghost use Rattle.pdb_resolving.specs.Fault.{IsOfModules};

use pdb_container::Error;
use pdb_symbols_modules::{
    CrossModuleExports, CrossModuleImports, InlineeIterator, LineProgram, Module, ModuleInfo,
    SymbolIter,
};
use std::alloc::Global;

/// The content of a module's own stream.
pub trait ModuleTables {
    /// The stream, with the sizes of its parts.
    ghost held: { Self → ModuleStream };

    /// As [`ModuleInfo::symbols`].
    ///
    /// # Errors
    /// As [`ModuleInfo::symbols`].
    fn symbols(&self) -> std::result::Result<SymbolIter<'_>, Error>
        ensures { Parses (λ it. it) result (iteration_in (held self.now) 4) };

    /// As [`ModuleInfo::line_program`].
    ///
    /// # Errors
    /// As [`ModuleInfo::line_program`].
    fn line_program(&self, alloc: Global) -> std::result::Result<LineProgram<'_>, Error>
        ensures { Gives (λ p. p) ⊥ result (line_program_in (held self.now)) };

    /// As [`ModuleInfo::inlinees`].
    ///
    /// # Errors
    /// As [`ModuleInfo::inlinees`].
    fn inlinees(&self) -> std::result::Result<InlineeIterator<'_>, Error>
        ensures { Parses (λ i. i) result (inlinees_in (held self.now)) };

    /// As [`ModuleInfo::imports`].
    ///
    /// # Errors
    /// As [`ModuleInfo::imports`].
    fn imports(&self, alloc: Global) -> std::result::Result<CrossModuleImports<'_>, Error>
        ensures { Gives (λ i. i) ⊥ result (imports_in (held self.now)) };

    /// As [`ModuleInfo::exports`].
    ///
    /// # Errors
    /// As [`ModuleInfo::exports`].
    fn exports(&self) -> std::result::Result<CrossModuleExports<'_>, Error>
        ensures { Parses (λ e. e) result (exports_in (held self.now)) };
}

impl<'s> ModuleTables for ModuleInfo<'s> {
    ghost held = { λ m. m };

    fn symbols(&self) -> std::result::Result<SymbolIter<'_>, Error> {
        ModuleInfo::symbols(self)
    }

    fn line_program(&self, alloc: Global) -> std::result::Result<LineProgram<'_>, Error> {
        ModuleInfo::line_program(self, alloc)
    }

    fn inlinees(&self) -> std::result::Result<InlineeIterator<'_>, Error> {
        ModuleInfo::inlinees(self)
    }

    fn imports(&self, alloc: Global) -> std::result::Result<CrossModuleImports<'_>, Error> {
        ModuleInfo::imports(self, alloc)
    }

    fn exports(&self) -> std::result::Result<CrossModuleExports<'_>, Error> {
        ModuleInfo::exports(self)
    }
}

/// A provider gives the content of the modules of a database: the same result for the same
/// arguments, unless memory is short.
pub trait ModuleProvider {
    /// The content of a module's own stream.
    type Info: ModuleTables;

    /// The content of the own stream of the module with that index and entry, if it has one, or the
    /// fault.
    ghost provided: { Self → ℕ → entries.Module → Result (Option ModuleStream) Fault };

    /// The content of a module's own stream, by the module's index, counted from 0, and its entry;
    /// `None` where it has none.
    ///
    /// # Errors
    /// The fault of the module's stream; never `TypeNotFound`, `UnimplementedTypeKind` or
    /// `IoError`. A fault that was stored is `Kept`. `OutOfMemory`, where the stream is read at the
    /// call.
    fn get_module_info(
        &self,
        module_index: usize,
        module: &Module<'_>,
    ) -> std::result::Result<Option<&Self::Info>, Error>
        ensures { Gives (option_map (λ info. Self.Info.held info.now)) ⊥ result
            (provided self.now module_index «module».now) };

    /// An upper bound of the size of the modules' database, in bytes; `u64::MAX` where none is
    /// known. No answer depends on it: what is cached of modules is forgotten past 64 MB and four
    /// times this size. A provider that wraps another one passes the question on.
    fn size_hint(&self) -> u64 {
        u64::MAX
    }

    /// No fault could be taken for a type's own, or for a failed read.
    ghost faults_of_modules: { (p : Self) (number : ℕ) (entry : entries.Module)
        → IfErr (provided p number entry) IsOfModules };
}
