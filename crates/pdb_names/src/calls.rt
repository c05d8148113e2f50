//! The calls of a formatter.

ghost use Rattle.std.specs.Prelude.{◌≡◌, IfOk, IsOkUnless, Ok, option_copied, string_bytes};
ghost use Rattle.pdb_container.specs.declared.error.Error.TheVariants as causes;
ghost use Rattle.pdb_resolving.specs.Cause.{Finds, of_any};
ghost use Rattle.pdb_resolving.specs.Fault.{Answers};
ghost use Rattle.pdb_type_printing.specs.Reading.{parts_by};
ghost use Rattle.pdb_type_printing.specs.Sizes.{size_at};
ghost use Rattle.pdb_type_printing.specs.Printing.{env_of};
ghost use Rattle.pdb_names.specs.Calls.{AnswersSignature, LeavesSignature};
ghost use Rattle.pdb_names.specs.Formatting.{Leaves, formatting_over};
ghost use Rattle.pdb_names.specs.Functions.{MadeText, function_text};
ghost use Rattle.pdb_names.specs.Ids.{id_made, id_text};
ghost use Rattle.pdb_names.specs.Written.{Emits};

use crate::formatter::TypeFormatter;
use crate::printer::FunctionPrinter;
use crate::writer::TextWriter;
use pdb_container::{IdIndex, StringTable, TypeIndex};
use pdb_container_types::{IdInformation, TypeInformation};
use pdb_resolving::stop::{self, Stop};
use pdb_resolving::{Error, ModuleProvider, Result};
use pdb_symbols_modules::{DebugInformation, Module};
use pdb_type_printing::{Asker, ItemReader, TypeFormatterFlags, TypePrinter};
use std::alloc::Global;

impl<'a, 's, P: ModuleProvider> TypeFormatter<'a, 's, P> {
    /// A formatter over the provider of the modules, their entries in order, the image for which
    /// the database was written, the tables of types and of ids, and the table of names, if there
    /// is one. No table of a module stands as failed.
    ///
    /// # Errors
    /// `OutOfMemory`, and no other.
    pub fn new_from_parts(
        alloc: Global,
        provider: &'a P,
        modules: Vec<Module<'a>>,
        debug_information: &DebugInformation<'_>,
        type_information: &'a TypeInformation<'_>,
        id_information: &'a IdInformation<'_>,
        string_table: Option<&'a StringTable<'s>>,
        flags: TypeFormatterFlags,
    ) -> pdb_container::Result<TypeFormatter<'a, 's, P>>
        ensures parts { IfOk result (λ f. f ≡ formatting_over provider.now modules.entry.items
            (option_copied string_table.entry) type_information.now id_information.now
            debug_information.now flags.bits) }
        ensures memory { IsOkUnless result causes.OutOfMemory }
    {
        let reader = ItemReader::new(
            alloc,
            provider,
            modules,
            debug_information,
            type_information,
            id_information,
            string_table,
        )?;
        Ok(TypeFormatter {
            printer: FunctionPrinter::new(TypePrinter::new(reader, flags)),
        })
    }

    /// The modules in order.
    pub fn modules(&self) -> &[Module<'a>]
        ensures { result.now ≡ self.now.reading.modules.entries }
    {
        self.printer.printer.reader.resolver.modules()
    }

    /// The size in bytes of the type with that index, as the module at `module_index` (counted from
    /// 0) names it. It is 0 for a type that can't be read or that leads back to itself.
    ///
    /// # Errors
    /// `OutOfMemory`, and no other.
    pub fn get_type_size(
        &mut self,
        alloc: Global,
        module_index: usize,
        index: TypeIndex,
    ) -> Result<u64>
        ensures same { self.new ≡ self.old }
        ensures value { Answers (λ n. n) result
            (Ok (size_at (parts_by P.provided self.old.reading) module_index index.0)) }
    {
        let asker = Asker {
            alloc,
            module_index,
        };
        self.printer.size(asker, index)
    }

    /// The signature of a function of this name whose type has this index in the module at
    /// `module_index`, counted from 0: its return type and arguments, as the flags say. With type 0
    /// it is the name alone.
    ///
    /// # Errors
    /// The first fault in the order of printing: the type's, `CircularTypeDefinition`,
    /// `ArgumentTypeNotArgumentList` and others; a type inside that is missing or has no form has a
    /// text of its own. `OutOfMemory`. A module's imports or exports that couldn't be read are
    /// stored as failed. From the next call on, `ModuleImportsUnsuccessful` and
    /// `ModuleExportsUnsuccessful` report them in place of their own fault.
    pub fn format_function(
        &mut self,
        alloc: Global,
        name: &str,
        module_index: usize,
        function_type_index: TypeIndex,
    ) -> Result<String>
        ensures kept { LeavesSignature P.provided self.old module_index name.now function_type_index
            result self.new }
        ensures text { AnswersSignature P.provided self.old module_index name.now
            function_type_index result }
    {
        let asker = Asker {
            alloc,
            module_index,
        };
        let made = self.printer.function_text(asker, name, function_type_index);
        self.keep_failed(made)
    }

    /// Makes the text of [`TypeFormatter::format_function`], and hands it over to a writer at once.
    ///
    /// # Errors
    /// As `format_function`, and then the writer got nothing; `FormatError` where the writer
    /// refused the text.
    #[tactic(auto, using(crate::proofs::Failing::fails_emits))]
    pub fn emit_function<W: TextWriter>(
        &mut self,
        alloc: Global,
        w: &mut W,
        name: &str,
        module_index: usize,
        function_type_index: TypeIndex,
    ) -> Result<()>
        ensures kept { LeavesSignature P.provided self.old module_index name.now function_type_index
            result self.new }
        ensures text { Emits W.has_taken W.has_refused w.old result w.new
            (function_text (env_of P.provided self.old module_index) name.now
            function_type_index.0) }
    {
        let text = self.format_function(alloc, name, module_index, function_type_index)?;
        w.take_text(text.as_str())?;
        Ok(())
    }

    /// The text of an id that has this index in the module at `module_index`, counted from 0: for a
    /// function its signature in its scopes, for a string the string.
    ///
    /// # Errors
    /// As [`TypeFormatter::format_function`], and `FunctionIdIsNotProcedureType`,
    /// `MemberFunctionIdIsNotMemberFunctionType`. Imports and exports that failed before are
    /// reported as there.
    pub fn format_id(
        &mut self,
        alloc: Global,
        module_index: usize,
        id_index: IdIndex,
    ) -> Result<String>
        ensures kept { Leaves (id_made (env_of P.provided self.old module_index) id_index.0)
            self.old result self.new }
        ensures text { Answers string_bytes result
            (id_text (env_of P.provided self.old module_index) id_index.0) }
    {
        let asker = Asker {
            alloc,
            module_index,
        };
        let made = self.printer.id_text(asker, id_index);
        self.keep_failed(made)
    }

    /// Makes the text of [`TypeFormatter::format_id`], and hands it over to a writer at once.
    ///
    /// # Errors
    /// As `format_id`, and then the writer got nothing; `FormatError` where the writer refused the
    /// text.
    #[tactic(auto, using(crate::proofs::Failing::fails_emits))]
    pub fn emit_id<W: TextWriter>(
        &mut self,
        alloc: Global,
        w: &mut W,
        module_index: usize,
        id_index: IdIndex,
    ) -> Result<()>
        ensures kept { Leaves (id_made (env_of P.provided self.old module_index) id_index.0)
            self.old result self.new }
        ensures text { Emits W.has_taken W.has_refused w.old result w.new
            (id_text (env_of P.provided self.old module_index) id_index.0) }
    {
        let text = self.format_id(alloc, module_index, id_index)?;
        w.take_text(text.as_str())?;
        Ok(())
    }

    /// Passes on a text, or the error that ended it; the module's table that has the error is
    /// stored as failed.
    ///
    /// # Errors
    /// The error that ended the text; `OutOfMemory`.
    #[tactic(auto, using(crate::proofs::Leaving::leaves_text, crate::proofs::Leaving::leaves_error, crate::proofs::Leaving::leaves_table, pdb_resolving::proofs::Ending::ends_fails))]
    fn keep_failed(&mut self, made: stop::Result<String>) -> Result<String>
        ensures kept { (text : MadeText) → Finds string_bytes made text
            → Leaves text self.old result self.new }
        ensures text { (text : MadeText) → Finds string_bytes made text
            → Answers string_bytes result (of_any text) }
    {
        match made {
            Ok(text) => Ok(text),
            Err(Stop::ByError(error)) => Err(error),
            Err(Stop::ByTable(table, error)) => {
                let kept = self.printer.printer.reader.resolver.keep_failed(table);
                match kept {
                    Ok(()) => Err(error),
                    Err(_) => Err(Error::OutOfMemory),
                }
            }
        }
    }
}
