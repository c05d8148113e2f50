//! Calls of formatters over a file of three modules, of which two import from the third.

ghost use Rattle.std.specs.Prelude.{◌≡◌, ◌+◌, ◌-◌, ◌^◌};

use crate::addr2line::files::{Data, data_of};
use pdb_addr2line::pdb::{IdIndex, PDB, StringRef, StringTable, TypeIndex};
use pdb_addr2line::{ContextPdbData, Error, ModuleProvider, TextWriter, TypeFormatter};
use pdb_samples::{cross_imports, imports_of_no_stream};
use std::alloc::Global;
use std::fmt;
use std::test::Fail;

/// A question to a formatter.
#[derive(Clone, Copy)]
enum Question {
    /// A function and an id, written to a writer that refuses them.
    Refused,
    /// Ids whose imports can't be read, and then one whose imports can be.
    FailedImports,
    /// Ids whose exports can't be read.
    FailedExports,
}

/// A writer that refuses every text, and counts them.
#[derive(Drop)]
struct Refusing {
    refused: u32,
}

impl TextWriter for Refusing {
    ghost use Rattle.std.specs.Prelude.{min};

    ghost has_taken = { λ _ _ _. ⊥ };

    ghost has_refused = { λ old _ new. new.refused ≡ min (old.refused + 1) (2 ^ 32 - 1) };

    fn take_text(&mut self, _text: &str) -> fmt::Result {
        self.refused = self.refused.saturating_add(1);
        Err(fmt::Error)
    }
}

/// The id of the inlined calls.
const INLINEE: IdIndex = IdIndex(0x8000_0000);

/// Returns whether a formatter reports that a function, and then an id, was refused, and whether
/// the writer was asked once for each.
fn are_refused<P: ModuleProvider>(
    alloc: Global,
    formatter: &mut TypeFormatter<'_, '_, P>,
) -> (bool, bool, bool) {
    let mut writer = Refusing { refused: 0 };
    let function = formatter.emit_function(alloc, &mut writer, "f", 0, TypeIndex(0x1001));
    let id = formatter.emit_id(alloc, &mut writer, 0, IdIndex(0x1000));
    (
        matches!(&function, Err(Error::FormatError(_))),
        matches!(&id, Err(Error::FormatError(_))),
        writer.refused == 2,
    )
}

/// Returns whether imports that can't be read are reported by their own fault, and as failed from
/// the second time on. At last returns whether a module whose imports can be read has its text.
fn are_imports_failed<P: ModuleProvider>(
    alloc: Global,
    formatter: &mut TypeFormatter<'_, '_, P>,
) -> (bool, bool, bool) {
    let first = formatter.format_id(alloc, 9, INLINEE);
    let second = formatter.format_id(alloc, 9, INLINEE);
    let third = formatter.format_id(alloc, 0, INLINEE);
    (
        matches!(&first, Err(Error::OutOfRangeModuleIndex(9))),
        matches!(&second, Err(Error::ModuleImportsUnsuccessful)),
        matches!(&third, Ok(text) if text.as_str() == "g()"),
    )
}

/// Returns whether exports that can't be read are reported by their own fault, and as failed from
/// the second time on, whichever module asks.
fn are_exports_failed<P: ModuleProvider>(
    alloc: Global,
    formatter: &mut TypeFormatter<'_, '_, P>,
) -> (bool, bool, bool) {
    let first = formatter.format_id(alloc, 0, INLINEE);
    let second = formatter.format_id(alloc, 1, INLINEE);
    let third = formatter.format_id(alloc, 0, INLINEE);
    (
        matches!(&first, Err(Error::ModuleInfoNotFound(2))),
        matches!(&second, Err(Error::ModuleExportsUnsuccessful)),
        matches!(&third, Err(Error::ModuleExportsUnsuccessful)),
    )
}

/// Asks a formatter a question.
fn asked<P: ModuleProvider>(
    alloc: Global,
    mut formatter: TypeFormatter<'_, '_, P>,
    question: Question,
) -> (bool, bool, bool) {
    match question {
        Question::Refused => are_refused(alloc, &mut formatter),
        Question::FailedImports => are_imports_failed(alloc, &mut formatter),
        Question::FailedExports => are_exports_failed(alloc, &mut formatter),
    }
}

/// Asks a formatter over what was read a question.
fn asked_over(alloc: Global, data: &Data, question: Question) -> Result<(bool, bool, bool), Error> {
    let formatter = data.make_type_formatter(alloc)?;
    Ok(asked(alloc, formatter, question))
}

/// Asks a formatter over a file's bytes a question.
fn answer(alloc: Global, bytes: Vec<u8>, question: Question) -> Result<(bool, bool, bool), Error> {
    let data = data_of(alloc, bytes)?;
    asked_over(alloc, &data, question)
}

#[test]
fn texts_that_a_writer_refuses(rt: HostRuntime) -> Result<(), Fail> {
    let said = answer(rt.alloc(), cross_imports(rt.alloc())?, Question::Refused)?;
    assert_eq!(rt; said, (true, true, true));
    Ok(())
}

#[test]
fn imports_that_failed_before(rt: HostRuntime) -> Result<(), Fail> {
    let said = answer(
        rt.alloc(),
        cross_imports(rt.alloc())?,
        Question::FailedImports,
    )?;
    assert_eq!(rt; said, (true, true, true));
    Ok(())
}

#[test]
fn exports_that_failed_before(rt: HostRuntime) -> Result<(), Fail> {
    let said = answer(
        rt.alloc(),
        imports_of_no_stream(rt.alloc())?,
        Question::FailedExports,
    )?;
    assert_eq!(rt; said, (true, true, true));
    Ok(())
}

/// Returns the name at 5 of a names table.
fn name_at_five(alloc: Global, table: &StringTable<'_>) -> Result<String, Error> {
    let name = table.get(StringRef(5))?;
    Ok(format!(in alloc; "{name}")?)
}

/// Returns the name at 5 of an open database's names table.
fn name_of_module(alloc: Global, pdb: &mut PDB<'static, Vec<u8>>) -> Result<String, Error> {
    let table = pdb.string_table(alloc)?;
    name_at_five(alloc, &table)
}

/// Returns the text of the inlined calls' id in the first module.
fn inlinee_text<P: ModuleProvider>(
    alloc: Global,
    mut formatter: TypeFormatter<'_, '_, P>,
) -> Result<String, Error> {
    formatter.format_id(alloc, 0, INLINEE)
}

/// Returns the text of the inlined calls' id over what was read.
fn text_of(alloc: Global, data: &Data) -> Result<String, Error> {
    let formatter = data.make_type_formatter(alloc)?;
    inlinee_text(alloc, formatter)
}

/// Returns the text of the inlined calls' id over a database that is only lent.
fn text_of_lent(alloc: Global, pdb: &mut PDB<'static, Vec<u8>>) -> Result<String, Error> {
    let data: Data = ContextPdbData::try_from_pdb_ref(alloc, pdb)?;
    text_of(alloc, &data)
}

/// Returns a name of the names table, a text over the database while it is lent, and the name
/// again.
fn lent_and_back(alloc: Global, pdb: &mut PDB<'static, Vec<u8>>) -> Result<String, Error> {
    let before = name_of_module(alloc, pdb)?;
    let text = text_of_lent(alloc, pdb)?;
    let after = name_of_module(alloc, pdb)?;
    Ok(format!(in alloc; "{before} {text} {after}")?)
}

/// Opens a file's bytes, and returns the texts of [`lent_and_back`].
fn texts_of_file(alloc: Global, bytes: Vec<u8>) -> Result<String, Error> {
    let mut pdb = PDB::open(alloc, bytes)?;
    lent_and_back(alloc, &mut pdb)
}

// The data that were read borrow nothing of the database, and leave it as it was.
#[test]
fn lent_database(rt: HostRuntime) -> Result<(), Fail> {
    let texts = texts_of_file(rt.alloc(), cross_imports(rt.alloc())?)?;
    assert_eq!(rt; texts.as_str(), "c.obj g() c.obj");
    Ok(())
}
