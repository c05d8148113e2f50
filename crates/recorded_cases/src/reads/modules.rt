//! Records, and the contents of modules' own streams.

use crate::reads::question::{Question, Task};
use crate::reads::shown::{listed, push, shown, shown_read};
use crate::reads::words::{bytes_of, not_a_case};
use crate::reads::{pages, records};
use pdb_container::{FallibleIterator, RawString, Result};
use pdb_container_types::{
    FileIndex, IdIndex, Local, PdbInternalSectionOffset, SymbolIndex, TypeIndex,
};
use pdb_symbols_modules::{
    BinaryAnnotations, CrossModuleExports, CrossModuleImports, InlineSiteSymbol, Inlinee,
    InlineeIterator, LineProgram, ModuleInfo, Symbol, SymbolIter,
};
use std::alloc::Global;

/// Answers a question from bytes.
///
/// # Errors
/// Bytes that can't be read, an unknown case; `OutOfMemory`.
pub fn ask(alloc: Global, bytes: &[u8], question: &Question<'_>) -> Result<String> {
    match question.task {
        Task::Type => records::type_text(alloc, bytes),
        Task::Id => records::id_text(alloc, bytes),
        Task::Attributes => records::attributes_text(alloc, bytes),
        Task::Text => raw_text(alloc, RawString::from(bytes)),
        Task::Pages => pages::pages_text(alloc, question),
        Task::Annotations => listed(alloc, &mut BinaryAnnotations::new(bytes).iter()),
        Task::Call => call_text(alloc, bytes, question),
        Task::Inlinees => inlinees_text(alloc, InlineeIterator::parse(bytes)),
        Task::Symbols | Task::Symbol | Task::SymbolKind | Task::SkipTo => {
            ask_symbols(alloc, bytes, question)
        }
        Task::Lines | Task::LinesAt | Task::Files | Task::File => {
            ask_lines(alloc, LineProgram::parse(alloc, bytes), question)
        }
        Task::TypeImport | Task::IdImport => {
            ask_imports(alloc, CrossModuleImports::parse(alloc, bytes), question)
        }
        _ => ask_exports(alloc, CrossModuleExports::parse(bytes), question),
    }
}

/// Returns a text that is stored as bytes, in UTF-8.
fn raw_text(alloc: Global, text: RawString<'_>) -> Result<String> {
    let text = text.to_string(alloc)?;
    shown(alloc, &text.as_str().as_bytes())
}

/// Answers a question from a module's stream.
///
/// # Errors
/// A stream that can't be read, an unknown case; `OutOfMemory`.
pub fn ask_stream(
    alloc: Global,
    module: &ModuleInfo<'_>,
    question: &Question<'_>,
) -> Result<String> {
    match question.task {
        Task::Symbols => symbols_text(alloc, module.symbols()),
        Task::SkipTo => symbols_text(alloc, module.symbols_at(SymbolIndex(question.numbers.1))),
        Task::Inlinees => inlinees_text(alloc, module.inlinees()),
        Task::Lines | Task::LinesAt | Task::Files | Task::File => {
            ask_lines(alloc, module.line_program(alloc), question)
        }
        Task::TypeImport | Task::IdImport => ask_imports(alloc, module.imports(alloc), question),
        _ => ask_exports(alloc, module.exports(), question),
    }
}

/// Returns the symbols of a module.
fn symbols_text(alloc: Global, symbols: Result<SymbolIter<'_>>) -> Result<String> {
    listed(alloc, &mut symbols?)
}

/// Answers a question from a list of symbols of less than 65536 bytes.
fn ask_symbols(alloc: Global, bytes: &[u8], question: &Question<'_>) -> Result<String> {
    if bytes.len() > 0xffff {
        return Err(not_a_case());
    }
    let place = SymbolIndex(question.numbers.0);
    match question.task {
        Task::Symbols => listed(alloc, &mut SymbolIter::over(bytes, place)),
        Task::SkipTo => skip_text(alloc, &mut SymbolIter::over(bytes, SymbolIndex(0)), place),
        task => match SymbolIter::over(bytes, place).next()? {
            None => Err(not_a_case()),
            Some(symbol) if matches!(task, Task::Symbol) => shown_read(alloc, symbol.parse()),
            Some(symbol) => kind_text(alloc, &symbol),
        },
    }
}

/// Returns the symbol that a jump to a place finds, all symbols after it, and the symbol that a
/// second jump finds.
fn skip_text(alloc: Global, symbols: &mut SymbolIter<'_>, place: SymbolIndex) -> Result<String> {
    let mut text = String::new(alloc);
    let found = symbols.skip_to(place)?;
    push(alloc, &mut text, &found)?;
    text.push_str(listed(alloc, symbols)?.as_str())?;
    symbols.seek(place);
    let again = symbols.next()?;
    push(alloc, &mut text, &again)?;
    Ok(text)
}

/// Returns index, kind and bytes of a symbol, and whether it starts or ends a scope.
fn kind_text(alloc: Global, symbol: &Symbol<'_>) -> Result<String> {
    let scope = (symbol.starts_scope(), symbol.ends_scope());
    let (index, kind) = (symbol.index(), symbol.raw_kind());
    shown(alloc, &(index, kind, symbol.raw_bytes(), scope))
}

/// Answers a question from a module's line data, if they were read.
fn ask_lines(
    alloc: Global,
    lines: Result<LineProgram<'_>>,
    question: &Question<'_>,
) -> Result<String> {
    lines_text(alloc, &lines?, question)
}

/// Answers a question from a module's line data. The question's last two numbers are a place, or
/// the last one is a file's index.
fn lines_text(alloc: Global, lines: &LineProgram<'_>, question: &Question<'_>) -> Result<String> {
    let (_, section, number) = question.numbers;
    match question.task {
        Task::Lines => listed(alloc, &mut lines.lines()),
        Task::LinesAt => listed(
            alloc,
            &mut lines.lines_for_symbol(place_of(section, number)),
        ),
        Task::Files => listed(alloc, &mut lines.files()),
        _ => shown_read(alloc, lines.get_file_info(FileIndex(number))),
    }
}

/// Returns a place in a section. A section past 65535 becomes 65535.
fn place_of(section: u32, offset: u32) -> PdbInternalSectionOffset {
    PdbInternalSectionOffset {
        offset,
        section: u16::try_from(section).unwrap_or(0xffff),
    }
}

/// Returns the ids of inlined functions, and how their list ends.
fn inlinees_text(alloc: Global, inlinees: Result<InlineeIterator<'_>>) -> Result<String> {
    let mut inlinees = inlinees?;
    let mut text = String::new(alloc);
    for _ in 0..1000u32 {
        match inlinees.next() {
            Ok(None) => break,
            inlinee => push(alloc, &mut text, &id_of(inlinee))?,
        }
    }
    Ok(text)
}

/// Returns an inlined function's id.
fn id_of(inlinee: Result<Option<Inlinee<'_>>>) -> Result<IdIndex> {
    match inlinee? {
        None => Err(not_a_case()),
        Some(inlinee) => Ok(inlinee.index()),
    }
}

/// Returns the rows of a call of the first inlined function with the question's annotations.
fn call_text(alloc: Global, bytes: &[u8], question: &Question<'_>) -> Result<String> {
    let annotations = bytes_of(alloc, question.further)?;
    let (_, section, offset) = question.numbers;
    call_rows(alloc, bytes, &annotations, place_of(section, offset))
}

/// Returns the first inlined function.
fn first_inlinee(bytes: &[u8]) -> Result<Option<Inlinee<'_>>> {
    InlineeIterator::parse(bytes)?.next()
}

/// Returns the rows of a call with these annotations.
fn call_rows<'a>(
    alloc: Global,
    bytes: &'a [u8],
    annotations: &'a [u8],
    place: PdbInternalSectionOffset,
) -> Result<String> {
    let site = InlineSiteSymbol {
        parent: None,
        end: SymbolIndex(0),
        inlinee: IdIndex(0),
        invocations: None,
        annotations: BinaryAnnotations::new(annotations),
    };
    match first_inlinee(bytes)? {
        None => Err(not_a_case()),
        Some(inlinee) => listed(alloc, &mut inlinee.lines(place, &site)),
    }
}

/// Answers a question from imports, if they were read.
fn ask_imports(
    alloc: Global,
    imports: Result<CrossModuleImports<'_>>,
    question: &Question<'_>,
) -> Result<String> {
    imported_text(alloc, &imports?, question)
}

/// Returns the item that an index stands for in another module.
fn imported_text(
    alloc: Global,
    imports: &CrossModuleImports<'_>,
    question: &Question<'_>,
) -> Result<String> {
    let (_, index, _) = question.numbers;
    match question.task {
        Task::TypeImport => shown_read(alloc, imports.resolve_import(TypeIndex(index))),
        _ => shown_read(alloc, imports.resolve_import(IdIndex(index))),
    }
}

/// Answers a question from exports, if they were read.
fn ask_exports(
    alloc: Global,
    exports: Result<CrossModuleExports<'_>>,
    question: &Question<'_>,
) -> Result<String> {
    exported_text(alloc, &exports?, question)
}

/// Returns the exports, or the item that a type's or an id's index stands for.
fn exported_text(
    alloc: Global,
    exports: &CrossModuleExports<'_>,
    question: &Question<'_>,
) -> Result<String> {
    let (_, index, _) = question.numbers;
    match question.task {
        Task::Exports => exports_text(alloc, exports),
        Task::TypeExport => shown_read(alloc, exports.resolve_import(Local(TypeIndex(index)))),
        Task::IdExport => shown_read(alloc, exports.resolve_import(Local(IdIndex(index)))),
        _ => Err(not_a_case()),
    }
}

/// Returns the exports in their order, and their number.
fn exports_text(alloc: Global, exports: &CrossModuleExports<'_>) -> Result<String> {
    let mut text = String::new(alloc);
    for export in exports.exports() {
        push(alloc, &mut text, &export)?;
    }
    push(alloc, &mut text, &(exports.len(), exports.is_empty()))?;
    Ok(text)
}
