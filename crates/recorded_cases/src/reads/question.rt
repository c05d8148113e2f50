//! The questions of cases.

/// The task of a case.
#[derive(Clone, Copy)]
pub enum Task {
    /// The primitive type with an index.
    Primitive,
    /// The content of a type's record.
    Type,
    /// The content of an id's record.
    Id,
    /// The meaning of attributes of types, members and pointers.
    Attributes,
    /// Bytes as a text, in UTF-8.
    Text,
    /// The slices of pages whose numbers the name lists, with a size, cut to a length.
    Pages,
    /// Binary annotations one by one.
    Annotations,
    /// The symbols of a list from a place on.
    Symbols,
    /// The content of the symbol at a place.
    Symbol,
    /// The meaning of the kind of the symbol at a place.
    SymbolKind,
    /// The first symbol at a place or later, and the symbols after it.
    SkipTo,
    /// The rows of a line program.
    Lines,
    /// The rows of the lines subsection of a place.
    LinesAt,
    /// The source files of a line program.
    Files,
    /// The source file with an index.
    File,
    /// The inlinees of a module.
    Inlinees,
    /// The rows of an inlined call.
    Call,
    /// The item that a type's index stands for in another module.
    TypeImport,
    /// The item that an id's index stands for in another module.
    IdImport,
    /// The cross-module exports.
    Exports,
    /// The type to which an index leads in the exports.
    TypeExport,
    /// The id to which an index leads in the exports.
    IdExport,
    /// The bytes of a stream by its number.
    Raw,
    /// The bytes of a stream by its index.
    Get,
    /// The bytes of a stream by its name.
    Named,
    /// The name at an offset of the string table.
    Name,
    /// The name at an offset of the string table as a text, in UTF-8.
    NameText,
    /// The content of the information stream.
    Information,
    /// The names of streams.
    Names,
    /// The machine and the age of the DBI stream.
    Debug,
    /// The modules.
    Modules,
    /// The two names of a module as texts, in UTF-8.
    ModuleNames,
    /// The section contributions.
    Contributions,
    /// The global symbols.
    Globals,
    /// The global symbols from a place on.
    GlobalsAt,
    /// The section headers of the image.
    Sections,
    /// The content of the TPI's header.
    TypeTable,
    /// The types one by one.
    Types,
    /// The type with an index.
    FindType,
    /// The content of the IPI's header.
    IdTable,
    /// The ids one by one.
    Ids,
    /// The id with an index.
    FindId,
    /// The section headers of the address map.
    ImageSections,
    /// The names of these sections.
    SectionNames,
    /// An RVA, converted.
    ImageAddress,
    /// An internal RVA, converted.
    InternalAddress,
    /// A place of the image, converted.
    ImagePlace,
    /// An internal place, converted.
    InternalPlace,
    /// A range of RVAs, converted.
    ImageRange,
    /// A range of internal RVAs, converted.
    InternalRange,
    /// The number of addresses over which the place of an internal RVA goes on.
    Run,
    /// Sums and differences of an RVA.
    ImageSums,
    /// Sums and differences of an internal RVA.
    InternalSums,
    /// Sums of a place of the image.
    ImagePlaceSums,
    /// Sums of an internal place.
    InternalPlaceSums,
    /// A word that names no task.
    Unknown,
}

/// The subject of a question.
#[derive(Clone, Copy)]
pub enum Subject<'q> {
    /// A number.
    Number(u32),
    /// Bytes in hexadecimal.
    Bytes(&'q str),
    /// A database's file.
    File(&'q str),
}

/// The question of a case.
#[derive(Clone, Copy)]
pub struct Question<'q> {
    /// The task of the case.
    pub task: Task,
    /// The subject that is asked about.
    pub subject: Subject<'q>,
    /// Further bytes in hexadecimal, or changes of the file.
    pub further: &'q str,
    /// Numbers, whose meaning depends on the task.
    pub numbers: (u32, u32, u32),
    /// A name.
    pub name: &'q str,
}

/// Returns the question of words: task, subject, further bytes or changes, three numbers, and a
/// name. Words at the end may be missing.
pub fn question_of(words: &str) -> Question<'_> {
    let mut words = words.split(' ');
    let task = task_of(words.next().unwrap_or(""));
    let subject = subject_of(task, words.next().unwrap_or("-"));
    let further = words.next().unwrap_or("-");
    let numbers = (
        number(words.next().unwrap_or("")),
        number(words.next().unwrap_or("")),
        number(words.next().unwrap_or("")),
    );
    Question {
        task,
        subject,
        further,
        numbers,
        name: words.next().unwrap_or(""),
    }
}

/// Returns the number that a word spells, or 0.
fn number(word: &str) -> u32 {
    word.parse::<u32>().unwrap_or(0)
}

/// Returns the subject of a task that a word names.
fn subject_of(task: Task, word: &str) -> Subject<'_> {
    match task {
        Task::Primitive
        | Task::ImageSums
        | Task::InternalSums
        | Task::ImagePlaceSums
        | Task::InternalPlaceSums => Subject::Number(number(word)),
        _ if word.ends_with(".pdb") => Subject::File(word),
        _ => Subject::Bytes(word),
    }
}

/// Returns the task of a word.
fn task_of(word: &str) -> Task {
    for (name, task) in TASKS {
        if word == *name {
            return *task;
        }
    }
    Task::Unknown
}

/// The tasks by their names.
const TASKS: &[(&str, Task)] = &[
    ("primitive", Task::Primitive),
    ("type", Task::Type),
    ("id", Task::Id),
    ("attributes", Task::Attributes),
    ("text", Task::Text),
    ("pages", Task::Pages),
    ("annotations", Task::Annotations),
    ("symbols", Task::Symbols),
    ("symbol", Task::Symbol),
    ("symbol_kind", Task::SymbolKind),
    ("skip_to", Task::SkipTo),
    ("lines", Task::Lines),
    ("lines_at", Task::LinesAt),
    ("files", Task::Files),
    ("file", Task::File),
    ("inlinees", Task::Inlinees),
    ("call", Task::Call),
    ("type_import", Task::TypeImport),
    ("id_import", Task::IdImport),
    ("exports", Task::Exports),
    ("type_export", Task::TypeExport),
    ("id_export", Task::IdExport),
    ("raw", Task::Raw),
    ("get", Task::Get),
    ("named", Task::Named),
    ("name", Task::Name),
    ("name_text", Task::NameText),
    ("information", Task::Information),
    ("names", Task::Names),
    ("debug", Task::Debug),
    ("modules", Task::Modules),
    ("module_names", Task::ModuleNames),
    ("contributions", Task::Contributions),
    ("globals", Task::Globals),
    ("globals_at", Task::GlobalsAt),
    ("sections", Task::Sections),
    ("type_table", Task::TypeTable),
    ("types", Task::Types),
    ("find_type", Task::FindType),
    ("id_table", Task::IdTable),
    ("ids", Task::Ids),
    ("find_id", Task::FindId),
    ("image_sections", Task::ImageSections),
    ("section_names", Task::SectionNames),
    ("image_address", Task::ImageAddress),
    ("internal_address", Task::InternalAddress),
    ("image_place", Task::ImagePlace),
    ("internal_place", Task::InternalPlace),
    ("image_range", Task::ImageRange),
    ("internal_range", Task::InternalRange),
    ("run", Task::Run),
    ("image_sums", Task::ImageSums),
    ("internal_sums", Task::InternalSums),
    ("image_place_sums", Task::ImagePlaceSums),
    ("internal_place_sums", Task::InternalPlaceSums),
];
