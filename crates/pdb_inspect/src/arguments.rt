//! The program's arguments.

use clap::error::ErrorKind;
use clap::{Arg, ArgAction, ArgMatches, Command, Error};
use pdb_listings::Format;
use std::alloc::{AllocError, Global};

/// The program's version, as the file VERSION has it.
const VERSION: &str = "0.2.0";

const ABOUT: &str = "Lists what a Windows program's database (PDB) has";

const EXAMPLES: &str = "\
Examples:
  pdb_inspect functions program.pdb
  pdb_inspect locate program.pdb main
  pdb_inspect sizes program.pdb --by file --top 10
  pdb_inspect diff old.pdb new.pdb

`pdb_inspect help functions` says what is written; the other commands have such a help, too.
The exit status is 0; 1 after a fault, which is reported on standard error; 2 for wrong arguments.";

const FUNCTIONS_TEXT: &str = "\
Each line is START SIZE NAME at FILE:LINE: the address where the function starts, in hexadecimal,
its size in bytes, its name, and the place of its start. ?? stands for what isn't known.

Example:
  pdb_inspect functions program.pdb --demangle";

const LINES_TEXT: &str = "\
Each line is START SIZE FILE:LINE: the address where a run of code begins, in hexadecimal, its
length in bytes, and the line of the innermost call there. ?? stands for what isn't known.

Example:
  pdb_inspect lines program.pdb --format csv";

const MODULES_TEXT: &str = "\
Each line has the module's bytes of code, of data that may be read alone, of data that may be
written and of data that are zero at the start, and then MODULE in LIBRARY by COMPILER. What no
module contributed comes last. ?? stands for what isn't known.

Example:
  pdb_inspect modules program.pdb";

const SOURCES_TEXT: &str = "\
Each line is VERDICT PATH: right where a file has the stored checksum, changed where files have
another one, missing where there is none, and no checksum where none is stored. Without FOLDER the
file at PATH is read, else those in the folders that lie where an end of PATH says.

Example:
  pdb_inspect sources program.pdb src include";

const INFO_TEXT: &str = "\
It has GUID and age, the machine, the page size in bytes, how many streams, modules, procedures and
public symbols there are, the compilers with how many modules each made, and whether IMAGE fits:
then its record of its database has the same GUID and age.

Example:
  pdb_inspect info program.pdb program.exe";

const LOCATE_TEXT: &str = "\
Each line is ADDRESS NAME. A function is found by its name as `functions` lists it, or undecorated,
in both cases whole or without arguments. +OFFSET is added to its address: in decimal digits, or in
hexadecimal ones after 0x. The exit status is 1 where no function has one of the names.

Example:
  pdb_inspect locate program.pdb main+0x10";

const SIZES_TEXT: &str = "\
Each line is BYTES SHARE NAME, the largest first. By function and by file, addresses are counted as
`pdb_symbolizer sizes` counts them; by module, library and section, bytes that are contributed.
Lines for people end with what --top leaves out, and with the total.

Example:
  pdb_inspect sizes program.pdb --by file --top 10";

const DIFF_TEXT: &str = "\
Each line is OLD NEW CHANGE NAME, in bytes, the largest change first. Lines for people end with what
--top leaves out, and with the totals.

Example:
  pdb_inspect diff old.pdb new.pdb --by module";

const FORMATS: &[&str] = &["text", "csv", "json"];

const KINDS: &[&str] = &["function", "file", "folder", "module", "library", "section"];

/// What sizes are by.
#[derive(Clone, Copy)]
pub enum By {
    /// The function.
    Function,
    /// Its source file.
    File,
    /// That file's folder.
    Folder,
    /// The module.
    Module,
    /// The file from which it was linked.
    Library,
    /// The section.
    Section,
}

/// What is asked for.
#[derive(Clone, Copy)]
pub enum Task {
    /// The functions of a file.
    Functions,
    /// The lines of a file.
    Lines,
    /// The modules of a file.
    Modules,
    /// The source files of a file, looked for in folders.
    Sources,
    /// What a file says of itself, and whether an image fits.
    Info,
    /// The functions of a file with these names.
    Locate,
    /// The sizes of a file.
    Sizes,
    /// The change of sizes from a file to another.
    Diff,
}

/// How sizes are listed.
#[derive(Clone, Copy)]
pub struct SizeOptions {
    /// What they are by.
    pub by: By,
    /// How many are listed at most.
    pub top: Option<usize>,
    /// Whether padding after a function counts for it.
    pub join_padding: bool,
}

/// What is asked for, and how it is written.
#[derive(Drop)]
pub struct Request<'a> {
    /// What is asked for.
    pub task: Task,
    /// The path of the file.
    pub file: &'a str,
    /// The words after it: folders, names, an image, or the other file.
    pub others: Vec<&'a str>,
    /// How sizes are listed.
    pub sizes: SizeOptions,
    /// The form of the output.
    pub format: Format,
    /// Whether decorated names are undecorated.
    pub demangle: bool,
}

impl<'a> Request<'a> {
    /// The first word after the file.
    pub fn other(&self) -> Option<&'a str> {
        self.others.as_slice().first().copied()
    }
}

/// What the arguments give.
#[derive(Drop)]
pub enum Given<'a> {
    /// A request.
    Request(Request<'a>),
    /// A text to be printed, and the exit status after it: help or the version (0), or what is
    /// wrong with the arguments (2).
    Text(String, u8),
}

/// How an argument is given.
#[derive(Clone, Copy)]
enum Kind {
    /// By its name alone.
    Flag,
    /// By its name and any value, which help calls so.
    Value(&'static str),
    /// By its name and one of these values, which help calls so; the second text stands for none.
    Choice(&'static str, &'static str, &'static [&'static str]),
    /// As a word, which may be left out.
    Word,
    /// As a word.
    NeededWord,
    /// As any number of words.
    Words,
    /// As a word or more.
    NeededWords,
}

/// An argument of a command.
#[derive(Clone, Copy)]
struct Argument {
    name: &'static str,
    kind: Kind,
    help: &'static str,
}

const FILE: Argument = Argument {
    name: "FILE",
    kind: Kind::NeededWord,
    help: "The program database: a .pdb file, in a big MSF container",
};

const OLD: Argument = Argument {
    name: "OLD",
    kind: Kind::NeededWord,
    help: "The program database: a .pdb file, in a big MSF container",
};

const NEW: Argument = Argument {
    name: "NEW",
    kind: Kind::NeededWord,
    help: "The database of the later build",
};

const FOLDERS: Argument = Argument {
    name: "FOLDER",
    kind: Kind::Words,
    help: "Folders in which the ends of the paths are looked for",
};

const IMAGE: Argument = Argument {
    name: "IMAGE",
    kind: Kind::Word,
    help: "An .exe or .dll file: whether it fits is written",
};

const NAMES: Argument = Argument {
    name: "NAME",
    kind: Kind::NeededWords,
    help: "The name of a function, whole or without arguments, and maybe +OFFSET",
};

const FORMAT: Argument = Argument {
    name: "format",
    kind: Kind::Choice("FORM", "text", FORMATS),
    help: "Lines for people, CSV, or JSON Lines",
};

const DEMANGLE: Argument = Argument {
    name: "demangle",
    kind: Kind::Flag,
    help: "Writes decorated names of Visual C++, ?f@@YAXXZ, as people read them, f(void)",
};

const BY: Argument = Argument {
    name: "by",
    kind: Kind::Choice("KIND", "function", KINDS),
    help: "What bytes are counted by",
};

const TOP: Argument = Argument {
    name: "top",
    kind: Kind::Value("COUNT"),
    help: "Lists so many at most, and what the others have together",
};

const JOIN_PADDING: Argument = Argument {
    name: "join-padding",
    kind: Kind::Flag,
    help: "Counts bytes without a procedure for the function before them in their contribution",
};

/// A command: its task, its name, what it does, its help, the names of its file and of the words
/// after that, and its arguments.
struct Described {
    task: Task,
    name: &'static str,
    about: &'static str,
    text: &'static str,
    file: &'static str,
    others: &'static str,
    arguments: &'static [Argument],
}

/// The commands, in the order of the help.
const COMMANDS: &[Described] = &[
    Described {
        task: Task::Functions,
        name: "functions",
        about: "Lists the functions by address, each with its size, name, file and line",
        text: FUNCTIONS_TEXT,
        file: "FILE",
        others: "",
        arguments: &[FILE, FORMAT, DEMANGLE],
    },
    Described {
        task: Task::Lines,
        name: "lines",
        about: "Lists runs of code that have one line: address, length in bytes, file and line",
        text: LINES_TEXT,
        file: "FILE",
        others: "",
        arguments: &[FILE, FORMAT],
    },
    Described {
        task: Task::Modules,
        name: "modules",
        about: "Lists the modules: bytes of code, read-only, written and zeroed data; compiler",
        text: MODULES_TEXT,
        file: "FILE",
        others: "",
        arguments: &[FILE, FORMAT],
    },
    Described {
        task: Task::Sources,
        name: "sources",
        about: "Says of each source file whether it is the one that was built, changed or missing",
        text: SOURCES_TEXT,
        file: "FILE",
        others: "FOLDER",
        arguments: &[FILE, FOLDERS, FORMAT],
    },
    Described {
        task: Task::Info,
        name: "info",
        about: "Says what the database is: identity, machine, counts, compilers",
        text: INFO_TEXT,
        file: "FILE",
        others: "IMAGE",
        arguments: &[FILE, IMAGE, FORMAT],
    },
    Described {
        task: Task::Locate,
        name: "locate",
        about: "Lists the addresses of functions with these names",
        text: LOCATE_TEXT,
        file: "FILE",
        others: "NAME",
        arguments: &[FILE, NAMES, FORMAT],
    },
    Described {
        task: Task::Sizes,
        name: "sizes",
        about: "Lists how many bytes functions, files or modules have, the largest first",
        text: SIZES_TEXT,
        file: "FILE",
        others: "",
        arguments: &[FILE, FORMAT, BY, TOP, JOIN_PADDING, DEMANGLE],
    },
    Described {
        task: Task::Diff,
        name: "diff",
        about: "Lists what grew, shrank, came and went between two databases, by how many bytes",
        text: DIFF_TEXT,
        file: "OLD",
        others: "NEW",
        arguments: &[OLD, NEW, FORMAT, BY, TOP, JOIN_PADDING, DEMANGLE],
    },
];

/// An argument of a command.
fn argument_of<'a>(alloc: Global, argument: &Argument) -> Arg<'a> {
    let given = Arg::new(alloc, argument.name).help(argument.help);
    match argument.kind {
        Kind::Flag => given.long(argument.name).action(ArgAction::SetTrue),
        Kind::Value(name) => given.long(argument.name).value_name(name),
        Kind::Choice(name, usual, values) => given
            .long(argument.name)
            .value_name(name)
            .value_parser(values)
            .default_value(usual),
        Kind::Word => given,
        Kind::NeededWord => given.required(true),
        Kind::Words => given.num_args(0..).action(ArgAction::Append),
        Kind::NeededWords => given.num_args(1..).action(ArgAction::Append).required(true),
    }
}

/// A command with its arguments.
fn command_of<'a>(alloc: Global, described: &Described) -> Result<Command<'a>, AllocError> {
    let mut command = Command::new(alloc, described.name)
        .about(described.about)
        .after_help(described.text);
    for argument in described.arguments {
        command = command.arg(argument_of(alloc, argument))?;
    }
    Ok(command)
}

/// The program's command, without its own.
fn bare_command<'a>(alloc: Global) -> Result<Command<'a>, AllocError> {
    Command::new(alloc, "pdb_inspect")
        .about(ABOUT)
        .after_help(EXAMPLES)
        .no_binary_name(true)
        .subcommand_required(true)
        .version(VERSION)
        .bin_name("pdb_inspect")
}

/// The program's command.
fn program<'a>(alloc: Global) -> Result<Command<'a>, AllocError> {
    let mut command = bare_command(alloc)?;
    for described in COMMANDS {
        let inner = command_of(alloc, described)?;
        command = command.subcommand(inner)?;
    }
    Ok(command)
}

/// The words of a name.
fn words_in<'a>(
    alloc: Global,
    matches: &ArgMatches<'a>,
    name: &str,
) -> Result<Vec<&'a str>, AllocError> {
    match matches.get_strs(name) {
        Some(words) => Vec::from_slice(alloc, words),
        None => Ok(Vec::new(alloc)),
    }
}

/// The form that is asked for.
fn format_in(matches: &ArgMatches<'_>) -> Format {
    match matches.get_str("format") {
        Some("csv") => Format::Csv,
        Some("json") => Format::Json,
        _ => Format::Text,
    }
}

/// What sizes are by.
fn by_in(matches: &ArgMatches<'_>) -> By {
    match matches.get_str("by") {
        Some("file") => By::File,
        Some("folder") => By::Folder,
        Some("module") => By::Module,
        Some("library") => By::Library,
        Some("section") => By::Section,
        _ => By::Function,
    }
}

/// How many sizes are listed at most, if that is said; the word for it where it is no number.
fn top_in<'a>(matches: &ArgMatches<'a>) -> Result<Option<usize>, &'a str> {
    let Some(word) = matches.get_str("top") else {
        return Ok(None);
    };
    match word.parse::<usize>() {
        Ok(top) => Ok(Some(top)),
        Err(_) => Err(word),
    }
}

/// How sizes are listed.
fn size_options(matches: &ArgMatches<'_>) -> SizeOptions {
    SizeOptions {
        by: by_in(matches),
        top: top_in(matches).unwrap_or(None),
        join_padding: matches.get_flag("join-padding"),
    }
}

/// What is wrong with how sizes are to be listed, if anything is.
fn wrong_in(alloc: Global, matches: &ArgMatches<'_>) -> Result<Option<String>, AllocError> {
    if let Err(word) = top_in(matches) {
        let text = format!(in alloc; "error: --top wants a number, and {word} is none\n")?;
        return Ok(Some(text));
    }
    let options = size_options(matches);
    if options.join_padding && !matches!(options.by, By::Function) {
        let text = "error: --join-padding goes with --by function alone\n";
        return Ok(Some(String::from_str(alloc, text)?));
    }
    Ok(None)
}

/// What the arguments of a command give.
fn request_of<'a>(
    alloc: Global,
    described: &Described,
    matches: &ArgMatches<'a>,
) -> Result<Given<'a>, AllocError> {
    if let Some(text) = wrong_in(alloc, matches)? {
        return Ok(Given::Text(text, 2));
    }
    Ok(Given::Request(Request {
        task: described.task,
        file: matches.get_str(described.file).unwrap_or(""),
        others: words_in(alloc, matches, described.others)?,
        sizes: size_options(matches),
        format: format_in(matches),
        demangle: matches.get_flag("demangle"),
    }))
}

/// What the command gives that was entered.
fn entered<'a>(alloc: Global, matches: &ArgMatches<'a>) -> Result<Given<'a>, AllocError> {
    if let Some((name, inner)) = matches.subcommand() {
        for described in COMMANDS {
            if described.name == name {
                return request_of(alloc, described, inner);
            }
        }
    }
    Ok(Given::Text(String::new(alloc), 2))
}

/// What is said of an error in reading the arguments.
fn told<'a>(alloc: Global, error: &Error) -> Result<Given<'a>, AllocError> {
    if error.kind() == ErrorKind::OutOfMemory {
        return Err(AllocError);
    }
    let text = error.to_string(alloc)?;
    let status = if error.exit_code() == 0 { 0 } else { 2 };
    Ok(Given::Text(text, status))
}

/// What the arguments after the program's name give.
///
/// # Errors
/// `AllocError` when memory runs out.
pub fn read_arguments<'a>(alloc: Global, words: &'a [String]) -> Result<Given<'a>, AllocError> {
    match program(alloc)?.try_get_matches_from(words) {
        Ok(matches) => entered(alloc, &matches),
        Err(error) => told(alloc, &error),
    }
}
