//! The command from which the program's arguments are read, with its help.

ghost use Rattle.std.specs.Prelude.{◌≡◌, IfOk, codes, false};
ghost use Rattle.clap.specs.Words.{app_of, new_app, rule_of, with_rule, with_subcommand};
ghost use Rattle.clap.specs.declared.builder.command.Command.TheViews.{out-Command as fields_of};
ghost use Rattle.pdb_arguments.specs.Task.{program_app, frames_app, sizes_app, bare_app, needed};
ghost use Rattle.pdb_arguments.specs.Task.{flagged, range_app};

use clap::{Arg, ArgAction, Command};
use std::alloc::{AllocError, Global};

/// The program's version, as the file VERSION has it.
const VERSION: &str = "0.2.0";

const PROGRAM_ABOUT: &str =
    "Reports functions, source files and lines at addresses of a Windows program, by its database \
    (PDB).";

const PROGRAM_EXAMPLES: &str = "\
Examples:
  echo 1018 | pdb_symbolizer frames program.pdb
  pdb_symbolizer sizes program.pdb 1000 2000

`pdb_symbolizer help frames` and `pdb_symbolizer help sizes` say what is read and written.
The exit status is 0; 1 after a fault, which is reported on standard error; 2 for wrong arguments.";

const FRAMES_ABOUT: &str = "Reports the functions at each address that is read from standard input";

const FRAMES_EXAMPLE: &str = "\
Standard input has one address a line: image-relative (an RVA), in hexadecimal, one to eight
digits, with or without the prefix 0x. For each line the address is written, and below it one line
for each function there, NAME at FILE:LINE @START+LENGTH, from the innermost inlined call outwards:
the line's code starts at START and has LENGTH bytes (in decimal). ?? stands for what isn't known,
unreadable for what is damaged, and not an address for any other line.

With --json each line gets one line of JSON in place of these: an object with address and frames,
each with function, file, line and row (start and length), null where one isn't known. No frames
stand for ??. In place of frames there is error: unreadable, or not an address, with the line.

Examples:
  echo 1018 | pdb_symbolizer frames program.pdb
  echo 1018 | pdb_symbolizer frames --demangle program.pdb
  echo 1018 | pdb_symbolizer frames --json program.pdb";

const SIZES_ABOUT: &str = "Counts the addresses of a range that each function or source file owns";

const SIZES_EXAMPLE: &str = "\
Addresses are image-relative (RVAs), in hexadecimal, one to eight digits, with or without the
prefix 0x. For each function that owns some, one line is written: the address where it starts,
how many of the range are its own (in decimal), and its name. The last line is none and the count
of those that no function owns.

With --by-file one line is written for each source file: how many addresses are in functions of
that file, and its path. Last come no file, none and unreadable, with the counts of the addresses
whose function has no known file, of those without a function, and of those with damaged data.

Examples, the addresses 1000 to 1fff:
  pdb_symbolizer sizes program.pdb 1000 2000
  pdb_symbolizer sizes --demangle program.pdb 1000 2000
  pdb_symbolizer sizes --by-file program.pdb 1000 2000";

const FILE_HELP: &str = "The program database: a .pdb file, in a big MSF container";

const BY_FILE_HELP: &str = "Counts for each source file instead of each function";

const DEMANGLE_HELP: &str =
    "Writes decorated names of Visual C++, ?f@@YAXXZ, as people read them, f(void)";

const ANY_ORDER_HELP: &str =
    "Takes section contributions in any order, as GNU ld before 2.44 writes them";

const JSON_HELP: &str = "Writes one line of JSON for each line of standard input";

const START_HELP: &str = "The range's first address, in hexadecimal, such as 1000 or 0x1000";

const END_HELP: &str =
    "The address after the range's last, which isn't counted, such as 2000 or 0x2000";

/// A required argument, with its help.
fn needed_argument<'a>(alloc: Global, name: &'a str, help: &'a str) -> Arg<'a>
    ensures rule { rule_of result ≡ needed name.entry.now }
    ensures local { result.global ≡ false }
{
    Arg::new(alloc, name).required(true).help(help)
}

/// Adds a required argument, with its help.
fn with_needed<'a>(
    alloc: Global,
    command: Command<'a>,
    name: &'a str,
    help: &'a str,
) -> Result<Command<'a>, AllocError>
    ensures app { IfOk result (λ c. app_of c ≡ with_rule (app_of command.entry)
        (needed name.entry.now)) }
    ensures local { (fields_of command.entry).has_globals ≡ false
        → IfOk result (λ c. (fields_of c).has_globals ≡ false) }
{
    command.arg(needed_argument(alloc, name, help))
}

/// A flag, with its help.
fn flag<'a>(alloc: Global, name: &'a str, help: &'a str) -> Arg<'a>
    ensures rule { rule_of result ≡ flagged name.entry.now }
    ensures local { result.global ≡ false }
{
    Arg::new(alloc, name)
        .long(name)
        .action(ArgAction::SetTrue)
        .help(help)
}

/// Adds a flag, with its help.
fn with_flag<'a>(
    alloc: Global,
    command: Command<'a>,
    name: &'a str,
    help: &'a str,
) -> Result<Command<'a>, AllocError>
    ensures app { IfOk result (λ c. app_of c ≡ with_rule (app_of command.entry)
        (flagged name.entry.now)) }
    ensures local { (fields_of command.entry).has_globals ≡ false
        → IfOk result (λ c. (fields_of c).has_globals ≡ false) }
{
    command.arg(flag(alloc, name, help))
}

/// A command of this name with its help, and no arguments yet.
fn described<'a>(alloc: Global, name: &'a str, about: &'a str, end: &'a str) -> Command<'a>
    ensures app { app_of result ≡ new_app name.entry.now }
    ensures local { (fields_of result).has_globals ≡ false }
{
    Command::new(alloc, name).about(about).after_help(end)
}

/// The command `frames FILE`, with the flags `--demangle`, `--any-order` and `--json`.
fn frames_command<'a>(alloc: Global) -> Result<Command<'a>, AllocError>
    ensures app { IfOk result (λ c. app_of c ≡ frames_app) }
    ensures local { IfOk result (λ c. (fields_of c).has_globals ≡ false) }
{
    let command = described(alloc, "frames", FRAMES_ABOUT, FRAMES_EXAMPLE);
    let with_file = with_needed(alloc, command, "FILE", FILE_HELP)?;
    let with_demangle = with_flag(alloc, with_file, "demangle", DEMANGLE_HELP)?;
    let with_any_order = with_flag(alloc, with_demangle, "any-order", ANY_ORDER_HELP)?;
    with_flag(alloc, with_any_order, "json", JSON_HELP)
}

/// Adds the arguments `START END`.
fn with_range<'a>(alloc: Global, command: Command<'a>) -> Result<Command<'a>, AllocError>
    ensures app { IfOk result (λ c. app_of c ≡ with_rule (with_rule (app_of command.entry)
        (needed (codes "START"))) (needed (codes "END"))) }
    ensures local { (fields_of command.entry).has_globals ≡ false
        → IfOk result (λ c. (fields_of c).has_globals ≡ false) }
{
    let with_start = with_needed(alloc, command, "START", START_HELP)?;
    with_needed(alloc, with_start, "END", END_HELP)
}

/// The command `sizes FILE START END`.
fn range_command<'a>(alloc: Global) -> Result<Command<'a>, AllocError>
    ensures app { IfOk result (λ c. app_of c ≡ range_app) }
    ensures local { IfOk result (λ c. (fields_of c).has_globals ≡ false) }
{
    let command = described(alloc, "sizes", SIZES_ABOUT, SIZES_EXAMPLE);
    with_range(alloc, with_needed(alloc, command, "FILE", FILE_HELP)?)
}

/// The command `sizes FILE START END`, with the flags `--by-file`, `--demangle` and `--any-order`.
fn sizes_command<'a>(alloc: Global) -> Result<Command<'a>, AllocError>
    ensures app { IfOk result (λ c. app_of c ≡ sizes_app) }
    ensures local { IfOk result (λ c. (fields_of c).has_globals ≡ false) }
{
    let with_by_file = with_flag(alloc, range_command(alloc)?, "by-file", BY_FILE_HELP)?;
    let with_demangle = with_flag(alloc, with_by_file, "demangle", DEMANGLE_HELP)?;
    with_flag(alloc, with_demangle, "any-order", ANY_ORDER_HELP)
}

/// The program's command, which requires a subcommand and has none yet. Its name appears in the
/// usage, and is no argument.
fn bare_command<'a>(alloc: Global) -> Result<Command<'a>, AllocError>
    ensures app { IfOk result (λ c. app_of c ≡ bare_app) }
    ensures local { IfOk result (λ c. (fields_of c).has_globals ≡ false) }
{
    described(alloc, "pdb_symbolizer", PROGRAM_ABOUT, PROGRAM_EXAMPLES)
        .no_binary_name(true)
        .subcommand_required(true)
        .version(VERSION)
        .bin_name("pdb_symbolizer")
}

/// The program's command with `frames`.
fn command_with_frames<'a>(alloc: Global) -> Result<Command<'a>, AllocError>
    ensures app { IfOk result (λ c. app_of c ≡ with_subcommand bare_app frames_app.top) }
{
    let frames = frames_command(alloc)?;
    bare_command(alloc)?.subcommand(frames)
}

/// The program's command, with `frames` and `sizes`.
pub(crate) fn program<'a>(alloc: Global) -> Result<Command<'a>, AllocError>
    ensures app { IfOk result (λ c. app_of c ≡ program_app) }
{
    let sizes = sizes_command(alloc)?;
    command_with_frames(alloc)?.subcommand(sizes)
}
