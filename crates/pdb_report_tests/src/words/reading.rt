//! The program's arguments, and what comes of them.

use pdb_arguments::{Task, WordsFault, read_words};
use std::alloc::{AllocError, Global};
use std::test::Fail;

/// The task or fault that has to come of arguments.
#[derive(Clone, Copy)]
enum Wanted {
    /// The task `frames` over a file, without `--demangle`.
    Frames(&'static str),
    /// The task `frames` over a file, with `--demangle`.
    FramesDemangled(&'static str),
    /// The task `sizes` over a range of a file, without `--by-file`.
    Sizes(&'static str, u32, u32),
    /// The task `sizes` over a range of a file, with `--by-file`.
    SizesByFile(&'static str, u32, u32),
    /// The task `sizes` over a range of a file, with `--demangle`.
    SizesDemangled(&'static str, u32, u32),
    /// The task `frames` over a file, with `--any-order`.
    FramesAnyOrder(&'static str),
    /// The task `frames` over a file, with `--json`.
    FramesJson(&'static str),
    /// The task `sizes` over a range of a file, with `--any-order`.
    SizesAnyOrder(&'static str, u32, u32),
    /// The fault with that name.
    NotAnAddress,
    /// A text on wrong arguments that contains these texts.
    Words(&'static [&'static str]),
    /// A text of help that contains these texts.
    Help(&'static [&'static str]),
}

/// Returns whether a text contains all of these.
fn has_all(text: &String, parts: &[&str]) -> bool {
    parts.iter().all(|part| text.as_str().contains(*part))
}

impl Wanted {
    /// Returns whether the wanted task or fault came.
    fn came(self, outcome: &Result<Task, WordsFault>) -> bool {
        match (self, outcome) {
            (
                Wanted::Frames(wanted),
                Ok(
                    Task::Frames {
                        file,
                        demangle: false,
                        any_order: false,
                        json: false,
                    },
                ),
            ) => { file.as_str() == wanted }
            (
                Wanted::FramesDemangled(wanted),
                Ok(
                    Task::Frames {
                        file,
                        demangle: true,
                        any_order: false,
                        json: false,
                    },
                ),
            ) => { file.as_str() == wanted }
            (
                Wanted::FramesAnyOrder(wanted),
                Ok(
                    Task::Frames {
                        file,
                        demangle: false,
                        any_order: true,
                        json: false,
                    },
                ),
            ) => { file.as_str() == wanted }
            (
                Wanted::FramesJson(wanted),
                Ok(
                    Task::Frames {
                        file,
                        demangle: false,
                        any_order: false,
                        json: true,
                    },
                ),
            ) => { file.as_str() == wanted }
            (
                Wanted::SizesAnyOrder(wanted, from, to),
                Ok(
                    Task::Sizes {
                        file,
                        start,
                        end,
                        by_file: false,
                        demangle: false,
                        any_order: true,
                    },
                ),
            ) => { file.as_str() == wanted && *start == from && *end == to }
            (
                Wanted::Sizes(wanted, from, to),
                Ok(
                    Task::Sizes {
                        file,
                        start,
                        end,
                        by_file: false,
                        demangle: false,
                        any_order: false,
                    },
                ),
            ) => { file.as_str() == wanted && *start == from && *end == to }
            (
                Wanted::SizesByFile(wanted, from, to),
                Ok(
                    Task::Sizes {
                        file,
                        start,
                        end,
                        by_file: true,
                        demangle: false,
                        any_order: false,
                    },
                ),
            ) => { file.as_str() == wanted && *start == from && *end == to }
            (
                Wanted::SizesDemangled(wanted, from, to),
                Ok(
                    Task::Sizes {
                        file,
                        start,
                        end,
                        by_file: false,
                        demangle: true,
                        any_order: false,
                    },
                ),
            ) => { file.as_str() == wanted && *start == from && *end == to }
            (Wanted::NotAnAddress, Err(WordsFault::NotAnAddress)) => true,
            (Wanted::Words(parts), Err(WordsFault::Words(text))) => has_all(text, parts),
            (Wanted::Help(parts), Err(WordsFault::Help(text))) => has_all(text, parts),
            _ => false,
        }
    }
}

/// Texts that the help on `sizes` contains.
const SIZES_HELP: &[&str] = &[
    "Usage: pdb_symbolizer sizes [OPTIONS] <FILE> <START> <END>",
    "<FILE>   The program database",
    "<START>  The range's first address, in hexadecimal",
    "<END>    The address after the range's last",
    "--by-file    Counts for each source file",
    "--demangle   Writes decorated names",
    "--any-order  Takes section contributions",
    "pdb_symbolizer sizes program.pdb 1000 2000",
    "pdb_symbolizer sizes --by-file program.pdb 1000 2000",
];

/// Texts that the help on `frames` contains.
const FRAMES_HELP: &[&str] = &[
    "Usage: pdb_symbolizer frames [OPTIONS] <FILE>",
    "<FILE>  The program database",
    "--demangle   Writes decorated names",
    "--any-order  Takes section contributions",
    "--json       Writes one line of JSON",
    "Standard input has one address a line",
    "echo 1018 | pdb_symbolizer frames program.pdb",
];

/// Texts that the help on the program contains.
const HELP: &[&str] = &[
    "Usage: pdb_symbolizer <COMMAND>",
    "frames  Reports",
    "sizes   Counts",
];

/// A text that `--version` writes.
const VERSION: &[&str] = &["pdb_symbolizer 0."];

/// Arguments with spaces between them, and the task or fault that has to come of them.
const ROWS: &[(&str, Wanted)] = &[
    ("sizes F 0x10 20", Wanted::Sizes("F", 16, 32)),
    (
        "sizes F 10",
        Wanted::Words(&[
            "  <END>",
            "Usage: pdb_symbolizer sizes <FILE> <START> <END>",
        ]),
    ),
    ("sizes --help", Wanted::Help(SIZES_HELP)),
    ("frames F", Wanted::Frames("F")),
    ("frames F --demangle", Wanted::FramesDemangled("F")),
    ("frames --any-order F", Wanted::FramesAnyOrder("F")),
    ("frames F --json", Wanted::FramesJson("F")),
    (
        "sizes F 10 20 --any-order",
        Wanted::SizesAnyOrder("F", 16, 32),
    ),
    (
        "sizes --demangle F 10 20",
        Wanted::SizesDemangled("F", 16, 32),
    ),
    ("sizes --by-file F 10 20", Wanted::SizesByFile("F", 16, 32)),
    ("sizes F 10 20 --by-file", Wanted::SizesByFile("F", 16, 32)),
    (
        "sizes --by-file -- F 10 20",
        Wanted::SizesByFile("F", 16, 32),
    ),
    (
        "sizes --by-file -- --by-file 10 20",
        Wanted::SizesByFile("--by-file", 16, 32),
    ),
    (
        "sizes F 10 20 --by-file --",
        Wanted::SizesByFile("F", 16, 32),
    ),
    ("sizes F 20 10", Wanted::Sizes("F", 32, 16)),
    ("sizes F 10 zz", Wanted::NotAnAddress),
    ("sizes F 123456789 20", Wanted::NotAnAddress),
    ("", Wanted::Words(&["Usage: pdb_symbolizer <COMMAND>"])),
    (
        "frames",
        Wanted::Words(&["  <FILE>", "Usage: pdb_symbolizer frames <FILE>"]),
    ),
    ("frames F 10", Wanted::Words(&["'10'"])),
    ("frames A B C D E F G H I J", Wanted::Words(&["'B'"])),
    ("sizes --by-file F 10 20 30", Wanted::Words(&["'30'"])),
    ("sizes F 10 20 30 40 50 60", Wanted::Words(&["'30'"])),
    (
        "sizes --by-file F 10 20 --by-file",
        Wanted::Words(&["'--by-file'"]),
    ),
    ("lines F", Wanted::Words(&["'lines'"])),
    ("--help", Wanted::Help(HELP)),
    ("-h", Wanted::Help(HELP)),
    ("help", Wanted::Help(HELP)),
    ("--version", Wanted::Help(VERSION)),
    ("-V", Wanted::Help(VERSION)),
    ("help sizes", Wanted::Help(SIZES_HELP)),
    ("frames --help", Wanted::Help(FRAMES_HELP)),
    ("sizes --by-file F 10 20 --help", Wanted::Help(SIZES_HELP)),
];

/// Reads the arguments of a line.
fn read(alloc: Global, line: &str) -> Result<Result<Task, WordsFault>, AllocError> {
    let mut words = Vec::new(alloc);
    for word in line.split_whitespace() {
        words.push(String::from_str(alloc, word)?)?;
    }
    Ok(read_words(alloc, words.as_slice()))
}

/// Reads the arguments of a line, and once more if memory runs out.
fn read_again(alloc: Global, line: &str) -> Result<Result<Task, WordsFault>, AllocError> {
    match read(alloc, line) {
        Err(_) | Ok(Err(WordsFault::OutOfMemory)) => read(alloc, line),
        outcome => outcome,
    }
}

// The only test of this file that fails if an allocation is refused: the other one asks again.
#[test]
fn first_calls_in_ample_memory(rt: HostRuntime) -> Result<(), Fail> {
    for (line, wanted) in &ROWS[..3] {
        let outcome = read(rt.alloc(), *line)?;
        if let Err(WordsFault::OutOfMemory) = &outcome {
            return Err(Fail::from("out of memory"));
        }
        assert!(rt; wanted.came(&outcome), "{line}");
    }
    Ok(())
}

#[test]
fn rows(rt: HostRuntime) -> Result<(), Fail> {
    for (line, wanted) in ROWS {
        let outcome = read_again(rt.alloc(), *line)?;
        assert!(rt; wanted.came(&outcome), "{line}");
    }
    Ok(())
}
