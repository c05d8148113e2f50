//! The questions of cases of texts.

use pdb_addr2line::{Flags, TypeFormatterFlags};

/// The kind of a question of a case or of a line.
#[derive(Clone, Copy)]
pub enum Asked {
    /// The signature of a function of a type.
    Function,
    /// The signature of a function without a name of a type.
    Unnamed,
    /// The signature of a function of a type, written to a writer.
    Emitted,
    /// The text of an id.
    Id,
    /// The text of an id, written to a writer.
    EmittedId,
    /// The size of a type.
    Size,
    /// The function at an RVA.
    FunctionAt,
    /// The frames at an RVA.
    FramesAt,
    /// The frames at an RVA, with shared names.
    SharedAt,
    /// The run of the function at a place.
    RunFrom,
    /// The run of the source file of a place.
    FileRunFrom,
    /// The run of the source file of a place, from a context that was asked for its frames before.
    FileRunAgain,
    /// The run of the frames of a place.
    FramesRunFrom,
    /// All functions.
    Functions,
    /// The number of times that contexts that were asked before ask for modules, at each of many
    /// addresses.
    EachAgain,
    /// The frames at each of many addresses, from a context that forgets.
    Forgotten,
    /// The frames at an RVA, in every prefix of the file.
    Prefixes,
}

/// The kinds of questions, each by its word.
const ASKED: &[(&str, Asked)] = &[
    ("function", Asked::Function),
    ("unnamed", Asked::Unnamed),
    ("emitted", Asked::Emitted),
    ("id", Asked::Id),
    ("emitted_id", Asked::EmittedId),
    ("size", Asked::Size),
    ("function_at", Asked::FunctionAt),
    ("frames_at", Asked::FramesAt),
    ("shared_at", Asked::SharedAt),
    ("run_from", Asked::RunFrom),
    ("file_run_from", Asked::FileRunFrom),
    ("file_run_again", Asked::FileRunAgain),
    ("frames_run_from", Asked::FramesRunFrom),
    ("functions", Asked::Functions),
    ("each_again", Asked::EachAgain),
    ("forgotten", Asked::Forgotten),
    ("prefixes", Asked::Prefixes),
];

/// Returns the kind of question of a word. An unknown word asks for all functions.
fn asked_of(word: &str) -> Asked {
    for (name, asked) in ASKED {
        if word == *name {
            return *asked;
        }
    }
    Asked::Functions
}

/// The question of a case or a line of questions.
#[derive(Clone, Copy)]
pub struct Question<'q> {
    /// The kind of the question.
    pub asked: Asked,
    /// The database's file.
    pub file: &'q str,
    /// The index of a module.
    pub module: usize,
    /// The flags of the formatter.
    pub flags: u32,
    /// An index, an RVA or an offset.
    pub index: u32,
}

/// Returns the question of five words. A missing number is 0.
pub fn question_of(words: &str) -> Question<'_> {
    let mut words = words.split(' ');
    Question {
        asked: asked_of(words.next().unwrap_or("")),
        file: words.next().unwrap_or(""),
        module: words.next().unwrap_or("").parse::<usize>().unwrap_or(0),
        flags: words.next().unwrap_or("").parse::<u32>().unwrap_or(0),
        index: u32::from_str_radix(words.next().unwrap_or(""), 16).unwrap_or(0),
    }
}

/// Returns the question of three words, without a database's file and flags. A missing number is 0.
pub fn question_about(words: &str) -> Question<'_> {
    let mut words = words.split(' ');
    Question {
        asked: asked_of(words.next().unwrap_or("")),
        file: "",
        module: words.next().unwrap_or("").parse::<usize>().unwrap_or(0),
        flags: 0,
        index: u32::from_str_radix(words.next().unwrap_or(""), 16).unwrap_or(0),
    }
}

impl<'q> Question<'q> {
    /// Returns the flags of the formatter.
    pub fn formatter_flags(&self) -> TypeFormatterFlags {
        TypeFormatterFlags::from_bits_retain(self.flags)
    }
}
