//! The request that the program's words make.

/// The place where a symbol file is written.
#[derive(Clone, Copy)]
pub enum Target<'w> {
    /// To standard output.
    Output,
    /// To the file at a path.
    File(&'w str),
    /// To its place in the symbol store in a folder.
    Store(&'w str),
}

/// The symbol file that is asked for.
#[derive(Clone, Copy)]
pub struct Options<'w> {
    /// The program database.
    pub file: &'w str,
    /// Its image, if it is given.
    pub image: Option<&'w str>,
    /// Whether inlined calls are written.
    pub inlines: bool,
    /// Whether names are undecorated.
    pub demangle: bool,
    /// Where the symbol file is written.
    pub target: Target<'w>,
}

/// The request that words make.
#[derive(Clone, Copy)]
pub enum Words<'w> {
    /// The help is asked for.
    Help,
    /// The version is asked for.
    Version,
    /// The words are wrong: what is wrong, and the word or the option of which it is.
    Wrong(&'static str, &'w str),
    /// No database is named.
    NoFile,
    /// A symbol file is asked for.
    Options(Options<'w>),
}

/// The choices that were read of the words.
#[derive(Clone, Copy)]
struct Choices<'w> {
    file: Option<&'w str>,
    image: Option<&'w str>,
    inlines: bool,
    demangle: bool,
    target: Target<'w>,
    /// Whether a word after `--` was read.
    plain: bool,
    /// The request that the words make whatever follows, if one was read.
    ended: Option<Words<'w>>,
}

/// A kind of word.
#[derive(Clone, Copy, PartialEq, Eq)]
enum Word {
    File,
    NoInlines,
    NoDemangle,
    Output,
    Store,
    Plain,
    Help,
    Version,
    Unknown,
}

/// The kind of a word, by how it begins.
fn word_of(word: &str) -> Word {
    match word {
        "--no-inlines" => Word::NoInlines,
        "--no-demangle" => Word::NoDemangle,
        "--output" => Word::Output,
        "--store" => Word::Store,
        "--" => Word::Plain,
        "-h" | "--help" => Word::Help,
        "-V" | "--version" => Word::Version,
        word if word.len() > 1 && word.starts_with('-') => Word::Unknown,
        _ => Word::File,
    }
}

/// An option that wants a value, and the value in its word after `=`, if there is one.
fn with_value(word: &str) -> (&str, Option<&str>) {
    match word.split_once('=') {
        Some((name, value)) if name == "--output" || name == "--store" => (name, Some(value)),
        _ => (word, None),
    }
}

impl<'w> Choices<'w> {
    /// Ends the words with an error.
    fn refuse(&mut self, what: &'static str, word: &'w str) {
        self.ended = Some(Words::Wrong(what, word));
    }

    /// Ends the words with the error that an option has no value.
    fn refuse_without_value(&mut self, kind: Word) {
        let name = if kind == Word::Store {
            "--store"
        } else {
            "--output"
        };
        self.refuse("a value is required for", name);
    }

    /// Takes the value of an option as the place to write to; an empty value is none.
    fn read_target(&mut self, kind: Word, value: &'w str) {
        if value.is_empty() {
            self.refuse_without_value(kind);
        } else if kind == Word::Store {
            self.target = Target::Store(value);
        } else {
            self.target = Target::File(value);
        }
    }

    /// Takes a word as the database or, after that, as the image.
    fn read_file(&mut self, word: &'w str) {
        if self.file.is_none() {
            self.file = Some(word);
        } else if self.image.is_none() {
            self.image = Some(word);
        } else {
            self.refuse("unexpected argument", word);
        }
    }

    /// Reads a word that wants no value.
    fn read_flag(&mut self, kind: Word, word: &'w str) {
        match kind {
            Word::NoInlines => self.inlines = false,
            Word::NoDemangle => self.demangle = false,
            Word::Plain => self.plain = true,
            Word::Help => self.ended = Some(Words::Help),
            Word::Version => self.ended = Some(Words::Version),
            Word::Unknown => self.refuse("unexpected argument", word),
            _ => self.read_file(word),
        }
    }

    /// Reads a word. Returns its kind if it is an option that wants the next word as its value.
    fn read_word(&mut self, word: &'w str) -> Option<Word> {
        if self.plain {
            self.read_file(word);
            return None;
        }
        let (name, value) = with_value(word);
        let kind = word_of(name);
        match (kind, value) {
            (Word::Output | Word::Store, Some(value)) => self.read_target(kind, value),
            (Word::Output | Word::Store, None) => return Some(kind),
            _ => self.read_flag(kind, word),
        }
        None
    }

    /// Reads all words, up to one that ends them.
    fn read_all(&mut self, words: &'w [String]) {
        let mut wanting: Option<Word> = None;
        for word in words {
            if self.ended.is_some() {
                return;
            }
            wanting = match wanting {
                Some(kind) => {
                    self.read_target(kind, word.as_str());
                    None
                }
                None => self.read_word(word.as_str()),
            };
        }
        if let Some(kind) = wanting {
            self.refuse_without_value(kind);
        }
    }

    /// The request that the words make.
    fn asked(&self) -> Words<'w> {
        match (self.ended, self.file) {
            (Some(words), _) => words,
            (None, None) => Words::NoFile,
            (None, Some(file)) => Words::Options(Options {
                file,
                image: self.image,
                inlines: self.inlines,
                demangle: self.demangle,
                target: self.target,
            }),
        }
    }
}

/// The request that the words make.
pub fn read_options(words: &[String]) -> Words<'_> {
    let mut choices = Choices {
        file: None,
        image: None,
        inlines: true,
        demangle: true,
        target: Target::Output,
        plain: false,
        ended: None,
    };
    choices.read_all(words);
    choices.asked()
}
