//! What the words of the arguments choose: of options that exclude each other the last one counts.

use crate::given_words::GivenWords;
use crate::stores::push_search_path;
use pdb_llvm_protocol::{Flag, OptionWord, Setting, Style, read_option};
use std::alloc::{AllocError, Global};
use std::fmt;

/// The name that a function is reported by.
#[derive(Clone, Copy)]
pub enum FunctionName {
    /// None.
    None,
    /// The name without arguments.
    Short,
    /// The name with arguments.
    Linkage,
}

/// A fault of a word, which prints as it is reported.
#[derive(Clone, Copy)]
pub enum WordFault<'w> {
    /// No option has this name, or this letter, which stands after a dash.
    Unknown(&'w str),
    /// The option that this word ends with lacks its value.
    NoValue(&'w str),
}

impl<'w> fmt::Display for WordFault<'w> {
    fn fmt<W: fmt::Write>(&self, f: &mut fmt::Formatter<W>) -> fmt::Result {
        match self {
            WordFault::Unknown(name) => write!(f, "unknown argument '-{name}'"),
            WordFault::NoValue(word) => write!(f, "{word}: missing argument"),
        }
    }
}

/// The choices of the words. Where nothing is chosen, a choice is `None`, false or empty.
#[derive(Drop)]
pub struct Choices<'w> {
    /// Whether the help is asked for.
    pub help: bool,
    /// Whether the version is asked for.
    pub version: bool,
    /// Whether symbolizer markup is to be read.
    pub markup: bool,
    /// Whether addresses are written.
    pub addresses: bool,
    /// Whether each frame has one line.
    pub pretty: bool,
    /// Whether a frame has several lines.
    pub verbose: bool,
    /// Whether addresses are relative to the image.
    pub relative: bool,
    /// Whether files are reported without folders.
    pub base_names: bool,
    /// Whether inlined calls are reported.
    pub inlines: Option<bool>,
    /// Whether names are undecorated.
    pub demangle: Option<bool>,
    /// Whether names of functions are asked for without saying which. Then they have arguments,
    /// whatever else is chosen.
    pub functions: bool,
    /// The names of functions that are asked for by a value.
    pub function: Option<FunctionName>,
    /// How answers are written.
    pub style: Option<Style>,
    /// The image or database of all addresses.
    pub object: Option<&'w str>,
    /// The database of the image.
    pub database: Option<&'w str>,
    /// The build ID of the object of all addresses.
    pub build_id: Option<&'w str>,
    /// What is subtracted from each address.
    pub adjust: Option<&'w str>,
    /// How many lines of source are written.
    pub context_lines: Option<&'w str>,
    /// How much may be cached.
    pub cache_size: Option<&'w str>,
    /// The folders of symbol stores.
    pub stores: Vec<&'w str>,
    /// Folders that are looked at for Apple's systems.
    pub dsym_hints: Vec<&'w str>,
    /// The addresses, as lines of input have them.
    pub inputs: Vec<&'w str>,
    /// The faults of the words.
    pub errors: Vec<WordFault<'w>>,
    /// The option that wants the next word, with the word that it stands in.
    wanting: Option<(Setting, &'w str)>,
}

/// The style that a word names; that of LLVM, if it names another.
fn style_of(word: &str) -> Style {
    match word {
        "JSON" => Style::Json,
        "GNU" => Style::Gnu,
        _ => Style::Llvm,
    }
}

/// The names of functions that a word asks for.
fn function_of(word: &str) -> FunctionName {
    match word {
        "none" => FunctionName::None,
        "short" => FunctionName::Short,
        _ => FunctionName::Linkage,
    }
}

/// Appends an item to a list.
///
/// # Errors
/// Where memory ran out.
pub fn push<T: Drop>(list: &mut Vec<T>, item: T) -> Result<(), AllocError> {
    list.push(item)?;
    Ok(())
}

/// Puts an item before those of a list.
fn push_first<T: Drop>(list: &mut Vec<T>, item: T) -> Result<(), AllocError> {
    list.insert(0, item)?;
    Ok(())
}

impl<'w> Choices<'w> {
    /// No choices.
    pub fn new(alloc: Global) -> Choices<'w> {
        Choices {
            help: false,
            version: false,
            markup: false,
            addresses: false,
            pretty: false,
            verbose: false,
            relative: false,
            base_names: false,
            functions: false,
            inlines: None,
            demangle: None,
            function: None,
            style: None,
            object: None,
            database: None,
            build_id: None,
            adjust: None,
            context_lines: None,
            cache_size: None,
            stores: Vec::new(alloc),
            dsym_hints: Vec::new(alloc),
            inputs: Vec::new(alloc),
            errors: Vec::new(alloc),
            wanting: None,
        }
    }

    /// Chooses what an option without a value stands for.
    fn choose(&mut self, flag: Flag) {
        match flag {
            Flag::Addresses => self.addresses = true,
            Flag::BaseNames => self.base_names = true,
            Flag::RelativeNames => self.base_names = false,
            Flag::Demangle => self.demangle = Some(true),
            Flag::NoDemangle => self.demangle = Some(false),
            Flag::Inlines => self.inlines = Some(true),
            Flag::NoInlines => self.inlines = Some(false),
            Flag::Functions => self.functions = true,
            Flag::PrettyPrint => self.pretty = true,
            Flag::RelativeAddress => self.relative = true,
            Flag::Verbose => self.verbose = true,
            Flag::Help => self.help = true,
            Flag::Version => self.version = true,
            Flag::FilterMarkup => self.markup = true,
            Flag::Ignored => {}
        }
    }

    /// Chooses the value of an option.
    fn set(&mut self, setting: Setting, value: &'w str) -> Result<(), AllocError> {
        match setting {
            Setting::SymbolStore => return push(&mut self.stores, value),
            Setting::DsymHint => return push(&mut self.dsym_hints, value),
            Setting::Object => self.object = Some(value),
            Setting::Database => self.database = Some(value),
            Setting::AdjustVma => self.adjust = Some(value),
            Setting::Functions => self.function = Some(function_of(value)),
            Setting::OutputStyle => self.style = Some(style_of(value)),
            Setting::ContextLines => self.context_lines = Some(value),
            Setting::BuildId => self.build_id = Some(value),
            Setting::CacheSize => self.cache_size = Some(value),
            Setting::Ignored => {}
        }
        Ok(())
    }

    /// Takes an option of a word, whose name and value stand after a dash.
    fn take_option(
        &mut self,
        option: OptionWord,
        word: &'w str,
        name: &'w str,
    ) -> Result<(), AllocError> {
        match option {
            OptionWord::Input => push(&mut self.inputs, word),
            OptionWord::Joined(setting) => self.set(setting, after_equals(name)),
            OptionWord::JoinedFile => self.set(Setting::Object, after_first(name)),
            OptionWord::Unknown => push(&mut self.errors, WordFault::Unknown(name)),
            OptionWord::UnknownLetter => {
                push(&mut self.errors, WordFault::Unknown(first_letter(name)))
            }
            OptionWord::Flag(flag) | OptionWord::Letter(flag) => {
                self.choose(flag);
                Ok(())
            }
            OptionWord::Wanting(setting) => {
                self.wanting = Some((setting, word));
                Ok(())
            }
        }
    }

    /// Reads a word: an option, an input, or letters that stand together.
    fn read_word(&mut self, alloc: Global, word: &'w str) -> Result<(), AllocError> {
        let mut option = read_option(word);
        let mut name = after_first(word);
        for _ in 0..word.len() {
            self.take_option(option, word, name)?;
            name = after_first(name);
            let may_go_on = matches!(option, OptionWord::Letter(_) | OptionWord::UnknownLetter);
            if name.is_empty() || !may_go_on {
                break;
            }
            let part = format!(in alloc; "-{name}")?;
            option = read_option(part.as_str());
        }
        Ok(())
    }

    /// Takes the choices of the words that the program is given, and the folders of the search
    /// path after those of the words.
    ///
    /// # Errors
    /// Where memory ran out.
    pub fn read(&mut self, alloc: Global, given: &'w GivenWords) -> Result<(), AllocError> {
        for word in &given.words {
            let read = match self.wanting.take() {
                Some((setting, _)) => self.set(setting, word.as_str()),
                None => self.read_word(alloc, word.as_str()),
            };
            read?;
        }
        // That the last word lacks its value is reported before all else.
        if let Some((_, word)) = self.wanting {
            push_first(&mut self.errors, WordFault::NoValue(word))?;
        }
        push_search_path(&mut self.stores, given.search_path.as_str())
    }
}

/// The text after the first equals sign of another; empty where there is none.
fn after_equals(text: &str) -> &str {
    match text.split_once('=') {
        Some((_, value)) => value,
        None => "",
    }
}

/// The first character of a text.
fn first_letter(text: &str) -> &str {
    text.strip_suffix(after_first(text)).unwrap_or(text)
}

/// The text after the first character of another.
fn after_first(text: &str) -> &str {
    let mut letters = text.chars();
    let _ = letters.next();
    letters.as_str()
}
