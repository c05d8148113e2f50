//! The words of arguments: options, their values, and input.

ghost use Rattle.std.specs.Prelude.{◌≡◌, ◌≤◌, length};
ghost use Rattle.pdb_llvm_protocol.specs.OptionWords.{ending_setting_of, file_or_letters_of};
ghost use Rattle.pdb_llvm_protocol.specs.OptionWords.{flag_of as flag_named, frame_flag_of};
ghost use Rattle.pdb_llvm_protocol.specs.OptionWords.{joined_of as joined, program_flag_of};
ghost use Rattle.pdb_llvm_protocol.specs.OptionWords.{letter_of as lettered, letters_of, option_of};
ghost use Rattle.pdb_llvm_protocol.specs.OptionWords.{setting_of as setting_named};

/// An option without a value.
#[derive(Clone, Copy)]
pub enum Flag {
    /// Each address before its answer.
    Addresses,
    /// Files without their folders.
    BaseNames,
    /// Files as they are stored.
    RelativeNames,
    /// Names as people read them.
    Demangle,
    /// Names as they are stored.
    NoDemangle,
    /// Inlined calls.
    Inlines,
    /// No inlined calls.
    NoInlines,
    /// Names of functions with arguments.
    Functions,
    /// Each frame on one line.
    PrettyPrint,
    /// Addresses relative to the image.
    RelativeAddress,
    /// A line for each part of a frame.
    Verbose,
    /// Help.
    Help,
    /// The version.
    Version,
    /// Symbolizer markup in place of addresses.
    FilterMarkup,
    /// An option that changes nothing for a PDB.
    Ignored,
}

/// An option with a value.
#[derive(Clone, Copy)]
pub enum Setting {
    /// The image or database of all addresses.
    Object,
    /// The database of the image.
    Database,
    /// A folder of databases and images by their identities.
    SymbolStore,
    /// The number that is subtracted from each address.
    AdjustVma,
    /// The form of functions' names.
    Functions,
    /// The style of answers.
    OutputStyle,
    /// The number of lines of source that are written.
    ContextLines,
    /// The build ID of the object of all addresses.
    BuildId,
    /// The amount that may be cached: a number, which changes nothing.
    CacheSize,
    /// The folder of symbols for Apple's systems, which changes nothing.
    DsymHint,
    /// An option that changes nothing for a PDB.
    Ignored,
}

/// The kind of a word of the arguments.
#[derive(Clone, Copy)]
pub enum OptionWord {
    /// No option: an address, or a line of input.
    Input,
    /// An option without a value.
    Flag(Flag),
    /// An option whose value follows the first equals sign.
    Joined(Setting),
    /// The option `-e` with its value, a file, right after it.
    JoinedFile,
    /// An option whose value is the next word.
    Wanting(Setting),
    /// A dash and the letter of an option, and further letters.
    Letter(Flag),
    /// A dash and a byte that is no option's letter.
    UnknownLetter,
    /// A word that is no option.
    Unknown,
}

/// The flag of the program that a word is, or one that changes nothing.
#[tactic(auto, unfolding(crate::specs::OptionWords::program_flag_of))]
fn program_flag(word: &str) -> Option<Flag>
    ensures { result ≡ program_flag_of word.now }
{
    match word {
        "--help" | "-h" => Some(Flag::Help),
        "--version" | "-v" => Some(Flag::Version),
        "--filter-markup" => Some(Flag::FilterMarkup),
        "--color" | "--debuginfod" | "--no-debuginfod" | "--dia" => Some(Flag::Ignored),
        "--skip-line-zero" | "--untag-addresses" | "--no-untag-addresses" => Some(Flag::Ignored),
        _ => None,
    }
}

/// The flag of addresses and frames that a word is, or one that follows in the table.
#[tactic(auto, unfolding(crate::specs::OptionWords::frame_flag_of))]
fn frame_flag(word: &str) -> Option<Flag>
    ensures { result ≡ frame_flag_of word.now }
{
    match word {
        "--addresses" | "--print-address" | "-a" => Some(Flag::Addresses),
        "--inlines" | "--inlining" | "-i" | "--inlining=true" => Some(Flag::Inlines),
        "--no-inlines" | "--inlining=false" => Some(Flag::NoInlines),
        "--pretty-print" | "-p" => Some(Flag::PrettyPrint),
        "--relative-address" => Some(Flag::RelativeAddress),
        "--verbose" => Some(Flag::Verbose),
        _ => program_flag(word),
    }
}

/// The flag that a word is.
#[tactic(auto, unfolding(crate::specs::OptionWords::flag_of))]
fn flag_of(word: &str) -> Option<Flag>
    ensures { result ≡ flag_named word.now }
{
    match word {
        "--basenames" | "-s" => Some(Flag::BaseNames),
        "--relativenames" => Some(Flag::RelativeNames),
        "--demangle" | "-C" | "-demangle=true" => Some(Flag::Demangle),
        "--no-demangle" | "-demangle=false" => Some(Flag::NoDemangle),
        "--functions" | "-f" => Some(Flag::Functions),
        _ => frame_flag(word),
    }
}

/// The setting that a word is, whose value is the next word.
#[tactic(auto, unfolding(crate::specs::OptionWords::setting_of))]
fn setting_of(word: &str) -> Option<Setting>
    ensures { result ≡ setting_named word.now }
{
    match word {
        "--obj" | "--exe" | "-e" => Some(Setting::Object),
        "--pdb" => Some(Setting::Database),
        "--symbol-store" => Some(Setting::SymbolStore),
        "--adjust-vma" => Some(Setting::AdjustVma),
        "--output-style" => Some(Setting::OutputStyle),
        "--print-source-context-lines" => Some(Setting::ContextLines),
        "--build-id" => Some(Setting::BuildId),
        "--cache-size" => Some(Setting::CacheSize),
        "--dsym-hint" => Some(Setting::DsymHint),
        "--default-arch" | "--dwp" => Some(Setting::Ignored),
        "--debug-file-directory" | "--fallback-debug-path" => Some(Setting::Ignored),
        _ => None,
    }
}

/// The setting that a word begins with, and an equals sign.
#[tactic(auto, unfolding(crate::specs::OptionWords::joined_of))]
fn joined_of(word: &[u8]) -> Option<Setting>
    ensures { result ≡ joined word.now }
{
    if word.starts_with(b"--obj=") || word.starts_with(b"--exe=") || word.starts_with(b"-e=") {
        Some(Setting::Object)
    } else if word.starts_with(b"--pdb=") {
        Some(Setting::Database)
    } else if word.starts_with(b"--symbol-store=") {
        Some(Setting::SymbolStore)
    } else if word.starts_with(b"--adjust-vma=") {
        Some(Setting::AdjustVma)
    } else if word.starts_with(b"--functions=") || word.starts_with(b"-f=") {
        Some(Setting::Functions)
    } else if word.starts_with(b"--output-style=") {
        Some(Setting::OutputStyle)
    } else {
        ending_setting(word)
    }
}

/// The same of settings that clients hardly use.
#[tactic(auto, unfolding(crate::specs::OptionWords::ending_setting_of))]
fn ending_setting(word: &[u8]) -> Option<Setting>
    ensures { result ≡ ending_setting_of word.now }
{
    if word.starts_with(b"--print-source-context-lines=") {
        Some(Setting::ContextLines)
    } else if word.starts_with(b"--build-id=") {
        Some(Setting::BuildId)
    } else if word.starts_with(b"--cache-size=") {
        Some(Setting::CacheSize)
    } else if word.starts_with(b"--dsym-hint=") {
        Some(Setting::DsymHint)
    } else if word.starts_with(b"--color=") || word.starts_with(b"--default-arch=") {
        Some(Setting::Ignored)
    } else if word.starts_with(b"--dwp=") || word.starts_with(b"--debug-file-directory=") {
        Some(Setting::Ignored)
    } else if word.starts_with(b"--fallback-debug-path=") {
        Some(Setting::Ignored)
    } else {
        None
    }
}

/// The flag of a letter.
#[tactic(auto, unfolding(crate::specs::OptionWords::letter_of))]
fn letter_of(byte: u8) -> Option<Flag>
    ensures { result ≡ lettered byte }
{
    match byte {
        b'a' => Some(Flag::Addresses),
        b's' => Some(Flag::BaseNames),
        b'C' => Some(Flag::Demangle),
        b'i' => Some(Flag::Inlines),
        b'f' => Some(Flag::Functions),
        b'p' => Some(Flag::PrettyPrint),
        b'h' => Some(Flag::Help),
        b'v' => Some(Flag::Version),
        _ => None,
    }
}

/// The kind of a word that begins with a dash and more, and that no table has.
#[tactic(auto, unfolding(crate::specs::OptionWords::letters_of))]
fn read_letters(word: &[u8]) -> OptionWord
    requires { 2 ≤ length word.now }
    ensures { result ≡ letters_of word.now }
{
    match letter_of(word[1]) {
        Some(_) if word[2..].starts_with(b"=") => OptionWord::Unknown,
        Some(flag) => OptionWord::Letter(flag),
        None if word[1] == b'-' => OptionWord::Unknown,
        None => OptionWord::UnknownLetter,
    }
}

/// The kind of a word that begins with a dash and more, and that stands in no table as it is.
#[tactic(auto, unfolding(crate::specs::OptionWords::file_or_letters_of))]
fn read_joined(word: &[u8]) -> OptionWord
    requires { 2 ≤ length word.now }
    ensures { result ≡ file_or_letters_of word.now }
{
    match joined_of(word) {
        Some(setting) => OptionWord::Joined(setting),
        None if word[1] == b'e' => OptionWord::JoinedFile,
        None => read_letters(word),
    }
}

/// The kind of a word of the arguments. Options are `llvm-symbolizer`'s, and beside them `--pdb`
/// and `--symbol-store`. A name has two dashes and a letter one; a value follows an equals sign, or
/// is the next word; letters may stand together after one dash.
#[tactic(auto, unfolding(crate::specs::OptionWords::option_of))]
pub fn read_option(word: &str) -> OptionWord
    ensures { result ≡ option_of word.now }
{
    let bytes = word.as_bytes();
    if !bytes.starts_with(b"-") || bytes.len() == 1 {
        return OptionWord::Input;
    }
    if let Some(flag) = flag_of(word) {
        return OptionWord::Flag(flag);
    }
    match setting_of(word) {
        Some(setting) => OptionWord::Wanting(setting),
        None => read_joined(bytes),
    }
}
