//! What the program's arguments ask for. They are `llvm-symbolizer`'s, and some more.

use crate::choices::{Choices, FunctionName};
use crate::given_words::is_addr2line;
use pdb_llvm_protocol::{
    Asked, LineForm, ReportOptions, Style, TextOptions, are_hexadecimal, parse_number, rva_of,
};
use std::fmt;

/// The requests of the arguments: the choices, and what they come to.
#[derive(Clone, Copy)]
pub struct Arguments<'c> {
    /// The program's name, as it was called.
    pub program: &'c str,
    /// The choices.
    pub choices: &'c Choices<'c>,
    /// What is subtracted from each address.
    pub adjust: u64,
    /// How lines are read.
    pub form: LineForm,
    /// The names of functions.
    pub function: FunctionName,
    /// Whether names are undecorated.
    pub demangle: bool,
    /// How answers are written.
    pub texts: TextOptions,
    /// Which frames are reported.
    pub frames: ReportOptions,
}

impl<'c> Arguments<'c> {
    /// The RVA of an address that is asked for, in an image that wants to be loaded at this base.
    pub fn rva_of(&self, address: u64, image_base: u64) -> Option<u32> {
        rva_of(address, image_base, self.adjust, self.choices.relative)
    }
}

/// The cause for which choices that can be read aren't taken. It prints as it is reported.
#[derive(Clone, Copy)]
pub enum Refusal<'c> {
    /// The value of the option of this name is no number.
    Number(&'static str, &'c str),
    /// Markup would have to be read.
    Markup,
    /// An object is named by its build ID and by its path.
    TwoObjects,
    /// This is no build ID.
    BuildId(&'c str),
}

impl<'c> fmt::Display for Refusal<'c> {
    fn fmt<W: fmt::Write>(&self, f: &mut fmt::Formatter<W>) -> fmt::Result {
        match self {
            Refusal::Number(name, value) => {
                write_expected(f, *name, "a non-negative integer", *value)
            }
            Refusal::Markup => f.write_str("error: --filter-markup isn't supported"),
            Refusal::TwoObjects => f.write_str("error: cannot specify both --build-id and --obj"),
            Refusal::BuildId(hash) => write_expected(f, "--build-id", "a build ID", *hash),
        }
    }
}

/// Writes that the value of an option isn't what is wanted.
fn write_expected<W: fmt::Write>(
    f: &mut fmt::Formatter<W>,
    option: &str,
    wanted: &str,
    value: &str,
) -> fmt::Result {
    write!(f, "{option}=: expected {wanted}, but got '{value}'")
}

/// The number of an option; 0 where it isn't given.
fn number_of<'c>(name: &'static str, value: Option<&'c str>) -> Result<u64, Refusal<'c>> {
    let Some(value) = value else {
        return Ok(0);
    };
    match parse_number(value.as_bytes()) {
        Some(number) => Ok(number),
        None => Err(Refusal::Number(name, value)),
    }
}

/// Checks the choices that aren't numbers.
fn check_choices<'c>(choices: &Choices<'c>) -> Result<(), Refusal<'c>> {
    match choices.build_id {
        _ if choices.markup => Err(Refusal::Markup),
        Some(_) if choices.object.is_some() => Err(Refusal::TwoObjects),
        Some(hash) if hash.is_empty() || !are_hexadecimal(hash.as_bytes()) => {
            Err(Refusal::BuildId(hash))
        }
        _ => Ok(()),
    }
}

/// The number that is subtracted from each address, where all choices are taken.
fn adjust_in<'c>(choices: &Choices<'c>) -> Result<u64, Refusal<'c>> {
    let lines = number_of("--print-source-context-lines", choices.context_lines);
    let size = number_of("--cache-size", choices.cache_size);
    match (
        number_of("--adjust-vma", choices.adjust),
        lines,
        size,
        check_choices(choices),
    ) {
        (Ok(adjust), Ok(_), Ok(_), Ok(())) => Ok(adjust),
        (Err(refusal), _, _, _)
        | (Ok(_), Err(refusal), _, _)
        | (Ok(_), Ok(_), Err(refusal), _)
        | (Ok(_), Ok(_), Ok(_), Err(refusal)) => Err(refusal),
    }
}

/// How answers are written.
fn texts_of(choices: &Choices<'_>, function: FunctionName, style: Style) -> TextOptions {
    TextOptions {
        style,
        functions: !matches!(function, FunctionName::None),
        addresses: choices.addresses,
        pretty: choices.pretty,
        verbose: choices.verbose,
        in_array: !choices.inputs.is_empty(),
    }
}

/// Which frames are reported: without inlined calls the function's own, in the style of GNU the
/// innermost one.
fn report_options(choices: &Choices<'_>, inlines: bool, style: Style) -> ReportOptions {
    let asked = match (inlines, style) {
        (true, _) => Asked::All,
        (false, Style::Gnu) => Asked::Innermost,
        (false, Style::Llvm | Style::Json) => Asked::Outermost,
    };
    ReportOptions {
        asked,
        base_names: choices.base_names,
    }
}

/// The requests that a program of this name is given by choices.
///
/// # Errors
/// The cause for which the choices aren't taken.
pub fn read_arguments<'c>(
    program: &'c str,
    choices: &'c Choices<'c>,
) -> Result<Arguments<'c>, Refusal<'c>> {
    let is_plain = is_addr2line(program);
    let adjust = adjust_in(choices)?;
    // `llvm-addr2line` has defaults of its own.
    let (style, function) = if is_plain {
        (Style::Gnu, FunctionName::None)
    } else {
        (Style::Llvm, FunctionName::Linkage)
    };
    let style = choices.style.unwrap_or(style);
    let function = if choices.functions {
        FunctionName::Linkage
    } else {
        choices.function.unwrap_or(function)
    };
    Ok(Arguments {
        program,
        choices,
        adjust,
        form: LineForm {
            file_given: choices.object.is_some() || choices.build_id.is_some(),
            hexadecimal: is_plain,
        },
        function,
        demangle: choices.demangle.unwrap_or(!is_plain),
        texts: texts_of(choices, function, style),
        frames: report_options(choices, choices.inlines.unwrap_or(!is_plain), style),
    })
}
