//! The printed text of a fault, in pieces, so that it can be written without memory.

ghost use Rattle.std.specs.Prelude.{◌≡◌, ◌++◌, codes, decimal};
ghost use Rattle.pdb_container.specs.PrintedFault.{piece_text, printed_text};

use std::fmt;

/// A piece of a fault's printed text.
#[derive(Clone, Copy)]
pub enum PrintedPiece<'t> {
    /// A text as it is.
    Text(&'t str),
    /// A number, in decimal digits.
    Number(u64),
}

impl<'t> fmt::Display for PrintedPiece<'t> {
    ghost use Rattle.std.specs.Prelude.{Some};
    ghost use Rattle.pdb_container.specs.PrintedFault.{piece_text};

    ghost output = { λ piece. Some (piece_text piece) };

    fn fmt<W: fmt::Write>(&self, f: &mut fmt::Formatter<W>) -> fmt::Result {
        match self {
            PrintedPiece::Text(text) => f.write_str(text),
            PrintedPiece::Number(number) => write!(f, "{number}"),
        }
    }
}

/// The printed text of a fault: its name, its values with the texts between them, and the text at
/// the end.
#[derive(Clone, Copy)]
pub struct PrintedFault<'t> {
    /// The name, with the text that opens the values.
    pub name: &'static str,
    /// The first value.
    pub first: PrintedPiece<'t>,
    /// The text between the first value and the second.
    pub between: &'static str,
    /// The second value.
    pub second: PrintedPiece<'t>,
    /// The text between the second value and the third.
    pub before_third: &'static str,
    /// The third value.
    pub third: PrintedPiece<'t>,
    /// The text that closes the values.
    pub end: &'static str,
}

impl<'t> fmt::Display for PrintedFault<'t> {
    ghost use Rattle.std.specs.Prelude.{Some};
    ghost use Rattle.pdb_container.specs.PrintedFault.{printed_text};

    ghost output = { λ printed. Some (printed_text printed) };

    fn fmt<W: fmt::Write>(&self, f: &mut fmt::Formatter<W>) -> fmt::Result {
        write!(f, "{}{}{}", self.name, self.first, self.between)?;
        write!(f, "{}{}{}", self.second, self.before_third, self.third)?;
        f.write_str(self.end)
    }
}

impl<'t> PrintedFault<'t> {
    /// The printed text of a fault without values.
    pub fn plain(name: &'static str) -> PrintedFault<'t>
        ensures { printed_text result ≡ name.now }
    {
        PrintedFault::value(name, PrintedPiece::Text(""), "")
    }

    /// The printed text of a fault with a value.
    pub fn value(name: &'static str, value: PrintedPiece<'t>, end: &'static str) -> PrintedFault<'t>
        ensures { printed_text result ≡ name.now ++ piece_text value.entry ++ end.now }
    {
        PrintedFault {
            name,
            first: value,
            between: "",
            second: PrintedPiece::Text(""),
            before_third: "",
            third: PrintedPiece::Text(""),
            end,
        }
    }

    /// The printed text of a fault with a text.
    pub fn text(name: &'static str, value: &'t str) -> PrintedFault<'t>
        ensures { printed_text result ≡ name.now ++ value.now ++ codes ")" }
    {
        PrintedFault::value(name, PrintedPiece::Text(value), ")")
    }

    /// The printed text of a fault with a number.
    pub fn number(name: &'static str, value: u64) -> PrintedFault<'t>
        ensures { printed_text result ≡ name.now ++ decimal value ++ codes ")" }
    {
        PrintedFault::value(name, PrintedPiece::Number(value), ")")
    }

    /// The printed text of a fault with two numbers.
    pub fn numbers(name: &'static str, first: u64, second: u64) -> PrintedFault<'t>
        ensures { printed_text result
            ≡ name.now ++ decimal first ++ codes ", " ++ decimal second ++ codes ")" }
    {
        PrintedFault {
            name,
            first: PrintedPiece::Number(first),
            between: ", ",
            second: PrintedPiece::Number(second),
            before_third: "",
            third: PrintedPiece::Text(""),
            end: ")",
        }
    }

    /// The printed text of a fault with three numbers.
    pub fn three(name: &'static str, first: u64, second: u64, third: u64) -> PrintedFault<'t>
        ensures { printed_text result ≡ name.now ++ decimal first ++ codes ", " ++ decimal second
            ++ codes ", " ++ decimal third ++ codes ")" }
    {
        PrintedFault {
            name,
            first: PrintedPiece::Number(first),
            between: ", ",
            second: PrintedPiece::Number(second),
            before_third: ", ",
            third: PrintedPiece::Number(third),
            end: ")",
        }
    }
}
