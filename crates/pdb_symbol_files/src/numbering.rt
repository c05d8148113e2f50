//! The numbers of files and of inlined functions.

ghost use Rattle.std.specs.Prelude.{◌≡◌, ◌<◌, ◌^◌, [], IfOk, length, OnOk};
ghost use Rattle.pdb_symbol_files.specs.Output.{IsAppended};
ghost use Rattle.pdb_symbol_files.specs.Records.{number_of, used};
ghost use Rattle.pdb_symbol_files.specs.RecordTexts.{numbered_text, numbered_texts};

use indexmap::IndexSet;
use std::alloc::{AllocError, Global};
use std::marker::Model;

/// Texts, numbered from 0 on in the order of their first use.
pub(crate) struct Numbering {
    texts: IndexSet<String>,
    alloc: Global,
}

impl Model for Numbering {
    ghost use Rattle.std.specs.Prelude.{ℕ, List, map};
    ghost use Rattle.std.specs.String.{string_bytes};

    ghost Value = { List (List ℕ) };

    ghost view = { λ n. map (λ t. string_bytes t) (n.texts).keys };
}

impl Drop for Numbering {
    fn drop(self) {
        let Numbering { texts, alloc: _ } = self;
        drop(texts);
    }
}

/// Appends a record of a text with its number: a word, the number, and the text.
fn append_numbered(
    word: &str,
    number: usize,
    text: &str,
    output: &mut String,
) -> Result<(), AllocError>
    ensures { OnOk result (IsAppended output.old output.new
        (numbered_text word.now number text.now)) }
{
    write!(output, "{word} {number} {text}\n")
}

impl Numbering {
    /// No texts.
    pub(crate) fn new(alloc: Global) -> Numbering
        ensures { result ≡ [] }
    {
        Numbering {
            texts: IndexSet::new(alloc),
            alloc,
        }
    }

    /// The number of a text.
    ///
    /// # Errors
    /// `AllocError` when memory runs out.
    #[tactic(auto, using(crate::proofs::NumberSteps::found_number, crate::proofs::NumberSteps::found_used, crate::proofs::NumberSteps::added_used, crate::proofs::NumberSteps::added_number))]
    pub(crate) fn number(&mut self, text: &str) -> Result<usize, AllocError>
        ensures texts { OnOk result (self.new ≡ used self.old text.now) }
        ensures number { IfOk result (λ n. n ≡ number_of self.old text.now) }
    {
        if let Some(number) = self.texts.get_index_of(text) {
            return Ok(number);
        }
        let text = String::from_str(self.alloc, text)?;
        let (number, _) = self.texts.insert_full(text)?;
        Ok(number)
    }

    /// Appends a record for each text: this word, its number, and the text.
    ///
    /// # Errors
    /// `AllocError` when memory runs out.
    #[tactic(auto, using(crate::proofs::NumberSteps::record_more, crate::proofs::NumberSteps::record_none, crate::proofs::NumberSteps::record_end))]
    pub(crate) fn append_records(&self, word: &str, output: &mut String) -> Result<(), AllocError>
        ensures text { OnOk result (IsAppended output.old output.new
            (numbered_texts word.now 0 self.now)) }
        ensures few { length self.now < 2 ^ 64 }
    {
        for number in 0..self.texts.len() {
            let Some(text) = self.texts.get_index(number) else {
                break;
            };
            append_numbered(word, number, text.as_str(), output)?;
        }
        Ok(())
    }
}
