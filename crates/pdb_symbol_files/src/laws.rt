//! The laws of symbol files: functions that do nothing, whose contracts are proved.

ghost use Rattle.std.specs.Prelude.{ℕ, List, Option};
ghost use Rattle.pdb_addresses.specs.declared.sections.ImageSectionHeader.{ImageSectionHeader};
ghost use Rattle.pdb_symbol_files.specs.CodeRoads.{HasCodeRoads, records_of_code};
ghost use Rattle.pdb_symbol_files.specs.Lookup.{HasTwoRoads, IsAscending};
ghost use Rattle.pdb_symbol_files.specs.PlainAnswers.{AreReadable, HasTextRoads, MakesPlain};
ghost use Rattle.pdb_symbol_files.specs.Reading.{ArePlain, IsPlain, ReadsBack};
ghost use Rattle.pdb_symbol_files.specs.Records.{SymbolRecords, symbol_records};
ghost use Rattle.pdb_symbol_files.specs.Texts.{text_of};
ghost use Rattle.pdb_symbol_files.specs.Told.{Answer, Told};

/// The law of two roads: for each address, a consumer of symbol files says from the records what is
/// told of it, innermost frame first, and nothing where nothing is told. The consumer finds the
/// FUNC record by its range, at each level the INLINE record that begins last of those at or before
/// the address, if its range has the address, and the line record by its range. The addresses of
/// which something is told are in ascending order.
pub fn two_roads()
    ensures { (answers : List Answer) → IsAscending 0 answers → HasTwoRoads answers }
{}

/// The law of reading back: the text of records, line by line and field by field, reads as these
/// records, if no name has a control character and no number more than 64 bits.
pub fn reads_back()
    ensures { (records : SymbolRecords) → ArePlain records → ReadsBack records }
{}

/// No name or file that is told has a control character, such as a line break.
pub fn plain_texts()
    ensures { (text : List ℕ) → IsPlain (text_of text) }
{}

/// The law of plain records: where no name or file that is told has a control character, and fewer
/// than 2^64 files and inlined functions are told, no record has a control character or a number of
/// more than 64 bits; so the records' text reads back.
pub fn plain_records()
    ensures plain { (answers : List Answer) → MakesPlain answers }
    ensures back { (answers : List Answer) → AreReadable answers
        → ReadsBack (symbol_records answers) }
{}

/// The law of two roads, by the text: for each address, a consumer that reads the text of the
/// records says what is told of it, innermost frame first, and nothing where nothing is told.
pub fn text_roads()
    ensures { (answers : List Answer) → IsAscending 0 answers → AreReadable answers
        → HasTextRoads answers }
{}

/// The law of two roads, of the addresses at which code may run: a consumer that reads the text of
/// their records says of each address what is told of it, and nothing of any other, if the text
/// reads back. The text of [`append_functions`](crate::append_functions) does.
pub fn code_roads()
    ensures { (sections : List ImageSectionHeader) (told : ℕ → Option Told)
        → ReadsBack (records_of_code sections told) → HasCodeRoads sections told }
{}
