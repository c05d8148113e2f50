//! The laws of the program's symbol files: functions that do nothing, whose contracts are proved.
//! Nothing calls them.

ghost use Rattle.std.specs.Prelude.{ℕ, Bool, List, Option};
ghost use Rattle.pdb_symbols.specs.NamedLines.{IsRenamed};
ghost use Rattle.pdb_symbols.specs.Roads.{HasFileRoads, KeepsFrames};
ghost use Rattle.pdb_symbols.specs.SymbolFile.{Asked, SymbolFile};
ghost use Rattle.pdb_symbols_modules.specs.Streams.{Streams};

/// The law of names: from a text with the names of functions undecorated a consumer says of each
/// address as many frames as from the text itself, each with the same file and line; its name is
/// the same, or the text of a decorated one.
pub fn renamed_reads()
    ensures { (text named : List ℕ) → IsRenamed text named → KeepsFrames text named }
{}

/// The law of two roads, of a whole symbol file: a consumer that reads its text, with the names of
/// functions undecorated or not, says of each address what the report on lines does, where code may
/// run, and nothing of any other address; if its records read back.
pub fn file_roads()
    ensures { (demangle : Bool) (asked : Asked) (image : Option (List ℕ)) (s : Streams)
        (f : SymbolFile) → HasFileRoads demangle asked image s f }
{}
