//! The statements of the definitions about the rows' arguments.

ghost use Rattle.std.specs.Prelude.{◌≡◌, ◌∷◌, [], true, false, Some, None, codes};
ghost use Rattle.clap.specs.Words.{fault_of};
ghost use Rattle.clap.specs.declared.error.kind.ErrorKind.TheVariants as kinds;
ghost use Rattle.pdb_arguments.specs.Task.{IsTaken, program_app};
ghost use Rattle.pdb_report_tests.specs.WordRows.{by_file_words, frames_words, is_by_file};
ghost use Rattle.pdb_report_tests.specs.WordRows.{short_words, sizes_told, sizes_words, told_of};

/// `frames F` is a task.
pub fn frames()
    ensures taken { IsTaken frames_words }
    ensures task { told_of frames_words ≡ Some (codes "frames", Some (codes "F"), None, None) }
{}

/// `sizes F 0x10 20` is the task from 16 to 32.
pub fn sizes()
    ensures taken { IsTaken (sizes_words (codes "0x10") (codes "20")) }
    ensures task { told_of (sizes_words (codes "0x10") (codes "20"))
        ≡ Some (sizes_told (Some 16) (Some 32)) }
{}

/// `sizes --by-file F 10 20` is the task from 16 to 32 by file, and without the flag it isn't.
pub fn sizes_by_file()
    ensures taken { IsTaken by_file_words }
    ensures task { told_of by_file_words
        ≡ Some (sizes_told (Some 16) (Some 32)) }
    ensures flag { is_by_file by_file_words ≡ Some true }
    ensures no_flag { is_by_file (sizes_words (codes "10") (codes "20")) ≡ Some false }
{}

/// `sizes F 10 zz` is taken, and has no address at END.
pub fn sizes_to_no_address()
    ensures taken { IsTaken (sizes_words (codes "10") (codes "zz")) }
    ensures task { told_of (sizes_words (codes "10") (codes "zz"))
        ≡ Some (sizes_told (Some 16) None) }
{}

/// `sizes F 10` lacks an argument, and `--help` asks for help.
pub fn refused_words()
    ensures missing { fault_of program_app short_words
        ≡ kinds.MissingRequiredArgument ∷ [] }
    ensures help { fault_of program_app (codes "--help" ∷ []) ≡ kinds.DisplayHelp ∷ [] }
{}
