//! The texts of the program's help and version.

/// The program's name and version, as the file VERSION has it.
pub const VERSION: &str = "pdb_symbols 0.2.0\n";

/// The text that is reported if an argument isn't UTF-8.
pub const NOT_UTF8: &str = "error: invalid UTF-8 was detected in one or more arguments\n\n\
    For more information, try '--help'.\n";

/// The help.
pub const HELP: &str = "\
Writes the symbol file of a Windows program by its database (PDB), which crash reporters read

Usage: pdb_symbols [OPTIONS] <FILE> [IMAGE]

Arguments:
  <FILE>   The program database: a .pdb file, in a big MSF container
  [IMAGE]  The program (.exe, .dll): adds its code ID, and how its functions are unwound (x64)

Options:
      --no-inlines     Leaves out inlined calls: lines are those of the function itself
      --no-demangle    Writes decorated names of Visual C++ as they are stored
      --output <PATH>  Writes to that file: beside it, and then it is renamed
      --store <DIR>    Writes to DIR/NAME.pdb/IDENTITY/NAME.sym, as symbol stores have it
  -h, --help           Print help
  -V, --version        Print version

Examples:
  pdb_symbols program.pdb program.exe > program.sym
  pdb_symbols --store symbols program.pdb program.exe

The exit status is 0; 1 after a fault, which is reported on standard error; 2 for wrong arguments.
";
