//! The texts of the program's help and version.

/// The program's version, as the file VERSION has it.
pub const VERSION: &str = "0.2.0";

/// The help.
pub const HELP: &str = "\
Answers addresses of Windows images by their program databases (PDB), as llvm-symbolizer does

Usage: pdb_llvm_symbolizer [OPTION | @FILE | ADDRESS]...

Without ADDRESS each line of standard input is one: ADDRESS with --obj, and otherwise FILE ADDRESS.
CODE, DATA or FRAME may stand before it. An address is decimal, hexadecimal after 0x, or octal
after 0. A value follows a name behind = or as the next word. Letters may stand together.

Files:
  -e, --obj, --exe=FILE    The image (.exe, .dll), or a database (.pdb), of all addresses
  --pdb=FILE               The database of the image, in place of the one that it names
  --symbol-store=DIR       A folder with DIR/NAME/IDENTITY/NAME; may stand more than once
  --build-id=ID            The object of all addresses by its build ID, which a PDB lacks

The folders of _NT_SYMBOL_PATH come after those of --symbol-store. FILE may be NAME:IDENTITY, of a
database or an image in a store.

Addresses:
  --relative-address       Addresses are relative to the image
  --adjust-vma=OFFSET      Is subtracted from each address

Answers:
  -i, --inlines, --inlining[=true]   Report inlined calls (the default)
  --no-inlines, --inlining=false     Report no inlined calls; with GNU the innermost one alone
  -f, --functions[=NAME]             Names of functions: none, short, or linkage (the default)
  -C, --demangle, -demangle=true     Report names as people read them (the default)
  --no-demangle, -demangle=false     Report names as they are stored
  -s, --basenames                    Report files without their folders
  --relativenames                    Report files as they are stored (the default)
  -a, --addresses, --print-address   Write each address before its answer
  -p, --pretty-print                 Write each frame on one line
  --verbose                          Write file, line and column on a line each
  --output-style=STYLE               LLVM (the default), GNU or JSON

Others:
  -h, --help               Write this help
  -v, --version            Write the version
  @FILE                    Stands for the words of FILE

Taken, and without effect, are --cache-size, --color, --debug-file-directory, --debuginfod,
--default-arch, --dia, --dsym-hint, --dwp, --fallback-debug-path, --no-debuginfod,
--no-untag-addresses, --print-source-context-lines, --skip-line-zero and --untag-addresses.
--filter-markup is refused.

Where the name of the program has addr2line in it, addresses are hexadecimal, and the defaults are
--output-style=GNU, --no-inlines, --no-demangle and --functions=none. The words of
LLVM_SYMBOLIZER_OPTS, or of LLVM_ADDR2LINE_OPTS, come before the arguments. Of options that exclude
each other the last one counts, but that --functions without NAME counts before any with it.

Examples:
  pdb_llvm_symbolizer --obj=program.exe 0x140001148
  echo 'CODE \"program.exe\" 0x140001148' | pdb_llvm_symbolizer --output-style=JSON

The exit status is 0; 1 where the arguments are wrong, --obj can't be loaded, or writing or memory
fails.
";
