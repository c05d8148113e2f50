//! The statements of the definitions about the rows' files.

ghost use Rattle.std.specs.Prelude.{◌≡◌, ◌++◌, Some, None, codes};
ghost use Rattle.std.specs.declared.io.ErrorKind.TheVariants.{UnexpectedEof};
ghost use Rattle.pdb_container.specs.Fault.{IoError, UnrecognizedFileFormat};
ghost use Rattle.pdb_addr2line.specs.Loading.{Pdb, load_fault};
ghost use Rattle.pdb_report.specs.Isolation.{IsFree};
ghost use Rattle.pdb_resolving.specs.Fault.{PdbError};
ghost use Rattle.pdb_symbols_modules.specs.Streams.{streams};
ghost use Rattle.pdb_report_tests.specs.Reports.{report_by};
ghost use Rattle.pdb_report_tests.specs.Samples as samples;

/// The file without line data can be loaded, and an address in `f` has that function, but neither
/// file nor line.
pub fn no_lines()
    ensures loads { load_fault (streams samples.file_f0) ≡ None }
    ensures answers { report_by samples.file_f0 (codes "1014\n")
        ≡ codes "0x00001014\n  f at ??:?? @??\n" }
{}

/// File F has the line of an address in `f`.
pub fn one_line()
    ensures { report_by samples.file_f (codes "1014\n")
        ≡ codes "0x00001014\n  f at a.c:5 @0x00001010+8\n" }
{}

/// Inlined calls come innermost first. A site without a row over the place has the file of its
/// first row, and no line.
pub fn nested_sites()
    ensures { report_by samples.nested_sites (codes "1019\n")
        ≡ codes "0x00001019\n  h() at c.h:9 @0x00001018+4\n  g() at b.h:?? @??\n"
        ++ codes "  f at a.c:7 @0x00001018+24\n" }
{}

/// A public function's line comes from the rows before it.
pub fn public_beside()
    ensures { report_by samples.public_beside (codes "1036\n")
        ≡ codes "0x00001036\n  ?p@@YAXXZ at a.c:7 @0x00001018+24\n" }
{}

/// An address of moved code has the line of where that code was, and one after it has nothing.
pub fn moved_code()
    ensures { report_by samples.moved_code (codes "2004\n2008\n")
        ≡ codes "0x00002004\n  f at a.c:5 @0x00002000+8\n0x00002008\n  ??\n" }
{}

/// Four bytes that begin an ELF file are no program database.
pub fn elf()
    ensures { load_fault (streams samples.elf) ≡ Some (Pdb (PdbError UnrecognizedFileFormat)) }
{}

/// Stream 3 can't be read where the file ends within it.
pub fn cut_dbi()
    ensures { load_fault (streams samples.cut_dbi) ≡ Some (Pdb (PdbError (IoError UnexpectedEof))) }
{}

/// A stream that only the second module names is free for the first one. A stream of a module from
/// which the first one imports isn't.
pub fn free_streams()
    ensures free { IsFree (streams samples.imports) 0 9 }
    ensures needed { ¬ IsFree (streams samples.imports) 0 10 }
{}
