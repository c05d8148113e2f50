//! Laws of the definitions: functions that do nothing, whose contracts are proved.

ghost use Rattle.std.specs.Prelude.{◌≡◌, ℕ, List, None, false};
ghost use Rattle.pdb_container.specs.Alike.{OpenAlike};
ghost use Rattle.pdb_loading.specs.declared.order.ContributionOrder.{ContributionOrder as Order};
ghost use Rattle.pdb_loading.specs.declared.order.ContributionOrder.TheVariants.{Any, InOrder};
ghost use Rattle.pdb_loading.specs.FileRead.{IsRead};
ghost use Rattle.pdb_loading.specs.Loading.{LoadingFault, load_fault, loaded};
ghost use Rattle.pdb_loading.specs.Loading.{loaded_with};
ghost use Rattle.pdb_report.specs.Answer.{address_map, answer, answer_with, database};
ghost use Rattle.pdb_report.specs.Answer.{database_with, files, files_with, map_with};
ghost use Rattle.pdb_report.specs.AnyOrder.{HasFault, is_for_order};
ghost use Rattle.pdb_report.specs.Isolation.{AreAlikeFor, IsIsolated};
ghost use Rattle.pdb_report.specs.SameReports.{AllReadAlike, HaveSameReports, LoadAlike};
ghost use Rattle.pdb_report.specs.SizeLaws.{SizesAddUp, SizesByFileAddUp};
ghost use Rattle.pdb_symbols_modules.specs.Shared.{shared};
ghost use Rattle.pdb_symbols_modules.specs.Streams.{Streams, streams};

use pdb_owners::laws as functions;

/// The bytes that were read of a file have the streams that the whole file has, each with the same
/// bytes or fault; so they have the same loading fault or none, and the same answers and reports.
/// Bytes that weren't read are part of no stream.
pub fn files_that_were_read()
    ensures alike { (order : Order) (file bytes : List ℕ) → IsRead file bytes
        → LoadAlike order bytes file }
    ensures streams { (file bytes : List ℕ) → IsRead file bytes → streams bytes ≡ streams file }
    ensures reports { (file bytes : List ℕ) → IsRead file bytes
        → HaveSameReports (streams bytes) (streams file) }
{}

/// The counts of a file's report on a range, with the count of nothing, add up to the number of the
/// range's addresses. What the reports on two ranges, one after the other, have for a function, and
/// for nothing, adds up to what the report on both has.
pub fn size_reports_add_up()
    ensures { SizesAddUp }
{}

/// The counts of a file's report by source file, and those on two ranges, add up as those of the
/// report by function do ([`size_reports_add_up`]). The counts of known files, of no known file and
/// of frames that can't be read add up to the counts of all functions and the number of addresses
/// that the report by function leaves out. These are the addresses that have no function and yet
/// one of those three. The report by function counts that many more as having nothing.
pub fn file_reports_add_up()
    ensures { SizesByFileAddUp }
{
    functions::file_reports_add_up();
}

/// Isolation: damage in one module leaves the others' answers alone. Two files that open alike, and
/// read alike at every number that isn't free for a module in the first, have the same loading
/// fault, or none. At every address that the module holds in the first they have the same frames,
/// the same function, and the same line of a report.
pub fn isolation()
    ensures loads { (order : Order) (a b : List ℕ) (m : ℕ) → AreAlikeFor m a b
        → LoadAlike order a b }
    ensures answers { (file : List ℕ) → IsIsolated file }
{}

/// Two files that open alike, and read alike at every number, have the same loading fault, or none,
/// and the same answers, functions and reports, however their pages lie.
pub fn page_layout()
    ensures { (a b : List ℕ) → OpenAlike a b → AllReadAlike a b
        → HaveSameReports (streams a) (streams b) }
{}

/// Where section contributions may stand in any order, files are answered that are refused
/// otherwise, and nothing else changes. A file that loads where they have to stand in order is
/// loaded the same, and so has the same answers. A loading fault that isn't for their order is the
/// same. None is for their order.
pub fn any_order_adds_files()
    ensures loads { (s : Streams) → load_fault s ≡ None
        → loaded_with Any (shared s) ≡ loaded (shared s) }
    ensures frames { (s : Streams) → load_fault s ≡ None → answer_with Any s ≡ answer s }
    ensures places { (s : Streams) → load_fault s ≡ None → database_with Any s ≡ database s }
    ensures by_file { (s : Streams) → load_fault s ≡ None → files_with Any s ≡ files s }
    ensures map { (s : Streams) → load_fault s ≡ None → map_with Any s ≡ address_map s }
    ensures faults { (s : Streams) (e : LoadingFault) → HasFault InOrder s e
        → is_for_order e ≡ false → HasFault Any s e }
    ensures none { (s : Streams) (e : LoadingFault) → HasFault Any s e
        → is_for_order e ≡ false }
{}
