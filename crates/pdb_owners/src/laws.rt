//! Laws of the definitions: functions that do nothing, whose contracts are proved.

ghost use Rattle.std.specs.Prelude.{◌≡◌, ◌↔◌, true};
ghost use Rattle.std.specs.Cmp.{IsTotalOrder};
ghost use Rattle.pdb_owners.specs.Answers.{is_same};
ghost use Rattle.pdb_owners.specs.FunctionOrder.{Function as FunctionValue, function_cmp};
ghost use Rattle.pdb_owners.specs.ReportLaws.{CountsAddUp, CountsDetermine, FileReportsAddUp};
ghost use Rattle.pdb_owners.specs.ReportLaws.{ReportsAddUp};

/// Functions are ordered, and two compare as equal exactly where start, end and name are equal.
pub fn functions_in_order()
    ensures total { IsTotalOrder function_cmp }
    ensures same { (f g : FunctionValue) → (is_same function_cmp f g ≡ true) ↔ (f ≡ g) }
{}

/// The counts of two ranges, one after the other, add up to those of both.
pub fn counts_add_up()
    ensures { CountsAddUp }
{}

/// The counts that a table has for each function, or for each file, determine the table: a report's
/// lines and their order.
pub fn tables_are_determined()
    ensures { CountsDetermine }
{}

/// The counts of a report, with the count of nothing, add up to the number of the range's
/// addresses. What the reports on two ranges, one after the other, have for a function adds up to
/// what the report on both has.
pub fn reports_add_up()
    ensures { ReportsAddUp }
{}

/// The counts of a report by file, with the count of nothing, add up to the number of the range's
/// addresses. Each function has to have a file, no known file, or frames that can't be read. Then
/// the counts add up to the counts of all functions, and the number of addresses that have a file,
/// no known file or such frames, and no function.
pub fn file_reports_add_up()
    ensures { FileReportsAddUp }
{}
