//! The answers that reports of sizes count.

ghost use Rattle.std.specs.Prelude.{◌≡◌, ◌+◌, ◌-◌, ◌^◌, ◌≤◌, List, min, IfOk, OnOk};
ghost use Rattle.pdb_addr2line.specs.Context.{Context as ContextValue};
ghost use Rattle.pdb_loading.specs.ModuleInfos.{KeptInfo};
ghost use Rattle.pdb_owners.specs.Databases.{IsOneRun, Keyed, place_of};
ghost use Rattle.pdb_loading.specs.declared.order.ContributionOrder.{ContributionOrder as Order};
ghost use Rattle.pdb_report.specs.Answer.{AnswersWith, answered_in};
ghost use Rattle.pdb_report.specs.SizesReport.{CountedKind, IsKeyAt, ReportsCounts};
ghost use Rattle.pdb_symbols_modules.specs.Streams.{Streams};

use pdb_addr2line::{FileContext, Function};
use pdb_addresses::PdbInternalSectionOffset;
use pdb_owners::{
    Countable, CountedFile, FileKey, FunctionKey, Runs, Sizes, by_file_text, sizes_text,
};
use std::alloc::{AllocError, Global};
use std::marker::PhantomData;

/// An answer that a report of sizes counts at addresses, with the text of its counts.
pub(crate) trait Counted: Countable {
    /// The key that tells answers apart run by run; each key stands for one answer, or for none.
    type Key: Countable;

    ghost keyed: { ContextValue (List KeptInfo) → Keyed Self.Key Self };

    ghost kind: { CountedKind Self };

    /// Returns a key of the answer at a place, and the number of places from it on without a bound,
    /// `limit` at most. It is counted as a lookup.
    fn find_run(
        alloc: Global,
        context: &mut FileContext<'_>,
        place: PdbInternalSectionOffset,
        limit: u32,
    ) -> Result<(Option<Self::Key>, u32), AllocError>
        requires some { 1 ≤ limit }
        ensures answer { IfOk result
            (λ run. IsKeyAt (keyed context.old) place run.0) }
        ensures count { IfOk result (λ run. IsOneRun (keyed context.old).places
            (place_of place) limit run.1) }
        ensures same { keyed context.new ≡ keyed context.old }
        ensures lookups { OnOk result (context.new.lookups
            ≡ min (context.old.lookups + 1) (2 ^ 64 - 1)) };

    /// Returns the answer that a key stands for, if there is one.
    fn find_by_key(
        alloc: Global,
        context: &mut FileContext<'_>,
        key: &Self::Key,
    ) -> Result<Option<Self>, AllocError>
        ensures answer { IfOk result (λ answer. answer ≡ (keyed context.old).answer_of key.now) }
        ensures same { keyed context.new ≡ keyed context.old }
        ensures lookups { OnOk result (context.new.lookups ≡ context.old.lookups) };

    /// Returns the text of a report with these counts.
    fn report_text(alloc: Global, sizes: &Sizes<Self>) -> Result<String, AllocError>
        ensures { IfOk result (ReportsCounts Self.cmp kind sizes.now.counts sizes.now.none) };

    ghost of_file: { (order : Order) (s : Streams) (c : ContextValue (List KeptInfo))
        → AnswersWith order answered_in s c → (keyed c).places ≡ kind.places order s };
}

/// Functions, in the order of start, end and name.
impl Counted for Function {
    ghost use Rattle.pdb_report.specs.Answer.{keyed_in};
    ghost use Rattle.pdb_report.specs.RangeReports.{by_function};

    type Key = FunctionKey;

    ghost keyed = { keyed_in answered_in };

    ghost kind = { by_function };

    ghost of_file = { λ order s c answers. answers.places };

    fn find_run(
        alloc: Global,
        context: &mut FileContext<'_>,
        place: PdbInternalSectionOffset,
        limit: u32,
    ) -> Result<(Option<FunctionKey>, u32), AllocError> {
        match context.find_key_run(alloc, place, limit) {
            Ok(run) => Ok(run),
            Err(_) => Err(AllocError),
        }
    }

    fn find_by_key(
        alloc: Global,
        context: &mut FileContext<'_>,
        key: &FunctionKey,
    ) -> Result<Option<Function>, AllocError> {
        match context.function_by_key(alloc, key) {
            Ok(function) => Ok(function),
            Err(_) => Err(AllocError),
        }
    }

    fn report_text(alloc: Global, sizes: &Sizes<Function>) -> Result<String, AllocError> {
        sizes_text(alloc, sizes)
    }
}

/// Files, by their kind, and known files in the order of their texts' bytes.
impl Counted for CountedFile {
    ghost use Rattle.pdb_report.specs.Answer.{files_keyed_in};
    ghost use Rattle.pdb_report.specs.RangeReports.{by_source_file};

    type Key = FileKey;

    ghost keyed = { files_keyed_in answered_in };

    ghost kind = { by_source_file };

    ghost of_file = { λ order s c answers. answers.by_file };

    fn find_run(
        alloc: Global,
        context: &mut FileContext<'_>,
        place: PdbInternalSectionOffset,
        limit: u32,
    ) -> Result<(Option<FileKey>, u32), AllocError> {
        match context.find_file_key_run(alloc, place, limit) {
            Ok(run) => Ok(run),
            Err(_) => Err(AllocError),
        }
    }

    fn find_by_key(
        alloc: Global,
        context: &mut FileContext<'_>,
        key: &FileKey,
    ) -> Result<Option<CountedFile>, AllocError> {
        match context.file_by_key(alloc, key) {
            Ok(file) => Ok(file),
            Err(_) => Err(AllocError),
        }
    }

    fn report_text(alloc: Global, sizes: &Sizes<CountedFile>) -> Result<String, AllocError> {
        by_file_text(alloc, sizes)
    }
}

/// A context that is asked for runs of answers to count, and how often an answer was made of a key.
#[derive(Drop)]
pub(crate) struct ContextRuns<'a, A: Counted> {
    context: FileContext<'a>,
    answered: u64,
    counted: PhantomData<A>,
}

impl<'a, A: Counted> ContextRuns<'a, A> {
    /// Runs over a context.
    pub(crate) fn new(context: FileContext<'a>) -> ContextRuns<'a, A>
        ensures context { result.context ≡ context.entry }
        ensures answered { result.answered ≡ 0 }
    {
        ContextRuns {
            context,
            answered: 0,
            counted: PhantomData,
        }
    }

    /// Returns the number of places that were looked up.
    pub(crate) fn lookups(&self) -> u64
        ensures { result ≡ self.now.context.lookups }
    {
        self.context.lookups()
    }

    /// Returns the number of times that an answer was made of a key.
    pub(crate) fn answered(&self) -> u64
        ensures { result ≡ self.now.answered }
    {
        self.answered
    }
}

impl<'a, A: Counted> Runs for ContextRuns<'a, A> {
    type Key = A::Key;

    type Found = A;

    ghost keyed = { λ runs. A.keyed runs.context };

    ghost lookups = { λ runs. runs.context.lookups };

    ghost answered = { λ runs. runs.answered };

    fn run_at(
        &mut self,
        alloc: Global,
        place: PdbInternalSectionOffset,
        limit: u32,
    ) -> Result<(Option<A::Key>, u32), AllocError> {
        A::find_run(alloc, &mut self.context, place, limit)
    }

    fn answer_of(&mut self, alloc: Global, key: &A::Key) -> Result<Option<A>, AllocError> {
        self.answered = self.answered.saturating_add(1);
        A::find_by_key(alloc, &mut self.context, key)
    }
}
