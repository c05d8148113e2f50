//! All functions of a file, in the order of their addresses.

ghost use Rattle.std.specs.Prelude.{◌≡◌, ◌<◌, IfOk, IsOkUnless, OnSome, length, drop};
ghost use Rattle.std.specs.Iterator.{at_most};
ghost use Rattle.pdb_addr2line.specs.Context.{uncounted};
ghost use Rattle.pdb_addr2line.specs.ContextAnswers.{AreFunctionsOf, GivesNext, starts_in};
ghost use Rattle.pdb_addr2line.specs.FunctionList.{RisesWithin, StepsOn, passed};
ghost use Rattle.pdb_addr2line.specs.Starts.{IsAscending};
ghost use Rattle.pdb_resolving.specs.declared.error.Error.TheVariants as errors;

use crate::context::Context;
use crate::function_starts::kept_starts;
use pdb_owners::Function;
use pdb_resolving::{ModuleProvider, Result};
use std::alloc::Global;
use std::marker::Model;

/// The functions of a file: the function at each distinct RVA at which an entry of the public list
/// or a procedure begins, in ascending order, where there is one. After an error, `OutOfMemory`,
/// there is none.
#[derive(Drop)]
pub struct FunctionIter<'c, 'a, 's, P: ModuleProvider> {
    context: &'c mut Context<'a, 's, P>,
    alloc: Global,
    starts: Vec<u32>,
    next: usize,
}

impl<'c, 'a, 's, P: ModuleProvider> Model for FunctionIter<'c, 'a, 's, P> {
    ghost use Rattle.std.specs.Prelude.{drop};
    ghost use Rattle.pdb_addr2line.specs.Context.{scope_in};
    ghost use Rattle.pdb_addr2line.specs.FunctionList as listing;

    ghost Value = { listing.FunctionIteration P };

    ghost view = { λ it. record {
      context = it.context;
      left = listing.functions_left
          it.context.now.parts (scope_in P.provided it.context.now) (drop it.next it.starts.items);
    } };
}

/// The function at the first of the RVAs from a place of their list on at which there is one; the
/// place goes on after it, and after an error to the end.
fn next_function<P: ModuleProvider>(
    context: &mut Context<'_, '_, P>,
    alloc: Global,
    starts: &[u32],
    next: &mut usize,
) -> Option<Result<Function>>
    ensures same { uncounted context.new ≡ uncounted context.old }
    ensures lookups { RisesWithin (passed starts.now next.old next.new)
        context.old.lookups context.new.lookups }
    ensures gives { GivesNext P.provided context.old starts.now next.old result next.new }
    ensures nearer { OnSome result
        (length (drop next.new starts.now) < length (drop next.old starts.now)) }
{
    while *next < starts.len() {
        let start = starts[*next];
        *next += 1;
        match context.find_function(alloc, start) {
            Ok(None) => {}
            Ok(Some(function)) => return Some(Ok(function)),
            Err(error) => {
                *next = starts.len();
                return Some(Err(error));
            }
        }
    }
    None
}

impl<'c, 'a, 's, P: ModuleProvider> Iterator for FunctionIter<'c, 'a, 's, P> {
    type Item = Result<Function>;

    ghost next_gives = { λ old result new. StepsOn old result new };

    ghost remaining = { λ it. at_most it.left.addresses };

    fn next(&mut self) -> Option<Result<Function>> {
        next_function(
            self.context,
            self.alloc,
            self.starts.as_slice(),
            &mut self.next,
        )
    }

    fn size_hint(&self) -> (usize, Option<usize>) {
        (0, Some(self.starts.len().saturating_sub(self.next)))
    }
}

impl<'a, 's, P: ModuleProvider> Context<'a, 's, P> {
    /// A copy of the distinct RVAs at which functions begin, in ascending order; they are found
    /// once and cached. The context answers as before, also after an error.
    ///
    /// # Errors
    /// `OutOfMemory` alone.
    fn copied_starts(&mut self, alloc: Global) -> Result<Vec<u32>>
        ensures same { self.new ≡ self.old }
        ensures starts { IfOk result (λ v. IsAscending (starts_in P.provided self.old) v.items) }
        ensures memory { IsOkUnless result errors.OutOfMemory }
    {
        let starts = kept_starts(
            alloc,
            &mut self.starts,
            self.symbolizer.provider(),
            self.symbolizer.parts(),
            self.symbolizer.namer(),
        )?;
        Ok(starts)
    }

    /// The functions of the file: [`Context::find_function`] of each distinct RVA at which an entry
    /// of the public list or a procedure of any module begins, in ascending order, where it finds
    /// one. A module whose symbols can't be read has no procedures here. The RVAs are found once
    /// and cached.
    ///
    /// # Errors
    /// `OutOfMemory` alone.
    pub fn functions(&mut self, alloc: Global) -> Result<FunctionIter<'_, 'a, 's, P>>
        ensures same_reference { IfOk result (λ it.
            it.context.ghost_name ≡ self.entry.ghost_name) }
        ensures same { IfOk result (λ it. it.context.now ≡ self.old) }
        ensures functions { IfOk result
            (λ it. AreFunctionsOf P.provided self.old it.left.functions) }
        ensures memory { IsOkUnless result errors.OutOfMemory }
    {
        let starts = self.copied_starts(alloc)?;
        Ok(FunctionIter {
            context: self,
            alloc,
            starts,
            next: 0,
        })
    }
}
