//! Arguments that a list names several times in a row.

ghost use Rattle.std.specs.Prelude.{◌≡◌, ◌≤◌, ◌==◌, ◌++◌, ◌∷◌, [], drop, length, replicate};
ghost use Rattle.std.specs.Prelude.{MatchOption};
ghost use Rattle.std.specs.List.{prefix_len};

use pdb_container::TypeIndex;

/// The greatest number of indices on a path where an argument is copied. Real names read no more
/// than 29 records (docs/COSTS.md), and printing a copy takes stack that deep nests need.
const COPIED_DEPTH: usize = 64;

/// An argument, the number of those right after it that repeat it, and the arguments after these.
#[derive(Clone, Copy)]
pub struct ArgumentRun<'a> {
    /// The argument.
    pub argument: TypeIndex,
    /// The number of arguments right after it that are the same type.
    pub repeats: usize,
    /// The arguments after the repeated ones.
    pub rest: &'a [TypeIndex],
}

/// The number of arguments at the head of a list that are that type.
fn count_repeats(argument: TypeIndex, list: &[TypeIndex]) -> usize
    ensures { result ≡ prefix_len (λ next. next.0 == argument.0) list.now }
{
    list.iter().take_while(|next| next.0 == argument.0).count()
}

/// An argument, with that many after it as its repeats.
fn run_with(argument: TypeIndex, more: &[TypeIndex], repeats: usize) -> ArgumentRun<'_>
    requires { repeats ≤ length more.now }
    ensures argument { result.argument ≡ argument }
    ensures repeats { result.repeats ≡ repeats }
    ensures rest { result.rest.now ≡ drop repeats more.now }
{
    ArgumentRun {
        argument,
        repeats,
        rest: &more[repeats..],
    }
}

/// An argument, with the arguments right after it that repeat it.
fn run_of(argument: TypeIndex, more: &[TypeIndex]) -> ArgumentRun<'_>
    ensures argument { result.argument ≡ argument }
    ensures repeats { result.repeats ≡ prefix_len (λ next. next.0 == argument.0) more.now }
    ensures list { more.now ≡ replicate result.repeats argument ++ result.rest.now }
{
    let repeats = count_repeats(argument, more);
    run_with(argument, more, repeats)
}

/// The first of some arguments, and the arguments after it.
pub fn first_and_more(list: &[TypeIndex]) -> Option<(TypeIndex, &[TypeIndex])>
    ensures { MatchOption result (list.now ≡ []) (λ r. list.now ≡ r.0 ∷ r.1.now) }
{
    let [first, more @ ..] = list else {
        return None;
    };
    Some((*first, more))
}

/// An argument, with the arguments right after it that repeat it, where it stands after so few
/// indices on a path that it may be copied; otherwise with none. Printing a copy takes more of the
/// stack, and so it isn't used at each level of a deep nest.
pub fn run_within(argument: TypeIndex, more: &[TypeIndex], depth: usize) -> ArgumentRun<'_>
    ensures argument { result.argument ≡ argument }
    ensures list { more.now ≡ replicate result.repeats argument ++ result.rest.now }
{
    if depth > COPIED_DEPTH {
        return run_with(argument, more, 0);
    }
    run_of(argument, more)
}

/// The first of some arguments, with the arguments that repeat it, as [`run_within`] gives them.
pub fn first_run(list: &[TypeIndex], depth: usize) -> Option<ArgumentRun<'_>>
    ensures { MatchOption result (list.now ≡ [])
        (λ run. list.now ≡ run.argument ∷ (replicate run.repeats run.argument ++ run.rest.now)) }
{
    let [first, more @ ..] = list else {
        return None;
    };
    Some(run_within(*first, more, depth))
}
