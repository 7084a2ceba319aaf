//! What is left to the arguments of a constraint.
ghost use Rattle.std.specs.Prelude.{◌≡◌, ◌≤◌, IsTrue, length};
ghost use Rattle.std.specs.List.{list_all};
ghost use Rattle.qc_model.specs.declared.problem.Arg.TheVariants.{Var};
ghost use Rattle.qc_model.specs.Domains.{values_left, has_value};
ghost use Rattle.qc_model.specs.Left.{span};
ghost use Rattle.qc_model.specs.Ranges.{point};
ghost use Rattle.qc_model.specs.Refuted.{left_to};
ghost use Rattle.qc_model.specs.Valid.{is_number};
ghost use Rattle.model_arguments.specs.Written.{arg_at, args_at};
ghost use Rattle.qc_refuter.specs.Met.{is_open, are_met};
ghost use Rattle.dense_quiet.specs.Quiet.{range_in};
ghost use Rattle.dense_quiet.specs.Slack.{is_taken};
ghost use Rattle.dense_quiet.specs.Taking.{takes_of};

use crate::ends::Ends;
use crate::taking::{Taking, may_take};
use fd_store::Store;
use qc_model::{Arg, Argument, Constraint, Problem, VarId};

/// A variable or a number, by its place.
#[inline(always)]
pub(crate) fn arg_met(args: &[Argument], place: usize, store: &Store) -> Arg
    requires { IsTrue (are_met store.now.box args.now) }
    ensures is { result ≡ arg_at args.now place }
    ensures open { IsTrue (is_open store.now.box result) }
{
    match args.get(place) {
        Some(Argument::One(arg)) => *arg,
        _ => Arg::Num(0),
    }
}

// Both ends of a number.
#[inline(always)]
fn ends_of_number(n: i64) -> Ends
    requires { IsTrue (is_number n) }
    ensures { range_in result ≡ point n }
{
    Ends {
        least: n,
        greatest: n,
    }
}

// The ends of a variable's values.
#[inline(always)]
fn ends_of_variable(x: VarId, store: &Store) -> Ends
    requires { IsTrue (is_open store.now.box (Var x)) }
    ensures { range_in result ≡ span (values_left store.now.box x.0) }
{
    Ends {
        least: store.min(x),
        greatest: store.max(x),
    }
}

/// The items of an array, by its place.
#[inline(always)]
pub(crate) fn items_met<'a>(args: &'a [Argument], place: usize, store: &Store) -> &'a [Arg]
    requires { IsTrue (are_met store.now.box args.now) }
    ensures is { result.now ≡ args_at args.now place }
    ensures few { length result.now ≤ 1000 }
    ensures open { IsTrue (list_all (is_open store.now.box) result.now) }
{
    match args.get(place) {
        Some(Argument::Many(items)) => items.items(),
        _ => &[],
    }
}

/// The ends of what is left to an argument.
#[inline(always)]
pub(crate) fn ends_of(arg: Arg, store: &Store) -> Ends
    requires { IsTrue (is_open store.now.box arg) }
    ensures { range_in result ≡ span (left_to store.now.box arg) }
{
    match arg {
        Arg::Num(n) => ends_of_number(n),
        Arg::Var(x) => ends_of_variable(x, store),
    }
}

/// One end alone.
#[inline(always)]
pub(crate) fn at_least(ends: Ends) -> Ends
    ensures { range_in result ≡ point ends.least }
{
    ends_of_number(ends.least)
}

#[inline(always)]
pub(crate) fn at_greatest(ends: Ends) -> Ends
    ensures { range_in result ≡ point ends.greatest }
{
    ends_of_number(ends.greatest)
}

/// Whether the value is left to an argument.
#[inline(always)]
pub(crate) fn has(arg: Arg, v: i64, store: &Store) -> bool
    requires { IsTrue (is_open store.now.box arg) }
    ensures { result ≡ has_value (left_to store.now.box arg) v }
{
    match arg {
        Arg::Num(n) => v == n,
        Arg::Var(x) => store.has(x, v),
    }
}

/// Whether the constraint may take the item: it is a variable that it may take values of.
#[inline(always)]
pub(crate) fn may_take_item(problem: &Problem, taking: Taking, rule: &Constraint, item: Arg) -> bool
    ensures { result ≡ is_taken (takes_of taking problem.now rule.now) item }
{
    match item {
        Arg::Num(_) => false,
        Arg::Var(x) => may_take(problem, taking, rule, x),
    }
}

/// Whether the test passed, or the constraint may not take the item.
#[inline(always)]
pub(crate) fn is_spared(
    fits: bool,
    problem: &Problem,
    taking: Taking,
    rule: &Constraint,
    item: Arg,
) -> bool
    ensures { IsTrue result → IsTrue (is_taken (takes_of taking problem.now rule.now) item) → IsTrue fits }
{
    if fits {
        return true;
    }
    !may_take_item(problem, taking, rule, item)
}
