//! Constraints whose arguments are those of their predicate.
ghost use Rattle.std.specs.Prelude.{◌≡◌, ◌&&◌, slice_get};
ghost use Rattle.std.specs.List.{list_all};
ghost use Rattle.qc_model.specs.Meaning.{meaning_of as meaning_in_spec};
ghost use Rattle.qc_model.specs.RowMeaning.{plain_meaning};
ghost use Rattle.qc_model.specs.Signature.{arg_kinds_of as arg_kinds_of_pred};
ghost use Rattle.qc_model.specs.Valid.{are_of_sorts as are_of_sorts_of, arg_sees as arg_sees_of, argument_sees as argument_sees_of, have_lengths as have_lengths_of, is_bits, is_boolean as is_boolean_of, is_constraint as is_constraint_of, is_integer as is_integer_of, is_integer_domain, is_literal as is_literal_of, is_of_sort as is_of_sort_of, is_sum as is_sum_of, is_variable_with, item_count as item_count_of};

use crate::predicates::{Meaning, meaning_of};
use crate::problem::{Arg, Argument, Constraint, Domain, Pred, VarId, Variable};
use crate::signature::{ArgKind, arg_kinds_of, most_items};
use crate::validity::domains::{are_numbers, are_truths, is_number, is_set, is_truth};

/// Whether x is an integer variable of the list.
pub(crate) fn is_integer_variable(variables: &[Variable], x: VarId) -> bool
    ensures { result ≡ is_variable_with is_integer_domain (slice_get variables.now x.0) }
{
    match variables.get(x.0 as usize) {
        Some(x) => match x.domain {
            Domain::Bits => false,
            Domain::Range(_, _) => true,
            Domain::Listed(_) => true,
        },
        None => false,
    }
}

fn is_boolean_variable(variables: &[Variable], x: VarId) -> bool
    ensures { result ≡ is_variable_with is_bits (slice_get variables.now x.0) }
{
    match variables.get(x.0 as usize) {
        Some(x) => match x.domain {
            Domain::Bits => true,
            Domain::Range(_, _) => false,
            Domain::Listed(_) => false,
        },
        None => false,
    }
}

fn is_integer(variables: &[Variable], arg: &Arg) -> bool
    ensures { result ≡ is_integer_of variables.now arg.now }
{
    match arg {
        Arg::Var(x) => is_integer_variable(variables, *x),
        Arg::Num(n) => is_number(*n),
    }
}

fn is_boolean(variables: &[Variable], arg: &Arg) -> bool
    ensures { result ≡ is_boolean_of variables.now arg.now }
{
    match arg {
        Arg::Var(x) => is_boolean_variable(variables, *x),
        Arg::Num(n) => is_truth(*n),
    }
}

fn are_integers(variables: &[Variable], args: &[Arg]) -> bool
    ensures { result ≡ list_all (is_integer_of variables.now) args.now }
{
    args.iter().all(|arg| is_integer(variables, arg))
}

fn are_booleans(variables: &[Variable], args: &[Arg]) -> bool
    ensures { result ≡ list_all (is_boolean_of variables.now) args.now }
{
    args.iter().all(|arg| is_boolean(variables, arg))
}

fn is_of_sort(variables: &[Variable], sort: ArgKind, argument: &Argument) -> bool
    ensures { result ≡ is_of_sort_of variables.now sort argument.now }
{
    match (sort, argument) {
        (ArgKind::Integer, Argument::One(arg)) => is_integer(variables, arg),
        (ArgKind::Boolean, Argument::One(arg)) => is_boolean(variables, arg),
        (ArgKind::Integers, Argument::Many(args)) => {
            let args = args.items();
            args.len() <= most_items(sort) && are_integers(variables, args)
        }
        (ArgKind::Booleans, Argument::Many(args)) => {
            let args = args.items();
            args.len() <= most_items(sort) && are_booleans(variables, args)
        }
        (ArgKind::Numbers, Argument::Numbers(numbers)) => {
            let numbers = numbers.items();
            numbers.len() <= most_items(sort) && are_numbers(numbers)
        }
        (ArgKind::Truths, Argument::Numbers(numbers)) => {
            let numbers = numbers.items();
            numbers.len() <= most_items(sort) && are_truths(numbers)
        }
        (ArgKind::Members, Argument::Members(set)) => is_set(set),
        _ => false,
    }
}

/// Whether there are as many arguments as sorts, each of its own.
fn are_of_sorts(variables: &[Variable], sorts: &[ArgKind], args: &[Argument]) -> bool
    ensures { result ≡ are_of_sorts_of variables.now sorts.now args.now }
{
    match (sorts.split_first(), args.split_first()) {
        (Some((sort, sorts)), Some((arg, args))) => {
            is_of_sort(variables, *sort, arg) && are_of_sorts(variables, sorts, args)
        }
        (None, None) => true,
        _ => false,
    }
}

fn item_count(args: &[Argument], place: usize) -> usize
    ensures { result ≡ item_count_of (slice_get args.now place) }
{
    match args.get(place) {
        Some(Argument::One(_)) => 1,
        Some(Argument::Many(args)) => args.items().len(),
        Some(Argument::Numbers(numbers)) => numbers.items().len(),
        Some(Argument::Members(_)) => 0,
        None => 0,
    }
}

fn is_literal(args: &[Argument], place: usize) -> bool
    ensures { result ≡ is_literal_of (slice_get args.now place) }
{
    match args.get(place) {
        Some(Argument::One(Arg::Num(_))) => true,
        _ => false,
    }
}

/// Whether there are as many factors as items, and the sum is compared with a number.
fn is_sum(args: &[Argument]) -> bool
    ensures { result ≡ is_sum_of args.now }
{
    item_count(args, 0) == item_count(args, 1) && is_literal(args, 2)
}

/// Whether the arrays have the lengths that the meaning asks for.
fn suit_meaning(meaning: Meaning, args: &[Argument]) -> bool
    ensures { result ≡ have_lengths_of (plain_meaning meaning) args.now }
{
    match meaning {
        Meaning::SumEqual | Meaning::SumDifferent | Meaning::SumAtMost => is_sum(args),
        Meaning::Minimum | Meaning::Maximum => 0 < item_count(args, 1),
        Meaning::Table => {
            let width = item_count(args, 0);
            0 < width && item_count(args, 1) % width == 0
        }
        _ => true,
    }
}

/// Whether the arrays have the lengths that the predicate asks for.
#[tactic(auto, using(crate::proofs::Lengths::lengths_said))]
fn have_lengths(pred: Pred, args: &[Argument]) -> bool
    ensures { result ≡ have_lengths_of (meaning_in_spec pred) args.now }
{
    suit_meaning(meaning_of(pred).meaning, args)
}

fn arg_sees(variables: &[Variable], scope: u8, arg: &Arg) -> bool
    ensures { result ≡ arg_sees_of variables.now scope arg.now }
{
    match arg {
        Arg::Var(x) => match variables.get(x.0 as usize) {
            Some(x) => x.scope.0 <= scope,
            None => false,
        },
        Arg::Num(_) => true,
    }
}

fn args_see(variables: &[Variable], scope: u8, args: &[Arg]) -> bool
    ensures { result ≡ list_all (arg_sees_of variables.now scope) args.now }
{
    args.iter().all(|arg| arg_sees(variables, scope, arg))
}

fn argument_sees(variables: &[Variable], scope: u8, argument: &Argument) -> bool
    ensures { result ≡ argument_sees_of variables.now scope argument.now }
{
    match argument {
        Argument::One(arg) => arg_sees(variables, scope, arg),
        Argument::Many(args) => args_see(variables, scope, args.items()),
        Argument::Numbers(_) => true,
        Argument::Members(_) => true,
    }
}

fn arguments_see(variables: &[Variable], scope: u8, args: &[Argument]) -> bool
    ensures { result ≡ list_all (argument_sees_of variables.now scope) args.now }
{
    args.iter()
        .all(|argument| argument_sees(variables, scope, argument))
}

/// Whether the arguments are those of the predicate.
fn fit_predicate(variables: &[Variable], pred: Pred, args: &[Argument]) -> bool
    ensures { result ≡ (are_of_sorts_of variables.now (arg_kinds_of_pred pred) args.now && have_lengths_of (meaning_in_spec pred) args.now) }
{
    are_of_sorts(variables, arg_kinds_of(pred), args) && have_lengths(pred, args)
}

/// Whether the arguments are those of the predicate, and no variable is of a later scope than the
/// constraint's own.
pub(crate) fn is_constraint(variables: &[Variable], constraint: &Constraint) -> bool
    ensures { result ≡ is_constraint_of variables.now constraint.now }
{
    let args = constraint.args.as_slice();
    fit_predicate(variables, constraint.pred, args)
        && arguments_see(variables, constraint.owner.0, args)
}
