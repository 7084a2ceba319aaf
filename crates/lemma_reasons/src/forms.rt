//! Linear constraints as sums: weighted sums, and comparisons and sums of two.
ghost use Rattle.std.specs.Prelude.{◌≡◌, ◌≤◌, ◌∷◌, [], None, IfNone, IfSome, IsTrue, length};
ghost use Rattle.std.specs.List.{list_all};
ghost use Rattle.qc_model.specs.Valid.{is_number};
ghost use Rattle.model_arguments.specs.Asked.{IsAsked};
ghost use Rattle.model_arguments.specs.Written.{arg_at, args_at, ints_at};
ghost use Rattle.qc_refuter.specs.Met.{is_open, are_met};
ghost use Rattle.lemma_list.specs.Sums.{linear, linear_of};
ghost use Rattle.lemma_reasons.specs.Known.{IsKnown, difference_of, balance_of};
ghost use Rattle.lemma_reasons.specs.Terms.{AreTerms};

use crate::rules::pred_of;
use crate::sums::{Given, Sum, sum_known};
use fd_store::Store;
use model_arguments::arguments;
use qc_model::{Arg, Argument, Constraint, Pred, Problem};

/// The factors of a difference.
const ONE_LESS: [i64; 2] = [1, -1];

/// The factors of a sum of two less a third.
const TWO_LESS: [i64; 3] = [1, 1, -1];

// A variable or a number.
fn arg_met(args: &[Argument], place: usize, store: &Store) -> Arg
    requires { IsTrue (are_met store.now.box args.now) }
    ensures is { result ≡ arg_at args.now place }
    ensures open { IsTrue (is_open store.now.box result) }
{
    match args.get(place) {
        Some(Argument::One(arg)) => *arg,
        _ => Arg::Num(0),
    }
}

// The items of an array that may hold variables.
pub(crate) fn items_met<'a>(args: &'a [Argument], place: usize, store: &Store) -> &'a [Arg]
    requires { IsTrue (are_met store.now.box args.now) }
    ensures is { result.now ≡ args_at args.now place }
    ensures few { length result.now ≤ 1000 }
    ensures open { IsTrue (list_all (is_open store.now.box) result.now) }
{
    match args.get(place) {
        Some(Argument::Many(items)) => items.items(),
        _ => &[],
    }
}

// An array of numbers.
fn numbers_met<'a>(args: &'a [Argument], place: usize, store: &Store) -> &'a [i64]
    requires { IsTrue (are_met store.now.box args.now) }
    ensures is { result.now ≡ ints_at args.now place }
    ensures small { IsTrue (list_all is_number result.now) }
{
    match args.get(place) {
        Some(Argument::Numbers(items)) => items.items(),
        _ => &[],
    }
}

// What is known of a sum that is compared with an argument.
fn sum_of(
    problem: &Problem,
    rule: &Constraint,
    given: Given,
    before: Option<usize>,
    is_equal: bool,
    factors: &[i64],
    items: &[Arg],
    bound: Arg,
    store: &Store,
) -> Sum
    requires asked { IsAsked problem.now rule.now store.now.box }
    requires terms { AreTerms store.now.box factors.now items.now }
    ensures is { IsKnown problem.now given.entry before store.now.box (linear is_equal factors.now items.now bound) result }
    ensures bound { result.bound ≡ bound }
{
    let known = sum_known(problem, rule, given, before, factors, items, store);
    Sum {
        is_equal,
        bound,
        from: known.from,
        to: known.to,
    }
}

// A sum with factors.
fn weighted(
    problem: &Problem,
    rule: &Constraint,
    given: Given,
    before: Option<usize>,
    is_equal: bool,
    store: &Store,
) -> Sum
    requires asked { IsAsked problem.now rule.now store.now.box }
    requires met { IsTrue (are_met store.now.box rule.now.args) }
    ensures is { IsKnown problem.now given.entry before store.now.box (linear is_equal (ints_at rule.now.args 0) (args_at rule.now.args 1) (arg_at rule.now.args 2)) result }
    ensures open { IsTrue (is_open store.now.box result.bound) }
{
    let args = arguments(rule);
    let factors = numbers_met(args, 0, store);
    let items = items_met(args, 1, store);
    let bound = arg_met(args, 2, store);
    sum_of(
        problem, rule, given, before, is_equal, factors, items, bound, store,
    )
}

// A difference that is to be at most a number.
fn difference(
    problem: &Problem,
    rule: &Constraint,
    given: Given,
    before: Option<usize>,
    most: i64,
    store: &Store,
) -> Sum
    requires asked { IsAsked problem.now rule.now store.now.box }
    requires met { IsTrue (are_met store.now.box rule.now.args) }
    requires small { IsTrue (is_number most) }
    ensures is { IsKnown problem.now given.entry before store.now.box (difference_of rule.now.args most) result }
    ensures open { IsTrue (is_open store.now.box result.bound) }
{
    let args = arguments(rule);
    let items = [arg_met(args, 0, store), arg_met(args, 1, store)];
    sum_of(
        problem,
        rule,
        given,
        before,
        false,
        &ONE_LESS,
        &items,
        Arg::Num(most),
        store,
    )
}

// The sum of two less the third, which is to be 0.
fn balance(
    problem: &Problem,
    rule: &Constraint,
    given: Given,
    before: Option<usize>,
    store: &Store,
) -> Sum
    requires asked { IsAsked problem.now rule.now store.now.box }
    requires met { IsTrue (are_met store.now.box rule.now.args) }
    ensures is { IsKnown problem.now given.entry before store.now.box (balance_of rule.now.args) result }
    ensures open { IsTrue (is_open store.now.box result.bound) }
{
    let args = arguments(rule);
    let items = [
        arg_met(args, 0, store),
        arg_met(args, 1, store),
        arg_met(args, 2, store),
    ];
    sum_of(
        problem,
        rule,
        given,
        before,
        true,
        &TWO_LESS,
        &items,
        Arg::Num(0),
        store,
    )
}

/// What is known of the sum of a linear constraint: of all terms that count, or of those of variables of scopes before
/// one. None comes exactly for a constraint that isn't linear.
pub(crate) fn linear_sum(
    problem: &Problem,
    rule: &Constraint,
    given: Given,
    before: Option<usize>,
    store: &Store,
) -> Option<Sum>
    requires asked { IsAsked problem.now rule.now store.now.box }
    ensures none { IfNone result (linear_of rule.now ≡ None) }
    ensures some { IfSome result (λ s. IsKnown problem.now given.entry before store.now.box (linear_of rule.now) s) }
    ensures open { IfSome result (λ s. IsTrue (is_open store.now.box s.bound)) }
{
    problem.known();
    match pred_of(rule) {
        Pred::IntLinEq => Some(weighted(problem, rule, given, before, true, store)),
        Pred::IntLinLe => Some(weighted(problem, rule, given, before, false, store)),
        Pred::IntLe => Some(difference(problem, rule, given, before, 0, store)),
        Pred::BoolLe => Some(difference(problem, rule, given, before, 0, store)),
        Pred::IntLt => Some(difference(problem, rule, given, before, -1, store)),
        Pred::BoolLt => Some(difference(problem, rule, given, before, -1, store)),
        Pred::IntPlus => Some(balance(problem, rule, given, before, store)),
        _ => None,
    }
}
