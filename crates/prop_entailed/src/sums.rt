//! Sums of products.
ghost use Rattle.std.specs.Prelude.{◌≡◌, IsTrue};
ghost use Rattle.qc_model.specs.Entailed.{entailed_as};
ghost use Rattle.qc_model.specs.Left.{sum_at};
ghost use Rattle.qc_model.specs.Meaning.{sum_equal as SumEqual, sum_different as SumDifferent, sum_at_most as SumAtMost};
ghost use Rattle.qc_model.specs.Ranges.{range_of};
ghost use Rattle.model_arguments.specs.Asked.{IsAsked};
ghost use Rattle.qc_refuter.specs.Met.{lefts, are_met};

use crate::left::{greatest, least};
use crate::reading::{arg_met, items_met, numbers_met};
use fd_store::Store;
use model_arguments::arguments;
use qc_model::{Constraint, Problem};
use qc_refuter::{Extent, sum_extent};

// What the sum of the arguments can be.
fn extent(problem: &Problem, rule: &Constraint, store: &Store) -> Extent
    requires asked { IsAsked problem.now rule.now store.now.box }
    requires met { IsTrue (are_met store.now.box rule.now.args) }
    ensures { range_of result.from result.to ≡ sum_at (lefts store.now.box rule.now.args) }
{
    let args = arguments(rule);
    let factors = numbers_met(args, 0, store);
    let items = items_met(args, 1, store);
    sum_extent(problem, rule, factors, items, store)
}

// The sum can only be the least value of the third argument.
pub(crate) fn sum_equal_entailed(problem: &Problem, rule: &Constraint, store: &Store) -> bool
    requires asked { IsAsked problem.now rule.now store.now.box }
    requires met { IsTrue (are_met store.now.box rule.now.args) }
    ensures { result ≡ entailed_as SumEqual (lefts store.now.box rule.now.args) }
{
    let sum = extent(problem, rule, store);
    let number = least(arg_met(arguments(rule), 2, store), store) as i128;
    sum.from == number && sum.to == number
}

// The sum can't be the third argument.
pub(crate) fn sum_different_entailed(problem: &Problem, rule: &Constraint, store: &Store) -> bool
    requires asked { IsAsked problem.now rule.now store.now.box }
    requires met { IsTrue (are_met store.now.box rule.now.args) }
    ensures { result ≡ entailed_as SumDifferent (lefts store.now.box rule.now.args) }
{
    let sum = extent(problem, rule, store);
    let arg = arg_met(arguments(rule), 2, store);
    sum.to < least(arg, store) as i128 || (greatest(arg, store) as i128) < sum.from
}

// The sum can't be more than the least value of the third argument.
pub(crate) fn sum_at_most_entailed(problem: &Problem, rule: &Constraint, store: &Store) -> bool
    requires asked { IsAsked problem.now rule.now store.now.box }
    requires met { IsTrue (are_met store.now.box rule.now.args) }
    ensures { result ≡ entailed_as SumAtMost (lefts store.now.box rule.now.args) }
{
    let sum = extent(problem, rule, store);
    sum.to <= least(arg_met(arguments(rule), 2, store), store) as i128
}
