//! Whether a constraint holds on values.
ghost use Rattle.std.specs.Prelude.{◌≡◌, ◌<◌, length, IsTrue, slice_get, Some};
ghost use Rattle.std.specs.List.{list_all};
ghost use Rattle.qc_model.specs.Content.{Rule};
ghost use Rattle.model_evaluation.specs.Evaluation.{given, are_readable};
ghost use Rattle.qc_model.specs.Holds.{holds_as, holds_on};
ghost use Rattle.qc_model.specs.Meaning.{reified as Reified};
ghost use Rattle.qc_model.specs.RowMeaning.{plain_meaning};
ghost use Rattle.qc_model.specs.Valid.{is_constraint, is_number};

use crate::reading::last_value;
use crate::{arithmetic, comparisons, differing, elements, rows, sums, truths};
use model_arguments::arguments;
use qc_model::{Argument, ConId, Constraint, Meaning, Problem, meaning_of};

#[inline(always)]
fn holds_plainly(meaning: Meaning, args: &[Argument], values: &[i64]) -> bool
    requires { IsTrue (are_readable values.now args.now) }
    ensures { result ≡ holds_as (plain_meaning meaning) (given values.now args.now) }
{
    match meaning {
        Meaning::Equal => comparisons::equal(args, values),
        Meaning::Different => comparisons::different(args, values),
        Meaning::AtMost => comparisons::at_most(args, values),
        Meaning::Below => comparisons::below(args, values),
        Meaning::SumEqual => sums::sum_equal(args, values),
        Meaning::SumDifferent => sums::sum_different(args, values),
        Meaning::SumAtMost => sums::sum_at_most(args, values),
        Meaning::Plus => arithmetic::plus(args, values),
        Meaning::Times => arithmetic::times(args, values),
        Meaning::AbsoluteValue => arithmetic::absolute_value(args, values),
        Meaning::Smaller => arithmetic::smaller(args, values),
        Meaning::Greater => arithmetic::greater(args, values),
        Meaning::Quotient => arithmetic::quotient(args, values),
        Meaning::Remainder => arithmetic::remainder(args, values),
        Meaning::Element => elements::element(args, values),
        Meaning::VariableElement => elements::variable_element(args, values),
        Meaning::Minimum => elements::minimum(args, values),
        Meaning::Maximum => elements::maximum(args, values),
        Meaning::Member => elements::member(args, values),
        Meaning::Both => truths::both(args, values),
        Meaning::Either => truths::either(args, values),
        Meaning::ExactlyOne => truths::exactly_one(args, values),
        Meaning::AllItems => truths::all_items(args, values),
        Meaning::SomeItem => truths::some_item(args, values),
        Meaning::OddItems => truths::odd_items(args, values),
        Meaning::Clause => truths::clause(args, values),
        Meaning::AllDifferent => differing::all_different(args, values),
        Meaning::Table => rows::table(args, values),
    }
}

// Whether the last argument is 1 exactly where the plain meaning holds. Most constraints are plain.
#[inline(never)]
fn holds_reified(meaning: Meaning, args: &[Argument], values: &[i64]) -> bool
    requires { IsTrue (are_readable values.now args.now) }
    ensures { result ≡ holds_as (Reified (plain_meaning meaning)) (given values.now args.now) }
{
    holds_plainly(meaning, args, values) == (last_value(args, values) == 1)
}

/// Whether a constraint of the problem holds on values within the number limit. They may be those of
/// the first variables alone: a later variable counts as 0.
pub fn satisfies(problem: &Problem, rule: &Constraint, values: &[i64]) -> bool
    requires rule { IsTrue (is_constraint problem.now.variables rule.now) }
    requires values { IsTrue (list_all is_number values.now) }
    ensures { result ≡ holds_on rule.now values.now }
{
    let args = arguments(rule);
    let row = meaning_of(rule.pred);
    if row.reified {
        holds_reified(row.meaning, args, values)
    } else {
        holds_plainly(row.meaning, args, values)
    }
}

/// Whether a constraint of the problem holds on values within the number limit, one for each
/// variable. It takes no memory but the stack, and time in the order of the constraint's size, times
/// its logarithm for `all_different_int`.
pub fn holds(problem: &Problem, c: ConId, values: &[i64]) -> bool
    requires constraint { c.0 < length problem.now.constraints }
    requires each { length values.now ≡ length problem.now.variables }
    requires small { IsTrue (list_all is_number values.now) }
    ensures { (rule : Rule) → slice_get problem.now.constraints c.0 ≡ Some rule → result ≡ holds_on rule values.now }
{
    problem.known();
    satisfies(problem, problem.constraint(c), values)
}
