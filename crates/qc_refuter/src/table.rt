//! The table.
ghost use Rattle.std.specs.Prelude.{◌≡◌, ◌<◌, ◌&&◌, ◌||◌, not, IsTrue, IsFalse, length, slice_get, Some, pos};
ghost use Rattle.qc_model.specs.Content.{Rule};
ghost use Rattle.qc_model.specs.Domains.{box_within, has_value, is_none_left, values_left, values_within};
ghost use Rattle.qc_model.specs.Entailed.{entailed_as};
ghost use Rattle.qc_model.specs.RowMeaning.{plain_meaning};
ghost use Rattle.qc_model.specs.Left.{last_left};
ghost use Rattle.qc_model.specs.Meaning.{reified as Reified};
ghost use Rattle.qc_model.specs.Refuted.{refuted_as, refuted_by};
ghost use Rattle.model_arguments.specs.Asked.{IsAsked};
ghost use Rattle.qc_refuter.specs.Met.{seen, lefts, are_met};

use crate::reading::last_met;
use crate::shown::{Ends, View};
use crate::view::{has, whole};
use crate::{comparisons, differing, elements, ends, members, spans, sums, truths};
use fd_store::Store;
use model_arguments::arguments;
use qc_model::{Argument, ConId, Constraint, Meaning, Problem, VarId, meaning_of};

#[inline(never)]
fn refuted_plainly(meaning: Meaning, args: &[Argument], view: &View) -> bool
    requires { IsTrue (are_met (seen view.now) args.now) }
    ensures { result ≡ refuted_as (plain_meaning meaning) (lefts (seen view.now) args.now) }
{
    match meaning {
        Meaning::Equal => comparisons::apart(args, view),
        Meaning::Different => comparisons::same(args, view),
        Meaning::AtMost => comparisons::at_most_refuted(args, view),
        Meaning::Below => comparisons::below_refuted(args, view),
        Meaning::SumEqual => sums::sum_equal_refuted(args, view),
        Meaning::SumDifferent => sums::sum_different_refuted(args, view),
        Meaning::SumAtMost => sums::sum_at_most_refuted(args, view),
        Meaning::Plus => spans::plus_refuted(args, view),
        Meaning::Times => spans::times_refuted(args, view),
        Meaning::AbsoluteValue => spans::absolute_value_refuted(args, view),
        Meaning::Smaller => ends::smaller_refuted(args, view),
        Meaning::Greater => ends::greater_refuted(args, view),
        Meaning::Quotient => spans::quotient_refuted(args, view),
        Meaning::Remainder => spans::remainder_refuted(args, view),
        Meaning::Element => elements::element_refuted(args, view),
        Meaning::VariableElement => elements::variable_element_refuted(args, view),
        Meaning::Minimum => ends::minimum_refuted(args, view),
        Meaning::Maximum => ends::maximum_refuted(args, view),
        Meaning::Member => members::member_refuted(args, view),
        Meaning::Both => ends::smaller_refuted(args, view),
        Meaning::Either => ends::greater_refuted(args, view),
        Meaning::ExactlyOne => truths::exactly_one_refuted(args, view),
        Meaning::AllItems => ends::all_items_refuted(args, view),
        Meaning::SomeItem => ends::some_item_refuted(args, view),
        Meaning::OddItems => truths::odd_items_refuted(args, view),
        Meaning::Clause => truths::clause_refuted(args, view),
        Meaning::AllDifferent => differing::all_different_refuted(args, view),
        Meaning::Table => elements::table_refuted(args, view),
    }
}

fn entailed_plainly(meaning: Meaning, args: &[Argument], view: &View) -> bool
    requires { IsTrue (are_met (seen view.now) args.now) }
    ensures { result ≡ entailed_as (plain_meaning meaning) (lefts (seen view.now) args.now) }
{
    match meaning {
        Meaning::Equal => comparisons::same(args, view),
        Meaning::Different => comparisons::apart(args, view),
        Meaning::AtMost => comparisons::at_most_entailed(args, view),
        Meaning::Below => comparisons::below_entailed(args, view),
        Meaning::SumEqual => sums::sum_equal_entailed(args, view),
        Meaning::SumDifferent => sums::sum_different_entailed(args, view),
        Meaning::SumAtMost => sums::sum_at_most_entailed(args, view),
        Meaning::Member => members::member_entailed(args, view),
        Meaning::Clause => truths::clause_entailed(args, view),
        // The others have no reified form.
        _ => false,
    }
}

// The last argument can't be 1.
#[inline(never)]
fn is_never_true(meaning: Meaning, args: &[Argument], view: &View) -> bool
    requires { IsTrue (are_met (seen view.now) args.now) }
    ensures { result ≡ (not (has_value (last_left (lefts (seen view.now) args.now)) (pos 1)) || refuted_as (plain_meaning meaning) (lefts (seen view.now) args.now)) }
{
    if has(last_met(args, view), 1, view) {
        refuted_plainly(meaning, args, view)
    } else {
        true
    }
}

// The last argument can't be 0.
fn is_never_false(meaning: Meaning, args: &[Argument], view: &View) -> bool
    requires { IsTrue (are_met (seen view.now) args.now) }
    ensures { result ≡ (not (has_value (last_left (lefts (seen view.now) args.now)) (pos 0)) || entailed_as (plain_meaning meaning) (lefts (seen view.now) args.now)) }
{
    if has(last_met(args, view), 0, view) {
        entailed_plainly(meaning, args, view)
    } else {
        true
    }
}

fn refuted_reified(meaning: Meaning, args: &[Argument], view: &View) -> bool
    requires { IsTrue (are_met (seen view.now) args.now) }
    ensures { result ≡ refuted_as (Reified (plain_meaning meaning)) (lefts (seen view.now) args.now) }
{
    is_never_true(meaning, args, view) && is_never_false(meaning, args, view)
}

#[inline(always)]
fn refutes_view(rule: &Constraint, view: &View) -> bool
    requires { IsTrue (are_met (seen view.now) rule.now.args) }
    ensures { result ≡ refuted_by rule.now (seen view.now) }
{
    let args = arguments(rule);
    let row = meaning_of(rule.pred);
    if row.reified {
        refuted_reified(row.meaning, args, view)
    } else {
        refuted_plainly(row.meaning, args, view)
    }
}

/// Whether a constraint of the problem refutes the box in which x keeps only its values from lo to hi. It takes no
/// memory, and time in the order of the constraint's size. Where values in common are asked for (`int_eq`, `int_ne_reif`
/// and their like, and each place of an element constraint's array of variables) it takes time in the order of the values
/// left up to the first that is found. A set is searched at most about as often as it has numbers, and a range twice; for
/// `all_different_int` of n items it takes time in the order of n log n.
#[inline(always)]
pub fn rule_refutes_in(
    problem: &Problem,
    rule: &Constraint,
    store: &Store,
    x: VarId,
    lo: i64,
    hi: i64,
) -> bool
    requires asked { IsAsked problem.now rule.now store.now.box }
    requires x { x.0 < length store.now.box }
    requires left { IsFalse (is_none_left (values_within lo hi (values_left store.now.box x.0))) }
    ensures { result ≡ refuted_by rule.now (box_within store.now.box x.0 lo hi) }
{
    problem.known();
    let ends = Ends {
        least: store.min_in(x, lo, hi),
        greatest: store.max_in(x, lo, hi),
    };
    let view = View {
        store,
        x,
        lo,
        hi,
        ends,
    };
    refutes_view(rule, &view)
}

/// Whether the constraint c refutes the box in which x keeps only its values from lo to hi.
#[inline(always)]
pub fn refutes_in(problem: &Problem, c: ConId, store: &Store, x: VarId, lo: i64, hi: i64) -> bool
    requires c { c.0 < length problem.now.constraints }
    requires asked { (rule : Rule) → slice_get problem.now.constraints c.0 ≡ Some rule → IsAsked problem.now rule store.now.box }
    requires x { x.0 < length store.now.box }
    requires left { IsFalse (is_none_left (values_within lo hi (values_left store.now.box x.0))) }
    ensures { (rule : Rule) → slice_get problem.now.constraints c.0 ≡ Some rule → result ≡ refuted_by rule (box_within store.now.box x.0 lo hi) }
{
    rule_refutes_in(problem, problem.constraint(c), store, x, lo, hi)
}

/// Whether the constraint c refutes the box of a store.
pub fn refutes(problem: &Problem, c: ConId, store: &Store) -> bool
    requires c { c.0 < length problem.now.constraints }
    requires asked { (rule : Rule) → slice_get problem.now.constraints c.0 ≡ Some rule → IsAsked problem.now rule store.now.box }
    ensures { (rule : Rule) → slice_get problem.now.constraints c.0 ≡ Some rule → result ≡ refuted_by rule store.now.box }
{
    problem.known();
    let rule = problem.constraint(c);
    refutes_view(rule, &whole(store))
}
