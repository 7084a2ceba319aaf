//! The filter.
ghost use Rattle.std.specs.Prelude.{◌≡◌, ◌<◌, ◌≤◌, length, IsTrue, IfOk, slice_get, Some};
ghost use Rattle.std.specs.List.{list_all};
ghost use Rattle.qc_model.specs.Content.{Rule};
ghost use Rattle.qc_model.specs.Valid.{arg_sees, is_number};
ghost use Rattle.model_arguments.specs.Asked.{IsAsked};
ghost use Rattle.qc_refuter.specs.Met.{is_open};
ghost use Rattle.prop_base.specs.Filtering.{Answers, Fits, Prunes};
ghost use Rattle.prop_base.specs.Pruning.{IsPruning, IsFiltered, is_just};
ghost use Rattle.prop_linear.specs.Demands.{IsDemanded, IsSaid};
ghost use Rattle.prop_linear.specs.Relations.{sum_pred, told_pred};

use crate::at_most::filter_at_most;
use crate::different::filter_sum_different;
use crate::equal::filter_sum_equal;
use crate::relation::{Demand, Relation, demanded};
use crate::signs::under_opposite;
use crate::telling::tell_sum;
use fd_store::Store;
use model_arguments::{arguments, items_at, last_one, numbers_at, one_at};
use proof_tree::StepList;
use prop_base::{Asked, Filtered, RuleFilter, filter_by_ends};
use prop_compare::{Comparison, Table, filter_comparison, filter_reified, joined, what_is_told};
use qc_model::{Arg, ConId, Pred, Problem};
use std::alloc::{AllocError, Global};

// The sum is to be what is demanded, and the constraint says no more.
fn filter_demanded(
    asked: Asked,
    demand: Demand,
    factors: &[i64],
    items: &[Arg],
    bound: i64,
    store: &mut Store,
    steps: &mut StepList,
) -> Result<Filtered, AllocError>
    requires fits { Fits asked store.old }
    requires demanded { IsDemanded demand asked.rule.now store.old.box factors.now items.now bound }
    requires bound { IsTrue (is_number bound) }
    requires equal { length factors.now ≡ length items.now }
    requires few { length items.now ≤ 1000 }
    requires factors { IsTrue (list_all is_number factors.now) }
    requires sees { IsTrue (list_all (arg_sees asked.problem.now.variables asked.rule.now.owner.0) items.now) }
    requires open { IsTrue (list_all (is_open store.old.box) items.now) }
    ensures pruning { Prunes asked.entry store.old store.new steps.old steps.new }
    ensures answer { Answers asked.entry store.new steps.old steps.new result }
{
    match demand {
        Demand::UpTo => filter_at_most(asked, factors, items, false, bound, store, steps),
        Demand::Over => {
            let most = under_opposite(bound);
            filter_at_most(asked, factors, items, true, most, store, steps)
        }
        Demand::Exactly => filter_sum_equal(asked, factors, items, bound, store, steps),
        Demand::Off => filter_sum_different(asked, factors, items, bound, store, steps),
    }
}

// It is said whether the relation holds.
fn filter_said(
    asked: Asked,
    relation: Relation,
    holds: bool,
    store: &mut Store,
    steps: &mut StepList,
) -> Result<Filtered, AllocError>
    requires said { IsSaid relation holds asked.rule.now store.old.box }
    requires fits { Fits asked store.old }
    ensures pruning { Prunes asked.entry store.old store.new steps.old steps.new }
    ensures answer { Answers asked.entry store.new steps.old steps.new result }
{
    asked.problem.known();
    let args = arguments(asked.rule);
    let factors = numbers_at(args, 0);
    let items = items_at(args, 1);
    let Arg::Num(bound) = one_at(args, 2) else {
        return filter_by_ends(&Table {}, asked, store, steps);
    };
    let demand = demanded(relation, holds);
    filter_demanded(asked, demand, factors, items, bound, store, steps)
}

// The relation holds.
fn filter_sum(
    asked: Asked,
    relation: Relation,
    store: &mut Store,
    steps: &mut StepList,
) -> Result<Filtered, AllocError>
    requires pred { asked.rule.now.pred ≡ sum_pred relation }
    requires fits { Fits asked store.old }
    ensures pruning { Prunes asked.entry store.old store.new steps.old steps.new }
    ensures answer { Answers asked.entry store.new steps.old steps.new result }
{
    filter_said(asked, relation, true, store, steps)
}

// The last argument tells whether the relation holds.
fn filter_told_sum(
    asked: Asked,
    relation: Relation,
    store: &mut Store,
    steps: &mut StepList,
) -> Result<Filtered, AllocError>
    requires pred { asked.rule.now.pred ≡ told_pred relation }
    requires fits { Fits asked store.old }
    ensures pruning { Prunes asked.entry store.old store.new steps.old steps.new }
    ensures answer { Answers asked.entry store.new steps.old steps.new result }
{
    asked.problem.known();
    let changed = tell_sum(asked, relation, store, steps)?;
    match what_is_told(last_one(arguments(asked.rule)), store) {
        None => Ok(Filtered::Stable),
        Some(holds) => {
            let later = filter_said(asked, relation, holds, store, steps)?;
            Ok(joined(changed, later))
        }
    }
}

// Comparisons and sums of integers.
#[derive(Clone, Copy)]
struct Linear {}

impl RuleFilter for Linear {
    fn filter_rule(
        &self,
        asked: Asked,
        store: &mut Store,
        steps: &mut StepList,
    ) -> Result<Filtered, AllocError> {
        let rule = asked.rule;
        match rule.pred {
            Pred::IntEq => filter_comparison(asked, Comparison::Equal, store, steps),
            Pred::IntNe => filter_comparison(asked, Comparison::Different, store, steps),
            Pred::IntLe => filter_comparison(asked, Comparison::AtMost, store, steps),
            Pred::IntLt => filter_comparison(asked, Comparison::Below, store, steps),
            Pred::IntLinLe => filter_sum(asked, Relation::AtMost, store, steps),
            Pred::IntLinEq => filter_sum(asked, Relation::Equal, store, steps),
            Pred::IntLinNe => filter_sum(asked, Relation::Different, store, steps),
            Pred::IntEqReif => filter_reified(asked, Comparison::Equal, store, steps),
            Pred::IntNeReif => filter_reified(asked, Comparison::Different, store, steps),
            Pred::IntLeReif => filter_reified(asked, Comparison::AtMost, store, steps),
            Pred::IntLtReif => filter_reified(asked, Comparison::Below, store, steps),
            Pred::IntLinLeReif => filter_told_sum(asked, Relation::AtMost, store, steps),
            Pred::IntLinEqReif => filter_told_sum(asked, Relation::Equal, store, steps),
            Pred::IntLinNeReif => filter_told_sum(asked, Relation::Different, store, steps),
            _ => filter_by_ends(&Table {}, asked, store, steps),
        }
    }
}

/// Removes values as the constraint c refutes them, each with a step, until a domain is empty or the constraint refutes
/// the box with none of its own variables at its least or greatest value. After a refusal the steps appended are exactly
/// the removals made.
pub fn filter(
    alloc: Global,
    problem: &Problem,
    c: ConId,
    store: &mut Store,
    steps: &mut StepList,
) -> Result<Filtered, AllocError>
    requires c { c.0 < length problem.now.constraints }
    requires asked { (rule : Rule) → slice_get problem.now.constraints c.0 ≡ Some rule → IsAsked problem.now rule store.old.box }
    ensures pruning { IsPruning (is_just c.0) problem.now store.old store.new steps.old steps.new }
    ensures answer { (rule : Rule) → slice_get problem.now.constraints c.0 ≡ Some rule → IfOk result (λ f. IsFiltered f rule store.new.box steps.old steps.new) }
{
    let _ = alloc;
    prop_base::filter(&Linear {}, problem, c, store, steps)
}
