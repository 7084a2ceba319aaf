//! The filter.
ghost use Rattle.std.specs.Prelude.{◌≡◌, ◌<◌, length, IfOk, slice_get, Some};
ghost use Rattle.qc_model.specs.Content.{Rule};
ghost use Rattle.qc_model.specs.Meaning.{meaning_of as meaning_in_spec, reified};
ghost use Rattle.qc_model.specs.RowMeaning.{plain_meaning};
ghost use Rattle.model_arguments.specs.Asked.{IsAsked};
ghost use Rattle.prop_base.specs.Filtering.{Answers, Fits, Prunes};
ghost use Rattle.prop_base.specs.Pruning.{IsPruning, IsFiltered, is_just};

use crate::predicates::{
    filter_all_items, filter_both, filter_clause, filter_either, filter_exactly_one,
    filter_odd_items, filter_some_item, filter_told_clause,
};
use fd_store::Store;
use proof_tree::StepList;
use prop_base::{Asked, Filtered, RuleFilter, filter_by_ends};
use prop_compare::{Comparison, Table, filter_comparison, filter_reified};
use qc_model::{ConId, Meaning, Problem, meaning_of};
use std::alloc::{AllocError, Global};

fn filter_plain(
    meaning: Meaning,
    asked: Asked,
    store: &mut Store,
    steps: &mut StepList,
) -> Result<Filtered, AllocError>
    requires meaning { meaning_in_spec asked.rule.now.pred ≡ plain_meaning meaning }
    requires fits { Fits asked store.old }
    ensures pruning { Prunes asked.entry store.old store.new steps.old steps.new }
    ensures answer { Answers asked.entry store.new steps.old steps.new result }
{
    match meaning {
        Meaning::Equal => filter_comparison(asked, Comparison::Equal, store, steps),
        Meaning::Different => filter_comparison(asked, Comparison::Different, store, steps),
        Meaning::AtMost => filter_comparison(asked, Comparison::AtMost, store, steps),
        Meaning::Below => filter_comparison(asked, Comparison::Below, store, steps),
        Meaning::Clause => filter_clause(asked, store, steps),
        Meaning::AllItems => filter_all_items(asked, store, steps),
        Meaning::SomeItem => filter_some_item(asked, store, steps),
        Meaning::Both => filter_both(asked, store, steps),
        Meaning::Either => filter_either(asked, store, steps),
        Meaning::ExactlyOne => filter_exactly_one(asked, store, steps),
        Meaning::OddItems => filter_odd_items(asked, store, steps),
        _ => filter_by_ends(&Table {}, asked, store, steps),
    }
}

fn filter_told(
    meaning: Meaning,
    asked: Asked,
    store: &mut Store,
    steps: &mut StepList,
) -> Result<Filtered, AllocError>
    requires meaning { meaning_in_spec asked.rule.now.pred ≡ reified (plain_meaning meaning) }
    requires fits { Fits asked store.old }
    ensures pruning { Prunes asked.entry store.old store.new steps.old steps.new }
    ensures answer { Answers asked.entry store.new steps.old steps.new result }
{
    match meaning {
        Meaning::Equal => filter_reified(asked, Comparison::Equal, store, steps),
        Meaning::Different => filter_reified(asked, Comparison::Different, store, steps),
        Meaning::AtMost => filter_reified(asked, Comparison::AtMost, store, steps),
        Meaning::Below => filter_reified(asked, Comparison::Below, store, steps),
        Meaning::Clause => filter_told_clause(asked, store, steps),
        _ => filter_by_ends(&Table {}, asked, store, steps),
    }
}

// Truth values.
#[derive(Clone, Copy)]
struct Bools {}

impl RuleFilter for Bools {
    #[tactic(auto, using(qc_model::proofs::Saying::plainly_said, qc_model::proofs::Saying::said_as_told))]
    fn filter_rule(
        &self,
        asked: Asked,
        store: &mut Store,
        steps: &mut StepList,
    ) -> Result<Filtered, AllocError> {
        let rule = asked.rule;
        let said = meaning_of(rule.pred);
        if said.reified {
            filter_told(said.meaning, asked, store, steps)
        } else {
            filter_plain(said.meaning, asked, store, steps)
        }
    }
}

/// Removes values as the constraint c refutes them, each with a step, until a domain is empty or the constraint refutes
/// the box with none of its own variables at its least or greatest value. After a refusal the steps appended are exactly
/// the removals made.
pub fn filter(
    alloc: Global,
    problem: &Problem,
    c: ConId,
    store: &mut Store,
    steps: &mut StepList,
) -> Result<Filtered, AllocError>
    requires c { c.0 < length problem.now.constraints }
    requires asked { (rule : Rule) → slice_get problem.now.constraints c.0 ≡ Some rule → IsAsked problem.now rule store.old.box }
    ensures pruning { IsPruning (is_just c.0) problem.now store.old store.new steps.old steps.new }
    ensures answer { (rule : Rule) → slice_get problem.now.constraints c.0 ≡ Some rule → IfOk result (λ f. IsFiltered f rule store.new.box steps.old steps.new) }
{
    let _ = alloc;
    prop_base::filter(&Bools {}, problem, c, store, steps)
}
