//! The filter of a comparison with a third argument that tells whether it holds.
ghost use Rattle.std.specs.Prelude.{◌≡◌, IsTrue, IsFalse};
ghost use Rattle.qc_model.specs.declared.problem.Arg.TheVariants.{Var};
ghost use Rattle.qc_model.specs.Domains.{is_single, values_left};
ghost use Rattle.qc_model.specs.Meaning.{meaning_of, reified};
ghost use Rattle.qc_model.specs.Refuted.{left_to};
ghost use Rattle.prop_base.specs.Filtering.{Answers, Fits, Prunes};
ghost use Rattle.prop_compare.specs.Compared.{is_literal_arg, meant_by};
ghost use Rattle.prop_compare.specs.Telling.{IsTelling, are_tangled, refuting_as};

use crate::asking::{is_entailed, is_refuted};
use crate::comparing::{Comparison, compare, contrast};
use crate::reading::least;
use crate::table::Table;
use crate::truths::{loose, truth_cut};
use fd_store::Store;
use model_arguments::{arguments, is_same, one_at};
use proof_tree::StepList;
use prop_base::{Asked, Filtered, filter_by_ends, prune};
use qc_model::{Arg, VarId};
use std::alloc::AllocError;

fn is_literal(a: Arg) -> bool
    ensures { result ≡ is_literal_arg a }
{
    match a {
        Arg::Num(_) => true,
        Arg::Var(_) => false,
    }
}

// Whether the first two are numbers, or two of the three are the same variable.
fn is_tangled(a: Arg, b: Arg, r: Arg) -> bool
    ensures { result ≡ are_tangled a b r }
{
    (is_literal(a) && is_literal(b)) || (is_same(a, b) || (is_same(a, r) || is_same(b, r)))
}

// The variable that tells can't tell this.
fn lose_truth(
    asked: Asked,
    comparison: Comparison,
    a: Arg,
    b: Arg,
    x: VarId,
    told: bool,
    store: &mut Store,
    steps: &mut StepList,
) -> Result<Filtered, AllocError>
    requires fits { Fits asked store.old }
    requires telling { IsTelling asked.problem.now asked.rule.now store.old.box comparison a b (Var x) }
    requires both { IsFalse (is_single (values_left store.old.box x.0)) }
    requires refuted { IsTrue (refuting_as comparison told (left_to store.old.box a) (left_to store.old.box b)) }
    ensures pruning { Prunes asked.entry store.old store.new steps.old steps.new }
    ensures answer { Answers asked.entry store.new steps.old steps.new result }
{
    let cut = truth_cut(x, told);
    prune(asked, cut, store, steps)?;
    Ok(Filtered::Changed)
}

// Both truth values are left to the variable that tells.
fn settle(
    asked: Asked,
    comparison: Comparison,
    a: Arg,
    b: Arg,
    x: VarId,
    store: &mut Store,
    steps: &mut StepList,
) -> Result<Filtered, AllocError>
    requires fits { Fits asked store.old }
    requires telling { IsTelling asked.problem.now asked.rule.now store.old.box comparison a b (Var x) }
    requires both { IsFalse (is_single (values_left store.old.box x.0)) }
    ensures pruning { Prunes asked.entry store.old store.new steps.old steps.new }
    ensures answer { Answers asked.entry store.new steps.old steps.new result }
{
    if is_refuted(comparison, a, b, store) {
        return lose_truth(asked, comparison, a, b, x, true, store, steps);
    }
    if is_entailed(comparison, a, b, store) {
        return lose_truth(asked, comparison, a, b, x, false, store, steps);
    }
    Ok(Filtered::Stable)
}

// The three aren't tangled.
fn filter_told(
    asked: Asked,
    comparison: Comparison,
    a: Arg,
    b: Arg,
    r: Arg,
    store: &mut Store,
    steps: &mut StepList,
) -> Result<Filtered, AllocError>
    requires fits { Fits asked store.old }
    requires telling { IsTelling asked.problem.now asked.rule.now store.old.box comparison a b r }
    ensures pruning { Prunes asked.entry store.old store.new steps.old steps.new }
    ensures answer { Answers asked.entry store.new steps.old steps.new result }
{
    if let Some(x) = loose(r, store) {
        return settle(asked, comparison, a, b, x, store, steps);
    }
    if least(r, store) > 0 {
        compare(asked, comparison, a, b, store, steps)
    } else {
        contrast(asked, comparison, a, b, store, steps)
    }
}

/// Removes values as the constraint c refutes them, whose last argument tells whether the comparison of the first two
/// holds, until a domain is empty or the constraint refutes the box with none of its own variables at its least or
/// greatest value. After a refusal the steps appended are exactly the removals made.
pub fn filter_reified(
    asked: Asked,
    comparison: Comparison,
    store: &mut Store,
    steps: &mut StepList,
) -> Result<Filtered, AllocError>
    requires meaning { meaning_of asked.rule.now.pred ≡ reified (meant_by comparison) }
    requires fits { Fits asked store.old }
    ensures pruning { Prunes asked.entry store.old store.new steps.old steps.new }
    ensures answer { Answers asked.entry store.new steps.old steps.new result }
{
    asked.problem.known();
    let args = arguments(asked.rule);
    let a = one_at(args, 0);
    let b = one_at(args, 1);
    let r = one_at(args, 2);
    if is_tangled(a, b, r) {
        return filter_by_ends(&Table {}, asked, store, steps);
    }
    filter_told(asked, comparison, a, b, r, store, steps)
}
