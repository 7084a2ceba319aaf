//! The filters of two arguments that are not the same variable.
ghost use Rattle.std.specs.Prelude.{IsTrue, IsFalse, IfNone, IfSome};
ghost use Rattle.qc_model.specs.Domains.{is_single, misses};
ghost use Rattle.qc_model.specs.Left.{are_one_value};
ghost use Rattle.qc_model.specs.Refuted.{left_to, refuted_by};
ghost use Rattle.qc_model.specs.Valid.{is_truth};
ghost use Rattle.prop_base.specs.Filtering.{Answers, Fits, Prunes};
ghost use Rattle.prop_compare.specs.Compared.{IsPair, IsTested, is_over};
ghost use Rattle.prop_compare.specs.Keeping.{IsReducing};

use crate::asking::are_one;
use crate::keeping::Keeping;
use crate::narrowing::{narrow_both, take_out};
use crate::ranges::{equal_ranges, ordered_ranges};
use crate::reading::{is_fixed, least};
use fd_store::Store;
use proof_tree::StepList;
use prop_base::{Asked, Filtered, empty_last};
use qc_model::Arg;
use std::alloc::AllocError;

// Both keep their ranges; where there are none, a variable loses all its values.
fn keep_ranges(
    asked: Asked,
    a: Arg,
    b: Arg,
    keep: Option<Keeping>,
    store: &mut Store,
    steps: &mut StepList,
) -> Result<Filtered, AllocError>
    requires fits { Fits asked store.old }
    requires pair { IsPair asked.problem.now asked.rule.now store.old.box a b }
    requires none { IfNone keep (IsTrue (refuted_by asked.rule.now store.old.box)) }
    requires some { IfSome keep (λ k. IsReducing asked.rule.now store.old.box a b k) }
    ensures pruning { Prunes asked.entry store.old store.new steps.old steps.new }
    ensures answer { Answers asked.entry store.new steps.old steps.new result }
{
    let Some(keep) = keep else {
        return empty_last(asked, store, steps);
    };
    let narrowed = narrow_both(asked, a, b, keep, store, steps)?;
    if narrowed {
        Ok(Filtered::Changed)
    } else {
        Ok(Filtered::Stable)
    }
}

/// Both are to be equal.
pub(crate) fn equal(
    asked: Asked,
    a: Arg,
    b: Arg,
    store: &mut Store,
    steps: &mut StepList,
) -> Result<Filtered, AllocError>
    requires fits { Fits asked store.old }
    requires pair { IsPair asked.problem.now asked.rule.now store.old.box a b }
    requires tested { IsTested asked.rule.now store.old.box a b misses }
    ensures pruning { Prunes asked.entry store.old store.new steps.old steps.new }
    ensures answer { Answers asked.entry store.new steps.old steps.new result }
{
    let keep = equal_ranges(a, b, store);
    keep_ranges(asked, a, b, keep, store, steps)
}

/// The first is to be at least the gap below the second.
pub(crate) fn ordered(
    asked: Asked,
    a: Arg,
    b: Arg,
    gap: i64,
    store: &mut Store,
    steps: &mut StepList,
) -> Result<Filtered, AllocError>
    requires fits { Fits asked store.old }
    requires pair { IsPair asked.problem.now asked.rule.now store.old.box a b }
    requires gap { IsTrue (is_truth gap) }
    requires tested { IsTested asked.rule.now store.old.box a b (is_over gap) }
    ensures pruning { Prunes asked.entry store.old store.new steps.old steps.new }
    ensures answer { Answers asked.entry store.new steps.old steps.new result }
{
    let keep = ordered_ranges(a, b, gap, store);
    keep_ranges(asked, a, b, keep, store, steps)
}

// The second loses the one value of the first, wherever it stands.
fn lose_value(
    asked: Asked,
    a: Arg,
    b: Arg,
    store: &mut Store,
    steps: &mut StepList,
) -> Result<Filtered, AllocError>
    requires fits { Fits asked store.old }
    requires pair { IsPair asked.problem.now asked.rule.now store.old.box a b }
    requires tested { IsTested asked.rule.now store.old.box a b are_one_value }
    requires fixed { IsTrue (is_single (left_to store.old.box a)) }
    requires differ { IsFalse (are_one_value (left_to store.old.box a) (left_to store.old.box b)) }
    ensures pruning { Prunes asked.entry store.old store.new steps.old steps.new }
    ensures answer { Answers asked.entry store.new steps.old steps.new result }
{
    let v = least(a, store);
    let taken = take_out(asked, b, v, v, store, steps)?;
    if taken {
        Ok(Filtered::Changed)
    } else {
        Ok(Filtered::Stable)
    }
}

/// Both are to differ. Nothing is removed until one of them is fixed.
pub(crate) fn different(
    asked: Asked,
    a: Arg,
    b: Arg,
    store: &mut Store,
    steps: &mut StepList,
) -> Result<Filtered, AllocError>
    requires fits { Fits asked store.old }
    requires pair { IsPair asked.problem.now asked.rule.now store.old.box a b }
    requires tested { IsTested asked.rule.now store.old.box a b are_one_value }
    ensures pruning { Prunes asked.entry store.old store.new steps.old steps.new }
    ensures answer { Answers asked.entry store.new steps.old steps.new result }
{
    if are_one(a, b, store) {
        return empty_last(asked, store, steps);
    }
    if is_fixed(a, store) {
        return lose_value(asked, a, b, store, steps);
    }
    if is_fixed(b, store) {
        return lose_value(asked, b, a, store, steps);
    }
    Ok(Filtered::Stable)
}
