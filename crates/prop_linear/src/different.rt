//! The filter of a constraint that says no more than that a sum isn't a number, while nothing but its items changes.
//!
//! A term is loose while it can be more than one number. While two terms of different variables are, nothing is refuted,
//! so most calls end at the second loose term. The last loose term loses the one value with which the sum would be the
//! number, wherever that stands.
ghost use Rattle.std.specs.Prelude.{◌≡◌, ◌≢◌, ◌≤◌, ◌<◌, ℕ, IsTrue, IsFalse, length};
ghost use Rattle.std.specs.List.{list_all};
ghost use Rattle.qc_model.specs.Ranges.{is_point, range_of};
ghost use Rattle.qc_model.specs.Refuted.{left_to};
ghost use Rattle.qc_model.specs.Valid.{arg_sees, is_number};
ghost use Rattle.qc_refuter.specs.Met.{is_open};
ghost use Rattle.prop_base.specs.Filtering.{Answers, Fits, Prunes};
ghost use Rattle.prop_linear.specs.Unequal.{IsUnequal, is_loose, loose_at};
ghost use Rattle.model_arguments.specs.Repeats.{has_repeat};

use crate::missing::missing_value;
use fd_store::Store;
use model_arguments::{is_repeated, is_same};
use proof_tree::StepList;
use prop_base::{Asked, Cut, Filtered, empty_last, filter_by_ends, prune};
use prop_compare::Table;
use qc_model::Arg;
use qc_refuter::{Extent, sum_extent};
use std::alloc::AllocError;

// Whether a factor times what is left to an item can be more than one number.
fn is_term_loose(factor: i64, item: Arg, store: &Store) -> bool
    requires { IsTrue (is_open store.now.box item) }
    ensures { result ≡ is_loose factor (left_to store.now.box item) }
{
    if factor == 0 {
        return false;
    }
    match item {
        Arg::Num(_) => false,
        Arg::Var(x) => !store.is_fixed(x),
    }
}

// The first place from there on whose term is loose.
fn first_loose(factors: &[i64], items: &[Arg], from: usize, store: &Store) -> usize
    requires from { from ≤ length items.now }
    requires equal { length factors.now ≡ length items.now }
    requires open { IsTrue (list_all (is_open store.now.box) items.now) }
    ensures most { result ≤ length items.now }
    ensures passed { (j : ℕ) → from ≤ j → j < result → IsFalse (loose_at factors.now items.now store.now.box j) }
    ensures found { result < length items.now → IsTrue (loose_at factors.now items.now store.now.box result) }
{
    for k in from..items.len() {
        if is_term_loose(factors[k], items[k], store) {
            return k;
        }
    }
    items.len()
}

// Whether the sum can be the number alone.
fn is_only(sum: Extent, bound: i64) -> bool
    ensures { result ≡ is_point bound (range_of sum.from sum.to) }
{
    sum.from == bound as i128 && sum.to == bound as i128
}

// No term is loose, so the constraint is decided.
fn decide(
    asked: Asked,
    factors: &[i64],
    items: &[Arg],
    bound: i64,
    store: &mut Store,
    steps: &mut StepList,
) -> Result<Filtered, AllocError>
    requires fits { Fits asked store.old }
    requires unequal { IsUnequal asked.rule.now store.old.box factors.now items.now bound }
    requires equal { length factors.now ≡ length items.now }
    requires few { length items.now ≤ 1000 }
    requires factors { IsTrue (list_all is_number factors.now) }
    requires sees { IsTrue (list_all (arg_sees asked.problem.now.variables asked.rule.now.owner.0) items.now) }
    requires open { IsTrue (list_all (is_open store.old.box) items.now) }
    requires tight { (j : ℕ) → j < length items.now → IsFalse (loose_at factors.now items.now store.old.box j) }
    ensures pruning { Prunes asked.entry store.old store.new steps.old steps.new }
    ensures answer { Answers asked.entry store.new steps.old steps.new result }
{
    let sum = sum_extent(asked.problem, asked.rule, factors, items, store);
    if is_only(sum, bound) {
        empty_last(asked, store, steps)
    } else {
        Ok(Filtered::Stable)
    }
}

// The term at p alone is loose: its variable loses the value with which the sum would be the number.
fn lose_last(
    asked: Asked,
    factors: &[i64],
    items: &[Arg],
    bound: i64,
    p: usize,
    store: &mut Store,
    steps: &mut StepList,
) -> Result<Filtered, AllocError>
    requires fits { Fits asked store.old }
    requires unequal { IsUnequal asked.rule.now store.old.box factors.now items.now bound }
    requires once { IsFalse (has_repeat items.now) }
    requires equal { length factors.now ≡ length items.now }
    requires few { length items.now ≤ 1000 }
    requires factors { IsTrue (list_all is_number factors.now) }
    requires sees { IsTrue (list_all (arg_sees asked.problem.now.variables asked.rule.now.owner.0) items.now) }
    requires open { IsTrue (list_all (is_open store.old.box) items.now) }
    requires place { p < length items.now }
    requires loose { IsTrue (loose_at factors.now items.now store.old.box p) }
    requires tight { (j : ℕ) → j < length items.now → j ≢ p → IsFalse (loose_at factors.now items.now store.old.box j) }
    ensures pruning { Prunes asked.entry store.old store.new steps.old steps.new }
    ensures answer { Answers asked.entry store.new steps.old steps.new result }
{
    asked.problem.known();
    let Arg::Var(x) = items[p] else {
        return filter_by_ends(&Table {}, asked, store, steps);
    };
    let least = sum_extent(asked.problem, asked.rule, factors, items, store).from;
    let Some(v) = missing_value(factors[p], x, bound, least, store) else {
        return Ok(Filtered::Stable);
    };
    let cut = Cut { x, lo: v, hi: v };
    prune(asked, cut, store, steps)?;
    Ok(Filtered::Changed)
}

/// Nothing, while two terms of different variables are loose; a value, where one is; all values of a variable, where none
/// is and the sum is the number. Where one variable's terms alone are loose, and it stands twice, end by end.
pub(crate) fn filter_sum_different(
    asked: Asked,
    factors: &[i64],
    items: &[Arg],
    bound: i64,
    store: &mut Store,
    steps: &mut StepList,
) -> Result<Filtered, AllocError>
    requires fits { Fits asked store.old }
    requires unequal { IsUnequal asked.rule.now store.old.box factors.now items.now bound }
    requires equal { length factors.now ≡ length items.now }
    requires few { length items.now ≤ 1000 }
    requires factors { IsTrue (list_all is_number factors.now) }
    requires sees { IsTrue (list_all (arg_sees asked.problem.now.variables asked.rule.now.owner.0) items.now) }
    requires open { IsTrue (list_all (is_open store.old.box) items.now) }
    ensures pruning { Prunes asked.entry store.old store.new steps.old steps.new }
    ensures answer { Answers asked.entry store.new steps.old steps.new result }
{
    let p = first_loose(factors, items, 0, store);
    if p == items.len() {
        return decide(asked, factors, items, bound, store, steps);
    }
    let q = first_loose(factors, items, p + 1, store);
    if q < items.len() {
        if is_same(items[p], items[q]) {
            return filter_by_ends(&Table {}, asked, store, steps);
        }
        return Ok(Filtered::Stable);
    }
    if is_repeated(items) {
        return filter_by_ends(&Table {}, asked, store, steps);
    }
    lose_last(asked, factors, items, bound, p, store, steps)
}
