//! The filter of a constraint that says no more than that a sum, or its negative, is at most a number, while nothing but
//! its items changes.
ghost use Rattle.std.specs.Prelude.{◌≡◌, ◌≤◌, IsTrue, length};
ghost use Rattle.std.specs.List.{list_all};
ghost use Rattle.qc_model.specs.Valid.{arg_sees, is_number};
ghost use Rattle.qc_refuter.specs.Met.{is_open};
ghost use Rattle.prop_base.specs.Filtering.{Answers, Fits, Prunes};
ghost use Rattle.prop_linear.specs.Sides.{signed};
ghost use Rattle.prop_linear.specs.Tightening.{IsBounded};

use crate::least::least_of;
use crate::repeats::stands_twice;
use crate::slacks::slack;
use crate::tighten::tighten_all;
use fd_store::Store;
use proof_tree::StepList;
use prop_base::{Asked, Filtered, empty_last, filter_by_ends};
use prop_compare::Table;
use qc_model::Arg;
use std::alloc::AllocError;

/// One pass over the sum, or over its negative, where no variable stands twice; end by end otherwise. Where the bound is
/// passed already, a variable loses all its values.
pub(crate) fn filter_at_most(
    asked: Asked,
    factors: &[i64],
    items: &[Arg],
    negative: bool,
    bound: i64,
    store: &mut Store,
    steps: &mut StepList,
) -> Result<Filtered, AllocError>
    requires fits { Fits asked store.old }
    requires bounded { IsBounded asked.rule.now store.old.box (signed negative factors.now) items.now bound }
    requires equal { length factors.now ≡ length items.now }
    requires few { length items.now ≤ 1000 }
    requires factors { IsTrue (list_all is_number factors.now) }
    requires sees { IsTrue (list_all (arg_sees asked.problem.now.variables asked.rule.now.owner.0) items.now) }
    requires open { IsTrue (list_all (is_open store.old.box) items.now) }
    ensures pruning { Prunes asked.entry store.old store.new steps.old steps.new }
    ensures answer { Answers asked.entry store.new steps.old steps.new result }
{
    if stands_twice(items) {
        return filter_by_ends(&Table {}, asked, store, steps);
    }
    let least = least_of(factors, items, negative, store);
    if (bound as i128) < least.sum {
        return empty_last(asked, store, steps);
    }
    let s = slack(bound, least.sum);
    if least.widest as u128 <= s {
        return Ok(Filtered::Stable);
    }
    if tighten_all(asked, factors, items, negative, s, store, steps)? {
        Ok(Filtered::Changed)
    } else {
        Ok(Filtered::Stable)
    }
}
