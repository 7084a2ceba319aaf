//! A sum of which a last argument tells, while that can tell both.
//!
//! The sum is read once. What it can be says whether the relation can hold and whether it can fail, since the argument that
//! tells is none of the items.
ghost use Rattle.std.specs.Prelude.{◌≡◌, [], ◌∷◌, true, false, pos, IsTrue, IsFalse, IfOk, OnOk, IfNone, IfSome};
ghost use Rattle.qc_model.specs.declared.problem.Arg.TheVariants.{Num, Var};
ghost use Rattle.qc_model.specs.Closed.{keeps_ends};
ghost use Rattle.qc_model.specs.Domains.{has_empty, is_single, values_left};
ghost use Rattle.qc_model.specs.Ranges.{range_of};
ghost use Rattle.qc_model.specs.Refuted.{left_to};
ghost use Rattle.model_arguments.specs.Written.{arg_at, last_arg};
ghost use Rattle.prop_base.specs.Filtering.{Fits, Prunes};
ghost use Rattle.prop_compare.specs.Untold.{IsGrown};
ghost use Rattle.prop_linear.specs.Demands.{demand_of, is_missed};
ghost use Rattle.prop_linear.specs.Relations.{told_pred};

use crate::relation::{Demand, Relation, demanded};
use fd_store::Store;
use model_arguments::{arguments, items_at, last_one, numbers_at, one_at};
use proof_tree::StepList;
use prop_base::Asked;
use prop_compare::{loose, tell, tell_other};
use qc_model::{Arg, VarId};
use qc_refuter::{Extent, sum_extent};
use std::alloc::AllocError;

// Whether no number that the sum can be is what is demanded of it.
fn misses(sum: Extent, demand: Demand, bound: i64) -> bool
    ensures { result ≡ is_missed demand (range_of sum.from sum.to) bound }
{
    let bound = bound as i128;
    match demand {
        Demand::UpTo => bound < sum.from,
        Demand::Over => sum.to <= bound,
        Demand::Exactly => sum.to < bound || bound < sum.from,
        Demand::Off => sum.from == bound && sum.to == bound,
    }
}

// What can't be told of the relation between a sum and the bound. None comes exactly where both can.
fn untrue(relation: Relation, sum: Extent, bound: i64) -> Option<bool>
    ensures holds { IfNone result (IsFalse (is_missed (demand_of relation true) (range_of sum.from sum.to) bound)) }
    ensures fails { IfNone result (IsFalse (is_missed (demand_of relation false) (range_of sum.from sum.to) bound)) }
    ensures some { IfSome result (λ t. IsTrue (is_missed (demand_of relation t) (range_of sum.from sum.to) bound)) }
{
    if misses(sum, demanded(relation, true), bound) {
        return Some(true);
    }
    if misses(sum, demanded(relation, false), bound) {
        return Some(false);
    }
    None
}

// Both truth values are left to x.
fn tell_by_sum(
    asked: Asked,
    relation: Relation,
    x: VarId,
    bound: i64,
    store: &mut Store,
    steps: &mut StepList,
) -> Result<bool, AllocError>
    requires pred { asked.rule.now.pred ≡ told_pred relation }
    requires fits { Fits asked store.old }
    requires last { last_arg asked.rule.now.args ≡ Var x }
    requires number { arg_at asked.rule.now.args 2 ≡ Num bound }
    requires both { values_left store.old.box x.0 ≡ pos 0 ∷ pos 1 ∷ [] }
    ensures pruning { Prunes asked.entry store.old store.new steps.old steps.new }
    ensures full { OnOk result (IsFalse (has_empty store.new.box)) }
    ensures grown { IfOk result (λ b. IsGrown b steps.old steps.new) }
    ensures open { IfOk result (λ b. IsFalse (is_single (values_left store.new.box x.0)) → (b ≡ false) × IsTrue (keeps_ends store.new.box asked.entry.rule.now)) }
{
    asked.problem.known();
    let args = arguments(asked.rule);
    let sum = sum_extent(
        asked.problem,
        asked.rule,
        numbers_at(args, 0),
        items_at(args, 1),
        store,
    );
    match untrue(relation, sum, bound) {
        None => Ok(false),
        Some(told) => {
            tell_other(asked, x, told, store, steps)?;
            Ok(true)
        }
    }
}

/// Where the last argument can tell both, one truth value is taken from it if the constraint refutes that. It answers
/// whether one was taken. Where the argument can still tell both after it, the constraint refutes no end of its own
/// variables.
pub(crate) fn tell_sum(
    asked: Asked,
    relation: Relation,
    store: &mut Store,
    steps: &mut StepList,
) -> Result<bool, AllocError>
    requires pred { asked.rule.now.pred ≡ told_pred relation }
    requires fits { Fits asked store.old }
    ensures pruning { Prunes asked.entry store.old store.new steps.old steps.new }
    ensures full { OnOk result (IsFalse (has_empty store.new.box)) }
    ensures grown { IfOk result (λ b. IsGrown b steps.old steps.new) }
    ensures open { IfOk result (λ b. IsFalse (is_single (left_to store.new.box (last_arg asked.entry.rule.now.args))) → (b ≡ false) × IsTrue (keeps_ends store.new.box asked.entry.rule.now)) }
{
    asked.problem.known();
    let args = arguments(asked.rule);
    let Some(x) = loose(last_one(args), store) else {
        return Ok(false);
    };
    let Arg::Num(bound) = one_at(args, 2) else {
        return tell(asked, store, steps);
    };
    tell_by_sum(asked, relation, x, bound, store, steps)
}
