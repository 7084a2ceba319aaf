//! Replies: a tuple that the owner of the last scope can count on, so that worse values go.
ghost use Rattle.std.specs.Prelude.{◌≡◌, ◌<◌, ◌&&◌, true, false, suc, IsTrue, IsFalse, is_some, length, IfSome};
ghost use Rattle.qc_model.specs.Block.{constraints_within};
ghost use Rattle.qc_model.specs.Domains.{Box, is_single as is_single_in, is_sub_box, least_value, values_left};
ghost use Rattle.qc_model.specs.Valid.{is_number};
ghost use Rattle.model_arguments.specs.Asked.{is_box_of};
ghost use Rattle.fd_store.specs.Held.{Follows};
ghost use Rattle.dense_tree.specs.Place.{Setting, Place};
ghost use Rattle.dense_tree.specs.Steps.{read_step};
ghost use Rattle.dense_tree.specs.Tree.{reply as reply_of};
ghost use Rattle.dense_tree.specs.Tuples.{all_hold, box_taken, is_tuple_of};
ghost use Rattle.lemma_reasons.specs.Asked.{IsFullBox};
ghost use Rattle.dense_box.specs.Here.{IsHere};

use crate::constraints::all_entailed;
use crate::fixed::is_single;
use crate::taking::take_tuple;
use crate::tuples::is_tuple;
use crate::wish::last_wish;
use check_box::Remains;
use fd_store::Store;
use model_levels::Levels;
use qc_model::{ScopeId, VarId};

// The one value left to x where the box entails the restriction of scope i and that of the next, or the goal.
fn settled_value(levels: &Levels, i: ScopeId, store: &Store, x: VarId) -> Option<i64>
    requires scope { i.0 < length levels.now.problem.now.scopes }
    requires left { IsFullBox levels.now.problem.now store.now.box }
    ensures settled { is_some result ≡ (all_hold (constraints_within levels.now.problem.now i.0 (suc (suc i.0))) store.now.box && is_single_in (values_left store.now.box x.0)) }
    ensures value { IfSome result (λ v. v ≡ least_value (values_left store.now.box x.0)) }
    ensures number { IfSome result (λ v. IsTrue (is_number v)) }
    ensures var { IfSome result (λ v. x.0 < length store.now.box) }
{
    levels.problem.known();
    if !all_entailed(levels, i, ScopeId(i.0 + 1), store) {
        return None;
    }
    if !is_single(store, x) {
        return None;
    }
    store.known(x);
    Some(store.min(x))
}

// The one value left to x with the values taken, where they are a tuple of scope i in the box with which its restriction holds
// throughout, and that of the next, or the goal. The box is left as it was.
fn value_with(
    levels: &Levels,
    i: ScopeId,
    remains: &mut Remains,
    x: VarId,
    values: &[i64],
) -> Option<i64>
    requires scope { i.0 < length levels.now.problem.now.scopes }
    requires left { IsFullBox levels.now.problem.now remains.old.box }
    ensures placed { is_some result ≡ (is_tuple_of levels.now.problem.now i.0 remains.old.box values.now && all_hold (constraints_within levels.now.problem.now i.0 (suc (suc i.0))) (box_taken levels.now.problem.now i.0 remains.old.box values.now) && is_single_in (values_left (box_taken levels.now.problem.now i.0 remains.old.box values.now) x.0)) }
    ensures value { IfSome result (λ v. v ≡ least_value (values_left (box_taken levels.now.problem.now i.0 remains.old.box values.now) x.0)) }
    ensures number { IfSome result (λ v. IsTrue (is_number v)) }
    ensures var { IfSome result (λ v. x.0 < length remains.old.box) }
    ensures content { remains.new.box ≡ remains.old.box }
    ensures past { remains.new.past ≡ remains.old.past }
{
    let level = levels.level(i);
    if !is_tuple(level, remains.store(), values) {
        return None;
    }
    let mark = remains.mark();
    take_tuple(level, remains, values);
    let found = settled_value(levels, i, remains.store(), x);
    remains.undo_to(mark);
    found
}

/// The step of a reply at scope i, where it is in place: values that are worse than what the tuple comes to go from the
/// variable of the last scope's condition. Where it isn't in place, nothing is taken.
pub fn reply(levels: &Levels, i: ScopeId, remains: &mut Remains, values: &[i64]) -> bool
    requires scope { i.0 < length levels.now.problem.now.scopes }
    requires declared { IsTrue (is_box_of levels.now.problem.now remains.old.box) }
    ensures placed { (s : Setting) (p : Place) → IsHere levels.now.problem.now i.0 remains.old.box s p → result ≡ (read_step s (reply_of values.now) p).placed }
    ensures content { IsTrue result → (s : Setting) (p : Place) → IsHere levels.now.problem.now i.0 remains.old.box s p → remains.new.box ≡ (read_step s (reply_of values.now) p).place.box }
    ensures kept { IsFalse result → (remains.new.box ≡ remains.old.box) × (remains.new.past ≡ remains.old.past) }
    ensures past { Follows remains.old remains.new }
    ensures fewer { (large : Box) → is_sub_box remains.old.box large ≡ true → is_sub_box remains.new.box large ≡ true }
{
    if remains.is_empty() {
        return false;
    }
    match last_wish(levels.problem, i) {
        None => false,
        Some(wish) => match value_with(levels, i, remains, wish.variable, values) {
            None => false,
            Some(value) => {
                wish.take_worse(remains, value);
                true
            }
        },
    }
}
