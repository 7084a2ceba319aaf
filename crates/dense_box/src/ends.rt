//! Ends of a scope's own tree, and branches: whether they are in place.
ghost use Rattle.std.specs.Prelude.{◌≡◌, ◌<◌, ◌&&◌, ◌∷◌, [], true, false, IsTrue, IsFalse, is_some, length, slice_get, IfSome};
ghost use Rattle.qc_model.specs.Domains.{Box, is_sub_box};
ghost use Rattle.qc_model.specs.Game.{restriction};
ghost use Rattle.model_arguments.specs.Asked.{is_box_of};
ghost use Rattle.fd_store.specs.Held.{Follows};
ghost use Rattle.joins.specs.DemandLists.{HasLists};
ghost use Rattle.proof_tree.specs.Place.{is_fixed as is_fixed_in};
ghost use Rattle.dense_tree.specs.Free.{is_universal, is_unrestricted as is_unrestricted_in};
ghost use Rattle.dense_tree.specs.InPlace.{barred_placed, next_placed, place_taken, chosen_placed, branch_placed, best_placed, list_best};
ghost use Rattle.dense_tree.specs.Place.{Setting, Place, is_free_choice as is_free_choice_in};
ghost use Rattle.dense_tree.specs.Tuples.{all_hold, some_fails, box_taken};
ghost use Rattle.lemma_reasons.specs.Asked.{IsFullBox};
ghost use Rattle.dense_box.specs.Ends.{is_barred_at, needs_restriction_at, goes_on_at, is_chosen_at, is_branch_at};
ghost use Rattle.dense_box.specs.Here.{IsHere};

use crate::best::best_left;
use crate::constraints::{is_entailed_throughout, some_refuted};
use crate::fixed::{is_fixed, is_single};
use crate::given::is_opponent;
use crate::taking::take_tuple;
use crate::tuples::is_tuple;
use check_box::Remains;
use joins::Demands;
use model_levels::Levels;
use qc_model::{ScopeId, VarId};

// Whether it is a scope of the opponent.
fn is_opponents(levels: &Levels, i: ScopeId) -> bool
    requires { i.0 < length levels.now.problem.now.scopes }
    ensures { result ≡ is_universal (slice_get levels.now.problem.now.scopes i.0) }
{
    is_opponent(levels.level(i).kind)
}

// Whether scope i has no restriction.
fn is_unrestricted(levels: &Levels, i: ScopeId) -> bool
    requires { i.0 < length levels.now.problem.now.scopes }
    ensures { result ≡ is_unrestricted_in levels.now.problem.now i.0 }
{
    levels.level(i).rules.is_empty()
}

// Whether each variable of scope i has one value left.
fn is_fixed_at(levels: &Levels, i: ScopeId, remains: &Remains) -> bool
    requires scope { i.0 < length levels.now.problem.now.scopes }
    requires declared { IsTrue (is_box_of levels.now.problem.now remains.now.box) }
    ensures { result ≡ is_fixed_in levels.now.problem.now i.0 remains.now.box }
{
    is_fixed(levels.level(i), remains.store())
}

// Whether the values are single, and the restriction fails.
fn is_barred(levels: &Levels, i: ScopeId, remains: &Remains) -> bool
    requires scope { i.0 < length levels.now.problem.now.scopes }
    requires declared { IsTrue (is_box_of levels.now.problem.now remains.now.box) }
    ensures { result ≡ is_barred_at levels.now.problem.now i.0 remains.now.box }
{
    if remains.is_empty() {
        return false;
    }
    if !is_fixed_at(levels, i, remains) {
        return false;
    }
    some_refuted(levels, i, remains.store())
}

// Whether the values are single, and the restriction holds throughout the box.
fn is_allowed(levels: &Levels, i: ScopeId, remains: &Remains) -> bool
    requires scope { i.0 < length levels.now.problem.now.scopes }
    requires left { IsFullBox levels.now.problem.now remains.now.box }
    ensures { result ≡ (is_fixed_in levels.now.problem.now i.0 remains.now.box && all_hold (restriction levels.now.problem.now i.0) remains.now.box) }
{
    if !is_fixed_at(levels, i, remains) {
        return false;
    }
    is_entailed_throughout(levels, i, remains.store())
}

/// Whether it counts for going on to the next scope whether the box refutes a constraint of this one: it is the player's, and something
/// is left.
pub fn needs_restriction(levels: &Levels, i: ScopeId, remains: &Remains) -> bool
    requires { i.0 < length levels.now.problem.now.scopes }
    ensures { result ≡ needs_restriction_at levels.now.problem.now i.0 remains.now.box }
{
    if remains.is_empty() {
        return false;
    }
    !is_opponents(levels, i)
}

// Whether the box refutes a constraint of the scope, where that counts.
fn is_refuted(levels: &Levels, i: ScopeId, remains: &Remains) -> bool
    requires scope { i.0 < length levels.now.problem.now.scopes }
    requires declared { IsTrue (is_box_of levels.now.problem.now remains.now.box) }
    ensures { IsTrue (needs_restriction_at levels.now.problem.now i.0 remains.now.box) → result ≡ some_fails (restriction levels.now.problem.now i.0) remains.now.box }
{
    if !needs_restriction(levels, i, remains) {
        return false;
    }
    some_refuted(levels, i, remains.store())
}

// Whether the scope goes on to the next.
fn goes_on(levels: &Levels, i: ScopeId, remains: &Remains, refuted: bool) -> bool
    requires scope { i.0 < length levels.now.problem.now.scopes }
    requires declared { IsTrue (is_box_of levels.now.problem.now remains.now.box) }
    requires refuted { IsTrue (needs_restriction_at levels.now.problem.now i.0 remains.now.box) → refuted ≡ some_fails (restriction levels.now.problem.now i.0) remains.now.box }
    ensures { result ≡ goes_on_at levels.now.problem.now i.0 remains.now.box }
{
    if remains.is_empty() {
        return false;
    }
    if is_opponents(levels, i) {
        return is_allowed(levels, i, remains);
    }
    !refuted
}

// Whether x is a variable of the scope that has several values left.
fn is_branch(levels: &Levels, i: ScopeId, remains: &Remains, x: VarId) -> bool
    requires { i.0 < length levels.now.problem.now.scopes }
    ensures { result ≡ is_branch_at levels.now.problem.now i.0 remains.now.box x.0 }
{
    let level = levels.level(i);
    if remains.is_empty() {
        return false;
    }
    if (x.0 as usize) < level.from {
        return false;
    }
    if level.stop <= x.0 as usize {
        return false;
    }
    !is_single(remains.store(), x)
}

// Takes the values as a tuple with which the scope goes on; where they are none, or it doesn't, nothing is taken.
fn take_chosen(levels: &Levels, i: ScopeId, remains: &mut Remains, values: &[i64]) -> bool
    requires scope { i.0 < length levels.now.problem.now.scopes }
    requires declared { IsTrue (is_box_of levels.now.problem.now remains.old.box) }
    ensures chosen { result ≡ is_chosen_at levels.now.problem.now i.0 remains.old.box values.now }
    ensures content { IsTrue result → remains.new.box ≡ box_taken levels.now.problem.now i.0 remains.old.box values.now }
    ensures kept { IsFalse result → (remains.new.box ≡ remains.old.box) × (remains.new.past ≡ remains.old.past) }
    ensures past { Follows remains.old remains.new }
    ensures fewer { (large : Box) → is_sub_box remains.old.box large ≡ true → is_sub_box remains.new.box large ≡ true }
{
    if remains.is_empty() {
        return false;
    }
    let level = levels.level(i);
    if !is_tuple(level, remains.store(), values) {
        return false;
    }
    let mark = remains.mark();
    take_tuple(level, remains, values);
    let refuted = is_refuted(levels, i, remains);
    if goes_on(levels, i, remains, refuted) {
        return true;
    }
    remains.undo_to(mark);
    false
}

/// Whether a scope may end barred: its values are single, and its restriction fails.
pub fn may_be_barred(levels: &Levels, i: ScopeId, remains: &Remains) -> bool
    requires scope { i.0 < length levels.now.problem.now.scopes }
    requires declared { IsTrue (is_box_of levels.now.problem.now remains.now.box) }
    ensures { (s : Setting) (p : Place) → IsHere levels.now.problem.now i.0 remains.now.box s p → result ≡ barred_placed s p }
{
    is_barred(levels, i, remains)
}

/// Whether a scope may go on to the next: the player's unless its restriction fails, perhaps with several values left; the
/// opponent's with one tuple, which is allowed throughout the box. Where it counts (`needs_restriction`), the caller tells whether the
/// box refutes a constraint of the scope.
pub fn may_go_on(levels: &Levels, i: ScopeId, remains: &Remains, refuted: bool) -> bool
    requires scope { i.0 < length levels.now.problem.now.scopes }
    requires declared { IsTrue (is_box_of levels.now.problem.now remains.now.box) }
    requires refuted { IsTrue (needs_restriction_at levels.now.problem.now i.0 remains.now.box) → refuted ≡ some_fails (restriction levels.now.problem.now i.0) remains.now.box }
    ensures { (s : Setting) (p : Place) → IsHere levels.now.problem.now i.0 remains.now.box s p → result ≡ next_placed s p }
{
    goes_on(levels, i, remains, refuted)
}

/// Takes the values as a tuple of the scope with which it may go on to the next. Where they are none, or it may not, nothing
/// is taken.
pub fn choose(levels: &Levels, i: ScopeId, remains: &mut Remains, values: &[i64]) -> bool
    requires scope { i.0 < length levels.now.problem.now.scopes }
    requires declared { IsTrue (is_box_of levels.now.problem.now remains.old.box) }
    ensures placed { (s : Setting) (p : Place) → IsHere levels.now.problem.now i.0 remains.old.box s p → result ≡ chosen_placed s values.now p }
    ensures content { IsTrue result → (s : Setting) (p : Place) → IsHere levels.now.problem.now i.0 remains.old.box s p → remains.new.box ≡ (place_taken s values.now p).box }
    ensures kept { IsFalse result → (remains.new.box ≡ remains.old.box) × (remains.new.past ≡ remains.old.past) }
    ensures past { Follows remains.old remains.new }
    ensures fewer { (large : Box) → is_sub_box remains.old.box large ≡ true → is_sub_box remains.new.box large ≡ true }
{
    take_chosen(levels, i, remains, values)
}

/// Whether a branch on x may stand in the scope: x is a variable of it, and has several values left.
pub fn may_branch(levels: &Levels, i: ScopeId, remains: &Remains, x: VarId) -> bool
    requires { i.0 < length levels.now.problem.now.scopes }
    ensures { (s : Setting) (p : Place) → IsHere levels.now.problem.now i.0 remains.now.box s p → result ≡ branch_placed s p x.0 }
{
    is_branch(levels, i, remains, x)
}

/// The best value left to the variable that is demanded first, where a scope of the player may end with it; None where it may
/// not.
pub fn best_end(levels: &Levels, demands: &Demands, i: ScopeId, remains: &Remains) -> Option<i64>
    requires scope { i.0 < length levels.now.problem.now.scopes }
    requires lists { HasLists levels.now.problem.now demands.now }
    ensures placed { (s : Setting) (p : Place) → IsHere levels.now.problem.now i.0 remains.now.box s p → is_some result ≡ best_placed p }
    ensures best { IfSome result (λ v. (s : Setting) (p : Place) → IsHere levels.now.problem.now i.0 remains.now.box s p → list_best p.list p.box ≡ v ∷ []) }
{
    if remains.is_empty() {
        return None;
    }
    if is_opponents(levels, i) {
        return None;
    }
    best_left(demands, i, remains.store())
}

/// Whether it is a scope of the opponent, who may take any tuple of it.
pub fn is_free_choice(levels: &Levels, i: ScopeId) -> bool
    requires { i.0 < length levels.now.problem.now.scopes }
    ensures { (box : Box) (s : Setting) (p : Place) → IsHere levels.now.problem.now i.0 box s p → result ≡ is_free_choice_in s p }
{
    if !is_opponents(levels, i) {
        return false;
    }
    is_unrestricted(levels, i)
}
