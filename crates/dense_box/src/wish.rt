//! A variable of which less or more is better, and what it does to a box.
ghost use Rattle.std.specs.Prelude.{◌≡◌, ◌<◌, ◌&&◌, true, false, Some, IsTrue, is_some, length, drop, set, IfNone, IfSome};
ghost use Rattle.qc_model.specs.Domains.{Box, box_without, has_empty, is_none_left, is_sub_box, values_left, values_within};
ghost use Rattle.qc_model.specs.Valid.{is_number};
ghost use Rattle.fd_store.specs.Held.{Follows};
ghost use Rattle.proof_tree.specs.Steps.{best_value, is_tracked, removes_some};
ghost use Rattle.dense_tree.specs.Steps.{condition_variable, last_condition, no_worse};
ghost use Rattle.dense_box.specs.Wished.{told};

use check_box::Remains;
use qc_model::{Condition, Kind, Problem, ScopeId, Sense, Target, VarId};

/// Below every value of a variable, or the least; and above, or the greatest.
const LEAST: i64 = -1_000_000_000;

const MOST: i64 = 1_000_000_000;

/// A variable, and whether less or more of it is better.
#[derive(Clone, Copy)]
pub(crate) struct Wish {
    pub(crate) sense: Sense,
    pub(crate) variable: VarId,
}

// The variable of a condition.
fn condition_wish(condition: Option<Condition>) -> Option<Wish>
    ensures { told result ≡ condition_variable condition }
{
    let condition = condition?;
    match condition.target {
        Target::Aggregate(_) => None,
        Target::Var(variable) => Some(Wish {
            sense: condition.sense,
            variable,
        }),
    }
}

/// The variable of the condition of scope i, where it is the last scope and the player's.
pub(crate) fn last_wish(problem: &Problem, i: ScopeId) -> Option<Wish>
    requires { i.0 < length problem.now.scopes }
    ensures { told result ≡ last_condition (drop i.0 problem.now.scopes) }
{
    if i.0 as usize + 1 != problem.scopes() {
        return None;
    }
    let scope = problem.scope(i);
    match scope.kind {
        Kind::Exists => condition_wish(scope.condition),
        Kind::Forall => None,
    }
}

impl Wish {
    /// Whether no domain is empty, x has a value from lo to hi, and the wish is for x.
    fn may_bound(&self, remains: &Remains, x: VarId, lo: i64, hi: i64) -> bool
        ensures { result ≡ (removes_some remains.now.box x.0 lo hi && is_tracked x.0 (told (Some self.now))) }
    {
        if remains.is_empty() {
            return false;
        }
        if !remains.has_within(x, lo, hi) {
            return false;
        }
        self.variable == x
    }

    /// The best value of x from lo to hi.
    fn best(&self, remains: &Remains, x: VarId, lo: i64, hi: i64) -> i64
        requires var { x.0 < length remains.now.box }
        requires left { is_none_left (values_within lo hi (values_left remains.now.box x.0)) ≡ false }
        ensures { result ≡ best_value self.now.sense (values_within lo hi (values_left remains.now.box x.0)) }
    {
        match self.sense {
            Sense::Min => remains.store().min_in(x, lo, hi),
            Sense::Max => remains.store().max_in(x, lo, hi),
        }
    }

    /// Takes the values from lo to hi out of x where the wish may bound them, and gives the best of them; None where it
    /// may not, and then nothing is taken.
    pub(crate) fn bound(&self, remains: &mut Remains, x: VarId, lo: i64, hi: i64) -> Option<i64>
        ensures legal { is_some result ≡ (removes_some remains.old.box x.0 lo hi && is_tracked x.0 (told (Some self.now))) }
        ensures mark { IfSome result (λ m. m ≡ best_value self.now.sense (values_within lo hi (values_left remains.old.box x.0))) }
        ensures content { IfSome result (λ m. remains.new.box ≡ box_without remains.old.box x.0 lo hi) }
        ensures kept { IfNone result (remains.new ≡ remains.old) }
        ensures past { Follows remains.old remains.new }
        ensures fewer { (large : Box) → is_sub_box remains.old.box large ≡ true → is_sub_box remains.new.box large ≡ true }
    {
        if !self.may_bound(remains, x, lo, hi) {
            return None;
        }
        let best = self.best(remains, x, lo, hi);
        remains.cut(x, lo, hi);
        Some(best)
    }

    /// Takes the values that are worse than v out of the variable.
    pub(crate) fn take_worse(&self, remains: &mut Remains, v: i64)
        requires var { self.now.variable.0 < length remains.old.box }
        requires number { IsTrue (is_number v) }
        ensures content { remains.new.box ≡ set remains.old.box self.now.variable.0 (no_worse self.now.sense v (values_left remains.old.box self.now.variable.0)) }
        ensures past { Follows remains.old remains.new }
        ensures fewer { (large : Box) → is_sub_box remains.old.box large ≡ true → is_sub_box remains.new.box large ≡ true }
    {
        remains.store().known(self.variable);
        match self.sense {
            Sense::Min => remains.cut(self.variable, v + 1, MOST),
            Sense::Max => remains.cut(self.variable, LEAST, v - 1),
        }
    }
}
