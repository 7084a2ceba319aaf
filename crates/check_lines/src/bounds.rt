//! Bounds: which variable a scope's own tree may bound, and the marks.
ghost use Rattle.std.specs.Prelude.{◌≡◌, ◌<◌, ◌≤◌, ◌&&◌, true, false, Option, Some, ℕ, is_some, length, drop, slice_get, IfOk, IfNone, IfSome};
ghost use Rattle.qc_model.specs.Block.{no_condition_to as no_condition_up_to};
ghost use Rattle.qc_model.specs.Content.{Game};
ghost use Rattle.qc_model.specs.Demands.{demands};
ghost use Rattle.qc_model.specs.Domains.{Box, is_sub_box, box_without, is_none_left, values_left, values_within};
ghost use Rattle.fd_store.specs.Held.{Follows};
ghost use Rattle.proof_tree.specs.Place.{owner_of, tracked_first, tracked_variable};
ghost use Rattle.proof_tree.specs.Steps.{removes_some, is_tracked, best_value};
ghost use Rattle.proof_tree.specs.declared.tree.Step.TheVariants.{Bound as BoundStep};
ghost use Rattle.check_lines.specs.State.{is_own_step};
ghost use Rattle.check_lines.specs.Ledger.{place_at};
ghost use Rattle.check_lines.specs.Tracking.{told, tracked_at, TracksAll, BoundShows};

use check_box::Remains;
use joins::Demands;
use qc_model::{Condition, Kind, Problem, ScopeId, Sense, Target, VarId};
use std::alloc::{AllocError, Global};

/// A variable that a scope optimises first, and whether less or more of it is better.
#[derive(Clone, Copy)]
pub(crate) struct Wish {
    sense: Sense,
    variable: VarId,
}

/// For each scope of a problem the variable that its own tree may bound, looked up once.
#[derive(Drop)]
pub(crate) struct Bounds {
    wishes: Vec<Option<Wish>>,
}

/// The scope of a variable.
fn owner_of_variable(problem: &Problem, x: VarId) -> usize
    ensures { result ≡ owner_of (slice_get problem.now.variables x.0) }
{
    if (x.0 as usize) < problem.variables() {
        problem.variable(x).scope.0 as usize
    } else {
        0
    }
}

/// Whether no scope from i up to `last` has a condition.
fn no_condition_to(problem: &Problem, i: usize, last: usize) -> bool
    requires { i ≤ length problem.now.scopes }
    ensures { result ≡ no_condition_up_to last (drop i problem.now.scopes) i }
{
    problem.known();
    for at in i..problem.scopes() {
        if last < at {
            return true;
        }
        if problem.scope(ScopeId(at as u8)).condition.is_some() {
            return false;
        }
    }
    true
}

/// The variable that the list begins with, where no scope from i up to the variable's own has a condition.
fn first_wish(problem: &Problem, i: usize, list: &[Condition]) -> Option<Wish>
    requires { i ≤ length problem.now.scopes }
    ensures { told result ≡ tracked_first problem.now (drop i problem.now.scopes) i list.now }
{
    let entry = list.first()?;
    match entry.target {
        Target::Aggregate(_) => None,
        Target::Var(variable) => {
            let owner = owner_of_variable(problem, variable);
            if !no_condition_to(problem, i, owner) {
                return None;
            }
            Some(Wish {
                sense: entry.sense,
                variable,
            })
        }
    }
}

/// The variable that the own tree of scope i may bound, where this list is demanded after the scope.
fn wish_of(problem: &Problem, i: ScopeId, list: &[Condition]) -> Option<Wish>
    requires { i.0 < length problem.now.scopes }
    ensures { told result ≡ tracked_variable problem.now (drop i.0 problem.now.scopes) i.0 list.now }
{
    match problem.scope(i).kind {
        Kind::Exists => first_wish(problem, i.0 as usize + 1, list),
        Kind::Forall => None,
    }
}

impl Wish {
    /// Whether no domain is empty, x has a value from lo to hi, and the wish is for x.
    fn may_bound(&self, remains: &Remains, x: VarId, lo: i64, hi: i64) -> bool
        ensures legal { result ≡ (removes_some remains.now.box x.0 lo hi && is_tracked x.0 (told (Some self.now))) }
    {
        if remains.is_empty() {
            return false;
        }
        if !remains.has_within(x, lo, hi) {
            return false;
        }
        self.variable == x
    }

    /// The best value of x from lo to hi.
    fn best(&self, remains: &Remains, x: VarId, lo: i64, hi: i64) -> i64
        requires var { x.0 < length remains.now.box }
        requires left { is_none_left (values_within lo hi (values_left remains.now.box x.0)) ≡ false }
        ensures { result ≡ best_value self.now.sense (values_within lo hi (values_left remains.now.box x.0)) }
    {
        match self.sense {
            Sense::Min => remains.store().min_in(x, lo, hi),
            Sense::Max => remains.store().max_in(x, lo, hi),
        }
    }

    /// Takes the values from lo to hi out of x where the wish may bound them, and gives the best of them; None where it
    /// may not, and then nothing is taken.
    fn bound(&self, remains: &mut Remains, x: VarId, lo: i64, hi: i64) -> Option<i64>
        ensures legal { is_some result ≡ (removes_some remains.old.box x.0 lo hi && is_tracked x.0 (told (Some self.now))) }
        ensures mark { IfSome result (λ m. m ≡ best_value self.now.sense (values_within lo hi (values_left remains.old.box x.0))) }
        ensures content { IfSome result (λ m. remains.new.box ≡ box_without remains.old.box x.0 lo hi) }
        ensures kept { IfNone result (remains.new ≡ remains.old) }
        ensures past { Follows remains.old remains.new }
        ensures fewer { (large : Box) → is_sub_box remains.old.box large ≡ true → is_sub_box remains.new.box large ≡ true }
    {
        if !self.may_bound(remains, x, lo, hi) {
            return None;
        }
        let best = self.best(remains, x, lo, hi);
        remains.cut(x, lo, hi);
        Some(best)
    }
}

impl Bounds {
    /// The table of a problem. It fails only where memory runs out.
    pub(crate) fn new(alloc: Global, problem: &Problem) -> Result<Bounds, AllocError>
        ensures { IfOk result (TracksAll problem.now) }
    {
        problem.known();
        let demands = Demands::new(alloc, problem)?;
        let mut wishes = Vec::with_capacity(alloc, problem.scopes())?;
        for i in 0..problem.scopes() {
            let after = demands.list(ScopeId(i as u8 + 1));
            wishes.push(wish_of(problem, ScopeId(i as u8), after))?;
        }
        Ok(Bounds { wishes })
    }

    /// The variable that the own tree of scope i may bound.
    fn wish(&self, i: ScopeId) -> Option<Wish>
        requires { i.0 < length self.now.wishes.items }
        ensures { (g : Game) → TracksAll g self.now → told result ≡ tracked_at g i.0 }
    {
        self.wishes[i.0 as usize]
    }

    /// Takes the values from lo to hi out of x where the own tree of scope i may bound them, and gives the best of them,
    /// which is the bound's mark; None where it may not, and then nothing is taken.
    pub(crate) fn bound(
        &self,
        remains: &mut Remains,
        i: ScopeId,
        x: VarId,
        lo: i64,
        hi: i64,
    ) -> Option<i64>
        requires { i.0 < length self.now.wishes.items }
        ensures shows { IfSome result (λ m. (g : Game) → TracksAll g self.now → BoundShows g i.0 x lo hi remains.old.box m) }
        ensures illegal { IfNone result ((g : Game) (h : Option ℕ) → TracksAll g self.now → is_own_step g (place_at g i.0 h) (BoundStep x lo hi) remains.old.box ≡ false) }
        ensures content { IfSome result (λ m. remains.new.box ≡ box_without remains.old.box x.0 lo hi) }
        ensures kept { IfNone result (remains.new ≡ remains.old) }
        ensures past { Follows remains.old remains.new }
        ensures fewer { (large : Box) → is_sub_box remains.old.box large ≡ true → is_sub_box remains.new.box large ≡ true }
    {
        match self.wish(i) {
            None => None,
            Some(wish) => wish.bound(remains, x, lo, hi),
        }
    }
}
