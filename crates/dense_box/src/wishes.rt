//! Bounds: which variable the own tree of each scope may bound, and what a bound does.
ghost use Rattle.std.specs.Prelude.{◌≡◌, ◌<◌, ◌≤◌, true, Some, is_some, length, drop, slice_get, IfOk, IfNone, IfSome};
ghost use Rattle.qc_model.specs.Block.{no_condition_to as no_condition_up_to};
ghost use Rattle.qc_model.specs.Content.{Game};
ghost use Rattle.qc_model.specs.Domains.{Box, has_empty, is_sub_box};
ghost use Rattle.fd_store.specs.Held.{Follows};
ghost use Rattle.proof_tree.specs.Place.{owner_of, tracked_first, tracked_variable};
ghost use Rattle.dense_tree.specs.Place.{Setting, Place};
ghost use Rattle.dense_tree.specs.Steps.{read_step};
ghost use Rattle.dense_tree.specs.Tree.{bound as bound_of};
ghost use Rattle.dense_box.specs.Here.{IsHere};
ghost use Rattle.dense_box.specs.Wished.{told, listed, tracked_at, TracksAll};

use crate::wish::Wish;
use check_box::Remains;
use joins::Demands;
use qc_model::{Condition, Kind, Problem, ScopeId, Target, VarId};
use std::alloc::{AllocError, Global};

/// For each scope of a problem the variable that its own tree may bound, looked up once.
#[derive(Drop)]
pub struct Wishes {
    pub(crate) wishes: Vec<Option<Wish>>,
}

// The scope of a variable.
fn owner_of_variable(problem: &Problem, x: VarId) -> usize
    ensures { result ≡ owner_of (slice_get problem.now.variables x.0) }
{
    if (x.0 as usize) < problem.variables() {
        problem.variable(x).scope.0 as usize
    } else {
        0
    }
}

// Whether no scope from i up to `last` has a condition.
fn no_condition_to(problem: &Problem, i: usize, last: usize) -> bool
    requires { i ≤ length problem.now.scopes }
    ensures { result ≡ no_condition_up_to last (drop i problem.now.scopes) i }
{
    problem.known();
    for at in i..problem.scopes() {
        if last < at {
            return true;
        }
        if problem.scope(ScopeId(at as u8)).condition.is_some() {
            return false;
        }
    }
    true
}

// The variable that the list begins with, where no scope from i up to the variable's own has a condition.
fn first_wish(problem: &Problem, i: usize, list: &[Condition]) -> Option<Wish>
    requires { i ≤ length problem.now.scopes }
    ensures { told result ≡ tracked_first problem.now (drop i problem.now.scopes) i list.now }
{
    let entry = list.first()?;
    match entry.target {
        Target::Aggregate(_) => None,
        Target::Var(variable) => {
            let owner = owner_of_variable(problem, variable);
            if !no_condition_to(problem, i, owner) {
                return None;
            }
            Some(Wish {
                sense: entry.sense,
                variable,
            })
        }
    }
}

// The variable that the own tree of scope i may bound, where this list is demanded after the scope.
fn wish_of(problem: &Problem, i: ScopeId, list: &[Condition]) -> Option<Wish>
    requires { i.0 < length problem.now.scopes }
    ensures { told result ≡ tracked_variable problem.now (drop i.0 problem.now.scopes) i.0 list.now }
{
    match problem.scope(i).kind {
        Kind::Exists => first_wish(problem, i.0 as usize + 1, list),
        Kind::Forall => None,
    }
}

impl Wishes {
    /// The table of a problem. It fails only where memory runs out.
    pub fn new(alloc: Global, problem: &Problem) -> Result<Wishes, AllocError>
        ensures { IfOk result (TracksAll problem.now) }
    {
        problem.known();
        let demands = Demands::new(alloc, problem)?;
        let mut wishes = Vec::with_capacity(alloc, problem.scopes())?;
        for i in 0..problem.scopes() {
            let after = demands.list(ScopeId(i as u8 + 1));
            wishes.push(wish_of(problem, ScopeId(i as u8), after))?;
        }
        Ok(Wishes { wishes })
    }

    // The variable that the own tree of scope i may bound.
    fn wish(&self, i: ScopeId) -> Option<Wish>
        requires { i.0 < length self.now.wishes.items }
        ensures { (g : Game) → TracksAll g self.now → told result ≡ tracked_at g i.0 }
    {
        self.wishes[i.0 as usize]
    }

    /// The step that takes the values from lo to hi out of x, as a bound of scope i, where it is in place. It gives the best
    /// of them, the bound's mark; None where it isn't in place, and then nothing is taken. No other domain becomes empty.
    pub fn bound(
        &self,
        remains: &mut Remains,
        i: ScopeId,
        x: VarId,
        lo: i64,
        hi: i64,
    ) -> Option<i64>
        requires { i.0 < length self.now.wishes.items }
        ensures placed { (g : Game) (s : Setting) (p : Place) → TracksAll g self.now → IsHere g i.0 remains.old.box s p → is_some result ≡ (read_step s (bound_of x lo hi) p).placed }
        ensures marks { IfSome result (λ m. (g : Game) (s : Setting) (p : Place) → TracksAll g self.now → IsHere g i.0 remains.old.box s p → (read_step s (bound_of x lo hi) p).marks ≡ listed (Some m)) }
        ensures content { IfSome result (λ m. (g : Game) (s : Setting) (p : Place) → IsHere g i.0 remains.old.box s p → remains.new.box ≡ (read_step s (bound_of x lo hi) p).place.box) }
        ensures kept { IfNone result (remains.new ≡ remains.old) }
        ensures past { Follows remains.old remains.new }
        ensures fewer { (large : Box) → is_sub_box remains.old.box large ≡ true → is_sub_box remains.new.box large ≡ true }
    {
        match self.wish(i) {
            None => None,
            Some(wish) => wish.bound(remains, x, lo, hi),
        }
    }
}
