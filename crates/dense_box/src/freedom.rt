//! In which scopes the opponent is never stuck, and which constraints are in force.
ghost use Rattle.std.specs.Prelude.{◌≡◌, ◌≤◌, ◌<◌, ℕ, nat_le, true, Some, List, [], ◌∷◌, ◌++◌, length, drop, slice_get, IfOk};
ghost use Rattle.std.specs.List.{list_all};
ghost use Rattle.qc_model.specs.declared.problem.Scope.{Scope};
ghost use Rattle.qc_model.specs.Content.{Game};
ghost use Rattle.model_levels.specs.Spans.{IsSpanOf};
ghost use Rattle.dense_tree.specs.Free.{is_unrestricted as is_unrestricted_in, is_never_stuck as is_never_stuck_in, is_free_from as is_free_from_in, is_free as is_free_in, is_joint as is_joint_in, joint_stop as joint_stop_in};
ghost use Rattle.dense_tree.specs.Proves.{are_in_order, given_placed};
ghost use Rattle.dense_tree.specs.Tree.{Given};
ghost use Rattle.dense_box.specs.Standing.{never_stuck, is_passed as is_passed_by, IsStandingOf, StandsFor};

use crate::blocks::force_stop;
use crate::given::is_opponent;
use model_arguments::Span;
use model_levels::Levels;
use qc_model::ScopeId;
use std::alloc::{AllocError, Global};

/// What is known of one scope.
#[derive(Clone, Copy)]
pub(crate) struct Standing {
    pub(crate) is_opponents: bool,
    pub(crate) is_unrestricted: bool,
    /// A tuple was given that its owner can always take.
    pub(crate) has_tuple: bool,
    /// The first number whose constraints aren't in force, without joint closing.
    pub(crate) stop: usize,
}

/// What is known of the scopes of a problem, with the tuples that were given so far: in which of them the opponent is never
/// stuck, and which constraints are in force. Each answer takes constant time.
#[derive(Drop)]
pub struct Freedom {
    pub(crate) standings: Vec<Standing>,
    // the first scope from which on the opponent is never stuck
    pub(crate) free_from: usize,
    // the first scope that the next tuple may be of
    pub(crate) next: usize,
}

impl Standing {
    /// Whether the owner is never stuck.
    fn is_never_stuck(&self) -> bool
        ensures { result ≡ never_stuck self.now }
    {
        self.is_unrestricted || self.has_tuple
    }

    /// Whether the opponent isn't stuck here.
    fn is_passed(&self) -> bool
        ensures { result ≡ is_passed_by self.now }
    {
        !self.is_opponents || self.is_never_stuck()
    }
}

// The first scope from which on the opponent is never stuck.
fn first_free(standings: &[Standing]) -> usize
    ensures { (k : ℕ) → k ≤ length standings.now → list_all is_passed_by (drop k standings.now) ≡ nat_le result k }
{
    let count = standings.len();
    for back in 0..count {
        let at = count - 1 - back;
        if !standings[at].is_passed() {
            return at + 1;
        }
    }
    0
}

// What is known of scope i where no tuple is given.
fn standing_of(levels: &Levels, i: ScopeId) -> Standing
    requires { i.0 < length levels.now.problem.now.scopes }
    ensures { (s : Scope) → slice_get levels.now.problem.now.scopes i.0 ≡ Some s → IsStandingOf levels.now.problem.now [] s i.0 result }
{
    let level = levels.level(i);
    Standing {
        is_opponents: is_opponent(level.kind),
        is_unrestricted: level.rules.is_empty(),
        has_tuple: false,
        stop: force_stop(level),
    }
}

impl Freedom {
    /// What is known where no tuple is given. It fails only where memory runs out.
    pub fn new(alloc: Global, levels: &Levels) -> Result<Freedom, AllocError>
        ensures { IfOk result (StandsFor levels.now.problem.now []) }
    {
        levels.problem.known();
        let mut standings = Vec::with_capacity(alloc, levels.problem.scopes())?;
        for i in 0..levels.problem.scopes() {
            standings.push(standing_of(levels, ScopeId(i as u8)))?;
        }
        let free_from = first_free(standings.as_slice());
        Ok(Freedom {
            standings,
            free_from,
            next: 0,
        })
    }

    /// Whether a tuple of the scope may come next: those of all others were of scopes before it.
    pub fn comes_next(&self, scope: ScopeId) -> bool
        ensures { (g : Game) (us : List Given) (u : Given) → StandsFor g us self.now → u.scope ≡ scope → are_in_order us ≡ true → result ≡ are_in_order (us ++ u ∷ []) }
    {
        self.next <= scope.0 as usize
    }

    /// A tuple of the scope is given, which may be given. It takes time in the order of the scopes.
    pub fn give(&mut self, scope: ScopeId)
        requires { scope.0 < length self.old.standings.items }
        ensures { (g : Game) (us : List Given) (u : Given) → StandsFor g us self.old → u.scope ≡ scope → given_placed g u ≡ true → StandsFor g (us ++ u ∷ []) self.new }
    {
        let mut standing = self.standings[scope.0 as usize];
        standing.has_tuple = true;
        self.standings[scope.0 as usize] = standing;
        self.free_from = first_free(self.standings.as_slice());
        self.next = scope.0 as usize + 1;
    }

    /// Whether scope i has no restriction.
    pub fn is_unrestricted(&self, i: ScopeId) -> bool
        requires { i.0 < length self.now.standings.items }
        ensures { (g : Game) (us : List Given) → StandsFor g us self.now → result ≡ is_unrestricted_in g i.0 }
    {
        self.standings[i.0 as usize].is_unrestricted
    }

    /// Whether the owner of scope i is never stuck.
    pub fn is_never_stuck(&self, i: ScopeId) -> bool
        requires { i.0 < length self.now.standings.items }
        ensures { (g : Game) (us : List Given) → StandsFor g us self.now → result ≡ is_never_stuck_in g us i.0 }
    {
        self.standings[i.0 as usize].is_never_stuck()
    }

    /// Whether the opponent is never stuck from scope i on, or from the goal on.
    pub fn is_free_from(&self, i: ScopeId) -> bool
        ensures { (g : Game) (us : List Given) → StandsFor g us self.now → i.0 ≤ length g.scopes → result ≡ is_free_from_in g us (drop i.0 g.scopes) i.0 }
    {
        self.free_from <= i.0 as usize
    }

    /// Whether the opponent is never stuck.
    pub fn is_free(&self) -> bool
        ensures { (g : Game) (us : List Given) → StandsFor g us self.now → result ≡ is_free_in g us }
    {
        self.is_free_from(ScopeId(0))
    }

    /// Whether closing is joint at scope i.
    pub fn is_joint(&self, i: ScopeId) -> bool
        requires { i.0 < length self.now.standings.items }
        ensures { (g : Game) (us : List Given) → StandsFor g us self.now → result ≡ is_joint_in g us (drop i.0 g.scopes) i.0 }
    {
        if !self.is_free() {
            return false;
        }
        let standing = self.standings[i.0 as usize];
        !standing.is_opponents || standing.is_unrestricted
    }

    /// The first number whose constraints aren't in force at scope i.
    pub fn joint_stop(&self, i: ScopeId) -> usize
        requires { i.0 < length self.now.standings.items }
        ensures { (g : Game) (us : List Given) → StandsFor g us self.now → result ≡ joint_stop_in g us (drop i.0 g.scopes) i.0 }
    {
        if self.is_joint(i) {
            return self.standings.len() + 1;
        }
        self.standings[i.0 as usize].stop
    }

    /// The constraints in force at scope i.
    pub fn in_force(&self, levels: &Levels, i: ScopeId) -> Span
        requires scope { i.0 < length levels.now.problem.now.scopes }
        requires count { length self.now.standings.items ≡ length levels.now.problem.now.scopes }
        ensures { (us : List Given) → StandsFor levels.now.problem.now us self.now → IsSpanOf levels.now.problem.now i.0 (joint_stop_in levels.now.problem.now us (drop i.0 levels.now.problem.now.scopes) i.0) result.first result.end }
    {
        levels.problem.known();
        if self.is_joint(i) {
            return levels.constraints_between(i, ScopeId(levels.problem.scopes() as u8));
        }
        levels.level(i).in_force
    }
}
