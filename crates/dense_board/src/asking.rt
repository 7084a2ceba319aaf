//! What a board tells.
ghost use Rattle.std.specs.Prelude.{◌≡◌, ◌<◌, ◌≤◌, length, false, IsTrue};
ghost use Rattle.qc_model.specs.Domains.{has_empty};
ghost use Rattle.qc_model.specs.Game.{restriction};
ghost use Rattle.dense_tree.specs.Tuples.{some_fails};
ghost use Rattle.dense_box.specs.Ends.{needs_restriction_at};

use crate::board::Board;
use dense_box::{
    all_entailed, best_left, may_be_barred, may_go_on, needs_restriction, some_refuted,
};
use dense_quiet::Taking;
use model_levels::Level;
use qc_model::{Condition, Fold, Kind, ScopeId, Target, VarId};
use std::alloc::{AllocError, Global};

impl<'p> Board<'p> {
    /// How many scopes the game has.
    pub fn scopes(&self) -> usize
        ensures { result ≤ 64 }
    {
        self.levels.problem.known();
        self.levels.problem.scopes()
    }

    /// How many variables.
    pub fn variables(&self) -> usize {
        self.levels.problem.variables()
    }

    /// Whether there is a scope i.
    pub fn is_scope(&self, i: ScopeId) -> bool
        ensures { IsTrue result → i.0 < length self.now.levels.problem.now.scopes }
    {
        self.levels.problem.known();
        (i.0 as usize) < self.levels.problem.scopes()
    }

    // Whether i is a scope, or the goal.
    fn is_list(&self, i: ScopeId) -> bool
        ensures { IsTrue result → i.0 ≤ length self.now.levels.problem.now.scopes }
    {
        self.levels.problem.known();
        i.0 as usize <= self.levels.problem.scopes()
    }

    /// What the problem says of scope i; None where there is no such scope.
    pub fn level(&self, i: ScopeId) -> Option<&Level<'p>> {
        if !self.is_scope(i) {
            return None;
        }
        Some(self.levels.level(i))
    }

    /// Whether it is a scope of the player. The goal isn't.
    pub fn is_players(&self, i: ScopeId) -> bool {
        match self.level(i) {
            None => false,
            Some(level) => level.kind == Kind::Exists,
        }
    }

    /// What is demanded of scope i by those before it, or of the goal; nothing, where there is no such scope.
    pub fn demanded(&self, i: ScopeId) -> &[Condition] {
        if !self.is_list(i) {
            return &[];
        }
        self.demands.list(i)
    }

    /// Whether the opponent is never stuck, by the tuples that were given.
    pub fn is_free(&self) -> bool {
        self.freedom.is_free()
    }

    /// Whether the opponent is never stuck from scope i on, or from the goal on, by the tuples that were given.
    pub fn is_free_from(&self, i: ScopeId) -> bool {
        self.freedom.is_free_from(i)
    }

    /// Whether the opponent is never stuck at scope i.
    pub fn is_free_at(&self, i: ScopeId) -> bool {
        if !self.is_scope(i) {
            return true;
        }
        self.is_players(i) || self.freedom.is_never_stuck(i)
    }

    /// How the aggregate that is the target folds; None where it is a variable.
    pub fn fold_of(&self, target: Target) -> Option<Fold> {
        match target {
            Target::Var(_) => None,
            Target::Aggregate(a) => {
                if a.0 as usize >= self.levels.problem.aggregates() {
                    return None;
                }
                Some(self.levels.problem.aggregate(a).fold)
            }
        }
    }

    /// Whether a variable has no value left.
    pub fn is_empty(&self) -> bool {
        self.remains.is_empty()
    }

    // Whether x is a variable, and each variable has a value.
    fn has_values(&self, x: VarId) -> bool
        ensures var { IsTrue result → x.0 < length self.now.remains.box }
        ensures full { IsTrue result → has_empty self.now.remains.box ≡ false }
    {
        if x.0 as usize >= self.remains.store().count() {
            return false;
        }
        !self.remains.is_empty()
    }

    /// How many values are left to x; none, where there is no such variable.
    pub fn size(&self, x: VarId) -> u32 {
        if x.0 as usize >= self.remains.store().count() {
            return 0;
        }
        self.remains.store().size(x)
    }

    /// The least value left to x; 0 where there is none, or no variable has a value.
    pub fn least(&self, x: VarId) -> i64 {
        if !self.has_values(x) {
            return 0;
        }
        self.remains.store().min(x)
    }

    /// The greatest value left to x; 0 where there is none.
    pub fn greatest(&self, x: VarId) -> i64 {
        if !self.has_values(x) {
            return 0;
        }
        self.remains.store().max(x)
    }

    /// Whether v is left to x.
    pub fn has(&self, x: VarId, v: i64) -> bool {
        if x.0 as usize >= self.remains.store().count() {
            return false;
        }
        self.remains.store().has(x, v)
    }

    /// The least value left to x that is at least v.
    pub fn next(&self, x: VarId, v: i64) -> Option<i64> {
        if x.0 as usize >= self.remains.store().count() {
            return None;
        }
        self.remains.store().next(x, v)
    }

    /// The greatest value left to x that is at most v.
    pub fn previous(&self, x: VarId, v: i64) -> Option<i64> {
        if x.0 as usize >= self.remains.store().count() {
            return None;
        }
        self.remains.store().prev(x, v)
    }

    /// The first variable of scope i that has several values left.
    pub fn first_open(&self, i: ScopeId) -> Option<VarId> {
        self.first_open_from(i, VarId(0))
    }

    /// The first variable of scope i that has several values left, from x on.
    pub fn first_open_from(&self, i: ScopeId, x: VarId) -> Option<VarId> {
        let level = self.level(i)?;
        level.problem.known();
        for at in level.from.max(x.0 as usize)..level.stop {
            let x = VarId(at as u16);
            if self.size(x) > 1 {
                return Some(x);
            }
        }
        None
    }

    /// The least value left to each variable of scope i; nothing, where there is no such scope. It fails only where memory runs out.
    pub fn tuple(&self, alloc: Global, i: ScopeId) -> Result<Vec<i64>, AllocError> {
        let mut tuple = Vec::new(alloc);
        if let Some(level) = self.level(i) {
            level.problem.known();
            for at in level.from..level.stop {
                tuple.push(self.least(VarId(at as u16)))?;
            }
        }
        Ok(tuple)
    }

    // Whether the box refutes a constraint of scope i, where that counts for going on.
    fn is_refuted(&self, i: ScopeId) -> bool
        requires { i.0 < length self.now.levels.problem.now.scopes }
        ensures { IsTrue (needs_restriction_at self.now.levels.problem.now i.0 self.now.remains.box) → result ≡ some_fails (restriction self.now.levels.problem.now i.0) self.now.remains.box }
    {
        if !needs_restriction(&self.levels, i, &self.remains) {
            return false;
        }
        let from = i.0 as usize;
        let store = self.remains.store();
        self.closer
            .has_refuted(&self.levels, store, Taking::Owners, from, from + 1)
    }

    /// Whether scope i may go on to the next.
    pub fn may_go_on(&self, i: ScopeId) -> bool {
        if !self.is_scope(i) {
            return false;
        }
        may_go_on(&self.levels, i, &self.remains, self.is_refuted(i))
    }

    /// Whether the values of scope i are single, and its restriction fails.
    pub fn may_be_barred(&self, i: ScopeId) -> bool {
        if !self.is_scope(i) {
            return false;
        }
        may_be_barred(&self.levels, i, &self.remains)
    }

    /// Whether the box entails all constraints of the scopes from one to another, where the goal has the number of scopes.
    pub fn entails(&self, from: ScopeId, last: ScopeId) -> bool {
        if from.0 > last.0 || last.0 as usize > self.levels.problem.scopes() {
            return false;
        }
        if self.remains.is_empty() {
            return false;
        }
        all_entailed(&self.levels, from, last, self.remains.store())
    }

    /// The best value left to the variable that is demanded first of scope i, or of the goal; None where nothing is, or an aggregate.
    pub fn best_left(&self, i: ScopeId) -> Option<i64> {
        if !self.is_list(i) {
            return None;
        }
        if self.remains.is_empty() {
            return None;
        }
        best_left(&self.demands, i, self.remains.store())
    }

    /// Whether the box refutes a constraint of the goal.
    pub fn goal_fails(&self) -> bool {
        if self.remains.is_empty() {
            return true;
        }
        self.levels.problem.known();
        let goal = ScopeId(self.levels.problem.scopes() as u8);
        some_refuted(&self.levels, goal, self.remains.store())
    }
}
