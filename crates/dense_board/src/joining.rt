//! What the parts of each scope come to together.
ghost use Rattle.std.specs.Prelude.{◌<◌, ◌≤◌, length, IsTrue};
ghost use Rattle.joins.specs.Joins.{game_of};

use crate::board::Board;
use joins::Found;
use qc_model::{ScopeId, VarId};

/// As many variables as a problem can have.
const MOST_VARIABLES: usize = 500;

impl<'p> Board<'p> {
    // Whether there is such a scope, and so a join for it.
    fn is_joined(&self, i: ScopeId) -> bool
        ensures { IsTrue result → i.0 < length (game_of self.now.joins).scopes }
    {
        self.levels.problem.known();
        self.is_scope(i)
    }

    // Writes the least value left to each variable in its place.
    fn read_position(&mut self) {
        for at in 0..self.values.len().min(MOST_VARIABLES) {
            self.values[at] = self.least(VarId(at as u16));
        }
    }

    /// The least value left to each variable where a position was last asked for.
    pub fn position(&self) -> &[i64] {
        self.values.as_slice()
    }

    /// A number of the position of scope i, the same where positions look the same. None comes where it has no number.
    pub fn position_number(&mut self, i: ScopeId) -> Option<u64> {
        self.read_position();
        self.number_of(i)
    }

    fn number_of(&self, i: ScopeId) -> Option<u64> {
        if !self.is_scope(i) {
            return None;
        }
        self.likeness
            .number(self.levels.level(i), None, self.values.as_slice())
    }

    /// Whether the position of scope i that was last asked for looks the same as another one.
    pub fn is_like(&self, i: ScopeId, kept: &[i64]) -> bool {
        if !self.is_scope(i) {
            return false;
        }
        self.likeness
            .is_like(self.levels.level(i), kept, self.values.as_slice())
    }

    /// Takes all leaves and bounds of scope i out.
    pub fn clear(&mut self, i: ScopeId) {
        if self.is_joined(i) {
            self.joins.clear(i);
        }
    }

    /// Takes a leaf of scope i where its restriction fails.
    pub fn add_barred(&mut self, i: ScopeId) {
        if self.is_joined(i) {
            self.joins.add_barred(i);
        }
    }

    /// Takes a leaf of scope i whose values are left out.
    pub fn add_skipped(&mut self, i: ScopeId) {
        if self.is_joined(i) {
            self.joins.add_skipped(i);
        }
    }

    /// Takes the mark of a bound in scope i.
    pub fn add_bound(&mut self, i: ScopeId, best: i64) {
        if self.is_joined(i) {
            self.joins.add_bound(i, best);
        }
    }

    /// Takes what the node below a leaf of scope i came to, with the vector that was handed out last where it is exact.
    pub fn add_node(&mut self, i: ScopeId, found: Found) {
        if self.is_joined(i) {
            self.joins.add_node(i, found);
        }
    }

    /// What scope i comes to in this box, by its leaves and bounds. Where it is exact, its vector is handed out.
    pub fn finish(&mut self, i: ScopeId) -> Found {
        self.read_position();
        if !self.is_joined(i) {
            return Found::Unknown;
        }
        self.joins.finish(i, self.values.as_slice())
    }

    /// What scope i comes to, or the goal, where its owner has no move.
    pub fn finish_stuck(&mut self, i: ScopeId) -> Found {
        if !self.is_scope(i) {
            return Found::Lost;
        }
        self.clear(i);
        self.finish(i)
    }

    /// What the goal comes to in this box, where each variable has one value. Where it holds, its vector is handed out.
    pub fn finish_goal(&mut self) -> Found {
        let holds = !self.goal_fails();
        self.read_position();
        self.joins.goal(holds, self.values.as_slice())
    }

    /// The vector that was handed out last.
    pub fn vector(&self) -> &[i64] {
        self.joins.vector()
    }

    // Whether a vector has at most one value for each scope.
    fn is_short(&self, vector: &[i64]) -> bool
        ensures { IsTrue result → length vector.now ≤ length (game_of self.now.joins).scopes }
    {
        self.levels.problem.known();
        vector.len() <= self.levels.problem.scopes()
    }

    /// Hands a vector out once more.
    pub fn hand_out(&mut self, vector: &[i64]) {
        if self.is_short(vector) {
            self.joins.hand_out(vector);
        }
    }

    /// The value of the own condition of scope i, where it has one and what it came to is exact.
    pub fn own(&self, i: ScopeId) -> Option<i64> {
        if !self.is_joined(i) {
            return None;
        }
        self.joins.own(i)
    }

    /// The first value of the best vector so far of scope i, a scope of the player.
    pub fn incumbent(&self, i: ScopeId) -> Option<i64> {
        if !self.is_joined(i) {
            return None;
        }
        self.joins.incumbent(i)
    }

    /// The bound that the leaves so far of scope i, a scope of the opponent, give by themselves.
    pub fn side_bound(&self, i: ScopeId) -> Option<i64> {
        if !self.is_joined(i) {
            return None;
        }
        self.joins.side_bound(i)
    }

    /// Whether no further leaf changes what scope i comes to.
    pub fn is_settled(&self, i: ScopeId) -> bool {
        if !self.is_joined(i) {
            return false;
        }
        self.joins.is_settled(i)
    }
}
