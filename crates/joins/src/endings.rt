//! What a scope, or the goal, comes to.
ghost use Rattle.std.specs.Prelude.{◌≡◌, ◌≤◌, ◌<◌, List, [], drop, length};
ghost use Rattle.qc_model.specs.Demands.{demands};
ghost use Rattle.qc_model.specs.Verdict.{Seen};
ghost use Rattle.qc_model.specs.ForallVerdict.{goal_verdict};
ghost use Rattle.joins.specs.Seen.{verdict_of};
ghost use Rattle.joins.specs.Verdicts.{verdict_at, stuck_of};

use crate::Found;
use crate::joins::Joins;
use qc_model::{Kind, ScopeId};

impl Joins<'_> {
    ghost use Rattle.joins.specs.Joins.{game_of, out_of, StandsAt, KeepsOthers, KeepsAll};

    /// What scope i comes to by its leaves and bounds, at the values of the variables before it. Where it
    /// is exact, its vector is handed out.
    pub fn finish(&mut self, i: ScopeId, values: &[i64]) -> Found
        requires { i.0 < length (game_of self.old).scopes }
        ensures verdict { (xs : List Seen) → StandsAt self.old i.0 xs → verdict_of result (out_of self.new) ≡ verdict_at (game_of self.old) i.0 values.now xs }
        ensures all { KeepsAll self.old self.new }
        ensures same { game_of self.new ≡ game_of self.old }
    {
        self.joins[i.0 as usize].finish(values, &mut self.out)
    }

    /// What scope i comes to where nobody passes it, at the values of the variables before it: the player
    /// loses in his own scope; an opponent's has no branch, and the vector of the folds over none is
    /// handed out. The leaves and bounds of scope i may be lost.
    pub fn stuck(&mut self, i: ScopeId, values: &[i64]) -> Found
        requires { i.0 < length (game_of self.old).scopes }
        ensures verdict { verdict_of result (out_of self.new) ≡ stuck_of (drop i.0 (game_of self.old).scopes) (game_of self.old) (demands (game_of self.old) i.0) values.now }
        ensures others { KeepsOthers i.0 self.old self.new }
        ensures same { game_of self.new ≡ game_of self.old }
    {
        match self.problem.scope(i).kind {
            Kind::Exists => Found::Lost,
            Kind::Forall => {
                self.clear(i);
                self.finish(i, values)
            }
        }
    }

    /// What the goal comes to, which holds or not, at the values of all variables. Where it holds, the
    /// values of its list are handed out.
    pub fn goal(&mut self, holds: bool, values: &[i64]) -> Found
        ensures verdict { verdict_of result (out_of self.new) ≡ goal_verdict (game_of self.old) holds (demands (game_of self.old) (length (game_of self.old).scopes)) values.now }
        ensures all { KeepsAll self.old self.new }
        ensures same { game_of self.new ≡ game_of self.old }
    {
        if holds {
            self.goal.finish(values, &mut self.out)
        } else {
            Found::Lost
        }
    }

    /// Hands out a vector once more, that has at most one value for each scope.
    pub fn hand_out(&mut self, vector: &[i64])
        requires { length vector.now ≤ length (game_of self.old).scopes }
        ensures out { out_of self.new ≡ vector.now }
        ensures all { KeepsAll self.old self.new }
        ensures same { game_of self.new ≡ game_of self.old }
    {
        self.out.set(vector);
    }
}
