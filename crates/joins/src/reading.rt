//! What is known of a scope before all its leaves are.
ghost use Rattle.std.specs.Prelude.{◌≡◌, ◌<◌, List, length};
ghost use Rattle.qc_model.specs.Verdict.{Seen};
ghost use Rattle.joins.specs.Verdicts.{own_at, settled_at, wishes_at, incumbent_at, side_at};

use crate::joins::Joins;
use qc_model::{Condition, ScopeId};

impl Joins<'_> {
    ghost use Rattle.joins.specs.Joins.{game_of, out_of, StandsAt};

    /// The value of the own condition of scope i. None comes exactly where the scope has no condition, or
    /// its leaves and bounds don't come to exact.
    pub fn own(&self, i: ScopeId) -> Option<i64>
        requires { i.0 < length (game_of self.now).scopes }
        ensures { (xs : List Seen) → StandsAt self.now i.0 xs → result ≡ own_at (game_of self.now) i.0 xs }
    {
        self.joins[i.0 as usize].own()
    }

    /// What is demanded after scope i, a scope of the player; nothing, where it is one of the opponent.
    pub fn wishes(&self, i: ScopeId) -> &[Condition]
        requires { i.0 < length (game_of self.now).scopes }
        ensures { result.now ≡ wishes_at (game_of self.now) i.0 }
    {
        self.joins[i.0 as usize].wishes()
    }

    /// The vector that was handed out last.
    pub fn vector(&self) -> &[i64]
        ensures { result.now ≡ out_of self.now }
    {
        self.out.items()
    }

    /// The incumbent of scope i, a scope of the player: the first value of the best vector so far. None comes exactly
    /// where no leaf is exact, or the scope is one of the opponent.
    pub fn incumbent(&self, i: ScopeId) -> Option<i64>
        requires { i.0 < length (game_of self.now).scopes }
        ensures { (xs : List Seen) → StandsAt self.now i.0 xs → result ≡ incumbent_at (game_of self.now) i.0 xs }
    {
        self.joins[i.0 as usize].incumbent()
    }

    /// The bound that the leaves so far of scope i, a scope of the opponent, give by themselves: whatever the others come to,
    /// the scope is lost, or its first value is no better. None comes exactly where no number is known, the scope's list
    /// doesn't begin with an aggregate that folds by the greatest where less is better or by the least where more is, or the
    /// scope is one of the player.
    pub fn side_bound(&self, i: ScopeId) -> Option<i64>
        requires { i.0 < length (game_of self.now).scopes }
        ensures { (xs : List Seen) → StandsAt self.now i.0 xs → result ≡ side_at (game_of self.now) i.0 xs }
    {
        self.joins[i.0 as usize].side_bound()
    }

    /// Whether no further leaf changes what scope i comes to: in a scope of the player some leaf is exact
    /// and nothing is demanded after the scope, in one of the opponent some leaf is lost.
    pub fn is_settled(&self, i: ScopeId) -> bool
        requires { i.0 < length (game_of self.now).scopes }
        ensures { (xs : List Seen) → StandsAt self.now i.0 xs → result ≡ settled_at (game_of self.now) i.0 xs }
    {
        self.joins[i.0 as usize].is_settled()
    }
}
