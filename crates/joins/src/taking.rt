//! Leaves and bounds of a scope's own tree.
ghost use Rattle.std.specs.Prelude.{◌≡◌, ◌<◌, List, [], ◌∷◌, ◌++◌, length};
ghost use Rattle.qc_model.specs.Verdict.{Seen, seen_barred, seen_skipped, seen_bound, seen_node};
ghost use Rattle.joins.specs.Seen.{verdict_of};

use crate::Found;
use crate::joins::Joins;
use qc_model::ScopeId;

impl Joins<'_> {
    ghost use Rattle.joins.specs.Joins.{game_of, out_of, StandsAt, KeepsOthers, LeafFits};

    /// Takes all leaves and bounds of scope i out.
    pub fn clear(&mut self, i: ScopeId)
        requires { i.0 < length (game_of self.old).scopes }
        ensures stands { StandsAt self.new i.0 [] }
        ensures others { KeepsOthers i.0 self.old self.new }
        ensures same { game_of self.new ≡ game_of self.old }
        ensures out { out_of self.new ≡ out_of self.old }
    {
        self.joins[i.0 as usize].clear();
    }

    /// Takes a leaf of scope i where its restriction doesn't hold.
    pub fn add_barred(&mut self, i: ScopeId)
        requires { i.0 < length (game_of self.old).scopes }
        ensures stands { (xs : List Seen) → StandsAt self.old i.0 xs → StandsAt self.new i.0 (xs ++ seen_barred ∷ []) }
        ensures others { KeepsOthers i.0 self.old self.new }
        ensures same { game_of self.new ≡ game_of self.old }
        ensures out { out_of self.new ≡ out_of self.old }
    {
        self.joins[i.0 as usize].add_barred();
    }

    /// Takes a leaf of scope i whose values were left out.
    pub fn add_skipped(&mut self, i: ScopeId)
        requires { i.0 < length (game_of self.old).scopes }
        ensures stands { (xs : List Seen) → StandsAt self.old i.0 xs → StandsAt self.new i.0 (xs ++ seen_skipped ∷ []) }
        ensures others { KeepsOthers i.0 self.old self.new }
        ensures same { game_of self.new ≡ game_of self.old }
        ensures out { out_of self.new ≡ out_of self.old }
    {
        self.joins[i.0 as usize].add_skipped();
    }

    /// Takes the mark of a bound in scope i: no strategy whose choices it stands for has a better first
    /// value.
    pub fn add_bound(&mut self, i: ScopeId, best: i64)
        requires { i.0 < length (game_of self.old).scopes }
        ensures stands { (xs : List Seen) → StandsAt self.old i.0 xs → StandsAt self.new i.0 (xs ++ seen_bound best ∷ []) }
        ensures others { KeepsOthers i.0 self.old self.new }
        ensures same { game_of self.new ≡ game_of self.old }
        ensures out { out_of self.new ≡ out_of self.old }
    {
        self.joins[i.0 as usize].add_bound(best);
    }

    /// Takes what the node below a leaf of scope i came to, where it is exact with the vector that was
    /// handed out last. Of a vector of another length, and of numbers that aren't small beside those so
    /// far, nothing is said until scope i is cleared.
    pub fn add_node(&mut self, i: ScopeId, found: Found)
        requires { i.0 < length (game_of self.old).scopes }
        ensures stands { (xs : List Seen) → StandsAt self.old i.0 xs → LeafFits (game_of self.old) i.0 xs (verdict_of found (out_of self.old)) → StandsAt self.new i.0 (xs ++ seen_node (verdict_of found (out_of self.old)) ∷ []) }
        ensures others { KeepsOthers i.0 self.old self.new }
        ensures same { game_of self.new ≡ game_of self.old }
        ensures out { out_of self.new ≡ out_of self.old }
    {
        self.joins[i.0 as usize].add_node(found, self.out.items());
    }
}
