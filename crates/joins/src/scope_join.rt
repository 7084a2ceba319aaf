//! The join of one scope, of either kind.
ghost use Rattle.std.specs.Prelude.{◌≡◌, ◌≤◌, ◌<◌, IfOk, ℕ, List, ℤ, Option, Some, [], ◌∷◌, ◌++◌, slice_get};
ghost use Rattle.qc_model.specs.declared.problem.Scope.{Scope as OneScope};
ghost use Rattle.qc_model.specs.declared.problem.Condition.{Condition};
ghost use Rattle.qc_model.specs.Content.{Game};
ghost use Rattle.qc_model.specs.Demands.{demands as demands_of};
ghost use Rattle.qc_model.specs.Verdict.{Seen, seen_barred, seen_skipped, seen_bound, seen_node};
ghost use Rattle.joins.specs.Seen.{verdict_of, seen_of, IsAsLong};
ghost use Rattle.joins.specs.Columns.{IsSmall, StaySmall};
ghost use Rattle.joins.specs.ScopeJoins.{HasEach};
ghost use Rattle.joins.specs.Verdicts.{kind_verdict, kind_own, kind_settled, kind_wishes, kind_incumbent, kind_side};

use crate::{ExistsJoin, ForallJoin, Found, Leaf, Value};
use qc_model::Condition as Wish;

/// The join of a scope of the player, or of the opponent.
#[derive(Drop)]
pub(crate) enum ScopeJoin {
    Exists(ExistsJoin),
    Forall(ForallJoin),
}

/// What a node came to, as a leaf.
fn leaf_of(found: Found, out: &[i64]) -> Leaf<'_>
    ensures seen { seen_of result ≡ seen_node (verdict_of found out.now) }
    ensures long { (d : List Condition) → HasEach d (verdict_of found out.now) → IsAsLong result d }
    ensures small { (xs : List Seen) → IsSmall (xs ++ seen_node (verdict_of found out.now) ∷ []) → StaySmall xs result }
{
    match found {
        Found::Lost => Leaf::Lost,
        Found::Exact => Leaf::Exact(out),
        Found::AtMost(best) => Leaf::AtMost(best),
        Found::Unknown => Leaf::Unknown,
    }
}

impl ScopeJoin {
    ghost use Rattle.joins.specs.ScopeJoins.{StandsFor, JoinsScope, KeepsScope, IsTaken, HasRoom};

    /// Takes all leaves and bounds out.
    pub(crate) fn clear(&mut self)
        ensures stands { StandsFor self.new [] }
        ensures scope { KeepsScope self.old self.new }
    {
        match self {
            ScopeJoin::Exists(join) => join.clear(),
            ScopeJoin::Forall(join) => join.clear(),
        }
    }

    /// Takes a leaf where the restriction doesn't hold.
    pub(crate) fn add_barred(&mut self)
        ensures stands { (xs : List Seen) → StandsFor self.old xs → StandsFor self.new (xs ++ seen_barred ∷ []) }
        ensures scope { KeepsScope self.old self.new }
    {
        match self {
            ScopeJoin::Exists(join) => join.add(Leaf::Barred),
            ScopeJoin::Forall(join) => join.add(Leaf::Barred),
        }
    }

    /// Takes a leaf whose values were left out.
    pub(crate) fn add_skipped(&mut self)
        ensures stands { (xs : List Seen) → StandsFor self.old xs → StandsFor self.new (xs ++ seen_skipped ∷ []) }
        ensures scope { KeepsScope self.old self.new }
    {
        match self {
            ScopeJoin::Exists(join) => join.add(Leaf::Skipped),
            ScopeJoin::Forall(join) => join.add(Leaf::Skipped),
        }
    }

    /// Takes the mark of a bound. It says nothing of a scope of the opponent.
    pub(crate) fn add_bound(&mut self, best: i64)
        ensures stands { (xs : List Seen) → StandsFor self.old xs → StandsFor self.new (xs ++ seen_bound best ∷ []) }
        ensures scope { KeepsScope self.old self.new }
    {
        match self {
            ScopeJoin::Exists(join) => join.add_bound(best),
            ScopeJoin::Forall(_join) => {}
        }
    }

    /// Takes what a node came to, with the vector `out` where it is exact.
    pub(crate) fn add_node(&mut self, found: Found, out: &[i64])
        ensures stands { (xs : List Seen) → StandsFor self.old xs → IsTaken self.old xs (verdict_of found out.now) → StandsFor self.new (xs ++ seen_node (verdict_of found out.now) ∷ []) }
        ensures scope { KeepsScope self.old self.new }
    {
        match self {
            ScopeJoin::Exists(join) => join.add(leaf_of(found, out)),
            ScopeJoin::Forall(join) => join.add(leaf_of(found, out)),
        }
    }

    /// What the leaves and bounds come to, at the values of the variables before the scope.
    pub(crate) fn finish(&self, values: &[i64], out: &mut Value) -> Found
        requires { HasRoom self.now out.old.list.capacity }
        ensures verdict { (g : Game) (i : ℕ) (s : OneScope) (xs : List Seen) → JoinsScope g i s self.now → StandsFor self.now xs → verdict_of result out.new.list.items ≡ kind_verdict s.kind s.condition g (demands_of g i) values.now xs }
        ensures room { out.old.list.capacity ≤ out.new.list.capacity }
    {
        match self {
            ScopeJoin::Exists(join) => join.finish(values, out),
            ScopeJoin::Forall(join) => join.finish(values, out),
        }
    }

    /// The value of the scope's own condition.
    pub(crate) fn own(&self) -> Option<i64>
        ensures { (g : Game) (i : ℕ) (s : OneScope) (xs : List Seen) → JoinsScope g i s self.now → StandsFor self.now xs → result ≡ kind_own s.kind s.condition g (demands_of g i) xs }
    {
        match self {
            ScopeJoin::Exists(join) => join.own(),
            ScopeJoin::Forall(_join) => None,
        }
    }

    /// What is demanded after a scope of the player; nothing after one of the opponent.
    pub(crate) fn wishes(&self) -> &[Wish]
        ensures { (g : Game) (i : ℕ) (s : OneScope) → JoinsScope g i s self.now → result.now ≡ kind_wishes s.kind s.condition g (demands_of g i) }
    {
        match self {
            ScopeJoin::Exists(join) => join.wishes(),
            ScopeJoin::Forall(_join) => &[],
        }
    }

    /// The first value of the best vector so far, of a scope of the player.
    pub(crate) fn incumbent(&self) -> Option<i64>
        ensures { (g : Game) (i : ℕ) (s : OneScope) (xs : List Seen) → JoinsScope g i s self.now → StandsFor self.now xs → result ≡ kind_incumbent s.kind s.condition g (demands_of g i) xs }
    {
        match self {
            ScopeJoin::Exists(join) => join.incumbent(),
            ScopeJoin::Forall(_join) => None,
        }
    }

    /// The bound that the leaves so far of a scope of the opponent give by themselves.
    pub(crate) fn side_bound(&self) -> Option<i64>
        ensures { (g : Game) (i : ℕ) (s : OneScope) (xs : List Seen) → JoinsScope g i s self.now → StandsFor self.now xs → result ≡ kind_side s.kind g (demands_of g i) xs }
    {
        match self {
            ScopeJoin::Exists(_join) => None,
            ScopeJoin::Forall(join) => join.side_bound(),
        }
    }

    /// Whether no further leaf changes what they come to.
    pub(crate) fn is_settled(&self) -> bool
        ensures { (g : Game) (i : ℕ) (s : OneScope) (xs : List Seen) → JoinsScope g i s self.now → StandsFor self.now xs → result ≡ kind_settled s.kind s.condition g (demands_of g i) xs }
    {
        match self {
            ScopeJoin::Exists(join) => join.is_settled(),
            ScopeJoin::Forall(join) => join.is_settled(),
        }
    }
}
