//! The trees of choices of a scope, gathered from the leaves of its own tree.
ghost use Rattle.std.specs.Prelude.{◌≡◌, ◌++◌, [], ◌∷◌, ℕ, List, ℤ, length, OnOk, IfOk, Option};
ghost use Rattle.qc_model.specs.declared.problem.Kind.TheVariants.{Exists, Forall};
ghost use Rattle.qc_model.specs.declared.problem.Condition.{Condition as Wish};
ghost use Rattle.qc_model.specs.Content.{Game};
ghost use Rattle.joins.specs.Seen.{verdict_of};
ghost use Rattle.proof_tree.specs.Finding.{Finding, Leaf, leaf_node, kind_finding};

use crate::opponent_leaves::OpponentLeaves;
use crate::player_leaves::PlayerLeaves;
use crate::shown::Shown;
use joins::Found;
use qc_model::{Condition, Kind};
use std::alloc::{AllocError, Global};

/// The leaves of a scope's own tree so far, as far as they go on.
#[derive(Drop)]
pub(crate) enum Gathering<'p> {
    Player(PlayerLeaves<'p>),
    Opponent(OpponentLeaves),
}

impl<'p> Gathering<'p> {
    ghost use Rattle.qc_play.specs.Shown.{Shows};
    ghost use Rattle.qc_play.specs.Gathers.{Gathers, owner_of, wishes_of, count_before, IsSameScope, IsAtScope};

    /// None so far. `wishes` is what is demanded after the scope, where it is the player's, and `before` says how many
    /// variables stand before it.
    pub(crate) fn new(
        alloc: Global,
        kind: Kind,
        wishes: &'p [Condition],
        before: usize,
    ) -> Gathering<'p>
        ensures none { Gathers result [] }
        ensures owner { owner_of result ≡ kind }
        ensures wishes { kind ≡ Exists → wishes_of result ≡ wishes.now }
        ensures before { count_before result ≡ before }
    {
        match kind {
            Kind::Exists => Gathering::Player(PlayerLeaves::new(alloc, wishes, before)),
            Kind::Forall => Gathering::Opponent(OpponentLeaves::new(alloc, before)),
        }
    }

    /// Takes a leaf that goes on with these values, up to the scope's end, to a node that comes to `shown`, with this
    /// vector.
    pub(crate) fn add(
        &mut self,
        values: &[i64],
        vector: &[i64],
        shown: Shown,
    ) -> Result<(), AllocError>
        ensures leaf { OnOk result ((ls : List Leaf) (f : Finding) → Gathers self.old ls → Shows f vector.now shown → Gathers self.new (ls ++ leaf_node values.now f ∷ [])) }
        ensures scope { IsSameScope self.old self.new }
    {
        match self {
            Gathering::Player(leaves) => leaves.add(values, vector, shown),
            Gathering::Opponent(leaves) => leaves.add(values, shown),
        }
    }

    /// What the scope comes to, which is `found`, with its trees of choices. It takes memory for a choice alone, and the
    /// time to sort the leaves of an opponent's scope.
    pub(crate) fn finish(self, found: Found) -> Result<Shown, AllocError>
        ensures { IfOk result (λ shown. (g : Game) (own : Option Wish) (i : ℕ) (d : List Wish) (a v : List ℤ) (ls : List Leaf) → length a ≡ count_before self.entry → IsAtScope self.entry g own i d a ls → Gathers self.entry ls → verdict_of found v ≡ (kind_finding (owner_of self.entry) own g i d a ls).verdict → Shows (kind_finding (owner_of self.entry) own g i d a ls) v shown) }
    {
        match self {
            Gathering::Player(leaves) => leaves.finish(found),
            Gathering::Opponent(leaves) => leaves.finish(found),
        }
    }
}
