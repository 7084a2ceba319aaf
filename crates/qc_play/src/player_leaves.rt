//! The leaves of a scope of the player.
ghost use Rattle.std.specs.Prelude.{◌≡◌, ◌++◌, [], ◌∷◌, ℕ, List, ℤ, length, OnOk, IfOk, Option};
ghost use Rattle.qc_model.specs.declared.problem.Kind.TheVariants.{Exists};
ghost use Rattle.qc_model.specs.declared.problem.Condition.{Condition as Wish};
ghost use Rattle.qc_model.specs.Content.{Game};
ghost use Rattle.qc_model.specs.Demands.{demands_after};
ghost use Rattle.joins.specs.Seen.{verdict_of};
ghost use Rattle.proof_tree.specs.Finding.{Finding, Leaf, leaf_node, kind_finding};

use crate::best::{Best, best_choice, keep_best};
use crate::counter::{Counter, CounterEntry, CounterList};
use crate::numbers::tuple_of;
use crate::shown::Shown;
use joins::Found;
use qc_model::Condition;
use std::alloc::{AllocError, Global};

/// What is gathered of them. Where the scope is exact, its strategy takes the first of the leaves with the best vector;
/// where it is lost, its counterstrategy replies to each. A lost scope has only lost leaves that go on, so no reply is
/// kept to others.
#[derive(Drop)]
pub(crate) struct PlayerLeaves<'p> {
    alloc: Global,
    // what is demanded after the scope, and how many variables stand before it
    pub(crate) wishes: &'p [Condition],
    pub(crate) before: usize,
    pub(crate) best: Option<Best>,
    pub(crate) replies: CounterList,
}

impl<'p> PlayerLeaves<'p> {
    ghost use Rattle.qc_play.specs.Shown.{Shows};
    ghost use Rattle.qc_play.specs.Gathers.{GathersPlayer};

    /// None so far.
    pub(crate) fn new(alloc: Global, wishes: &'p [Condition], before: usize) -> PlayerLeaves<'p>
        ensures none { GathersPlayer result [] }
        ensures wishes { result.wishes.now ≡ wishes.now }
        ensures before { result.before ≡ before }
    {
        PlayerLeaves {
            alloc,
            wishes,
            before,
            best: None,
            replies: CounterList::new(alloc),
        }
    }

    /// Takes a leaf that goes on with these values to a node that comes to `shown`, with this vector.
    pub(crate) fn add(
        &mut self,
        values: &[i64],
        vector: &[i64],
        shown: Shown,
    ) -> Result<(), AllocError>
        ensures leaf { OnOk result ((ls : List Leaf) (f : Finding) → GathersPlayer self.old ls → Shows f vector.now shown → GathersPlayer self.new (ls ++ leaf_node values.now f ∷ [])) }
        ensures wishes { self.new.wishes.now ≡ self.old.wishes.now }
        ensures before { self.new.before ≡ self.old.before }
    {
        let tuple = tuple_of(self.alloc, values, self.before)?;
        let Shown {
            found,
            plan,
            counter,
        } = shown;
        match found {
            Found::Exact => keep_best(self.alloc, &mut self.best, self.wishes, tuple, vector, plan),
            Found::Lost => self.replies.push(CounterEntry { tuple, counter }),
            Found::AtMost(_bound) => Ok(()),
            Found::Unknown => Ok(()),
        }
    }

    /// What the scope comes to, which is `found`, with its trees of choices.
    pub(crate) fn finish(self, found: Found) -> Result<Shown, AllocError>
        ensures { IfOk result (λ shown. (g : Game) (own : Option Wish) (i : ℕ) (d : List Wish) (a v : List ℤ) (ls : List Leaf) → length a ≡ self.entry.before → demands_after g Exists own d ≡ self.entry.wishes.now → GathersPlayer self.entry ls → verdict_of found v ≡ (kind_finding Exists own g i d a ls).verdict → Shows (kind_finding Exists own g i d a ls) v shown) }
    {
        let PlayerLeaves {
            alloc,
            wishes: _,
            before: _,
            best,
            replies,
        } = self;
        Ok(Shown {
            found,
            plan: best_choice(alloc, best)?,
            counter: Counter::Reply(replies),
        })
    }
}
