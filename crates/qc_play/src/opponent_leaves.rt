//! The leaves of a scope of the opponent.
ghost use Rattle.std.specs.Prelude.{◌≡◌, ◌++◌, [], ◌∷◌, ℕ, List, ℤ, length, drop, map, OnOk, IfOk, IsTrue, Option};
ghost use Rattle.qc_model.specs.declared.problem.Kind.TheVariants.{Forall};
ghost use Rattle.qc_model.specs.declared.problem.Condition.{Condition as Wish};
ghost use Rattle.qc_model.specs.Content.{Game};
ghost use Rattle.qc_model.specs.Valid.{IsValid};
ghost use Rattle.qc_model.specs.Verdict.{is_lost, is_exact, each_node};
ghost use Rattle.joins.specs.Seen.{verdict_of};
ghost use Rattle.proof_tree.specs.Finding.{Finding, Leaf, leaf_node, kind_finding, seen_of};
ghost use Rattle.qc_play.specs.Shape.{tree_of_counter};
ghost use Rattle.qc_play.specs.Entries.{KeepsFirst, lost_choice as lost_choice_of};

use crate::counter::{Counter, CounterEntry};
use crate::numbers::tuple_of;
use crate::plan::{Plan, PlanEntry, PlanList};
use crate::shown::Shown;
use joins::Found;
use qc_model::Numbers;
use std::alloc::{AllocError, Global};

/// What is gathered of them. Where the scope is lost, its counterstrategy takes the first lost leaf; where it is exact,
/// its strategy answers each. An exact scope has only exact leaves that go on, so no answer is kept to others.
#[derive(Drop)]
pub(crate) struct OpponentLeaves {
    alloc: Global,
    // how many variables stand before the scope
    pub(crate) before: usize,
    pub(crate) first: Option<CounterEntry>,
    pub(crate) answers: PlanList,
}

/// Takes the leaf, which is lost, where none was before.
fn keep_first(first: &mut Option<CounterEntry>, tuple: Numbers, counter: Counter)
    ensures { (n : ℕ) (ls : List Leaf) (w : List ℤ) (f : Finding) → KeepsFirst n first.old ls → IsTrue (is_lost f.verdict) → tuple ≡ drop n w → tree_of_counter counter ≡ f.counter → KeepsFirst n first.new (ls ++ leaf_node w f ∷ []) }
{
    if first.is_none() {
        *first = Some(CounterEntry { tuple, counter });
    }
}

/// The choice of the lost leaf, and of none the end.
fn lost_choice(alloc: Global, first: Option<CounterEntry>) -> Result<Counter, AllocError>
    ensures { IfOk result (λ counter. tree_of_counter counter ≡ lost_choice_of first) }
{
    match first {
        None => Ok(Counter::End),
        Some(CounterEntry { tuple, counter }) => {
            Ok(Counter::Take(tuple, Box::new(alloc, counter)?))
        }
    }
}

impl OpponentLeaves {
    ghost use Rattle.qc_play.specs.Shown.{Shows};
    ghost use Rattle.proof_meaning.specs.Answered.{GoOnWithAll};
    ghost use Rattle.qc_play.specs.Gathers.{GathersOpponent};

    /// None so far.
    pub(crate) fn new(alloc: Global, before: usize) -> OpponentLeaves
        ensures none { GathersOpponent result [] }
        ensures before { result.before ≡ before }
    {
        OpponentLeaves {
            alloc,
            before,
            first: None,
            answers: PlanList::new(alloc),
        }
    }

    /// Takes a leaf that goes on with these values to a node that comes to `shown`, with this vector.
    pub(crate) fn add(&mut self, values: &[i64], shown: Shown) -> Result<(), AllocError>
        ensures leaf { OnOk result ((ls : List Leaf) (v : List ℤ) (f : Finding) → GathersOpponent self.old ls → Shows f v shown → GathersOpponent self.new (ls ++ leaf_node values.now f ∷ [])) }
        ensures before { self.new.before ≡ self.old.before }
    {
        let tuple = tuple_of(self.alloc, values, self.before)?;
        let Shown {
            found,
            plan,
            counter,
        } = shown;
        match found {
            Found::Exact => self.answers.push(PlanEntry { tuple, plan }),
            Found::Lost => {
                keep_first(&mut self.first, tuple, counter);
                Ok(())
            }
            Found::AtMost(_bound) => Ok(()),
            Found::Unknown => Ok(()),
        }
    }

    /// What the scope comes to, which is `found`, with its trees of choices. The answers are sorted, in a time of
    /// n log n comparisons of tuples.
    pub(crate) fn finish(self, found: Found) -> Result<Shown, AllocError>
        ensures { IfOk result (λ shown. (g : Game) (own : Option Wish) (i : ℕ) (d : List Wish) (a v : List ℤ) (ls : List Leaf) → length a ≡ self.before → IsValid g × (IsTrue (each_node is_exact (map seen_of ls)) → GoOnWithAll g i a ls) → GathersOpponent self ls → verdict_of found v ≡ (kind_finding Forall own g i d a ls).verdict → Shows (kind_finding Forall own g i d a ls) v shown) }
    {
        let OpponentLeaves {
            alloc,
            before: _,
            first,
            mut answers,
        } = self;
        answers.sort();
        Ok(Shown {
            found,
            plan: Plan::Answer(answers),
            counter: lost_choice(alloc, first)?,
        })
    }
}
