//! What the leaves of a universal scope's own tree come to.
ghost use Rattle.std.specs.Prelude.{◌≡◌, ◌≤◌, ◌<◌, IfOk, ℕ, [], ◌∷◌, ◌++◌, length, List, ℤ, IsFalse};
ghost use Rattle.qc_model.specs.Content.{Game};
ghost use Rattle.qc_model.specs.Demands.{demands};
ghost use Rattle.qc_model.specs.Verdict.{Seen, seen_skipped, seen_node, lost, exact, at_most, unknown, is_lost, some_node};
ghost use Rattle.qc_model.specs.ForallVerdict.{forall_verdict, known_numbers};
ghost use Rattle.joins.specs.Seen.{seen_of, verdict_of, is_exact_answer};
ghost use Rattle.joins.specs.Columns.{IsSmall, StaySmall, side_by, bound_by, bounded_by, is_one_sided as is_one_sided_by, side_by_source, side_by_columns, side_bound as side_bound_of, first_sense as first_sense_of};

use crate::columns::{
    Column, Source, add_vector, empty, fresh_columns, hand_out, known_of_none, known_with,
};
use crate::demands::Demands;
use crate::leaves::{Found, Leaf};
use crate::numbers::first_value;
use crate::values::Value;
use qc_model::{Condition, Fold, Problem, ScopeId, Sense};
use std::alloc::{AllocError, Global};

/// Joins the leaves of a scope of the opponent.
#[derive(Drop)]
pub struct ForallJoin {
    // the sense of the first entry of the scope's list
    pub(crate) sense: Sense,
    // a column for each entry of the scope's list
    pub(crate) columns: Vec<Column>,
    // some leaf is lost; every leaf that isn't barred is exact; of each the number is known
    pub(crate) any_lost: bool,
    pub(crate) all_exact: bool,
    pub(crate) all_known: bool,
    // some leaf is exact; of some the number is known
    pub(crate) has_exact: bool,
    pub(crate) any_known: bool,
    // the fold of the known numbers, by the first entry's aggregate
    pub(crate) known: i64,
}

/// The sense of the first entry.
fn first_sense(list: &[Condition]) -> Sense
    ensures { result ≡ first_sense_of list.now }
{
    match list.split_first() {
        Some((first, _rest)) => first.sense,
        None => Sense::Min,
    }
}

/// The bound that some of the branches give: the greatest of the numbers where less is better, the
/// least where more is.
fn side(sense: Sense, fold: Fold, known: i64) -> Found
    ensures verdict { (v : List ℤ) → verdict_of result v ≡ side_by sense fold known }
    ensures not_exact { IsFalse (is_exact_answer result) }
{
    match sense {
        Sense::Min => match fold {
            Fold::Greatest(_) => Found::AtMost(known),
            Fold::Sum => Found::Unknown,
            Fold::Least(_) => Found::Unknown,
        },
        Sense::Max => match fold {
            Fold::Least(_) => Found::AtMost(known),
            Fold::Sum => Found::Unknown,
            Fold::Greatest(_) => Found::Unknown,
        },
    }
}

/// Whether some of the branches alone bound the fold: the greatest where less is better, the least
/// where more is.
fn is_one_sided(sense: Sense, fold: Fold) -> bool
    ensures { result ≡ is_one_sided_by sense fold }
{
    match sense {
        Sense::Min => match fold {
            Fold::Greatest(_) => true,
            Fold::Sum => false,
            Fold::Least(_) => false,
        },
        Sense::Max => match fold {
            Fold::Least(_) => true,
            Fold::Sum => false,
            Fold::Greatest(_) => false,
        },
    }
}

/// The bound that some of the branches give by themselves.
fn side_number(sense: Sense, source: Source, any_known: bool, known: i64) -> Option<i64>
    ensures { result ≡ side_by_source sense source any_known known }
{
    match source {
        Source::Variable(_) => None,
        Source::Folded(fold, _) => {
            if any_known && is_one_sided(sense, fold) {
                Some(known)
            } else {
                None
            }
        }
        Source::Missing => None,
    }
}

/// What the scope comes to by its list's first entry, where it is neither lost nor exact.
fn bounded(sense: Sense, source: Source, all_known: bool, any_known: bool, known: i64) -> Found
    ensures verdict { (v : List ℤ) → verdict_of result v ≡ bound_by sense source all_known any_known known }
    ensures not_exact { IsFalse (is_exact_answer result) }
{
    match source {
        Source::Variable(_) => Found::Unknown,
        Source::Folded(fold, _) => {
            if all_known {
                Found::AtMost(known)
            } else if any_known {
                side(sense, fold, known)
            } else {
                Found::Unknown
            }
        }
        Source::Missing => {
            if all_known {
                Found::AtMost(0)
            } else {
                Found::Unknown
            }
        }
    }
}

impl ForallJoin {
    ghost use Rattle.joins.specs.ForallJoin.{StandsFor, JoinsScope, JoinsAs};
    ghost use Rattle.joins.specs.DemandLists.{HasLists};

    /// A join of no leaf, for a universal scope, or for the goal.
    pub fn new(
        alloc: Global,
        problem: &Problem,
        demands: &Demands,
        i: ScopeId,
    ) -> Result<ForallJoin, AllocError>
        requires scope { i.0 ≤ length problem.now.scopes }
        requires lists { HasLists problem.now demands.now }
        ensures stands { IfOk result (λ join. StandsFor join []) }
        ensures scope { IfOk result (JoinsScope problem.now i.0) }
    {
        problem.known();
        let list = demands.list(i);
        let columns = fresh_columns(alloc, problem, list)?;
        let known = known_of_none(columns.as_slice());
        Ok(ForallJoin {
            sense: first_sense(list),
            columns,
            any_lost: false,
            all_exact: true,
            all_known: true,
            has_exact: false,
            any_known: false,
            known,
        })
    }

    /// Takes a leaf. Sums may wrap where, at some place of the list after the scope, the absolute values
    /// of the numbers so far and of this leaf's sum to more than 2^62; the number of `AtMost` counts at
    /// the first place. Then nothing is said of the join until it is cleared.
    pub fn add(&mut self, leaf: Leaf<'_>)
        ensures stands { (xs : List Seen) → StandsFor self.old xs → StaySmall xs leaf.entry → StandsFor self.new (xs ++ seen_of leaf.entry ∷ []) }
        ensures scope { JoinsAs self.old self.new }
    {
        match leaf {
            Leaf::Barred => {}
            Leaf::Lost => self.add_lost(),
            Leaf::Exact(vector) => self.add_exact(vector),
            Leaf::AtMost(best) => self.add_at_most(best),
            Leaf::Unknown => self.add_unknown(),
            Leaf::Skipped => self.add_skipped(),
        }
    }

    fn add_lost(&mut self)
        ensures stands { (xs : List Seen) → StandsFor self.old xs → StandsFor self.new (xs ++ seen_node lost ∷ []) }
        ensures scope { JoinsAs self.old self.new }
    {
        self.any_lost = true;
        self.all_exact = false;
        self.all_known = false;
    }

    fn add_unknown(&mut self)
        ensures stands { (xs : List Seen) → StandsFor self.old xs → StandsFor self.new (xs ++ seen_node unknown ∷ []) }
        ensures scope { JoinsAs self.old self.new }
    {
        self.all_exact = false;
        self.all_known = false;
    }

    fn add_skipped(&mut self)
        ensures stands { (xs : List Seen) → StandsFor self.old xs → StandsFor self.new (xs ++ seen_skipped ∷ []) }
        ensures scope { JoinsAs self.old self.new }
    {
        self.all_exact = false;
        self.all_known = false;
    }

    fn add_at_most(&mut self, best: i64)
        ensures stands { (xs : List Seen) → StandsFor self.old xs → IsSmall (xs ++ seen_node (at_most best) ∷ []) → StandsFor self.new (xs ++ seen_node (at_most best) ∷ []) }
        ensures scope { JoinsAs self.old self.new }
    {
        self.all_exact = false;
        self.known = known_with(self.columns.as_slice(), self.any_known, self.known, best);
        self.any_known = true;
    }

    fn add_exact(&mut self, vector: &[i64])
        ensures stands { (xs : List Seen) → StandsFor self.old xs → IsSmall (xs ++ seen_node (exact vector.now) ∷ []) → StandsFor self.new (xs ++ seen_node (exact vector.now) ∷ []) }
        ensures scope { JoinsAs self.old self.new }
    {
        let first = first_value(vector);
        self.known = known_with(self.columns.as_slice(), self.any_known, self.known, first);
        add_vector(&mut self.columns, self.has_exact, vector);
        self.has_exact = true;
        self.any_known = true;
    }

    /// Takes all leaves out.
    pub fn clear(&mut self)
        ensures stands { StandsFor self.new [] }
        ensures scope { JoinsAs self.old self.new }
    {
        empty(&mut self.columns);
        self.any_lost = false;
        self.all_exact = true;
        self.all_known = true;
        self.has_exact = false;
        self.any_known = false;
        self.known = known_of_none(self.columns.as_slice());
    }

    /// Whether some leaf is lost. Then no further leaf changes what the leaves come to.
    pub fn is_settled(&self) -> bool
        ensures { (xs : List Seen) → StandsFor self.now xs → result ≡ some_node is_lost xs }
    {
        self.any_lost
    }

    /// The bound that the leaves so far give by themselves, whatever the others come to. None comes exactly where no number
    /// is known, or the list's first entry isn't an aggregate that some of the branches bound.
    pub fn side_bound(&self) -> Option<i64>
        ensures { (g : Game) (i : ℕ) (xs : List Seen) → JoinsScope g i self.now → StandsFor self.now xs → result ≡ side_bound_of g (demands g i) (known_numbers xs) }
    {
        self.side()
    }

    fn side(&self) -> Option<i64>
        ensures { result ≡ side_by_columns self.now.sense self.now.columns.items self.now.any_known self.now.known }
    {
        match self.columns.split_first() {
            Some((first, _rest)) => {
                side_number(self.sense, first.source, self.any_known, self.known)
            }
            None => None,
        }
    }

    /// What the leaves come to, where none is lost and not all are exact.
    fn unsettled(&self) -> Found
        ensures verdict { (v : List ℤ) → verdict_of result v ≡ bounded_by self.now.sense self.now.columns.items self.now.all_known self.now.any_known self.now.known }
        ensures not_exact { IsFalse (is_exact_answer result) }
    {
        match self.columns.split_first() {
            Some((first, _rest)) => bounded(
                self.sense,
                first.source,
                self.all_known,
                self.any_known,
                self.known,
            ),
            None => Found::Unknown,
        }
    }

    /// What the leaves come to. Where it is exact, `out` holds the vector for the scope's list at the
    /// values of the variables before the scope; otherwise it is as before.
    pub fn finish(&self, values: &[i64], out: &mut Value) -> Found
        requires { length self.now.columns.items ≤ out.old.list.capacity }
        ensures verdict { (g : Game) (i : ℕ) (xs : List Seen) → JoinsScope g i self.now → StandsFor self.now xs → verdict_of result out.new.list.items ≡ forall_verdict g (demands g i) values.now xs }
        ensures kept { IsFalse (is_exact_answer result) → out.new ≡ out.old }
        ensures room { out.old.list.capacity ≤ out.new.list.capacity }
    {
        if self.any_lost {
            Found::Lost
        } else if self.all_exact {
            hand_out(self.columns.as_slice(), values, out);
            Found::Exact
        } else {
            self.unsettled()
        }
    }
}
