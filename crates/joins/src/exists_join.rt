//! What the leaves and bounds of an existential scope's own tree come to.
ghost use Rattle.std.specs.Prelude.{◌≡◌, ◌≤◌, ◌<◌, IfOk, [], ◌∷◌, ◌++◌, ◌&&◌, length, List, ℤ, IsFalse};
ghost use Rattle.qc_model.specs.Optimal.{is_better as is_better_number};
ghost use Rattle.qc_model.specs.Demands.{is_better_vector as is_better_vector_of};
ghost use Rattle.qc_model.specs.Verdict.{Seen, seen_bound, seen_skipped, seen_node, exact, at_most, unknown, is_exact, is_none_of, some_node, exact_vectors};
ghost use Rattle.qc_model.specs.ExistsVerdict.{exists_verdict, exists_own, best_vector, without_own as without_own_value};
ghost use Rattle.joins.specs.Seen.{seen_of, verdict_of, is_exact_answer, IsAsLong};
ghost use Rattle.joins.specs.Bests.{better_of as better_of_two, bound_with as bound_with_of, bound_in as bound_in_of, beats_bound, best_known as best_known_of, is_settled as is_settled_by, bounded as bounded_by, unsettled as unsettled_by, own_list, kept_vector, incumbent_by};

use crate::demands::Demands;
use crate::leaves::{Found, Leaf};
use crate::numbers::first_value;
use crate::order::compare;
use crate::values::Value;
use qc_model::{Condition, Problem, ScopeId, Sense};
use std::alloc::{AllocError, Global};
use std::cmp::Ordering;

/// Joins the leaves of a scope of the player.
#[derive(Drop)]
pub struct ExistsJoin {
    // the scope's own condition, and the list after the scope
    pub(crate) condition: Option<Condition>,
    pub(crate) list: Vec<Condition>,
    // every leaf is lost or barred
    pub(crate) all_lost: bool,
    // some leaf tells nothing
    pub(crate) is_open: bool,
    // some leaf is exact, and of the vectors of such leaves the best, the first of equal ones
    pub(crate) has_exact: bool,
    pub(crate) best: Value,
    // the best bound
    pub(crate) bound: Option<i64>,
    pub ghost short: { length best.list.items ≤ length list.items },
    pub ghost room: { length list.items ≤ best.list.capacity },
}

fn is_better_vector(list: &[Condition], v: &[i64], w: &[i64]) -> bool
    ensures { result ≡ is_better_vector_of list.now v.now w.now }
{
    compare(list, v, w) == Ordering::Less
}

/// Takes the vector in place of the best one, where there is none or the vector is better.
fn keep_better(best: &mut Value, list: &[Condition], has_exact: bool, vector: &[i64])
    requires short { length best.old.list.items ≤ length vector.now }
    requires room { length vector.now ≤ best.old.list.capacity }
    ensures kept { best.new.list.items ≡ kept_vector list.now has_exact best.old.list.items vector.now }
    ensures short { length best.new.list.items ≤ length vector.now }
    ensures room { best.old.list.capacity ≤ best.new.list.capacity }
{
    if !has_exact || is_better_vector(list, vector, best.items()) {
        best.set(vector);
    }
}

/// The best bound with one more.
fn bound_with(sense: Sense, bound: Option<i64>, n: i64) -> Option<i64>
    ensures { result ≡ bound_with_of sense bound n }
{
    match bound {
        Some(bound) => Some(better_of(sense, bound, n)),
        None => Some(n),
    }
}

fn bound_in(list: &[Condition], bound: Option<i64>, n: i64) -> Option<i64>
    ensures { result ≡ bound_in_of list.now bound n }
{
    match list.split_first() {
        Some((first, _rest)) => bound_with(first.sense, bound, n),
        None => bound,
    }
}

/// The better of two numbers; of equal ones the first.
fn better_of(sense: Sense, n: i64, m: i64) -> i64
    ensures { result ≡ better_of_two sense n m }
{
    if is_better(sense, m, n) { m } else { n }
}

fn is_better(sense: Sense, x: i64, y: i64) -> bool
    ensures { result ≡ is_better_number sense x y }
{
    match sense {
        Sense::Min => x < y,
        Sense::Max => y < x,
    }
}

fn beats(sense: Sense, is_alone: bool, n: i64, bound: Option<i64>) -> bool
    ensures { result ≡ beats_bound sense is_alone n bound }
{
    match bound {
        Some(bound) => is_better(sense, n, bound) || (is_alone && n == bound),
        None => true,
    }
}

/// The best number known: the first value n of the best vector, where there is one, and the bound.
fn best_known(sense: Sense, has_exact: bool, n: i64, bound: Option<i64>) -> i64
    ensures { result ≡ best_known_of sense has_exact n bound }
{
    match bound {
        Some(bound) => {
            if has_exact {
                better_of(sense, n, bound)
            } else {
                bound
            }
        }
        None => n,
    }
}

/// The vector without its first value, where the scope has a condition.
fn without_own(condition: Option<Condition>, items: &[i64]) -> &[i64]
    ensures { result.now ≡ without_own_value condition items.now }
{
    match condition {
        Some(_) => match items.split_first() {
            Some((_own, rest)) => rest,
            None => items,
        },
        None => items,
    }
}

impl ExistsJoin {
    ghost use Rattle.joins.specs.ExistsJoin.{StandsFor, JoinsScope, JoinsAs};
    ghost use Rattle.joins.specs.DemandLists.{HasLists};

    /// A join of no leaf, for an existential scope.
    pub fn new(
        alloc: Global,
        problem: &Problem,
        demands: &Demands,
        i: ScopeId,
    ) -> Result<ExistsJoin, AllocError>
        requires scope { i.0 < length problem.now.scopes }
        requires lists { HasLists problem.now demands.now }
        ensures stands { IfOk result (λ join. StandsFor join []) }
        ensures scope { IfOk result (JoinsScope problem.now i.0) }
    {
        problem.known();
        let list = demands.list(ScopeId(i.0 + 1));
        Ok(ExistsJoin {
            condition: problem.scope(i).condition,
            list: Vec::from_slice(alloc, list)?,
            all_lost: true,
            is_open: false,
            has_exact: false,
            best: Value::new(alloc, list.len())?,
            bound: None,
        })
    }

    /// Takes a leaf. An exact one has a value for each entry of the list after the scope; of another
    /// length it is left aside, and nothing is said of the join until it is cleared.
    pub fn add(&mut self, leaf: Leaf<'_>)
        ensures stands { (xs : List Seen) → StandsFor self.old xs → IsAsLong leaf.entry self.old.list.items → StandsFor self.new (xs ++ seen_of leaf.entry ∷ []) }
        ensures scope { JoinsAs self.old self.new }
    {
        match leaf {
            Leaf::Barred => {}
            Leaf::Lost => {}
            Leaf::Exact(vector) => self.add_vector(vector),
            Leaf::AtMost(best) => self.add_at_most(best),
            Leaf::Unknown => self.add_unknown(),
            Leaf::Skipped => self.add_skipped(),
        }
    }

    fn add_vector(&mut self, vector: &[i64])
        ensures stands { (xs : List Seen) → StandsFor self.old xs → length vector.now ≡ length self.old.list.items → StandsFor self.new (xs ++ seen_node (exact vector.now) ∷ []) }
        ensures scope { JoinsAs self.old self.new }
    {
        if vector.len() == self.list.len() {
            self.add_exact(vector);
        }
    }

    fn add_unknown(&mut self)
        ensures stands { (xs : List Seen) → StandsFor self.old xs → StandsFor self.new (xs ++ seen_node unknown ∷ []) }
        ensures scope { JoinsAs self.old self.new }
    {
        self.all_lost = false;
        self.is_open = true;
    }

    fn add_skipped(&mut self)
        ensures stands { (xs : List Seen) → StandsFor self.old xs → StandsFor self.new (xs ++ seen_skipped ∷ []) }
        ensures scope { JoinsAs self.old self.new }
    {
        self.all_lost = false;
        self.is_open = true;
    }

    fn add_at_most(&mut self, best: i64)
        ensures stands { (xs : List Seen) → StandsFor self.old xs → StandsFor self.new (xs ++ seen_node (at_most best) ∷ []) }
        ensures scope { JoinsAs self.old self.new }
    {
        self.all_lost = false;
        self.bound = bound_in(self.list.as_slice(), self.bound, best);
    }

    fn add_exact(&mut self, vector: &[i64])
        requires { length vector.now ≡ length self.old.list.items }
        ensures stands { (xs : List Seen) → StandsFor self.old xs → StandsFor self.new (xs ++ seen_node (exact vector.now) ∷ []) }
        ensures scope { JoinsAs self.old self.new }
    {
        self.all_lost = false;
        keep_better(&mut self.best, self.list.as_slice(), self.has_exact, vector);
        self.has_exact = true;
    }

    /// Takes the mark of a bound: no strategy whose choices it stands for has a better first value.
    pub fn add_bound(&mut self, best: i64)
        ensures stands { (xs : List Seen) → StandsFor self.old xs → StandsFor self.new (xs ++ seen_bound best ∷ []) }
        ensures scope { JoinsAs self.old self.new }
    {
        self.bound = bound_in(self.list.as_slice(), self.bound, best);
    }

    /// Takes all leaves and bounds out.
    pub fn clear(&mut self)
        ensures stands { StandsFor self.new [] }
        ensures scope { JoinsAs self.old self.new }
    {
        self.all_lost = true;
        self.is_open = false;
        self.has_exact = false;
        self.best.set(&[]);
        self.bound = None;
    }

    /// What is demanded after the scope.
    pub fn wishes(&self) -> &[Condition]
        ensures { result.now ≡ self.now.list.items }
    {
        self.list.as_slice()
    }

    /// The incumbent: the first value of the best vector so far. None comes exactly where no leaf is exact.
    pub fn incumbent(&self) -> Option<i64>
        ensures { (xs : List Seen) → StandsFor self.now xs → result ≡ incumbent_by (some_node is_exact xs) (best_vector self.now.list.items (exact_vectors xs)) }
    {
        if self.has_exact {
            Some(first_value(self.best.items()))
        } else {
            None
        }
    }

    /// Whether some leaf is exact and nothing is demanded after the scope. Then no further leaf changes
    /// what the leaves come to.
    pub fn is_settled(&self) -> bool
        ensures { (xs : List Seen) → StandsFor self.now xs → result ≡ (is_none_of self.now.list.items && some_node is_exact xs) }
    {
        self.list.is_empty() && self.has_exact
    }

    /// Whether the best vector is known to be the best.
    fn has_best(&self) -> bool
        ensures { result ≡ is_settled_by self.now.list.items self.now.all_lost self.now.is_open self.now.has_exact self.now.best.list.items self.now.bound }
    {
        match self.list.split_first() {
            Some((first, rest)) => {
                !(self.all_lost && self.bound.is_none())
                    && (!self.is_open
                        && (self.has_exact
                            && beats(
                                first.sense,
                                rest.is_empty(),
                                first_value(self.best.items()),
                                self.bound,
                            )))
            }
            None => self.has_exact,
        }
    }

    /// What the leaves come to, where the best vector isn't known to be the best.
    fn unsettled(&self) -> Found
        ensures verdict { (v : List ℤ) → verdict_of result v ≡ unsettled_by self.now.condition self.now.list.items self.now.all_lost self.now.is_open self.now.has_exact self.now.best.list.items self.now.bound }
        ensures not_exact { IsFalse (is_exact_answer result) }
    {
        match self.list.first() {
            Some(first) => self.bounded(first.sense),
            None => {
                if self.all_lost {
                    Found::Lost
                } else {
                    Found::Unknown
                }
            }
        }
    }

    fn bounded(&self, sense: Sense) -> Found
        ensures verdict { (v : List ℤ) → verdict_of result v ≡ bounded_by self.now.condition sense self.now.all_lost self.now.is_open self.now.has_exact self.now.best.list.items self.now.bound }
        ensures not_exact { IsFalse (is_exact_answer result) }
    {
        if self.all_lost && self.bound.is_none() {
            Found::Lost
        } else if self.is_open {
            Found::Unknown
        } else if self.condition.is_none() {
            Found::AtMost(best_known(
                sense,
                self.has_exact,
                first_value(self.best.items()),
                self.bound,
            ))
        } else {
            Found::Unknown
        }
    }

    /// What the leaves and bounds come to. Where it is exact, `out` holds the vector for the scope's own
    /// list; otherwise it is as before. The values of the variables, for which a universal scope asks, are
    /// not needed.
    pub fn finish(&self, _values: &[i64], out: &mut Value) -> Found
        requires { length (own_list self.now.condition self.now.list.items) ≤ out.old.list.capacity }
        ensures verdict { (xs : List Seen) → StandsFor self.now xs → verdict_of result out.new.list.items ≡ exists_verdict self.now.condition self.now.list.items xs }
        ensures kept { IsFalse (is_exact_answer result) → out.new ≡ out.old }
        ensures room { out.old.list.capacity ≤ out.new.list.capacity }
    {
        if self.has_best() {
            out.set(without_own(self.condition, self.best.items()));
            Found::Exact
        } else {
            self.unsettled()
        }
    }

    /// The value of the scope's own condition. None comes exactly where the scope has no condition or
    /// the leaves and bounds don't come to exact.
    pub fn own(&self) -> Option<i64>
        ensures { (xs : List Seen) → StandsFor self.now xs → result ≡ exists_own self.now.condition self.now.list.items xs }
    {
        match self.condition {
            Some(_) => {
                if self.has_best() {
                    Some(first_value(self.best.items()))
                } else {
                    None
                }
            }
            None => None,
        }
    }
}
