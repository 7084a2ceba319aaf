//! Constraints that hold throughout a box, and constraints that hold nowhere in it.
ghost use Rattle.std.specs.Prelude.{◌≡◌, ◌≤◌, ◌-◌, suc, length, take, drop};
ghost use Rattle.qc_model.specs.Block.{constraints_within};
ghost use Rattle.qc_model.specs.Game.{restriction};
ghost use Rattle.dense_tree.specs.Tuples.{all_hold, some_fails};
ghost use Rattle.lemma_reasons.specs.Asked.{IsFullBox};

use fd_store::Store;
use lemma_reasons::is_entailed;
use model_arguments::Span;
use model_levels::Levels;
use qc_model::{ConId, Problem, ScopeId};
use qc_refuter::refutes;

// Whether the box entails all constraints in a row.
fn span_entailed(problem: &Problem, span: Span, store: &Store) -> bool
    requires within { span.end ≤ length problem.now.constraints }
    requires left { IsFullBox problem.now store.now.box }
    ensures { result ≡ all_hold (take (span.end - span.first) (drop span.first problem.now.constraints)) store.now.box }
{
    problem.known();
    for k in span.first..span.end {
        if !is_entailed(problem, ConId(k as u16), store) {
            return false;
        }
    }
    true
}

// Whether the box refutes one of the constraints in a row.
fn span_refuted(problem: &Problem, span: Span, store: &Store) -> bool
    requires within { span.end ≤ length problem.now.constraints }
    requires left { IsFullBox problem.now store.now.box }
    ensures { result ≡ some_fails (take (span.end - span.first) (drop span.first problem.now.constraints)) store.now.box }
{
    problem.known();
    for k in span.first..span.end {
        if refutes(problem, ConId(k as u16), store) {
            return true;
        }
    }
    false
}

/// Whether the box entails all constraints of the scopes, or the goal, from one to another.
pub fn all_entailed(levels: &Levels, from: ScopeId, last: ScopeId, store: &Store) -> bool
    requires order { from.0 ≤ last.0 }
    requires scope { last.0 ≤ length levels.now.problem.now.scopes }
    requires left { IsFullBox levels.now.problem.now store.now.box }
    ensures { result ≡ all_hold (constraints_within levels.now.problem.now from.0 (suc last.0)) store.now.box }
{
    span_entailed(
        levels.problem,
        levels.constraints_between(from, last),
        store,
    )
}

/// Whether the box entails the restriction of scope i, or the goal where i is the number of scopes.
pub fn is_entailed_throughout(levels: &Levels, i: ScopeId, store: &Store) -> bool
    requires scope { i.0 ≤ length levels.now.problem.now.scopes }
    requires left { IsFullBox levels.now.problem.now store.now.box }
    ensures { result ≡ all_hold (restriction levels.now.problem.now i.0) store.now.box }
{
    all_entailed(levels, i, i, store)
}

/// Whether the box refutes a constraint of scope i, or of the goal where i is the number of scopes.
pub fn some_refuted(levels: &Levels, i: ScopeId, store: &Store) -> bool
    requires scope { i.0 ≤ length levels.now.problem.now.scopes }
    requires left { IsFullBox levels.now.problem.now store.now.box }
    ensures { result ≡ some_fails (restriction levels.now.problem.now i.0) store.now.box }
{
    span_refuted(levels.problem, levels.constraints_between(i, i), store)
}
