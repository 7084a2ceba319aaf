//! Moves of the opponent that have no answer.
ghost use Rattle.std.specs.Prelude.{◌≡◌, ◌<◌, ◌≤◌, ◌-◌, ◌||◌, length, slice_get, Some, take, drop, IsTrue, IsFalse};
ghost use Rattle.std.specs.List.{list_any};
ghost use Rattle.qc_model.specs.Closed.{refutes_at};
ghost use Rattle.qc_model.specs.Content.{Rule};
ghost use Rattle.qc_model.specs.Domains.{has_empty, values_left, least_value, greatest_value};
ghost use Rattle.model_arguments.specs.Asked.{is_box_of};
ghost use Rattle.dense_close.specs.Answerless.{is_open_move as is_open_move_in, is_answerless_by, is_answerless as is_answerless_in};
ghost use Rattle.dense_close.specs.Index.{IsIndexOf};

use crate::cutting::{End, refutes_end};
use crate::index::Index;
use dense_quiet::{is_universal, owner_of};
use fd_store::Store;
use model_arguments::Span;
use model_levels::Levels;
use qc_model::{ConId, Problem, ScopeId, VarId};

// Whether x is a variable of the opponent, of a scope without a restriction that has this number or a later one.
fn is_open_move(levels: &Levels, number: usize, x: VarId) -> bool
    ensures { result ≡ is_open_move_in levels.now.problem.now number x.0 }
{
    levels.problem.known();
    let owner = owner_of(levels.problem, x);
    if owner < number {
        return false;
    }
    if !is_universal(levels.problem, owner) {
        return false;
    }
    levels.level(ScopeId(owner as u8)).rules.is_empty()
}

// Whether the constraint c refutes one of the ends of x.
fn refutes_some_end(problem: &Problem, c: ConId, x: VarId, store: &Store) -> bool
    requires c { c.0 < length problem.now.constraints }
    requires declared { IsTrue (is_box_of problem.now store.now.box) }
    requires full { IsFalse (has_empty store.now.box) }
    requires x { x.0 < length store.now.box }
    ensures { (rule : Rule) → slice_get problem.now.constraints c.0 ≡ Some rule → result ≡ (refutes_at rule store.now.box x.0 (least_value (values_left store.now.box x.0)) || refutes_at rule store.now.box x.0 (greatest_value (values_left store.now.box x.0))) }
{
    problem.known();
    refutes_end(problem, c, x, End::Least, store)
        || refutes_end(problem, c, x, End::Greatest, store)
}

// Whether x is such a variable, and the constraint c refutes one of its ends.
fn is_answerless_at(levels: &Levels, store: &Store, number: usize, c: ConId, x: VarId) -> bool
    requires c { c.0 < length levels.now.problem.now.constraints }
    requires declared { IsTrue (is_box_of levels.now.problem.now store.now.box) }
    requires full { IsFalse (has_empty store.now.box) }
    requires x { x.0 < length store.now.box }
    ensures { (rule : Rule) → slice_get levels.now.problem.now.constraints c.0 ≡ Some rule → result ≡ is_answerless_by levels.now.problem.now number store.now.box rule x.0 }
{
    if is_open_move(levels, number, x) {
        return refutes_some_end(levels.problem, c, x, store);
    }
    false
}

// Whether the constraint c refutes an end of one of its variables that is such a one.
fn is_answerless(levels: &Levels, index: &Index, store: &Store, number: usize, c: ConId) -> bool
    requires c { c.0 < length levels.now.problem.now.constraints }
    requires index { IsIndexOf levels.now.problem.now index.now }
    requires declared { IsTrue (is_box_of levels.now.problem.now store.now.box) }
    requires full { IsFalse (has_empty store.now.box) }
    ensures { (rule : Rule) → slice_get levels.now.problem.now.constraints c.0 ≡ Some rule → result ≡ is_answerless_in levels.now.problem.now number store.now.box rule }
{
    levels.problem.known();
    let _ = levels.problem.constraint(c);
    for x in index.own(c) {
        if is_answerless_at(levels, store, number, c, *x) {
            return true;
        }
    }
    false
}

/// Whether one of the constraints of the span refutes the box with an end of a variable of the opponent, of a scope without a
/// restriction that has this number or a later one.
pub(crate) fn some_answerless(
    levels: &Levels,
    index: &Index,
    store: &Store,
    number: usize,
    span: Span,
) -> bool
    requires index { IsIndexOf levels.now.problem.now index.now }
    requires span { span.end ≤ length levels.now.problem.now.constraints }
    requires declared { IsTrue (is_box_of levels.now.problem.now store.now.box) }
    requires full { IsFalse (has_empty store.now.box) }
    ensures { result ≡ list_any (is_answerless_in levels.now.problem.now number store.now.box) (take (span.end - span.first) (drop span.first levels.now.problem.now.constraints)) }
{
    levels.problem.known();
    for k in span.first..span.end {
        if is_answerless(levels, index, store, number, ConId(k as u16)) {
            return true;
        }
    }
    false
}
