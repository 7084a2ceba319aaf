//! Who chooses what, and where a lemma stands.
ghost use Rattle.std.specs.Prelude.{◌≡◌, ◌≤◌, None, Some, MatchOption, length, slice_get};
ghost use Rattle.qc_model.specs.Counter.{opposite};
ghost use Rattle.lemma_list.specs.Places.{is_kind as is_kind_in, side_at as side_at_in, is_chosen_from as is_chosen_from_in, is_chosen_before as is_chosen_before_in, after_scope as after_scope_in, place as place_in};
ghost use Rattle.lemma_reasons.specs.Steps.{after_one};

use lemma_list::{Lemma, Literal};
use qc_model::{Kind, Problem, ScopeId, VarId, Variable};

/// Whether both are the same side.
pub fn is_kind(k: Kind, l: Kind) -> bool
    ensures { result ≡ is_kind_in k l }
{
    match k {
        Kind::Exists => match l {
            Kind::Exists => true,
            Kind::Forall => false,
        },
        Kind::Forall => match l {
            Kind::Exists => false,
            Kind::Forall => true,
        },
    }
}

/// The other side.
pub fn opponent_of(k: Kind) -> Kind
    ensures { result ≡ opposite k }
{
    match k {
        Kind::Exists => Kind::Forall,
        Kind::Forall => Kind::Exists,
    }
}

/// Who owns scope j, and keeps its restriction; the goal, and any number past it, is the player's.
pub fn side_at(problem: &Problem, j: usize) -> Kind
    ensures { result ≡ side_at_in problem.now j }
{
    problem.known();
    if j < problem.scopes() {
        problem.scope(ScopeId(j as u8)).kind
    } else {
        Kind::Exists
    }
}

/// Whether x is a variable of a scope of this side, and of scope i or a later one.
pub fn is_chosen_from(problem: &Problem, k: Kind, i: usize, x: VarId) -> bool
    ensures { result ≡ is_chosen_from_in k problem.now i x.0 }
{
    match variable_at(problem, x) {
        None => false,
        Some(variable) => {
            let j = variable.scope.0 as usize;
            is_kind(k, side_at(problem, j)) && i <= j
        }
    }
}

/// Whether x is a variable of a scope before scope i.
pub fn is_chosen_before(problem: &Problem, i: usize, x: VarId) -> bool
    ensures { result ≡ is_chosen_before_in problem.now i x.0 }
{
    match variable_at(problem, x) {
        None => false,
        Some(variable) => (variable.scope.0 as usize) < i,
    }
}

// The variable, where there is one.
pub(crate) fn variable_at(problem: &Problem, x: VarId) -> Option<&Variable>
    ensures { MatchOption result (slice_get problem.now.variables x.0 ≡ None) (λ variable. slice_get problem.now.variables x.0 ≡ Some variable.now) }
{
    problem.all_variables().get(x.0 as usize)
}

// The position after the variable's scope, or the start where there is no such variable.
fn after_scope(problem: &Problem, x: VarId) -> usize
    ensures after { result ≡ after_scope_in (slice_get problem.now.variables x.0) }
    ensures within { result ≤ length problem.now.scopes }
{
    problem.known();
    match variable_at(problem, x) {
        None => 0,
        Some(variable) => variable.scope.0 as usize + 1,
    }
}

// The same where the variable of a literal is of this side, and the start elsewhere.
fn after_literal(problem: &Problem, k: Kind, literal: Literal) -> usize
    ensures after { result ≡ after_one problem.now k literal }
    ensures within { result ≤ length problem.now.scopes }
{
    if is_chosen_from(problem, k, 0, literal.x) {
        after_scope(problem, literal.x)
    } else {
        0
    }
}

/// The position of a lemma, told by the number of the scope that it stands before: right after the last scope with a
/// literal on a variable of its loser, or 0.
pub fn place_of(problem: &Problem, lemma: &Lemma) -> usize
    ensures place { result ≡ place_in problem.now lemma.now }
    ensures within { result ≤ length problem.now.scopes }
{
    let mut place = 0;
    for literal in lemma.literals() {
        place = place.max(after_literal(problem, lemma.loser(), *literal));
    }
    place
}
