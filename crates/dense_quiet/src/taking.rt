//! Which values constraints may take in a closing.
ghost use Rattle.std.specs.Prelude.{◌≡◌, slice_get};
ghost use Rattle.proof_tree.specs.Place.{owner_of as owner_of_in};
ghost use Rattle.dense_tree.specs.Free.{is_universal as is_universal_in, takes};
ghost use Rattle.dense_quiet.specs.Taking.{takes_of};

use qc_model::{Constraint, Kind, Problem, ScopeId, VarId};

/// Which values constraints may take in a closing.
#[derive(Clone, Copy, PartialEq, Eq)]
pub enum Taking {
    /// Each constraint may take values of all its variables.
    All,
    /// A constraint of an opponent's scope may take values of that scope's variables alone, and any other one none of the
    /// opponent's.
    Owners,
}

/// Whether the scope is the opponent's. The goal isn't, nor is any number past it.
pub fn is_universal(problem: &Problem, scope: usize) -> bool
    ensures { result ≡ is_universal_in (slice_get problem.now.scopes scope) }
{
    problem.known();
    if scope >= problem.scopes() {
        return false;
    }
    match problem.scope(ScopeId(scope as u8)).kind {
        Kind::Exists => false,
        Kind::Forall => true,
    }
}

/// The number of the scope of x, or 0 where there is no such variable.
pub fn owner_of(problem: &Problem, x: VarId) -> usize
    ensures { result ≡ owner_of_in (slice_get problem.now.variables x.0) }
{
    match problem.all_variables().get(x.0 as usize) {
        None => 0,
        Some(variable) => variable.scope.0 as usize,
    }
}

// The number of the constraint's scope.
fn scope_of(rule: &Constraint) -> usize
    ensures { result ≡ rule.now.owner.0 }
{
    rule.owner.0 as usize
}

fn takes_as_owner(problem: &Problem, rule: &Constraint, x: VarId) -> bool
    ensures { result ≡ takes problem.now rule.now x.0 }
{
    let own = scope_of(rule);
    let owner = owner_of(problem, x);
    if is_universal(problem, own) {
        owner == own
    } else {
        !is_universal(problem, owner)
    }
}

/// Whether the constraint may take values of x.
#[inline(always)]
pub fn may_take(problem: &Problem, taking: Taking, rule: &Constraint, x: VarId) -> bool
    ensures { result ≡ takes_of taking problem.now rule.now x.0 }
{
    match taking {
        Taking::All => true,
        Taking::Owners => takes_as_owner(problem, rule, x),
    }
}
