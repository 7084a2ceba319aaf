//! Where the values of the first scopes end.
ghost use Rattle.std.specs.Prelude.{◌≡◌, ◌++◌, true, length, IfOk, IsTrue};
ghost use Rattle.std.specs.List.{list_all};
ghost use Rattle.qc_model.specs.Domains.{declared_box};
ghost use Rattle.qc_model.specs.Game.{scope_domains};
ghost use Rattle.qc_model.specs.Valid.{is_number};
ghost use Rattle.qc_play.specs.Play.{lies_in as lies_in_all, is_move};
ghost use Rattle.tell_moves.specs.Stands.{is_end as is_end_of, place_of, place_told, IsReady};

use fd_store::Store;
use model_levels::{Level, Levels, all_hold};
use qc_model::{Problem, ScopeId, VarId};
use std::alloc::{AllocError, Global};

/// Where the values of the first scopes end.
#[derive(Drop)]
pub enum Standing {
    /// Before this scope, after the values of all variables before it.
    Before { scope: ScopeId, values: Vec<i64> },
    /// After the last scope.
    AfterAll,
    /// Values are left after the last scope.
    LeftOver,
    /// Fewer values are left than the scope has variables.
    Missing(ScopeId),
    /// The next values aren't an allowed tuple of the scope.
    NotAllowed(ScopeId),
}

// Whether each value is declared for its variable of the scope.
fn lies_in(level: &Level, store: &Store, tuple: &[i64]) -> bool
    requires declared { store.now.box ≡ declared_box level.now.problem.now }
    requires each { length tuple.now ≡ length (scope_domains level.now.problem.now level.now.number) }
    ensures { result ≡ lies_in_all tuple.now (scope_domains level.now.problem.now level.now.number) }
{
    level.problem.known();
    for k in 0..tuple.len() {
        let x = VarId((level.from + k) as u16);
        if !store.has(x, tuple[k]) {
            return false;
        }
    }
    true
}

// Whether the values are an allowed tuple of the scope. Where they are, they stand after the values before them.
fn take_tuple(
    level: &Level,
    store: &Store,
    values: &mut Vec<i64>,
    tuple: &[i64],
) -> Result<bool, AllocError>
    requires declared { store.now.box ≡ declared_box level.now.problem.now }
    requires each { length tuple.now ≡ length (scope_domains level.now.problem.now level.now.number) }
    requires numbers { IsTrue (list_all is_number values.old.items) }
    ensures allowed { IfOk result (λ b. b ≡ is_move level.now.problem.now level.now.number values.old.items tuple.now) }
    ensures taken { IfOk result (λ b. b ≡ true → values.new.items ≡ values.old.items ++ tuple.now) }
{
    level.problem.known();
    if !lies_in(level, store, tuple) {
        return Ok(false);
    }
    values.extend_from_slice(tuple)?;
    Ok(all_hold(level.problem, level.rules, values.as_slice()))
}

// Whether no value is left for a scope that has so many variables.
fn is_end(rest: &[i64], width: usize) -> bool
    ensures { result ≡ is_end_of width rest.now }
{
    match rest {
        [] => 0 < width,
        [_next, ..] => false,
    }
}

/// Goes over the values of the first scopes, up to where they end. A scope without variables is passed where it is allowed.
pub fn stand_at(alloc: Global, problem: &Problem, values: &[i64]) -> Result<Standing, AllocError>
    ensures place { IfOk result (λ s. place_told s ≡ place_of problem.now values.now) }
    ensures ready { IfOk result (IsReady problem.now) }
{
    problem.known();
    let store = Store::new(alloc, problem)?;
    let levels = Levels::new(alloc, problem)?;
    let mut taken = Vec::with_capacity(alloc, problem.variables())?;
    let mut rest = values;
    for i in 0..problem.scopes() {
        let scope = ScopeId(i as u8);
        let level = levels.level(scope);
        let width = level.stop - level.from;
        if is_end(rest, width) {
            return Ok(Standing::Before {
                scope,
                values: taken,
            });
        }
        if rest.len() < width {
            return Ok(Standing::Missing(scope));
        }
        let (tuple, after) = rest.split_at(width);
        if !take_tuple(level, &store, &mut taken, tuple)? {
            return Ok(Standing::NotAllowed(scope));
        }
        rest = after;
    }
    if rest.is_empty() {
        Ok(Standing::AfterAll)
    } else {
        Ok(Standing::LeftOver)
    }
}
