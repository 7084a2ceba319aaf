//! The problem in which chosen owners meet the worst ties.
ghost use Rattle.std.specs.Prelude.{◌≡◌, ◌≤◌, length, IfOk, IfErr, IsTrue};
ghost use Rattle.qc_pessimist.specs.Opposed.{opposed_game};
ghost use Rattle.qc_pessimist.specs.Refusals.{is_chosen, names_a_wish as names_a_wish_of, IsReadable, Refuses};
ghost use Rattle.qc_pessimist.specs.Laws.{ReadsAtWorst, NoBetterAtWorst};

use crate::opposed::{
    chosen_wish, moved_aggregates, moved_constraints, moved_variables, new_places, opposed_scopes,
};
use crate::reading::{NoReading, Places};
use qc_model::{Draft, Problem, build, limits};
use std::alloc::{AllocError, Global};

/// Whether a single place names an existential scope with a condition.
fn names_a_wish(problem: &Problem, places: Places) -> bool
    ensures { result ≡ names_a_wish_of places problem.now }
{
    match places {
        Places::One(i) => {
            (i.0 as usize) < problem.scopes()
                && chosen_wish(Places::All, i.0, problem.scope(i)).is_some()
        }
        Places::All => true,
    }
}

/// The content of the new problem, with the scopes that it has.
fn opposed_draft(alloc: Global, problem: &Problem, places: Places) -> Result<Draft, NoReading>
    requires { IsTrue (names_a_wish_of places problem.now) }
    ensures made { IfOk result (λ draft. draft ≡ opposed_game (is_chosen places) problem.now) }
    ensures few { IfOk result (λ draft. length draft.scopes ≤ 64) }
    ensures refused { IfErr result (λ e. Refuses e places problem.now) }
{
    problem.known();
    let scopes = opposed_scopes(alloc, problem, places)?;
    if scopes.len() > limits::SCOPES {
        return Err(NoReading::TooManyScopes);
    }
    let table = new_places(alloc, problem, places)?;
    let table = table.as_slice();
    Ok(Draft {
        scopes,
        variables: moved_variables(alloc, table, problem.all_variables())?,
        aggregates: moved_aggregates(alloc, table, problem.all_aggregates())?,
        constraints: moved_constraints(alloc, table, problem)?,
    })
}

/// The problem in which the owners of the chosen scopes meet the worst of later ties: after each of these
/// scopes stands a new existential scope without variables and constraints, with the same target and the
/// other sense.
///
/// Both problems are won or neither is. A strategy is optimal in the old one, where these owners meet the
/// worst ties, exactly where it is optimal in the new one with an empty choice after each of their
/// choices; the new problem has no other optimal strategies. So the optimum of the new problem is the
/// pessimistic optimum of the old one. Where the first owner alone meets the worst ties, that isn't better
/// than its optimum.
///
/// # Errors
///
/// `NoCondition` where the place is one and names no existential scope with a condition. Otherwise
/// `TooManyScopes` where the new problem would have more than 64 scopes. `Memory` where memory was refused.
pub fn pessimistic(alloc: Global, problem: &Problem, places: Places) -> Result<Problem, NoReading>
    ensures made { IfOk result (λ new. new ≡ opposed_game (is_chosen places) problem.now) }
    ensures readable { IfOk result (λ new. IsReadable places problem.now) }
    ensures reads { IfOk result (λ new. ReadsAtWorst (is_chosen places) problem.now new) }
    ensures law { NoBetterAtWorst (is_chosen places) problem.now }
    ensures refused { IfErr result (λ e. Refuses e places problem.now) }
{
    problem.known();
    if !names_a_wish(problem, places) {
        return Err(NoReading::NoCondition);
    }
    match build(opposed_draft(alloc, problem, places)?) {
        Some(new) => Ok(new),
        // Such a draft is valid.
        None => unreachable!(),
    }
}
