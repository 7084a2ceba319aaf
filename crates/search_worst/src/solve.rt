//! The pessimistic optimum, found by the search.
ghost use Rattle.std.specs.Prelude.{◌≤◌, IfOk, IfErr};
ghost use Rattle.game_search.specs.Solution.{SolutionLines};
ghost use Rattle.qc_pessimist.specs.Opposed.{opposed_game};
ghost use Rattle.qc_pessimist.specs.Refusals.{is_chosen, IsReadable, Refuses};
ghost use Rattle.qc_pessimist.specs.Laws.{ReadsAtWorst, NoBetterAtWorst};
ghost use Rattle.search_worst.specs.Solved.{WorstMeans};

use game_search::{Flat, solve_flat};
use qc_model::Problem;
use qc_pessimist::{NoReading, Places, opposing_scopes_tell_the_worst, pessimistic};
use std::alloc::Global;

/// Decides a game within so many turns, from 1 to 10,000,000, where the owners of the chosen scopes meet
/// the worst of later ties. The lines are those of a certificate of the problem that `pessimistic` gives.
/// True means that the game is won, and False that it isn't; an optimum beside True is the pessimistic
/// optimum of the game itself.
///
/// # Errors
///
/// As for `pessimistic`.
pub fn solve_worst(
    alloc: Global,
    problem: &Problem,
    places: Places,
    turns: u64,
) -> Result<Flat, NoReading>
    requires some { 1 ≤ turns }
    requires turns { turns ≤ 10000000 }
    ensures solution { IfOk result (λ f. SolutionLines (opposed_game (is_chosen places) problem.now) turns f.outcome f.optimum f.arena) }
    ensures means { IfOk result (λ f. WorstMeans (is_chosen places) f.outcome f.optimum problem.now) }
    ensures readable { IfOk result (λ f. IsReadable places problem.now) }
    ensures reads { ReadsAtWorst (is_chosen places) problem.now (opposed_game (is_chosen places) problem.now) }
    ensures law { NoBetterAtWorst (is_chosen places) problem.now }
    ensures refused { IfErr result (λ e. Refuses e places problem.now) }
{
    opposing_scopes_tell_the_worst();
    let new = pessimistic(alloc, problem, places)?;
    let flat = solve_flat(alloc, &new, turns)?;
    Ok(flat)
}
