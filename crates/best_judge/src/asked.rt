//! The two problems that a value asks for.
ghost use Rattle.std.specs.Prelude.{◌≡◌, IfOk, MatchOption, IsTrue, Some, ℤ};
ghost use Rattle.qc_model.specs.Content.{Game};
ghost use Rattle.qc_model.specs.Valid.{is_number};
ghost use Rattle.zero_sum.specs.Stake.{stake_of as stake_in};
ghost use Rattle.zero_sum.specs.Bounded.{bounded_game, next_better};
ghost use Rattle.zero_sum.specs.Refusals.{HasRoom, Refuses};
ghost use Rattle.best_judge.specs.Asked.{AreAsked, NotAsked};

use qc_model::{Problem, Sense};
use std::alloc::{AllocError, Global};
use zero_sum::{NoBound, Stake, bounded, defaults_fit, stake_of};

/// The problem that is won where the value can be had, and the one that isn't where no better one can. None comes where not
/// both sides care for one quantity, where an opponent without a move may be worse than the value, and where there is no room
/// for the bounds.
pub(crate) fn asked(
    alloc: Global,
    problem: &Problem,
    value: i64,
) -> Result<Option<(Problem, Problem)>, AllocError>
    requires { IsTrue (is_number value) }
    ensures { IfOk result (λ found. MatchOption found (NotAsked problem.now value) (λ games. AreAsked problem.now value games.0 games.1)) }
{
    match stake_of(problem) {
        Some(stake) => asked_at(alloc, problem, stake, value),
        None => Ok(None),
    }
}

fn asked_at(
    alloc: Global,
    problem: &Problem,
    stake: Stake,
    value: i64,
) -> Result<Option<(Problem, Problem)>, AllocError>
    requires number { IsTrue (is_number value) }
    requires stake { stake_in problem.now ≡ Some stake }
    ensures { IfOk result (λ found. MatchOption found (NotAsked problem.now value) (λ games. AreAsked problem.now value games.0 games.1)) }
{
    if !defaults_fit(problem, value) {
        return Ok(None);
    }
    let Some(won) = room_for(alloc, problem, stake, value)? else {
        return Ok(None);
    };
    let Some(lost) = room_for(alloc, problem, stake, better(stake.sense, value))? else {
        return Ok(None);
    };
    Ok(Some((won, lost)))
}

// The bounded problem, where there is room for the bound.
fn room_for(
    alloc: Global,
    problem: &Problem,
    stake: Stake,
    value: i64,
) -> Result<Option<Problem>, AllocError>
    requires { stake_in problem.now ≡ Some stake }
    ensures { IfOk result (λ found. MatchOption found (HasRoom problem.now value → ⊥) (λ game. (game ≡ bounded_game problem.now stake value) × HasRoom problem.now value)) }
{
    match bounded(alloc, problem, stake, value) {
        Ok(game) => Ok(Some(game)),
        Err(why) => refused(why),
    }
}

// Memory, or no room.
fn refused(why: NoBound) -> Result<Option<Problem>, AllocError>
    ensures { IfOk result (λ found. MatchOption found ((g : Game) (v : ℤ) → Refuses why g v → HasRoom g v → ⊥) (λ _. ⊥)) }
{
    match why {
        NoBound::NoNumber => Ok(None),
        NoBound::TooManyConstraints => Ok(None),
        NoBound::Memory(error) => Err(error),
    }
}

/// The better of the two values beside this one.
pub(crate) fn better(sense: Sense, value: i64) -> i64
    requires { IsTrue (is_number value) }
    ensures { result ≡ next_better sense value }
{
    match sense {
        Sense::Min => value - 1,
        Sense::Max => value + 1,
    }
}
