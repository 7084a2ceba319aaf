//! What a scope of the opponent has to keep up with: the incumbent of the scope right above.
//!
//! Where the scope's list begins with an aggregate that folds by the greatest under `Min`, or by the least under `Max`, each
//! choice of the opponent alone bounds its value. So once the player's incumbent beats such a bound, his choice that led here
//! isn't better than what he has, whatever else the opponent can choose.
ghost use Rattle.std.specs.Prelude.{◌≡◌, ◌<◌, length, List, ℤ, IsTrue};
ghost use Rattle.qc_model.specs.ExistsVerdict.{beats as beats_bound};
ghost use Rattle.qc_model.specs.Verdict.{Seen};
ghost use Rattle.joins.specs.Joins.{game_of, StandsAt};
ghost use Rattle.search_walk.specs.Rivals.{IsRival, StandsAbove, above_at, beaten_by, outdoes};
ghost use Rattle.search_parts.specs.Settled.{is_outdone as is_outdone_by};

use joins::Joins;
use qc_model::{ScopeId, Sense};

/// The first value of the best vector that the scope right above has reached, and how it counts there.
#[derive(Clone, Copy)]
pub struct Rival {
    pub sense: Sense,
    /// Nothing else is asked, so that a tie can't be decided otherwise.
    pub is_alone: bool,
    pub best: i64,
}

/// The incumbent of the scope right above scope i. None comes where it has none.
pub(crate) fn rival_of(joins: &Joins, i: ScopeId) -> Option<Rival>
    requires { i.0 < length (game_of joins.now).scopes }
    ensures sense { IsRival (game_of joins.now) i.0 result }
    ensures beats { (up : List Seen) → StandsAbove joins.now i.0 up → (n : ℤ) → IsTrue (beaten_by result n) → IsTrue (above_at (game_of joins.now) i.0 up n) }
{
    if i.0 == 0 {
        return None;
    }
    let above = ScopeId(i.0 - 1);
    let Some((first, rest)) = joins.wishes(above).split_first() else {
        return None;
    };
    let Some(best) = joins.incumbent(above) else {
        return None;
    };
    Some(Rival {
        sense: first.sense,
        is_alone: rest.is_empty(),
        best,
    })
}

/// Whether the rival beats the bound.
fn beats(rival: Rival, bound: i64) -> bool
    ensures { result ≡ beats_bound rival.sense rival.is_alone rival.best bound }
{
    match rival.sense {
        Sense::Min => rival.best < bound || (rival.is_alone && rival.best == bound),
        Sense::Max => bound < rival.best || (rival.is_alone && rival.best == bound),
    }
}

/// Whether the rival beats the bound that the leaves of scope i so far give by themselves. Then no further leaf counts.
pub(crate) fn is_outdone(rival: Option<Rival>, joins: &Joins, i: ScopeId) -> bool
    requires { i.0 < length (game_of joins.now).scopes }
    ensures { IsTrue result → (xs : List Seen) → StandsAt joins.now i.0 xs → IsTrue (is_outdone_by (outdoes (game_of joins.now) i.0 rival) xs) }
{
    let Some(rival) = rival else {
        return false;
    };
    let Some(bound) = joins.side_bound(i) else {
        return false;
    };
    beats(rival, bound)
}
