//! What leaves and nodes come to.
use crate::lines::Lines;
use crate::place::{Place, Rival, after};
use crate::search::Search;
use crate::stop::Stop;
use dense_board::Board;
use joins::Found;
use qc_model::{Condition, ScopeId, VarId};

/// Whether the scope needs no other leaf: whatever they are, it comes to the same, or to what is of no use to the scope above.
pub fn is_settled(search: &mut Search, place: Place) -> bool {
    if search.board.is_settled(place.scope) {
        return true;
    }
    let Some(rival) = place.rival else {
        return false;
    };
    match search.board.side_bound(place.scope) {
        Some(value) => rival.beats(value),
        None => is_reply(search, place.scope, rival),
    }
}

// Whether the last scope, whose owner wants the opposite of the scope above, has a value that is of no use there: whatever else
// he finds is even worse for it. Then one reply stands for the node.
fn is_reply(search: &mut Search, scope: ScopeId, rival: Rival) -> bool {
    if !is_opposed(&search.board, scope) {
        return false;
    }
    let Some(value) = search.board.incumbent(scope) else {
        return false;
    };
    if !rival.beats(value) {
        return false;
    }
    search.replied = true;
    true
}

/// Whether it is the last scope, and wants the opposite of what is demanded of it first.
pub fn is_opposed(board: &Board, scope: ScopeId) -> bool {
    if after(scope).0 as usize != board.scopes() {
        return false;
    }
    let Some(level) = board.level(scope) else {
        return false;
    };
    if !level.has_condition {
        return false;
    }
    let wanted = board.demanded(after(scope)).first();
    are_opposite(wanted, board.demanded(scope).first())
}

fn are_opposite(one: Option<&Condition>, other: Option<&Condition>) -> bool {
    let Some(one) = one else {
        return false;
    };
    let Some(other) = other else {
        return false;
    };
    one.target == other.target && one.sense != other.sense
}

/// What the scope has reached, for the scope after it.
pub fn rival_below(search: &Search, scope: ScopeId) -> Option<Rival> {
    let value = search.board.incumbent(scope)?;
    let list = search.board.demanded(after(scope));
    let first = list.first()?;
    Some(Rival {
        sense: first.sense,
        value,
        ties: list.len() == 1,
    })
}

/// What a node comes to whose own tree has ended. What comes again is kept by itself.
pub fn node_over(search: &mut Search, place: Place, begin: usize) -> Result<Found, Stop> {
    if search.replied {
        search.replied = false;
        return reply_stands(search, place, begin);
    }
    let found = search.board.finish(place.scope);
    if place.scope.0 == 0 {
        search.own = search.board.own(place.scope);
    }
    search.remember(place, begin, found)?;
    Ok(found)
}

// One reply in place of the node's lines: the tuple that was found last.
fn reply_stands(search: &mut Search, place: Place, begin: usize) -> Result<Found, Stop> {
    search.lines.drop_from(begin);
    let Some(tuple) = search.hinted_tuple(place.scope)? else {
        return Err(Stop::Spent);
    };
    search.save()?;
    if !search.board.reply(place.scope, tuple.as_slice()) {
        return Err(Stop::Spent);
    }
    search.lines.put_line(b"f", tuple.as_slice())?;
    let best = search.board.best_left(place.scope);
    search.board.restore();
    search.lines.put(b"y\n")?;
    match best {
        Some(value) => Ok(Found::AtMost(value)),
        None => Err(Stop::Spent),
    }
}

/// Of the cases put since `body`, which begin at a value's each, keeps that of one value, which begins at `begin`; all other values of
/// x are skipped.
pub fn keep_alone(
    search: &mut Search,
    scope: ScopeId,
    x: VarId,
    value: i64,
    body: usize,
    begin: usize,
) -> Result<(), Stop> {
    let before = search.board.previous(x, value.saturating_sub(1));
    if before.is_some() || begin > body {
        let least = search.board.least(x);
        keep_case(&mut search.lines, least, before, body, begin)?;
    }
    let behind = search.board.next(x, value.saturating_add(1));
    if let Some(first) = behind {
        let last = search.board.greatest(x);
        search.lines.put_skipped(first, last)?;
    }
    search.board.add_skipped(scope);
    search.lines.put(b".\n")
}

/// Puts that the values from the first to the last are skipped.
pub fn put_skipped(search: &mut Search, first: i64, last: i64) -> Result<(), Stop> {
    search.lines.put_skipped(first, last)
}

// Of the cases put since `body` keeps that which begins at `begin`, with the values from the least to the one before skipped.
fn keep_case(
    lines: &mut Lines,
    least: i64,
    before: Option<i64>,
    body: usize,
    begin: usize,
) -> Result<(), Stop> {
    let case = lines.take_from(begin)?;
    lines.drop_from(body);
    if let Some(last) = before {
        lines.put_skipped(least, last)?;
    }
    lines.put(case.as_slice())
}

impl<'p> Search<'p> {
    /// The tuple that the scope is hinted at, if any.
    pub fn hinted_tuple(&self, scope: ScopeId) -> Result<Option<Vec<i64>>, Stop> {
        let Some(level) = self.board.level(scope) else {
            return Ok(None);
        };
        level.problem.known();
        let mut tuple = Vec::new(self.alloc);
        for at in level.from..level.stop {
            let Some(value) = self.hints.value(scope, VarId(at as u16)) else {
                return Ok(None);
            };
            tuple.push(value)?;
        }
        Ok(Some(tuple))
    }
}
