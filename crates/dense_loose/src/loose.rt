//! A leader's choices bounded while they are still open.
//!
//! A scope of the player may go on with several values left: what is lost, or bounded, for all of them needs no branch. Three shapes of
//! games are bounded so: a follower who wants the opposite answers at once (`Opposed`); the opponent picks what is worst for the
//! leader, and a follower answers (`Worst`); or what follows is summed over the opponent's choices (`Sum`).
use crate::answers::bound_by_sum;
use dense_board::{Board, Closing};
use dense_place::{KnownReply, Lines, Move, Rival, Search, Shape, Stop, after, rival_below};
use joins::Found;
use qc_model::{ScopeId, Target};
use std::alloc::Global;

/// How many tuples of a follower are kept, and how many of the opponent.
const MOST_REPLIES: usize = 200;

const MOST_MOVES: usize = 4;

/// Shows that what is left of the scope's choices is no better than what was reached, where one of the shapes does; then the lines
/// stand, and the scope has their leaf.
pub fn bound_loosely(search: &mut Search, scope: ScopeId) -> Result<bool, Stop> {
    let shape = search.shape(scope);
    if shape == Shape::No {
        return Ok(false);
    }
    let Some(reached) = rival_below(search, scope) else {
        return Ok(false);
    };
    // the scope may go on, since closing leaves no box that refutes a constraint of it
    match shape {
        Shape::No => Ok(false),
        Shape::Opposed => bound_by_reply(search, scope, reached),
        Shape::Worst => bound_by_move(search, scope, reached),
        Shape::Sum => bound_by_sum(search, scope, reached, false),
        Shape::GrowingSum => bound_by_sum(search, scope, reached, true),
    }
}

// A reply of the follower that he can count on whatever is chosen, and that is no better for the leader.
fn bound_by_reply(search: &mut Search, scope: ScopeId, reached: Rival) -> Result<bool, Stop> {
    let follower = after(scope);
    for at in 0..search.pools.pool(follower).len() {
        if try_reply(search, scope, follower, at, reached)? {
            search.pools.promote(follower, at);
            return Ok(true);
        }
    }
    Ok(false)
}

fn try_reply(
    search: &mut Search,
    scope: ScopeId,
    follower: ScopeId,
    at: usize,
    reached: Rival,
) -> Result<bool, Stop> {
    let Some(kept) = search.pools.at_mut(follower, at) else {
        return Ok(false);
    };
    if !reached.beats(kept.worth) {
        return Ok(false);
    }
    let Some(value) = counted_value(search.alloc, &mut search.board, follower, kept)? else {
        return Ok(false);
    };
    if !reached.beats(value) {
        return Ok(false);
    }
    if let Some(reply) = &kept.reply {
        search.lines.put(reply.lines.as_slice())?;
    }
    search.board.add_node(scope, Found::AtMost(value));
    Ok(true)
}

// What the tuple comes to, where the follower can count on it.
fn counted_value(
    alloc: Global,
    board: &mut Board,
    follower: ScopeId,
    kept: &mut Move,
) -> Result<Option<i64>, Stop> {
    let Some(reply) = &mut kept.reply else {
        return Ok(None);
    };
    let tuple = kept.tuple.as_slice();
    if !board.meets(alloc, follower, tuple, &mut reply.needs)? {
        return Ok(None);
    }
    Ok(wished_value(board, follower, tuple))
}

// The one value with the tuple of what the follower wishes for, if it has one.
fn wished_value(board: &Board, follower: ScopeId, tuple: &[i64]) -> Option<i64> {
    let level = board.level(follower)?;
    let first = board.demanded(after(follower)).first()?;
    let Target::Var(x) = first.target else {
        return None;
    };
    let at = (x.0 as usize).checked_sub(level.from);
    if let Some(at) = at
        && let Some(value) = tuple.get(at)
    {
        return Some(*value);
    }
    if board.size(x) == 1 {
        Some(board.least(x))
    } else {
        None
    }
}

// A tuple of the opponent after which nothing is better for the leader than what was reached, whatever is chosen.
fn bound_by_move(search: &mut Search, scope: ScopeId, reached: Rival) -> Result<bool, Stop> {
    let opponent = after(scope);
    for at in 0..search.pools.pool(opponent).len() {
        if try_move(search, scope, opponent, at, reached)? {
            search.pools.promote(opponent, at);
            return Ok(true);
        }
    }
    Ok(false)
}

fn try_move(
    search: &mut Search,
    scope: ScopeId,
    opponent: ScopeId,
    at: usize,
    reached: Rival,
) -> Result<bool, Stop> {
    search.spend()?;
    search.save()?;
    let begin = search.lines.len();
    let mut found = None;
    if let Some(kept) = search.pools.pool(opponent).get(at) {
        let tuple = kept.tuple.as_slice();
        found = after_move(&mut search.board, &mut search.lines, opponent, tuple)?;
    }
    search.board.restore();
    match found {
        Some(Found::Lost) => {}
        Some(Found::AtMost(value)) if reached.beats(value) => {}
        _ => {
            search.lines.drop_from(begin);
            return Ok(false);
        }
    }
    search
        .board
        .add_node(scope, found.unwrap_or(Found::Unknown));
    Ok(true)
}

// What the follower's node comes to after a tuple of the opponent; None where that may not be taken. It is bounded by what is left.
fn after_move(
    board: &mut Board,
    lines: &mut Lines,
    opponent: ScopeId,
    tuple: &[i64],
) -> Result<Option<Found>, Stop> {
    if !board.choose(opponent, tuple) {
        return Ok(None);
    }
    lines.put(b"n\n")?;
    lines.put_line(b"w", tuple)?;
    let follower = after(opponent);
    match board.close(follower) {
        Closing::Lost => {
            lines.put(b"e\n")?;
            return Ok(Some(Found::Lost));
        }
        Closing::Narrowed => lines.put(b"c\n")?,
        Closing::Same => {}
    }
    lines.put(b"y\n")?;
    match board.best_left(follower) {
        None => Ok(None),
        Some(value) => Ok(Some(Found::AtMost(value))),
    }
}

/// A leaf of the scope has come to something: its tuple may be of use again.
pub fn note_leaf(
    search: &mut Search,
    scope: ScopeId,
    settled: bool,
    found: Found,
) -> Result<(), Stop> {
    if settled {
        search.hints.note(&search.board, scope);
    }
    if search.shape(scope) == Shape::Worst {
        keep_move(search, after(scope))?;
    }
    if scope.0 > 0 && found == Found::Exact && search.shape(before(scope)) == Shape::Opposed {
        keep_reply(search, scope)?;
    }
    Ok(())
}

// Keeps the tuple that settled the opponent's scope last.
fn keep_move(search: &mut Search, opponent: ScopeId) -> Result<(), Stop> {
    let Some(tuple) = search.hinted_tuple(opponent)? else {
        return Ok(());
    };
    let kept = Move {
        tuple,
        worth: 0,
        reply: None,
    };
    search.pools.add(opponent, kept, MOST_MOVES)
}

// Keeps the tuple of the last scope that is here, with the first value that it comes to.
fn keep_reply(search: &mut Search, follower: ScopeId) -> Result<(), Stop> {
    let Some(worth) = search.board.vector().first() else {
        return Ok(());
    };
    let worth = *worth;
    let tuple = search.board.tuple(search.alloc, follower)?;
    let reply = reply_of(search, follower, tuple.as_slice())?;
    let kept = Move {
        tuple,
        worth,
        reply,
    };
    search.pools.add(follower, kept, MOST_REPLIES)
}

// What is kept of a tuple as a reply, where it may be one.
fn reply_of(
    search: &mut Search,
    follower: ScopeId,
    tuple: &[i64],
) -> Result<Option<KnownReply>, Stop> {
    let Some(needs) = search.board.needs(search.alloc, follower, tuple)? else {
        return Ok(None);
    };
    let mut lines = Lines::new(search.alloc);
    lines.put(b"n\n")?;
    lines.put_line(b"f", tuple)?;
    lines.put(b"y\n")?;
    Ok(Some(KnownReply { needs, lines }))
}

fn before(scope: ScopeId) -> ScopeId {
    ScopeId(scope.0.saturating_sub(1))
}
