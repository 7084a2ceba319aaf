//! What lies ahead, where the opponent may be stuck.
//!
//! Closing looks no further than the scope's block then. So before a node, or a choice, all scopes ahead are closed at once for a look:
//! where that leaves no box, nobody passes them.
use crate::closing::is_open_move;
use crate::place::Place;
use crate::search::Search;
use crate::stop::Stop;
use joins::Found;
use qc_model::ScopeId;

/// What was seen ahead of a node: the player has lost; or the owner of its scope is stuck; or it is gone into, at a place.
#[derive(Clone, Copy)]
pub enum Ahead {
    Lost,
    Stuck,
    On(Place),
}

/// Looks ahead of a node. Where nobody passes the scopes up to one, it puts `h K`; or `l K`, where the opponent is never stuck on the
/// way.
pub fn look_ahead(search: &mut Search, place: Place) -> Result<Ahead, Stop> {
    if search.board.is_free() {
        return Ok(Ahead::On(place));
    }
    if !search.board.is_free_from(place.scope) {
        return look_for_horizon(search, place);
    }
    if is_lost_choice(search, place.scope) || !is_unplayed(search, place.scope)? {
        return Ok(Ahead::On(place));
    }
    Ok(Ahead::Lost)
}

// Puts the nearest horizon ahead, where there is one before that in force.
fn look_for_horizon(search: &mut Search, place: Place) -> Result<Ahead, Stop> {
    let Some(last) = last_ahead(search, place) else {
        return Ok(Ahead::On(place));
    };
    if !search.board.none_passes(place.scope, ScopeId(last))? {
        return Ok(Ahead::On(place));
    }
    let mut horizon = last;
    for k in place.scope.0..last {
        if search.board.none_passes(place.scope, ScopeId(k))? {
            horizon = k;
            break;
        }
    }
    search.lines.put_line(b"h", &[horizon as i64 + 1])?;
    let place = Place {
        horizon: Some(horizon),
        ..place
    };
    if place.is_at_horizon() {
        return Ok(Ahead::Stuck);
    }
    Ok(Ahead::On(place))
}

// The last number before the horizon in force, or that of the goal.
fn last_ahead(search: &Search, place: Place) -> Option<u8> {
    match place.horizon {
        None => Some(goal_of(search).0),
        Some(horizon) => horizon.checked_sub(1),
    }
}

fn goal_of(search: &Search) -> ScopeId {
    ScopeId(search.board.scopes() as u8)
}

// Whether a part of the scope's own tree may end by what lies ahead.
fn is_lost_choice(search: &Search, scope: ScopeId) -> bool {
    search.board.is_players(scope) || is_open_move(search, scope)
}

// Puts `l K`, where nobody passes the scopes up to the goal.
fn is_unplayed(search: &mut Search, scope: ScopeId) -> Result<bool, Stop> {
    let goal = goal_of(search);
    if !search.board.none_passes(scope, goal)? {
        return Ok(false);
    }
    search.lines.put_line(b"l", &[i64::from(goal.0) + 1])?;
    Ok(true)
}

/// Looks ahead of a part of a scope's own tree, where closing sees no further than the block though the opponent is never stuck from the
/// scope on. Where nobody passes the scopes ahead, it puts `l K`, and the scope has its leaf.
pub fn is_dead_end(search: &mut Search, scope: ScopeId) -> Result<bool, Stop> {
    if search.board.is_free()
        || !search.board.is_free_from(scope)
        || !is_lost_choice(search, scope)
        || !is_unplayed(search, scope)?
    {
        return Ok(false);
    }
    search.board.add_node(scope, Found::Lost);
    if is_open_move(search, scope) {
        search.hints.note(&search.board, scope);
    }
    Ok(true)
}
