//! A first bound from a free search.
//!
//! Values are gone through from the least on, so a scope that wants much of a variable meets poor tuples first. Where the last scope
//! takes long, a search that writes no lines looks for a good one: it takes the variable with the fewest values left, bounds the wish by
//! the best found so far, and ends after some dead ends. It goes once from the least values on, and once from the greatest.
use crate::bounds::useless_values;
use crate::place::{DEPTH, after, one_less};
use crate::search::Search;
use crate::stop::Stop;
use dense_board::{Board, Closing};
use qc_model::{ScopeId, Sense, Target, VarId};

/// How many dead ends a free search meets each way.
const MOST_DEAD_ENDS: u32 = 1_000;

/// As many values as a variable can have.
const MOST_VALUES: u32 = 1_048_576;

// A free search of a scope: what is wished for, the best so far, and how many dead ends it may still meet.
#[derive(Clone, Copy)]
struct Scout {
    scope: ScopeId,
    wish: VarId,
    sense: Sense,
    from_greatest: bool,
    best: Option<i64>,
    dead_ends: u32,
}

/// Whether a free search may find a bound for a node of the scope.
pub fn may_scout(board: &Board, scope: ScopeId) -> bool {
    scout_of(board, scope).is_some()
}

// The free search of a last scope that wishes for a variable of its own.
fn scout_of(board: &Board, scope: ScopeId) -> Option<Scout> {
    let level = board.level(scope)?;
    if after(scope).0 as usize != board.scopes() || !board.is_players(scope) {
        return None;
    }
    let first = board.demanded(after(scope)).first()?;
    let Target::Var(wish) = first.target else {
        return None;
    };
    if (wish.0 as usize) < level.from {
        return None;
    }
    Some(Scout {
        scope,
        wish,
        sense: first.sense,
        from_greatest: false,
        best: None,
        dead_ends: 0,
    })
}

/// The best value that a free search of the scope finds for what is demanded first.
pub fn found_freely(search: &mut Search, scope: ScopeId) -> Result<Option<i64>, Stop> {
    let Some(mut scout) = scout_of(&search.board, scope) else {
        return Ok(None);
    };
    let saved = search.board.saved_count();
    for from_greatest in [false, true] {
        scout.from_greatest = from_greatest;
        scout.dead_ends = MOST_DEAD_ENDS;
        search.save()?;
        let _ = go_on(search, DEPTH, &mut scout)?;
        search.board.restore_to(saved);
    }
    Ok(scout.best)
}

// Goes on from the box that is here, and says whether the search isn't over.
#[cycle(scout)]
fn go_on(search: &mut Search, depth: u32, scout: &mut Scout) -> Result<bool, Stop> {
    let depth = one_less(depth)?;
    narrow(&mut search.board, *scout);
    if search.board.is_empty() || search.board.close(scout.scope) == Closing::Lost {
        scout.dead_ends = scout.dead_ends.saturating_sub(1);
        return Ok(scout.dead_ends > 0);
    }
    match narrowest(&search.board, *scout) {
        None => {
            reach(&search.board, scout);
            Ok(true)
        }
        Some(x) => each_value(search, depth, scout, x),
    }
}

#[cycle(scout)]
fn each_value(search: &mut Search, depth: u32, scout: &mut Scout, x: VarId) -> Result<bool, Stop> {
    let depth = one_less(depth)?;
    let falls = falls_at(*scout, x);
    let mut next = Some(if falls {
        search.board.greatest(x)
    } else {
        search.board.least(x)
    });
    for _ in 0..MOST_VALUES {
        let Some(value) = next else {
            return Ok(true);
        };
        search.spend()?;
        search.save()?;
        let _ = search.board.keep(x, value);
        let on = go_on(search, depth, scout)?;
        search.board.restore();
        if !on {
            return Ok(false);
        }
        next = if falls {
            search.board.previous(x, value.saturating_sub(1))
        } else {
            search.board.next(x, value.saturating_add(1))
        };
    }
    Ok(true)
}

// Whether the values of x are tried from the greatest on; of what is wished for the best come first.
fn falls_at(scout: Scout, x: VarId) -> bool {
    if x.0 == scout.wish.0 {
        return scout.sense == Sense::Max;
    }
    scout.from_greatest
}

// Takes what is no better than the best so far.
fn narrow(board: &mut Board, scout: Scout) {
    if let Some(best) = scout.best
        && let Some(values) = useless_values(board, scout.scope, best, true)
    {
        let _ = board.bound(scout.scope, values.x, values.first, values.last);
    }
}

// The variable of the scope that has the fewest values left, of those that have several; what is wished for comes last.
fn narrowest(board: &Board, scout: Scout) -> Option<VarId> {
    let level = board.level(scout.scope)?;
    level.problem.known();
    let mut found = None;
    let mut fewest = u32::MAX;
    for at in level.from..level.stop {
        let x = VarId(at as u16);
        let size = board.size(x);
        if size > 1 && size < fewest && x.0 != scout.wish.0 {
            fewest = size;
            found = Some(x);
        }
    }
    if found.is_none() && board.size(scout.wish) > 1 {
        return Some(scout.wish);
    }
    found
}

// Keeps the value that was reached, where it is.
fn reach(board: &Board, scout: &mut Scout) {
    if board.may_go_on(scout.scope) && !board.goal_fails() {
        scout.best = Some(board.least(scout.wish));
    }
}
