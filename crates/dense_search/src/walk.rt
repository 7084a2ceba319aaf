//! The way through a game, from scope to scope and value to value.
use dense_loose::{bound_loosely, note_leaf};
use dense_place::{
    Ahead, Lines, Place, Search, Stop, after, bound_by, bound_here, close_here, found_freely,
    is_dead_end, is_opposed, is_settled, keep_alone, look_ahead, node_over, one_less, rival_below,
    wants_much,
};
use joins::Found;
use qc_model::{ScopeId, Sense, VarId};

/// As many values as a variable can have.
const MOST_VALUES: u32 = 1_048_576;

// The cases of a branch: where their lines begin, the value that was gone into first, and its lines until they are put in their place.
#[derive(Drop)]
struct Cases {
    x: VarId,
    body: usize,
    ahead: Option<i64>,
    aside: Option<Vec<u8>>,
}

impl Cases {
    // Puts the lines of the value that was gone into first.
    fn put_aside(&mut self, lines: &mut Lines) -> Result<(), Stop> {
        match self.aside.take() {
            None => Ok(()),
            Some(kept) => lines.put(kept.as_slice()),
        }
    }
}

// Puts lines that were taken out, those of the latest first.
fn put_latest_first(lines: &mut Lines, mut done: Vec<Vec<u8>>) -> Result<(), Stop> {
    for _ in 0..done.len() {
        if let Some(kept) = done.pop() {
            lines.put(kept.as_slice())?;
        }
    }
    Ok(())
}

/// Writes the lines of a node, and says what it comes to; where that is exact, its vector is handed out.
#[cycle(walk)]
pub(crate) fn node(search: &mut Search, depth: u32, place: Place) -> Result<Found, Stop> {
    let depth = one_less(depth)?;
    if place.is_at_horizon() {
        return stuck(search, place.scope);
    }
    if place.scope.0 as usize >= search.board.scopes() {
        search.lines.put(b"g\n")?;
        return Ok(search.board.finish_goal());
    }
    let looked = search.look_up(place)?;
    if let Some(found) = looked {
        return Ok(found);
    }
    let begin = search.lines.len();
    match look_ahead(search, place)? {
        Ahead::Lost => return Ok(Found::Lost),
        Ahead::Stuck => return stuck(search, place.scope),
        Ahead::On(ahead) => own_tree(search, depth, ahead)?,
    }
    node_over(search, place, begin)
}

// The owner of the scope has no move.
fn stuck(search: &mut Search, scope: ScopeId) -> Result<Found, Stop> {
    search.lines.put(b"t\n")?;
    Ok(search.board.finish_stuck(scope))
}

/// Writes a scope's own tree. Where that takes long it may begin again.
#[cycle(walk)]
fn own_tree(search: &mut Search, depth: u32, place: Place) -> Result<(), Stop> {
    let depth = one_less(depth)?;
    let begin = search.lines.len();
    let saved = search.board.saved_count();
    search.board.clear(place.scope);
    search.save()?;
    search.watch(place.scope);
    match part(search, depth, place) {
        Ok(_) => {}
        Err(Stop::Slow) => {
            search.board.restore_to(saved);
            search.lines.drop_from(begin);
            bounded_tree(search, depth, place)?;
        }
        Err(Stop::Again) if place.scope.0 == 0 => {
            search.board.restore_to(saved);
            search.lines.drop_from(begin);
            search.go_back();
            return own_tree(search, depth, place);
        }
        Err(stop) => return Err(stop),
    }
    search.unwatch();
    search.board.restore_to(saved);
    Ok(())
}

/// Writes the last scope's own tree, with a bound before all by what a free search finds.
#[cycle(walk)]
fn bounded_tree(search: &mut Search, depth: u32, place: Place) -> Result<(), Stop> {
    let depth = one_less(depth)?;
    search.unwatch();
    search.board.clear(place.scope);
    search.save()?;
    let place = match found_freely(search, place.scope)? {
        None => place,
        Some(best) => bound_by(search, place, best)?,
    };
    let _ = part(search, depth, place)?;
    Ok(())
}

/// Writes a part of a scope's own tree, and says whether the scope needs no other.
#[cycle(walk)]
fn part(search: &mut Search, depth: u32, place: Place) -> Result<bool, Stop> {
    let depth = one_less(depth)?;
    if !close_here(search, place.scope)? {
        return Ok(search.board.is_settled(place.scope));
    }
    if is_dead_end(search, place.scope)? {
        return Ok(search.board.is_settled(place.scope));
    }
    let Some(place) = bound_here(search, place)? else {
        return Ok(false);
    };
    if place.horizon.is_none() && bound_loosely(search, place.scope)? {
        return Ok(false);
    }
    match search.board.first_open_from(place.scope, place.open_from) {
        None => leaf(search, depth, place),
        Some(x) => branch(search, depth, place, x),
    }
}

/// Goes on to the next scope, where the values of this one are single.
#[cycle(walk)]
fn leaf(search: &mut Search, depth: u32, place: Place) -> Result<bool, Stop> {
    let depth = one_less(depth)?;
    if !search.board.may_go_on(place.scope) {
        return barred(search, place.scope);
    }
    search.lines.put(b"n\n")?;
    let next = below(search, place);
    let found = node(search, depth, next)?;
    let before = search.board.incumbent(place.scope);
    search.board.add_node(place.scope, found);
    search.note_reached(place.scope, before)?;
    let settled = is_settled(search, place);
    note_leaf(search, place.scope, settled, found)?;
    Ok(settled)
}

// A tuple that isn't allowed.
fn barred(search: &mut Search, scope: ScopeId) -> Result<bool, Stop> {
    if !search.board.may_be_barred(scope) {
        return Err(Stop::Spent);
    }
    search.lines.put(b"x\n")?;
    search.board.add_barred(scope);
    Ok(false)
}

// The place of the next scope.
fn below(search: &Search, place: Place) -> Place {
    Place {
        scope: after(place.scope),
        rival: rival_below(search, place.scope),
        bounded: place.bounded && search.board.is_players(place.scope),
        horizon: place.horizon,
        open_from: VarId(0),
    }
}

/// Goes through the values left to x, one by one.
#[cycle(walk)]
fn branch(search: &mut Search, depth: u32, place: Place, x: VarId) -> Result<bool, Stop> {
    let depth = one_less(depth)?;
    search.lines.put_branch(x)?;
    let mut cases = Cases {
        x,
        body: search.lines.len(),
        ahead: value_ahead(search, place.scope, x),
        aside: None,
    };
    if let Some(value) = cases.ahead {
        if case(search, depth, place, x, value)? {
            keep_alone(search, place.scope, x, value, cases.body, cases.body)?;
            return Ok(true);
        }
        cases.aside = Some(search.lines.take_from(cases.body)?);
    }
    let settled = if falls(search, place.scope) {
        falling(search, depth, place, &mut cases)?
    } else {
        rising(search, depth, place, &mut cases)?
    };
    if !settled {
        search.lines.put(b".\n")?;
    }
    Ok(settled)
}

/// Goes through the cases from the least value on.
#[cycle(walk)]
fn rising(search: &mut Search, depth: u32, place: Place, cases: &mut Cases) -> Result<bool, Stop> {
    let depth = one_less(depth)?;
    let mut next = Some(search.board.least(cases.x));
    for _ in 0..MOST_VALUES {
        let Some(value) = next else {
            break;
        };
        if cases.ahead == Some(value) {
            cases.put_aside(&mut search.lines)?;
        } else {
            let begin = search.lines.len();
            if case(search, depth, place, cases.x, value)? {
                keep_alone(search, place.scope, cases.x, value, cases.body, begin)?;
                return Ok(true);
            }
        }
        next = search.board.next(cases.x, value.saturating_add(1));
    }
    Ok(false)
}

/// Goes through the cases from the greatest value on, and puts them in order.
#[cycle(walk)]
fn falling(search: &mut Search, depth: u32, place: Place, cases: &mut Cases) -> Result<bool, Stop> {
    let depth = one_less(depth)?;
    let mut done = Vec::new(search.alloc);
    let mut next = Some(search.board.greatest(cases.x));
    for _ in 0..MOST_VALUES {
        let Some(value) = next else {
            break;
        };
        if cases.ahead == Some(value) {
            cases.put_aside(&mut search.lines)?;
        } else if case(search, depth, place, cases.x, value)? {
            keep_alone(search, place.scope, cases.x, value, cases.body, cases.body)?;
            return Ok(true);
        }
        next = search.board.previous(cases.x, value.saturating_sub(1));
        // the least value's lines come first, so they stay
        if next.is_some() {
            done.push(search.lines.take_from(cases.body)?)?;
        }
    }
    put_latest_first(&mut search.lines, done)?;
    Ok(false)
}

/// Goes into one value of x.
#[cycle(walk)]
fn case(search: &mut Search, depth: u32, place: Place, x: VarId, value: i64) -> Result<bool, Stop> {
    let depth = one_less(depth)?;
    search.spend()?;
    search.save()?;
    let _ = search.board.keep(x, value);
    let place = Place {
        open_from: x,
        ..place
    };
    let settled = part(search, depth, place)?;
    search.board.restore();
    Ok(settled)
}

// The value to go into first, where another one comes first by itself.
fn value_ahead(search: &Search, scope: ScopeId, x: VarId) -> Option<i64> {
    let value = wanted_value(search, scope, x)?;
    let first = if falls(search, scope) {
        search.board.greatest(x)
    } else {
        search.board.least(x)
    };
    if !search.board.has(x, value) || value == first {
        return None;
    }
    Some(value)
}

// The value of the tuple that settled the scope last, where one leaf may settle it; or of the best tuple reached, where the scope begins
// again.
fn wanted_value(search: &Search, scope: ScopeId, x: VarId) -> Option<i64> {
    let opposed = is_opposed(&search.board, scope);
    let may_settle = !search.board.is_players(scope)
        || opposed
        || search.board.demanded(after(scope)).is_empty();
    if !may_settle && !search.goes_back(scope) {
        return None;
    }
    match search.hints.value(scope, x) {
        Some(value) => Some(value),
        None if opposed => best_end(search, scope, x),
        None => None,
    }
}

// Whether values are gone through from the greatest on: a leader who wants much mostly has it by large values.
fn falls(search: &Search, scope: ScopeId) -> bool {
    wants_much(&search.board, scope) && !search.rises(scope)
}

// The end of a variable's values that is likely to serve a wish: the greatest where more is better.
fn best_end(search: &Search, scope: ScopeId, x: VarId) -> Option<i64> {
    let first = search.board.demanded(after(scope)).first()?;
    match first.sense {
        Sense::Min => None,
        Sense::Max => Some(search.board.greatest(x)),
    }
}
