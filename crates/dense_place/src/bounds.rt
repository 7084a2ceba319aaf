//! Bounds by what was reached.
use crate::closing::close_here;
use crate::place::{Place, after};
use crate::search::Search;
use crate::stop::Stop;
use dense_board::Board;
use qc_model::{Condition, ScopeId, Sense, Target, VarId};

/// The least and the greatest number of a problem.
const LEAST: i64 = -1_000_000_000;

const GREATEST: i64 = 1_000_000_000;

/// Values of a variable, from the first to the last of them.
#[derive(Clone, Copy)]
pub struct Values {
    pub x: VarId,
    pub first: i64,
    pub last: i64,
}

/// Takes out of the variable that is demanded first what is no better than what the scope has reached, and closes the box again.
/// None comes where nothing is left then; else the place, below a bound where values went.
pub fn bound_here(search: &mut Search, place: Place) -> Result<Option<Place>, Stop> {
    let Some(best) = search.board.incumbent(place.scope) else {
        return Ok(Some(place));
    };
    let ties = search.board.demanded(after(place.scope)).len() == 1;
    let bounded = put_bound(search, place, best, ties)?;
    if bounded.is_none() {
        return Ok(Some(place));
    }
    if search.board.is_empty() {
        search.lines.put(b"e\n")?;
        return Ok(None);
    }
    if !close_here(search, place.scope)? {
        return Ok(None);
    }
    Ok(bounded)
}

/// Takes out of the variable that is demanded first what is worse than a value. The place comes, below a bound where values went.
pub fn bound_by(search: &mut Search, place: Place, best: i64) -> Result<Place, Stop> {
    Ok(put_bound(search, place, best, false)?.unwrap_or(place))
}

// Puts a bound by a value, the step that takes what is worse, or equal too. The place below it; None where nothing is to be taken.
fn put_bound(
    search: &mut Search,
    place: Place,
    best: i64,
    ties: bool,
) -> Result<Option<Place>, Stop> {
    let Some(values) = useless_values(&search.board, place.scope, best, ties) else {
        return Ok(None);
    };
    let Some(mark) = search
        .board
        .bound(place.scope, values.x, values.first, values.last)
    else {
        return Ok(None);
    };
    search.lines.put_line(
        b"b",
        &[i64::from(values.x.0) + 1, values.first, values.last],
    )?;
    search.board.add_bound(place.scope, mark);
    Ok(Some(Place {
        bounded: true,
        ..place
    }))
}

/// The values left to the variable demanded first after the scope that are worse than one, or equal too.
pub fn useless_values(board: &Board, scope: ScopeId, best: i64, ties: bool) -> Option<Values> {
    let first = board.demanded(after(scope)).first()?;
    let Target::Var(x) = first.target else {
        return None;
    };
    let (low, high) = no_better(first, best, ties);
    let first = board.next(x, low)?;
    let last = board.previous(x, high)?;
    if first > last {
        return None;
    }
    Some(Values { x, first, last })
}

// The numbers that are worse than one, or equal too.
fn no_better(condition: &Condition, best: i64, ties: bool) -> (i64, i64) {
    match condition.sense {
        Sense::Min => {
            let low = if ties { best } else { best.saturating_add(1) };
            (low, GREATEST)
        }
        Sense::Max => {
            let high = if ties { best } else { best.saturating_sub(1) };
            (LEAST, high)
        }
    }
}
