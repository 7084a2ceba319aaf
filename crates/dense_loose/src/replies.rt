//! A follower's node while the leader's choices are open: what he can count on, and what is left then.
use crate::hunting::{Put, Sought, put_reply};
use dense_place::{Search, Stop, close_here, is_better};
use qc_model::{ScopeId, Sense, VarId};

/// How many values of one variable are told apart.
const MOST_VALUES: u32 = 10_000;

/// Writes the follower's node at an answer of the opponent in the box that is here, and tells the best first value that is left; None
/// where he is lost. Where the node is looked at more closely, the values of his first open variable are told apart. It says too whether
/// a reply stands there; then it is kept.
pub(crate) fn follow(
    search: &mut Search,
    follower: ScopeId,
    answer: usize,
    closely: bool,
    sought: Sought,
) -> Result<(Option<i64>, bool), Stop> {
    if !close_here(search, follower)? {
        return Ok((None, false));
    }
    let put = put_reply(search, follower, answer, sought)?;
    if put == Put::Lost {
        return Ok((None, false));
    }
    let replied = put == Put::Closed;
    let left = match search.board.best_left(follower) {
        None => return Err(Stop::Spent),
        Some(left) => left,
    };
    if closely && let Some(x) = search.board.first_open(follower) {
        let told = tell_apart(search, follower, x, left)?;
        return Ok((told, replied));
    }
    search.lines.put(b"y\n")?;
    Ok((Some(left), replied))
}

// Writes the values of x each with what is left, where that is better than all together; the best of them, None where none is left.
fn tell_apart(
    search: &mut Search,
    follower: ScopeId,
    x: VarId,
    together: i64,
) -> Result<Option<i64>, Stop> {
    let Some(first) = search.board.demanded(follower).first() else {
        return Err(Stop::Spent);
    };
    let sense = first.sense;
    let begin = search.lines.len();
    search.lines.put_branch(x)?;
    let mut best = None;
    let mut next = Some(search.board.least(x));
    for _ in 0..MOST_VALUES {
        let Some(value) = next else {
            break;
        };
        let left = left_at(search, follower, x, value)?;
        best = better_of(sense, best, left);
        next = search.board.next(x, value.saturating_add(1));
    }
    if best == Some(together) {
        search.lines.drop_from(begin);
        search.lines.put(b"y\n")?;
        return Ok(best);
    }
    search.lines.put(b".\n")?;
    Ok(best)
}

fn better_of(sense: Sense, one: Option<i64>, other: Option<i64>) -> Option<i64> {
    let Some(a) = one else {
        return other;
    };
    let Some(b) = other else {
        return one;
    };
    if is_better(sense, b, a) { other } else { one }
}

fn left_at(
    search: &mut Search,
    follower: ScopeId,
    x: VarId,
    value: i64,
) -> Result<Option<i64>, Stop> {
    search.spend()?;
    search.save()?;
    let _ = search.board.keep(x, value);
    let mut left = None;
    if close_here(search, follower)? {
        left = search.board.best_left(follower);
        search.lines.put(b"y\n")?;
    }
    search.board.restore();
    Ok(left)
}
