//! A follower's best reply while the leader's choices are open.
//!
//! The tuple that was his best reply before is put first, or else the one to which its value leads. Where something better is left after
//! it, other values of his first open variable are tried, in the box that is left for what is better.
use dense_board::Closing;
use dense_place::{Reply, Search, Stop, after, close_here, is_better, useless_values};
use qc_model::{Condition, ScopeId, Sense, Target, VarId};

/// How many values of one variable are tried for a reply.
const MOST_TRIES: u32 = 10_000;

/// What is known of the follower's best reply at an answer of the opponent.
#[derive(Clone, Copy, PartialEq, Eq)]
pub(crate) enum Sought {
    /// it is the one that is kept
    Found,
    /// there is none
    Missing,
    /// it wasn't looked for in this box
    Unsought,
}

/// What became of the follower's reply.
#[derive(Clone, Copy, PartialEq, Eq)]
pub(crate) enum Put {
    /// there is none that he can count on
    None,
    /// the one that is kept stands, and the box was closed after it
    Closed,
    /// nothing was left then
    Lost,
}

// What the follower wishes for: less or more of a variable.
#[derive(Clone, Copy)]
struct Wish {
    sense: Sense,
    x: VarId,
}

// A hunt for the best reply of the follower to an answer of the opponent: his wish, his first open variable, the value of it that led to
// the reply that is kept, and where the lines of the reply begin.
#[derive(Clone, Copy)]
struct Hunt {
    follower: ScopeId,
    answer: usize,
    wish: Wish,
    open: Option<VarId>,
    lead: Option<i64>,
    begin: usize,
}

/// Puts the reply where there is one, and closes the box after it.
pub(crate) fn put_reply(
    search: &mut Search,
    follower: ScopeId,
    answer: usize,
    sought: Sought,
) -> Result<Put, Stop> {
    match sought {
        Sought::Missing => Ok(Put::None),
        Sought::Found => put_kept(search, follower, answer),
        Sought::Unsought => put_best(search, follower, answer),
    }
}

// Puts the reply that is kept, where he can count on it, and closes the box after it.
fn put_kept(search: &mut Search, follower: ScopeId, answer: usize) -> Result<Put, Stop> {
    let Some(kept) = search.replies.at(answer) else {
        return Ok(Put::None);
    };
    let tuple = kept.tuple.as_slice();
    if !search.board.reply(follower, tuple) {
        return Ok(Put::None);
    }
    search.lines.put_line(b"f", tuple)?;
    if close_here(search, follower)? {
        Ok(Put::Closed)
    } else {
        Ok(Put::Lost)
    }
}

// Puts the best reply that is found, and keeps it. The box before it stays saved meanwhile.
fn put_best(search: &mut Search, follower: ScopeId, answer: usize) -> Result<Put, Stop> {
    let Some(wish) = wish_of(search, follower) else {
        return Ok(Put::None);
    };
    let hunt = Hunt {
        follower,
        answer,
        wish,
        open: search.board.first_open(follower),
        lead: lead_at(search, answer),
        begin: search.lines.len(),
    };
    search.save()?;
    let first = put_first(search, hunt)?;
    let put = put_better(search, hunt, first)?;
    search.board.forget();
    Ok(put)
}

fn wish_of(search: &Search, follower: ScopeId) -> Option<Wish> {
    let level = search.board.level(follower)?;
    if !level.has_condition {
        return None;
    }
    let own: &Condition = search.board.demanded(after(follower)).first()?;
    match own.target {
        Target::Var(x) => Some(Wish {
            sense: own.sense,
            x,
        }),
        Target::Aggregate(_) => None,
    }
}

// The value that led to the reply that is kept.
fn lead_at(search: &Search, answer: usize) -> Option<i64> {
    search.replies.at(answer)?.lead
}

// Puts the reply that is kept, or else the one to which its value leads here.
fn put_first(search: &mut Search, hunt: Hunt) -> Result<Put, Stop> {
    let put = put_kept(search, hunt.follower, hunt.answer)?;
    if put != Put::None {
        return Ok(put);
    }
    let Some(x) = hunt.open else {
        return Ok(Put::None);
    };
    let Some(value) = hunt.lead else {
        return Ok(Put::None);
    };
    if !search.board.has(x, value) {
        return Ok(Put::None);
    }
    match tuple_from(search, hunt.follower, x, value)? {
        None => Ok(Put::None),
        Some(tuple) => put_counted(search, hunt, tuple, hunt.lead),
    }
}

// Puts the tuple as the reply, and keeps it, where he can count on it in the box that is here.
fn put_counted(
    search: &mut Search,
    hunt: Hunt,
    tuple: Vec<i64>,
    lead: Option<i64>,
) -> Result<Put, Stop> {
    let Some(value) = counted_value(search, hunt, tuple.as_slice())? else {
        return Ok(Put::None);
    };
    search
        .replies
        .note(hunt.answer, Reply { tuple, value, lead })?;
    put_kept(search, hunt.follower, hunt.answer)
}

// The one value of his wish with the tuple, where the box entails with it the restriction and the goal.
fn counted_value(search: &mut Search, hunt: Hunt, tuple: &[i64]) -> Result<Option<i64>, Stop> {
    search.save()?;
    let mut value = None;
    if search.board.take(hunt.follower, tuple)
        && search.board.size(hunt.wish.x) == 1
        && search.board.entails(hunt.follower, after(hunt.follower))
    {
        value = Some(search.board.least(hunt.wish.x));
    }
    search.board.restore();
    Ok(value)
}

// Goes on from what was put, while something better is found.
fn put_better(search: &mut Search, hunt: Hunt, first: Put) -> Result<Put, Stop> {
    let mut put = first;
    let mut from = i64::MIN;
    for _ in 0..MOST_TRIES {
        if put == Put::Lost {
            break;
        }
        let Some(other) = next_tuple(search, hunt, put, from)? else {
            break;
        };
        put = put_other(search, hunt, put, other.tuple, other.lead)?;
        match other.lead {
            None => break,
            Some(value) => from = value.saturating_add(1),
        }
    }
    Ok(put)
}

// A tuple, and the value of his first open variable that led to it.
#[derive(Drop)]
struct Led {
    tuple: Vec<i64>,
    lead: Option<i64>,
}

// The next tuple that closing leads to from one value of his first open variable, where something better than what was put is left.
fn next_tuple(search: &mut Search, hunt: Hunt, put: Put, from: i64) -> Result<Option<Led>, Stop> {
    let Some(x) = hunt.open else {
        if put != Put::None {
            return Ok(None);
        }
        let tuple = search.board.tuple(search.alloc, hunt.follower)?;
        return Ok(Some(Led { tuple, lead: None }));
    };
    search.save()?;
    let mut found = None;
    if put == Put::None || leave_better(search, hunt) {
        found = next_from(search, hunt, x, from)?;
    }
    search.board.restore();
    Ok(found)
}

// The same in a box where x has values left that lead to what is better. The value that led to what was kept was tried before.
fn next_from(search: &mut Search, hunt: Hunt, x: VarId, from: i64) -> Result<Option<Led>, Stop> {
    let mut next = search.board.next(x, from);
    for _ in 0..MOST_TRIES {
        let Some(value) = next else {
            break;
        };
        if hunt.lead != Some(value)
            && let Some(tuple) = tuple_from(search, hunt.follower, x, value)?
        {
            return Ok(Some(Led {
                tuple,
                lead: Some(value),
            }));
        }
        next = search.board.next(x, value.saturating_add(1));
    }
    Ok(None)
}

// Puts the tuple in place of what was put, where he can count on it and it is better; else that stays.
fn put_other(
    search: &mut Search,
    hunt: Hunt,
    put: Put,
    tuple: Vec<i64>,
    lead: Option<i64>,
) -> Result<Put, Stop> {
    if put == Put::None {
        return put_counted(search, hunt, tuple, lead);
    }
    let Some(value) = counted_value(search, hunt, tuple.as_slice())? else {
        return Ok(put);
    };
    if !is_better_than_kept(search, hunt, value) {
        return Ok(put);
    }
    // he has to count on it in the whole box, which was saved
    search.board.restore();
    search.lines.drop_from(hunt.begin);
    search.save()?;
    match put_counted(search, hunt, tuple, lead)? {
        Put::None => put_kept(search, hunt.follower, hunt.answer),
        other => Ok(other),
    }
}

fn is_better_than_kept(search: &Search, hunt: Hunt, value: i64) -> bool {
    match search.replies.at(hunt.answer) {
        None => true,
        Some(kept) => is_better(hunt.wish.sense, value, kept.value),
    }
}

// The tuple that closing leads to from one value of x, where it leads to one.
fn tuple_from(
    search: &mut Search,
    follower: ScopeId,
    x: VarId,
    value: i64,
) -> Result<Option<Vec<i64>>, Stop> {
    search.save()?;
    let _ = search.board.keep(x, value);
    let is_one = search.board.close(follower) != Closing::Lost
        && search.board.first_open(follower).is_none();
    let mut tuple = None;
    if is_one {
        tuple = Some(search.board.tuple(search.alloc, follower)?);
    }
    search.board.restore();
    Ok(tuple)
}

// Takes what is no better for the follower than the reply that is kept, closes the box, and says whether something is left.
fn leave_better(search: &mut Search, hunt: Hunt) -> bool {
    let Some(kept) = search.replies.at(hunt.answer) else {
        return true;
    };
    let Some(values) = useless_values(&search.board, hunt.follower, kept.value, true) else {
        return true;
    };
    let _ = search
        .board
        .bound(hunt.follower, values.x, values.first, values.last);
    !search.board.is_empty() && search.board.close(hunt.follower) != Closing::Lost
}
