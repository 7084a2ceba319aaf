//! A sum over the opponent's choices bounded while the leader's are open.
use crate::hunting::Sought;
use crate::replies::follow;
use dense_place::{
    DEPTH, Rival, Search, Stop, after, close_here, is_open_move, one_less, put_skipped,
};
use joins::Found;
use qc_model::{ScopeId, VarId};

/// As many values as a variable can have.
const MOST_VALUES: u32 = 1_048_576;

// What was found of the opponent's choices: the sum of what is left after each, whether one of them is lost for the player, whether the
// sum is of use, and whether the follower has a reply to each, which is kept.
#[derive(Drop)]
struct Tally {
    sum: i64,
    end: End,
    leaf: usize,
    replied: Vec<bool>,
    closely: bool,
    // no part makes the sum worse
    grows: bool,
}

#[derive(Clone, Copy, PartialEq, Eq)]
enum End {
    Open,
    Lost,
    TooGood,
}

/// Shows that the sum over the opponent's choices is no better than what was reached, whatever the leader chooses. A second look tells
/// the follower's values apart. A sum that grows is given up as soon as it is better.
pub(crate) fn bound_by_sum(
    search: &mut Search,
    scope: ScopeId,
    reached: Rival,
    grows: bool,
) -> Result<bool, Stop> {
    let begin = search.lines.len();
    let mut tally = Tally {
        sum: 0,
        end: End::Open,
        leaf: 0,
        replied: Vec::new(search.alloc),
        closely: false,
        grows,
    };
    for closely in [false, true] {
        tally.closely = closely;
        tally.sum = 0;
        tally.leaf = 0;
        tally.end = End::Open;
        search.lines.put(b"n\n")?;
        search.save()?;
        answers(search, DEPTH, after(scope), reached, &mut tally)?;
        search.board.restore();
        if tally.end == End::Lost {
            search.board.add_node(scope, Found::Lost);
            return Ok(true);
        }
        if tally.end == End::Open && reached.beats(tally.sum) {
            search.board.add_node(scope, Found::AtMost(tally.sum));
            return Ok(true);
        }
        search.lines.drop_from(begin);
    }
    Ok(false)
}

// Goes through the opponent's tuples in the box.
#[cycle(answers)]
fn answers(
    search: &mut Search,
    depth: u32,
    opponent: ScopeId,
    reached: Rival,
    tally: &mut Tally,
) -> Result<(), Stop> {
    let depth = one_less(depth)?;
    if !close_here(search, opponent)? {
        if is_open_move(search, opponent) {
            tally.end = End::Lost;
        }
        return Ok(());
    }
    match search.board.first_open(opponent) {
        None => answer(search, opponent, reached, tally),
        Some(x) => each_answer(search, depth, opponent, reached, tally, x),
    }
}

#[cycle(answers)]
fn each_answer(
    search: &mut Search,
    depth: u32,
    opponent: ScopeId,
    reached: Rival,
    tally: &mut Tally,
    x: VarId,
) -> Result<(), Stop> {
    let depth = one_less(depth)?;
    search.lines.put_branch(x)?;
    let mut next = Some(search.board.least(x));
    for _ in 0..MOST_VALUES {
        let Some(value) = next else {
            break;
        };
        search.spend()?;
        search.save()?;
        let _ = search.board.keep(x, value);
        answers(search, depth, opponent, reached, tally)?;
        search.board.restore();
        next = search.board.next(x, value.saturating_add(1));
        if tally.end != End::Open {
            break;
        }
    }
    if tally.end == End::TooGood {
        return Ok(());
    }
    if let Some(first) = next {
        let last = search.board.greatest(x);
        put_skipped(search, first, last)?;
    }
    search.lines.put(b".\n")
}

// One tuple of the opponent: the follower's node.
fn answer(
    search: &mut Search,
    opponent: ScopeId,
    reached: Rival,
    tally: &mut Tally,
) -> Result<(), Stop> {
    if !search.board.may_go_on(opponent) {
        if !search.board.may_be_barred(opponent) {
            tally.end = End::TooGood;
        }
        return search.lines.put(b"x\n");
    }
    search.lines.put(b"n\n")?;
    let sought = sought_at(tally);
    let (left, replied) = follow(search, after(opponent), tally.leaf, tally.closely, sought)?;
    note_replied(tally, replied)?;
    let Some(left) = left else {
        tally.end = End::Lost;
        return Ok(());
    };
    tally.sum = tally.sum.saturating_add(left);
    if tally.grows && !reached.beats(tally.sum) {
        tally.end = End::TooGood;
    }
    Ok(())
}

// What is known of the reply at this answer.
fn sought_at(tally: &Tally) -> Sought {
    match tally.replied.get(tally.leaf) {
        None => Sought::Unsought,
        Some(replied) => {
            if *replied {
                Sought::Found
            } else {
                Sought::Missing
            }
        }
    }
}

fn note_replied(tally: &mut Tally, replied: bool) -> Result<(), Stop> {
    if tally.leaf < tally.replied.len() {
        tally.replied[tally.leaf] = replied;
    } else {
        tally.replied.push(replied)?;
    }
    tally.leaf = tally.leaf.saturating_add(1);
    Ok(())
}
