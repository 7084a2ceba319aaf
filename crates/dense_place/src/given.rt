//! Tuples that the opponent can always take.
use crate::place::one_less;
use crate::stop::Stop;
use dense_board::{Board, Closing, Given};
use qc_model::{Problem, ScopeId};
use std::alloc::Global;

/// How many values are tried for a tuple.
const MOST_TRIES: u32 = 2_000;

/// How deep a tuple is gone after: a scope has up to 500 variables.
const DEEPEST: u32 = 1_100;

/// A tuple for each scope of the opponent that has a restriction, where one was found that is always allowed.
pub fn given_tuples(alloc: Global, problem: &Problem) -> Result<Vec<Given>, Stop> {
    // (a `?` on what owns so much costs its proof minutes)
    let Ok(mut board) = Board::new(alloc, problem, &[]) else {
        return Err(Stop::Memory);
    };
    let given = tuples_on(alloc, &mut board);
    drop(board);
    given
}

// The same on a board on which nothing was chosen.
fn tuples_on(alloc: Global, board: &mut Board) -> Result<Vec<Given>, Stop> {
    let mut given = Vec::new(alloc);
    for i in 0..board.scopes() {
        let scope = ScopeId(i as u8);
        if board.is_free_at(scope) {
            continue;
        }
        if !board.save()? {
            return Ok(given);
        }
        add_tuple(alloc, board, scope, &mut given)?;
        board.restore_to(0);
    }
    Ok(given)
}

// Adds a tuple of the scope that is always allowed, where one is found.
fn add_tuple(
    alloc: Global,
    board: &mut Board,
    scope: ScopeId,
    given: &mut Vec<Given>,
) -> Result<(), Stop> {
    let mut tries = MOST_TRIES;
    if fix_tuple(board, DEEPEST, scope, &mut tries)? {
        let tuple = board.tuple(alloc, scope)?;
        given.push(Given { scope, tuple })?;
    }
    Ok(())
}

// Takes values until the scope has a tuple with which its restriction holds throughout the box, and says whether there is one. Where
// there is, the boxes that were saved on the way stay saved.
#[cycle(fix)]
fn fix_tuple(board: &mut Board, depth: u32, scope: ScopeId, tries: &mut u32) -> Result<bool, Stop> {
    let depth = one_less(depth)?;
    if board.close(scope) == Closing::Lost {
        return Ok(false);
    }
    let Some(x) = board.first_open(scope) else {
        return Ok(board.may_go_on(scope));
    };
    let mut next = Some(board.least(x));
    for _ in 0..MOST_TRIES {
        let Some(value) = next else {
            return Ok(false);
        };
        if *tries == 0 {
            return Ok(false);
        }
        *tries -= 1;
        if !board.save()? {
            return Ok(false);
        }
        let _ = board.keep(x, value);
        if fix_tuple(board, depth, scope, tries)? {
            return Ok(true);
        }
        board.restore();
        next = board.next(x, value.saturating_add(1));
    }
    Ok(false)
}
