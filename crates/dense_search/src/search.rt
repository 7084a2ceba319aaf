//! The search from the beginning of a game.
use crate::expanding::expanded;
use crate::walk::node;
use dense_board::{Board, Given};
use dense_place::{DEPTH, Lines, Place, Search, Stop, given_tuples};
use joins::Found;
use qc_model::{Problem, ScopeId, VarId};
use std::alloc::{AllocError, Global};

/// The text of a dense certificate for the game, found within so many turns. None comes where these don't suffice, or the search has
/// no lines for what it meets. Nothing is promised of a text that comes. It fails only where memory runs out.
pub fn certify(
    alloc: Global,
    problem: &Problem,
    turns: u64,
) -> Result<Option<Vec<u8>>, AllocError> {
    match written(alloc, problem, turns) {
        Ok(text) => Ok(text),
        Err(Stop::Spent) => Ok(None),
        Err(Stop::Slow) => Ok(None),
        Err(Stop::Again) => Ok(None),
        Err(Stop::Memory) => Err(AllocError),
    }
}

fn written(alloc: Global, problem: &Problem, turns: u64) -> Result<Option<Vec<u8>>, Stop> {
    problem.known();
    if problem.scopes() == 0 {
        return Ok(None);
    }
    let given = given_tuples(alloc, problem)?;
    let Ok(board) = Board::new(alloc, problem, given.as_slice()) else {
        return Err(Stop::Memory);
    };
    // (what owns so much costs the proof minutes by a `?`, or let go without a word)
    match Search::new(alloc, board, turns) {
        Ok(mut search) => {
            let text = searched(alloc, &mut search, given.as_slice());
            drop(search);
            text
        }
        Err(stop) => Err(stop),
    }
}

// The text that a search comes to.
fn searched(alloc: Global, search: &mut Search, given: &[Given]) -> Result<Option<Vec<u8>>, Stop> {
    let root = Place {
        scope: ScopeId(0),
        rival: None,
        bounded: false,
        horizon: None,
        open_from: VarId(0),
    };
    let found = node(search, DEPTH, root)?;
    text_of(alloc, search, given, found)
}

// The text, where the root came to an outcome.
fn text_of(
    alloc: Global,
    search: &Search,
    given: &[Given],
    found: Found,
) -> Result<Option<Vec<u8>>, Stop> {
    let mut lines = Lines::new(alloc);
    lines.put(b"qcert 4\n")?;
    match found {
        Found::Lost => lines.put(b"false\n")?,
        Found::Exact => put_won(&mut lines, search.own)?,
        Found::AtMost(_) => return Ok(None),
        Found::Unknown => return Ok(None),
    }
    for it in given {
        lines.put(b"u")?;
        lines.put_numbers(&[i64::from(it.scope.0) + 1])?;
        lines.put_line(b"", it.tuple.as_slice())?;
    }
    expanded(search, &mut lines)?;
    Ok(Some(lines.take_from(0)?))
}

fn put_won(lines: &mut Lines, own: Option<i64>) -> Result<(), Stop> {
    match own {
        None => lines.put(b"true\n"),
        Some(value) => lines.put_line(b"true", &[value]),
    }
}
