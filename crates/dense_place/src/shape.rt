//! How a scope's choices are bounded while they are open.
use crate::endings::is_opposed;
use crate::place::after;
use dense_board::Board;
use qc_model::{Condition, Fold, ScopeId, Sense, Target};
use std::alloc::AllocError;

/// The three shapes of games in which they are, and the one of sums that no part makes worse: a follower who wants the opposite answers
/// at once; the opponent picks what is worst for the leader, and a follower answers; or what follows is summed over the opponent's choices.
#[derive(Clone, Copy, PartialEq, Eq)]
pub enum Shape {
    No,
    Opposed,
    Worst,
    Sum,
    // a sum that no part makes worse
    GrowingSum,
}

/// Adds the shape of each scope.
pub fn note_shapes(shapes: &mut Vec<Shape>, board: &Board) -> Result<(), AllocError> {
    for i in 0..board.scopes() {
        shapes.push(shape_of(board, ScopeId(i as u8)))?;
    }
    Ok(())
}

fn shape_of(board: &Board, scope: ScopeId) -> Shape {
    if !board.is_players(scope) {
        return Shape::No;
    }
    let next = after(scope);
    let Some(first) = board.demanded(next).first() else {
        return Shape::No;
    };
    match first.target {
        Target::Var(_) => {
            if is_opposed(board, next) {
                Shape::Opposed
            } else {
                Shape::No
            }
        }
        Target::Aggregate(_) => shape_by_fold(board, next, first),
    }
}

// The shape where the scope's wish is an aggregate: the opponent moves next, and the last scope follows.
fn shape_by_fold(board: &Board, next: ScopeId, first: &Condition) -> Shape {
    let last = after(next);
    if board.is_players(next) || !board.is_players(last) {
        return Shape::No;
    }
    if after(last).0 as usize != board.scopes() || !begins_with_own(board, last) {
        return Shape::No;
    }
    match board.fold_of(first.target) {
        None => Shape::No,
        Some(Fold::Sum) => shape_of_sum(board, last, first.sense),
        Some(Fold::Greatest(_)) => worst_for(first.sense, Sense::Min),
        Some(Fold::Least(_)) => worst_for(first.sense, Sense::Max),
    }
}

// The shape of a sum of what is demanded of the last scope first, by the values that are declared.
fn shape_of_sum(board: &Board, last: ScopeId, sense: Sense) -> Shape {
    let Some(first) = board.demanded(last).first() else {
        return Shape::No;
    };
    let Target::Var(x) = first.target else {
        return Shape::No;
    };
    let grows = match sense {
        Sense::Min => board.greatest(x) <= 0,
        Sense::Max => board.least(x) >= 0,
    };
    if grows { Shape::GrowingSum } else { Shape::Sum }
}

fn worst_for(sense: Sense, wanted: Sense) -> Shape {
    if sense == wanted {
        Shape::Worst
    } else {
        Shape::No
    }
}

// Whether what is demanded of the last scope first is a variable of its own.
fn begins_with_own(board: &Board, scope: ScopeId) -> bool {
    let Some(level) = board.level(scope) else {
        return false;
    };
    let Some(first) = board.demanded(scope).first() else {
        return false;
    };
    match first.target {
        Target::Var(x) => level.from <= x.0 as usize && (x.0 as usize) < level.stop,
        Target::Aggregate(_) => false,
    }
}
