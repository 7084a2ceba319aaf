//! The board of a game.
ghost use Rattle.std.specs.Prelude.{◌≡◌, length, true};
ghost use Rattle.model_arguments.specs.Asked.{is_box_of};
ghost use Rattle.joins.specs.DemandLists.{HasLists};
ghost use Rattle.joins.specs.Joins.{game_of as game_joined};
ghost use Rattle.dense_board.specs.Saved.{AreSaved};
ghost use Rattle.dense_box.specs.Wished.{TracksAll};

use check_box::Remains;
use dense_box::{Freedom, Wishes};
use dense_close::Closer;
use fd_store::Mark;
use joins::{Demands, Joins};
use likeness::Likeness;
use model_levels::Levels;

/// What came of closing a box: no box within it is closed, or a move of the opponent's has no answer; or it was closed already;
/// or values went, and now it is.
#[derive(Clone, Copy, PartialEq, Eq)]
pub enum Closing {
    Lost,
    Same,
    Narrowed,
}

/// The box of one place of a game, with a trail and the boxes that were saved, and what is known of the game once for all.
#[derive(Drop)]
pub struct Board<'p> {
    pub levels: Levels<'p>,
    pub(crate) demands: Demands,
    pub(crate) remains: Remains,
    pub(crate) closer: Closer<'p>,
    pub(crate) freedom: Freedom,
    pub(crate) wishes: Wishes,
    pub(crate) joins: Joins<'p>,
    pub(crate) likeness: Likeness<'p>,
    // room for a position: one value for each variable
    pub(crate) values: Vec<i64>,
    // from this number on no scope is one of the opponent without a restriction
    pub(crate) moves_end: usize,
    // places of the trail, the last one saved at the end
    pub(crate) saved: Vec<Mark>,
    ghost declared: { is_box_of levels.problem.now remains.box ≡ true },
    ghost closes: { closer ≡ levels.problem.now },
    ghost lists: { HasLists levels.problem.now demands },
    ghost standings: { length freedom.standings.items ≡ length levels.problem.now.scopes },
    ghost tracked: { TracksAll levels.problem.now wishes },
    ghost compares: { likeness ≡ levels.problem.now },
    ghost joined: { game_joined joins ≡ levels.problem.now },
    ghost saves: { AreSaved levels.problem.now remains saved.items },
}
