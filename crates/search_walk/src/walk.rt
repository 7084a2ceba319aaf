//! What changes on the way through a game.
ghost use Rattle.std.specs.Prelude.{◌≡◌};
ghost use Rattle.joins.specs.Joins.{game_of};

use joins::Joins;
use proof_tree::{Step, StepList};
use search_advice::Advice;
use search_box::SearchBox;
use search_kept::{AsideNodes, KnownNodes};
use std::alloc::Global;
use strategy_arena::Arena;

/// The values left, what was seen in each scope on the way, the lines written, the steps of the closing that was the last and
/// room for those of them that are put, how many cases may still be gone into, which tuples are tried first, which nodes are
/// known, and which are kept aside.
#[derive(Drop)]
pub struct Walk<'p> {
    pub alloc: Global,
    pub remains: SearchBox<'p>,
    pub joins: Joins<'p>,
    pub lines: Arena,
    pub steps: StepList,
    pub needed: Vec<Step>,
    pub left: u64,
    pub advice: Advice<'p>,
    pub known: KnownNodes<'p>,
    pub aside: AsideNodes<'p>,
    ghost same: { known.problem.now ≡ game_of joins },
    ghost beside: { aside.problem.now ≡ game_of joins },
}
