//! How far a check has come.
ghost use Rattle.std.specs.Prelude.{◌≡◌};

use lemma_check::LemmaMachine;
use lemma_text::LemmaReader;
use qc_model::{Kind, Problem};

/// Why no more bytes are read.
#[derive(Clone, Copy)]
pub(crate) enum Stop {
    /// They are no list's text.
    Bad,
    /// Memory was refused, so an item is missing.
    Spent,
}

/// What is known of a list of lemmas after some bytes of its text.
#[derive(Drop)]
pub struct ListChecker<'p> {
    pub(crate) problem: &'p Problem,
    pub(crate) reader: LemmaReader,
    pub(crate) machine: LemmaMachine<'p>,
    // The side that loses the game by the first two lines.
    pub(crate) loser: Option<Kind>,
    pub(crate) stop: Option<Stop>,
    // The bytes read; once there was a fault, its place.
    pub(crate) read: u64,
    ghost of_problem: { machine.levels.problem.now ≡ problem.now },
}
