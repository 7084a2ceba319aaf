//! How far a check has come.
ghost use Rattle.std.specs.Prelude.{◌≡◌};
ghost use Rattle.dense_check.specs.Telling.{game_of};

use crate::gather::Gather;
use crate::heads::Head;
use dense_check::DenseMachine;
use dense_text::DenseReader;
use qc_model::Problem;

/// Why no more bytes are read.
#[derive(Clone, Copy)]
pub(crate) enum Stop {
    /// They are no certificate's text.
    Bad,
    /// Memory was refused, so a line is missing.
    Spent,
}

/// What is known of a dense certificate after some bytes of its text.
#[derive(Drop)]
pub struct DenseChecker<'p> {
    pub(crate) problem: &'p Problem,
    pub(crate) reader: DenseReader,
    pub(crate) gather: Gather,
    // it was given all whole lines
    pub(crate) machine: DenseMachine<'p>,
    // what the first two lines state
    pub(crate) head: Option<Head>,
    pub(crate) stop: Option<Stop>,
    // The bytes read; once there was a fault, its place.
    pub(crate) read: u64,
    ghost of_problem: { game_of machine ≡ problem.now },
}
