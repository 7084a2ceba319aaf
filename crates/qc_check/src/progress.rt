//! How far a check has come.
ghost use Rattle.std.specs.Prelude.{◌≡◌};

use crate::starts::Starts;
use crate::stated::{Stated, Stop};
use check_lines::Machine;
use check_memory::NodeMemory;
use proof_text::LineReader;
use qc_model::Problem;

/// What is known of a certificate after some of its bytes.
#[derive(Drop)]
pub struct Checker<'p> {
    pub(crate) problem: &'p Problem,
    pub(crate) reader: LineReader,
    pub(crate) machine: Machine<'p>,
    pub(crate) memory: NodeMemory<'p>,
    // The nodes of the piece that is read.
    pub(crate) starts: Starts,
    pub(crate) head: Option<Stated>,
    pub(crate) stop: Option<Stop>,
    // The bytes read; once there was a fault, its place.
    pub(crate) read: u64,
    ghost of_problem: { machine.levels.problem.now ≡ problem.now },
    ghost of_memory: { memory ≡ problem.now },
}
