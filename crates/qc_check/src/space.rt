//! The memory that checks of one problem's certificates take.
ghost use Rattle.std.specs.Prelude.{◌≡◌};

use check_lines::Machine;
use qc_model::Problem;

/// All memory that checks of one problem's certificates take.
#[derive(Drop)]
pub struct Space<'p> {
    pub(crate) problem: &'p Problem,
    pub(crate) machine: Machine<'p>,
    ghost of_problem: { machine.levels.problem.now ≡ problem.now },
}
