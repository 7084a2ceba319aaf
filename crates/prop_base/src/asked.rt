//! A constraint that is to be filtered.
ghost use Rattle.std.specs.Prelude.{◌≡◌, slice_get, Some};

use qc_model::{ConId, Constraint, Problem};

/// A constraint that a filter is asked about, with the problem that has it by this number.
#[derive(Clone, Copy)]
pub struct Asked<'p> {
    pub problem: &'p Problem,
    pub c: ConId,
    pub rule: &'p Constraint,
    pub ghost listed: { slice_get problem.now.constraints c.0 ≡ Some rule.now },
}
