//! What a filter asks of the table of refutations.
ghost use Rattle.std.specs.Prelude.{◌≡◌, ◌<◌, length, IsTrue, IsFalse};
ghost use Rattle.qc_model.specs.Domains.{box_within, is_none_left, values_left, values_within};
ghost use Rattle.qc_model.specs.Refuted.{refuted_by};
ghost use Rattle.model_arguments.specs.Asked.{IsAsked};

use fd_store::Store;
use qc_model::{Constraint, Problem, VarId};

/// The table of refutations.
pub trait Refuter {
    /// Whether the constraint refutes the box in which x keeps only its values from lo to hi.
    fn refutes_in(
        &self,
        problem: &Problem,
        rule: &Constraint,
        store: &Store,
        x: VarId,
        lo: i64,
        hi: i64,
    ) -> bool
        requires asked { IsAsked problem.now rule.now store.now.box }
        requires x { x.0 < length store.now.box }
        requires left { IsFalse (is_none_left (values_within lo hi (values_left store.now.box x.0))) }
        ensures { result ≡ refuted_by rule.now (box_within store.now.box x.0 lo hi) };
}
