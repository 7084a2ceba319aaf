//! Whether a value is refuted by a scope's restriction.
ghost use Rattle.std.specs.Prelude.{◌≡◌, ◌<◌, length, IsTrue, IsFalse};
ghost use Rattle.std.specs.List.{list_all, list_any};
ghost use Rattle.qc_model.specs.Domains.{box_within, has_empty, is_none_left, values_left, values_within};
ghost use Rattle.qc_model.specs.Refuted.{refuted_by};
ghost use Rattle.qc_model.specs.Valid.{is_constraint};
ghost use Rattle.model_arguments.specs.Asked.{is_box_of};

use fd_store::Store;
use qc_model::{Constraint, Problem, VarId};
use qc_refuter::rule_refutes_in;

/// Whether one of the constraints refutes the box in which x has the value v alone.
pub(crate) fn is_refuted(
    problem: &Problem,
    rules: &[Constraint],
    store: &Store,
    x: VarId,
    v: i64,
) -> bool
    requires rules { IsTrue (list_all (is_constraint problem.now.variables) rules.now) }
    requires declared { IsTrue (is_box_of problem.now store.now.box) }
    requires full { IsFalse (has_empty store.now.box) }
    requires x { x.0 < length store.now.box }
    requires left { IsFalse (is_none_left (values_within v v (values_left store.now.box x.0))) }
    ensures { result ≡ list_any (λ c. refuted_by c (box_within store.now.box x.0 v v)) rules.now }
{
    for rule in rules {
        if rule_refutes_in(problem, rule, store, x, v, v) {
            return true;
        }
    }
    false
}
