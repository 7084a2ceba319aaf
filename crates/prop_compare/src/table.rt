//! The refuter, for the filter that goes end by end.
use fd_store::Store;
use prop_base::Refuter;
use qc_model::{Constraint, Problem, VarId};
use qc_refuter::rule_refutes_in;

/// The table of refutations.
#[derive(Clone, Copy)]
pub struct Table {}

impl Refuter for Table {
    fn refutes_in(
        &self,
        problem: &Problem,
        rule: &Constraint,
        store: &Store,
        x: VarId,
        lo: i64,
        hi: i64,
    ) -> bool {
        rule_refutes_in(problem, rule, store, x, lo, hi)
    }
}
