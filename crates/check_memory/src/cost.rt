//! What it costs to look a position up.

use model_arguments::{arguments, items_at};
use qc_model::{ConId, Constraint, Meaning, Problem, meaning_of};

/// So many variables, terms and literals are read by a look in the time in which a byte is checked.
const READ_FOR_A_BYTE: usize = 2;

/// Whether a look reads the constraint: a sum, or a clause, that isn't reified.
fn is_read(rule: &Constraint) -> bool {
    let row = meaning_of(rule.pred);
    if row.reified {
        return false;
    }
    match row.meaning {
        Meaning::SumEqual | Meaning::SumDifferent | Meaning::SumAtMost | Meaning::Clause => true,
        _ => false,
    }
}

/// How many terms or literals a look reads of the constraint.
fn places_of(rule: &Constraint) -> usize {
    if !is_read(rule) {
        return 0;
    }
    let args = arguments(rule);
    items_at(args, 0)
        .len()
        .saturating_add(items_at(args, 1).len())
}

/// As many bytes as are checked in the time of a look.
pub(crate) fn bytes_for_a_look(problem: &Problem) -> u64 {
    problem.known();
    let mut read = problem.variables();
    for k in 0..problem.constraints() {
        read = read.saturating_add(places_of(problem.constraint(ConId(k as u16))));
    }
    (read / READ_FOR_A_BYTE) as u64
}
