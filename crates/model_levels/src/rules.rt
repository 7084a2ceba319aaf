//! Whether rules hold.
ghost use Rattle.std.specs.Prelude.{◌≡◌, IsTrue};
ghost use Rattle.std.specs.List.{list_all};
ghost use Rattle.qc_model.specs.Holds.{holds_on};
ghost use Rattle.qc_model.specs.Valid.{is_constraint, is_number};

use model_evaluation::satisfies;
use qc_model::{Constraint, Problem};

// Many scopes have no rules of their own, so that this is a function of its own.
#[inline(never)]
fn each_holds(problem: &Problem, rules: &[Constraint], values: &[i64]) -> bool
    requires rules { IsTrue (list_all (is_constraint problem.now.variables) rules.now) }
    requires values { IsTrue (list_all is_number values.now) }
    ensures { result ≡ list_all (λ c. holds_on c values.now) rules.now }
{
    for rule in rules {
        if !satisfies(problem, rule, values) {
            return false;
        }
    }
    true
}

/// Whether each of the constraints holds on the values. It takes no memory, and stops at the first
/// that doesn't hold.
#[inline(always)]
pub fn all_hold(problem: &Problem, rules: &[Constraint], values: &[i64]) -> bool
    requires rules { IsTrue (list_all (is_constraint problem.now.variables) rules.now) }
    requires values { IsTrue (list_all is_number values.now) }
    ensures { result ≡ list_all (λ c. holds_on c values.now) rules.now }
{
    rules.is_empty() || each_holds(problem, rules, values)
}
