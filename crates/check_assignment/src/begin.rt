//! The assignment before the first change.
ghost use Rattle.std.specs.Prelude.{◌≡◌, ◌≤◌, ◌^◌, ℕ, [], true, length, map, replicate, pos, unsigned_abs, IfOk};
ghost use Rattle.std.specs.List.{list_all};
ghost use Rattle.qc_model.specs.Holds.{arg_value, sum_of_products};
ghost use Rattle.qc_model.specs.Valid.{is_constraint, is_number};
ghost use Rattle.check_assignment.specs.Balance.{test_of as test_in_spec, total_of};
ghost use Rattle.check_assignment.specs.Keeping.{Stands};

use crate::assignment::Assignment;
use crate::standing::{Standing, grown};
use crate::terms::Terms;
use crate::test::{Test, test_of};
use model_arguments::{arguments, items_at, numbers_at, one_at};
use qc_model::{Arg, ConId, Constraint, Problem};
use std::alloc::{AllocError, Global};

/// The number, or 0 of a variable.
fn first_value(item: Arg) -> i64
    ensures { result ≡ arg_value [] item }
{
    match item {
        Arg::Var(_) => 0,
        Arg::Num(n) => n,
    }
}

/// What a sum comes to where each variable is 0.
fn first_sum(factors: &[i64], items: &[Arg]) -> i128
    requires few { length items.now ≤ 1000 }
    requires factors { list_all is_number factors.now ≡ true }
    requires values { list_all is_number (map (arg_value []) items.now) ≡ true }
    ensures value { result ≡ sum_of_products factors.now (map (arg_value []) items.now) }
    ensures small { unsigned_abs result ≤ 10 ^ 22 }
{
    let mut total: i128 = 0;
    for k in 0..factors.len().min(items.len()) {
        total = grown(total, factors[k], first_value(items[k]));
    }
    total
}

/// What is kept of a constraint that is tested so, where each variable is 0.
fn first_total(problem: &Problem, rule: &Constraint, test: Test) -> i128
    requires constraint { is_constraint problem.now.variables rule.now ≡ true }
    requires test { test ≡ test_in_spec rule.now }
    ensures { result ≡ total_of test [] rule.now }
{
    let _ = problem.variables();
    let args = arguments(rule);
    match test {
        Test::Other => 0,
        _ => {
            first_sum(numbers_at(args, 0), items_at(args, 1)) - first_value(one_at(args, 2)) as i128
        }
    }
}

/// What is known of a constraint where each variable is 0.
fn first_standing(problem: &Problem, rule: &Constraint) -> Standing
    requires constraint { is_constraint problem.now.variables rule.now ≡ true }
    ensures { (n : ℕ) → Stands (replicate n (pos 0)) rule.now result }
{
    let test = test_of(rule);
    Standing {
        total: first_total(problem, rule, test),
        test,
        holds: false,
    }
}

impl<'p> Assignment<'p> {
    /// The assignment that gives each variable 0. All memory is taken here; it fails only where that runs out.
    pub fn new(alloc: Global, problem: &'p Problem) -> Result<Assignment<'p>, AllocError>
        ensures game { IfOk result (λ a. a.game ≡ problem.now) }
        ensures zeros { IfOk result (λ a. a.items ≡ replicate (length problem.now.variables) (pos 0)) }
    {
        problem.known();
        let mut terms = Terms::new(alloc, problem.variables())?;
        let mut standings = Vec::with_capacity(alloc, problem.constraints())?;
        for k in 0..problem.constraints() {
            let number = k as u16;
            let rule = problem.constraint(ConId(number));
            let standing = first_standing(problem, rule);
            terms.add_rule(alloc, problem, rule, number, standing.test)?;
            standings.push(standing)?;
        }
        let values = vec![in alloc; 0i64; problem.variables()]?;
        Ok(Assignment {
            problem,
            values,
            terms,
            standings,
        })
    }
}
