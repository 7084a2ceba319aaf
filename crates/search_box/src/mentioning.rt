//! Whether a closed box alone shows that constraints hold, once their variables have one value left each.
//!
//! It does so of those that have a variable. The others hold or not whatever the values, and are evaluated once.
ghost use Rattle.std.specs.Prelude.{◌≡◌, not, IsTrue, IfOk};
ghost use Rattle.qc_model.specs.Arguments.{variables_of};
ghost use Rattle.qc_model.specs.Valid.{is_constraint};
ghost use Rattle.qc_model.specs.Verdict.{is_none_of};
ghost use Rattle.search_box.specs.Complete.{each_shown, is_shown};

use model_arguments::{arguments, own_variables};
use model_evaluation::satisfies;
use qc_model::{ConId, Constraint, Problem};
use std::alloc::{AllocError, Global};

fn mentions(alloc: Global, rule: &Constraint) -> Result<bool, AllocError>
    ensures { IfOk result (λ some. some ≡ not (is_none_of (variables_of rule.now.args))) }
{
    let own = own_variables(alloc, arguments(rule))?;
    Ok(!own.is_empty())
}

fn mentions_or_holds(
    alloc: Global,
    problem: &Problem,
    rule: &Constraint,
) -> Result<bool, AllocError>
    requires { IsTrue (is_constraint problem.now.variables rule.now) }
    ensures { IfOk result (λ shown. shown ≡ is_shown rule.now) }
{
    if mentions(alloc, rule)? {
        return Ok(true);
    }
    Ok(satisfies(problem, rule, &[]))
}

/// Whether each constraint has some variable among its arguments or holds without any. It fails only where memory runs out.
pub(crate) fn all_shown(alloc: Global, problem: &Problem) -> Result<bool, AllocError>
    ensures { IfOk result (λ all. all ≡ each_shown problem.now.constraints) }
{
    problem.known();
    for at in 0..problem.constraints() {
        let shown = mentions_or_holds(alloc, problem, problem.constraint(ConId(at as u16)))?;
        if !shown {
            return Ok(false);
        }
    }
    Ok(true)
}
