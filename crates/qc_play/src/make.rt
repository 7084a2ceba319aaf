//! The strategy, or the counterstrategy, that a certificate shows.
ghost use Rattle.std.specs.Prelude.{◌≡◌, IfOk, OnErr, IsTrue};
ghost use Rattle.proof_tree.specs.Shape.{tree_of};
ghost use Rattle.qc_play.specs.Heads.{is_head};
ghost use Rattle.qc_play.specs.Made.{MakesPlan, MakesCounter};

use crate::counter::Counter;
use crate::judged::proves;
use crate::plan::Plan;
use crate::root::{counter_of_root, plan_of_root};
use crate::unrolled::lines_of;
use proof_meaning::{outcomes_are_true, trees_answer_all_tuples};
use proof_tree::{Certificate, Outcome};
use qc_model::Problem;
use std::alloc::{AllocError, Global};

/// The strategy that a certificate shows which states that the game is won; None where it doesn't prove that.
fn won_plan(
    alloc: Global,
    problem: &Problem,
    cert: &Certificate,
) -> Result<Option<Plan>, AllocError>
    requires { cert.now.outcome ≡ Outcome.True }
    ensures makes { IfOk result (λ plan. MakesPlan problem.now cert.now.outcome cert.now.optimum (tree_of cert.now.root) plan) }
    ensures asked { OnErr result (IsTrue (is_head problem.now.scopes cert.now.outcome cert.now.optimum)) }
{
    problem.known();
    outcomes_are_true();
    trees_answer_all_tuples();
    let won = proves(alloc, problem, cert)?;
    if !won {
        return Ok(None);
    }
    let lines = lines_of(alloc, &cert.root)?;
    let plan = plan_of_root(alloc, problem, lines.as_slice())?;
    Ok(Some(plan))
}

/// The counterstrategy that a certificate shows which states that the game isn't won; None where it doesn't prove that.
fn lost_counter(
    alloc: Global,
    problem: &Problem,
    cert: &Certificate,
) -> Result<Option<Counter>, AllocError>
    requires { cert.now.outcome ≡ Outcome.False }
    ensures makes { IfOk result (λ counter. MakesCounter problem.now cert.now.outcome cert.now.optimum (tree_of cert.now.root) counter) }
    ensures asked { OnErr result (IsTrue (is_head problem.now.scopes cert.now.outcome cert.now.optimum)) }
{
    problem.known();
    outcomes_are_true();
    trees_answer_all_tuples();
    let lost = proves(alloc, problem, cert)?;
    if !lost {
        return Ok(None);
    }
    let lines = lines_of(alloc, &cert.root)?;
    let counter = counter_of_root(alloc, problem, lines.as_slice())?;
    Ok(Some(counter))
}

/// The strategy that a certificate shows, which is optimal. None comes exactly where the certificate doesn't prove what
/// it states, or doesn't state that the game is won.
///
/// It fails only where memory is refused, and asks for none where the certificate states another outcome, or an optimum
/// that no tree can show.
pub fn make_plan(
    alloc: Global,
    problem: &Problem,
    cert: &Certificate,
) -> Result<Option<Plan>, AllocError>
    ensures makes { IfOk result (λ plan. MakesPlan problem.now cert.now.outcome cert.now.optimum (tree_of cert.now.root) plan) }
    ensures asked { OnErr result ((cert.now.outcome ≡ Outcome.True) × IsTrue (is_head problem.now.scopes cert.now.outcome cert.now.optimum)) }
{
    match cert.outcome {
        Outcome::True => won_plan(alloc, problem, cert),
        Outcome::False => Ok(None),
        Outcome::Open(_turns) => Ok(None),
    }
}

/// The counterstrategy that a certificate shows, which wins. None comes exactly where the certificate doesn't prove
/// what it states, or doesn't state that the game isn't won.
///
/// It fails as `make_plan` does.
pub fn make_counter(
    alloc: Global,
    problem: &Problem,
    cert: &Certificate,
) -> Result<Option<Counter>, AllocError>
    ensures makes { IfOk result (λ counter. MakesCounter problem.now cert.now.outcome cert.now.optimum (tree_of cert.now.root) counter) }
    ensures asked { OnErr result ((cert.now.outcome ≡ Outcome.False) × IsTrue (is_head problem.now.scopes cert.now.outcome cert.now.optimum)) }
{
    match cert.outcome {
        Outcome::True => Ok(None),
        Outcome::False => lost_counter(alloc, problem, cert),
        Outcome::Open(_turns) => Ok(None),
    }
}
