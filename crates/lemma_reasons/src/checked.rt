//! What is asked of a lemma alone.
ghost use Rattle.std.specs.Prelude.{◌≡◌, is_some, slice_get};
ghost use Rattle.std.specs.List.{list_all};
ghost use Rattle.lemma_list.specs.Places.{is_chosen_before as is_chosen_before_in};
ghost use Rattle.lemma_list.specs.Sums.{linear_at, are_linear as are_linear_in};
ghost use Rattle.lemma_list.specs.InPlace.{is_lemma as is_lemma_in};
ghost use Rattle.lemma_reasons.specs.Steps.{is_sum as is_sum_in};

use crate::aim::Aim;
use crate::literals::are_in_order;
use crate::places::is_chosen_before;
use crate::rules::pred_of;
use lemma_list::{Literal, SumLiteral};
use qc_model::{ConId, Pred, Problem};

// Whether constraints of the predicate are linear.
fn is_sum(pred: Pred) -> bool
    ensures { result ≡ is_sum_in pred }
{
    match pred {
        Pred::IntLinEq
        | Pred::IntLinLe
        | Pred::IntLe
        | Pred::BoolLe
        | Pred::IntLt
        | Pred::BoolLt
        | Pred::IntPlus => true,
        _ => false,
    }
}

// Whether there is a constraint with the number, and it is linear.
fn is_linear(problem: &Problem, c: ConId) -> bool
    ensures { result ≡ is_some (linear_at (slice_get problem.now.constraints c.0)) }
{
    problem.known();
    if c.0 as usize >= problem.constraints() {
        return false;
    }
    is_sum(pred_of(problem.constraint(c)))
}

/// Whether each sum is of a linear constraint.
pub fn are_linear(problem: &Problem, sums: &[SumLiteral]) -> bool
    ensures { result ≡ are_linear_in problem.now sums.now }
{
    for sum in sums {
        if !is_linear(problem, sum.c) {
            return false;
        }
    }
    true
}

// Whether each literal is on a variable of a scope before scope i.
fn are_before(problem: &Problem, i: usize, literals: &[Literal]) -> bool
    ensures { result ≡ list_all (λ l. is_chosen_before_in problem.now i l.x.0) literals.now }
{
    for literal in literals {
        if !is_chosen_before(problem, i, literal.x) {
            return false;
        }
    }
    true
}

/// Whether the lemma's literals are in order and of variables before its position, and its sums of linear constraints.
pub fn is_lemma(aim: &Aim) -> bool
    ensures { result ≡ is_lemma_in aim.now.problem.now aim.now.lemma.now }
{
    let literals = aim.lemma.literals();
    are_in_order(literals)
        && are_before(aim.problem, aim.place, literals)
        && are_linear(aim.problem, aim.lemma.sums())
}
