//! Calls that the commands do not make, once each, on small games that were worked out by hand.
ghost use Rattle.std.specs.Prelude.{◌≡◌, ◌≤◌, ◌^◌, length};
ghost use Rattle.std.specs.List.{list_all};
ghost use Rattle.qc_model.specs.Valid.{is_number};

use crate::checking::problem_of;
use check_lines::{Answer, Found, judge_lines};
use model_evaluation::holds;
use proof_tree::{Line, Outcome};
use qc_model::{ConId, Problem, ScopeId, VarId};
use qc_pessimist::Places;
use search_worst::solve_worst;
use std::alloc::{AllocError, Global};
use std::test::Fail;

// What the search says where the owner of the first scope meets the worst ties. It promises nothing, so that the test isn't
// shown all that the search promises.
fn solved(alloc: Global, problem: &Problem) -> Result<(Outcome, Option<i64>), Fail> {
    let flat = solve_worst(alloc, problem, Places::One(ScopeId(0)), 1000).map_err(|_| Fail::from(
        "no reading",
    ))?;
    Ok((flat.outcome, flat.optimum))
}

// The follower is indifferent between costing the leader nothing and costing it 4.
#[test]
fn ties_fall_against_the_leader(rt: HostRuntime) -> Result<(), Fail> {
    let text =
        b"exists minimize c; var 0..1: x; exists minimize d; var 0..1: y; var 0..9: c; var 0..0: d; constraint int_lin_eq([4,1,-1],[y,x,c],0); goal; solve;";
    let problem = problem_of(rt.alloc(), text)?;
    assert!(rt; solved(rt.alloc(), &problem)? == (Outcome::True, Some(4)));
    Ok(())
}

fn judged(alloc: Global, problem: &Problem, lines: &[Line]) -> Result<Option<Answer>, AllocError>
    requires { length lines.now ≤ 2 ^ 32 }
{
    judge_lines(alloc, problem, lines)
}

// The player takes x = 1, and both answers win.
#[test]
fn lines_are_judged(rt: HostRuntime) -> Result<(), Fail> {
    let text =
        b"exists; var 0..3: x; constraint int_le(x,1); forall; var 0..1: y; goal; constraint int_le(y,x); solve;";
    let problem = problem_of(rt.alloc(), text)?;
    let lines = [
        Line::Prune {
            x: VarId(0),
            lo: 2,
            hi: 3,
            c: ConId(0),
        },
        Line::Branch { x: VarId(0) },
        Line::Skip,
        Line::Next,
        Line::Branch { x: VarId(1) },
        Line::Next,
        Line::Goal,
        Line::Next,
        Line::Goal,
        Line::Dot,
        Line::Dot,
    ];
    let won = Answer {
        found: Found::Exact,
        own: None,
        turns: 3,
        has_open: false,
    };
    assert!(rt; judged(rt.alloc(), &problem, &lines)? == Some(won));
    Ok(())
}

fn are_numbers(values: &[i64]) -> bool
    ensures { result ≡ list_all is_number values.now }
{
    values.iter().all(|v| v.unsigned_abs() <= 1_000_000_000)
}

#[test]
fn a_constraint_holds_by_its_number(rt: HostRuntime) -> Result<(), Fail> {
    let text =
        b"exists; var 0..9: x; var 0..9: y; var 0..9: z; goal; constraint int_plus(x,y,z); solve;";
    let problem = problem_of(rt.alloc(), text)?;
    assert_eq!(rt; problem.constraints(), 1);
    assert_eq!(rt; problem.variables(), 3);
    for (values, want) in [([2, 3, 5], true), ([2, 3, 6], false)] {
        assert!(rt; are_numbers(&values));
        assert_eq!(rt; holds(&problem, ConId(0), &values), want);
    }
    Ok(())
}
