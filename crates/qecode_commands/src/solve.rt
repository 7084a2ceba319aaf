//! `solve`: the certificate of a problem.
ghost use Rattle.std.specs.Prelude.{◌≡◌, ◌≢◌, ◌≤◌, IsTrue};
ghost use Rattle.std.specs.List.{list_all};
ghost use Rattle.qc_io.specs.Counts.{Rose, RoseBy};
ghost use Rattle.proof_tree.specs.Text.{outcome_fits};
ghost use Rattle.strategy_arena.specs.Certificate.{text_of_lines, line_fits};
ghost use Rattle.qecode_commands.specs.Answers.{AnswersProblem, SolvesProblem};
ghost use Rattle.qecode_commands.specs.Certifies.{status_of};
ghost use Rattle.qecode_commands.specs.Files.{Wrote};

use crate::problem_file::open_problem;
use crate::status::Status;
use game_search::{Flat, solve_flat};
use proof_tree::Outcome;
use qc_io::{Shelf, Sink};
use qc_model::Problem;
use std::alloc::{AllocError, Global};

/// Solves the problem of a file within so many turns.
pub fn solve_file<S: Shelf, K: Sink>(
    alloc: Global,
    name: &str,
    turns: u64,
    shelf: &mut S,
    out: &mut K,
) -> Status
    requires turns { (1 ≤ turns) × (turns ≤ 10000000) }
    ensures wrote { Wrote (K.written out.old) (K.written out.new) (K.faults out.old) (K.faults out.new) result
        (AnswersProblem (SolvesProblem turns) name.now (S.told shelf.old name.now) (λ n. RoseBy n (S.given shelf.old) (S.given shelf.new))) }
    ensures usage { result ≢ Status.Usage }
    ensures read_fault { result ≡ Status.ReadFault → Rose (S.faults shelf.old) (S.faults shelf.new) }
    ensures no_read_fault { result ≢ Status.ReadFault → S.faults shelf.new ≡ S.faults shelf.old }
{
    match open_problem(alloc, name, shelf, out) {
        Ok(problem) => solve_problem(alloc, &problem, turns, out),
        Err(status) => status,
    }
}

/// Solves a problem within so many turns.
pub fn solve_problem<K: Sink>(alloc: Global, problem: &Problem, turns: u64, out: &mut K) -> Status
    requires turns { (1 ≤ turns) × (turns ≤ 10000000) }
    ensures wrote { Wrote (K.written out.old) (K.written out.new) (K.faults out.old) (K.faults out.new) result (SolvesProblem turns problem.now) }
    ensures rows { (result ≢ Status.Usage) × (result ≢ Status.BadProblem) × (result ≢ Status.ReadFault) }
{
    match solve_flat(alloc, problem, turns) {
        Ok(flat) => write_flat(&flat, out),
        Err(AllocError) => Status::Memory,
    }
}

// Writes a certificate from its lines. It takes no memory.
fn write_flat<K: Sink>(flat: &Flat, out: &mut K) -> Status
    requires head { IsTrue (outcome_fits flat.now.outcome flat.now.optimum) }
    requires lines { IsTrue (list_all line_fits flat.now.arena) }
    ensures wrote { Wrote (K.written out.old) (K.written out.new) (K.faults out.old) (K.faults out.new) result
        (λ s t. (s ≡ status_of flat.now.outcome) × (t ≡ text_of_lines flat.now.outcome flat.now.optimum flat.now.arena)) }
    ensures rows { (result ≢ Status.Usage) × (result ≢ Status.BadProblem) × (result ≢ Status.ReadFault) }
{
    match flat.arena.write_from(flat.outcome, flat.optimum, out) {
        Ok(()) => status_for(flat.outcome),
        Err(_) => Status::WriteFault,
    }
}

/// How a run ends whose certificate states this.
pub(crate) fn status_for(outcome: Outcome) -> Status
    ensures { result ≡ status_of outcome }
{
    match outcome {
        Outcome::True => Status::Done,
        Outcome::False => Status::Done,
        Outcome::Open(_) => Status::Open,
    }
}
