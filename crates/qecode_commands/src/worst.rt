//! `worst`: a problem where chosen owners meet the worst ties, solved, or its text.
ghost use Rattle.std.specs.Prelude.{◌≡◌, ◌≢◌, ◌≤◌, ◌⊎◌, IfOk, IfErr, OnOk};
ghost use Rattle.qc_io.specs.Counts.{Rose, RoseBy};
ghost use Rattle.qecode_commands.specs.Answers.{AnswersProblem, SolvesProblem, PrintsProblem};
ghost use Rattle.qecode_commands.specs.Files.{Wrote};
ghost use Rattle.qecode_commands.specs.Readings.{worst_game, HasReading, TurnsReadingDown, AnswersReading, TurnsFaultDown};

use crate::print::write_problem;
use crate::problem_file::open_problem;
use crate::solve::solve_problem;
use crate::status::Status;
use crate::writing::finish;
use qc_io::{Shelf, Sink};
use qc_model::Problem;
use qc_pessimist::{NoReading, Places, pessimistic};
use std::alloc::Global;

/// Solves a file's problem within so many turns, where the owners of the places meet the worst ties.
pub fn oppose_file<S: Shelf, K: Sink>(
    alloc: Global,
    name: &str,
    places: Places,
    turns: u64,
    shelf: &mut S,
    out: &mut K,
) -> Status
    requires turns { (1 ≤ turns) × (turns ≤ 10000000) }
    ensures wrote { Wrote (K.written out.old) (K.written out.new) (K.faults out.old) (K.faults out.new) result
        (AnswersProblem (AnswersReading places (SolvesProblem turns)) name.now (S.told shelf.old name.now) (λ n. RoseBy n (S.given shelf.old) (S.given shelf.new))) }
    ensures usage { result ≢ Status.Usage }
    ensures read_fault { result ≡ Status.ReadFault → Rose (S.faults shelf.old) (S.faults shelf.new) }
    ensures no_read_fault { result ≢ Status.ReadFault → S.faults shelf.new ≡ S.faults shelf.old }
{
    match open_problem(alloc, name, shelf, out) {
        Ok(problem) => oppose_problem(alloc, &problem, places, turns, out),
        Err(status) => status,
    }
}

/// Writes the canonical text of the game in which an owner of the opposite wish stands after each chosen one.
pub(crate) fn restate_file<S: Shelf, K: Sink>(
    alloc: Global,
    name: &str,
    places: Places,
    shelf: &mut S,
    out: &mut K,
) -> Status
    ensures wrote { Wrote (K.written out.old) (K.written out.new) (K.faults out.old) (K.faults out.new) result
        (AnswersProblem (AnswersReading places PrintsProblem) name.now (S.told shelf.old name.now) (λ n. RoseBy n (S.given shelf.old) (S.given shelf.new))) }
    ensures usage { result ≢ Status.Usage }
    ensures read_fault { result ≡ Status.ReadFault → Rose (S.faults shelf.old) (S.faults shelf.new) }
    ensures no_read_fault { result ≢ Status.ReadFault → S.faults shelf.new ≡ S.faults shelf.old }
{
    match open_problem(alloc, name, shelf, out) {
        Ok(problem) => restate_problem(alloc, &problem, places, out),
        Err(status) => status,
    }
}

fn oppose_problem<K: Sink>(
    alloc: Global,
    problem: &Problem,
    places: Places,
    turns: u64,
    out: &mut K,
) -> Status
    requires turns { (1 ≤ turns) × (turns ≤ 10000000) }
    ensures wrote { Wrote (K.written out.old) (K.written out.new) (K.faults out.old) (K.faults out.new) result (AnswersReading places (SolvesProblem turns) problem.now) }
    ensures rows { (result ≢ Status.Usage) × (result ≢ Status.ReadFault) }
{
    match oppose(alloc, problem, places, out) {
        Ok(worst) => solve_problem(alloc, &worst, turns, out),
        Err(status) => status,
    }
}

fn restate_problem<K: Sink>(alloc: Global, problem: &Problem, places: Places, out: &mut K) -> Status
    ensures wrote { Wrote (K.written out.old) (K.written out.new) (K.faults out.old) (K.faults out.new) result (AnswersReading places PrintsProblem problem.now) }
    ensures rows { (result ≢ Status.Usage) × (result ≢ Status.ReadFault) }
{
    match oppose(alloc, problem, places, out) {
        Ok(worst) => write_problem(alloc, &worst, out),
        Err(status) => status,
    }
}

/// The game with an owner of the opposite wish after each chosen one. Where there is none the answer is written, and its
/// status given.
pub(crate) fn oppose<K: Sink>(
    alloc: Global,
    problem: &Problem,
    places: Places,
    out: &mut K,
) -> Result<Problem, Status>
    ensures made { IfOk result (λ worst. worst ≡ worst_game places problem.now) }
    ensures reading { OnOk result (HasReading places problem.now) }
    ensures silent { OnOk result (out.new ≡ out.old) }
    ensures refused { IfErr result (λ s. Wrote (K.written out.old) (K.written out.new) (K.faults out.old) (K.faults out.new) s (TurnsReadingDown places problem.now)) }
    ensures rows { IfErr result (λ s. (s ≢ Status.Usage) × (s ≢ Status.ReadFault)) }
{
    match pessimistic(alloc, problem, places) {
        Ok(worst) => {
            worst.known();
            Ok(worst)
        }
        Err(fault) => Err(turn_down(out, fault)),
    }
}

// Tells why there is no such game; nothing is written where memory was refused.
fn turn_down<K: Sink>(out: &mut K, fault: NoReading) -> Status
    ensures wrote { Wrote (K.written out.old) (K.written out.new) (K.faults out.old) (K.faults out.new) result (TurnsFaultDown fault) }
    ensures rows { (result ≡ Status.NoReading) ⊎ (result ≡ Status.Memory) ⊎ (result ≡ Status.WriteFault) }
{
    match fault {
        NoReading::NoCondition => finish(out, b"no condition\n", Status::NoReading),
        NoReading::TooManyScopes => finish(out, b"too many scopes\n", Status::NoReading),
        NoReading::Memory(_) => Status::Memory,
    }
}
