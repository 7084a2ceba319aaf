//! `solve`: who wins a game, and what its optimum is, by lists of lemmas or by a certificate of `qecode`.
ghost use Rattle.std.specs.Prelude.{◌≡◌, ◌≢◌, ◌≤◌, IfSome};
ghost use Rattle.qc_io.specs.Counts.{Rose, RoseBy};
ghost use Rattle.best_solver.specs.Best.{IsBest};
ghost use Rattle.lemma_solver.specs.Believed.{IsBelieved};
ghost use Rattle.qecode_commands.specs.Answers.{AnswersProblem};
ghost use Rattle.qecode_commands.specs.Files.{Wrote};
ghost use Rattle.dense_commands.specs.Answers.{Solves, SolvesByLists, SolvesGame};
ghost use Rattle.dense_solver.specs.Shown.{IsShown};

use best_solver::{Best, best_by_lemmas};
use dense_solver::{Shown, solve_densely};
use lemma_solver::{Believed, solve_by_lemmas};
use likeness::asks_nothing;
use qc_io::{Shelf, Sink};
use qc_model::Problem;
use qecode_commands::{Status, finish, open_problem, solve_problem};
use std::alloc::{AllocError, Global};

/// How many looks at constraints and lemmas the search for a list is given for each turn. Where a game is over in
/// many small positions a list may be out of reach, and is given up after some seconds with the usual turns.
const LOOKS_A_TURN: u64 = 12;

/// How many of these it is given for each turn at each value that may be the optimum, of which some 31 are tried at most.
const LOOKS_A_VALUE: u64 = 2;

/// Solves the problem of a file within so many turns.
pub(crate) fn solve_file<S: Shelf, K: Sink>(
    alloc: Global,
    name: &str,
    turns: u64,
    shelf: &mut S,
    out: &mut K,
) -> Status
    requires turns { (1 ≤ turns) × (turns ≤ 10000000) }
    ensures wrote { Wrote (K.written out.old) (K.written out.new) (K.faults out.old) (K.faults out.new) result
        (AnswersProblem (Solves turns) name.now (S.told shelf.old name.now) (λ n. RoseBy n (S.given shelf.old) (S.given shelf.new))) }
    ensures usage { result ≢ Status.Usage }
    ensures read_fault { result ≡ Status.ReadFault → Rose (S.faults shelf.old) (S.faults shelf.new) }
    ensures no_read_fault { result ≢ Status.ReadFault → S.faults shelf.new ≡ S.faults shelf.old }
{
    match open_problem(alloc, name, shelf, out) {
        Ok(problem) => solve_best(alloc, &problem, turns, out),
        Err(status) => status,
    }
}

// Solves a game: by a dense certificate, where something is optimised and one is found, and else by lists, or as `qecode` does.
fn solve_best<K: Sink>(alloc: Global, problem: &Problem, turns: u64, out: &mut K) -> Status
    requires turns { (1 ≤ turns) × (turns ≤ 10000000) }
    ensures wrote { Wrote (K.written out.old) (K.written out.new) (K.faults out.old) (K.faults out.new) result (Solves turns problem.now) }
    ensures rows { (result ≢ Status.Usage) × (result ≢ Status.ReadFault) }
{
    write_shown_or_search(
        alloc,
        problem,
        turns,
        shown_densely(alloc, problem, turns),
        out,
    )
}

// A dense certificate, where the game has a condition. In plain games lists of lemmas are shorter.
fn shown_densely(alloc: Global, problem: &Problem, turns: u64) -> Option<Shown>
    ensures { IfSome result (λ it. IsShown problem.now it) }
{
    if asks_nothing(problem) {
        return None;
    }
    solve_densely(alloc, problem, turns)
}

// Writes the certificate that was found. Where there is none, the game is solved by lists, or as `qecode` does.
fn write_shown_or_search<K: Sink>(
    alloc: Global,
    problem: &Problem,
    turns: u64,
    found: Option<Shown>,
    out: &mut K,
) -> Status
    requires turns { (1 ≤ turns) × (turns ≤ 10000000) }
    requires shown { IfSome found (λ it. IsShown problem.now it) }
    ensures wrote { Wrote (K.written out.old) (K.written out.new) (K.faults out.old) (K.faults out.new) result (Solves turns problem.now) }
    ensures rows { (result ≢ Status.Usage) × (result ≢ Status.ReadFault) }
{
    match found {
        Some(shown) => finish(out, shown.text.as_slice(), Status::Done),
        None => solve_by_lists(alloc, problem, turns, out),
    }
}

// Solves a game: its optimum by two lists, where both sides care for one quantity and the lists are found, and else as any game.
fn solve_by_lists<K: Sink>(alloc: Global, problem: &Problem, turns: u64, out: &mut K) -> Status
    requires turns { (1 ≤ turns) × (turns ≤ 10000000) }
    ensures wrote { Wrote (K.written out.old) (K.written out.new) (K.faults out.old) (K.faults out.new) result (SolvesByLists turns problem.now) }
    ensures rows { (result ≢ Status.Usage) × (result ≢ Status.ReadFault) }
{
    match best_by_lemmas(alloc, problem, turns.saturating_mul(LOOKS_A_VALUE)) {
        Ok(found) => write_best_or_search(alloc, problem, turns, found, out),
        Err(AllocError) => Status::Memory,
    }
}

// Writes the lists that were found. Where there are none, the game is solved as any other.
fn write_best_or_search<K: Sink>(
    alloc: Global,
    problem: &Problem,
    turns: u64,
    found: Option<Best>,
    out: &mut K,
) -> Status
    requires turns { (1 ≤ turns) × (turns ≤ 10000000) }
    requires best { IfSome found (λ it. IsBest problem.now it) }
    ensures wrote { Wrote (K.written out.old) (K.written out.new) (K.faults out.old) (K.faults out.new) result (SolvesByLists turns problem.now) }
    ensures rows { (result ≢ Status.Usage) × (result ≢ Status.ReadFault) }
{
    match found {
        Some(best) => finish(out, best.text.as_slice(), Status::Done),
        None => solve_game(alloc, problem, turns, out),
    }
}

/// Solves a game: by a list of lemmas, where one is found that is believed, and else within so many turns as `qecode` does.
pub(crate) fn solve_game<K: Sink>(
    alloc: Global,
    problem: &Problem,
    turns: u64,
    out: &mut K,
) -> Status
    requires turns { (1 ≤ turns) × (turns ≤ 10000000) }
    ensures wrote { Wrote (K.written out.old) (K.written out.new) (K.faults out.old) (K.faults out.new) result (SolvesGame turns problem.now) }
    ensures rows { (result ≢ Status.Usage) × (result ≢ Status.ReadFault) }
{
    match solve_by_lemmas(alloc, problem, turns.saturating_mul(LOOKS_A_TURN)) {
        Ok(found) => write_or_search(alloc, problem, turns, found, out),
        Err(AllocError) => Status::Memory,
    }
}

// Writes the list that was found. Where there is none, the game is searched.
fn write_or_search<K: Sink>(
    alloc: Global,
    problem: &Problem,
    turns: u64,
    found: Option<Believed>,
    out: &mut K,
) -> Status
    requires turns { (1 ≤ turns) × (turns ≤ 10000000) }
    requires believed { IfSome found (λ it. IsBelieved problem.now it) }
    ensures wrote { Wrote (K.written out.old) (K.written out.new) (K.faults out.old) (K.faults out.new) result (SolvesGame turns problem.now) }
    ensures rows { (result ≢ Status.Usage) × (result ≢ Status.ReadFault) }
{
    match found {
        Some(list) => finish(out, list.text.as_slice(), Status::Done),
        None => solve_problem(alloc, problem, turns, out),
    }
}
