//! `solve`: a piece of a problem.
ghost use Rattle.std.specs.Prelude.{◌≡◌, ◌≢◌, ◌++◌, Some, None, IfOk, IfSome, IsTrue};
ghost use Rattle.std.specs.List.{list_all};
ghost use Rattle.qc_io.specs.Counts.{Rose, RoseBy};
ghost use Rattle.proof_tree.specs.Proves.{optimises_first};
ghost use Rattle.proof_tree.specs.Text.{outcome_fits};
ghost use Rattle.strategy_arena.specs.Certificate.{line_fits, text_of_lines};
ghost use Rattle.game_search.specs.Pieces.{AreKeeps, IsReached};
ghost use Rattle.qecode_commands.specs.Answers.{AnswersProblem};
ghost use Rattle.qecode_commands.specs.Certifies.{status_of};
ghost use Rattle.qecode_commands.specs.Files.{Wrote};
ghost use Rattle.part_commands.specs.Answers.{SolvesPiece, TellsUnknown};
ghost use Rattle.part_commands.specs.Pieces.{keeps_of, first_unknown as first_unknown_of, unknown_line};
ghost use Rattle.part_commands.specs.View.{asked, keeps_seen, IsBudget, IsWithin};

use crate::keeps::{first_unknown, named_keeps};
use crate::text::{head_of, write_piece};
use crate::words::Command;
use game_search::{Flat, Keep, solve_piece};
use proof_tree::Outcome;
use qc_io::{Shelf, Sink};
use qc_model::{Kind, Problem, ScopeId};
use qecode_commands::{Status, finish, open_problem};
use std::alloc::{AllocError, Global};

/// Solves the piece of a file's problem that the words ask for.
pub(crate) fn solve_file<S: Shelf, K: Sink>(
    alloc: Global,
    command: &Command<'_>,
    shelf: &mut S,
    out: &mut K,
) -> Status
    requires within { IsWithin command.now }
    ensures wrote { Wrote (K.written out.old) (K.written out.new) (K.faults out.old) (K.faults out.new) result
        (AnswersProblem (SolvesPiece (asked command.now)) command.now.problem.now (S.told shelf.old command.now.problem.now) (λ n. RoseBy n (S.given shelf.old) (S.given shelf.new))) }
    ensures usage { result ≢ Status.Usage }
    ensures read_fault { result ≡ Status.ReadFault → Rose (S.faults shelf.old) (S.faults shelf.new) }
    ensures no_read_fault { result ≢ Status.ReadFault → S.faults shelf.new ≡ S.faults shelf.old }
{
    match open_problem(alloc, command.problem, shelf, out) {
        Ok(problem) => solve_for(alloc, &problem, command, out),
        Err(status) => status,
    }
}

// The same of a problem: the names come first.
fn solve_for<K: Sink>(
    alloc: Global,
    problem: &Problem,
    command: &Command<'_>,
    out: &mut K,
) -> Status
    requires within { IsWithin command.now }
    ensures wrote { Wrote (K.written out.old) (K.written out.new) (K.faults out.old) (K.faults out.new) result (SolvesPiece (asked command.now) problem.now) }
    ensures rows { (result ≢ Status.Usage) × (result ≢ Status.ReadFault) }
{
    match first_unknown(problem, command.keeps.as_slice()) {
        Some(name) => tell_unknown(alloc, name, out),
        None => solve_named(alloc, problem, command, out),
    }
}

// Tells that there is no variable of this name.
fn tell_unknown<K: Sink>(alloc: Global, name: &str, out: &mut K) -> Status
    ensures wrote { Wrote (K.written out.old) (K.written out.new) (K.faults out.old) (K.faults out.new) result (TellsUnknown name.now) }
    ensures rows { (result ≢ Status.Usage) × (result ≢ Status.ReadFault) }
{
    match line_of(alloc, name) {
        Ok(line) => finish(out, line.as_slice(), Status::NoReading),
        Err(AllocError) => Status::Memory,
    }
}

fn line_of(alloc: Global, name: &str) -> Result<Vec<u8>, AllocError>
    ensures { IfOk result (λ line. line.items ≡ unknown_line name.now) }
{
    let mut line = Vec::new(alloc);
    line.extend_from_slice(b"no variable: ")?;
    line.extend_from_slice(name.as_bytes())?;
    line.extend_from_slice(b"\n")?;
    Ok(line)
}

// The names are there; a value that was reached has to be one of the first scope's wish.
fn solve_named<K: Sink>(
    alloc: Global,
    problem: &Problem,
    command: &Command<'_>,
    out: &mut K,
) -> Status
    requires within { IsWithin command.now }
    requires known { first_unknown_of problem.now (keeps_seen command.now.keeps.items) ≡ None }
    ensures wrote { Wrote (K.written out.old) (K.written out.new) (K.faults out.old) (K.faults out.new) result (SolvesPiece (asked command.now) problem.now) }
    ensures rows { (result ≢ Status.Usage) × (result ≢ Status.ReadFault) }
{
    if command.reached.is_some() && !optimises(problem) {
        return finish(out, b"no condition\n", Status::NoReading);
    }
    match named_keeps(alloc, problem, command.keeps.as_slice()) {
        Ok(keeps) => solve_kept(alloc, problem, command, keeps.as_slice(), out),
        Err(AllocError) => Status::Memory,
    }
}

// Whether the first scope is the player's and has a condition.
fn optimises(problem: &Problem) -> bool
    ensures { result ≡ optimises_first problem.now.scopes }
{
    problem.known();
    if problem.scopes() == 0 {
        return false;
    }
    let first = problem.scope(ScopeId(0));
    match first.kind {
        Kind::Exists => first.condition.is_some(),
        Kind::Forall => false,
    }
}

// The piece in which variables keep these values.
fn solve_kept<K: Sink>(
    alloc: Global,
    problem: &Problem,
    command: &Command<'_>,
    keeps: &[Keep],
    out: &mut K,
) -> Status
    requires within { IsWithin command.now }
    requires named { keeps_of problem.now (keeps_seen command.now.keeps.items) ≡ Some keeps.now }
    requires kept { AreKeeps problem.now keeps.now }
    requires reached { IfSome command.now.reached (λ r. IsReached problem.now r) }
    ensures wrote { Wrote (K.written out.old) (K.written out.new) (K.faults out.old) (K.faults out.new) result (SolvesPiece (asked command.now) problem.now) }
    ensures rows { (result ≢ Status.Usage) × (result ≢ Status.ReadFault) }
{
    let Ok(head) = head_of(alloc, command.keeps.as_slice(), command.reached) else {
        return Status::Memory;
    };
    match solve_piece(alloc, problem, keeps, command.reached, command.turns) {
        Ok(Some(flat)) => write_flat(head.as_slice(), &flat, out),
        Ok(None) => finish(out, b"no value left\n", Status::NoReading),
        Err(AllocError) => Status::Memory,
    }
}

// Writes a piece from its head and its lines.
fn write_flat<K: Sink>(head: &[u8], flat: &Flat, out: &mut K) -> Status
    requires head { IsTrue (outcome_fits flat.now.outcome flat.now.optimum) }
    requires lines { IsTrue (list_all line_fits flat.now.arena) }
    ensures wrote { Wrote (K.written out.old) (K.written out.new) (K.faults out.old) (K.faults out.new) result
        (λ s t. (s ≡ status_of flat.now.outcome) × (t ≡ head.now ++ text_of_lines flat.now.outcome flat.now.optimum flat.now.arena)) }
    ensures rows { (result ≢ Status.Usage) × (result ≢ Status.ReadFault) }
{
    match write_piece(head, flat, out) {
        Ok(()) => status_for(flat.outcome),
        Err(_) => Status::WriteFault,
    }
}

// How a run ends whose piece states this.
fn status_for(outcome: Outcome) -> Status
    ensures { result ≡ status_of outcome }
{
    match outcome {
        Outcome::True => Status::Done,
        Outcome::False => Status::Done,
        Outcome::Open(_) => Status::Open,
    }
}
