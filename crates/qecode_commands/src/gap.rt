//! `worst` with `--gap`: what a problem comes to, beside what it comes to where chosen owners meet the worst ties.
ghost use Rattle.std.specs.Prelude.{◌≡◌, ◌≢◌, ◌++◌, IsTrue, IfOk, OnOk, OnErr, string_bytes};
ghost use Rattle.std.specs.List.{list_all};
ghost use Rattle.std.specs.Io.KnownBytes.{Appends};
ghost use Rattle.qc_io.specs.Counts.{HasCause, Rose, RoseBy};
ghost use Rattle.qc_io.specs.Sink.{AppendsPrefix, Moves};
ghost use Rattle.proof_tree.specs.Text.{outcome_fits, outcome_text};
ghost use Rattle.strategy_arena.specs.Certificate.{text_of_lines, line_fits};
ghost use Rattle.game_search.specs.Solution.{SolutionLines};
ghost use Rattle.qecode_commands.specs.Answers.{AnswersProblem};
ghost use Rattle.qecode_commands.specs.Files.{Wrote};
ghost use Rattle.qecode_commands.specs.Gap.{gap_lines, gap_status, ComparesGames, AnswersGap};
ghost use Rattle.qecode_commands.specs.Summaries.{text_if_open};

use crate::problem_file::open_problem;
use crate::solve::status_for;
use crate::status::Status;
use crate::words::USUAL_TURNS;
use crate::worst::oppose;
use game_search::{Flat, solve_flat};
use itoa::Buffer;
use proof_tree::Outcome;
use qc_io::{Pieces, Shelf, Sink, WriteFault};
use qc_model::Problem;
use qc_pessimist::Places;
use std::alloc::{AllocError, Global};

/// Solves a file's problem, and the game in which the owners of the places meet the worst ties, each within the usual turns.
/// Writes what both come to, and the certificates of what is left open.
pub(crate) fn compare_file<S: Shelf, K: Sink>(
    alloc: Global,
    name: &str,
    places: Places,
    shelf: &mut S,
    out: &mut K,
) -> Status
    ensures wrote { Wrote (K.written out.old) (K.written out.new) (K.faults out.old) (K.faults out.new) result
        (AnswersProblem (AnswersGap places) name.now (S.told shelf.old name.now) (λ n. RoseBy n (S.given shelf.old) (S.given shelf.new))) }
    ensures usage { result ≢ Status.Usage }
    ensures read_fault { result ≡ Status.ReadFault → Rose (S.faults shelf.old) (S.faults shelf.new) }
    ensures no_read_fault { result ≢ Status.ReadFault → S.faults shelf.new ≡ S.faults shelf.old }
{
    match open_problem(alloc, name, shelf, out) {
        Ok(problem) => compare_problem(alloc, &problem, places, out),
        Err(status) => status,
    }
}

fn compare_problem<K: Sink>(alloc: Global, problem: &Problem, places: Places, out: &mut K) -> Status
    ensures wrote { Wrote (K.written out.old) (K.written out.new) (K.faults out.old) (K.faults out.new) result (AnswersGap places problem.now) }
    ensures rows { (result ≢ Status.Usage) × (result ≢ Status.ReadFault) }
{
    match oppose(alloc, problem, places, out) {
        Ok(worst) => compare_games(alloc, problem, &worst, out),
        Err(status) => status,
    }
}

fn compare_games<K: Sink>(alloc: Global, best: &Problem, worst: &Problem, out: &mut K) -> Status
    ensures wrote { Wrote (K.written out.old) (K.written out.new) (K.faults out.old) (K.faults out.new) result (ComparesGames best.now worst.now) }
    ensures rows { (result ≢ Status.Usage) × (result ≢ Status.ReadFault) }
{
    match solve_both(alloc, best, worst) {
        Ok(both) => write_both(&both, out),
        Err(AllocError) => Status::Memory,
    }
}

// The certificates of two games, and the lines that tell their outcomes.
#[derive(Drop)]
struct Both {
    best: Flat,
    worst: Flat,
    lines: String,
}

// All memory that the answer needs is taken here.
fn solve_both(alloc: Global, best: &Problem, worst: &Problem) -> Result<Both, AllocError>
    ensures best { IfOk result (λ b. SolutionLines best.now 1000000 b.best.outcome b.best.optimum b.best.arena) }
    ensures worst { IfOk result (λ b. SolutionLines worst.now 1000000 b.worst.outcome b.worst.optimum b.worst.arena) }
    ensures lines { IfOk result (λ b. string_bytes b.lines ≡ gap_lines b.best.outcome b.best.optimum b.worst.outcome b.worst.optimum) }
{
    let best = solve_flat(alloc, best, USUAL_TURNS)?;
    let worst = solve_flat(alloc, worst, USUAL_TURNS)?;
    let lines = outcome_lines(alloc, &best, &worst)?;
    Ok(Both { best, worst, lines })
}

fn outcome_lines(alloc: Global, best: &Flat, worst: &Flat) -> Result<String, AllocError>
    ensures { IfOk result (λ text. string_bytes text ≡ gap_lines best.now.outcome best.now.optimum worst.now.outcome worst.now.optimum) }
{
    let first = outcome_line(alloc, best.outcome, best.optimum)?;
    let second = outcome_line(alloc, worst.outcome, worst.optimum)?;
    let best = first.as_str();
    let worst = second.as_str();
    format!(in alloc; "best {best}worst {worst}")
}

/// The words of an outcome, as a line of a certificate states it.
pub fn outcome_line(
    alloc: Global,
    outcome: Outcome,
    optimum: Option<i64>,
) -> Result<String, AllocError>
    ensures { IfOk result (λ text. string_bytes text ≡ outcome_text outcome optimum) }
{
    let mut buffer = Buffer::new();
    match outcome {
        Outcome::True => match optimum {
            Some(value) => {
                let digits = buffer.format(value);
                format!(in alloc; "true {digits}\n")
            }
            None => format!(in alloc; "true\n"),
        },
        Outcome::False => format!(in alloc; "false\n"),
        Outcome::Open(turns) => format!(in alloc; "open {turns}\n"),
    }
}

// Writes the lines, and the certificates of what is left open. It takes no memory.
fn write_both<K: Sink>(both: &Both, out: &mut K) -> Status
    requires best_head { IsTrue (outcome_fits both.now.best.outcome both.now.best.optimum) }
    requires best_lines { IsTrue (list_all line_fits both.now.best.arena) }
    requires worst_head { IsTrue (outcome_fits both.now.worst.outcome both.now.worst.optimum) }
    requires worst_lines { IsTrue (list_all line_fits both.now.worst.arena) }
    ensures wrote { Wrote (K.written out.old) (K.written out.new) (K.faults out.old) (K.faults out.new) result
        (λ s t. (s ≡ gap_status both.now.best.outcome both.now.worst.outcome) × (t ≡ string_bytes both.now.lines
        ++ text_if_open both.now.best.outcome (text_of_lines both.now.best.outcome both.now.best.optimum both.now.best.arena)
        ++ text_if_open both.now.worst.outcome (text_of_lines both.now.worst.outcome both.now.worst.optimum both.now.worst.arena))) }
    ensures rows { (result ≢ Status.Usage) × (result ≢ Status.ReadFault) }
{
    match put_both(both, out) {
        Ok(()) => status_of_both(both.best.outcome, both.worst.outcome),
        Err(WriteFault) => Status::WriteFault,
    }
}

fn put_both<K: Sink>(both: &Both, out: &mut K) -> Result<(), WriteFault>
    requires best_head { IsTrue (outcome_fits both.now.best.outcome both.now.best.optimum) }
    requires best_lines { IsTrue (list_all line_fits both.now.best.arena) }
    requires worst_head { IsTrue (outcome_fits both.now.worst.outcome both.now.worst.optimum) }
    requires worst_lines { IsTrue (list_all line_fits both.now.worst.arena) }
    ensures ok { OnOk result (Appends (K.written out.old) (K.written out.new) (string_bytes both.now.lines
        ++ text_if_open both.now.best.outcome (text_of_lines both.now.best.outcome both.now.best.optimum both.now.best.arena)
        ++ text_if_open both.now.worst.outcome (text_of_lines both.now.worst.outcome both.now.worst.optimum both.now.worst.arena))) }
    ensures err { OnErr result (AppendsPrefix (K.written out.old) (K.written out.new) (string_bytes both.now.lines
        ++ text_if_open both.now.best.outcome (text_of_lines both.now.best.outcome both.now.best.optimum both.now.best.arena)
        ++ text_if_open both.now.worst.outcome (text_of_lines both.now.worst.outcome both.now.worst.optimum both.now.worst.arena))) }
    ensures cause { HasCause (K.faults out.old) (K.faults out.new) result }
{
    let mut pieces = Pieces::new();
    pieces.put_all(out, both.lines.as_str().as_bytes())?;
    put_if_open(&both.best, &mut pieces, out)?;
    put_if_open(&both.worst, &mut pieces, out)?;
    pieces.finish(out)
}

// Puts the text of a certificate that leaves its outcome open behind the bytes that are held; of another nothing.
fn put_if_open<K: Sink>(flat: &Flat, pieces: &mut Pieces, out: &mut K) -> Result<(), WriteFault>
    requires head { IsTrue (outcome_fits flat.now.outcome flat.now.optimum) }
    requires lines { IsTrue (list_all line_fits flat.now.arena) }
    ensures ok { OnOk result (Moves (K.written out.old) (K.written out.new) pieces.new
        (pieces.old ++ text_if_open flat.now.outcome (text_of_lines flat.now.outcome flat.now.optimum flat.now.arena))) }
    ensures err { OnErr result (AppendsPrefix (K.written out.old) (K.written out.new)
        (pieces.old ++ text_if_open flat.now.outcome (text_of_lines flat.now.outcome flat.now.optimum flat.now.arena))) }
    ensures cause { HasCause (K.faults out.old) (K.faults out.new) result }
{
    match flat.outcome {
        Outcome::True => Ok(()),
        Outcome::False => Ok(()),
        Outcome::Open(_) => flat.arena.put_text(flat.outcome, flat.optimum, pieces, out),
    }
}

fn status_of_both(best: Outcome, worst: Outcome) -> Status
    ensures { result ≡ gap_status best worst }
{
    match best {
        Outcome::True => status_for(worst),
        Outcome::False => status_for(worst),
        Outcome::Open(_) => Status::Open,
    }
}
