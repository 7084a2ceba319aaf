//! `generate`: a problem made from a number, solved and summarised, or its text.
ghost use Rattle.std.specs.Prelude.{◌≡◌, ◌≢◌, ◌≤◌, ◌++◌, IsTrue, IfOk, OnOk, OnErr, string_bytes};
ghost use Rattle.std.specs.List.{list_all};
ghost use Rattle.std.specs.Io.KnownBytes.{Appends};
ghost use Rattle.qc_io.specs.Counts.{HasCause};
ghost use Rattle.qc_io.specs.Sink.{AppendsPrefix};
ghost use Rattle.proof_tree.specs.Text.{outcome_fits};
ghost use Rattle.strategy_arena.specs.Certificate.{text_of_lines, line_fits};
ghost use Rattle.game_search.specs.Solution.{SolutionLines};
ghost use Rattle.model_generated.specs.Pricing.{generated_game};
ghost use Rattle.qecode_commands.specs.Answers.{PrintsProblem};
ghost use Rattle.qecode_commands.specs.Certifies.{status_of};
ghost use Rattle.qecode_commands.specs.Files.{Wrote};
ghost use Rattle.qecode_commands.specs.Summaries.{summary_text, text_if_open, SummarisesProblem};

use crate::print::write_problem;
use crate::status::Status;
use crate::words::USUAL_TURNS;
use crate::writing::finish;
use game_search::{Flat, solve_flat};
use itoa::Buffer;
use model_generated::generated;
use proof_tree::Outcome;
use qc_io::{Pieces, Sink, WriteFault};
use qc_model::Problem;
use std::alloc::{AllocError, Global};

/// Writes the canonical text of the problem that is made from a number.
pub(crate) fn show_made<K: Sink>(alloc: Global, number: u32, out: &mut K) -> Status
    requires { number ≤ 1000000 }
    ensures wrote { Wrote (K.written out.old) (K.written out.new) (K.faults out.old) (K.faults out.new) result (PrintsProblem (generated_game number)) }
    ensures rows { (result ≢ Status.Usage) × (result ≢ Status.ReadFault) }
{
    match generated(alloc, number) {
        Ok(problem) => write_problem(alloc, &problem, out),
        Err(AllocError) => Status::Memory,
    }
}

/// Solves the problem that is made from a number within the usual turns, and writes a summary. Where the outcome is open
/// the certificate's text follows.
pub(crate) fn solve_made<K: Sink>(alloc: Global, number: u32, out: &mut K) -> Status
    requires { number ≤ 1000000 }
    ensures wrote { Wrote (K.written out.old) (K.written out.new) (K.faults out.old) (K.faults out.new) result (SummarisesProblem (generated_game number)) }
    ensures rows { (result ≢ Status.Usage) × (result ≢ Status.ReadFault) }
{
    match generated(alloc, number) {
        Ok(problem) => solve_and_summarise(alloc, &problem, out),
        Err(AllocError) => Status::Memory,
    }
}

fn solve_and_summarise<K: Sink>(alloc: Global, problem: &Problem, out: &mut K) -> Status
    ensures wrote { Wrote (K.written out.old) (K.written out.new) (K.faults out.old) (K.faults out.new) result (SummarisesProblem problem.now) }
    ensures rows { (result ≢ Status.Usage) × (result ≢ Status.ReadFault) }
{
    match solve_flat(alloc, problem, USUAL_TURNS) {
        Ok(flat) => summarise(alloc, problem, &flat, out),
        Err(AllocError) => Status::Memory,
    }
}

fn summarise<K: Sink>(alloc: Global, problem: &Problem, flat: &Flat, out: &mut K) -> Status
    requires { SolutionLines problem.now 1000000 flat.now.outcome flat.now.optimum flat.now.arena }
    ensures wrote { Wrote (K.written out.old) (K.written out.new) (K.faults out.old) (K.faults out.new) result (SummarisesProblem problem.now) }
    ensures rows { (result ≢ Status.Usage) × (result ≢ Status.ReadFault) }
{
    match summary(alloc, problem, flat.outcome, flat.optimum) {
        Ok(summary) => write_summary(summary.as_str().as_bytes(), flat, out),
        Err(AllocError) => Status::Memory,
    }
}

// How much the problem has of what, and the outcome.
fn summary(
    alloc: Global,
    problem: &Problem,
    outcome: Outcome,
    optimum: Option<i64>,
) -> Result<String, AllocError>
    ensures { IfOk result (λ text. string_bytes text ≡ summary_text problem.now outcome optimum) }
{
    let variables = problem.variables();
    let constraints = problem.constraints();
    let mut buffer = Buffer::new();
    match outcome {
        Outcome::True => match optimum {
            Some(value) => {
                let digits = buffer.format(value);
                format!(in alloc;
                    "variables {variables}\nconstraints {constraints}\noutcome true {digits}\n"
                )
            }
            None => {
                format!(in alloc;
                    "variables {variables}\nconstraints {constraints}\noutcome true\n"
                )
            }
        },
        Outcome::False => {
            format!(in alloc; "variables {variables}\nconstraints {constraints}\noutcome false\n")
        }
        Outcome::Open(turns) => {
            format!(in alloc;
                "variables {variables}\nconstraints {constraints}\noutcome open {turns}\n"
            )
        }
    }
}

// The certificate's own text follows only where it leaves the outcome open.
fn write_summary<K: Sink>(summary: &[u8], flat: &Flat, out: &mut K) -> Status
    requires head { IsTrue (outcome_fits flat.now.outcome flat.now.optimum) }
    requires lines { IsTrue (list_all line_fits flat.now.arena) }
    ensures wrote { Wrote (K.written out.old) (K.written out.new) (K.faults out.old) (K.faults out.new) result
        (λ s t. (s ≡ status_of flat.now.outcome) × (t ≡ summary.now ++ text_if_open flat.now.outcome (text_of_lines flat.now.outcome flat.now.optimum flat.now.arena))) }
    ensures rows { (result ≢ Status.Usage) × (result ≢ Status.ReadFault) }
{
    match flat.outcome {
        Outcome::True => finish(out, summary, Status::Done),
        Outcome::False => finish(out, summary, Status::Done),
        Outcome::Open(_) => match write_with_certificate(summary, flat, out) {
            Ok(()) => Status::Open,
            Err(WriteFault) => Status::WriteFault,
        },
    }
}

fn write_with_certificate<K: Sink>(
    summary: &[u8],
    flat: &Flat,
    out: &mut K,
) -> Result<(), WriteFault>
    requires head { IsTrue (outcome_fits flat.now.outcome flat.now.optimum) }
    requires lines { IsTrue (list_all line_fits flat.now.arena) }
    ensures ok { OnOk result (Appends (K.written out.old) (K.written out.new)
        (summary.now ++ text_of_lines flat.now.outcome flat.now.optimum flat.now.arena)) }
    ensures err { OnErr result (AppendsPrefix (K.written out.old) (K.written out.new)
        (summary.now ++ text_of_lines flat.now.outcome flat.now.optimum flat.now.arena)) }
    ensures cause { HasCause (K.faults out.old) (K.faults out.new) result }
{
    let mut pieces = Pieces::new();
    pieces.put_all(out, summary)?;
    flat.arena
        .put_text(flat.outcome, flat.optimum, &mut pieces, out)?;
    pieces.finish(out)
}
