//! `print`: the one text of a problem.
ghost use Rattle.std.specs.Prelude.{◌≡◌, ◌≢◌};
ghost use Rattle.qc_io.specs.Counts.{Rose, RoseBy};
ghost use Rattle.qecode_commands.specs.Answers.{AnswersProblem, PrintsProblem};
ghost use Rattle.qecode_commands.specs.Files.{Wrote};

use crate::problem_file::open_problem;
use crate::status::Status;
use crate::writing::finish;
use qc_io::{Shelf, Sink};
use qc_model::Problem;
use qc_print::print_problem;
use std::alloc::{AllocError, Global};

/// Writes the canonical text of the problem of a file.
pub(crate) fn print_file<S: Shelf, K: Sink>(
    alloc: Global,
    name: &str,
    shelf: &mut S,
    out: &mut K,
) -> Status
    ensures wrote { Wrote (K.written out.old) (K.written out.new) (K.faults out.old) (K.faults out.new) result
        (AnswersProblem PrintsProblem name.now (S.told shelf.old name.now) (λ n. RoseBy n (S.given shelf.old) (S.given shelf.new))) }
    ensures usage { result ≢ Status.Usage }
    ensures read_fault { result ≡ Status.ReadFault → Rose (S.faults shelf.old) (S.faults shelf.new) }
    ensures no_read_fault { result ≢ Status.ReadFault → S.faults shelf.new ≡ S.faults shelf.old }
{
    match open_problem(alloc, name, shelf, out) {
        Ok(problem) => write_problem(alloc, &problem, out),
        Err(status) => status,
    }
}

/// Writes the canonical text of a problem.
pub(crate) fn write_problem<K: Sink>(alloc: Global, problem: &Problem, out: &mut K) -> Status
    ensures wrote { Wrote (K.written out.old) (K.written out.new) (K.faults out.old) (K.faults out.new) result (PrintsProblem problem.now) }
    ensures rows { (result ≢ Status.Usage) × (result ≢ Status.ReadFault) }
{
    match print_problem(alloc, problem) {
        Ok(printed) => finish(out, &printed, Status::Done),
        Err(AllocError) => Status::Memory,
    }
}
