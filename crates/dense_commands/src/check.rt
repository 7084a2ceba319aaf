//! `check`: whether a certificate proves what it states of a problem.
ghost use Rattle.std.specs.Prelude.{◌≡◌, ◌≢◌};
ghost use Rattle.qc_io.specs.Counts.{Rose, RoseBy};
ghost use Rattle.qecode_commands.specs.Answers.{AnswersProblem};
ghost use Rattle.qecode_commands.specs.Files.{Wrote};
ghost use Rattle.dense_commands.specs.Answers.{ChecksFile, HasHead};

use crate::best::check_best;
use crate::dense::check_dense;
use crate::head::{Heading, heading_of};
use crate::list::check_list;
use qc_io::{Failed, Shelf, Sink};
use qc_model::Problem;
use qecode_commands::{Status, check_problem, open_problem};
use std::alloc::Global;

/// Checks the certificate of one file against the problem of another.
pub(crate) fn check_files<S: Shelf, K: Sink>(
    alloc: Global,
    problem: &str,
    certificate: &str,
    shelf: &mut S,
    out: &mut K,
) -> Status
    ensures wrote { Wrote (K.written out.old) (K.written out.new) (K.faults out.old) (K.faults out.new) result
        (AnswersProblem (ChecksFile certificate.now (S.told shelf.old certificate.now) (λ n. RoseBy n (S.given shelf.old) (S.given shelf.new)))
        problem.now (S.told shelf.old problem.now) (λ n. RoseBy n (S.given shelf.old) (S.given shelf.new))) }
    ensures usage { result ≢ Status.Usage }
    ensures read_fault { result ≡ Status.ReadFault → Rose (S.faults shelf.old) (S.faults shelf.new) }
    ensures no_read_fault { result ≢ Status.ReadFault → S.faults shelf.new ≡ S.faults shelf.old }
{
    match open_problem(alloc, problem, shelf, out) {
        Ok(problem) => check_file(alloc, &problem, certificate, shelf, out),
        Err(status) => status,
    }
}

// Checks the certificate of a file against a problem.
fn check_file<S: Shelf, K: Sink>(
    alloc: Global,
    problem: &Problem,
    name: &str,
    shelf: &mut S,
    out: &mut K,
) -> Status
    ensures wrote { Wrote (K.written out.old) (K.written out.new) (K.faults out.old) (K.faults out.new) result
        (ChecksFile name.now (S.told shelf.old name.now) (λ n. RoseBy n (S.given shelf.old) (S.given shelf.new)) problem.now) }
    ensures usage { result ≢ Status.Usage }
    ensures read_fault { result ≡ Status.ReadFault → Rose (S.faults shelf.old) (S.faults shelf.new) }
    ensures no_read_fault { result ≢ Status.ReadFault → S.faults shelf.new ≡ S.faults shelf.old }
{
    match heading_of(shelf, name) {
        Ok(heading) => check_as(alloc, problem, name, heading, shelf, out),
        Err(Failed) => Status::ReadFault,
    }
}

// Checks the file of a certificate that begins so.
fn check_as<S: Shelf, K: Sink>(
    alloc: Global,
    problem: &Problem,
    name: &str,
    heading: Heading,
    shelf: &mut S,
    out: &mut K,
) -> Status
    requires { HasHead heading (S.told shelf.old name.now) }
    ensures wrote { Wrote (K.written out.old) (K.written out.new) (K.faults out.old) (K.faults out.new) result
        (ChecksFile name.now (S.told shelf.old name.now) (λ n. RoseBy n (S.given shelf.old) (S.given shelf.new)) problem.now) }
    ensures usage { result ≢ Status.Usage }
    ensures read_fault { result ≡ Status.ReadFault → Rose (S.faults shelf.old) (S.faults shelf.new) }
    ensures no_read_fault { result ≢ Status.ReadFault → S.faults shelf.new ≡ S.faults shelf.old }
{
    match heading {
        Heading::Lemmas => check_list(alloc, problem, name, shelf, out),
        Heading::Optimum => check_best(alloc, problem, name, shelf, out),
        Heading::Dense => check_dense(alloc, problem, name, shelf, out),
        Heading::Tree => check_problem(alloc, problem, name, shelf, out),
    }
}
