//! `first`: how the strategy, or the counterstrategy, of a certificate begins.
ghost use Rattle.std.specs.Prelude.{◌≡◌, ◌≢◌};
ghost use Rattle.qc_io.specs.Counts.{Rose, RoseBy};
ghost use Rattle.proof_tree.specs.Lines.{tree_lines};
ghost use Rattle.proof_tree.specs.Tree.{Tree};
ghost use Rattle.qc_play.specs.Roots.{IsListed};
ghost use Rattle.qc_play.specs.Sides.{kind_of, choices_of};
ghost use Rattle.qecode_commands.specs.Answers.{AnswersProblem};
ghost use Rattle.qecode_commands.specs.Files.{Wrote};
ghost use Rattle.tell_commands.specs.Opening.{BeginsWith, BeginsCertificate, BeginsFile};

use crate::opening::opening;
use qc_io::{Shelf, Sink};
use qc_model::Problem;
use qc_play::{CertificateLines, Evidence, Side, make_evidence};
use qecode_commands::{Status, finish, open_certificate, open_problem, tell_open};
use std::alloc::{AllocError, Global};

/// Tells how a file's certificate begins, which proves what it states of the problem of another.
pub(crate) fn begin_files<S: Shelf, K: Sink>(
    alloc: Global,
    problem: &str,
    certificate: &str,
    shelf: &mut S,
    out: &mut K,
) -> Status
    ensures wrote { Wrote (K.written out.old) (K.written out.new) (K.faults out.old) (K.faults out.new) result
        (AnswersProblem (BeginsFile certificate.now (S.told shelf.old certificate.now) (λ n. RoseBy n (S.given shelf.old) (S.given shelf.new)))
        problem.now (S.told shelf.old problem.now) (λ n. RoseBy n (S.given shelf.old) (S.given shelf.new))) }
    ensures usage { result ≢ Status.Usage }
    ensures read_fault { result ≡ Status.ReadFault → Rose (S.faults shelf.old) (S.faults shelf.new) }
    ensures no_read_fault { result ≢ Status.ReadFault → S.faults shelf.new ≡ S.faults shelf.old }
{
    match open_problem(alloc, problem, shelf, out) {
        Ok(problem) => begin_file(alloc, &problem, certificate, shelf, out),
        Err(status) => status,
    }
}

fn begin_file<S: Shelf, K: Sink>(
    alloc: Global,
    problem: &Problem,
    certificate: &str,
    shelf: &mut S,
    out: &mut K,
) -> Status
    ensures wrote { Wrote (K.written out.old) (K.written out.new) (K.faults out.old) (K.faults out.new) result
        (BeginsFile certificate.now (S.told shelf.old certificate.now) (λ n. RoseBy n (S.given shelf.old) (S.given shelf.new)) problem.now) }
    ensures usage { result ≢ Status.Usage }
    ensures read_fault { result ≡ Status.ReadFault → Rose (S.faults shelf.old) (S.faults shelf.new) }
    ensures no_read_fault { result ≢ Status.ReadFault → S.faults shelf.new ≡ S.faults shelf.old }
{
    match open_certificate(alloc, certificate, shelf, out) {
        Ok(cert) => begin_certificate(alloc, problem, &cert, out),
        Err(status) => status,
    }
}

fn begin_certificate<K: Sink>(
    alloc: Global,
    problem: &Problem,
    cert: &CertificateLines,
    out: &mut K,
) -> Status
    requires { IsListed cert.now.outcome cert.now.lines.items }
    ensures wrote { Wrote (K.written out.old) (K.written out.new) (K.faults out.old) (K.faults out.new) result
        (λ s text. (root : Tree) → cert.now.lines.items ≡ tree_lines root → BeginsCertificate cert.now.outcome cert.now.optimum root problem.now s text) }
    ensures rows { (result ≢ Status.Usage) × (result ≢ Status.ReadFault) }
{
    let Ok(evidence) = make_evidence(alloc, problem, cert) else {
        return Status::Memory;
    };
    match evidence {
        Evidence::Plan(plan) => begin_side(alloc, problem, cert, Side::Plan(&plan), out),
        Evidence::Counter(counter) => {
            begin_side(alloc, problem, cert, Side::Counter(&counter), out)
        }
        Evidence::Open(turns) => tell_open(out, turns),
        Evidence::NotProved => finish(out, b"no\n", Status::NotProved),
    }
}

// Tells how a tree of choices begins.
fn begin_side<K: Sink>(
    alloc: Global,
    problem: &Problem,
    cert: &CertificateLines,
    side: Side<'_>,
    out: &mut K,
) -> Status
    ensures wrote { Wrote (K.written out.old) (K.written out.new) (K.faults out.old) (K.faults out.new) result
        (BeginsWith cert.now.outcome cert.now.optimum (kind_of side.entry) (choices_of side.entry) problem.now) }
    ensures rows { (result ≢ Status.Usage) × (result ≢ Status.ReadFault) }
{
    match opening(alloc, problem, cert.outcome, cert.optimum, side) {
        Ok(text) => finish(out, &text, Status::Done),
        Err(AllocError) => Status::Memory,
    }
}
