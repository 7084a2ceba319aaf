//! Whether the two lists of a file prove that a value is the optimum.
ghost use Rattle.std.specs.Prelude.{◌≡◌, ◌≢◌, ◌≤◌, ◌⊎◌, ◌++◌, [], ℕ, List, Some, codes, length};
ghost use Rattle.qc_io.specs.Counts.{Rose, RoseBy};
ghost use Rattle.qc_model.specs.Content.{Game};
ghost use Rattle.proof_tree.specs.declared.tree.Outcome.TheVariants.{True};
ghost use Rattle.proof_tree.specs.Text.{outcome_text};
ghost use Rattle.best_judge.specs.Proof.{Comes};
ghost use Rattle.qecode_commands.specs.Files.{Wrote};
ghost use Rattle.dense_commands.specs.Answers.{ChecksBestBytes, ChecksBestFile};

use crate::feed::CERTIFICATE_LIMIT;
use best_judge::{Verdict, judge_best};
use qc_io::{Shelf, Sink};
use qc_model::Problem;
use qecode_commands::{Status, confirm_true, finish, open_file, refuse_certificate};
use std::alloc::{AllocError, Global};

/// Checks the value and the two lists of a file against a problem. The file is in memory while it is judged.
pub(crate) fn check_best<S: Shelf, K: Sink>(
    alloc: Global,
    problem: &Problem,
    certificate: &str,
    shelf: &mut S,
    out: &mut K,
) -> Status
    ensures wrote { Wrote (K.written out.old) (K.written out.new) (K.faults out.old) (K.faults out.new) result
        (ChecksBestFile certificate.now (S.told shelf.old certificate.now) (λ n. RoseBy n (S.given shelf.old) (S.given shelf.new)) problem.now) }
    ensures usage { result ≢ Status.Usage }
    ensures read_fault { result ≡ Status.ReadFault → Rose (S.faults shelf.old) (S.faults shelf.new) }
    ensures no_read_fault { result ≢ Status.ReadFault → S.faults shelf.new ≡ S.faults shelf.old }
{
    match open_file(alloc, certificate, CERTIFICATE_LIMIT, shelf, out) {
        Ok(bytes) => judge(alloc, problem, bytes.as_slice(), out),
        Err(status) => status,
    }
}

// Tells what the bytes prove.
fn judge<K: Sink>(alloc: Global, problem: &Problem, bytes: &[u8], out: &mut K) -> Status
    requires { length bytes.now ≤ 1073741824 }
    ensures wrote { Wrote (K.written out.old) (K.written out.new) (K.faults out.old) (K.faults out.new) result
        (λ s t. ((s ≡ Status.Memory) × (t ≡ [])) ⊎ ChecksBestBytes problem.now bytes.now s t) }
    ensures rows { (result ≢ Status.Usage) × (result ≢ Status.ReadFault) }
{
    match judge_best(alloc, problem, bytes) {
        Ok(verdict) => tell(out, verdict),
        Err(AllocError) => Status::Memory,
    }
}

// Tells what the bytes come to.
fn tell<K: Sink>(out: &mut K, verdict: Verdict) -> Status
    ensures wrote { Wrote (K.written out.old) (K.written out.new) (K.faults out.old) (K.faults out.new) result
        (λ s t. (g : Game) (bytes : List ℕ) → Comes g bytes verdict → ChecksBestBytes g bytes s t) }
    ensures rows { (result ≡ Status.Done) ⊎ (result ≡ Status.NotProved) ⊎ (result ≡ Status.BadCertificate) ⊎ (result ≡ Status.WriteFault) }
{
    match verdict {
        Verdict::Yes { value } => confirm(out, value),
        Verdict::NotProved => finish(out, b"no\n", Status::NotProved),
        Verdict::NotACertificate { at } => refuse_certificate(out, b"bad certificate at ", at),
    }
}

// Tells the optimum.
fn confirm<K: Sink>(out: &mut K, value: i64) -> Status
    ensures wrote { Wrote (K.written out.old) (K.written out.new) (K.faults out.old) (K.faults out.new) result
        (λ s t. (s ≡ Status.Done) × (t ≡ codes "yes " ++ outcome_text True (Some value))) }
    ensures rows { (result ≡ Status.Done) ⊎ (result ≡ Status.WriteFault) }
{
    confirm_true(out, Some(value))
}
