//! The problem of a file, or the answer that tells why there is none.
ghost use Rattle.std.specs.Prelude.{◌≡◌, ◌≢◌, ◌≤◌, ◌+◌, Err, length, IfSome, IfOk, IfErr, OnOk};
ghost use Rattle.qc_io.specs.Counts.{Rose, RoseBy};
ghost use Rattle.qecode_commands.specs.Answers.{IsProblemOf, TurnsProblemDown};
ghost use Rattle.qecode_commands.specs.Files.{Wrote};
ghost use Rattle.qecode_commands.specs.Refusals.{TurnsTextDown};
ghost use Rattle.qc_syntax.specs.Reads.{Reads};

use crate::file::{TEXT_LIMIT, open_file};
use crate::refuse::turn_down;
use crate::status::Status;
use qc_io::{Shelf, Sink};
use qc_model::Problem;
use qc_syntax::read_problem;
use std::alloc::Global;

/// The problem of a file. Where it can't be read, is too long or has none, the answer is written, and
/// its status given.
pub fn open_problem<S: Shelf, K: Sink>(
    alloc: Global,
    name: &str,
    shelf: &mut S,
    out: &mut K,
) -> Result<Problem, Status>
    ensures problem { IfOk result (λ g. IsProblemOf (S.told shelf.old name.now) g) }
    ensures silent { OnOk result (out.new ≡ out.old) }
    ensures refused { IfErr result (λ s. Wrote (K.written out.old) (K.written out.new) (K.faults out.old) (K.faults out.new) s
        (TurnsProblemDown name.now (S.told shelf.old name.now) (λ n. RoseBy n (S.given shelf.old) (S.given shelf.new)))) }
    ensures usage { IfErr result (λ s. s ≢ Status.Usage) }

    ensures read_fault { result ≡ Err Status.ReadFault → Rose (S.faults shelf.old) (S.faults shelf.new) }
    ensures no_read_fault { result ≢ Err Status.ReadFault → S.faults shelf.new ≡ S.faults shelf.old }
    ensures given { OnOk result (RoseBy 0 (S.given shelf.old) (S.given shelf.new)) }
    ensures few { IfSome (S.told shelf.old name.now) (λ bytes. S.given shelf.new ≤ S.given shelf.old + length bytes) }
    ensures stays { S.told shelf.new ≡ S.told shelf.old }
{
    match open_file(alloc, name, TEXT_LIMIT, shelf, out) {
        Ok(text) => problem_in(alloc, &text, out),
        Err(status) => Err(status),
    }
}

// The problem of a text.
fn problem_in<K: Sink>(alloc: Global, text: &[u8], out: &mut K) -> Result<Problem, Status>
    requires { length text.now ≤ 4194304 }
    ensures problem { IfOk result (λ g. Reads text.now g) }
    ensures silent { OnOk result (out.new ≡ out.old) }
    ensures refused { IfErr result (λ s. Wrote (K.written out.old) (K.written out.new) (K.faults out.old) (K.faults out.new) s (TurnsTextDown text.now)) }
    ensures rows { IfErr result (λ s. (s ≢ Status.Usage) × (s ≢ Status.ReadFault)) }
{
    match read_problem(alloc, text) {
        Ok(problem) => Ok(problem),
        Err(fault) => Err(turn_down(out, fault)),
    }
}
