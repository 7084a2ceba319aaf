//! `qbf`: the certificate of a formula's game, or the text of the game.
ghost use Rattle.std.specs.Prelude.{◌≡◌, ◌≢◌, ◌≤◌};
ghost use Rattle.qc_io.specs.Counts.{Rose, RoseBy};
ghost use Rattle.qecode_commands.specs.Files.{Wrote};
ghost use Rattle.qecode_commands.specs.Formulas.{AnswersFormula, DecidesFormula, RewritesFormula};

use crate::formula_file::open_formula;
use crate::print::write_problem;
use crate::solve::solve_problem;
use crate::status::Status;
use qc_io::{Shelf, Sink};
use std::alloc::Global;

/// Decides a file's formula: its game is solved within so many turns.
pub(crate) fn decide_file<S: Shelf, K: Sink>(
    alloc: Global,
    name: &str,
    turns: u64,
    shelf: &mut S,
    out: &mut K,
) -> Status
    requires turns { (1 ≤ turns) × (turns ≤ 10000000) }
    ensures wrote { Wrote (K.written out.old) (K.written out.new) (K.faults out.old) (K.faults out.new) result
        (AnswersFormula (DecidesFormula turns) name.now (S.told shelf.old name.now) (λ n. RoseBy n (S.given shelf.old) (S.given shelf.new))) }
    ensures usage { result ≢ Status.Usage }
    ensures read_fault { result ≡ Status.ReadFault → Rose (S.faults shelf.old) (S.faults shelf.new) }
    ensures no_read_fault { result ≢ Status.ReadFault → S.faults shelf.new ≡ S.faults shelf.old }
{
    match open_formula(alloc, name, shelf, out) {
        Ok(problem) => solve_problem(alloc, &problem, turns, out),
        Err(status) => status,
    }
}

/// Writes the canonical text of a formula's game.
pub(crate) fn rewrite_file<S: Shelf, K: Sink>(
    alloc: Global,
    name: &str,
    shelf: &mut S,
    out: &mut K,
) -> Status
    ensures wrote { Wrote (K.written out.old) (K.written out.new) (K.faults out.old) (K.faults out.new) result
        (AnswersFormula RewritesFormula name.now (S.told shelf.old name.now) (λ n. RoseBy n (S.given shelf.old) (S.given shelf.new))) }
    ensures usage { result ≢ Status.Usage }
    ensures read_fault { result ≡ Status.ReadFault → Rose (S.faults shelf.old) (S.faults shelf.new) }
    ensures no_read_fault { result ≢ Status.ReadFault → S.faults shelf.new ≡ S.faults shelf.old }
{
    match open_formula(alloc, name, shelf, out) {
        Ok(problem) => write_problem(alloc, &problem, out),
        Err(status) => status,
    }
}
