//! `qbf`: whether a formula is true, by a list of lemmas for its game or by a certificate of `qecode`.
ghost use Rattle.std.specs.Prelude.{◌≡◌, ◌≢◌, ◌≤◌};
ghost use Rattle.qc_io.specs.Counts.{Rose, RoseBy};
ghost use Rattle.qecode_commands.specs.Files.{Wrote};
ghost use Rattle.qecode_commands.specs.Formulas.{AnswersFormula};
ghost use Rattle.dense_commands.specs.Answers.{DecidesGame};

use crate::solve::solve_game;
use qc_io::{Shelf, Sink};
use qecode_commands::{Status, open_formula};
use std::alloc::Global;

/// Decides a file's formula: its game is solved within so many turns.
pub(crate) fn decide_file<S: Shelf, K: Sink>(
    alloc: Global,
    name: &str,
    turns: u64,
    shelf: &mut S,
    out: &mut K,
) -> Status
    requires turns { (1 ≤ turns) × (turns ≤ 10000000) }
    ensures wrote { Wrote (K.written out.old) (K.written out.new) (K.faults out.old) (K.faults out.new) result
        (AnswersFormula (DecidesGame turns) name.now (S.told shelf.old name.now) (λ n. RoseBy n (S.given shelf.old) (S.given shelf.new))) }
    ensures usage { result ≢ Status.Usage }
    ensures read_fault { result ≡ Status.ReadFault → Rose (S.faults shelf.old) (S.faults shelf.new) }
    ensures no_read_fault { result ≢ Status.ReadFault → S.faults shelf.new ≡ S.faults shelf.old }
{
    match open_formula(alloc, name, shelf, out) {
        Ok(problem) => solve_game(alloc, &problem, turns, out),
        Err(status) => status,
    }
}
