//! The top call: reads what the words name, and writes the answer.
ghost use Rattle.std.specs.Prelude.{◌≡◌, ◌≢◌, map, None};
ghost use Rattle.qc_io.specs.Counts.{NoneRose, Rose, RoseBy};
ghost use Rattle.qecode_commands.specs.Files.{Wrote};
ghost use Rattle.dense_commands.specs.Words.{asked_of};
ghost use Rattle.dense_commands.specs.Answers.{Answers};
ghost use Rattle.dense_commands.specs.Complete.{IsComplete, MayRunOut};

use crate::check::check_files;
use crate::formula::decide_file;
use crate::solve::solve_file;
use crate::words::{Command, command_of};
use best_judge::texts_have_no_fault;
use dense_text::bytes_are_one_certificate_or_have_one_fault;
use lemma_text::bytes_are_one_list_or_have_one_fault;
use proof_text::bytes_are_one_text_or_have_one_fault;
use qc_io::{Shelf, Sink};
use qc_syntax::texts_say_one_thing;
use qdimacs::texts_get_one_answer;
use qecode_commands::{Status, finish};
use std::alloc::Global;

const USAGE: &[u8] =
    b"usage: qdense solve PROBLEM [--turns N] | check PROBLEM CERTIFICATE | qbf FILE [--turns N]\n";

/// Does what the words ask for.
///
/// Where nothing failed and memory sufficed, a problem is solved, and a formula decided, within as many turns as the whole game
/// can take, and a certificate that proves what it states is confirmed, of whatever version it is.
pub fn run<S: Shelf, K: Sink>(alloc: Global, words: &[&str], shelf: &mut S, out: &mut K) -> Status
    ensures wrote { Wrote (K.written out.old) (K.written out.new) (K.faults out.old) (K.faults out.new) result
        (Answers (asked_of (map (λ w. w.now) words.now)) (S.told shelf.old) (λ n. RoseBy n (S.given shelf.old) (S.given shelf.new))) }

    ensures usage { result ≡ Status.Usage → asked_of (map (λ w. w.now) words.now) ≡ None }
    ensures memory { result ≡ Status.Memory → MayRunOut (asked_of (map (λ w. w.now) words.now)) }
    ensures read_fault { result ≡ Status.ReadFault → Rose (S.faults shelf.old) (S.faults shelf.new) }
    ensures no_read_fault { result ≢ Status.ReadFault → S.faults shelf.new ≡ S.faults shelf.old }

    ensures complete { NoneRose (S.faults shelf.old) (S.faults shelf.new) → NoneRose (K.faults out.old) (K.faults out.new)
        → result ≢ Status.Memory → IsComplete (asked_of (map (λ w. w.now) words.now)) (S.told shelf.old) result }
{
    texts_say_one_thing();
    bytes_are_one_text_or_have_one_fault();
    bytes_are_one_list_or_have_one_fault();
    texts_have_no_fault();
    bytes_are_one_certificate_or_have_one_fault();
    texts_get_one_answer();
    answer(alloc, words, shelf, out)
}

fn answer<S: Shelf, K: Sink>(alloc: Global, words: &[&str], shelf: &mut S, out: &mut K) -> Status
    ensures wrote { Wrote (K.written out.old) (K.written out.new) (K.faults out.old) (K.faults out.new) result
        (Answers (asked_of (map (λ w. w.now) words.now)) (S.told shelf.old) (λ n. RoseBy n (S.given shelf.old) (S.given shelf.new))) }
    ensures usage { result ≡ Status.Usage → asked_of (map (λ w. w.now) words.now) ≡ None }
    ensures memory { result ≡ Status.Memory → MayRunOut (asked_of (map (λ w. w.now) words.now)) }
    ensures read_fault { result ≡ Status.ReadFault → Rose (S.faults shelf.old) (S.faults shelf.new) }
    ensures no_read_fault { result ≢ Status.ReadFault → S.faults shelf.new ≡ S.faults shelf.old }
{
    match command_of(words) {
        Some(Command::Solve { problem, turns }) => solve_file(alloc, problem, turns, shelf, out),
        Some(Command::Decide { formula, turns }) => decide_file(alloc, formula, turns, shelf, out),
        Some(
            Command::Check {
                problem,
                certificate,
            },
        ) => check_files(alloc, problem, certificate, shelf, out),
        None => finish(out, USAGE, Status::Usage),
    }
}
