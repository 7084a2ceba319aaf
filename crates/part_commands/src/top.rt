//! The top call: reads what the words name, and writes the answer.
ghost use Rattle.std.specs.Prelude.{◌≡◌, ◌≢◌, map, None};
ghost use Rattle.qc_io.specs.Counts.{NoneRose, Rose, RoseBy};
ghost use Rattle.qecode_commands.specs.Files.{Wrote};
ghost use Rattle.part_commands.specs.Answers.{Answers};
ghost use Rattle.part_commands.specs.Complete.{IsComplete, MayRunOut};
ghost use Rattle.part_commands.specs.Words.{asked_of};

use crate::solve::solve_file;
use crate::words::command_of;
use proof_text::bytes_are_one_text_or_have_one_fault;
use qc_io::{Shelf, Sink};
use qc_syntax::texts_say_one_thing;
use qdimacs::texts_get_one_answer;
use qecode_commands::{Status, finish};
use std::alloc::{AllocError, Global};

const USAGE: &[u8] = b"usage: qpart solve PROBLEM [--keep X L H].. [--reached V] [--turns N]\n";

/// Does what the words ask for.
///
/// Where nothing failed and memory sufficed, a piece is settled or left open, if its variables are there and keep values, and a value
/// is only said to be reached where the first scope has a wish.
pub fn run<S: Shelf, K: Sink>(alloc: Global, words: &[&str], shelf: &mut S, out: &mut K) -> Status
    ensures wrote { Wrote (K.written out.old) (K.written out.new) (K.faults out.old) (K.faults out.new) result
        (Answers (asked_of (map (λ w. w.now) words.now)) (S.told shelf.old) (λ n. RoseBy n (S.given shelf.old) (S.given shelf.new))) }

    ensures usage { result ≡ Status.Usage → asked_of (map (λ w. w.now) words.now) ≡ None }
    ensures memory { result ≡ Status.Memory → MayRunOut (map (λ w. w.now) words.now) (asked_of (map (λ w. w.now) words.now)) }
    ensures read_fault { result ≡ Status.ReadFault → Rose (S.faults shelf.old) (S.faults shelf.new) }
    ensures no_read_fault { result ≢ Status.ReadFault → S.faults shelf.new ≡ S.faults shelf.old }

    ensures complete { NoneRose (S.faults shelf.old) (S.faults shelf.new) → NoneRose (K.faults out.old) (K.faults out.new)
        → result ≢ Status.Memory → IsComplete (asked_of (map (λ w. w.now) words.now)) (S.told shelf.old) result }
{
    texts_say_one_thing();
    bytes_are_one_text_or_have_one_fault();
    texts_get_one_answer();
    answer(alloc, words, shelf, out)
}

fn answer<S: Shelf, K: Sink>(alloc: Global, words: &[&str], shelf: &mut S, out: &mut K) -> Status
    ensures wrote { Wrote (K.written out.old) (K.written out.new) (K.faults out.old) (K.faults out.new) result
        (Answers (asked_of (map (λ w. w.now) words.now)) (S.told shelf.old) (λ n. RoseBy n (S.given shelf.old) (S.given shelf.new))) }
    ensures usage { result ≡ Status.Usage → asked_of (map (λ w. w.now) words.now) ≡ None }
    ensures memory { result ≡ Status.Memory → MayRunOut (map (λ w. w.now) words.now) (asked_of (map (λ w. w.now) words.now)) }
    ensures read_fault { result ≡ Status.ReadFault → Rose (S.faults shelf.old) (S.faults shelf.new) }
    ensures no_read_fault { result ≢ Status.ReadFault → S.faults shelf.new ≡ S.faults shelf.old }
{
    match command_of(alloc, words) {
        Ok(Some(command)) => solve_file(alloc, &command, shelf, out),
        Ok(None) => finish(out, USAGE, Status::Usage),
        Err(AllocError) => Status::Memory,
    }
}
