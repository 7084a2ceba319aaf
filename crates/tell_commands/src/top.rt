//! The top call: reads what the words name, and writes the answer.
ghost use Rattle.std.specs.Prelude.{◌≡◌, ◌≢◌, map, None};
ghost use Rattle.qc_io.specs.Counts.{NoneRose, Rose, RoseBy};
ghost use Rattle.qecode_commands.specs.Files.{Wrote};
ghost use Rattle.tell_commands.specs.Answers.{Answers};
ghost use Rattle.tell_commands.specs.Complete.{IsComplete};
ghost use Rattle.tell_commands.specs.Words.{asked_of};

use crate::allowed::list_files;
use crate::begin::begin_files;
use crate::words::{Command, command_of};
use proof_text::bytes_are_one_text_or_have_one_fault;
use qc_io::{Shelf, Sink};
use qc_syntax::texts_say_one_thing;
use qdimacs::texts_get_one_answer;
use qecode_commands::{Status, finish, oppose_file, solve_file};
use std::alloc::Global;

const USAGE: &[u8] =
    b"usage: qtell first PROBLEM CERTIFICATE | allowed PROBLEM POSITION [--most N] | gap PROBLEM SCOPE --hopeful [--turns N] | gap PROBLEM SCOPE --sure [--turns N]\n";

/// Does what the words ask for.
///
/// Where nothing failed and memory sufficed, it is told how a certificate begins that proves that the game is won or that it
/// isn't, and the allowed tuples are listed where the position is one; the certificates of a gap are those of a game that is
/// settled where the turns are as many as the game can take.
pub fn run<S: Shelf, K: Sink>(alloc: Global, words: &[&str], shelf: &mut S, out: &mut K) -> Status
    ensures wrote { Wrote (K.written out.old) (K.written out.new) (K.faults out.old) (K.faults out.new) result
        (Answers (asked_of (map (λ w. w.now) words.now)) (S.told shelf.old) (λ n. RoseBy n (S.given shelf.old) (S.given shelf.new))) }

    ensures usage { result ≡ Status.Usage → asked_of (map (λ w. w.now) words.now) ≡ None }
    ensures memory { result ≡ Status.Memory → asked_of (map (λ w. w.now) words.now) ≢ None }
    ensures read_fault { result ≡ Status.ReadFault → Rose (S.faults shelf.old) (S.faults shelf.new) }
    ensures no_read_fault { result ≢ Status.ReadFault → S.faults shelf.new ≡ S.faults shelf.old }

    ensures complete { NoneRose (S.faults shelf.old) (S.faults shelf.new) → NoneRose (K.faults out.old) (K.faults out.new)
        → result ≢ Status.Memory → IsComplete (asked_of (map (λ w. w.now) words.now)) (S.told shelf.old) result }
{
    texts_say_one_thing();
    bytes_are_one_text_or_have_one_fault();
    texts_get_one_answer();
    answer(alloc, words, shelf, out)
}

fn answer<S: Shelf, K: Sink>(alloc: Global, words: &[&str], shelf: &mut S, out: &mut K) -> Status
    ensures wrote { Wrote (K.written out.old) (K.written out.new) (K.faults out.old) (K.faults out.new) result
        (Answers (asked_of (map (λ w. w.now) words.now)) (S.told shelf.old) (λ n. RoseBy n (S.given shelf.old) (S.given shelf.new))) }
    ensures usage { result ≡ Status.Usage → asked_of (map (λ w. w.now) words.now) ≡ None }
    ensures memory { result ≡ Status.Memory → asked_of (map (λ w. w.now) words.now) ≢ None }
    ensures read_fault { result ≡ Status.ReadFault → Rose (S.faults shelf.old) (S.faults shelf.new) }
    ensures no_read_fault { result ≢ Status.ReadFault → S.faults shelf.new ≡ S.faults shelf.old }
{
    match command_of(words) {
        Some(
            Command::First {
                problem,
                certificate,
            },
        ) => begin_files(alloc, problem, certificate, shelf, out),
        Some(
            Command::Allowed {
                problem,
                position,
                most,
            },
        ) => list_files(alloc, problem, position, most, shelf, out),
        Some(Command::Hopeful { problem, turns }) => solve_file(alloc, problem, turns, shelf, out),
        Some(
            Command::Sure {
                problem,
                places,
                turns,
            },
        ) => oppose_file(alloc, problem, places, turns, shelf, out),
        None => finish(out, USAGE, Status::Usage),
    }
}
