//! The top call: reads what the words name, and writes the answer.
ghost use Rattle.std.specs.Prelude.{◌≡◌, ◌≢◌, map, None};
ghost use Rattle.qc_io.specs.Counts.{NoneRose, Rose, RoseBy};
ghost use Rattle.qc_io.specs.Memory.{sound_state, sound_told};
ghost use Rattle.qecode_commands.specs.Words.{asked_of};
ghost use Rattle.qecode_commands.specs.Answers.{Answers};
ghost use Rattle.qecode_commands.specs.Files.{Wrote};
ghost use Rattle.qecode_commands.specs.Complete.{IsComplete, MayRunOut};

use crate::check::check_files;
use crate::formula::{decide_file, rewrite_file};
use crate::gap::compare_file;
use crate::generate::{show_made, solve_made};
use crate::play::play_files;
use crate::print::print_file;
use crate::solve::solve_file;
use crate::status::Status;
use crate::words::{Command, command_of};
use crate::worst::{oppose_file, restate_file};
use crate::writing::finish;
use proof_text::bytes_are_one_text_or_have_one_fault;
use qc_io::{Shelf, Sink, SoundShelf};
use qc_syntax::texts_say_one_thing;
use qdimacs::texts_get_one_answer;
use std::alloc::Global;

const USAGE: &[u8] =
    b"usage: qecode solve PROBLEM [--turns N] | check PROBLEM CERTIFICATE | print PROBLEM | generate N [--text] | play PROBLEM CERTIFICATE MOVES | qbf FILE [--turns N | --text] | worst PROBLEM SCOPE [--turns N | --text | --gap]\n";

/// Does what the words ask for.
///
/// Where nothing failed and memory sufficed, a problem is solved within as many turns as the whole game can
/// take, a certificate that proves what it states is confirmed, a play against it is written whose moves can be made, and
/// a problem is printed; a formula is decided within as
/// many turns, or its game is printed; a made problem is solved or left open, or its text is written;
/// where chosen owners meet the worst ties a problem is solved within as many turns as it can take, or printed, or what it
/// comes to stands beside what it comes to otherwise.
pub fn run<S: Shelf, K: Sink>(alloc: Global, words: &[&str], shelf: &mut S, out: &mut K) -> Status
    ensures wrote { Wrote (K.written out.old) (K.written out.new) (K.faults out.old) (K.faults out.new) result
        (Answers (asked_of (map (λ w. w.now) words.now)) (S.told shelf.old) (λ n. RoseBy n (S.given shelf.old) (S.given shelf.new))) }

    ensures usage { result ≡ Status.Usage → asked_of (map (λ w. w.now) words.now) ≡ None }
    ensures memory { result ≡ Status.Memory → MayRunOut (asked_of (map (λ w. w.now) words.now)) (S.told shelf.old) (S.given shelf.old) (S.given shelf.new) }
    ensures read_fault { result ≡ Status.ReadFault → Rose (S.faults shelf.old) (S.faults shelf.new) }
    ensures no_read_fault { result ≢ Status.ReadFault → S.faults shelf.new ≡ S.faults shelf.old }

    ensures complete { NoneRose (S.faults shelf.old) (S.faults shelf.new) → NoneRose (K.faults out.old) (K.faults out.new)
        → result ≢ Status.Memory → IsComplete (asked_of (map (λ w. w.now) words.now)) (S.told shelf.old) result }
{
    texts_say_one_thing();
    bytes_are_one_text_or_have_one_fault();
    texts_get_one_answer();
    answer(alloc, words, shelf, out)
}

fn answer<S: Shelf, K: Sink>(alloc: Global, words: &[&str], shelf: &mut S, out: &mut K) -> Status
    ensures wrote { Wrote (K.written out.old) (K.written out.new) (K.faults out.old) (K.faults out.new) result
        (Answers (asked_of (map (λ w. w.now) words.now)) (S.told shelf.old) (λ n. RoseBy n (S.given shelf.old) (S.given shelf.new))) }
    ensures usage { result ≡ Status.Usage → asked_of (map (λ w. w.now) words.now) ≡ None }
    ensures memory { result ≡ Status.Memory → MayRunOut (asked_of (map (λ w. w.now) words.now)) (S.told shelf.old) (S.given shelf.old) (S.given shelf.new) }
    ensures read_fault { result ≡ Status.ReadFault → Rose (S.faults shelf.old) (S.faults shelf.new) }
    ensures no_read_fault { result ≢ Status.ReadFault → S.faults shelf.new ≡ S.faults shelf.old }
{
    match command_of(words) {
        Some(Command::Solve { problem, turns }) => solve_file(alloc, problem, turns, shelf, out),
        Some(
            Command::Check {
                problem,
                certificate,
            },
        ) => check_files(alloc, problem, certificate, shelf, out),
        Some(
            Command::Play {
                problem,
                certificate,
                moves,
            },
        ) => play_files(alloc, problem, certificate, moves, shelf, out),
        Some(Command::Print { problem }) => print_file(alloc, problem, shelf, out),
        Some(Command::Decide { formula, turns }) => decide_file(alloc, formula, turns, shelf, out),
        Some(Command::Rewrite { formula }) => rewrite_file(alloc, formula, shelf, out),
        Some(Command::Make { number }) => solve_made(alloc, number, out),
        Some(Command::Show { number }) => show_made(alloc, number, out),
        Some(
            Command::Oppose {
                problem,
                places,
                turns,
            },
        ) => oppose_file(alloc, problem, places, turns, shelf, out),
        Some(Command::Restate { problem, places }) => restate_file(
            alloc, problem, places, shelf, out,
        ),
        Some(Command::Compare { problem, places }) => compare_file(
            alloc, problem, places, shelf, out,
        ),
        None => finish(out, USAGE, Status::Usage),
    }
}

/// The same over a shelf whose calls don't fail: no read fault is answered.
pub fn run_sound<K: Sink>(
    alloc: Global,
    words: &[&str],
    shelf: &mut SoundShelf,
    out: &mut K,
) -> Status
    ensures wrote { Wrote (K.written out.old) (K.written out.new) (K.faults out.old) (K.faults out.new) result
        (Answers (asked_of (map (λ w. w.now) words.now)) (sound_told shelf.old) (λ n. RoseBy n (sound_state shelf.old).given (sound_state shelf.new).given)) }
    ensures no_read_fault { result ≢ Status.ReadFault }
{
    run(alloc, words, shelf, out)
}
