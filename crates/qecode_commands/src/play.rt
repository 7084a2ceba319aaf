//! `play`: a play of a problem against what a certificate shows.
ghost use Rattle.std.specs.Prelude.{◌≡◌, ◌≢◌, ◌≤◌, ◌<◌, ◌++◌, ◌⊎◌, [], codes, decimal, length};
ghost use Rattle.qc_io.specs.Counts.{Rose, RoseBy};
ghost use Rattle.proof_tree.specs.Lines.{tree_lines};
ghost use Rattle.proof_tree.specs.Tree.{Tree};
ghost use Rattle.proof_tree.specs.Text.{place_text};
ghost use Rattle.qc_play.specs.Roots.{IsListed};
ghost use Rattle.qc_play.specs.Sides.{kind_of, choices_of};
ghost use Rattle.qc_play.specs.Ends.{IsSound};
ghost use Rattle.qecode_commands.specs.Answers.{AnswersProblem};
ghost use Rattle.qecode_commands.specs.Files.{Wrote};
ghost use Rattle.qecode_commands.specs.Moves.{bad_moves_line, TurnsMovesFaultDown};
ghost use Rattle.qecode_commands.specs.Plays.{PlaysProblem, PlaysCertificate, PlaysFile, PlaysBytes, PlaysMoves, TurnsPlayDown};

use crate::certificate_file::open_certificate;
use crate::file::open_file;
use crate::moves::{NoMoves, read_moves};
use crate::problem_file::open_problem;
use crate::status::Status;
use crate::writing::{finish, finish_parts};
use itoa::Buffer;
use qc_io::{Shelf, Sink};
use qc_model::{Problem, ScopeId};
use qc_play::{CertificateLines, Evidence, PlayFault, Side, make_evidence, play};
use std::alloc::Global;

/// The most bytes of the text of moves.
pub const MOVES_LIMIT: u64 = 65_536;

/// Plays the problem of a file: one side by what the certificate of another shows, and the other side by the moves of a
/// third.
pub(crate) fn play_files<S: Shelf, K: Sink>(
    alloc: Global,
    problem: &str,
    certificate: &str,
    moves: &str,
    shelf: &mut S,
    out: &mut K,
) -> Status
    ensures wrote { Wrote (K.written out.old) (K.written out.new) (K.faults out.old) (K.faults out.new) result
        (AnswersProblem (PlaysProblem certificate.now moves.now (S.told shelf.old) (λ n. RoseBy n (S.given shelf.old) (S.given shelf.new)))
        problem.now (S.told shelf.old problem.now) (λ n. RoseBy n (S.given shelf.old) (S.given shelf.new))) }
    ensures usage { result ≢ Status.Usage }
    ensures read_fault { result ≡ Status.ReadFault → Rose (S.faults shelf.old) (S.faults shelf.new) }
    ensures no_read_fault { result ≢ Status.ReadFault → S.faults shelf.new ≡ S.faults shelf.old }
{
    match open_problem(alloc, problem, shelf, out) {
        Ok(problem) => play_problem(alloc, &problem, certificate, moves, shelf, out),
        Err(status) => status,
    }
}

fn play_problem<S: Shelf, K: Sink>(
    alloc: Global,
    problem: &Problem,
    certificate: &str,
    moves: &str,
    shelf: &mut S,
    out: &mut K,
) -> Status
    ensures wrote { Wrote (K.written out.old) (K.written out.new) (K.faults out.old) (K.faults out.new) result
        (PlaysProblem certificate.now moves.now (S.told shelf.old) (λ n. RoseBy n (S.given shelf.old) (S.given shelf.new)) problem.now) }
    ensures usage { result ≢ Status.Usage }
    ensures read_fault { result ≡ Status.ReadFault → Rose (S.faults shelf.old) (S.faults shelf.new) }
    ensures no_read_fault { result ≢ Status.ReadFault → S.faults shelf.new ≡ S.faults shelf.old }
{
    match open_certificate(alloc, certificate, shelf, out) {
        Ok(cert) => play_certificate(alloc, problem, &cert, moves, shelf, out),
        Err(status) => status,
    }
}

fn play_certificate<S: Shelf, K: Sink>(
    alloc: Global,
    problem: &Problem,
    cert: &CertificateLines,
    moves: &str,
    shelf: &mut S,
    out: &mut K,
) -> Status
    requires { IsListed cert.now.outcome cert.now.lines.items }
    ensures wrote { Wrote (K.written out.old) (K.written out.new) (K.faults out.old) (K.faults out.new) result
        (λ s text. (root : Tree) → cert.now.lines.items ≡ tree_lines root → PlaysCertificate cert.now.outcome cert.now.optimum root moves.now (S.told shelf.old moves.now) (λ n. RoseBy n (S.given shelf.old) (S.given shelf.new)) problem.now s text) }
    ensures usage { result ≢ Status.Usage }
    ensures read_fault { result ≡ Status.ReadFault → Rose (S.faults shelf.old) (S.faults shelf.new) }
    ensures no_read_fault { result ≢ Status.ReadFault → S.faults shelf.new ≡ S.faults shelf.old }
{
    let Ok(evidence) = make_evidence(alloc, problem, cert) else {
        return Status::Memory;
    };
    match evidence {
        Evidence::Plan(plan) => play_file(alloc, problem, Side::Plan(&plan), moves, shelf, out),
        Evidence::Counter(counter) => {
            play_file(alloc, problem, Side::Counter(&counter), moves, shelf, out)
        }
        Evidence::Open(turns) => tell_open(out, turns),
        Evidence::NotProved => finish(out, b"no\n", Status::NotProved),
    }
}

/// Tells after how many turns the game was left open.
pub fn tell_open<K: Sink>(out: &mut K, turns: u64) -> Status
    ensures wrote { Wrote (K.written out.old) (K.written out.new) (K.faults out.old) (K.faults out.new) result
        (λ s t. (s ≡ Status.Open) × (t ≡ codes "open " ++ decimal turns ++ codes "\n")) }
    ensures rows { (result ≡ Status.Open) ⊎ (result ≡ Status.WriteFault) }
{
    let mut buffer = Buffer::new();
    finish_parts(
        out,
        b"open ",
        buffer.format(turns).as_bytes(),
        b"\n",
        Status::Open,
    )
}

// Plays the moves of a file against a tree of choices.
fn play_file<S: Shelf, K: Sink>(
    alloc: Global,
    problem: &Problem,
    side: Side<'_>,
    moves: &str,
    shelf: &mut S,
    out: &mut K,
) -> Status
    requires { IsSound (kind_of side) problem.now problem.now.scopes 0 [] (choices_of side) }
    ensures wrote { Wrote (K.written out.old) (K.written out.new) (K.faults out.old) (K.faults out.new) result
        (PlaysFile problem.now (kind_of side.entry) (choices_of side.entry) moves.now (S.told shelf.old moves.now) (λ n. RoseBy n (S.given shelf.old) (S.given shelf.new))) }
    ensures usage { result ≢ Status.Usage }
    ensures read_fault { result ≡ Status.ReadFault → Rose (S.faults shelf.old) (S.faults shelf.new) }
    ensures no_read_fault { result ≢ Status.ReadFault → S.faults shelf.new ≡ S.faults shelf.old }
{
    match open_file(alloc, moves, MOVES_LIMIT, shelf, out) {
        Ok(text) => play_text(alloc, problem, side, &text, out),
        Err(status) => status,
    }
}

// Plays the moves of a text.
fn play_text<K: Sink>(
    alloc: Global,
    problem: &Problem,
    side: Side<'_>,
    text: &[u8],
    out: &mut K,
) -> Status
    requires sound { IsSound (kind_of side) problem.now problem.now.scopes 0 [] (choices_of side) }
    requires few { length text.now ≤ 65536 }
    ensures wrote { Wrote (K.written out.old) (K.written out.new) (K.faults out.old) (K.faults out.new) result (PlaysBytes problem.now (kind_of side.entry) (choices_of side.entry) text.now) }
    ensures rows { (result ≢ Status.Usage) × (result ≢ Status.ReadFault) }
{
    match read_moves(alloc, text) {
        Ok(moves) => play_moves(alloc, problem, side, &moves, out),
        Err(fault) => turn_moves_down(out, fault),
    }
}

fn play_moves<K: Sink>(
    alloc: Global,
    problem: &Problem,
    side: Side<'_>,
    moves: &[i64],
    out: &mut K,
) -> Status
    requires { IsSound (kind_of side) problem.now problem.now.scopes 0 [] (choices_of side) }
    ensures wrote { Wrote (K.written out.old) (K.written out.new) (K.faults out.old) (K.faults out.new) result (PlaysMoves problem.now (kind_of side.entry) (choices_of side.entry) moves.now) }
    ensures rows { (result ≢ Status.Usage) × (result ≢ Status.ReadFault) }
{
    match play(alloc, problem, side, moves) {
        Ok(text) => finish(out, &text, Status::Done),
        Err(fault) => turn_play_down(out, fault),
    }
}

/// Tells why a text is no moves; nothing is written where memory was refused.
pub fn turn_moves_down<K: Sink>(out: &mut K, fault: NoMoves) -> Status
    ensures wrote { Wrote (K.written out.old) (K.written out.new) (K.faults out.old) (K.faults out.new) result (TurnsMovesFaultDown fault) }
    ensures rows { (result ≢ Status.Usage) × (result ≢ Status.ReadFault) }
{
    match fault {
        NoMoves::Bad { at } => tell_place(out, at),
        NoMoves::Memory(_) => Status::Memory,
    }
}

fn tell_place<K: Sink>(out: &mut K, at: u32) -> Status
    ensures wrote { Wrote (K.written out.old) (K.written out.new) (K.faults out.old) (K.faults out.new) result
        (λ s t. (s ≡ Status.BadMoves) × (t ≡ bad_moves_line at)) }
    ensures rows { (result ≡ Status.BadMoves) ⊎ (result ≡ Status.WriteFault) }
{
    let mut buffer = Buffer::new();
    finish_parts(
        out,
        b"bad moves at ",
        buffer.format(at).as_bytes(),
        b"\n",
        Status::BadMoves,
    )
}

/// Tells at which scope the moves fail; nothing is written where memory was refused.
pub fn turn_play_down<K: Sink>(out: &mut K, fault: PlayFault) -> Status
    ensures wrote { Wrote (K.written out.old) (K.written out.new) (K.faults out.old) (K.faults out.new) result (TurnsPlayDown fault) }
    ensures rows { (result ≢ Status.Usage) × (result ≢ Status.ReadFault) }
{
    match fault {
        PlayFault::Missing(scope) => tell_scope(out, b"move missing at scope ", scope),
        PlayFault::NotAllowed(scope) => tell_scope(out, b"move not allowed at scope ", scope),
        PlayFault::Memory(_) => Status::Memory,
    }
}

// The line that names a scope by its number, which counts from 1.
fn tell_scope<K: Sink>(out: &mut K, words: &[u8], scope: ScopeId) -> Status
    ensures wrote { Wrote (K.written out.old) (K.written out.new) (K.faults out.old) (K.faults out.new) result
        (λ s t. (s ≡ Status.BadMoves) × (t ≡ words.now ++ place_text scope.0 ++ codes "\n")) }
    ensures rows { (result ≡ Status.BadMoves) ⊎ (result ≡ Status.WriteFault) }
{
    let mut buffer = Buffer::new();
    finish_parts(
        out,
        words,
        buffer.format(u32::from(scope.0) + 1).as_bytes(),
        b"\n",
        Status::BadMoves,
    )
}
