//! `allowed`: the allowed tuples at a position.
ghost use Rattle.std.specs.Prelude.{◌≡◌, ◌≢◌, ◌≤◌, length, IfOk};
ghost use Rattle.qc_io.specs.Counts.{Rose, RoseBy};
ghost use Rattle.tell_moves.specs.Stands.{before_scope, place_told, IsReady, IsBefore};
ghost use Rattle.qecode_commands.specs.Answers.{AnswersProblem};
ghost use Rattle.qecode_commands.specs.Files.{Wrote};
ghost use Rattle.tell_commands.specs.Allowed.{allowed_text, ListsPlace, ListsValues, ListsBytes, ListsFile};

use qc_io::{Shelf, Sink};
use qc_model::{Problem, ScopeId};
use qc_play::PlayFault;
use qecode_commands::{
    MOVES_LIMIT, Status, finish, open_file, open_problem, read_moves, turn_moves_down,
    turn_play_down,
};
use std::alloc::{AllocError, Global};
use tell_moves::{Standing, first_moves, stand_at};

/// Lists the allowed tuples of a problem at the position of a file, at most so many.
pub(crate) fn list_files<S: Shelf, K: Sink>(
    alloc: Global,
    problem: &str,
    position: &str,
    most: u64,
    shelf: &mut S,
    out: &mut K,
) -> Status
    ensures wrote { Wrote (K.written out.old) (K.written out.new) (K.faults out.old) (K.faults out.new) result
        (AnswersProblem (ListsFile most position.now (S.told shelf.old position.now) (λ n. RoseBy n (S.given shelf.old) (S.given shelf.new)))
        problem.now (S.told shelf.old problem.now) (λ n. RoseBy n (S.given shelf.old) (S.given shelf.new))) }
    ensures usage { result ≢ Status.Usage }
    ensures read_fault { result ≡ Status.ReadFault → Rose (S.faults shelf.old) (S.faults shelf.new) }
    ensures no_read_fault { result ≢ Status.ReadFault → S.faults shelf.new ≡ S.faults shelf.old }
{
    match open_problem(alloc, problem, shelf, out) {
        Ok(problem) => list_file(alloc, &problem, position, most, shelf, out),
        Err(status) => status,
    }
}

fn list_file<S: Shelf, K: Sink>(
    alloc: Global,
    problem: &Problem,
    position: &str,
    most: u64,
    shelf: &mut S,
    out: &mut K,
) -> Status
    ensures wrote { Wrote (K.written out.old) (K.written out.new) (K.faults out.old) (K.faults out.new) result
        (ListsFile most position.now (S.told shelf.old position.now) (λ n. RoseBy n (S.given shelf.old) (S.given shelf.new)) problem.now) }
    ensures usage { result ≢ Status.Usage }
    ensures read_fault { result ≡ Status.ReadFault → Rose (S.faults shelf.old) (S.faults shelf.new) }
    ensures no_read_fault { result ≢ Status.ReadFault → S.faults shelf.new ≡ S.faults shelf.old }
{
    match open_file(alloc, position, MOVES_LIMIT, shelf, out) {
        Ok(text) => list_text(alloc, problem, &text, most, out),
        Err(status) => status,
    }
}

// Lists the tuples at the position of a text.
fn list_text<K: Sink>(
    alloc: Global,
    problem: &Problem,
    text: &[u8],
    most: u64,
    out: &mut K,
) -> Status
    requires { length text.now ≤ 65536 }
    ensures wrote { Wrote (K.written out.old) (K.written out.new) (K.faults out.old) (K.faults out.new) result (ListsBytes problem.now most text.now) }
    ensures rows { (result ≢ Status.Usage) × (result ≢ Status.ReadFault) }
{
    match read_moves(alloc, text) {
        Ok(values) => list_values(alloc, problem, &values, most, out),
        Err(fault) => turn_moves_down(out, fault),
    }
}

fn list_values<K: Sink>(
    alloc: Global,
    problem: &Problem,
    values: &[i64],
    most: u64,
    out: &mut K,
) -> Status
    ensures wrote { Wrote (K.written out.old) (K.written out.new) (K.faults out.old) (K.faults out.new) result (ListsValues problem.now most values.now) }
    ensures rows { (result ≢ Status.Usage) × (result ≢ Status.ReadFault) }
{
    match stand_at(alloc, problem, values) {
        Ok(standing) => list_at(alloc, problem, &standing, most, out),
        Err(AllocError) => Status::Memory,
    }
}

fn list_at<K: Sink>(
    alloc: Global,
    problem: &Problem,
    standing: &Standing,
    most: u64,
    out: &mut K,
) -> Status
    requires { IsReady problem.now standing.now }
    ensures wrote { Wrote (K.written out.old) (K.written out.new) (K.faults out.old) (K.faults out.new) result
        (ListsPlace problem.now most (place_told standing.now)) }
    ensures rows { (result ≢ Status.Usage) × (result ≢ Status.ReadFault) }
{
    match standing {
        Standing::Before { scope, values } => {
            list_scope(alloc, problem, *scope, values.as_slice(), most, out)
        }
        Standing::AfterAll => finish(out, b"nothing left to choose\n", Status::Done),
        Standing::LeftOver => finish(out, b"too many moves\n", Status::BadMoves),
        Standing::Missing(scope) => turn_play_down(out, PlayFault::Missing(*scope)),
        Standing::NotAllowed(scope) => turn_play_down(out, PlayFault::NotAllowed(*scope)),
    }
}

// Lists the tuples of a scope after the values before it.
fn list_scope<K: Sink>(
    alloc: Global,
    problem: &Problem,
    scope: ScopeId,
    values: &[i64],
    most: u64,
    out: &mut K,
) -> Status
    requires { IsBefore problem.now scope.0 values.now }
    ensures wrote { Wrote (K.written out.old) (K.written out.new) (K.faults out.old) (K.faults out.new) result
        (ListsPlace problem.now most (before_scope scope.0 values.now)) }
    ensures rows { (result ≢ Status.Usage) × (result ≢ Status.ReadFault) }
{
    match text_of(alloc, problem, scope, values, most) {
        Ok(text) => finish(out, &text, Status::Done),
        Err(AllocError) => Status::Memory,
    }
}

fn text_of(
    alloc: Global,
    problem: &Problem,
    scope: ScopeId,
    values: &[i64],
    most: u64,
) -> Result<Vec<u8>, AllocError>
    requires { IsBefore problem.now scope.0 values.now }
    ensures { IfOk result (λ text. text.items ≡ allowed_text problem.now scope.0 values.now most) }
{
    let mut listing = first_moves(alloc, problem, scope, values, most as usize)?;
    if listing.more {
        listing.text.extend_from_slice(b"more\n")?;
    }
    Ok(listing.text)
}
