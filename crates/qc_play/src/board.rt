//! A play.
ghost use Rattle.std.specs.Prelude.{◌≡◌, ◌≤◌, ◌<◌, ◌++◌, [], true, false, Some, length, drop, MatchResult, IsTrue};
ghost use Rattle.std.specs.List.{list_all};
ghost use Rattle.qc_model.specs.Game.{allows};
ghost use Rattle.qc_model.specs.Valid.{is_number};
ghost use Rattle.qc_play.specs.Sides.{kind_of, choices_of, is_same};
ghost use Rattle.qc_play.specs.Play.{play_of, play_from, at_goal};
ghost use Rattle.qc_play.specs.PlayText.{ending_line, unused_line};
ghost use Rattle.qc_play.specs.Playing.{IsTextOf, IsFaultOf, IsToldAfter, IsWant};
ghost use Rattle.qc_play.specs.Ends.{IsSound, MayGoOn, EndsWell, kind_at};

use crate::fault::PlayFault;
use crate::lines::{put_goal, put_hopeless, put_stuck, put_turn};
use crate::side::{Side, choice, has_answers, reply};
use crate::tuple::{take_tuple, width};
use model_levels::all_hold;
use qc_model::{Kind, Problem, ScopeId};
use std::alloc::Global;

/// Whether the scopes of this owner are the side's.
fn is_own(side: Side<'_>, owner: Kind) -> bool
    ensures { result ≡ is_same (kind_of side.entry) owner }
{
    match side {
        Side::Plan(_plan) => match owner {
            Kind::Exists => true,
            Kind::Forall => false,
        },
        Side::Counter(_counter) => match owner {
            Kind::Exists => false,
            Kind::Forall => true,
        },
    }
}

/// A game that is being played: the values of the scopes that were played, and the text so far.
#[derive(Drop)]
struct Board<'p> {
    problem: &'p Problem,
    values: Vec<i64>,
    text: Vec<u8>,
}

impl<'p> Board<'p> {
    /// The goal is reached.
    fn reach_goal(&mut self, moves: &[i64]) -> Result<(), PlayFault>
        requires { IsTrue (list_all is_number self.old.values.items) }
        ensures { MatchResult result (λ u. self.new.text.items ≡ self.old.text.items ++ (ending_line (at_goal (allows self.old.problem.now (length self.old.problem.now.scopes) self.old.values.items)) ++ unused_line (length moves.now))) IsWant }
    {
        self.problem.known();
        let rules = self.problem.restriction(self.problem.scopes());
        let holds = all_hold(self.problem, rules, self.values.as_slice());
        put_goal(&mut self.text, holds, moves.len())?;
        Ok(())
    }

    /// Scope i is the side's.
    #[cycle(turns)]
    fn own_turn(
        &mut self,
        i: usize,
        owner: Kind,
        side: Side<'_>,
        moves: &[i64],
    ) -> Result<(), PlayFault>
        requires inside { i < length self.old.problem.now.scopes }
        requires owner { kind_at self.old.problem.now i ≡ Some owner }
        requires own { is_same (kind_of side) owner ≡ true }
        requires numbers { IsTrue (list_all is_number self.old.values.items) }
        requires sound { MayGoOn (kind_of side) self.old.problem.now (drop i self.old.problem.now.scopes) i self.old.values.items (choices_of side) }
        ensures { MatchResult result
            (λ u. IsToldAfter i (play_from self.old.problem.now (kind_of side.entry) (drop i self.old.problem.now.scopes) i self.old.values.items (choices_of side.entry) moves.now) self.old.text.items self.new.text.items)
            (IsFaultOf (play_from self.old.problem.now (kind_of side.entry) (drop i self.old.problem.now.scopes) i self.old.values.items (choices_of side.entry) moves.now)) }
    {
        self.problem.known();
        let Some(choice) = choice(side) else {
            put_stuck(&mut self.text, i, moves.len())?;
            return Ok(());
        };
        let tuple = choice.tuple.items();
        self.values.extend_from_slice(tuple)?;
        put_turn(&mut self.text, i, owner, tuple)?;
        self.go_on(i + 1, choice.after, moves)
    }

    /// Scope i is the other side's.
    #[cycle(turns)]
    fn other_turn(
        &mut self,
        i: usize,
        owner: Kind,
        side: Side<'_>,
        moves: &[i64],
    ) -> Result<(), PlayFault>
        requires inside { i < length self.old.problem.now.scopes }
        requires owner { kind_at self.old.problem.now i ≡ Some owner }
        requires own { is_same (kind_of side) owner ≡ false }
        requires numbers { IsTrue (list_all is_number self.old.values.items) }
        requires sound { MayGoOn (kind_of side) self.old.problem.now (drop i self.old.problem.now.scopes) i self.old.values.items (choices_of side) }
        ensures { MatchResult result
            (λ u. IsToldAfter i (play_from self.old.problem.now (kind_of side.entry) (drop i self.old.problem.now.scopes) i self.old.values.items (choices_of side.entry) moves.now) self.old.text.items self.new.text.items)
            (IsFaultOf (play_from self.old.problem.now (kind_of side.entry) (drop i self.old.problem.now.scopes) i self.old.values.items (choices_of side.entry) moves.now)) }
    {
        self.problem.known();
        if !has_answers(side) {
            put_stuck(&mut self.text, i, moves.len())?;
            return Ok(());
        }
        let width = width(self.problem, i);
        if moves.len() < width {
            return Err(PlayFault::Missing(ScopeId(i as u8)));
        }
        let (tuple, rest) = moves.split_at(width);
        if !take_tuple(self.problem, i, &mut self.values, tuple)? {
            return Err(PlayFault::NotAllowed(ScopeId(i as u8)));
        }
        put_turn(&mut self.text, i, owner, tuple)?;
        let Some(after) = reply(side, tuple) else {
            put_hopeless(&mut self.text, i, rest.len())?;
            return Ok(());
        };
        self.go_on(i + 1, after, rest)
    }

    /// The play from scope i on.
    #[cycle(turns)]
    fn go_on(&mut self, i: usize, side: Side<'_>, moves: &[i64]) -> Result<(), PlayFault>
        requires inside { i ≤ length self.old.problem.now.scopes }
        requires numbers { IsTrue (list_all is_number self.old.values.items) }
        requires sound { MayGoOn (kind_of side) self.old.problem.now (drop i self.old.problem.now.scopes) i self.old.values.items (choices_of side) }
        ensures { MatchResult result
            (λ u. IsToldAfter i (play_from self.old.problem.now (kind_of side.entry) (drop i self.old.problem.now.scopes) i self.old.values.items (choices_of side.entry) moves.now) self.old.text.items self.new.text.items)
            (IsFaultOf (play_from self.old.problem.now (kind_of side.entry) (drop i self.old.problem.now.scopes) i self.old.values.items (choices_of side.entry) moves.now)) }
    {
        self.problem.known();
        if i == self.problem.scopes() {
            return self.reach_goal(moves);
        }
        let owner = self.problem.scope(ScopeId(i as u8)).kind;
        if is_own(side, owner) {
            self.own_turn(i, owner, side, moves)
        } else {
            self.other_turn(i, owner, side, moves)
        }
    }
}

/// Plays a game: the scopes of the side are played by its tree, and the others by the moves, scope by scope, a value for
/// each variable. It gives the text of the play, or says which scope the moves fail at. The strategy is to be optimal,
/// or the counterstrategy one that wins; then the play ends as it has to: with a strategy in a goal that holds, or with
/// an opponent who has no allowed tuple; with a counterstrategy in a goal that doesn't hold, or with a player all of
/// whose tuples, or the one taken, let nobody pass the block.
pub fn play(
    alloc: Global,
    problem: &Problem,
    side: Side<'_>,
    moves: &[i64],
) -> Result<Vec<u8>, PlayFault>
    requires { IsSound (kind_of side) problem.now problem.now.scopes 0 [] (choices_of side) }
    ensures told { MatchResult result (λ text. IsTextOf (play_of problem.now (kind_of side.entry) (choices_of side.entry) moves.now) text.items) (λ fault. IsFaultOf (play_of problem.now (kind_of side.entry) (choices_of side.entry) moves.now) fault) }
    ensures ends { EndsWell (kind_of side.entry) problem.now (play_of problem.now (kind_of side.entry) (choices_of side.entry) moves.now) }
{
    let mut board = Board {
        problem,
        values: Vec::with_capacity(alloc, problem.variables())?,
        text: Vec::new(alloc),
    };
    board.go_on(0, side, moves)?;
    let Board {
        problem: _,
        values: _,
        text,
    } = board;
    Ok(text)
}
