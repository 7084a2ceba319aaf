//! The answer for a piece of a game: the game kept to some values of some variables.
//!
//! Many processors part a game so, and put the lines of the pieces together. A value of the first scope may have been reached in
//! another piece already: then nothing has to be found that isn't better.
ghost use Rattle.std.specs.Prelude.{◌≡◌, ◌≤◌, ◌<◌, ◌-ℤ◌, ◌+ℤ◌, [], List, ℤ, pos, negsuc, true, false, not, length, IfErr, IfNone, IfOk, IfSome, OnOk, IsFalse, IsTrue};
ghost use Rattle.qc_model.specs.Content.{Game};
ghost use Rattle.qc_model.specs.Domains.{box_within, box_without, has_empty};
ghost use Rattle.qc_model.specs.Valid.{is_number};
ghost use Rattle.joins.specs.Joins.{game_of};
ghost use Rattle.joins.specs.Seen.{verdict_of};
ghost use Rattle.search_box.specs.Entered.{IsEntered};
ghost use Rattle.search_parts.specs.Settled.{beats_none, is_vague_verdict};
ghost use Rattle.game_search.specs.Beside.{PieceTried};
ghost use Rattle.game_search.specs.Pieces.{AreKeeps, IsKeep, IsReached, PieceLines, is_no_better as is_no_better_by, kept_box, kept_from, optimum_beside, outcome_beside};
ghost use Rattle.search_walk.specs.Stops.{MayStop};

use crate::attempts::{Flat, Root, answer, begin, decided, first_own};
use crate::beside::root;
use model_levels::Levels;
use proof_tree::{Outcome, StepList};
use qc_model::{Problem, Sense, VarId, limits};
use search_box::SearchBox;
use search_walk::{Stop, Walk};
use std::alloc::{AllocError, Global};
use std::mem::replace;
use strategy_arena::{Arena, lines_fit};

/// The largest value that a variable can have.
const LARGEST: i64 = limits::NUMBER as i64;

/// A variable keeps its values from lo to hi, both included.
#[derive(Clone, Copy)]
pub struct Keep {
    pub x: VarId,
    pub lo: i64,
    pub hi: i64,
}

/// Decides the piece of a game in which variables keep the values that `keeps` names, one after the other, within so many turns,
/// from 1 to 10,000,000. None comes exactly where a variable keeps no value.
///
/// With `reached` a best value of the first scope is known from elsewhere, of at most 10^18 by its absolute value; the scope has to be
/// the player's and to have a condition. Then False says that nothing in the piece is better, and True with a value that this is the
/// best one, and better.
///
/// The lines are those of a tree that stands at the root in the piece's box, and that shows the outcome and the optimum, beside what was
/// reached; it is in order and diligent, and keeps its incumbents. The outcome is Open only where all turns are spent. It fails
/// only where memory runs out.
pub fn solve_piece(
    alloc: Global,
    problem: &Problem,
    keeps: &[Keep],
    reached: Option<i64>,
    turns: u64,
) -> Result<Option<Flat>, AllocError>
    requires some { 1 ≤ turns }
    requires turns { turns ≤ 10000000 }
    requires keeps { AreKeeps problem.now keeps.now }
    requires reached { IfSome reached (λ r. IsReached problem.now r) }
    ensures solved { IfOk result (λ o. IfSome o (λ f. PieceLines problem.now (kept_box problem.now keeps.now) reached turns f.outcome f.optimum f.arena)) }
    ensures some { IfOk result (λ o. IfSome o (λ f. IsFalse (has_empty (kept_box problem.now keeps.now)))) }
    ensures none { IfOk result (λ o. IfNone o (IsTrue (has_empty (kept_box problem.now keeps.now)))) }
{
    let levels = Levels::new(alloc, problem)?;
    two_tries(alloc, &levels, keeps, reached, turns)
}

/// Goes through the piece with cuts, and without them where that comes to nothing.
fn two_tries(
    alloc: Global,
    levels: &Levels,
    keeps: &[Keep],
    reached: Option<i64>,
    turns: u64,
) -> Result<Option<Flat>, AllocError>
    requires some { 1 ≤ turns }
    requires turns { turns ≤ 10000000 }
    requires keeps { AreKeeps levels.now.problem.now keeps.now }
    requires reached { IfSome reached (λ r. IsReached levels.now.problem.now r) }
    ensures solved { IfOk result (λ o. IfSome o (λ f. PieceLines levels.now.problem.now (kept_box levels.now.problem.now keeps.now) reached turns f.outcome f.optimum f.arena)) }
    ensures some { IfOk result (λ o. IfSome o (λ f. IsFalse (has_empty (kept_box levels.now.problem.now keeps.now)))) }
    ensures none { IfOk result (λ o. IfNone o (IsTrue (has_empty (kept_box levels.now.problem.now keeps.now)))) }
{
    lines_fit();
    if let Some(first) = first_try(alloc, levels, keeps, reached, turns)? {
        return Ok(Some(answer_beside(first, reached, turns)));
    }
    match second_try(alloc, levels, keeps, reached, turns)? {
        None => Ok(None),
        Some(second) => Ok(Some(answer_beside(second, reached, turns))),
    }
}

/// Goes through the piece with cuts: what that came to, where it is decided.
fn first_try(
    alloc: Global,
    levels: &Levels,
    keeps: &[Keep],
    reached: Option<i64>,
    turns: u64,
) -> Result<Option<Root>, AllocError>
    requires turns { turns ≤ 10000000 }
    requires keeps { AreKeeps levels.now.problem.now keeps.now }
    requires reached { IfSome reached (λ r. IsReached levels.now.problem.now r) }
    ensures tried { IfOk result (λ first. IfSome first (λ root. PieceTried true levels.now.problem.now (kept_box levels.now.problem.now keeps.now) reached turns root.found root.own root.arena)) }
    ensures decided { IfOk result (λ first. IfSome first (λ root. (v : List ℤ) → IsFalse (is_vague_verdict beats_none (verdict_of root.found v)))) }
    ensures full { IfOk result (λ first. IfSome first (λ root. IsFalse (has_empty (kept_box levels.now.problem.now keeps.now)))) }
{
    match try_piece(alloc, levels, keeps, reached, turns, true) {
        Ok(None) => Ok(None),
        Ok(Some(root)) => Ok(decided(root)),
        Err(Stop::Turns) => Ok(None),
        Err(Stop::Memory(refused)) => Err(refused),
    }
}

/// Goes through the piece without cuts, which never ends for want of turns.
fn second_try(
    alloc: Global,
    levels: &Levels,
    keeps: &[Keep],
    reached: Option<i64>,
    turns: u64,
) -> Result<Option<Root>, AllocError>
    requires turns { turns ≤ 10000000 }
    requires keeps { AreKeeps levels.now.problem.now keeps.now }
    requires reached { IfSome reached (λ r. IsReached levels.now.problem.now r) }
    ensures tried { IfOk result (λ second. IfSome second (λ root. PieceTried false levels.now.problem.now (kept_box levels.now.problem.now keeps.now) reached turns root.found root.own root.arena)) }
    ensures full { IfOk result (λ second. IfSome second (λ root. IsFalse (has_empty (kept_box levels.now.problem.now keeps.now)))) }
    ensures none { IfOk result (λ second. IfNone second (IsTrue (has_empty (kept_box levels.now.problem.now keeps.now)))) }
{
    match try_piece(alloc, levels, keeps, reached, turns, false) {
        Ok(second) => Ok(second),
        Err(Stop::Turns) => unreachable!(),
        Err(Stop::Memory(refused)) => Err(refused),
    }
}

/// Goes through the piece within so many turns. None comes exactly where a variable keeps no value.
fn try_piece(
    alloc: Global,
    levels: &Levels,
    keeps: &[Keep],
    reached: Option<i64>,
    turns: u64,
    cuts: bool,
) -> Result<Option<Root>, Stop>
    requires turns { turns ≤ 10000000 }
    requires keeps { AreKeeps levels.now.problem.now keeps.now }
    requires reached { IfSome reached (λ r. IsReached levels.now.problem.now r) }
    ensures tried { IfOk result (λ o. IfSome o (λ root. PieceTried cuts levels.now.problem.now (kept_box levels.now.problem.now keeps.now) reached turns root.found root.own root.arena)) }
    ensures full { IfOk result (λ o. IfSome o (λ root. IsFalse (has_empty (kept_box levels.now.problem.now keeps.now)))) }
    ensures none { IfOk result (λ o. IfNone o (IsTrue (has_empty (kept_box levels.now.problem.now keeps.now)))) }
    ensures stops { IfErr result (MayStop cuts) }
{
    match begin(alloc, levels, turns, cuts) {
        Ok(mut walk) => {
            let root = go_through(levels, keeps, reached, cuts, &mut walk);
            drop(walk);
            root
        }
        Err(refused) => Err(Stop::Memory(refused)),
    }
}

/// Goes through the piece by a walk that hasn't gone anywhere, and takes its lines.
fn go_through(
    levels: &Levels,
    keeps: &[Keep],
    reached: Option<i64>,
    cuts: bool,
    walk: &mut Walk,
) -> Result<Option<Root>, Stop>
    requires here { IsEntered levels.now.problem.now 0 walk.old.remains }
    requires joins { game_of walk.old.joins ≡ levels.now.problem.now }
    requires lines { walk.old.lines ≡ [] }
    requires turns { walk.old.left ≤ 10000000 }
    requires keeps { AreKeeps levels.now.problem.now keeps.now }
    requires reached { IfSome reached (λ r. IsReached levels.now.problem.now r) }
    ensures tried { IfOk result (λ o. IfSome o (λ root. PieceTried cuts levels.now.problem.now (kept_from walk.old.remains.store.box keeps.now) reached walk.old.left root.found root.own root.arena)) }
    ensures full { IfOk result (λ o. IfSome o (λ root. IsFalse (has_empty (kept_from walk.old.remains.store.box keeps.now)))) }
    ensures none { IfOk result (λ o. IfNone o (IsTrue (has_empty (kept_from walk.old.remains.store.box keeps.now)))) }
    ensures stops { IfErr result (MayStop cuts) }
{
    if !keep_all(walk.alloc, levels.problem, keeps, &mut walk.remains)? {
        return Ok(None);
    }
    let found = root(levels, cuts, reached, walk)?;
    let own = first_own(levels.problem, &walk.joins);
    let arena = replace(&mut walk.lines, Arena::new(walk.alloc));
    Ok(Some(Root { found, own, arena }))
}

/// Leaves variables the values that are kept, one keep after the other, until a variable has none left: whether each has one.
fn keep_all(
    alloc: Global,
    problem: &Problem,
    keeps: &[Keep],
    remains: &mut SearchBox,
) -> Result<bool, AllocError>
    requires game { remains.old.game ≡ problem.now }
    requires full { IsFalse (has_empty remains.old.store.box) }
    requires keeps { AreKeeps problem.now keeps.now }
    ensures kept { IfOk result (λ some. IsTrue some → remains.new.store.box ≡ kept_from remains.old.store.box keeps.now) }
    ensures some { IfOk result (λ some. some ≡ not (has_empty (kept_from remains.old.store.box keeps.now))) }
    ensures here { IfOk result (λ some. IsTrue some → (g : Game) → IsEntered g 0 remains.old → IsEntered g 0 remains.new) }
{
    let mut scratch = StepList::new(alloc);
    let mut rest = keeps;
    while let [first, later @ ..] = rest {
        if !keep_one(problem, *first, remains, &mut scratch)? {
            return Ok(false);
        }
        rest = later;
    }
    Ok(true)
}

/// Leaves a variable the values that are kept: whether it has one left.
fn keep_one(
    problem: &Problem,
    keep: Keep,
    remains: &mut SearchBox,
    scratch: &mut StepList,
) -> Result<bool, AllocError>
    requires game { remains.old.game ≡ problem.now }
    requires full { IsFalse (has_empty remains.old.store.box) }
    requires keep { IsKeep problem.now keep }
    ensures kept { IfOk result (λ some. IsTrue some → remains.new.store.box ≡ box_within remains.old.store.box keep.x.0 keep.lo keep.hi) }
    ensures some { IfOk result (λ some. some ≡ not (has_empty (box_within remains.old.store.box keep.x.0 keep.lo keep.hi))) }
    ensures here { IfOk result (λ some. IsTrue some → (g : Game) → IsEntered g 0 remains.old → IsEntered g 0 remains.new) }
    ensures game { remains.new.game ≡ remains.old.game }
{
    problem.known();
    remains.known();
    if !keep_above(problem, keep, remains, scratch)? {
        return Ok(false);
    }
    keep_below(problem, keep, remains, scratch)
}

/// Takes the values below those that are kept.
fn keep_above(
    problem: &Problem,
    keep: Keep,
    remains: &mut SearchBox,
    scratch: &mut StepList,
) -> Result<bool, AllocError>
    requires game { remains.old.game ≡ problem.now }
    requires full { IsFalse (has_empty remains.old.store.box) }
    requires keep { IsKeep problem.now keep }
    ensures content { OnOk result (remains.new.store.box ≡ box_without remains.old.store.box keep.x.0 (negsuc 999999999) (keep.lo -ℤ pos 1)) }
    ensures some { IfOk result (λ some. some ≡ not (has_empty remains.new.store.box)) }
    ensures here { IfOk result (λ some. IsTrue some → (g : Game) → IsEntered g 0 remains.old → IsEntered g 0 remains.new) }
    ensures game { remains.new.game ≡ remains.old.game }
{
    problem.known();
    remains.known();
    if keep.lo <= -LARGEST {
        return Ok(true);
    }
    take_out(keep.x, -LARGEST, keep.lo - 1, remains, scratch)
}

/// Takes the values above those that are kept.
fn keep_below(
    problem: &Problem,
    keep: Keep,
    remains: &mut SearchBox,
    scratch: &mut StepList,
) -> Result<bool, AllocError>
    requires game { remains.old.game ≡ problem.now }
    requires full { IsFalse (has_empty remains.old.store.box) }
    requires keep { IsKeep problem.now keep }
    ensures content { OnOk result (remains.new.store.box ≡ box_without remains.old.store.box keep.x.0 (keep.hi +ℤ pos 1) (pos 1000000000)) }
    ensures some { IfOk result (λ some. some ≡ not (has_empty remains.new.store.box)) }
    ensures here { IfOk result (λ some. IsTrue some → (g : Game) → IsEntered g 0 remains.old → IsEntered g 0 remains.new) }
    ensures game { remains.new.game ≡ remains.old.game }
{
    problem.known();
    remains.known();
    if LARGEST <= keep.hi {
        return Ok(true);
    }
    take_out(keep.x, keep.hi + 1, LARGEST, remains, scratch)
}

/// Takes the values of x from lo to hi: whether it has one left. The step that says so is no part of any certificate.
fn take_out(
    x: VarId,
    lo: i64,
    hi: i64,
    remains: &mut SearchBox,
    scratch: &mut StepList,
) -> Result<bool, AllocError>
    requires var { x.0 < length remains.old.game.variables }
    requires lo { IsTrue (is_number lo) }
    requires hi { IsTrue (is_number hi) }
    requires full { IsFalse (has_empty remains.old.store.box) }
    ensures content { OnOk result (remains.new.store.box ≡ box_without remains.old.store.box x.0 lo hi) }
    ensures some { IfOk result (λ some. some ≡ not (has_empty remains.new.store.box)) }
    ensures here { IfOk result (λ some. IsTrue some → (g : Game) → IsEntered g 0 remains.old → IsEntered g 0 remains.new) }
    ensures game { remains.new.game ≡ remains.old.game }
{
    remains.known();
    match remains.bound(Sense::Min, x, lo, hi, scratch)? {
        None => Ok(true),
        Some(gone) => Ok(!gone.is_empty),
    }
}

fn answer_beside(root: Root, reached: Option<i64>, turns: u64) -> Flat
    ensures outcome { (v : List ℤ) → result.outcome ≡ outcome_beside reached root.own (verdict_of root.found v) turns }
    ensures optimum { result.optimum ≡ optimum_beside reached root.own }
    ensures lines { result.arena ≡ root.arena }
{
    if is_no_better(reached, root.own) {
        return Flat {
            outcome: Outcome::False,
            optimum: None,
            arena: root.arena,
        };
    }
    answer(root, turns)
}

/// Whether the best value is the one that was reached.
fn is_no_better(reached: Option<i64>, own: Option<i64>) -> bool
    ensures { result ≡ is_no_better_by reached own }
{
    let Some(reached) = reached else {
        return false;
    };
    let Some(own) = own else {
        return false;
    };
    reached == own
}
