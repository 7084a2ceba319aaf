//! The lines of a certificate within a budget of turns.
ghost use Rattle.std.specs.Prelude.{◌≡◌, ◌≤◌, ◌<◌, [], IfErr, IfOk, IfSome, IsFalse, false, true, None, List, ℤ, length};
ghost use Rattle.qc_model.specs.Domains.{declared_box};
ghost use Rattle.qc_model.specs.Verdict.{Seen};
ghost use Rattle.joins.specs.Seen.{verdict_of};
ghost use Rattle.joins.specs.Joins.{game_of, StandsAt};
ghost use Rattle.joins.specs.Verdicts.{own_at};
ghost use Rattle.search_parts.specs.Settled.{beats_none, is_vague_verdict};
ghost use Rattle.game_search.specs.Solution.{SolutionLines, outcome_by};
ghost use Rattle.search_box.specs.Entered.{IsEntered};
ghost use Rattle.game_search.specs.Attempted.{Attempted};
ghost use Rattle.search_walk.specs.Stops.{MayStop};

use joins::{Found, Joins};
use model_levels::Levels;
use proof_meaning::outcomes_are_true;
use proof_tree::{Outcome, StepList, cases_are_few};
use qc_model::{Problem, ScopeId};
use search_advice::Advice;
use search_box::SearchBox;
use search_kept::{AsideNodes, KnownNodes, is_decided};
use search_walk::{Stop, Walk, node};
use std::alloc::{AllocError, Global};
use std::mem::replace;
use strategy_arena::{Arena, lines_fit};

/// The outcome, the best value of the first scope where it optimises and the game is won, and the lines that show it.
#[derive(Drop)]
pub struct Flat {
    pub outcome: Outcome,
    pub optimum: Option<i64>,
    pub arena: Arena,
}

/// Decides a game within so many turns, from 1 to 10,000,000: the lines are those of a certificate that proves the
/// outcome and the optimum, is in order and diligent, keeps its incumbents, means what it says and has a text. The outcome is Open only where all turns are
/// spent and the game can take more. It fails only where memory runs out.
pub fn solve_flat(alloc: Global, problem: &Problem, turns: u64) -> Result<Flat, AllocError>
    requires some { 1 ≤ turns }
    requires turns { turns ≤ 10000000 }
    ensures solution { IfOk result (λ f. SolutionLines problem.now turns f.outcome f.optimum f.arena) }
{
    let levels = Levels::new(alloc, problem)?;
    two_passes(alloc, &levels, turns)
}

/// Goes through the game with cuts, and without them where that comes to nothing.
fn two_passes(alloc: Global, levels: &Levels, turns: u64) -> Result<Flat, AllocError>
    requires some { 1 ≤ turns }
    requires turns { turns ≤ 10000000 }
    ensures solution { IfOk result (λ f. SolutionLines levels.now.problem.now turns f.outcome f.optimum f.arena) }
{
    levels.problem.known();
    cases_are_few();
    outcomes_are_true();
    lines_fit();
    if let Some(first) = first_pass(alloc, levels, turns)? {
        return Ok(answer(first, turns));
    }
    let second = second_pass(alloc, levels, turns)?;
    Ok(answer(second, turns))
}

/// Goes through the game with cuts: what that came to, where it is decided.
fn first_pass(alloc: Global, levels: &Levels, turns: u64) -> Result<Option<Root>, AllocError>
    requires { turns ≤ 10000000 }
    ensures attempted { IfOk result (λ first. IfSome first (λ root. Attempted true levels.now.problem.now turns root.found root.own root.arena)) }
    ensures decided { IfOk result (λ first. IfSome first (λ root. (v : List ℤ) → IsFalse (is_vague_verdict beats_none (verdict_of root.found v)))) }
{
    match attempt(alloc, levels, turns, true) {
        Ok(root) => Ok(decided(root)),
        Err(Stop::Turns) => Ok(None),
        Err(Stop::Memory(refused)) => Err(refused),
    }
}

pub(crate) fn decided(root: Root) -> Option<Root>
    ensures same { IfSome result (λ r. r ≡ root) }
    ensures decided { IfSome result (λ r. (v : List ℤ) → IsFalse (is_vague_verdict beats_none (verdict_of r.found v))) }
{
    if is_decided(root.found) {
        Some(root)
    } else {
        None
    }
}

/// Goes through the game without cuts. No case goes first there, so that it never ends for want of turns: what ends it is memory.
fn second_pass(alloc: Global, levels: &Levels, turns: u64) -> Result<Root, AllocError>
    requires { turns ≤ 10000000 }
    ensures { IfOk result (λ root. Attempted false levels.now.problem.now turns root.found root.own root.arena) }
{
    match attempt(alloc, levels, turns, false) {
        Ok(root) => Ok(root),
        Err(Stop::Turns) => unreachable!(),
        Err(Stop::Memory(refused)) => Err(refused),
    }
}

/// What one way through the game came to, the best value of the first scope where that is exact and the scope
/// optimises, and the lines.
#[derive(Drop)]
pub(crate) struct Root {
    pub(crate) found: Found,
    pub(crate) own: Option<i64>,
    pub(crate) arena: Arena,
}

pub(crate) fn answer(root: Root, turns: u64) -> Flat
    ensures outcome { (v : List ℤ) → result.outcome ≡ outcome_by (verdict_of root.found v) turns }
    ensures optimum { result.optimum ≡ root.own }
    ensures lines { result.arena ≡ root.arena }
{
    Flat {
        outcome: outcome_of(root.found, turns),
        optimum: root.own,
        arena: root.arena,
    }
}

/// Goes through the game within so many turns. With `cuts` settled nodes keep the case that settled them alone,
/// so that the turns of the lines may be fewer than those that were done. It ends for want of turns only with `cuts`.
pub(crate) fn attempt(alloc: Global, levels: &Levels, turns: u64, cuts: bool) -> Result<Root, Stop>
    requires { turns ≤ 10000000 }
    ensures attempted { IfOk result (λ root. Attempted cuts levels.now.problem.now turns root.found root.own root.arena) }
    ensures stops { IfErr result (MayStop cuts) }
{
    // (what owns so much costs the proof minutes by a `?`, or let go without a word)
    match begin(alloc, levels, turns, cuts) {
        Ok(mut walk) => {
            let root = go_through(levels, cuts, &mut walk);
            drop(walk);
            root
        }
        Err(refused) => Err(Stop::Memory(refused)),
    }
}

/// Goes through the game by a walk that hasn't gone anywhere, and takes its lines.
fn go_through(levels: &Levels, cuts: bool, walk: &mut Walk) -> Result<Root, Stop>
    requires declared { walk.old.remains.store.box ≡ declared_box levels.now.problem.now }
    requires here { IsEntered levels.now.problem.now 0 walk.old.remains }
    requires joins { game_of walk.old.joins ≡ levels.now.problem.now }
    requires lines { walk.old.lines ≡ [] }
    requires turns { walk.old.left ≤ 10000000 }
    ensures attempted { IfOk result (λ root. Attempted cuts levels.now.problem.now walk.old.left root.found root.own root.arena) }
    ensures stops { IfErr result (MayStop cuts) }
{
    let found = node(levels, cuts, None, 0, walk)?;
    let own = first_own(levels.problem, &walk.joins);
    let arena = replace(&mut walk.lines, Arena::new(walk.alloc));
    Ok(Root { found, own, arena })
}

/// A walk that hasn't gone anywhere: each variable has its declared values, no line is written, and all turns are left. It fails
/// only where memory runs out.
pub(crate) fn begin<'p>(
    alloc: Global,
    levels: &Levels<'p>,
    turns: u64,
    cuts: bool,
) -> Result<Walk<'p>, AllocError>
    ensures declared { IfOk result (λ walk. walk.remains.store.box ≡ declared_box levels.now.problem.now) }
    ensures here { IfOk result (λ walk. IsEntered levels.now.problem.now 0 walk.remains) }
    ensures joins { IfOk result (λ walk. game_of walk.joins ≡ levels.now.problem.now) }
    ensures lines { IfOk result (λ walk. walk.lines ≡ []) }
    ensures left { IfOk result (λ walk. walk.left ≡ turns) }
{
    // those that have most to let go where a later one fails come last
    let joins = Joins::new(alloc, levels.problem)?;
    let known = KnownNodes::new(alloc, levels, cuts)?;
    let remains = SearchBox::new(alloc, levels.problem)?;
    let Ok(advice) = Advice::new(alloc, levels, cuts) else {
        drop(remains);
        return Err(AllocError);
    };
    Ok(Walk {
        alloc,
        remains,
        joins,
        lines: Arena::new(alloc),
        steps: StepList::new(alloc),
        needed: Vec::new(alloc),
        left: turns,
        advice,
        known,
        aside: AsideNodes::new(alloc, levels.problem),
    })
}

/// The value of the first scope's own condition, by its join; None where there is no scope.
pub(crate) fn first_own(problem: &Problem, joins: &Joins) -> Option<i64>
    requires { game_of joins.now ≡ problem.now }
    ensures own { 0 < length problem.now.scopes → (xs : List Seen) → StandsAt joins.now 0 xs → result ≡ own_at problem.now 0 xs }
    ensures none { length problem.now.scopes ≡ 0 → result ≡ None }
{
    if problem.scopes() == 0 {
        return None;
    }
    joins.own(ScopeId(0))
}

fn outcome_of(found: Found, turns: u64) -> Outcome
    ensures { (v : List ℤ) → result ≡ outcome_by (verdict_of found v) turns }
{
    match found {
        Found::Lost => Outcome::False,
        Found::Exact => Outcome::True,
        Found::AtMost(_) => Outcome::Open(turns),
        Found::Unknown => Outcome::Open(turns),
    }
}
