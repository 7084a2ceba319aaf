//! Whether all constraints of some scopes are kept.
ghost use Rattle.std.specs.Prelude.{◌≡◌, ◌≤◌, ℕ, suc, length};
ghost use Rattle.model_levels.specs.Spans.{IsSpanOf};
ghost use Rattle.lemma_list.specs.Reasons.{goes_on as goes_on_in, goal_shows as goal_shows_in};
ghost use Rattle.lemma_reasons.specs.Asked.{IsFullBox};
ghost use Rattle.lemma_reasons.specs.Within.{kept_within, is_passed};

use crate::aim::Aim;
use crate::kept::is_kept;
use crate::places::{is_kind, opponent_of, side_at};
use fd_store::Store;
use model_arguments::Span;
use model_levels::Levels;
use qc_model::{ConId, Kind, ScopeId};

// Whether all constraints in a row are kept.
fn are_kept(aim: &Aim, span: Span, store: &Store) -> bool
    requires within { span.end ≤ length aim.now.problem.now.constraints }
    requires left { IsFullBox aim.now.problem.now store.now.box }
    ensures { (i stop : ℕ) → IsSpanOf aim.now.problem.now i stop span.first span.end → result ≡ kept_within aim.now.problem.now aim.now.lemma.now i stop store.now.box }
{
    aim.problem.known();
    for k in span.first..span.end {
        if !is_kept(aim, ConId(k as u16), store) {
            return false;
        }
    }
    true
}

// Whether the constraints of scope j, where there is one, or of the goal are kept.
fn scope_kept(aim: &Aim, levels: &Levels, j: usize, store: &Store) -> bool
    requires levels { levels.now.problem.now ≡ aim.now.problem.now }
    requires scope { j ≤ length aim.now.problem.now.scopes }
    requires left { IsFullBox aim.now.problem.now store.now.box }
    ensures { result ≡ kept_within aim.now.problem.now aim.now.lemma.now j (suc j) store.now.box }
{
    aim.problem.known();
    let scope = ScopeId(j as u8);
    are_kept(aim, levels.constraints_between(scope, scope), store)
}

// Whether scope j isn't the winner's, or its constraints are kept.
fn passes(aim: &Aim, levels: &Levels, j: usize, store: &Store) -> bool
    requires levels { levels.now.problem.now ≡ aim.now.problem.now }
    requires scope { j ≤ length aim.now.problem.now.scopes }
    requires left { IsFullBox aim.now.problem.now store.now.box }
    ensures { result ≡ is_passed aim.now.problem.now aim.now.lemma.now j store.now.box }
{
    let winner = opponent_of(aim.lemma.loser());
    !is_kind(winner, side_at(aim.problem, j)) || scope_kept(aim, levels, j, store)
}

/// Whether play goes on: the winner's restrictions from one scope to the one before another are kept. Only their
/// constraints are looked at.
pub fn goes_on(aim: &Aim, levels: &Levels, from: usize, stop: usize, store: &Store) -> bool
    requires levels { levels.now.problem.now ≡ aim.now.problem.now }
    requires stop { stop ≤ length aim.now.problem.now.scopes }
    requires left { IsFullBox aim.now.problem.now store.now.box }
    ensures { result ≡ goes_on_in aim.now.problem.now aim.now.lemma.now from stop store.now.box }
{
    for j in from..stop {
        if !passes(aim, levels, j, store) {
            return false;
        }
    }
    true
}

/// Whether the goal is kept, and play goes on to it: the opponent loses.
pub fn goal_shows(aim: &Aim, levels: &Levels, passed: usize, store: &Store) -> bool
    requires levels { levels.now.problem.now ≡ aim.now.problem.now }
    requires left { IsFullBox aim.now.problem.now store.now.box }
    ensures { result ≡ goal_shows_in aim.now.problem.now aim.now.lemma.now passed store.now.box }
{
    aim.problem.known();
    if !is_kind(aim.lemma.loser(), Kind::Forall) {
        return false;
    }
    let goal = aim.problem.scopes();
    if !goes_on(aim, levels, passed, goal, store) {
        return false;
    }
    scope_kept(aim, levels, goal, store)
}
