//! Where a search is.
ghost use Rattle.std.specs.Prelude.{◌≡◌, ◌≤◌, false, length, IfSome};
ghost use Rattle.std.proofs.Props.{props};
ghost use Rattle.proof_tree.specs.InPlace.{is_horizon};
ghost use Rattle.search_box.specs.Looking.{scope_number};
ghost use Rattle.search_walk.specs.Aims.{IsAimed};
ghost use Rattle.search_walk.specs.Props.{aimed_prop, rival_prop};
ghost use Rattle.search_walk.specs.Rivals.{IsRival};

use crate::aim::Aim;
use crate::rival::Rival;
use model_levels::{Level, Levels};
use qc_model::ScopeId;

/// A node's scope, beside all scopes of the problem, and the horizon in force below it, which isn't the scope itself. With
/// `cuts` the case that settles a scope stands without those before it.
#[derive(Clone, Copy)]
pub struct Stage<'a, 'p> {
    pub levels: &'a Levels<'p>,
    pub level: &'a Level<'p>,
    pub horizon: Option<ScopeId>,
    pub cuts: bool,
    /// The number of the node's position, where it may be met again.
    pub position: Option<u64>,
    /// What the scope's own tree is bounded by.
    pub aim: Option<Aim>,
    /// What it has to keep up with.
    pub rival: Option<Rival>,
    ghost same: { level.now.problem.now ≡ levels.now.problem.now },
    ghost within: { IfSome horizon (λ h. h.0 ≤ length levels.now.problem.now.scopes) } by { Prim.hlevel props },
    ghost ahead: { is_horizon (scope_number horizon) level.now.number ≡ false },
    ghost aimed: { IsAimed level.now.problem.now level.now.number aim } by { aimed_prop level.now.problem.now level.now.number aim },
    ghost rivalled: { IsRival level.now.problem.now level.now.number rival } by { rival_prop level.now.problem.now level.now.number rival },
}
