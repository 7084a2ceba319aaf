//! What a problem says of one scope.
ghost use Rattle.std.specs.Prelude.{◌≡◌, ◌<◌, ◌≤◌, suc, is_some, length, drop, slice_get, Some};
ghost use Rattle.std.specs.Option.{option_map};
ghost use Rattle.qc_model.specs.Block.{force_stop};
ghost use Rattle.qc_model.specs.BlockEnd.{block_end_of};
ghost use Rattle.qc_model.specs.Game.{before, restriction};
ghost use Rattle.model_levels.specs.Spans.{IsSpanOf, kind_at};

use model_arguments::Span;
use qc_model::{Constraint, Kind, Problem};

/// One scope of a problem: who owns it, its restriction, and where its variables and constraints begin
/// and end. The constraints in force are those of its block from this scope on, and of the goal where
/// the block reaches it; at a universal scope those of its own restriction.
#[derive(Clone, Copy)]
pub struct Level<'p> {
    pub problem: &'p Problem,
    pub rules: &'p [Constraint],
    pub number: u8,
    pub kind: Kind,
    /// Its first variable, and the one after its last.
    pub from: usize,
    pub stop: usize,
    pub constraints: Span,
    pub in_force: Span,
    /// The last scope of its block.
    pub block_end: usize,
    pub has_condition: bool,
    pub ghost is_scope: { number < length problem.now.scopes },
    pub ghost has_kind: { kind_at problem.now number ≡ Some kind },
    pub ghost has_rules: { rules.now ≡ restriction problem.now number },
    pub ghost has_from: { from ≡ before problem.now number },
    pub ghost has_stop: { stop ≡ before problem.now (suc number) },
    pub ghost rises: { from ≤ stop },
    pub ghost stop_within: { stop ≤ length problem.now.variables },
    pub ghost has_constraints: { IsSpanOf problem.now number (suc number) constraints.first constraints.end },
    pub ghost has_force: { IsSpanOf problem.now number (force_stop (drop number problem.now.scopes) number) in_force.first in_force.end },
    pub ghost has_end: { block_end ≡ block_end_of problem.now number },
    pub ghost has_own: { option_map (λ s. is_some s.condition) (slice_get problem.now.scopes number) ≡ Some has_condition },
}
