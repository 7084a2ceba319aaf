//! Aggregates by their numbers and by their scopes, and where the block of a scope ends.
ghost use Rattle.std.specs.Prelude.{◌≡◌, ◌↔◌, ◌<◌, ◌≤◌, ℕ, length, slice_get, IsTrue};
ghost use Rattle.qc_model.specs.BlockEnd.{is_existential, block_end_of, exists_run};
ghost use Rattle.qc_model.specs.Game.{aggregate_numbers};
ghost use Rattle.qc_model.specs.Sees.{stands_in};

use crate::order::aggregates_below;
use crate::problem::{AggId, Aggregate, Kind, Scope, ScopeId};
use crate::valid_problem::Problem;

/// How many of the scopes come before the first universal one.
fn count_existential(scopes: &[Scope]) -> usize
    ensures count { result ≡ exists_run scopes.now }
    ensures bound { result ≤ length scopes.now }
{
    let mut count = 0;
    for scope in scopes {
        match scope.kind {
            Kind::Exists => count += 1,
            Kind::Forall => return count,
        }
    }
    count
}

impl Problem {
    /// The aggregate with this number.
    pub fn aggregate(&self, g: AggId) -> &Aggregate
        requires { g.0 < length self.now.aggregates }
        ensures { slice_get self.now.aggregates g.0 ≡ Some result.now }
    {
        &self.all_aggregates()[g.0 as usize]
    }

    /// The number of the first aggregate of a scope, and the one after its last: those between are the
    /// scope's own. They are equal where it has none.
    pub fn aggregates_of(&self, i: ScopeId) -> (u8, u8)
        ensures numbers { result ≡ aggregate_numbers self.now i.0 }
        ensures own { (q : ℕ) → IsTrue (stands_in i.0 (slice_get self.now.aggregates q)) ↔ ((result.0 ≤ q) × (q < result.1)) }
    {
        self.known();
        let all = self.all_aggregates();
        let first = aggregates_below(all, i.0 as usize);
        let end = aggregates_below(all, i.0 as usize + 1);
        (first as u8, end as u8)
    }

    /// The last scope of the block of an existential scope: the one before the next universal scope,
    /// or before the goal.
    pub fn block_end(&self, i: ScopeId) -> ScopeId
        requires { IsTrue (is_existential (slice_get self.now.scopes i.0)) }
        ensures { result.0 ≡ block_end_of self.now i.0 }
    {
        self.known();
        let (_earlier, later) = self.all_scopes().split_at(i.0 as usize + 1);
        ScopeId(i.0 + count_existential(later) as u8)
    }
}
