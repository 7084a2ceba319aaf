//! Where the search stands.
ghost use Rattle.std.specs.Prelude.{◌<◌, IfOk};

use crate::stop::Stop;
use qc_model::{ScopeId, Sense, VarId};

/// How deep the search goes at most: in each scope it goes through five calls, and four for each of its variables.
pub const DEPTH: u32 = 4_096;

/// What the scope above has reached, so that nothing that is no better counts: a first value, and whether an equal one is no
/// better, since nothing else is asked for.
#[derive(Clone, Copy)]
pub struct Rival {
    pub sense: Sense,
    pub value: i64,
    pub ties: bool,
}

/// A scope, what the one above has reached, whether a bound of the block stands above, the number of the horizon in force, and a variable
/// before which those of the scope have one value each.
#[derive(Clone, Copy)]
pub struct Place {
    pub scope: ScopeId,
    pub rival: Option<Rival>,
    pub bounded: bool,
    pub horizon: Option<u8>,
    pub open_from: VarId,
}

impl Place {
    /// Whether nobody passes the scope that begins here.
    pub fn is_at_horizon(self) -> bool {
        self.horizon == Some(self.scope.0)
    }
}

impl Rival {
    /// Whether a first value is no use beside it.
    pub fn beats(self, value: i64) -> bool {
        if value == self.value {
            return self.ties;
        }
        !is_better(self.sense, value, self.value)
    }
}

/// Whether one value is better than another.
pub fn is_better(sense: Sense, one: i64, other: i64) -> bool {
    match sense {
        Sense::Min => one < other,
        Sense::Max => one > other,
    }
}

/// The scope after this one, or the goal.
pub fn after(scope: ScopeId) -> ScopeId {
    ScopeId(scope.0.saturating_add(1))
}

/// One level less of those that may still be gone down.
pub fn one_less(depth: u32) -> Result<u32, Stop>
    ensures { IfOk result (λ less. less < depth) }
{
    if depth == 0 {
        return Err(Stop::Spent);
    }
    Ok(depth - 1)
}
