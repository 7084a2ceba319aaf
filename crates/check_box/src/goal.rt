//! Whether the goal holds.
ghost use Rattle.std.specs.Prelude.{◌≡◌, true, length};
ghost use Rattle.std.specs.List.{list_all};
ghost use Rattle.qc_model.specs.Game.{allows};
ghost use Rattle.qc_model.specs.Valid.{is_number};

use model_levels::{Levels, all_hold};

/// Whether the goal holds on these values, one for each variable.
pub fn goal_holds(levels: &Levels, values: &[i64]) -> bool
    requires numbers { list_all is_number values.now ≡ true }
    ensures { result ≡ allows levels.now.problem.now (length levels.now.problem.now.scopes) values.now }
{
    levels.problem.known();
    all_hold(levels.problem, levels.goal_rules, values)
}
