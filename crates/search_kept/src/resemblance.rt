//! Whether a node looks like one that was settled before (`likeness`): its position does, and each later variable has all
//! its declared values left.
ghost use Rattle.std.specs.Prelude.{◌≡◌, ◌≤◌, ◌<◌, ℕ, length, IsTrue};
ghost use Rattle.std.specs.List.{list_all};
ghost use Rattle.qc_model.specs.Domains.{declared_box, values_left};
ghost use Rattle.qc_model.specs.Game.{before};
ghost use Rattle.likeness.specs.Likeness.{IsLike, line_looks};
ghost use Rattle.proof_tree.specs.Place.{position};
ghost use Rattle.search_box.specs.Entered.{IsEntered};

use likeness::Likeness;
use model_levels::Level;
use qc_model::ScopeId;
use search_box::SearchBox;
use strategy_arena::{Arena, LineCursor};

/// Whether each variable from the scope's first on has all its declared values left.
pub(crate) fn is_fresh(level: &Level, remains: &SearchBox) -> bool
    requires here { IsEntered level.now.problem.now level.now.number remains.now }
    ensures { IsTrue result → (x : ℕ) → before level.now.problem.now level.now.number ≤ x → x < length remains.now.store.box → values_left remains.now.store.box x ≡ values_left (declared_box level.now.problem.now) x }
{
    remains.is_fresh(level)
}

/// Whether the scope's node, whose position is here, is like the values of this position.
fn is_like_itself(level: &Level, remains: &SearchBox) -> bool
    requires here { IsEntered level.now.problem.now level.now.number remains.now }
    ensures { IsTrue result → IsLike level.now.problem.now level.now.number (position level.now.problem.now level.now.number remains.now.store.box) remains.now.store.box }
{
    remains.known();
    is_fresh(level, remains)
}

/// A number of the scope's position, which is here, below this horizon. None comes where the scope has no number.
pub(crate) fn position_number(
    likeness: &Likeness,
    level: &Level,
    horizon: Option<ScopeId>,
    remains: &SearchBox,
) -> Option<u64>
    requires here { IsEntered level.now.problem.now level.now.number remains.now }
{
    likeness.number(level, number_of(horizon), remains.values_before(level))
}

fn number_of(horizon: Option<ScopeId>) -> Option<u8> {
    match horizon {
        None => None,
        Some(scope) => Some(scope.0),
    }
}

/// Whether the scope's node, whose position is here, is like these values.
pub(crate) fn is_like(
    likeness: &Likeness,
    level: &Level,
    remains: &SearchBox,
    values: &[i64],
) -> bool
    requires game { level.now.problem.now ≡ likeness.now }
    requires here { IsEntered level.now.problem.now level.now.number remains.now }
    ensures { IsTrue result → IsLike level.now.problem.now level.now.number values.now remains.now.store.box }
{
    let here = remains.values_before(level);
    is_like_itself(level, remains) && likeness.is_like(level, values, here)
}

/// Whether these lines, those of the scope's node whose position is here, stand wherever the position looks the same.
pub(crate) fn stand_alike(
    likeness: &Likeness,
    level: &Level,
    remains: &SearchBox,
    lines: &Arena,
) -> bool
    requires game { level.now.problem.now ≡ likeness.now }
    requires here { IsEntered level.now.problem.now level.now.number remains.now }
    ensures like { IsTrue result → IsLike level.now.problem.now level.now.number (position level.now.problem.now level.now.number remains.now.store.box) remains.now.store.box }
    ensures looks { IsTrue result → IsTrue (list_all (line_looks level.now.problem.now level.now.number) lines.now) }
{
    is_like_itself(level, remains) && are_looking(likeness, level, &mut lines.cursor())
}

/// Whether each of the lines that removes values removes those of a variable that is looked at from the scope on.
fn are_looking(likeness: &Likeness, level: &Level, lines: &mut LineCursor<'_>) -> bool
    requires game { level.now.problem.now ≡ likeness.now }
    ensures { result ≡ list_all (line_looks level.now.problem.now level.now.number) lines.old }
{
    while let Some(line) = lines.next() {
        if !likeness.is_line_looking(level, line) {
            return false;
        }
    }
    true
}
