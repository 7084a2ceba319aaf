//! Whether a tuple of a scope is allowed whatever was chosen before.
ghost use Rattle.std.specs.Prelude.{◌≡◌, ◌<◌, length};
ghost use Rattle.qc_model.specs.Domains.{declared_box};
ghost use Rattle.dense_tree.specs.Free.{is_always_allowed as is_always_allowed_in};

use crate::constraints::is_entailed_throughout;
use crate::taking::take_tuple;
use crate::tuples::is_tuple;
use check_box::Remains;
use model_levels::Levels;
use qc_model::ScopeId;

/// Whether the values are a tuple of scope i with which its restriction holds throughout the declared domains. These are
/// the box, which is left as it was.
pub(crate) fn is_always_allowed(
    levels: &Levels,
    i: ScopeId,
    remains: &mut Remains,
    values: &[i64],
) -> bool
    requires scope { i.0 < length levels.now.problem.now.scopes }
    requires declared { remains.old.box ≡ declared_box levels.now.problem.now }
    ensures allowed { result ≡ is_always_allowed_in levels.now.problem.now i.0 values.now }
    ensures content { remains.new.box ≡ remains.old.box }
    ensures past { remains.new.past ≡ remains.old.past }
{
    levels.problem.known();
    let level = levels.level(i);
    if !is_tuple(level, remains.store(), values) {
        return false;
    }
    let mark = remains.mark();
    take_tuple(level, remains, values);
    let holds = is_entailed_throughout(levels, i, remains.store());
    remains.undo_to(mark);
    holds
}
