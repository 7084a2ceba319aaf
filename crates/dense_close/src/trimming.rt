//! Ends of a sum's variables, taken at once.
//!
//! The room of a sum tells how far each of its variables can go. So the values that one constraint takes of all its variables go by one
//! reading. It's for sums that are to be a number: of one that is to be at most a number more is known (`bounding`).
ghost use Rattle.std.specs.Prelude.{◌≢◌, ◌≡◌, ◌<◌, pos, length, slice_get, Some, IsTrue, IsFalse};
ghost use Rattle.qc_model.specs.Content.{Rule};
ghost use Rattle.qc_model.specs.Domains.{has_empty};
ghost use Rattle.model_arguments.specs.Asked.{is_box_of};
ghost use Rattle.fd_store.specs.Held.{Follows};
ghost use Rattle.dense_close.specs.Cutting.{IsCut, HasCut};
ghost use Rattle.dense_quiet.specs.Slack.{RoomTells, IsTermOf, IsLong};

use crate::cutting::{End, cut_stretch};
use check_box::Remains;
use dense_quiet::{Room, is_free, past_greatest, past_least};
use qc_model::{ConId, Problem, VarId};

/// Takes the values of x that the constraint c, a sum with this room, refutes at both of its ends. Whether some went.
pub(crate) fn cut_by_room(
    problem: &Problem,
    c: ConId,
    x: VarId,
    factor: i64,
    room: Room,
    remains: &mut Remains,
) -> bool
    requires c { c.0 < length problem.now.constraints }
    requires declared { IsTrue (is_box_of problem.now remains.old.box) }
    requires full { IsFalse (has_empty remains.old.box) }
    requires x { x.0 < length remains.old.box }
    requires some { factor ≢ pos 0 }
    requires room { IsLong room }
    requires tells { (rule : Rule) → slice_get problem.now.constraints c.0 ≡ Some rule → RoomTells rule room remains.old.box }
    requires place { (rule : Rule) → slice_get problem.now.constraints c.0 ≡ Some rule → IsTermOf rule factor x }
    ensures cut { IsCut problem.now c.0 x.0 remains.old.box remains.new.box }
    ensures past { Follows remains.old remains.new }
    ensures gone { HasCut result remains.old.box remains.new.box }
{
    problem.known();
    let least = remains.store().min(x);
    let greatest = remains.store().max(x);
    if is_free(factor, room, least, greatest) {
        return false;
    }
    let below = past_greatest(factor, room, least, greatest);
    let above = past_least(factor, room, least, greatest);
    let from_below = cut_stretch(problem, c, x, End::Least, below, remains);
    if remains.is_empty() {
        return from_below;
    }
    let from_above = cut_stretch(problem, c, x, End::Greatest, above, remains);
    from_below || from_above
}
