//! The ends that go by what was seen of a constraint.
//!
//! One reading tells how far each of a constraint's variables can go. For sums that is so by a law (`trimming`); of others it's a
//! guess, where there is one. Where the guess is sure, as of an array of numbers, of the sum of two numbers, or of numbers that other
//! items fill, the values past it go by a law too; else they go where the constraint refutes them together, which it is asked once. So
//! few ends are sought step by step.
ghost use Rattle.std.specs.Prelude.{◌≡◌, ◌≢◌, ◌<◌, pos, length, slice_get, Some, IsTrue, IsFalse};
ghost use Rattle.qc_model.specs.Content.{Rule};
ghost use Rattle.qc_model.specs.Domains.{has_empty};
ghost use Rattle.model_arguments.specs.Asked.{is_box_of};
ghost use Rattle.fd_store.specs.Held.{Follows};
ghost use Rattle.dense_quiet.specs.Advice.{AdviceTells};
ghost use Rattle.dense_close.specs.Cutting.{IsBarred, IsCut, IsSureOf, HasCut};
ghost use Rattle.dense_quiet.specs.Slack.{RoomTells, IsLong};

use crate::cutting::{End, cut_refuted, cut_stretch};
use crate::trimming::cut_by_room;
use check_box::Remains;
use dense_quiet::{Advice, Kept, Room, Stretch, factor_at, kept_beside, kept_by_ends};
use qc_model::{ConId, Problem, VarId};

// Takes these values at an end of x, where the constraint c refutes them together: that is asked where it isn't sure. Whether some went.
fn cut_part(
    problem: &Problem,
    c: ConId,
    x: VarId,
    end: End,
    s: Stretch,
    sure: bool,
    remains: &mut Remains,
) -> bool
    requires c { c.0 < length problem.now.constraints }
    requires declared { IsTrue (is_box_of problem.now remains.old.box) }
    requires full { IsFalse (has_empty remains.old.box) }
    requires x { x.0 < length remains.old.box }
    requires told { IsTrue sure → IsBarred problem.now c.0 x.0 remains.old.box s.low s.high }
    ensures cut { IsCut problem.now c.0 x.0 remains.old.box remains.new.box }
    ensures past { Follows remains.old remains.new }
    ensures gone { HasCut result remains.old.box remains.new.box }
{
    if sure {
        return cut_stretch(problem, c, x, end, s, remains);
    }
    cut_refuted(problem, c, x, end, s, remains)
}

// Takes the values of x below those that the constraint c leaves it. Whether some went.
fn cut_below(problem: &Problem, c: ConId, x: VarId, kept: Kept, remains: &mut Remains) -> bool
    requires c { c.0 < length problem.now.constraints }
    requires declared { IsTrue (is_box_of problem.now remains.old.box) }
    requires full { IsFalse (has_empty remains.old.box) }
    requires x { x.0 < length remains.old.box }
    requires told { IsSureOf kept problem.now c.0 x.0 remains.old.box }
    ensures cut { IsCut problem.now c.0 x.0 remains.old.box remains.new.box }
    ensures past { Follows remains.old remains.new }
    ensures gone { HasCut result remains.old.box remains.new.box }
{
    let least = remains.store().min(x);
    if least < kept.stretch.low {
        let below = Stretch {
            low: least,
            high: kept.stretch.low - 1,
        };
        return cut_part(problem, c, x, End::Least, below, kept.sure, remains);
    }
    false
}

// The same of those above them.
fn cut_above(problem: &Problem, c: ConId, x: VarId, kept: Kept, remains: &mut Remains) -> bool
    requires c { c.0 < length problem.now.constraints }
    requires declared { IsTrue (is_box_of problem.now remains.old.box) }
    requires full { IsFalse (has_empty remains.old.box) }
    requires x { x.0 < length remains.old.box }
    requires told { IsSureOf kept problem.now c.0 x.0 remains.old.box }
    ensures cut { IsCut problem.now c.0 x.0 remains.old.box remains.new.box }
    ensures past { Follows remains.old remains.new }
    ensures gone { HasCut result remains.old.box remains.new.box }
{
    let greatest = remains.store().max(x);
    if kept.stretch.high < greatest {
        let above = Stretch {
            low: kept.stretch.high + 1,
            high: greatest,
        };
        return cut_part(problem, c, x, End::Greatest, above, kept.sure, remains);
    }
    false
}

// Those on both sides.
fn cut_outside(problem: &Problem, c: ConId, x: VarId, kept: Kept, remains: &mut Remains) -> bool
    requires c { c.0 < length problem.now.constraints }
    requires declared { IsTrue (is_box_of problem.now remains.old.box) }
    requires full { IsFalse (has_empty remains.old.box) }
    requires x { x.0 < length remains.old.box }
    requires told { IsSureOf kept problem.now c.0 x.0 remains.old.box }
    ensures cut { IsCut problem.now c.0 x.0 remains.old.box remains.new.box }
    ensures past { Follows remains.old remains.new }
    ensures gone { HasCut result remains.old.box remains.new.box }
{
    let low = cut_below(problem, c, x, kept, remains);
    if remains.is_empty() {
        return low;
    }
    let high = cut_above(problem, c, x, kept, remains);
    low || high
}

// Takes the values of x, the variable at this place of the constraint c, that a sum with this room refutes. Whether some went.
fn cut_term(
    problem: &Problem,
    c: ConId,
    place: usize,
    x: VarId,
    room: Room,
    remains: &mut Remains,
) -> bool
    requires c { c.0 < length problem.now.constraints }
    requires declared { IsTrue (is_box_of problem.now remains.old.box) }
    requires full { IsFalse (has_empty remains.old.box) }
    requires x { x.0 < length remains.old.box }
    requires room { IsLong room }
    requires tells { (rule : Rule) → slice_get problem.now.constraints c.0 ≡ Some rule → RoomTells rule room remains.old.box }
    ensures cut { IsCut problem.now c.0 x.0 remains.old.box remains.new.box }
    ensures past { Follows remains.old remains.new }
    ensures gone { HasCut result remains.old.box remains.new.box }
{
    problem.known();
    let factor = factor_at(problem.constraint(c), place, x);
    if factor == 0 {
        return false;
    }
    cut_by_room(problem, c, x, factor, room, remains)
}

// Takes the values of x among numbers that other items of the constraint c fill. Whether some went.
fn cut_beside(problem: &Problem, c: ConId, x: VarId, filled: Stretch, remains: &mut Remains) -> bool
    requires c { c.0 < length problem.now.constraints }
    requires declared { IsTrue (is_box_of problem.now remains.old.box) }
    requires full { IsFalse (has_empty remains.old.box) }
    requires x { x.0 < length remains.old.box }
    ensures cut { IsCut problem.now c.0 x.0 remains.old.box remains.new.box }
    ensures past { Follows remains.old remains.new }
    ensures gone { HasCut result remains.old.box remains.new.box }
{
    problem.known();
    let rule = problem.constraint(c);
    let kept = kept_beside(problem, rule, filled, x, remains.store());
    cut_outside(problem, c, x, kept, remains)
}

/// Takes the values of x, the variable at this place of the constraint c, that it refutes by what was seen of it. Whether some went.
pub(crate) fn cut_advised(
    problem: &Problem,
    c: ConId,
    place: usize,
    x: VarId,
    advice: Advice,
    remains: &mut Remains,
) -> bool
    requires c { c.0 < length problem.now.constraints }
    requires declared { IsTrue (is_box_of problem.now remains.old.box) }
    requires full { IsFalse (has_empty remains.old.box) }
    requires x { x.0 < length remains.old.box }
    requires tells { (rule : Rule) → slice_get problem.now.constraints c.0 ≡ Some rule → AdviceTells advice rule remains.old.box }
    ensures cut { IsCut problem.now c.0 x.0 remains.old.box remains.new.box }
    ensures past { Follows remains.old remains.new }
    ensures gone { HasCut result remains.old.box remains.new.box }
{
    problem.known();
    match advice {
        Advice::Room(room) => cut_term(problem, c, place, x, room, remains),
        Advice::Filled(filled) => cut_beside(problem, c, x, filled, remains),
        Advice::Ends => {
            let kept = kept_by_ends(problem, problem.constraint(c), x, remains.store());
            cut_outside(problem, c, x, kept, remains)
        }
    }
}
