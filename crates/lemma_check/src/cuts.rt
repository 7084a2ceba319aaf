//! Leaves variables fewer values: those that meet the literals of a lemma, or lie in one range.
ghost use Rattle.std.specs.Prelude.{◌≡◌, ◌<◌, ◌<ℤ◌, [], true, IsTrue, length};
ghost use Rattle.qc_model.specs.Domains.{Box, is_sub_box, box_within, declared_box};
ghost use Rattle.fd_store.specs.Held.{Follows};
ghost use Rattle.lemma_list.specs.Literals.{are_in_order as are_in_order_in, box_to};
ghost use Rattle.lemma_list.specs.InPlace.{is_lemma};
ghost use Rattle.lemma_check.specs.Held.{IsHeldOf};
ghost use Rattle.lemma_check.specs.Gaps.{kept_up_to, kept_from, without_gap, cut_before as cut_before_in, without_gaps, are_inside, IsInside, IsEarlier};

use check_box::Remains;
use lemma_list::{Lemma, Literal};
use qc_model::{Problem, VarId};

/// The greatest number that there is, and the least.
const MOST: i64 = 1_000_000_000;

const LEAST: i64 = -1_000_000_000;

/// Leaves x its values up to hi.
fn keep_up_to(remains: &mut Remains, x: VarId, hi: i64)
    requires { x.0 < length remains.old.box }
    ensures content { remains.new.box ≡ kept_up_to remains.old.box x.0 hi }
    ensures past { Follows remains.old remains.new }
    ensures fewer { (large : Box) → is_sub_box remains.old.box large ≡ true → is_sub_box remains.new.box large ≡ true }
{
    remains.store().known(x);
    if hi < MOST {
        remains.cut(x, hi + 1, MOST);
    }
}

/// Leaves x its values from lo on.
fn keep_from(remains: &mut Remains, x: VarId, lo: i64)
    requires { x.0 < length remains.old.box }
    ensures content { remains.new.box ≡ kept_from remains.old.box x.0 lo }
    ensures past { Follows remains.old remains.new }
    ensures fewer { (large : Box) → is_sub_box remains.old.box large ≡ true → is_sub_box remains.new.box large ≡ true }
{
    remains.store().known(x);
    if lo > LEAST {
        remains.cut(x, LEAST, lo - 1);
    }
}

/// Takes the values between hi and lo out of x.
fn cut_gap(remains: &mut Remains, x: VarId, hi: i64, lo: i64)
    requires var { x.0 < length remains.old.box }
    requires order { hi <ℤ lo }
    ensures content { remains.new.box ≡ without_gap remains.old.box x.0 hi lo }
    ensures past { Follows remains.old remains.new }
    ensures fewer { (large : Box) → is_sub_box remains.old.box large ≡ true → is_sub_box remains.new.box large ≡ true }
{
    remains.cut(x, hi + 1, lo - 1);
}

/// Takes the values between a literal and the one before it out of the variables of both.
fn cut_before(remains: &mut Remains, before: Option<Literal>, literal: Literal)
    requires earlier { IsEarlier (length remains.old.box) before literal }
    requires var { literal.x.0 < length remains.old.box }
    ensures content { remains.new.box ≡ cut_before_in before literal remains.old.box }
    ensures past { Follows remains.old remains.new }
    ensures fewer { (large : Box) → is_sub_box remains.old.box large ≡ true → is_sub_box remains.new.box large ≡ true }
{
    match before {
        None => keep_from(remains, literal.x, literal.lo),
        Some(earlier) => {
            if earlier.x.0 == literal.x.0 {
                cut_gap(remains, literal.x, earlier.hi, literal.lo);
            } else {
                keep_up_to(remains, earlier.x, earlier.hi);
                keep_from(remains, literal.x, literal.lo);
            }
        }
    }
}

/// Takes the values after the last literal out of its variable.
fn cut_after(remains: &mut Remains, last: Option<Literal>)
    requires { IsInside (length remains.old.box) last }
    ensures content { remains.new.box ≡ without_gaps last [] remains.old.box }
    ensures past { Follows remains.old remains.new }
    ensures fewer { (large : Box) → is_sub_box remains.old.box large ≡ true → is_sub_box remains.new.box large ≡ true }
{
    match last {
        None => {}
        Some(literal) => keep_up_to(remains, literal.x, literal.hi),
    }
}

/// Cuts the box to the values that meet the literals, which are in order.
pub(crate) fn cut_to(remains: &mut Remains, literals: &[Literal])
    requires order { IsTrue (are_in_order_in literals.now) }
    requires inside { IsTrue (are_inside (length remains.old.box) literals.now) }
    ensures content { remains.new.box ≡ box_to literals.now remains.old.box }
    ensures past { Follows remains.old remains.new }
    ensures fewer { (large : Box) → is_sub_box remains.old.box large ≡ true → is_sub_box remains.new.box large ≡ true }
{
    let mut before: Option<Literal> = None;
    let mut rest = literals;
    while let [first, later @ ..] = rest {
        cut_before(remains, before, *first);
        before = Some(*first);
        rest = later;
    }
    cut_after(remains, before);
}

/// Leaves x its values from lo to hi alone.
pub(crate) fn keep_within(remains: &mut Remains, x: VarId, lo: i64, hi: i64)
    requires { x.0 < length remains.old.box }
    ensures content { remains.new.box ≡ box_within remains.old.box x.0 lo hi }
    ensures past { Follows remains.old remains.new }
    ensures fewer { (large : Box) → is_sub_box remains.old.box large ≡ true → is_sub_box remains.new.box large ≡ true }
{
    keep_up_to(remains, x, hi);
    keep_from(remains, x, lo);
}

/// The declared domains, cut to the literals of a lemma.
pub(crate) fn begin_box(problem: &Problem, lemma: &Lemma, remains: &mut Remains)
    requires held { IsHeldOf problem.now remains.old }
    requires lemma { IsTrue (is_lemma problem.now lemma.now) }
    ensures content { remains.new.box ≡ box_to lemma.now.literals (declared_box problem.now) }
    ensures held { IsHeldOf problem.now remains.new }
{
    problem.known();
    remains.restart();
    cut_to(remains, lemma.literals());
}
