//! Ends of a variable that one constraint refutes.
ghost use Rattle.std.specs.Prelude.{◌≡◌, ◌<◌, ◌↔◌, ◌≤ℤ◌, ℤ, length, slice_get, Some, MatchOption, IsTrue, IsFalse};
ghost use Rattle.qc_model.specs.Closed.{refutes_at};
ghost use Rattle.qc_model.specs.Content.{Rule};
ghost use Rattle.qc_model.specs.Domains.{box_within, has_empty, is_none_left, values_left, values_within};
ghost use Rattle.qc_model.specs.Refuted.{refuted_by};
ghost use Rattle.qc_model.specs.Valid.{is_number};
ghost use Rattle.model_arguments.specs.Asked.{is_box_of};
ghost use Rattle.fd_store.specs.Held.{Follows};
ghost use Rattle.dense_close.specs.Cutting.{IsInside, IsStretch, IsBarred, IsCut, HasCut, SparesEnd, end_of as end_in};

use check_box::Remains;
use dense_quiet::Stretch;
use fd_store::Store;
use qc_model::{ConId, Problem, VarId};
use qc_refuter::refutes_in;

/// Of a variable with so few values left one value goes at a time.
const FEW_VALUES: u32 = 4;

/// So often a stretch is doubled at most: then it is longer than any domain.
const DOUBLINGS: usize = 20;

/// One of the two ends of the values left to a variable.
#[derive(Clone, Copy)]
pub(crate) enum End {
    Least,
    Greatest,
}

// The value at the end.
fn end_of(x: VarId, end: End, store: &Store) -> i64
    requires x { x.0 < length store.now.box }
    requires full { IsFalse (has_empty store.now.box) }
    ensures { result ≡ end_in end store.now.box x.0 }
{
    match end {
        End::Least => store.min(x),
        End::Greatest => store.max(x),
    }
}

/// Whether the constraint c refutes the value at the end of x.
pub(crate) fn refutes_end(problem: &Problem, c: ConId, x: VarId, end: End, store: &Store) -> bool
    requires c { c.0 < length problem.now.constraints }
    requires declared { IsTrue (is_box_of problem.now store.now.box) }
    requires full { IsFalse (has_empty store.now.box) }
    requires x { x.0 < length store.now.box }
    ensures { (rule : Rule) → slice_get problem.now.constraints c.0 ≡ Some rule → result ≡ refutes_at rule store.now.box x.0 (end_in end store.now.box x.0) }
{
    problem.known();
    let value = end_of(x, end, store);
    refutes_in(problem, c, store, x, value, value)
}

// The lesser of two numbers.
fn lesser(a: i64, b: i64) -> i64
    ensures { (n : ℤ) → (n ≤ℤ result) ↔ ((n ≤ℤ a) × (n ≤ℤ b)) }
{
    if a < b { a } else { b }
}

// The greater of two numbers.
fn greater(a: i64, b: i64) -> i64
    ensures { (n : ℤ) → (result ≤ℤ n) ↔ ((a ≤ℤ n) × (b ≤ℤ n)) }
{
    if a < b { b } else { a }
}

// Twice as many numbers from the same end on, as far as those from least to greatest go.
fn longer(s: Stretch, end: End, least: i64, greatest: i64) -> Stretch
    requires least { IsTrue (is_number least) }
    requires greatest { IsTrue (is_number greatest) }
    requires inside { IsInside least greatest s.low s.high }
    ensures inside { IsInside least greatest result.low result.high }
    ensures low { result.low ≤ℤ s.low }
    ensures high { s.high ≤ℤ result.high }
{
    let count = s.high - s.low + 1;
    match end {
        End::Least => Stretch {
            low: s.low,
            high: lesser(s.high + count, greatest),
        },
        End::Greatest => Stretch {
            low: greater(s.low - count, least),
            high: s.high,
        },
    }
}

// Whether the constraint c refutes the values of the stretch together, with those of the others.
fn refutes_stretch(problem: &Problem, c: ConId, x: VarId, s: Stretch, store: &Store) -> bool
    requires c { c.0 < length problem.now.constraints }
    requires declared { IsTrue (is_box_of problem.now store.now.box) }
    requires full { IsFalse (has_empty store.now.box) }
    requires x { x.0 < length store.now.box }
    requires left { IsFalse (is_none_left (values_within s.low s.high (values_left store.now.box x.0))) }
    ensures { (rule : Rule) → slice_get problem.now.constraints c.0 ≡ Some rule → result ≡ refuted_by rule (box_within store.now.box x.0 s.low s.high) }
{
    problem.known();
    refutes_in(problem, c, store, x, s.low, s.high)
}

// As many numbers from the end on as the constraint c refutes together, by doubling.
fn grown(problem: &Problem, c: ConId, x: VarId, end: End, store: &Store) -> Stretch
    requires c { c.0 < length problem.now.constraints }
    requires declared { IsTrue (is_box_of problem.now store.now.box) }
    requires full { IsFalse (has_empty store.now.box) }
    requires x { x.0 < length store.now.box }
    requires refuted { (rule : Rule) → slice_get problem.now.constraints c.0 ≡ Some rule → IsTrue (refutes_at rule store.now.box x.0 (end_in end store.now.box x.0)) }
    ensures { IsStretch problem.now c.0 x.0 store.now.box result.low result.high }
{
    store.known(x);
    let value = end_of(x, end, store);
    let mut s = Stretch {
        low: value,
        high: value,
    };
    if store.size(x) <= FEW_VALUES {
        return s;
    }
    let least = store.min(x);
    let greatest = store.max(x);
    for _ in 0..DOUBLINGS {
        let more = longer(s, end, least, greatest);
        if !refutes_stretch(problem, c, x, more, store) {
            return s;
        }
        s = more;
    }
    s
}

// Values at the end of x that the constraint c refutes. None comes where it doesn't refute the last one.
fn refuted_at(problem: &Problem, c: ConId, x: VarId, end: End, store: &Store) -> Option<Stretch>
    requires c { c.0 < length problem.now.constraints }
    requires declared { IsTrue (is_box_of problem.now store.now.box) }
    requires full { IsFalse (has_empty store.now.box) }
    requires x { x.0 < length store.now.box }
    ensures { MatchOption result (SparesEnd end problem.now c.0 x.0 store.now.box) (λ s. IsStretch problem.now c.0 x.0 store.now.box s.low s.high) }
{
    if refutes_end(problem, c, x, end, store) {
        Some(grown(problem, c, x, end, store))
    } else {
        None
    }
}

/// Takes the values at the end of x that the constraint c refutes, until it doesn't refute the last one, or none is left.
/// Whether some went.
pub(crate) fn cut_end(
    problem: &Problem,
    c: ConId,
    x: VarId,
    end: End,
    remains: &mut Remains,
) -> bool
    requires c { c.0 < length problem.now.constraints }
    requires declared { IsTrue (is_box_of problem.now remains.old.box) }
    requires x { x.0 < length remains.old.box }
    ensures cut { IsCut problem.now c.0 x.0 remains.old.box remains.new.box }
    ensures past { Follows remains.old remains.new }
    ensures gone { HasCut result remains.old.box remains.new.box }
    ensures spares { IsFalse (has_empty remains.new.box) → SparesEnd end problem.now c.0 x.0 remains.new.box }
{
    problem.known();
    let mut cut = false;
    while !remains.is_empty() {
        match refuted_at(problem, c, x, end, remains.store()) {
            None => return cut,
            Some(s) => {
                remains.cut(x, s.low, s.high);
                cut = true;
            }
        }
    }
    cut
}

/// Takes the values of a stretch at the end of x, which the constraint c refutes together. Whether some went.
pub(crate) fn cut_stretch(
    problem: &Problem,
    c: ConId,
    x: VarId,
    end: End,
    s: Stretch,
    remains: &mut Remains,
) -> bool
    requires c { c.0 < length problem.now.constraints }
    requires declared { IsTrue (is_box_of problem.now remains.old.box) }
    requires full { IsFalse (has_empty remains.old.box) }
    requires x { x.0 < length remains.old.box }
    requires barred { IsBarred problem.now c.0 x.0 remains.old.box s.low s.high }
    ensures cut { IsCut problem.now c.0 x.0 remains.old.box remains.new.box }
    ensures past { Follows remains.old remains.new }
    ensures gone { HasCut result remains.old.box remains.new.box }
{
    problem.known();
    let value = end_of(x, end, remains.store());
    let low = s.low;
    let high = s.high;
    if value < low {
        return false;
    }
    if high < value {
        return false;
    }
    remains.cut(x, low, high);
    true
}

/// Takes the values of a stretch at the end of x, where the constraint c refutes them together. Whether some went.
pub(crate) fn cut_refuted(
    problem: &Problem,
    c: ConId,
    x: VarId,
    end: End,
    s: Stretch,
    remains: &mut Remains,
) -> bool
    requires c { c.0 < length problem.now.constraints }
    requires declared { IsTrue (is_box_of problem.now remains.old.box) }
    requires full { IsFalse (has_empty remains.old.box) }
    requires x { x.0 < length remains.old.box }
    ensures cut { IsCut problem.now c.0 x.0 remains.old.box remains.new.box }
    ensures past { Follows remains.old remains.new }
    ensures gone { HasCut result remains.old.box remains.new.box }
{
    problem.known();
    let value = end_of(x, end, remains.store());
    let low = s.low;
    let high = s.high;
    if value < low {
        return false;
    }
    if high < value {
        return false;
    }
    if !refutes_stretch(problem, c, x, s, remains.store()) {
        return false;
    }
    remains.cut(x, low, high);
    true
}
