//! What is left to an argument.
ghost use Rattle.std.specs.Prelude.{◌≡◌, ◌<◌, ◌≤ℤ◌, ℤ, IsTrue, length, pos, negsuc};
ghost use Rattle.qc_model.specs.Domains.{box_within, values_left, values_within, least_value, greatest_value, has_value, is_single};
ghost use Rattle.qc_model.specs.Refuted.{left_to};
ghost use Rattle.qc_model.specs.declared.problem.Arg.TheVariants.{Var};
ghost use Rattle.fd_store.specs.Held.{values_from, least_of};
ghost use Rattle.qc_refuter.specs.Shown.{HasEnds};
ghost use Rattle.qc_refuter.specs.Met.{seen, is_open};

use crate::shown::{Ends, View};
use fd_store::Store;
use qc_model::{Arg, VarId};

// The ends of the first variable's values, where it has some.
fn first_ends(store: &Store) -> Ends
    ensures { HasEnds result (values_within (negsuc 999999999) (pos 1000000000) (values_left store.now.box 0)) }
{
    let none = Ends {
        least: 0,
        greatest: 0,
    };
    if store.count() == 0 {
        return none;
    }
    let first = VarId(0);
    if store.size(first) == 0 {
        return none;
    }
    store.known(first);
    Ends {
        least: store.min(first),
        greatest: store.max(first),
    }
}

/// The whole range of numbers keeps every value.
pub(crate) fn whole(store: &Store) -> View
    ensures { seen result ≡ box_within store.now.box 0 (negsuc 999999999) (pos 1000000000) }
{
    let ends = first_ends(store);
    View {
        store,
        x: VarId(0),
        lo: -1_000_000_000,
        hi: 1_000_000_000,
        ends,
    }
}

/// The least value left to a variable.
#[inline(always)]
pub(crate) fn least_of(y: VarId, view: &View) -> i64
    requires { IsTrue (is_open (seen view.now) (Var y)) }
    ensures { result ≡ least_value (left_to (seen view.now) (Var y)) }
{
    if y.0 == view.x.0 {
        view.ends.least
    } else {
        view.store.min(y)
    }
}

/// The greatest value left to a variable.
#[inline(always)]
pub(crate) fn greatest_of(y: VarId, view: &View) -> i64
    requires { IsTrue (is_open (seen view.now) (Var y)) }
    ensures { result ≡ greatest_value (left_to (seen view.now) (Var y)) }
{
    if y.0 == view.x.0 {
        view.ends.greatest
    } else {
        view.store.max(y)
    }
}

/// The least value left to an argument.
#[inline(always)]
pub(crate) fn least(arg: Arg, view: &View) -> i64
    requires { IsTrue (is_open (seen view.now) arg) }
    ensures { result ≡ least_value (left_to (seen view.now) arg) }
{
    match arg {
        Arg::Num(n) => n,
        Arg::Var(y) => least_of(y, view),
    }
}

/// The greatest value left to an argument.
#[inline(always)]
pub(crate) fn greatest(arg: Arg, view: &View) -> i64
    requires { IsTrue (is_open (seen view.now) arg) }
    ensures { result ≡ greatest_value (left_to (seen view.now) arg) }
{
    match arg {
        Arg::Num(n) => n,
        Arg::Var(y) => greatest_of(y, view),
    }
}

/// Whether an argument has the value left.
pub(crate) fn has(arg: Arg, v: i64, view: &View) -> bool
    requires { IsTrue (is_open (seen view.now) arg) }
    ensures { result ≡ has_value (left_to (seen view.now) arg) v }
{
    match arg {
        Arg::Num(n) => v == n,
        Arg::Var(y) => {
            if y.0 != view.x.0 {
                return view.store.has(y, v);
            }
            if v < view.lo {
                return false;
            }
            if view.hi < v {
                return false;
            }
            view.store.has(y, v)
        }
    }
}

/// Whether one value is left to an argument.
pub(crate) fn is_fixed(arg: Arg, view: &View) -> bool
    requires { IsTrue (is_open (seen view.now) arg) }
    ensures { result ≡ is_single (left_to (seen view.now) arg) }
{
    let low = least(arg, view);
    let high = greatest(arg, view);
    high <= low
}

// The greater of two numbers.
fn later(a: i64, b: i64) -> i64
    ensures first { a ≤ℤ result }
    ensures second { b ≤ℤ result }
    ensures least { (u : ℤ) → a ≤ℤ u → b ≤ℤ u → result ≤ℤ u }
{
    if a < b { b } else { a }
}

// The least value from v on that the view shows of its own variable.
fn next_within(v: i64, view: &View) -> Option<i64>
    requires { view.now.x.0 < length view.now.store.now.box }
    ensures { result ≡ least_of (values_from v (values_within view.now.lo view.now.hi (values_left view.now.store.now.box view.now.x.0))) }
{
    match view.store.next(view.x, later(v, view.lo)) {
        None => None,
        Some(w) => { if w <= view.hi { Some(w) } else { None } }
    }
}

/// The least value left to an argument that is at least v. None comes exactly where there is none.
pub(crate) fn next(arg: Arg, v: i64, view: &View) -> Option<i64>
    requires { IsTrue (is_open (seen view.now) arg) }
    ensures { result ≡ least_of (values_from v (left_to (seen view.now) arg)) }
{
    match arg {
        Arg::Num(n) if v <= n => Some(n),
        Arg::Num(_) => None,
        Arg::Var(y) => {
            if y.0 == view.x.0 {
                next_within(v, view)
            } else {
                view.store.next(y, v)
            }
        }
    }
}
