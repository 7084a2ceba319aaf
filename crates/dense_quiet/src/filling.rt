//! What numbers that some items fill leave another item.
//!
//! Where as many items lie among some numbers as these are, they take all of them, and a further item can have none. With its values
//! among them alone more items lie there than there are numbers, so the constraint refutes the box: that is so by a law, once the items
//! are counted.
ghost use Rattle.std.specs.Prelude.{◌≡◌, ◌≤◌, ◌<◌, length, count_by, IsTrue};
ghost use Rattle.std.specs.List.{list_all};
ghost use Rattle.qc_model.specs.declared.problem.Pred.TheVariants.{AllDifferentInt};
ghost use Rattle.qc_model.specs.Domains.{values_left, is_within as is_in};
ghost use Rattle.model_arguments.specs.Asked.{IsAsked};
ghost use Rattle.qc_refuter.specs.Met.{is_open};
ghost use Rattle.dense_quiet.specs.Filling.{is_counted, outnumbers};
ghost use Rattle.dense_quiet.specs.Guessing.{PassesFor, IsKept, refuted_with};

use crate::differing::{greatest, least};
use crate::guessing::{guessed, is_variable};
use crate::reading::items_met;
use crate::stretch::{Kept, Stretch};
use fd_store::Store;
use model_arguments::arguments;
use qc_model::{Arg, Constraint, Pred, Problem, VarId};

/// The least and the greatest number that there is.
const LEAST: i64 = -1_000_000_000;

const GREATEST: i64 = 1_000_000_000;

// Whether the item is x, or lies in the stretch.
#[inline(always)]
fn counts(item: Arg, x: VarId, s: Stretch, store: &Store) -> bool
    requires { IsTrue (is_open store.now.box item) }
    ensures { result ≡ is_counted s.low s.high x.0 store.now.box item }
{
    if is_variable(item, x) {
        return true;
    }
    s.low <= least(item, store) && greatest(item, store) <= s.high
}

// How many of the items are x, or lie in the stretch.
fn count_with(items: &[Arg], x: VarId, s: Stretch, store: &Store) -> usize
    requires items { IsTrue (list_all (is_open store.now.box) items.now) }
    requires few { length items.now ≤ 1000 }
    ensures few { result ≤ 1000 }
    ensures count { result ≡ count_by (is_counted s.low s.high x.0 store.now.box) items.now }
{
    let mut count: usize = 0;
    for item in items {
        if counts(*item, x, s, store) {
            count += 1;
        }
    }
    count
}

// Whether so many are more than the stretch has numbers, of which there are some.
fn is_more(count: usize, s: Stretch) -> bool
    requires { count ≤ 1000 }
    ensures { IsTrue result → IsTrue (outnumbers count s.low s.high) }
{
    if s.low < LEAST {
        return false;
    }
    if GREATEST < s.high {
        return false;
    }
    s.low <= s.high && s.high - s.low + 1 < count as i64
}

// Whether it is sure that the constraint, by which all items differ, refutes the box with any values of x in the stretch alone left to
// x.
fn is_full_beside(problem: &Problem, rule: &Constraint, x: VarId, s: Stretch, store: &Store) -> bool
    requires asked { IsAsked problem.now rule.now store.now.box }
    requires pred { rule.now.pred ≡ AllDifferentInt }
    ensures { IsTrue result → PassesFor (refuted_with rule.now x.0 store.now.box) (values_left store.now.box x.0) (is_in s.low s.high) }
{
    problem.known();
    let count = count_with(items_met(arguments(rule), 0, store), x, s, store);
    is_more(count, s)
}

// The same for any constraint.
fn is_filled_beside(
    problem: &Problem,
    rule: &Constraint,
    x: VarId,
    s: Stretch,
    store: &Store,
) -> bool
    requires { IsAsked problem.now rule.now store.now.box }
    ensures { IsTrue result → PassesFor (refuted_with rule.now x.0 store.now.box) (values_left store.now.box x.0) (is_in s.low s.high) }
{
    match rule.pred {
        Pred::AllDifferentInt => is_full_beside(problem, rule, x, s, store),
        _ => false,
    }
}

/// Which values numbers that some items fill leave x, another item or one of these: all of them where neither of its ends is among the
/// numbers, or both, since then it may be one of those items. Where that is sure, the constraint refutes the others together.
pub fn kept_beside(
    problem: &Problem,
    rule: &Constraint,
    filled: Stretch,
    x: VarId,
    store: &Store,
) -> Kept
    requires asked { IsAsked problem.now rule.now store.now.box }
    requires x { x.0 < length store.now.box }
    ensures { IsTrue result.sure → IsKept rule.now x.0 store.now.box result.stretch.low result.stretch.high }
{
    let low = store.min(x);
    let high = store.max(x);
    if low < filled.low {
        if high < filled.low {
            return guessed(Stretch { low, high });
        }
        if filled.high < high {
            return guessed(Stretch { low, high });
        }
        return Kept {
            stretch: Stretch {
                low,
                high: filled.low - 1,
            },
            sure: is_filled_beside(problem, rule, x, filled, store),
        };
    }
    if filled.high < low {
        return guessed(Stretch { low, high });
    }
    if high <= filled.high {
        return guessed(Stretch { low, high });
    }
    Kept {
        stretch: Stretch {
            low: filled.high + 1,
            high,
        },
        sure: is_filled_beside(problem, rule, x, filled, store),
    }
}
