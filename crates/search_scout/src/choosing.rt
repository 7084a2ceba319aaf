//! Which variable comes next, and which value.
ghost use Rattle.std.specs.Prelude.{◌<◌, ◌≤◌, length, IfSome, IsFalse};
ghost use Rattle.qc_model.specs.Domains.{has_empty};

use crate::chance::Chance;
use crate::ground::Wish;
use fd_store::Store;
use qc_model::{Sense, VarId};

/// Where a variable stands that comes last.
const LAST: u32 = u32::MAX - 1;

/// One time in so many the lesser of two values is taken.
const LESSER_SHARE: u32 = 4;

/// The variable with the fewest values left, of those from `from` to the one before `stop` that have several; the first
/// of them, or where that varies one that chance names. The objective comes after all others.
pub(crate) fn smallest(
    store: &Store,
    from: usize,
    stop: usize,
    wish: Option<Wish>,
    varies: bool,
    chance: &mut Chance,
) -> Option<VarId>
    requires bound { stop ≤ length store.now.box }
    requires few { length store.now.box ≤ 500 }
    ensures { IfSome result (λ x. x.0 < length store.now.box) }
{
    let mut best = None;
    let mut fewest = u32::MAX;
    let mut ties = 0u32;
    for at in from..stop {
        let x = VarId(at as u16);
        let rank = rank(store.size(x), is_objective(x, wish));
        if is_better(rank, fewest) {
            best = Some(x);
            fewest = rank;
            ties = 1;
        } else if varies && rank == fewest {
            // each of n that are as good is named once in n times
            ties = ties.saturating_add(1);
            if chance.below(ties) == 0 {
                best = Some(x);
            }
        }
    }
    best
}

/// How late a variable with so many values comes; 1 or 0 where it has nothing to be decided.
fn rank(size: u32, is_last: bool) -> u32 {
    if is_last && size > 1 { LAST } else { size }
}

fn is_objective(x: VarId, wish: Option<Wish>) -> bool {
    match wish {
        Some(wish) => wish.objective.0 == x.0,
        None => false,
    }
}

fn is_better(size: u32, fewest: u32) -> bool {
    size > 1 && size < fewest
}

/// The value to take of x: the one at the end that is wanted, or one that chance names. Of the objective it is always the best.
pub(crate) fn value_to_take(
    store: &Store,
    x: VarId,
    wish: Option<Wish>,
    varies: bool,
    chance: &mut Chance,
) -> i64
    requires var { x.0 < length store.now.box }
    requires full { IsFalse (has_empty store.now.box) }
{
    if !varies || is_objective(x, wish) {
        return value_at_end(store, x, wish);
    }
    if store.size(x) == 2 {
        return one_of_two(store, x, chance);
    }
    let least = store.min(x);
    let skipped = chance.below(store.size(x));
    let from = least.saturating_add(i64::from(skipped));
    match store.next(x, from) {
        Some(value) => value,
        None => least,
    }
}

/// One of the two values of x, mostly the greater: where some of many are to be chosen, to choose one decides more than to refuse
/// one.
fn one_of_two(store: &Store, x: VarId, chance: &mut Chance) -> i64
    requires var { x.0 < length store.now.box }
    requires full { IsFalse (has_empty store.now.box) }
{
    if chance.below(LESSER_SHARE) == 0 {
        store.min(x)
    } else {
        store.max(x)
    }
}

/// The least value of x, or the greatest where an objective is to be large: the other variables mostly go with it.
fn value_at_end(store: &Store, x: VarId, wish: Option<Wish>) -> i64
    requires var { x.0 < length store.now.box }
    requires full { IsFalse (has_empty store.now.box) }
{
    match wish {
        Some(wish) => match wish.sense {
            Sense::Min => store.min(x),
            Sense::Max => store.max(x),
        },
        None => store.min(x),
    }
}

/// Reads the least value left to each variable from `from` to the one before `stop` into its place.
pub(crate) fn read_values(store: &Store, from: usize, stop: usize, values: &mut [i64])
    requires bound { stop ≤ length store.now.box }
    requires few { length store.now.box ≤ 500 }
    requires full { IsFalse (has_empty store.now.box) }
{
    for at in from..stop {
        let least = store.min(VarId(at as u16));
        if let Some(place) = values.get_mut(at) {
            *place = least;
        }
    }
}
