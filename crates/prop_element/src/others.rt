//! The least and the greatest value left that is no member of a set. A run of members is passed over, and of a range all at
//! once.
ghost use Rattle.std.specs.Prelude.{false, IsTrue, IfNone, IfSome};
ghost use Rattle.qc_model.specs.declared.problem.Set.TheVariants.{Range as SetRange};
ghost use Rattle.qc_model.specs.Refuted.{left_to};
ghost use Rattle.qc_model.specs.Valid.{is_number, is_set};
ghost use Rattle.qc_refuter.specs.Met.{is_open};
ghost use Rattle.prop_element.specs.Members.{is_wanted, IsFirst, IsLast, NonePasses};

use crate::hulls::{after, before};
use fd_store::Store;
use model_arguments::contains;
use prop_compare::{greatest, least, next_of, previous_of};
use qc_model::{Arg, Set};

fn first_beyond(low: i64, high: i64, a: Arg, store: &Store) -> Option<i64>
    requires open { IsTrue (is_open store.now.box a) }
    requires small { IsTrue (is_number high) }
    ensures none { IfNone result (NonePasses (is_wanted false (SetRange low high)) (left_to store.now.box a)) }
    ensures some { IfSome result (λ v. IsFirst (is_wanted false (SetRange low high)) (left_to store.now.box a) v) }
{
    let first = least(a, store);
    if first < low {
        Some(first)
    } else {
        next_of(a, after(high), store)
    }
}

fn last_beyond(low: i64, high: i64, a: Arg, store: &Store) -> Option<i64>
    requires open { IsTrue (is_open store.now.box a) }
    requires small { IsTrue (is_number low) }
    ensures none { IfNone result (NonePasses (is_wanted false (SetRange low high)) (left_to store.now.box a)) }
    ensures some { IfSome result (λ v. IsLast (is_wanted false (SetRange low high)) (left_to store.now.box a) v) }
{
    let last = greatest(a, store);
    if high < last {
        Some(last)
    } else {
        previous_of(a, before(low), store)
    }
}

// The first that isn't in the list comes after at most as many as the list has.
fn first_unlisted(set: &Set, a: Arg, store: &Store) -> Option<i64>
    requires open { IsTrue (is_open store.now.box a) }
    requires set { IsTrue (is_set set.now) }
    ensures none { IfNone result (NonePasses (is_wanted false set.now) (left_to store.now.box a)) }
    ensures some { IfSome result (λ v. IsFirst (is_wanted false set.now) (left_to store.now.box a) v) }
{
    let mut from = least(a, store);
    while let Some(v) = next_of(a, from, store) {
        if !contains(set, v) {
            return Some(v);
        }
        from = v + 1;
    }
    None
}

fn last_unlisted(set: &Set, a: Arg, store: &Store) -> Option<i64>
    requires open { IsTrue (is_open store.now.box a) }
    requires set { IsTrue (is_set set.now) }
    ensures none { IfNone result (NonePasses (is_wanted false set.now) (left_to store.now.box a)) }
    ensures some { IfSome result (λ v. IsLast (is_wanted false set.now) (left_to store.now.box a) v) }
{
    let mut up_to = greatest(a, store);
    while let Some(v) = previous_of(a, up_to, store) {
        if !contains(set, v) {
            return Some(v);
        }
        up_to = v - 1;
    }
    None
}

/// The least value left that is no member.
pub(crate) fn first_other(set: &Set, a: Arg, store: &Store) -> Option<i64>
    requires open { IsTrue (is_open store.now.box a) }
    requires set { IsTrue (is_set set.now) }
    ensures none { IfNone result (NonePasses (is_wanted false set.now) (left_to store.now.box a)) }
    ensures some { IfSome result (λ v. IsFirst (is_wanted false set.now) (left_to store.now.box a) v) }
{
    match set {
        Set::Range(low, high) => first_beyond(*low, *high, a, store),
        Set::Listed(_) => first_unlisted(set, a, store),
    }
}

/// The greatest value left that is no member.
pub(crate) fn last_other(set: &Set, a: Arg, store: &Store) -> Option<i64>
    requires open { IsTrue (is_open store.now.box a) }
    requires set { IsTrue (is_set set.now) }
    ensures none { IfNone result (NonePasses (is_wanted false set.now) (left_to store.now.box a)) }
    ensures some { IfSome result (λ v. IsLast (is_wanted false set.now) (left_to store.now.box a) v) }
{
    match set {
        Set::Range(low, high) => last_beyond(*low, *high, a, store),
        Set::Listed(_) => last_unlisted(set, a, store),
    }
}
