//! Members of sets. A walk goes from value to value of those that are left, and in a step passes a number of the set at
//! least, or all of a range.
ghost use Rattle.std.specs.Prelude.{◌≡◌, not, IsTrue, IfNone, IfSome};
ghost use Rattle.std.specs.List.{list_any};
ghost use Rattle.qc_model.specs.declared.problem.Set.TheVariants.{Range as SetRange, Listed as SetListed};
ghost use Rattle.qc_model.specs.Arguments.{members as members_at};
ghost use Rattle.qc_model.specs.Domains.{set_has, is_ascending};
ghost use Rattle.qc_model.specs.Entailed.{entailed_as};
ghost use Rattle.qc_model.specs.Holds.{same_truth};
ghost use Rattle.qc_model.specs.Meaning.{member as Member};
ghost use Rattle.qc_model.specs.Refuted.{left_to, refuted_as};
ghost use Rattle.qc_model.specs.Valid.{is_set};
ghost use Rattle.qc_refuter.specs.Members.{IsMemberFrom, NoMemberFrom};
ghost use Rattle.qc_refuter.specs.Met.{seen, lefts, are_met, is_open};

use crate::reading::arg_met;
use crate::shown::View;
use crate::view::{greatest, least, next};
use model_arguments::{contains, members_at};
use qc_model::{Arg, Argument, Set};

// The least number of a list from v on.
fn listed_from(numbers: &[i64], v: i64) -> Option<i64>
    requires { IsTrue (is_ascending numbers.now) }
    ensures none { IfNone result (NoMemberFrom (SetListed numbers.now) v) }
    ensures some { IfSome result (λ m. IsMemberFrom (SetListed numbers.now) v m) }
{
    match numbers.binary_search(&v) {
        Ok(_) => Some(v),
        Err(k) => {
            if k < numbers.len() {
                Some(numbers[k])
            } else {
                None
            }
        }
    }
}

// The least number of a range from v on.
fn ranged_from(low: i64, high: i64, v: i64) -> Option<i64>
    requires { IsTrue (is_set (SetRange low high)) }
    ensures none { IfNone result (NoMemberFrom (SetRange low high) v) }
    ensures some { IfSome result (λ m. IsMemberFrom (SetRange low high) v m) }
{
    if high < v {
        return None;
    }
    if v < low {
        return Some(low);
    }
    Some(v)
}

// The least member from v on.
fn member_from(set: &Set, v: i64) -> Option<i64>
    requires { IsTrue (is_set set.now) }
    ensures none { IfNone result (NoMemberFrom set.now v) }
    ensures some { IfSome result (λ m. IsMemberFrom set.now v m) }
{
    match set {
        Set::Range(low, high) => ranged_from(*low, *high, v),
        Set::Listed(numbers) => listed_from(numbers.items(), v),
    }
}

// Whether some value left is in the set: from a value on to the next member, and from that on to the next value, until they
// meet.
fn some_inside(set: &Set, arg: Arg, view: &View) -> bool
    requires set { IsTrue (is_set set.now) }
    requires open { IsTrue (is_open (seen view.now) arg) }
    ensures { result ≡ list_any (set_has set.now) (left_to (seen view.now) arg) }
{
    let mut from = least(arg, view);
    while let Some(v) = next(arg, from, view) {
        let Some(m) = member_from(set, v) else {
            return false;
        };
        if m <= v {
            return true;
        }
        from = m;
    }
    false
}

// Whether some value left isn't in the list: the first that isn't comes after at most as many as the list has.
fn some_unlisted(set: &Set, arg: Arg, view: &View) -> bool
    requires set { IsTrue (is_set set.now) }
    requires open { IsTrue (is_open (seen view.now) arg) }
    ensures { result ≡ list_any (λ v. not (set_has set.now v)) (left_to (seen view.now) arg) }
{
    let mut from = least(arg, view);
    while let Some(v) = next(arg, from, view) {
        if !contains(set, v) {
            return true;
        }
        from = v + 1;
    }
    false
}

// Whether some value left isn't in the range: one of both ends then.
fn some_beyond(low: i64, high: i64, arg: Arg, view: &View) -> bool
    requires { IsTrue (is_open (seen view.now) arg) }
    ensures { result ≡ list_any (λ v. not (set_has (SetRange low high) v)) (left_to (seen view.now) arg) }
{
    least(arg, view) < low || high < greatest(arg, view)
}

// Whether some value left isn't in the set.
fn some_outside(set: &Set, arg: Arg, view: &View) -> bool
    requires set { IsTrue (is_set set.now) }
    requires open { IsTrue (is_open (seen view.now) arg) }
    ensures { result ≡ list_any (λ v. not (set_has set.now v)) (left_to (seen view.now) arg) }
{
    match set {
        Set::Range(low, high) => some_beyond(*low, *high, arg, view),
        Set::Listed(_) => some_unlisted(set, arg, view),
    }
}

// Whether some value left to the argument is in the set, or isn't, as is asked. Without a set nothing is in it.
fn some_member(args: &[Argument], arg: Arg, wanted: bool, view: &View) -> bool
    requires met { IsTrue (are_met (seen view.now) args.now) }
    requires open { IsTrue (is_open (seen view.now) arg) }
    ensures { result ≡ list_any (λ v. same_truth wanted (set_has (members_at (lefts (seen view.now) args.now) 1) v)) (left_to (seen view.now) arg) }
{
    match members_at(args, 1) {
        None => !wanted,
        Some(set) => {
            if wanted {
                some_inside(set, arg, view)
            } else {
                some_outside(set, arg, view)
            }
        }
    }
}

// No value left is in the set.
pub(crate) fn member_refuted(args: &[Argument], view: &View) -> bool
    requires { IsTrue (are_met (seen view.now) args.now) }
    ensures { result ≡ refuted_as Member (lefts (seen view.now) args.now) }
{
    !some_member(args, arg_met(args, 0, view), true, view)
}

// Every value left is in the set.
pub(crate) fn member_entailed(args: &[Argument], view: &View) -> bool
    requires { IsTrue (are_met (seen view.now) args.now) }
    ensures { result ≡ entailed_as Member (lefts (seen view.now) args.now) }
{
    !some_member(args, arg_met(args, 0, view), false, view)
}
