//! Members of sets. A walk goes from value to value of those that are left, and in a step passes a number of the set.
ghost use Rattle.std.specs.Prelude.{◌≡◌, not, IsTrue};
ghost use Rattle.std.specs.List.{list_any};
ghost use Rattle.qc_model.specs.declared.problem.Set.TheVariants.{Range as SetRange};
ghost use Rattle.qc_model.specs.Arguments.{members as members_in};
ghost use Rattle.qc_model.specs.Domains.{set_has};
ghost use Rattle.qc_model.specs.Entailed.{entailed_as};
ghost use Rattle.qc_model.specs.Meaning.{member as Member};
ghost use Rattle.qc_model.specs.Refuted.{left_to};
ghost use Rattle.qc_model.specs.Valid.{is_set};
ghost use Rattle.qc_refuter.specs.Met.{lefts, are_met, is_open};

use crate::left::{greatest, least, next};
use crate::reading::arg_met;
use fd_store::Store;
use model_arguments::{contains, members_at};
use qc_model::{Arg, Argument, Set};

// Whether some value left isn't in the list: the first that isn't comes after at most as many as the list has.
fn some_unlisted(set: &Set, arg: Arg, store: &Store) -> bool
    requires set { IsTrue (is_set set.now) }
    requires open { IsTrue (is_open store.now.box arg) }
    ensures { result ≡ list_any (λ v. not (set_has set.now v)) (left_to store.now.box arg) }
{
    let mut from = least(arg, store);
    while let Some(v) = next(arg, from, store) {
        if !contains(set, v) {
            return true;
        }
        from = v + 1;
    }
    false
}

// Whether some value left isn't in the range: one of both ends then.
fn some_beyond(low: i64, high: i64, arg: Arg, store: &Store) -> bool
    requires { IsTrue (is_open store.now.box arg) }
    ensures { result ≡ list_any (λ v. not (set_has (SetRange low high) v)) (left_to store.now.box arg) }
{
    least(arg, store) < low || high < greatest(arg, store)
}

// Whether some value left isn't in the set.
fn some_outside(set: &Set, arg: Arg, store: &Store) -> bool
    requires set { IsTrue (is_set set.now) }
    requires open { IsTrue (is_open store.now.box arg) }
    ensures { result ≡ list_any (λ v. not (set_has set.now v)) (left_to store.now.box arg) }
{
    match set {
        Set::Range(low, high) => some_beyond(*low, *high, arg, store),
        Set::Listed(_) => some_unlisted(set, arg, store),
    }
}

// Whether some value left to the argument isn't in the set at the second place. Without a set nothing is in it.
fn some_other(args: &[Argument], arg: Arg, store: &Store) -> bool
    requires met { IsTrue (are_met store.now.box args.now) }
    requires open { IsTrue (is_open store.now.box arg) }
    ensures { result ≡ list_any (λ v. not (set_has (members_in (lefts store.now.box args.now) 1) v)) (left_to store.now.box arg) }
{
    match members_at(args, 1) {
        None => true,
        Some(set) => some_outside(set, arg, store),
    }
}

// Every value left is in the set.
pub(crate) fn member_entailed(args: &[Argument], store: &Store) -> bool
    requires { IsTrue (are_met store.now.box args.now) }
    ensures { result ≡ entailed_as Member (lefts store.now.box args.now) }
{
    !some_other(args, arg_met(args, 0, store), store)
}
