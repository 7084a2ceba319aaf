//! What is left to the arguments of a constraint, by their place. One of another kind counts as the number 0 or as empty.
ghost use Rattle.std.specs.Prelude.{◌≡◌, ◌≤◌, IsTrue, length, map};
ghost use Rattle.std.specs.List.{list_all};
ghost use Rattle.qc_model.specs.Arguments.{numbers as numbers_in};
ghost use Rattle.qc_model.specs.Left.{left_at, lefts_at};
ghost use Rattle.qc_model.specs.Refuted.{left_to};
ghost use Rattle.qc_model.specs.Valid.{is_number};
ghost use Rattle.qc_refuter.specs.Met.{lefts, are_met, is_open};

use fd_store::Store;
use qc_model::{Arg, Argument};

/// A variable or a number.
pub(crate) fn arg_met(args: &[Argument], place: usize, store: &Store) -> Arg
    requires { IsTrue (are_met store.now.box args.now) }
    ensures left { left_to store.now.box result ≡ left_at (lefts store.now.box args.now) place }
    ensures open { IsTrue (is_open store.now.box result) }
{
    match args.get(place) {
        Some(Argument::One(arg)) => *arg,
        _ => Arg::Num(0),
    }
}

/// The items of an array that may hold variables.
pub(crate) fn items_met<'a>(args: &'a [Argument], place: usize, store: &Store) -> &'a [Arg]
    requires { IsTrue (are_met store.now.box args.now) }
    ensures items { map (left_to store.now.box) result.now ≡ lefts_at (lefts store.now.box args.now) place }
    ensures few { length result.now ≤ 1000 }
    ensures open { IsTrue (list_all (is_open store.now.box) result.now) }
{
    match args.get(place) {
        Some(Argument::Many(items)) => items.items(),
        _ => &[],
    }
}

/// An array of numbers.
pub(crate) fn numbers_met<'a>(args: &'a [Argument], place: usize, store: &Store) -> &'a [i64]
    requires { IsTrue (are_met store.now.box args.now) }
    ensures items { result.now ≡ numbers_in (lefts store.now.box args.now) place }
    ensures small { IsTrue (list_all is_number result.now) }
{
    match args.get(place) {
        Some(Argument::Numbers(items)) => items.items(),
        _ => &[],
    }
}
