//! Clauses of truth values, where 1 is true and 0 is false.
ghost use Rattle.std.specs.Prelude.{◌≡◌, IsTrue, map, pos};
ghost use Rattle.std.specs.List.{list_any, list_all};
ghost use Rattle.qc_model.specs.Entailed.{entailed_as};
ghost use Rattle.qc_model.specs.Left.{is_only};
ghost use Rattle.qc_model.specs.Meaning.{clause as Clause};
ghost use Rattle.qc_model.specs.Refuted.{left_to};
ghost use Rattle.qc_refuter.specs.Met.{lefts, are_met, is_open};

use crate::left::{is_fixed, least};
use crate::reading::items_met;
use fd_store::Store;
use qc_model::{Arg, Argument};

// Whether the number is the only value of an argument.
fn has_only(arg: Arg, number: i64, store: &Store) -> bool
    requires { IsTrue (is_open store.now.box arg) }
    ensures { result ≡ is_only number (left_to store.now.box arg) }
{
    is_fixed(arg, store) && least(arg, store) == number
}

fn some_only(items: &[Arg], number: i64, store: &Store) -> bool
    requires { IsTrue (list_all (is_open store.now.box) items.now) }
    ensures { result ≡ list_any (is_only number) (map (left_to store.now.box) items.now) }
{
    for item in items {
        if has_only(*item, number, store) {
            return true;
        }
    }
    false
}

// Some item of the first array can only be 1, or some item of the second only 0.
pub(crate) fn clause_entailed(args: &[Argument], store: &Store) -> bool
    requires { IsTrue (are_met store.now.box args.now) }
    ensures { result ≡ entailed_as Clause (lefts store.now.box args.now) }
{
    some_only(items_met(args, 0, store), 1, store) || some_only(items_met(args, 1, store), 0, store)
}
