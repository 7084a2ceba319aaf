//! Two integers.
ghost use Rattle.std.specs.Prelude.{◌≡◌, IsTrue};
ghost use Rattle.qc_model.specs.Entailed.{entailed_as};
ghost use Rattle.qc_model.specs.Meaning.{equal as Equal, different as Different, at_most as AtMost, below as Below};
ghost use Rattle.qc_refuter.specs.Met.{lefts, are_met};

use crate::common::meet;
use crate::left::{greatest, is_fixed, least};
use crate::reading::arg_met;
use fd_store::Store;
use qc_model::Argument;

// Both have one value, the same.
pub(crate) fn equal_entailed(args: &[Argument], store: &Store) -> bool
    requires { IsTrue (are_met store.now.box args.now) }
    ensures { result ≡ entailed_as Equal (lefts store.now.box args.now) }
{
    let a = arg_met(args, 0, store);
    let b = arg_met(args, 1, store);
    is_fixed(a, store) && is_fixed(b, store) && least(a, store) == least(b, store)
}

// No value is left to both.
pub(crate) fn different_entailed(args: &[Argument], store: &Store) -> bool
    requires { IsTrue (are_met store.now.box args.now) }
    ensures { result ≡ entailed_as Different (lefts store.now.box args.now) }
{
    let a = arg_met(args, 0, store);
    let b = arg_met(args, 1, store);
    !meet(a, b, store)
}

pub(crate) fn at_most_entailed(args: &[Argument], store: &Store) -> bool
    requires { IsTrue (are_met store.now.box args.now) }
    ensures { result ≡ entailed_as AtMost (lefts store.now.box args.now) }
{
    greatest(arg_met(args, 0, store), store) <= least(arg_met(args, 1, store), store)
}

pub(crate) fn below_entailed(args: &[Argument], store: &Store) -> bool
    requires { IsTrue (are_met store.now.box args.now) }
    ensures { result ≡ entailed_as Below (lefts store.now.box args.now) }
{
    greatest(arg_met(args, 0, store), store) < least(arg_met(args, 1, store), store)
}
