//! Two integers.
ghost use Rattle.std.specs.Prelude.{◌≡◌, IsTrue};
ghost use Rattle.qc_model.specs.Entailed.{entailed_as};
ghost use Rattle.qc_model.specs.Meaning.{equal as Equal, different as Different, at_most as AtMost, below as Below};
ghost use Rattle.qc_model.specs.Refuted.{refuted_as};
ghost use Rattle.qc_refuter.specs.Met.{seen, lefts, are_met};

use crate::common::meet;
use crate::reading::{arg_met, greatest_at, least_at};
use crate::shown::View;
use crate::view::{is_fixed, least};
use qc_model::Argument;

// No value is left to both.
pub(crate) fn apart(args: &[Argument], view: &View) -> bool
    requires { IsTrue (are_met (seen view.now) args.now) }
    ensures refuted { result ≡ refuted_as Equal (lefts (seen view.now) args.now) }
    ensures entailed { result ≡ entailed_as Different (lefts (seen view.now) args.now) }
{
    let a = arg_met(args, 0, view);
    let b = arg_met(args, 1, view);
    !meet(a, b, view)
}

// Both have one value, the same.
pub(crate) fn same(args: &[Argument], view: &View) -> bool
    requires { IsTrue (are_met (seen view.now) args.now) }
    ensures refuted { result ≡ refuted_as Different (lefts (seen view.now) args.now) }
    ensures entailed { result ≡ entailed_as Equal (lefts (seen view.now) args.now) }
{
    let a = arg_met(args, 0, view);
    let b = arg_met(args, 1, view);
    is_fixed(a, view) && is_fixed(b, view) && least(a, view) == least(b, view)
}

pub(crate) fn at_most_refuted(args: &[Argument], view: &View) -> bool
    requires { IsTrue (are_met (seen view.now) args.now) }
    ensures { result ≡ refuted_as AtMost (lefts (seen view.now) args.now) }
{
    greatest_at(args, 1, view) < least_at(args, 0, view)
}

pub(crate) fn at_most_entailed(args: &[Argument], view: &View) -> bool
    requires { IsTrue (are_met (seen view.now) args.now) }
    ensures { result ≡ entailed_as AtMost (lefts (seen view.now) args.now) }
{
    greatest_at(args, 0, view) <= least_at(args, 1, view)
}

pub(crate) fn below_refuted(args: &[Argument], view: &View) -> bool
    requires { IsTrue (are_met (seen view.now) args.now) }
    ensures { result ≡ refuted_as Below (lefts (seen view.now) args.now) }
{
    greatest_at(args, 1, view) <= least_at(args, 0, view)
}

pub(crate) fn below_entailed(args: &[Argument], view: &View) -> bool
    requires { IsTrue (are_met (seen view.now) args.now) }
    ensures { result ≡ entailed_as Below (lefts (seen view.now) args.now) }
{
    greatest_at(args, 0, view) < least_at(args, 1, view)
}
