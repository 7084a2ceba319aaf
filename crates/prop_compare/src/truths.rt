//! Truth values of the argument that tells.
ghost use Rattle.std.specs.Prelude.{◌≡◌, [], ◌∷◌, IsTrue, IsFalse, IfNone, IfSome};
ghost use Rattle.std.specs.List.{list_all};
ghost use Rattle.qc_model.specs.declared.problem.Arg.TheVariants.{Var};
ghost use Rattle.qc_model.specs.Domains.{is_single, values_left};
ghost use Rattle.qc_model.specs.Refuted.{left_to};
ghost use Rattle.qc_model.specs.Valid.{is_truth};
ghost use Rattle.qc_refuter.specs.Met.{is_open};
ghost use Rattle.prop_compare.specs.Telling.{truth_of};

use crate::reading::{is_fixed, least};
use fd_store::Store;
use prop_base::Cut;
use qc_model::{Arg, VarId};

/// The variable, where the argument is one that has more than one value left.
pub fn loose(r: Arg, store: &Store) -> Option<VarId>
    requires { IsTrue (is_open store.now.box r) }
    ensures none { IfNone result (IsTrue (is_single (left_to store.now.box r))) }
    ensures variable { IfSome result (λ x. r ≡ Var x) }
    ensures some { IfSome result (λ x. IsFalse (is_single (values_left store.now.box x.0))) }
{
    match r {
        Arg::Num(_) => None,
        Arg::Var(x) => { if store.is_fixed(x) { None } else { Some(x) } }
    }
}

/// What an argument with truth values tells, once one is left. None comes exactly while both are.
pub fn what_is_told(r: Arg, store: &Store) -> Option<bool>
    requires open { IsTrue (is_open store.now.box r) }
    requires truths { IsTrue (list_all is_truth (left_to store.now.box r)) }
    ensures none { IfNone result (IsFalse (is_single (left_to store.now.box r))) }
    ensures some { IfSome result (λ t. left_to store.now.box r ≡ truth_of t ∷ []) }
{
    if is_fixed(r, store) {
        Some(least(r, store) > 0)
    } else {
        None
    }
}

/// One truth value of x.
pub(crate) fn truth_cut(x: VarId, told: bool) -> Cut
    ensures { result ≡ record { x = x; lo = truth_of told; hi = truth_of told } }
{
    if told {
        Cut { x, lo: 1, hi: 1 }
    } else {
        Cut { x, lo: 0, hi: 0 }
    }
}
