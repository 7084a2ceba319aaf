//! Two numbers that are to be equal.
ghost use Rattle.std.specs.Prelude.{ℕ, Bool, IsTrue};
ghost use Rattle.qc_model.specs.Domains.{misses};
ghost use Rattle.model_arguments.specs.Written.{arg_at};
ghost use Rattle.qc_refuter.specs.Met.{are_met};
ghost use Rattle.dense_quiet.specs.Quiet.{SparesTwo};

use crate::reading::{arg_met, ends_of};
use fd_store::Store;
use qc_model::Argument;

/// Whether both have the same ends left, so that neither what is left to them nor any end is refuted.
pub(crate) fn is_quiet_equality(args: &[Argument], store: &Store) -> bool
    requires { IsTrue (are_met store.now.box args.now) }
    ensures { IsTrue result → (ok : ℕ → Bool) → SparesTwo misses ok (arg_at args.now 0) (arg_at args.now 1) store.now.box }
{
    let x = arg_met(args, 0, store);
    let y = arg_met(args, 1, store);
    let a = ends_of(x, store);
    let b = ends_of(y, store);
    if a.least != b.least {
        return false;
    }
    a.greatest == b.greatest
}
