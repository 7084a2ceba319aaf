//! Whether variables have one value left.
ghost use Rattle.std.specs.Prelude.{◌≡◌, ◌≤◌, IsTrue, length, take, drop};
ghost use Rattle.std.specs.List.{list_all};
ghost use Rattle.qc_model.specs.Domains.{is_single as is_single_in, values_left};
ghost use Rattle.model_arguments.specs.Asked.{is_box_of};
ghost use Rattle.proof_tree.specs.Place.{is_fixed as is_fixed_in};

use fd_store::Store;
use model_levels::Level;
use qc_model::VarId;

/// Whether x is a variable, and has one value left.
pub fn is_single(store: &Store, x: VarId) -> bool
    ensures { result ≡ is_single_in (values_left store.now.box x.0) }
{
    if x.0 as usize >= store.count() {
        return false;
    }
    store.is_fixed(x)
}

// Whether each variable from one to the one before another has one value left.
fn are_single(store: &Store, from: usize, stop: usize) -> bool
    requires order { from ≤ stop }
    requires bound { stop ≤ length store.now.box }
    requires few { length store.now.box ≤ 500 }
    ensures { result ≡ list_all is_single_in (drop from (take stop store.now.box)) }
{
    for k in from..stop {
        if !store.is_fixed(VarId(k as u16)) {
            return false;
        }
    }
    true
}

/// Whether each variable of the scope has one value left.
pub fn is_fixed(level: &Level, store: &Store) -> bool
    requires { IsTrue (is_box_of level.now.problem.now store.now.box) }
    ensures { result ≡ is_fixed_in level.now.problem.now level.now.number store.now.box }
{
    level.problem.known();
    are_single(store, level.from, level.stop)
}
