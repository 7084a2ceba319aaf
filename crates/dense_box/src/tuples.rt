//! Whether values are a tuple of a scope.
ghost use Rattle.std.specs.Prelude.{◌≡◌, ◌≤◌, IsTrue, length, take, drop};
ghost use Rattle.model_arguments.specs.Asked.{is_box_of};
ghost use Rattle.dense_tree.specs.Tuples.{are_of, is_tuple_of};

use fd_store::Store;
use model_levels::Level;
use qc_model::VarId;

// Whether there is one value for each variable from one to the one before another, among those left to it.
fn are_left(store: &Store, from: usize, stop: usize, values: &[i64]) -> bool
    requires order { from ≤ stop }
    requires bound { stop ≤ length store.now.box }
    requires few { length store.now.box ≤ 500 }
    ensures { result ≡ are_of (drop from (take stop store.now.box)) values.now }
{
    if values.len() != stop - from {
        return false;
    }
    for k in 0..values.len() {
        if !store.has(VarId((from + k) as u16), values[k]) {
            return false;
        }
    }
    true
}

/// Whether the values are a tuple of the scope, in the box: one for each of its variables, left to it.
pub fn is_tuple(level: &Level, store: &Store, values: &[i64]) -> bool
    requires { IsTrue (is_box_of level.now.problem.now store.now.box) }
    ensures { result ≡ is_tuple_of level.now.problem.now level.now.number store.now.box values.now }
{
    level.problem.known();
    are_left(store, level.from, level.stop, values)
}
