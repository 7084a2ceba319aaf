//! What a store tells of the variables of a scope.
ghost use Rattle.std.specs.Prelude.{◌≡◌, ◌<◌, ◌≤◌, ◌↔◌, false, length, take, drop, IsTrue};
ghost use Rattle.std.specs.List.{list_all};
ghost use Rattle.qc_model.specs.Domains.{box_values, has_empty, is_single, values_left};
ghost use Rattle.model_arguments.specs.Asked.{is_box_of};
ghost use Rattle.search_box.specs.Fresh.{IsFreshFrom};

use fd_store::Store;
use qc_model::{Problem, VarId};

/// The first variable from x to the one before `stop` that has more than one value left, or `stop`.
pub(crate) fn next_unfixed(store: &Store, x: usize, stop: usize) -> usize
    requires order { x ≤ stop }
    requires bound { stop ≤ length store.now.box }
    requires few { length store.now.box ≤ 500 }
    ensures after { x ≤ result }
    ensures within { result ≤ stop }
    ensures fixed { IsTrue (list_all is_single (drop x (take result store.now.box))) }
    ensures free { result < stop → is_single (values_left store.now.box result) ≡ false }
{
    for at in x..stop {
        if !store.is_fixed(VarId(at as u16)) {
            return at;
        }
    }
    stop
}

/// Whether each variable from `from` on has all its declared values left. What is left to one are some of its declared
/// values, so it is enough to count them.
pub(crate) fn are_whole(problem: &Problem, store: &Store, from: usize) -> bool
    requires { IsTrue (is_box_of problem.now store.now.box) }
    ensures { IsTrue result ↔ IsFreshFrom problem.now from store.now.box }
{
    problem.known();
    for at in from..problem.variables() {
        let x = VarId(at as u16);
        if store.size(x) != problem.variable(x).domain.size() {
            return false;
        }
    }
    true
}

/// Reads the least value left to each variable from `from` to the one before `stop` into its place.
pub(crate) fn read_values(store: &Store, from: usize, stop: usize, values: &mut [i64])
    requires order { from ≤ stop }
    requires bound { stop ≤ length store.now.box }
    requires few { length store.now.box ≤ 500 }
    requires full { has_empty store.now.box ≡ false }
    requires each { length values.old ≡ length store.now.box }
    ensures read { take from values.old ≡ box_values (take from store.now.box) → take stop values.new ≡ box_values (take stop store.now.box) }
    ensures kept { take from values.new ≡ take from values.old }
    ensures each { length values.new ≡ length values.old }
{
    for k in from..stop {
        values[k] = store.min(VarId(k as u16));
    }
}
