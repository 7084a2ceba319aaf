//! Values read from variables that have one left.
ghost use Rattle.std.specs.Prelude.{◌≡◌, ◌≤◌, true, length, map, take, drop};
ghost use Rattle.std.specs.List.{list_all};
ghost use Rattle.qc_model.specs.Domains.{is_single};
ghost use Rattle.qc_model.specs.Valid.{is_number};
ghost use Rattle.check_box.specs.Placed.{only};

use fd_store::Store;
use qc_model::VarId;

/// Reads the one value left to each variable from `from` to the one before `stop` into its place. Those before stand
/// there already, and those from `stop` on stay.
pub fn read_values(store: &Store, from: usize, stop: usize, values: &mut [i64])
    requires order { from ≤ stop }
    requires bound { stop ≤ length store.now.box }
    requires few { length store.now.box ≤ 500 }
    requires each { length values.old ≡ length store.now.box }
    requires fixed { list_all is_single (drop from (take stop store.now.box)) ≡ true }
    requires placed { take from store.now.box ≡ map only (take from values.old) }
    requires numbers { list_all is_number values.old ≡ true }
    ensures read { take stop store.now.box ≡ map only (take stop values.new) }
    ensures kept { take from values.new ≡ take from values.old }
    ensures later { drop stop values.new ≡ drop stop values.old }
    ensures each { length values.new ≡ length values.old }
    ensures numbers { list_all is_number values.new ≡ true }
{
    for k in from..stop {
        let x = VarId(k as u16);
        store.known(x);
        values[k] = store.min(x);
    }
}
