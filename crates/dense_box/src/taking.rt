//! Takes a tuple of a scope in the box.
ghost use Rattle.std.specs.Prelude.{◌≡◌, ◌≤◌, ◌<◌, true, IsTrue, length, take, drop};
ghost use Rattle.qc_model.specs.Domains.{Box, box_at, has_empty, has_value, is_sub_box, values_left};
ghost use Rattle.model_arguments.specs.Asked.{is_box_of};
ghost use Rattle.fd_store.specs.Held.{Follows};
ghost use Rattle.dense_tree.specs.Tuples.{are_of, is_tuple_of, box_taken};
ghost use Rattle.dense_box.specs.Taking.{taken_from};

use check_box::Remains;
use model_levels::Level;
use qc_model::VarId;

// Leaves x one of its values alone.
fn take_value(remains: &mut Remains, x: VarId, v: i64)
    requires var { x.0 < length remains.old.box }
    requires left { IsTrue (has_value (values_left remains.old.box x.0) v) }
    ensures content { remains.new.box ≡ box_at remains.old.box x.0 v }
    ensures past { Follows remains.old remains.new }
    ensures fewer { (large : Box) → is_sub_box remains.old.box large ≡ true → is_sub_box remains.new.box large ≡ true }
{
    remains.store().known(x);
    remains.keep(x, v, v);
}

// Leaves each variable from one to the one before another its value alone.
fn take_values(remains: &mut Remains, from: usize, stop: usize, values: &[i64])
    requires order { from ≤ stop }
    requires bound { stop ≤ length remains.old.box }
    requires few { length remains.old.box ≤ 500 }
    requires left { IsTrue (are_of (drop from (take stop remains.old.box)) values.now) }
    ensures content { remains.new.box ≡ taken_from from values.now remains.old.box }
    ensures full { has_empty remains.new.box ≡ has_empty remains.old.box }
    ensures past { Follows remains.old remains.new }
    ensures fewer { (large : Box) → is_sub_box remains.old.box large ≡ true → is_sub_box remains.new.box large ≡ true }
{
    for k in 0..values.len() {
        take_value(remains, VarId((from + k) as u16), values[k]);
    }
}

/// Takes a tuple of the scope that is in the box: each variable of the scope keeps its value of the tuple alone.
pub fn take_tuple(level: &Level, remains: &mut Remains, values: &[i64])
    requires declared { IsTrue (is_box_of level.now.problem.now remains.old.box) }
    requires tuple { IsTrue (is_tuple_of level.now.problem.now level.now.number remains.old.box values.now) }
    ensures content { remains.new.box ≡ box_taken level.now.problem.now level.now.number remains.old.box values.now }
    ensures full { has_empty remains.new.box ≡ has_empty remains.old.box }
    ensures past { Follows remains.old remains.new }
    ensures fewer { (large : Box) → is_sub_box remains.old.box large ≡ true → is_sub_box remains.new.box large ≡ true }
{
    level.problem.known();
    take_values(remains, level.from, level.stop, values);
}
