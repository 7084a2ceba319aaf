//! The allowed tuples of a scope, variable by variable.
ghost use Rattle.std.specs.Prelude.{◌≡◌, ◌<◌, ◌≤◌, ◌+◌, ◌++◌, ◌∷◌, [], length, OnOk, IsTrue};
ghost use Rattle.qc_model.specs.Domains.{declared_box, has_value, values_left};
ghost use Rattle.tell_moves.specs.Found.{found, domains_to};
ghost use Rattle.tell_moves.specs.Puts.{state_of, puts};
ghost use Rattle.tell_moves.specs.Stands.{StandsIn, IsBack};

use crate::listing::{Listing, put};
use crate::refuting::is_refuted;
use check_box::Remains;
use model_levels::{Level, all_hold};
use qc_model::VarId;
use std::alloc::AllocError;

/// The least value of a variable, or below it.
const LEAST: i64 = -1_000_000_000;

/// Where a search stands: what is left to each variable, the values of the first of them, and what was found.
#[derive(Drop)]
pub(crate) struct Walk {
    pub(crate) remains: Remains,
    pub(crate) values: Vec<i64>,
    pub(crate) listing: Listing,
}

/// Lists the allowed tuples that begin with the values.
#[cycle(search)]
pub(crate) fn list(level: &Level, walk: &mut Walk) -> Result<(), AllocError>
    requires stands { StandsIn level.now.problem.now walk.old.values.items walk.old.remains.box }
    requires from { level.now.from ≤ length walk.old.values.items }
    requires to { length walk.old.values.items ≤ level.now.stop }
    ensures listed { OnOk result (state_of walk.new.listing ≡ puts (state_of walk.old.listing) (found level.now.problem.now level.now.number level.now.from walk.old.values.items (domains_to level.now.problem.now (length walk.old.values.items) level.now.stop))) }
    ensures back { OnOk result (IsBack walk.old walk.new) }
{
    if walk.values.len() == level.stop {
        list_tuple(level, walk)
    } else {
        list_values(level, walk)
    }
}

// Lists the tuple, where it is allowed.
fn list_tuple(level: &Level, walk: &mut Walk) -> Result<(), AllocError>
    requires stands { StandsIn level.now.problem.now walk.old.values.items walk.old.remains.box }
    requires from { level.now.from ≤ length walk.old.values.items }
    ensures listed { OnOk result (state_of walk.new.listing ≡ puts (state_of walk.old.listing) (found level.now.problem.now level.now.number level.now.from walk.old.values.items [])) }
    ensures back { OnOk result (IsBack walk.old walk.new) }
{
    level.problem.known();
    let Walk {
        remains: _,
        values,
        listing,
    } = walk;
    if !all_hold(level.problem, level.rules, values.as_slice()) {
        return Ok(());
    }
    put(listing, &values[level.from..])
}

// Goes over the values of the next variable.
#[cycle(search)]
fn list_values(level: &Level, walk: &mut Walk) -> Result<(), AllocError>
    requires stands { StandsIn level.now.problem.now walk.old.values.items walk.old.remains.box }
    requires from { level.now.from ≤ length walk.old.values.items }
    requires to { length walk.old.values.items < level.now.stop }
    ensures listed { OnOk result (state_of walk.new.listing ≡ puts (state_of walk.old.listing) (found level.now.problem.now level.now.number level.now.from walk.old.values.items (domains_to level.now.problem.now (length walk.old.values.items) level.now.stop))) }
    ensures back { OnOk result (IsBack walk.old walk.new) }
{
    level.problem.known();
    let x = VarId(walk.values.len() as u16);
    let mut at = LEAST;
    while let Some(v) = walk.remains.store().next(x, at) {
        if walk.listing.more {
            return Ok(());
        }
        list_value(level, v, walk)?;
        at = v + 1;
    }
    Ok(())
}

// The tuples in which the next variable has the value v.
#[cycle(search)]
fn list_value(level: &Level, v: i64, walk: &mut Walk) -> Result<(), AllocError>
    requires stands { StandsIn level.now.problem.now walk.old.values.items walk.old.remains.box }
    requires from { level.now.from ≤ length walk.old.values.items }
    requires to { length walk.old.values.items < level.now.stop }
    requires left { IsTrue (has_value (values_left (declared_box level.now.problem.now) (length walk.old.values.items)) v) }
    ensures listed { OnOk result (state_of walk.new.listing ≡ puts (state_of walk.old.listing) (found level.now.problem.now level.now.number level.now.from (walk.old.values.items ++ v ∷ []) (domains_to level.now.problem.now (length walk.old.values.items + 1) level.now.stop))) }
    ensures back { OnOk result (IsBack walk.old walk.new) }
{
    level.problem.known();
    let x = VarId(walk.values.len() as u16);
    if is_refuted(level.problem, level.rules, walk.remains.store(), x, v) {
        return Ok(());
    }
    let mark = walk.remains.mark();
    walk.remains.keep(x, v, v);
    walk.values.push(v)?;
    list(level, walk)?;
    let _last = walk.values.pop();
    walk.remains.undo_to(mark);
    Ok(())
}
