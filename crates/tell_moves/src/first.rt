//! The first allowed tuples of a scope.
ghost use Rattle.std.specs.Prelude.{◌≡◌, ◌<◌, [], length, take, nat_lt, IfOk, OnOk};
ghost use Rattle.qc_model.specs.Domains.{InBox, declared_box};
ghost use Rattle.qc_model.specs.Game.{before, moves};
ghost use Rattle.tell_moves.specs.Lines.{lines_of};
ghost use Rattle.tell_moves.specs.Stands.{StandsIn, IsBefore};

use crate::listing::Listing;
use crate::search::{Walk, list};
use check_box::Remains;
use model_levels::Levels;
use qc_model::{Problem, ScopeId, VarId};
use std::alloc::{AllocError, Global};

/// The first of the allowed tuples of a scope after the values of the variables before it, in ascending order, at most so
/// many, and whether there are more. It takes memory for what is left to each variable and for what is listed.
pub fn first_moves(
    alloc: Global,
    problem: &Problem,
    scope: ScopeId,
    values: &[i64],
    most: usize,
) -> Result<Listing, AllocError>
    requires { IsBefore problem.now scope.0 values.now }
    ensures lines { IfOk result (λ l. l.text.items ≡ lines_of (take most (moves problem.now scope.0 values.now))) }
    ensures more { IfOk result (λ l. l.more ≡ nat_lt most (length (moves problem.now scope.0 values.now))) }
{
    problem.known();
    let levels = Levels::new(alloc, problem)?;
    let mut walk = Walk {
        remains: Remains::new(alloc, problem)?,
        values: Vec::with_capacity(alloc, problem.variables())?,
        listing: Listing::new(alloc, most),
    };
    stand(problem, values, &mut walk)?;
    list(levels.level(scope), &mut walk)?;
    let Walk {
        remains: _,
        values: _,
        listing,
    } = walk;
    Ok(listing)
}

// Leaves the first variables these values.
fn stand(problem: &Problem, values: &[i64], walk: &mut Walk) -> Result<(), AllocError>
    requires declared { InBox values.now (declared_box problem.now) }
    requires begun { StandsIn problem.now [] walk.old.remains.box }
    requires none { walk.old.values.items ≡ [] }
    ensures stands { OnOk result (StandsIn problem.now values.now walk.new.remains.box) }
    ensures values { OnOk result (walk.new.values.items ≡ values.now) }
    ensures listing { walk.new.listing ≡ walk.old.listing }
{
    problem.known();
    for k in 0..values.len() {
        let value = values[k];
        walk.remains.keep(VarId(k as u16), value, value);
        walk.values.push(value)?;
    }
    Ok(())
}
