//! One filter, asked and undone.
ghost use Rattle.std.specs.Prelude.{◌≡◌, ◌<◌, length, IsTrue, IsFalse};
ghost use Rattle.qc_model.specs.Domains.{has_empty};
ghost use Rattle.model_arguments.specs.Asked.{is_box_of};
ghost use Rattle.fd_store.specs.Held.{Follows};

use fd_store::Store;
use proof_tree::StepList;
use prop_engine::Filter;
use prop_families::Families;
use qc_model::{ConId, Problem};
use std::alloc::{AllocError, Global};

/// Appends the steps of the constraint's filter, and brings the store back to where it was.
pub(crate) fn filtered(
    alloc: Global,
    problem: &Problem,
    c: ConId,
    store: &mut Store,
    steps: &mut StepList,
) -> Result<(), AllocError>
    requires c { c.0 < length problem.now.constraints }
    requires declared { IsTrue (is_box_of problem.now store.old.box) }
    requires full { IsFalse (has_empty store.old.box) }
    ensures content { store.new.box ≡ store.old.box }
    ensures past { store.new.past ≡ store.old.past }
{
    let mark = store.mark();
    let answer = ask(alloc, problem, c, store, steps);
    store.undo_to(mark);
    answer
}

fn ask(
    alloc: Global,
    problem: &Problem,
    c: ConId,
    store: &mut Store,
    steps: &mut StepList,
) -> Result<(), AllocError>
    requires c { c.0 < length problem.now.constraints }
    requires declared { IsTrue (is_box_of problem.now store.old.box) }
    requires full { IsFalse (has_empty store.old.box) }
    ensures follows { Follows store.old store.new }
{
    problem.known();
    let _ = problem.constraint(c);
    let families = Families {};
    let _answer = families.filter(alloc, problem, c, store, steps)?;
    Ok(())
}
