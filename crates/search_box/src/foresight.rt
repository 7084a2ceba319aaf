//! The closing that a look ahead did, kept so that it needn't be done again.
ghost use Rattle.std.specs.Prelude.{◌≡◌, ◌≤◌, true, false, length, IfOk, IsTrue};
ghost use Rattle.qc_model.specs.Domains.{has_empty};
ghost use Rattle.model_arguments.specs.Asked.{is_box_of};
ghost use Rattle.prop_engine.specs.Closing.{EachRule, is_between};
ghost use Rattle.prop_engine.specs.Watching.{IsReady};
ghost use Rattle.fd_store.specs.Held.{trail_len};
ghost use Rattle.search_box.specs.Foreseen.{IsForeseen};

use fd_store::{Mark, Store};
use model_arguments::Span;
use proof_tree::StepList;
use prop_engine::{Closed, Engine, Filter};
use qc_model::Problem;
use std::alloc::{AllocError, Global};

/// How the box at a mark was closed for the constraints of a span.
#[derive(Drop)]
pub(crate) struct Foresight {
    /// Whether it was, with a value left to each variable.
    pub(crate) known: bool,
    pub(crate) mark: Mark,
    pub(crate) span: Span,
    /// The removals by which it was.
    pub(crate) steps: StepList,
}

/// Nothing was closed yet.
pub(crate) fn nothing_foreseen(alloc: Global) -> Foresight
    ensures { result.known ≡ false }
{
    Foresight {
        known: false,
        mark: Mark { at: 0 },
        span: Span { first: 0, end: 0 },
        steps: StepList::new(alloc),
    }
}

/// Whether it is of the box as it is, and of this span.
pub(crate) fn is_foreseen(foresight: &Foresight, span: Span, store: &Store) -> bool
    ensures known { IsTrue result → IsTrue foresight.now.known }
    ensures here { IsTrue result → foresight.now.mark.at ≡ trail_len store.now }
    ensures first { IsTrue result → foresight.now.span.first ≡ span.first }
    ensures end { IsTrue result → foresight.now.span.end ≡ span.end }
{
    if !foresight.known {
        return false;
    }
    if foresight.mark.at != store.mark().at {
        return false;
    }
    if foresight.span.first != span.first {
        return false;
    }
    foresight.span.end == span.end
}

/// Gives it up where the box is undone to a mark before it.
pub(crate) fn forget_after(foresight: &mut Foresight, mark: Mark)
    ensures same { IsTrue foresight.new.known → foresight.new ≡ foresight.old }
    ensures before { IsTrue foresight.new.known → foresight.new.mark.at ≤ mark.at }
{
    if mark.at < foresight.mark.at {
        foresight.known = false;
    }
}

/// Closes the box for the constraints of the span, keeps how, and undoes that. It says whether each variable has a value left.
pub(crate) fn foresee<F: Filter>(
    filter: &F,
    alloc: Global,
    problem: &Problem,
    engine: &mut Engine,
    span: Span,
    store: &mut Store,
    foresight: &mut Foresight,
) -> Result<bool, AllocError>
    requires ready { IsReady problem.now engine.old }
    requires span { span.end ≤ length problem.now.constraints }
    requires known { EachRule (is_between span.first span.end) problem.now F.knows }
    requires declared { is_box_of problem.now store.old.box ≡ true }
    requires full { has_empty store.old.box ≡ false }
    ensures ready { IsReady problem.now engine.new }
    ensures content { store.new.box ≡ store.old.box }
    ensures past { store.new.past ≡ store.old.past }
    ensures seen { IfOk result (λ ok. IsTrue ok → IsTrue foresight.new.known) }
    ensures foreseen { IsTrue foresight.new.known → IsForeseen problem.now store.new foresight.new }
    ensures span { foresight.new.span ≡ span }
    ensures here { foresight.new.mark.at ≡ trail_len store.new }
{
    foresight.known = false;
    foresight.steps.clear();
    let mark = store.mark();
    foresight.mark = mark;
    foresight.span = span;
    let closed = engine.close_span(filter, alloc, problem, span, store, &mut foresight.steps);
    store.undo_to(mark);
    match closed? {
        Closed::Open => {
            foresight.known = true;
            Ok(true)
        }
        Closed::Empty => Ok(false),
    }
}
