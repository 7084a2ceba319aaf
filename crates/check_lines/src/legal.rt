//! Whether a removal is legal.
ghost use Rattle.std.specs.Prelude.{◌≡◌, ◌<◌, ◌≤◌, true, None, ℕ, length};
ghost use Rattle.qc_model.specs.Domains.{box_without};
ghost use Rattle.fd_store.specs.Held.{Follows};
ghost use Rattle.model_levels.specs.Spans.{IsSpanOf};
ghost use Rattle.model_arguments.specs.Asked.{is_box_of};
ghost use Rattle.proof_tree.specs.Steps.{is_legal};
ghost use Rattle.proof_tree.specs.declared.tree.Step.TheVariants.{Prune as PruneStep};

use check_box::Remains;
use model_arguments::Span;
use qc_model::{ConId, Problem, VarId};
use qc_refuter::refutes_in;

/// Takes the values of x from lo to hi where that is legal by the constraint c, one of the span, and says whether it is.
#[inline(always)]
pub(crate) fn prune(
    problem: &Problem,
    remains: &mut Remains,
    span: Span,
    x: VarId,
    lo: i64,
    hi: i64,
    c: ConId,
) -> bool
    requires declared { is_box_of problem.now remains.old.box ≡ true }
    requires span { span.end ≤ length problem.now.constraints }
    ensures legal { (i stop : ℕ) → IsSpanOf problem.now i stop span.first span.end → result ≡ is_legal problem.now i stop None (PruneStep x lo hi c) remains.old.box }
    ensures content { result ≡ true → remains.new.box ≡ box_without remains.old.box x.0 lo hi }
    ensures past { Follows remains.old remains.new }
    ensures declared { is_box_of problem.now remains.new.box ≡ true }
{
    if !is_legal_prune(problem, remains, span, x, lo, hi, c) {
        return false;
    }
    remains.cut(x, lo, hi);
    true
}

/// Whether each variable has a value, x has some from lo to hi, and the constraint c, one of the span, refutes the box in
/// which x keeps these alone.
#[inline(always)]
fn is_legal_prune(
    problem: &Problem,
    remains: &Remains,
    span: Span,
    x: VarId,
    lo: i64,
    hi: i64,
    c: ConId,
) -> bool
    requires declared { is_box_of problem.now remains.now.box ≡ true }
    requires span { span.end ≤ length problem.now.constraints }
    ensures legal { (i stop : ℕ) → IsSpanOf problem.now i stop span.first span.end → result ≡ is_legal problem.now i stop None (PruneStep x lo hi c) remains.now.box }
    ensures place { result ≡ true → x.0 < length remains.now.box }
{
    problem.known();
    if remains.is_empty() {
        return false;
    }
    if !remains.has_within(x, lo, hi) {
        return false;
    }
    let number = c.0 as usize;
    if number < span.first {
        return false;
    }
    if span.end <= number {
        return false;
    }
    refutes_in(problem, c, remains.store(), x, lo, hi)
}
