//! What the disjunction of some literals comes to.
ghost use Rattle.std.specs.Prelude.{◌≡◌, ◌≤◌, ◌+◌, ◌++◌, ◌∷◌, [], IsTrue, List, length};
ghost use Rattle.std.specs.List.{list_all};
ghost use Rattle.prop_bool.specs.Findings.{StandsAny};
ghost use Rattle.prop_bool.specs.Literals.{is_opposed, is_truth_at, literals};
ghost use Rattle.prop_bool.specs.declared.literals.Literal.{Literal};

use crate::literals::{Literal, Standing, literal_at, standing_of};
use fd_store::Store;
use model_arguments::is_among;
use qc_model::Arg;

// With one literal more.
fn with_another(outcome: Standing, literal: Literal, store: &Store) -> Standing
    requires { IsTrue (is_truth_at store.now.box literal) }
    ensures { (ls : List Literal) → StandsAny outcome store.now.box ls → StandsAny result store.now.box (ls ++ literal ∷ []) }
{
    match standing_of(literal, store) {
        Standing::Holds => Standing::Holds,
        Standing::Fails => outcome,
        Standing::Unfixed => match outcome {
            Standing::Holds => Standing::Holds,
            Standing::Fails => Standing::Unfixed,
            Standing::Unfixed => Standing::Unfixed,
        },
    }
}

/// Whether some literal holds, or all fail. The look stops at a literal that holds.
pub(crate) fn outcome_of(plain: &[Arg], negated: &[Arg], store: &Store) -> Standing
    requires few { length plain.now + length negated.now ≤ 2000 }
    requires truths { IsTrue (list_all (is_truth_at store.now.box) (literals plain.now negated.now)) }
    ensures { StandsAny result store.now.box (literals plain.now negated.now) }
{
    let mut outcome = Standing::Fails;
    for k in 0..plain.len() + negated.len() {
        let literal = literal_at(plain, negated, k);
        outcome = with_another(outcome, literal, store);
        if let Standing::Holds = outcome {
            return Standing::Holds;
        }
    }
    outcome
}

/// Whether the variable of the head stands among the literals as its negation.
pub(crate) fn is_opposed_by(plain: &[Arg], negated: &[Arg], head: Literal) -> bool
    ensures { result ≡ is_opposed plain.now negated.now head }
{
    if head.positive {
        is_among(head.arg, negated)
    } else {
        is_among(head.arg, plain)
    }
}
