//! The best of the exact leaves of a scope of the player.
ghost use Rattle.std.specs.Prelude.{◌≡◌, ◌++◌, [], ◌∷◌, ℕ, List, ℤ, drop, OnOk, IfOk};
ghost use Rattle.qc_model.specs.Demands.{is_better_vector as is_better_vector_of};
ghost use Rattle.qc_model.specs.Verdict.{exact};
ghost use Rattle.proof_tree.specs.Finding.{Finding, Leaf, leaf_node};
ghost use Rattle.qc_play.specs.Shape.{plan_of};
ghost use Rattle.qc_play.specs.Entries.{KeepsBest, wins_over as wins_over_kept, best_choice as best_choice_of};

use crate::numbers::numbers_of;
use crate::plan::Plan;
use joins::compare;
use qc_model::{Condition, Numbers};
use std::alloc::{AllocError, Global};
use std::cmp::Ordering;

/// A leaf that is exact: its tuple, its vector, and the strategy of its node.
#[derive(Drop)]
pub(crate) struct Best {
    pub(crate) tuple: Numbers,
    pub(crate) vector: Numbers,
    pub(crate) plan: Plan,
}

fn is_better_vector(wishes: &[Condition], v: &[i64], w: &[i64]) -> bool
    ensures { result ≡ is_better_vector_of wishes.now v.now w.now }
{
    compare(wishes, v, w) == Ordering::Less
}

/// Whether a leaf with this vector takes the place of the best one.
fn wins_over(wishes: &[Condition], best: &Option<Best>, vector: &[i64]) -> bool
    ensures { result ≡ wins_over_kept wishes.now best.now vector.now }
{
    match best {
        None => true,
        Some(best) => is_better_vector(wishes, vector, best.vector.items()),
    }
}

/// Takes the leaf in place of the best one, where there is none or its vector is better. So of equal ones the first is
/// kept.
pub(crate) fn keep_best(
    alloc: Global,
    best: &mut Option<Best>,
    wishes: &[Condition],
    tuple: Numbers,
    vector: &[i64],
    plan: Plan,
) -> Result<(), AllocError>
    ensures { OnOk result ((n : ℕ) (ls : List Leaf) (w : List ℤ) (f : Finding) → KeepsBest wishes.now n best.old ls → f.verdict ≡ exact vector.now → tuple ≡ drop n w → plan_of plan ≡ f.strategy → KeepsBest wishes.now n best.new (ls ++ leaf_node w f ∷ [])) }
{
    if wins_over(wishes, best, vector) {
        let vector = numbers_of(alloc, vector)?;
        *best = Some(Best {
            tuple,
            vector,
            plan,
        });
    }
    Ok(())
}

/// The choice of the best leaf, and of none the end.
pub(crate) fn best_choice(alloc: Global, best: Option<Best>) -> Result<Plan, AllocError>
    ensures { IfOk result (λ plan. plan_of plan ≡ best_choice_of best) }
{
    match best {
        None => Ok(Plan::End),
        Some(
            Best {
                tuple,
                vector: _,
                plan,
            },
        ) => Ok(Plan::Choose(tuple, Box::new(alloc, plan)?)),
    }
}
