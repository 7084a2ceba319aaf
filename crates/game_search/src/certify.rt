//! The certificate within a budget of turns, as a tree.
ghost use Rattle.std.specs.Prelude.{◌≡◌, ◌≤◌, IfOk};
ghost use Rattle.proof_tree.specs.declared.tree.Version.TheVariants.{Two};
ghost use Rattle.proof_tree.specs.Shape.{tree_of};
ghost use Rattle.game_search.specs.Solution.{Solution};

use crate::attempts::solve_flat;
use proof_tree::{Certificate, Version, nesting_is_shallow};
use qc_model::Problem;
use std::alloc::{AllocError, Global};

/// Decides a game within so many turns, from 1 to 10,000,000: the certificate is of the second version, proves its
/// outcome and its optimum, is in order and diligent, keeps its incumbents, means what it says and has a text. The outcome is Open only where all turns are
/// spent and the game can take more. It fails only where memory runs out.
pub fn solve(alloc: Global, problem: &Problem, turns: u64) -> Result<Certificate, AllocError>
    requires some { 1 ≤ turns }
    requires turns { turns ≤ 10000000 }
    ensures solution { IfOk result (λ c. Solution problem.now turns c.outcome c.optimum (tree_of c.root)) }
    ensures version { IfOk result (λ c. c.version ≡ Two) }
{
    problem.known();
    nesting_is_shallow();
    let flat = solve_flat(alloc, problem, turns)?;
    let root = flat.arena.to_tree(alloc)?;
    Ok(Certificate {
        version: Version::Two,
        outcome: flat.outcome,
        optimum: flat.optimum,
        root,
    })
}
