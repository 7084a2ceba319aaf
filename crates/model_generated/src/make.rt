//! The problem of a number.
ghost use Rattle.std.specs.Prelude.{◌≡◌, ◌≤◌, IfOk};
ghost use Rattle.model_generated.specs.Pricing.{generated_game};

use crate::draft::make_draft;
use qc_model::{Problem, build};
use std::alloc::{AllocError, Global};

/// The problem of a number up to 1,000,000: eleven variables in three scopes, and six constraints.
pub fn generated(alloc: Global, n: u32) -> Result<Problem, AllocError>
    requires { n ≤ 1000000 }
    ensures { IfOk result (λ problem. problem ≡ generated_game n) }
{
    match build(make_draft(alloc, n)?) {
        Some(problem) => Ok(problem),
        // Each such draft is valid.
        None => unreachable!(),
    }
}
