//! The variables that are named, and what they keep.
ghost use Rattle.std.specs.Prelude.{◌≡◌, ◌<◌, length, Some, None, IfOk, IfSome};
ghost use Rattle.std.specs.Option.{option_map};
ghost use Rattle.game_search.specs.Pieces.{AreKeeps};
ghost use Rattle.part_commands.specs.Pieces.{place_from, place_named, keep_at, keeps_of, first_unknown as first_unknown_of};
ghost use Rattle.part_commands.specs.View.{kept_seen, keeps_seen, AreRanges};

use crate::words::Kept;
use game_search::Keep;
use qc_model::{Problem, VarId, Variable};
use std::alloc::{AllocError, Global};

/// The first name for which the problem has no variable.
pub(crate) fn first_unknown<'a>(problem: &Problem, keeps: &[Kept<'a>]) -> Option<&'a str>
    ensures { option_map (λ name. name.now) result ≡ first_unknown_of problem.now (keeps_seen keeps.now) }
{
    for kept in keeps {
        if place_of(problem, kept.name).is_none() {
            return Some(kept.name);
        }
    }
    None
}

/// What the variables of these names keep, which are all there.
pub(crate) fn named_keeps(
    alloc: Global,
    problem: &Problem,
    keeps: &[Kept<'_>],
) -> Result<Vec<Keep>, AllocError>
    requires ranges { AreRanges keeps.now }
    requires known { first_unknown_of problem.now (keeps_seen keeps.now) ≡ None }
    ensures named { IfOk result (λ found. keeps_of problem.now (keeps_seen keeps.now) ≡ Some found.items) }
    ensures kept { IfOk result (λ found. AreKeeps problem.now found.items) }
{
    find_keeps(alloc, problem, keeps)
}

fn find_keeps(alloc: Global, problem: &Problem, keeps: &[Kept<'_>]) -> Result<Vec<Keep>, AllocError>
    requires known { first_unknown_of problem.now (keeps_seen keeps.now) ≡ None }
    ensures named { IfOk result (λ found. keeps_of problem.now (keeps_seen keeps.now) ≡ Some found.items) }
{
    let mut found = Vec::new(alloc);
    for kept in keeps {
        match keep_of(problem, kept) {
            Some(keep) => found.push(keep)?,
            None => unreachable!(),
        }
    }
    Ok(found)
}

fn keep_of(problem: &Problem, kept: &Kept<'_>) -> Option<Keep>
    ensures { result ≡ keep_at (place_named problem.now kept.now.name.now) (kept_seen kept.now) }
{
    match place_of(problem, kept.name) {
        Some(x) => Some(Keep {
            x,
            lo: kept.lo,
            hi: kept.hi,
        }),
        None => None,
    }
}

// The variable of this name.
fn place_of(problem: &Problem, name: &str) -> Option<VarId>
    ensures { option_map (λ x. x.0) result ≡ place_named problem.now name.now }
{
    problem.known();
    match place_in(problem.all_variables(), name) {
        Some(place) => Some(VarId(place as u16)),
        None => None,
    }
}

// The place of the first variable of this name.
fn place_in(variables: &[Variable], name: &str) -> Option<usize>
    ensures place { result ≡ place_from 0 variables.now name.now }
    ensures bound { IfSome result (λ place. place < length variables.now) }
{
    for (k, variable) in variables.iter().enumerate() {
        if variable.name.text() == name {
            return Some(k);
        }
    }
    None
}
