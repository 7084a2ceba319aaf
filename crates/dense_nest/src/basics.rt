//! What the machine asks of its problem and of its box.
ghost use Rattle.std.specs.Prelude.{◌≡◌, ◌≤◌, ◌<◌, ◌+◌, ◌++◌, ◌∷◌, ◌||◌, [], List, Some, ℤ, length, take, not, true, false, IfOk};
ghost use Rattle.std.specs.List.{list_all};
ghost use Rattle.qc_model.specs.Domains.{box_values, has_empty};
ghost use Rattle.qc_model.specs.Game.{before};
ghost use Rattle.qc_model.specs.Valid.{is_number};
ghost use Rattle.qc_model.specs.Verdict.{at_most, first_value, is_lost, Seen};
ghost use Rattle.joins.specs.Seen.{verdict_of};
ghost use Rattle.joins.specs.Sizes.{IsSized};
ghost use Rattle.dense_tree.specs.Verdicts.{best_of};
ghost use Rattle.dense_nest.specs.Tallies.{best_held, is_mixed};

use crate::told::Told;
use fd_store::Store;
use joins::Found;
use model_levels::Levels;
use qc_model::{Condition, ScopeId, Sense, VarId};
use std::alloc::{AllocError, Global};

/// What a size counts as one: the greatest value of a variable.
const VALUE: u64 = 1_000_000_000;

/// How many of them can be added up in 64 bits.
const MOST: u64 = 4_294_967_296;

/// The least value of a variable.
pub(crate) const LEAST: i64 = -1_000_000_000;

/// How many variables stand before scope i, or before the goal.
pub(crate) fn count_before(levels: &Levels, number: u8) -> usize
    requires { number ≤ length levels.now.problem.now.scopes }
    ensures { result ≡ before levels.now.problem.now number }
{
    if (number as usize) < levels.problem.scopes() {
        levels.level(ScopeId(number)).from
    } else {
        levels.problem.variables()
    }
}

/// Writes the least value left to each of the first variables.
pub(crate) fn write_position(store: &Store, count: usize, values: &mut [i64])
    requires few { length store.now.box ≤ 500 }
    requires full { has_empty store.now.box ≡ false }
    requires count { count ≤ length store.now.box }
    requires room { length values.old ≡ length store.now.box }
    requires numbers { list_all is_number values.old ≡ true }
    ensures written { take count values.new ≡ box_values (take count store.now.box) }
    ensures room { length values.new ≡ length values.old }
    ensures numbers { list_all is_number values.new ≡ true }
{
    for k in 0..count {
        store.known(VarId(k as u16));
        values[k] = store.min(VarId(k as u16));
    }
}

fn size_of_number(n: i64) -> u64
    ensures sized { IsSized result (at_most n) }
    ensures some { 1 ≤ result }
{
    n.unsigned_abs() / VALUE + 1
}

/// How many values of variables the numbers of a verdict are as large as, at most.
pub(crate) fn size_of(found: Found, vector: &[i64]) -> u64
    ensures sized { IsSized result (verdict_of found vector.now) }
    ensures some { 1 ≤ result }
{
    match found {
        Found::Lost => 1,
        Found::Unknown => 1,
        Found::AtMost(n) => size_of_number(n),
        Found::Exact => {
            let mut most = 1;
            for n in vector {
                most = most.max(size_of_number(*n));
            }
            most
        }
    }
}

/// Whether a leaf is neither lost nor barred, or a mark is there, with a node that has come to what was found.
pub(crate) fn mixed_with(mixed: bool, found: Found) -> bool
    ensures { (v : List ℤ) → result ≡ (mixed || not (is_lost (verdict_of found v))) }
{
    match found {
        Found::Lost => mixed,
        Found::Exact => true,
        Found::AtMost(_) => true,
        Found::Unknown => true,
    }
}

/// The first of the values of a vector, or 0.
pub(crate) fn first_of(vector: &[i64]) -> i64
    ensures { result ≡ first_value vector.now }
{
    match vector.first() {
        None => 0,
        Some(value) => *value,
    }
}

/// What a scope comes to whose leaves only leave a best value to what is demanded first, unless others are there.
pub(crate) fn bounded_by(list: &[Condition], best: i64, mixed: bool) -> Found
    ensures { (v : List ℤ) (seen : List Seen) (bests : List ℤ) → Some best ≡ best_held list.now bests → mixed ≡ is_mixed seen → verdict_of result v ≡ best_of list.now seen bests }
{
    if mixed {
        return Found::Unknown;
    }
    match list.first() {
        None => Found::Unknown,
        Some(_) => Found::AtMost(best),
    }
}

/// How large numbers may be together, in values of variables. It fails where 64 bits don't hold the sum of so many.
pub(crate) fn together(one: u64, other: u64) -> Result<u64, AllocError>
    ensures { IfOk result (λ n. (n ≡ one + other) × (n ≤ 4294967296)) }
{
    let sum = one.saturating_add(other);
    if sum > MOST {
        return Err(AllocError);
    }
    Ok(sum)
}

/// What was found, with its vector where it is exact. It fails only where memory runs out.
pub(crate) fn told_of(alloc: Global, found: Found, vector: &[i64]) -> Result<Told, AllocError>
    ensures { IfOk result (λ t. verdict_of t.found t.vector.items ≡ verdict_of found vector.now) }
{
    let mut kept = Vec::new(alloc);
    if found == Found::Exact {
        kept.extend_from_slice(vector)?;
    }
    Ok(Told {
        found,
        vector: kept,
    })
}

/// The better of two values by what is demanded first, where there is one already.
pub(crate) fn better_of(list: &[Condition], held: Option<i64>, value: i64) -> i64
    ensures { (values : List ℤ) → held ≡ best_held list.now values → Some result ≡ best_held list.now (values ++ value ∷ []) }
{
    let Some(best) = held else {
        return value;
    };
    match list.first() {
        None => best,
        Some(first) => match first.sense {
            Sense::Min => best.min(value),
            Sense::Max => best.max(value),
        },
    }
}
