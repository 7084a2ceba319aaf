//! More than a problem may have.
ghost use Rattle.std.specs.Prelude.{◌≡◌, ◌≤◌, ◌||◌, Bool, filter, length, map, not, nat_lt, slice_get};
ghost use Rattle.qdimacs.specs.Refusals.{first_place, is_long as is_long_of, clause_place as clause_place_of, long_clause as long_clause_of, sets_left as sets_left_of, set_place as set_place_of, great_count as great_count_of, great_part as great_part_of};

use crate::tree::{ClauseText, FileText, LiteralText, NumberText, SetText};

fn positives(literals: &[LiteralText]) -> usize
    ensures { result ≡ length (filter (λ l. l.positive) literals.now) }
{
    literals.iter().filter(|literal| literal.positive).count()
}

fn negatives(literals: &[LiteralText]) -> usize
    ensures { result ≡ length (filter (λ l. not l.positive) literals.now) }
{
    literals.iter().filter(|literal| !literal.positive).count()
}

fn is_long(literals: &[LiteralText]) -> bool
    ensures { result ≡ is_long_of literals.now }
{
    1_000 < positives(literals) || 1_000 < negatives(literals)
}

fn clause_place(clause: &ClauseText) -> u32
    ensures { result ≡ clause_place_of clause.now.literals clause.now.end }
{
    match clause.literals.items().split_first() {
        Some((first, _)) => first.at,
        None => clause.end,
    }
}

fn first_long(clauses: &[ClauseText]) -> Option<u32>
    ensures { result ≡ first_place long_clause_of clauses.now }
{
    for clause in clauses {
        if is_long(clause.literals.items()) {
            return Some(clause_place(clause));
        }
    }
    None
}

fn sets_left(free: &[NumberText]) -> usize
    ensures { result ≡ sets_left_of (map (λ n. n.value) free.now) }
{
    match free.split_first() {
        Some(_) => 63,
        None => 64,
    }
}

fn set_place(sets: &[SetText], place: usize) -> Option<u32>
    ensures { result ≡ set_place_of (slice_get sets.now place) }
{
    match sets.get(place) {
        Some(set) => Some(set.at),
        None => None,
    }
}

/// The first count, where it is above 500, or else the second, where it is above 20,000.
pub(crate) fn great_count(file: &FileText) -> Option<u32>
    ensures { result ≡ great_count_of file.now }
{
    if 500 < file.variables.value {
        return Some(file.variables.at);
    }
    if 20_000 < file.clauses.value {
        return Some(file.clauses.at);
    }
    None
}

/// The quantifier of the 65th scope, with a scope of these first variables where there are any; or else
/// the first token of the first clause with more than 1,000 literals of one sign.
pub(crate) fn great_part(file: &FileText, free: &[NumberText]) -> Option<u32>
    ensures { result ≡ great_part_of file.now (map (λ n. n.value) free.now) }
{
    match set_place(file.sets.as_slice(), sets_left(free)) {
        Some(at) => Some(at),
        None => first_long(file.body.as_slice()),
    }
}
