//! Variables out of range.
ghost use Rattle.std.specs.Prelude.{◌≡◌};
ghost use Rattle.qdimacs.specs.Refusals.{first_place, number_above, set_above as set_above_of, literal_above, clause_above as clause_above_of, out_of_range as out_of_range_of};

use crate::tree::{ClauseText, FileText, SetText};

fn set_above(most: u32, set: &SetText) -> Option<u32>
    ensures { result ≡ set_above_of most set.now }
{
    for number in set.variables.items() {
        if most < number.value {
            return Some(number.at);
        }
    }
    None
}

fn clause_above(most: u32, clause: &ClauseText) -> Option<u32>
    ensures { result ≡ clause_above_of most clause.now }
{
    for literal in clause.literals.items() {
        if most < literal.variable {
            return Some(literal.at);
        }
    }
    None
}

fn first_set_above(most: u32, sets: &[SetText]) -> Option<u32>
    ensures { result ≡ first_place (set_above_of most) sets.now }
{
    for set in sets {
        if let Some(at) = set_above(most, set) {
            return Some(at);
        }
    }
    None
}

fn first_clause_above(most: u32, clauses: &[ClauseText]) -> Option<u32>
    ensures { result ≡ first_place (clause_above_of most) clauses.now }
{
    for clause in clauses {
        if let Some(at) = clause_above(most, clause) {
            return Some(at);
        }
    }
    None
}

/// The place of the first variable of a set or a clause above the first count.
pub(crate) fn out_of_range(file: &FileText) -> Option<u32>
    ensures { result ≡ out_of_range_of file.now }
{
    let most = file.variables.value;
    match first_set_above(most, file.sets.as_slice()) {
        Some(at) => Some(at),
        None => first_clause_above(most, file.body.as_slice()),
    }
}
