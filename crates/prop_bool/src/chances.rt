//! Whether one of some literals can hold.
ghost use Rattle.std.specs.Prelude.{◌≡◌, ◌≤◌, ◌+◌, ◌++◌, ◌∷◌, [], IsTrue, List, length};
ghost use Rattle.std.specs.List.{list_all};
ghost use Rattle.prop_bool.specs.Findings.{IsChance};
ghost use Rattle.prop_bool.specs.Literals.{is_truth_at, literals};
ghost use Rattle.prop_bool.specs.declared.literals.Literal.{Literal};

use crate::literals::{Literal, Standing, is_same, literal_at, standing_of};
use fd_store::Store;
use qc_model::Arg;

/// All fail; all fail but one, wherever it stands; or whatever one variable is given, some literal doesn't fail.
#[derive(Clone, Copy)]
pub enum Chance {
    Lost,
    Last(Literal),
    Free,
}

// With one literal more.
fn with_literal(chance: Chance, literal: Literal, store: &Store) -> Chance
    requires { IsTrue (is_truth_at store.now.box literal) }
    ensures { (ls : List Literal) → IsChance chance store.now.box ls → IsChance result store.now.box (ls ++ literal ∷ []) }
{
    match standing_of(literal, store) {
        Standing::Holds => Chance::Free,
        Standing::Fails => chance,
        Standing::Unfixed => match chance {
            Chance::Free => Chance::Free,
            Chance::Lost => Chance::Last(literal),
            Chance::Last(last) => {
                if is_same(last, literal) {
                    return Chance::Last(last);
                }
                Chance::Free
            }
        },
    }
}

/// The look stops at a literal that holds, or at the second that is unfixed.
pub(crate) fn chance_of(plain: &[Arg], negated: &[Arg], store: &Store) -> Chance
    requires few { length plain.now + length negated.now ≤ 2000 }
    requires truths { IsTrue (list_all (is_truth_at store.now.box) (literals plain.now negated.now)) }
    ensures { IsChance result store.now.box (literals plain.now negated.now) }
{
    let mut chance = Chance::Lost;
    for k in 0..plain.len() + negated.len() {
        let literal = literal_at(plain, negated, k);
        chance = with_literal(chance, literal, store);
        if let Chance::Free = chance {
            return Chance::Free;
        }
    }
    chance
}
