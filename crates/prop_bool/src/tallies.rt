//! How many items are 1, as far as it is decided.
ghost use Rattle.std.specs.Prelude.{◌≡◌, ◌++◌, ◌∷◌, [], IsTrue, List};
ghost use Rattle.std.specs.List.{list_all};
ghost use Rattle.qc_model.specs.declared.problem.Arg.{Arg};
ghost use Rattle.qc_model.specs.Refuted.{left_to};
ghost use Rattle.prop_bool.specs.Literals.{is_truth_left};
ghost use Rattle.prop_bool.specs.Parities.{IsTally, opened, turned};

use crate::literals::{Literal, Standing, standing_of};
use fd_store::Store;
use qc_model::{Arg, VarId};

/// All items are fixed, an odd number of them 1 or not; one variable is unfixed, at one place, and the others are so; two
/// variables at least are unfixed; or one is unfixed and stands twice.
#[derive(Clone, Copy)]
pub enum Tally {
    Decided(bool),
    Open(VarId, bool),
    Free,
    Unknown,
}

// With an item more that is 1.
fn with_one(tally: Tally) -> Tally
    ensures { result ≡ turned tally }
{
    match tally {
        Tally::Decided(odd) => Tally::Decided(!odd),
        Tally::Open(x, odd) => Tally::Open(x, !odd),
        Tally::Free => Tally::Free,
        Tally::Unknown => Tally::Unknown,
    }
}

// With a variable more that is unfixed.
fn with_unfixed(tally: Tally, y: VarId) -> Tally
    ensures { result ≡ opened tally y }
{
    match tally {
        Tally::Decided(odd) => Tally::Open(y, odd),
        Tally::Open(x, _) => {
            if x.0 == y.0 {
                return Tally::Unknown;
            }
            Tally::Free
        }
        Tally::Free => Tally::Free,
        Tally::Unknown => Tally::Unknown,
    }
}

// With an item more.
fn with_item(tally: Tally, item: Arg, store: &Store) -> Tally
    requires { IsTrue (is_truth_left (left_to store.now.box item)) }
    ensures { (xs : List Arg) → IsTally tally store.now.box xs → IsTally result store.now.box (xs ++ item ∷ []) }
{
    let literal = Literal {
        arg: item,
        positive: true,
    };
    match standing_of(literal, store) {
        Standing::Fails => tally,
        Standing::Holds => with_one(tally),
        Standing::Unfixed => match item {
            Arg::Num(_) => Tally::Unknown,
            Arg::Var(y) => with_unfixed(tally, y),
        },
    }
}

/// The look stops at the second place that is unfixed.
pub(crate) fn tally_of(items: &[Arg], store: &Store) -> Tally
    requires { IsTrue (list_all (λ a. is_truth_left (left_to store.now.box a)) items.now) }
    ensures { IsTally result store.now.box items.now }
{
    let mut tally = Tally::Decided(false);
    for item in items {
        tally = with_item(tally, *item, store);
        if let Tally::Free = tally {
            return Tally::Free;
        }
        if let Tally::Unknown = tally {
            return Tally::Unknown;
        }
    }
    tally
}
