//! The arguments of a constraint by their place. One of another kind counts as the number 0 or as empty.
ghost use Rattle.std.specs.Prelude.{◌≡◌, MatchOption};
ghost use Rattle.model_arguments.specs.Written.{arg_at, args_at, last_arg, ints_at, set_at};

use qc_model::{Arg, Argument, Constraint, Set};

/// All arguments, in order.
pub fn arguments(rule: &Constraint) -> &[Argument]
    ensures { result.now ≡ rule.now.args }
{
    rule.args.as_slice()
}

/// A variable or a number.
pub fn one_at(args: &[Argument], place: usize) -> Arg
    ensures { result ≡ arg_at args.now place }
{
    match args.get(place) {
        Some(Argument::One(arg)) => *arg,
        _ => Arg::Num(0),
    }
}

/// The last argument, which is a variable or a number.
#[tactic(auto, using(crate::proofs::Written::last_place))]
pub fn last_one(args: &[Argument]) -> Arg
    ensures { result ≡ last_arg args.now }
{
    one_at(args, args.len().saturating_sub(1))
}

/// The items of an array that may hold variables.
pub fn items_at(args: &[Argument], place: usize) -> &[Arg]
    ensures { result.now ≡ args_at args.now place }
{
    match args.get(place) {
        Some(Argument::Many(items)) => items.items(),
        _ => &[],
    }
}

/// An array of numbers.
pub fn numbers_at(args: &[Argument], place: usize) -> &[i64]
    ensures { result.now ≡ ints_at args.now place }
{
    match args.get(place) {
        Some(Argument::Numbers(items)) => items.items(),
        _ => &[],
    }
}

/// The set, where one stands at the place.
pub fn members_at(args: &[Argument], place: usize) -> Option<&Set>
    ensures { MatchOption result (set_at args.now place ≡ None) (λ set. set_at args.now place ≡ Some set.now) }
{
    match args.get(place) {
        Some(Argument::Members(set)) => Some(set),
        _ => None,
    }
}
