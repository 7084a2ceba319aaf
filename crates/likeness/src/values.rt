//! Values of variables and of arguments, and whether two positions have the same.
ghost use Rattle.std.specs.Prelude.{◌≡◌, ℕ, List, ℤ, pos, map, flat_map, slice_index_or, IsTrue};
ghost use Rattle.qc_model.specs.Arguments.{arg_variables, argument_variables, variables_of};
ghost use Rattle.qc_model.specs.Holds.{arg_value};
ghost use Rattle.likeness.specs.Seeing.{values_of};

use qc_model::{Arg, Argument, VarId};

/// The value of a variable, 0 where it has none.
pub(crate) fn value_at(values: &[i64], x: VarId) -> i64
    ensures { result ≡ slice_index_or values.now x.0 (pos 0) }
{
    match values.get(x.0 as usize) {
        Some(value) => *value,
        None => 0,
    }
}

/// The value of a variable, or the number.
pub(crate) fn value_of(arg: Arg, values: &[i64]) -> i64
    ensures { result ≡ arg_value values.now arg }
{
    match arg {
        Arg::Var(x) => value_at(values, x),
        Arg::Num(n) => n,
    }
}

fn is_item_alike(arg: Arg, kept: &[i64], here: &[i64]) -> bool
    ensures { IsTrue result → values_of kept.now (arg_variables arg) ≡ values_of here.now (arg_variables arg) }
{
    match arg {
        Arg::Var(x) => value_at(kept, x) == value_at(here, x),
        Arg::Num(_) => true,
    }
}

fn are_items_alike(items: &[Arg], kept: &[i64], here: &[i64]) -> bool
    ensures { IsTrue result → values_of kept.now (flat_map arg_variables items.now) ≡ values_of here.now (flat_map arg_variables items.now) }
{
    for item in items {
        if !is_item_alike(*item, kept, here) {
            return false;
        }
    }
    true
}

fn is_argument_alike(argument: &Argument, kept: &[i64], here: &[i64]) -> bool
    ensures { IsTrue result → values_of kept.now (argument_variables argument.now) ≡ values_of here.now (argument_variables argument.now) }
{
    match argument {
        Argument::One(arg) => is_item_alike(*arg, kept, here),
        Argument::Many(items) => are_items_alike(items.items(), kept, here),
        Argument::Numbers(_) | Argument::Members(_) => true,
    }
}

/// Whether the variables of the arguments have the same values in both.
pub(crate) fn are_values_alike(args: &[Argument], kept: &[i64], here: &[i64]) -> bool
    ensures { IsTrue result → values_of kept.now (variables_of args.now) ≡ values_of here.now (variables_of args.now) }
{
    for argument in args {
        if !is_argument_alike(argument, kept, here) {
            return false;
        }
    }
    true
}
