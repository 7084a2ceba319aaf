//! Values of variables and of arguments, and whether two positions have the same.
ghost use Rattle.std.specs.Prelude.{◌≡◌, pos, flat_map, slice_index_or};
ghost use Rattle.std.specs.Ordering.{int_eq};
ghost use Rattle.qc_model.specs.Arguments.{arg_variables, argument_variables, variables_of};
ghost use Rattle.qc_model.specs.Holds.{arg_value};
ghost use Rattle.qc_model.specs.Lists.{same_values};
ghost use Rattle.likeness.specs.Seeing.{values_of};
ghost use Rattle.qc_model.specs.Verdict.{is_none_of};

use qc_model::{Arg, Argument, VarId};

/// The value of a variable, 0 where it has none.
fn value_at(values: &[i64], x: VarId) -> i64
    ensures { result ≡ slice_index_or values.now x.0 (pos 0) }
{
    match values.get(x.0 as usize) {
        Some(value) => *value,
        None => 0,
    }
}

/// The value of a variable, or the number.
pub(crate) fn value_of(arg: Arg, values: &[i64]) -> i64
    ensures { result ≡ arg_value values.now arg }
{
    match arg {
        Arg::Var(x) => value_at(values, x),
        Arg::Num(n) => n,
    }
}

/// Whether the variable has the same value in both.
pub(crate) fn is_value_same(x: VarId, here: &[i64], there: &[i64]) -> bool
    ensures { result ≡ int_eq (slice_index_or here.now x.0 (pos 0)) (slice_index_or there.now x.0 (pos 0)) }
{
    value_at(here, x) == value_at(there, x)
}

fn is_item_same(arg: Arg, here: &[i64], there: &[i64]) -> bool
    ensures { result ≡ same_values (values_of here.now (arg_variables arg)) (values_of there.now (arg_variables arg)) }
{
    match arg {
        Arg::Var(x) => is_value_same(x, here, there),
        Arg::Num(_) => true,
    }
}

fn are_items_same(items: &[Arg], here: &[i64], there: &[i64]) -> bool
    ensures { result ≡ same_values (values_of here.now (flat_map arg_variables items.now)) (values_of there.now (flat_map arg_variables items.now)) }
{
    for item in items {
        if !is_item_same(*item, here, there) {
            return false;
        }
    }
    true
}

fn is_argument_same(argument: &Argument, here: &[i64], there: &[i64]) -> bool
    ensures { result ≡ same_values (values_of here.now (argument_variables argument.now)) (values_of there.now (argument_variables argument.now)) }
{
    match argument {
        Argument::One(arg) => is_item_same(*arg, here, there),
        Argument::Many(items) => are_items_same(items.items(), here, there),
        Argument::Numbers(_) | Argument::Members(_) => true,
    }
}

/// Whether the variables of the arguments have the same values in both.
pub(crate) fn are_values_same(args: &[Argument], here: &[i64], there: &[i64]) -> bool
    ensures { result ≡ same_values (values_of here.now (variables_of args.now)) (values_of there.now (variables_of args.now)) }
{
    for argument in args {
        if !is_argument_same(argument, here, there) {
            return false;
        }
    }
    true
}

fn is_number(arg: Arg) -> bool
    ensures { result ≡ is_none_of (arg_variables arg) }
{
    match arg {
        Arg::Var(_) => false,
        Arg::Num(_) => true,
    }
}

fn are_numbers(items: &[Arg]) -> bool
    ensures { result ≡ is_none_of (flat_map arg_variables items.now) }
{
    for item in items {
        if !is_number(*item) {
            return false;
        }
    }
    true
}

fn has_no_variable(argument: &Argument) -> bool
    ensures { result ≡ is_none_of (argument_variables argument.now) }
{
    match argument {
        Argument::One(arg) => is_number(*arg),
        Argument::Many(items) => are_numbers(items.items()),
        Argument::Numbers(_) | Argument::Members(_) => true,
    }
}

/// Whether no argument has a variable.
pub(crate) fn have_no_variables(args: &[Argument]) -> bool
    ensures { result ≡ is_none_of (variables_of args.now) }
{
    for argument in args {
        if !has_no_variable(argument) {
            return false;
        }
    }
    true
}
