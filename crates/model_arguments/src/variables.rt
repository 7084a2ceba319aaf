//! A constraint's own variables.
ghost use Rattle.std.specs.Prelude.{◌≡◌, ◌==◌, ◌↔◌, ◌++◌, IsTrue, IfOk, OnOk, flat_map};
ghost use Rattle.std.specs.List.{list_any};
ghost use Rattle.qc_model.specs.Arguments.{arg_variables, argument_variables, variables_of};
ghost use Rattle.qc_model.specs.Lists.{Distinct};
ghost use Rattle.model_arguments.specs.Apart.{all_apart};
ghost use Rattle.model_arguments.specs.Written.{variable_numbers};

use qc_model::{Arg, Argument, VarId};
use std::alloc::{AllocError, Global};

fn push_arg(found: &mut Vec<VarId>, arg: &Arg) -> Result<(), AllocError>
    ensures { OnOk result (variable_numbers found.new.items ≡ variable_numbers found.old.items ++ arg_variables arg.now) }
{
    if let Arg::Var(x) = arg {
        found.push(*x)?;
    }
    Ok(())
}

fn push_items(found: &mut Vec<VarId>, items: &[Arg]) -> Result<(), AllocError>
    ensures { OnOk result (variable_numbers found.new.items ≡ variable_numbers found.old.items ++ flat_map arg_variables items.now) }
{
    for item in items {
        push_arg(found, item)?;
    }
    Ok(())
}

fn push_argument(found: &mut Vec<VarId>, argument: &Argument) -> Result<(), AllocError>
    ensures { OnOk result (variable_numbers found.new.items ≡ variable_numbers found.old.items ++ argument_variables argument.now) }
{
    match argument {
        Argument::One(arg) => push_arg(found, arg)?,
        Argument::Many(items) => push_items(found, items.items())?,
        Argument::Numbers(_) | Argument::Members(_) => {}
    }
    Ok(())
}

/// The variables of the arguments, in the order in which they stand, each as often as it stands. It
/// fails only for want of memory.
pub fn own_variables(alloc: Global, args: &[Argument]) -> Result<Vec<VarId>, AllocError>
    ensures { IfOk result (λ found. variable_numbers found.items ≡ variables_of args.now) }
{
    let mut found = Vec::new(alloc);
    for argument in args {
        push_argument(&mut found, argument)?;
    }
    Ok(found)
}

fn stands_in(x: VarId, variables: &[VarId]) -> bool
    ensures { result ≡ list_any (λ y. x.0 == y) (variable_numbers variables.now) }
{
    variables.iter().any(|y| x.0 == y.0)
}

fn are_apart(variables: &[VarId]) -> bool
    ensures { result ≡ all_apart (variable_numbers variables.now) }
{
    let mut rest = variables;
    while let Some((x, later)) = rest.split_first() {
        if stands_in(*x, later) {
            return false;
        }
        rest = later;
    }
    true
}

/// Whether no variable stands twice. Pairs are compared up to the first repeat, which comes among the
/// first 501 since a problem has at most 500 variables.
pub fn are_distinct(variables: &[VarId]) -> bool
    ensures { IsTrue result ↔ Distinct (variable_numbers variables.now) }
{
    are_apart(variables)
}
