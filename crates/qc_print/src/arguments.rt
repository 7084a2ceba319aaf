//! The arguments of a constraint, by their sorts: a truth value is `true` or `false`.
ghost use Rattle.std.specs.Prelude.{◌≡◌, ◌++◌, OnOk, codes, flat_map, map};
ghost use Rattle.std.specs.Option.{option_copied};
ghost use Rattle.qc_model.specs.Canonical.{with_commas, brackets, variable_name, arg_text, literal_text, argument_text, argument_texts, constraint_text};

use crate::parts::{put_number, put_set, put_truth};
use qc_model::{Arg, ArgKind, Argument, Constraint, Variable, arg_kinds_of, pred_name};
use std::alloc::AllocError;

fn put_literal(out: &mut Vec<u8>, sort: ArgKind, number: i64) -> Result<(), AllocError>
    ensures { OnOk result (out.new.items ≡ out.old.items ++ literal_text sort number) }
{
    match sort {
        ArgKind::Boolean | ArgKind::Booleans | ArgKind::Truths => put_truth(out, number),
        ArgKind::Integer | ArgKind::Integers | ArgKind::Numbers | ArgKind::Members => put_number(
            out, number,
        ),
    }
}

pub(crate) fn put_name(out: &mut Vec<u8>, variable: Option<&Variable>) -> Result<(), AllocError>
    ensures { OnOk result (out.new.items ≡ out.old.items ++ variable_name (option_copied variable.entry)) }
{
    match variable {
        Some(variable) => out.extend_from_slice(variable.name.text().as_bytes()),
        None => Ok(()),
    }
}

fn put_arg(
    out: &mut Vec<u8>,
    variables: &[Variable],
    sort: ArgKind,
    arg: Arg,
) -> Result<(), AllocError>
    ensures { OnOk result (out.new.items ≡ out.old.items ++ arg_text (literal_text sort) variables.now arg) }
{
    match arg {
        Arg::Var(x) => put_name(out, variables.get(x.0 as usize)),
        Arg::Num(number) => put_literal(out, sort, number),
    }
}

fn put_items(
    out: &mut Vec<u8>,
    variables: &[Variable],
    sort: ArgKind,
    items: &[Arg],
) -> Result<(), AllocError>
    ensures { OnOk result (out.new.items ≡ out.old.items ++ brackets (map (arg_text (literal_text sort) variables.now) items.now)) }
{
    out.push(b'[')?;
    if let [first, others @ ..] = items {
        put_arg(out, variables, sort, *first)?;
        put_other_items(out, variables, sort, others)?;
    }
    out.push(b']')?;
    Ok(())
}

fn put_other_items(
    out: &mut Vec<u8>,
    variables: &[Variable],
    sort: ArgKind,
    items: &[Arg],
) -> Result<(), AllocError>
    ensures { OnOk result (out.new.items ≡ out.old.items ++ flat_map (λ u. codes "," ++ u) (map (arg_text (literal_text sort) variables.now) items.now)) }
{
    for item in items {
        out.push(b',')?;
        put_arg(out, variables, sort, *item)?;
    }
    Ok(())
}

fn put_literals(out: &mut Vec<u8>, sort: ArgKind, numbers: &[i64]) -> Result<(), AllocError>
    ensures { OnOk result (out.new.items ≡ out.old.items ++ brackets (map (literal_text sort) numbers.now)) }
{
    out.push(b'[')?;
    if let [first, others @ ..] = numbers {
        put_literal(out, sort, *first)?;
        put_other_literals(out, sort, others)?;
    }
    out.push(b']')?;
    Ok(())
}

fn put_other_literals(out: &mut Vec<u8>, sort: ArgKind, numbers: &[i64]) -> Result<(), AllocError>
    ensures { OnOk result (out.new.items ≡ out.old.items ++ flat_map (λ u. codes "," ++ u) (map (literal_text sort) numbers.now)) }
{
    for number in numbers {
        out.push(b',')?;
        put_literal(out, sort, *number)?;
    }
    Ok(())
}

fn put_argument(
    out: &mut Vec<u8>,
    variables: &[Variable],
    sort: ArgKind,
    argument: &Argument,
) -> Result<(), AllocError>
    ensures { OnOk result (out.new.items ≡ out.old.items ++ argument_text variables.now sort argument.now) }
{
    match argument {
        Argument::One(arg) => put_arg(out, variables, sort, *arg),
        Argument::Many(items) => put_items(out, variables, sort, items.items()),
        Argument::Numbers(numbers) => put_literals(out, sort, numbers.items()),
        Argument::Members(set) => put_set(out, set),
    }
}

fn put_arguments(
    out: &mut Vec<u8>,
    variables: &[Variable],
    sorts: &[ArgKind],
    args: &[Argument],
) -> Result<(), AllocError>
    ensures { OnOk result (out.new.items ≡ out.old.items ++ with_commas (argument_texts variables.now sorts.now args.now)) }
{
    let [sort, sorts @ ..] = sorts else {
        return Ok(());
    };
    let [argument, args @ ..] = args else {
        return Ok(());
    };
    put_argument(out, variables, *sort, argument)?;
    put_other_arguments(out, variables, sorts, args)
}

fn put_other_arguments(
    out: &mut Vec<u8>,
    variables: &[Variable],
    sorts: &[ArgKind],
    args: &[Argument],
) -> Result<(), AllocError>
    ensures { OnOk result (out.new.items ≡ out.old.items ++ flat_map (λ u. codes "," ++ u) (argument_texts variables.now sorts.now args.now)) }
{
    let [sort, sorts @ ..] = sorts else {
        return Ok(());
    };
    let [argument, args @ ..] = args else {
        return Ok(());
    };
    out.push(b',')?;
    put_argument(out, variables, *sort, argument)?;
    put_other_arguments(out, variables, sorts, args)
}

pub(crate) fn put_constraint(
    out: &mut Vec<u8>,
    variables: &[Variable],
    constraint: &Constraint,
) -> Result<(), AllocError>
    ensures { OnOk result (out.new.items ≡ out.old.items ++ constraint_text variables.now constraint.now) }
{
    out.extend_from_slice(b"constraint ")?;
    out.extend_from_slice(pred_name(constraint.pred).as_bytes())?;
    out.push(b'(')?;
    put_arguments(
        out,
        variables,
        arg_kinds_of(constraint.pred),
        constraint.args.as_slice(),
    )?;
    out.extend_from_slice(b");\n")?;
    Ok(())
}
