//! The arguments of a constraint.
ghost use Rattle.std.specs.Prelude.{◌≡◌, IfOk, map};
ghost use Rattle.text_resolve.specs.Owned.{word_bytes};
ghost use Rattle.text_resolve.specs.Names.{declared, look_up};
ghost use Rattle.text_resolve.specs.Draft.{meant_arg, arg_of as arg_of_one, literal_of as literal_of_one, array_of as array_of_ones, argument_of as argument_of_text, arguments_of as arguments_of_texts};
ghost use Rattle.text_resolve.specs.Makeable.{IsMakeable};

use crate::domains::set_of;
use crate::names::{Named, Names};
use qc_model::{Arg, ArgKind, Args, Argument, Numbers, VarId};
use std::alloc::{AllocError, Global};
use text_grammar::{ArgumentText, One, Word};

/// The variable of this name; no aggregate fits an argument.
fn variable_arg(names: &Names, word: Word) -> Arg
    requires { IsMakeable names.now.text.now names.now.items.now }
    ensures { result ≡ meant_arg (look_up (declared names.now.text.now names.now.items.now) (word_bytes names.now.text.now word)) }
{
    match names.look_up(word) {
        Some(meant) => match meant.named {
            Named::Integer(x) | Named::Boolean(x) => Arg::Var(VarId(x as u16)),
            Named::Aggregate(_) => Arg::Num(0),
        },
        None => Arg::Num(0),
    }
}

fn arg_of(names: &Names, one: &One) -> Arg
    requires { IsMakeable names.now.text.now names.now.items.now }
    ensures { result ≡ arg_of_one names.now.text.now (declared names.now.text.now names.now.items.now) one.now }
{
    match one {
        One::Name(word) => variable_arg(names, *word),
        One::Number(number) => Arg::Num(number.value),
        One::Truth(true) => Arg::Num(1),
        One::Truth(false) => Arg::Num(0),
    }
}

/// The number that an item of an array stands for, where no item is a name.
fn literal_of(one: &One) -> i64
    ensures { result ≡ literal_of_one one.now }
{
    match one {
        One::Name(_) => 0,
        One::Number(number) => number.value,
        One::Truth(true) => 1,
        One::Truth(false) => 0,
    }
}

fn literals_of(alloc: Global, ones: &[One]) -> Result<Numbers, AllocError>
    ensures { IfOk result (λ numbers. numbers ≡ map literal_of_one ones.now) }
{
    let mut numbers = Numbers::new(alloc);
    for one in ones {
        numbers.push(literal_of(one))?;
    }
    Ok(numbers)
}

fn args_of(alloc: Global, names: &Names, ones: &[One]) -> Result<Args, AllocError>
    requires { IsMakeable names.now.text.now names.now.items.now }
    ensures { IfOk result (λ args. args ≡ map (arg_of_one names.now.text.now (declared names.now.text.now names.now.items.now)) ones.now) }
{
    let mut args = Args::new(alloc);
    for one in ones {
        args.push(arg_of(names, one))?;
    }
    Ok(args)
}

fn array_of(
    alloc: Global,
    names: &Names,
    sort: ArgKind,
    ones: &[One],
) -> Result<Argument, AllocError>
    requires { IsMakeable names.now.text.now names.now.items.now }
    ensures { IfOk result (λ argument. argument ≡ array_of_ones names.now.text.now (declared names.now.text.now names.now.items.now) sort ones.now) }
{
    match sort {
        ArgKind::Numbers | ArgKind::Truths => Ok(Argument::Numbers(literals_of(alloc, ones)?)),
        ArgKind::Integer
        | ArgKind::Boolean
        | ArgKind::Integers
        | ArgKind::Booleans
        | ArgKind::Members => { Ok(Argument::Many(args_of(alloc, names, ones)?)) }
    }
}

fn argument_of(
    alloc: Global,
    names: &Names,
    sort: ArgKind,
    argument: &ArgumentText,
) -> Result<Argument, AllocError>
    requires { IsMakeable names.now.text.now names.now.items.now }
    ensures { IfOk result (λ made. made ≡ argument_of_text names.now.text.now (declared names.now.text.now names.now.items.now) sort argument.now) }
{
    match argument {
        ArgumentText::One(one) => Ok(Argument::One(arg_of(names, one))),
        ArgumentText::Members(members) => Ok(Argument::Members(set_of(alloc, members)?)),
        ArgumentText::Array { items, .. } => array_of(alloc, names, sort, items.items()),
    }
}

/// The arguments, each of its own sort.
pub(crate) fn arguments_of(
    alloc: Global,
    names: &Names,
    sorts: &[ArgKind],
    arguments: &[ArgumentText],
) -> Result<Vec<Argument>, AllocError>
    requires { IsMakeable names.now.text.now names.now.items.now }
    ensures { IfOk result (λ made. made.items ≡ arguments_of_texts names.now.text.now (declared names.now.text.now names.now.items.now) sorts.now arguments.now) }
{
    let mut made = Vec::new(alloc);
    for (sort, argument) in sorts.iter().zip(arguments) {
        made.push(argument_of(alloc, names, *sort, argument)?)?;
    }
    Ok(made)
}
