//! Copies of the parts of a problem.
ghost use Rattle.std.specs.Prelude.{◌≡◌, IfOk};

use qc_model::{Args, Argument, Domain, Name, Numbers, Set};
use std::alloc::{AllocError, Global};

/// A copy of a name.
pub fn copy_name(alloc: Global, name: &Name) -> Result<Name, AllocError>
    ensures { IfOk result (λ copy. copy ≡ name.now) }
{
    Name::new(alloc, name.text())
}

fn copy_numbers(alloc: Global, numbers: &Numbers) -> Result<Numbers, AllocError>
    ensures { IfOk result (λ copy. copy ≡ numbers.now) }
{
    let mut copy = Numbers::new(alloc);
    let items = numbers.items();
    for item in items {
        copy.push(*item)?;
    }
    Ok(copy)
}

fn copy_args(alloc: Global, args: &Args) -> Result<Args, AllocError>
    ensures { IfOk result (λ copy. copy ≡ args.now) }
{
    let mut copy = Args::new(alloc);
    let items = args.items();
    for item in items {
        copy.push(*item)?;
    }
    Ok(copy)
}

/// A copy of a domain.
pub fn copy_domain(alloc: Global, domain: &Domain) -> Result<Domain, AllocError>
    ensures { IfOk result (λ copy. copy ≡ domain.now) }
{
    match domain {
        Domain::Bits => Ok(Domain::Bits),
        Domain::Range(low, high) => Ok(Domain::Range(*low, *high)),
        Domain::Listed(numbers) => Ok(Domain::Listed(copy_numbers(alloc, numbers)?)),
    }
}

fn copy_set(alloc: Global, set: &Set) -> Result<Set, AllocError>
    ensures { IfOk result (λ copy. copy ≡ set.now) }
{
    match set {
        Set::Range(low, high) => Ok(Set::Range(*low, *high)),
        Set::Listed(numbers) => Ok(Set::Listed(copy_numbers(alloc, numbers)?)),
    }
}

fn copy_argument(alloc: Global, argument: &Argument) -> Result<Argument, AllocError>
    ensures { IfOk result (λ copy. copy ≡ argument.now) }
{
    match argument {
        Argument::One(arg) => Ok(Argument::One(*arg)),
        Argument::Many(args) => Ok(Argument::Many(copy_args(alloc, args)?)),
        Argument::Numbers(numbers) => Ok(Argument::Numbers(copy_numbers(alloc, numbers)?)),
        Argument::Members(set) => Ok(Argument::Members(copy_set(alloc, set)?)),
    }
}

/// Copies of the arguments of a constraint.
pub fn copy_arguments(alloc: Global, arguments: &[Argument]) -> Result<Vec<Argument>, AllocError>
    ensures { IfOk result (λ copies. copies.items ≡ arguments.now) }
{
    let mut copies = Vec::new(alloc);
    for argument in arguments {
        copies.push(copy_argument(alloc, argument)?)?;
    }
    Ok(copies)
}
