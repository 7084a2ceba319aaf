//! The game without wishes in which the player has to keep the quantity from getting worse than a value.
ghost use Rattle.std.specs.Prelude.{◌≡◌, ◌≤◌, ◌<◌, [], alloc_error, length, map, slice_get, unsigned_abs, nat_le, IfOk, IfErr, IsTrue, ℕ};
ghost use Rattle.qc_model.specs.Content.{Rule};
ghost use Rattle.qc_model.specs.Valid.{is_number as is_number_of};
ghost use Rattle.zero_sum.specs.Stake.{stake_of};
ghost use Rattle.zero_sum.specs.Bounded.{plain, bound as bound_of, bound_arguments as bound_arguments_of, with_rule, bounded_game};
ghost use Rattle.zero_sum.specs.Refusals.{HasRoom, Refuses};
ghost use Rattle.zero_sum.specs.declared.made.NoBound.TheVariants.{Memory};

use crate::stake::Stake;
use model_copies::{copy_arguments, copy_domain, copy_name};
use qc_model::{
    Arg, Argument, ConId, Constraint, Draft, Pred, Problem, Scope, ScopeId, Sense, VarId, Variable,
    build, limits,
};
use std::alloc::{AllocError, AllocFailed, Global};
use thiserror::Error;

/// Why no bounded problem is given.
#[derive(Clone, Copy, Debug, PartialEq, Eq, Error)]
pub enum NoBound {
    /// The value is below -1,000,000,000 or above 1,000,000,000.
    #[error("no number of a problem")]
    NoNumber,
    /// The problem has 20,000 constraints already.
    #[error("too many constraints")]
    TooManyConstraints,
    /// Memory was refused.
    #[error("memory")]
    Memory(AllocError),
}

impl From<AllocError> for NoBound {
    ghost from_gives = { λ e f. f ≡ Memory e };

    fn from(error: AllocError) -> NoBound {
        NoBound::Memory(error)
    }
}

impl<T: Drop> From<AllocFailed<T>> for NoBound {
    ghost from_gives = { λ _ f. f ≡ Memory alloc_error };

    fn from(_error: AllocFailed<T>) -> NoBound {
        NoBound::Memory(AllocError)
    }
}

fn is_number(v: i64) -> bool
    ensures { result ≡ is_number_of v }
{
    v.unsigned_abs() <= limits::NUMBER
}

/// The scopes without their conditions.
fn plain_scopes(alloc: Global, problem: &Problem) -> Result<Vec<Scope>, AllocError>
    ensures { IfOk result (λ scopes. scopes.items ≡ map plain problem.now.scopes) }
{
    problem.known();
    let mut scopes = Vec::new(alloc);
    for i in 0..problem.scopes() {
        let scope = problem.scope(ScopeId(i as u8));
        scopes.push(Scope {
            kind: scope.kind,
            condition: None,
        })?;
    }
    Ok(scopes)
}

fn copy_variables(alloc: Global, variables: &[Variable]) -> Result<Vec<Variable>, AllocError>
    ensures { IfOk result (λ copies. copies.items ≡ variables.now) }
{
    let mut copies = Vec::new(alloc);
    for variable in variables {
        copies.push(Variable {
            name: copy_name(alloc, &variable.name)?,
            scope: variable.scope,
            domain: copy_domain(alloc, &variable.domain)?,
        })?;
    }
    Ok(copies)
}

fn copy_constraint(alloc: Global, constraint: &Constraint) -> Result<Constraint, AllocError>
    ensures { IfOk result (λ copy. copy ≡ constraint.now) }
{
    Ok(Constraint {
        owner: constraint.owner,
        pred: constraint.pred,
        args: copy_arguments(alloc, constraint.args.as_slice())?,
    })
}

fn copy_constraints(alloc: Global, problem: &Problem) -> Result<Vec<Constraint>, AllocError>
    ensures { IfOk result (λ copies. copies.items ≡ problem.now.constraints) }
{
    problem.known();
    let mut copies = Vec::new(alloc);
    for c in 0..problem.constraints() {
        copies.push(copy_constraint(alloc, problem.constraint(ConId(c as u16)))?)?;
    }
    Ok(copies)
}

/// That the variable is at most v, or at least v.
fn bound_arguments(
    alloc: Global,
    sense: Sense,
    variable: VarId,
    v: i64,
) -> Result<Vec<Argument>, AllocError>
    ensures { IfOk result (λ arguments. arguments.items ≡ bound_arguments_of sense variable v) }
{
    let mut arguments = Vec::new(alloc);
    match sense {
        Sense::Min => {
            arguments.push(Argument::One(Arg::Var(variable)))?;
            arguments.push(Argument::One(Arg::Num(v)))?;
        }
        Sense::Max => {
            arguments.push(Argument::One(Arg::Num(v)))?;
            arguments.push(Argument::One(Arg::Var(variable)))?;
        }
    }
    Ok(arguments)
}

/// That what is at stake is at least as good as v.
fn bound(alloc: Global, stake: Stake, v: i64) -> Result<Constraint, AllocError>
    ensures { IfOk result (λ constraint. constraint ≡ bound_of stake v) }
{
    Ok(Constraint {
        owner: stake.place,
        pred: Pred::IntLe,
        args: bound_arguments(alloc, stake.sense, stake.variable, v)?,
    })
}

/// How many constraints stand before the first one of a later place.
fn behind(constraints: &[Constraint], place: ScopeId) -> usize
    ensures within { result ≤ length constraints.now }
    ensures before { (k : ℕ) (c : Rule) → k < result → slice_get constraints.now k ≡ Some c → c.owner.0 ≤ place.0 }
    ensures first { (c : Rule) → slice_get constraints.now result ≡ Some c → place.0 < c.owner.0 }
{
    for (i, constraint) in constraints.iter().enumerate() {
        if constraint.owner.0 > place.0 {
            return i;
        }
    }
    constraints.len()
}

/// The constraints, with one more behind those of its own place and of earlier ones.
fn bounded_constraints(
    alloc: Global,
    problem: &Problem,
    stake: Stake,
    v: i64,
) -> Result<Vec<Constraint>, AllocError>
    ensures { IfOk result (λ constraints. constraints.items ≡ with_rule (bound_of stake v) problem.now.constraints) }
{
    let mut constraints = copy_constraints(alloc, problem)?;
    let at = behind(constraints.as_slice(), stake.place);
    constraints.insert(at, bound(alloc, stake, v)?)?;
    Ok(constraints)
}

fn bounded_draft(
    alloc: Global,
    problem: &Problem,
    stake: Stake,
    v: i64,
) -> Result<Draft, AllocError>
    ensures { IfOk result (λ draft. draft ≡ bounded_game problem.now stake v) }
{
    Ok(Draft {
        scopes: plain_scopes(alloc, problem)?,
        variables: copy_variables(alloc, problem.all_variables())?,
        aggregates: Vec::new(alloc),
        constraints: bounded_constraints(alloc, problem, stake, v)?,
    })
}

/// The problem without wishes in which the player has to keep what is at stake at least as good as v: one
/// more constraint stands at the place where the player answers for it. The stake is that of the problem.
///
/// Where `defaults_fit` says so, this problem is won exactly where the value v can be had in the old one;
/// so v is the optimum where this problem is won, and the one for the next better value isn't
/// (`optimum_by_two_games`).
///
/// # Errors
///
/// `NoNumber` where v is below -1,000,000,000 or above 1,000,000,000. Otherwise `TooManyConstraints` where
/// the problem has 20,000 constraints already. `Memory` where memory was refused.
pub fn bounded(alloc: Global, problem: &Problem, stake: Stake, v: i64) -> Result<Problem, NoBound>
    requires { stake_of problem.now ≡ Some stake }
    ensures made { IfOk result (λ new. new ≡ bounded_game problem.now stake v) }
    ensures room { IfOk result (λ new. HasRoom problem.now v) }
    ensures refused { IfErr result (λ e. Refuses e problem.now v) }
{
    problem.known();
    if !is_number(v) {
        return Err(NoBound::NoNumber);
    }
    if problem.constraints() >= limits::CONSTRAINTS {
        return Err(NoBound::TooManyConstraints);
    }
    match build(bounded_draft(alloc, problem, stake, v)?) {
        Some(new) => Ok(new),
        // Such a draft is valid.
        None => unreachable!(),
    }
}
