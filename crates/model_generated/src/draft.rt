//! The draft of a problem, part by part.
ghost use Rattle.std.specs.Prelude.{◌≡◌, ◌≤◌, ◌++◌, [], ◌∷◌, IfOk, OnOk};
ghost use Rattle.model_generated.specs.Links.{bases as all_bases, demands as all_demands};
ghost use Rattle.model_generated.specs.Pricing.{variable_of, rule_of, three_scopes, eleven_variables, one_aggregate, place_rule, toll_rule, six_rules, generated_game};

use crate::figures::{bases, demands};
use qc_model::{
    AggId, Aggregate, Arg, Args, Argument, Condition, Constraint, Domain, Draft, Fold, Kind, Name,
    Numbers, Pred, Scope, ScopeId, Sense, Target, VarId, Variable,
};
use std::alloc::{AllocError, Global};

// The variables, by their places.
const TOLL_OF_FIRST: Arg = Arg::Var(VarId(0));

const TOLL_OF_SECOND: Arg = Arg::Var(VarId(1));

const TOLL_OF_THIRD: Arg = Arg::Var(VarId(2));

const CUSTOMER: Arg = Arg::Var(VarId(3));

const WAY: Arg = Arg::Var(VarId(4));

const PLACE: Arg = Arg::Var(VarId(5));

const BASE: Arg = Arg::Var(VarId(6));

const TOLL: Arg = Arg::Var(VarId(7));

const COST: Arg = Arg::Var(VarId(8));

const DEMAND: Arg = Arg::Var(VarId(9));

const INCOME: Arg = Arg::Var(VarId(10));

// The scope in which a customer chooses.
const CHOICE: u8 = 2;

fn scopes(alloc: Global) -> Result<Vec<Scope>, AllocError>
    ensures { IfOk result (λ scopes. scopes.items ≡ three_scopes) }
{
    let mut scopes = Vec::new(alloc);
    scopes.push(Scope {
        kind: Kind::Exists,
        condition: Some(Condition {
            sense: Sense::Max,
            target: Target::Aggregate(AggId(0)),
        }),
    })?;
    scopes.push(Scope {
        kind: Kind::Forall,
        condition: None,
    })?;
    scopes.push(Scope {
        kind: Kind::Exists,
        condition: Some(Condition {
            sense: Sense::Min,
            target: Target::Var(VarId(8)),
        }),
    })?;
    Ok(scopes)
}

// Declares one more variable, from the least value to the greatest.
fn declare(
    alloc: Global,
    variables: &mut Vec<Variable>,
    name: &str,
    scope: u8,
    low: u32,
    high: u32,
) -> Result<(), AllocError>
    ensures { OnOk result (variables.new.items ≡ variables.old.items ++ variable_of name.now scope low high ∷ []) }
{
    variables.push(Variable {
        name: Name::new(alloc, name)?,
        scope: ScopeId(scope),
        domain: Domain::Range(i64::from(low), i64::from(high)),
    })?;
    Ok(())
}

fn variables(alloc: Global) -> Result<Vec<Variable>, AllocError>
    ensures { IfOk result (λ variables. variables.items ≡ eleven_variables) }
{
    let mut variables = Vec::new(alloc);
    declare(alloc, &mut variables, "t1", 0, 0, 10)?;
    declare(alloc, &mut variables, "t2", 0, 0, 10)?;
    declare(alloc, &mut variables, "t3", 0, 0, 10)?;
    declare(alloc, &mut variables, "k", 1, 1, 12)?;
    declare(alloc, &mut variables, "a", CHOICE, 1, 4)?;
    declare(alloc, &mut variables, "i", CHOICE, 1, 48)?;
    declare(alloc, &mut variables, "base", CHOICE, 0, 20)?;
    declare(alloc, &mut variables, "toll", CHOICE, 0, 10)?;
    declare(alloc, &mut variables, "cost", CHOICE, 0, 30)?;
    declare(alloc, &mut variables, "dem", CHOICE, 1, 3)?;
    declare(alloc, &mut variables, "income", CHOICE, 0, 30)?;
    Ok(variables)
}

fn aggregates(alloc: Global) -> Result<Vec<Aggregate>, AllocError>
    ensures { IfOk result (λ aggregates. aggregates.items ≡ one_aggregate) }
{
    let mut aggregates = Vec::new(alloc);
    aggregates.push(Aggregate {
        name: Name::new(alloc, "total")?,
        scope: ScopeId(1),
        fold: Fold::Sum,
        target: Target::Var(VarId(10)),
    })?;
    Ok(aggregates)
}

fn constraint(
    alloc: Global,
    pred: Pred,
    first: Argument,
    second: Argument,
    third: Argument,
) -> Result<Constraint, AllocError>
    ensures { IfOk result (λ rule. rule ≡ rule_of pred first second third) }
{
    let mut args = Vec::new(alloc);
    args.push(first)?;
    args.push(second)?;
    args.push(third)?;
    Ok(Constraint {
        owner: ScopeId(CHOICE),
        pred,
        args,
    })
}

fn place(alloc: Global) -> Result<Constraint, AllocError>
    ensures { IfOk result (λ rule. rule ≡ place_rule) }
{
    let mut factors = Numbers::new(alloc);
    factors.push(4)?;
    factors.push(1)?;
    factors.push(-1)?;
    let mut terms = Args::new(alloc);
    terms.push(CUSTOMER)?;
    terms.push(WAY)?;
    terms.push(PLACE)?;
    constraint(
        alloc,
        Pred::IntLinEq,
        Argument::Numbers(factors),
        Argument::Many(terms),
        Argument::One(Arg::Num(4)),
    )
}

fn toll(alloc: Global) -> Result<Constraint, AllocError>
    ensures { IfOk result (λ rule. rule ≡ toll_rule) }
{
    let mut tolls = Args::new(alloc);
    tolls.push(TOLL_OF_FIRST)?;
    tolls.push(TOLL_OF_SECOND)?;
    tolls.push(TOLL_OF_THIRD)?;
    tolls.push(Arg::Num(0))?;
    constraint(
        alloc,
        Pred::ArrayVarIntElement,
        Argument::One(WAY),
        Argument::Many(tolls),
        Argument::One(TOLL),
    )
}

// The number of the list at the place of a variable is another variable.
fn element(alloc: Global, index: Arg, numbers: Numbers, item: Arg) -> Result<Constraint, AllocError>
    ensures { IfOk result (λ rule. rule ≡ rule_of Pred.ArrayIntElement (Argument.One index) (Argument.Numbers numbers) (Argument.One item)) }
{
    constraint(
        alloc,
        Pred::ArrayIntElement,
        Argument::One(index),
        Argument::Numbers(numbers),
        Argument::One(item),
    )
}

// The predicate of three variables.
fn relation(
    alloc: Global,
    pred: Pred,
    first: Arg,
    second: Arg,
    third: Arg,
) -> Result<Constraint, AllocError>
    ensures { IfOk result (λ rule. rule ≡ rule_of pred (Argument.One first) (Argument.One second) (Argument.One third)) }
{
    constraint(
        alloc,
        pred,
        Argument::One(first),
        Argument::One(second),
        Argument::One(third),
    )
}

fn constraints(alloc: Global, n: u32) -> Result<Vec<Constraint>, AllocError>
    requires { n ≤ 1000000 }
    ensures { IfOk result (λ constraints. constraints.items ≡ six_rules (all_bases n) (all_demands n)) }
{
    let mut constraints = Vec::new(alloc);
    constraints.push(place(alloc)?)?;
    constraints.push(element(alloc, PLACE, bases(alloc, n)?, BASE)?)?;
    constraints.push(toll(alloc)?)?;
    constraints.push(relation(alloc, Pred::IntPlus, BASE, TOLL, COST)?)?;
    constraints.push(element(alloc, CUSTOMER, demands(alloc, n)?, DEMAND)?)?;
    constraints.push(relation(alloc, Pred::IntTimes, DEMAND, TOLL, INCOME)?)?;
    Ok(constraints)
}

/// The draft of the problem of a number.
pub(crate) fn make_draft(alloc: Global, n: u32) -> Result<Draft, AllocError>
    requires { n ≤ 1000000 }
    ensures { IfOk result (λ draft. draft ≡ generated_game n) }
{
    Ok(Draft {
        scopes: scopes(alloc)?,
        variables: variables(alloc)?,
        aggregates: aggregates(alloc)?,
        constraints: constraints(alloc, n)?,
    })
}
