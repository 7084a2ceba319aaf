//! The draft of a problem, from its blocks and clauses.
ghost use Rattle.std.specs.Prelude.{◌≡◌, ◌≤◌, ◌<◌, ◌^◌, ◌∷◌, ◌++◌, [], List, map, not, cond, length, slice_index_or, IfOk, OnOk};
ghost use Rattle.qdimacs.specs.Formula.{Formula};
ghost use Rattle.qdimacs.specs.Content.{arg_of, name_of as name_of_number, order as order_of, positives as positives_of, negatives as negatives_of, rule_of, scope_of, variable_of as variable_of_number, variables_of as variables_of_blocks};
ghost use Rattle.qdimacs.specs.Refusals.{block_of, literal_of, clause_of};
ghost use Rattle.qdimacs.specs.Table.{filled, draft_of};

use crate::tree::{ClauseText, LiteralText, NumberText, SetText};
use qc_model::{
    Arg, Args, Argument, Constraint, Domain, Draft, Name, Pred, Scope, ScopeId, VarId, Variable,
};
use std::alloc::{AllocError, Global};

fn name_of(alloc: Global, number: u32) -> Result<Name, AllocError>
    ensures { IfOk result (λ name. name ≡ name_of_number number) }
{
    let text = format!(in alloc; "v{number}")?;
    Name::new(alloc, text.as_str())
}

fn variable_of(alloc: Global, scope: u8, number: u32) -> Result<Variable, AllocError>
    ensures { IfOk result (λ variable. variable ≡ variable_of_number scope number) }
{
    Ok(Variable {
        name: name_of(alloc, number)?,
        scope: ScopeId(scope),
        domain: Domain::Bits,
    })
}

fn push_variables(
    alloc: Global,
    variables: &mut Vec<Variable>,
    scope: u8,
    numbers: &[NumberText],
) -> Result<(), AllocError>
    ensures { OnOk result (variables.new.items ≡ variables.old.items ++ map (variable_of_number scope) (map (λ n. n.value) numbers.now)) }
{
    for number in numbers {
        variables.push(variable_of(alloc, scope, number.value)?)?;
    }
    Ok(())
}

fn variables_of(alloc: Global, blocks: &[SetText]) -> Result<Vec<Variable>, AllocError>
    requires { length blocks.now ≤ 64 }
    ensures { IfOk result (λ variables. variables.items ≡ variables_of_blocks 0 (map block_of blocks.now)) }
{
    let mut variables = Vec::new(alloc);
    for (i, block) in blocks.iter().enumerate() {
        push_variables(alloc, &mut variables, i as u8, block.variables.items())?;
    }
    Ok(variables)
}

fn scopes_of(alloc: Global, blocks: &[SetText]) -> Result<Vec<Scope>, AllocError>
    ensures { IfOk result (λ scopes. scopes.items ≡ map scope_of (map block_of blocks.now)) }
{
    let mut scopes = Vec::new(alloc);
    for block in blocks {
        scopes.push(Scope {
            kind: block.kind,
            condition: None,
        })?;
    }
    Ok(scopes)
}

fn push_values(order: &mut Vec<u32>, numbers: &[NumberText]) -> Result<(), AllocError>
    ensures { OnOk result (order.new.items ≡ order.old.items ++ map (λ n. n.value) numbers.now) }
{
    for number in numbers {
        order.push(number.value)?;
    }
    Ok(())
}

fn order(alloc: Global, blocks: &[SetText]) -> Result<Vec<u32>, AllocError>
    ensures { IfOk result (λ order. order.items ≡ order_of (map block_of blocks.now)) }
{
    let mut order = Vec::new(alloc);
    for block in blocks {
        push_values(&mut order, block.variables.items())?;
    }
    Ok(order)
}

/// The place of each variable up to the greatest, by its number.
fn places(alloc: Global, most: u32, order: &[u32]) -> Result<Vec<u16>, AllocError>
    requires most { most ≤ 500 }
    requires few { length order.now ≤ 500 }
    ensures { IfOk result (λ table. table.items ≡ filled most 0 order.now) }
{
    let mut table = vec![in alloc; 0_u16; most as usize + 1]?;
    for (place, variable) in order.iter().enumerate() {
        if *variable <= most {
            table[*variable as usize] = place as u16;
        }
    }
    Ok(table)
}

fn place(table: &[u16], variable: u32) -> u16
    ensures { result ≡ slice_index_or table.now variable 0 }
{
    match table.get(variable as usize) {
        Some(place) => *place,
        // Each variable has a place.
        None => 0,
    }
}

fn push_if(args: &mut Args, is_wanted: bool, place: u16) -> Result<(), AllocError>
    ensures { OnOk result (args.new ≡ args.old ++ cond is_wanted (Arg.Var (record { 0 = place }) ∷ []) []) }
{
    if is_wanted {
        args.push(Arg::Var(VarId(place)))?;
    }
    Ok(())
}

fn positives(alloc: Global, table: &[u16], literals: &[LiteralText]) -> Result<Args, AllocError>
    ensures { IfOk result (λ args. args ≡ map (arg_of (λ x. slice_index_or table.now x 0)) (positives_of (map literal_of literals.now))) }
{
    let mut args = Args::new(alloc);
    for literal in literals {
        push_if(&mut args, literal.positive, place(table, literal.variable))?;
    }
    Ok(args)
}

fn negatives(alloc: Global, table: &[u16], literals: &[LiteralText]) -> Result<Args, AllocError>
    ensures { IfOk result (λ args. args ≡ map (arg_of (λ x. slice_index_or table.now x 0)) (negatives_of (map literal_of literals.now))) }
{
    let mut args = Args::new(alloc);
    for literal in literals {
        push_if(&mut args, !literal.positive, place(table, literal.variable))?;
    }
    Ok(args)
}

fn constraint_of(
    alloc: Global,
    goal: u8,
    table: &[u16],
    clause: &ClauseText,
) -> Result<Constraint, AllocError>
    ensures { IfOk result (λ c. c ≡ rule_of goal (λ x. slice_index_or table.now x 0) (clause_of clause.now)) }
{
    let literals = clause.literals.items();
    let mut args = Vec::new(alloc);
    args.push(Argument::Many(positives(alloc, table, literals)?))?;
    args.push(Argument::Many(negatives(alloc, table, literals)?))?;
    Ok(Constraint {
        owner: ScopeId(goal),
        pred: Pred::BoolClause,
        args,
    })
}

fn constraints_of(
    alloc: Global,
    goal: u8,
    table: &[u16],
    clauses: &[ClauseText],
) -> Result<Vec<Constraint>, AllocError>
    ensures { IfOk result (λ cs. cs.items ≡ map (rule_of goal (λ x. slice_index_or table.now x 0)) (map clause_of clauses.now)) }
{
    let mut constraints = Vec::new(alloc);
    for clause in clauses {
        constraints.push(constraint_of(alloc, goal, table, clause)?)?;
    }
    Ok(constraints)
}

/// The draft of these blocks and clauses, where no variable is above the greatest.
pub(crate) fn make_draft(
    alloc: Global,
    most: u32,
    blocks: &[SetText],
    clauses: &[ClauseText],
) -> Result<Draft, AllocError>
    requires most { most ≤ 500 }
    requires blocks { length blocks.now ≤ 64 }
    requires few { length (order_of (map block_of blocks.now)) ≤ 500 }
    ensures { IfOk result (λ draft. draft ≡ draft_of most (record { blocks = map block_of blocks.now; clauses = map clause_of clauses.now })) }
{
    let order = order(alloc, blocks)?;
    let table = places(alloc, most, order.as_slice())?;
    Ok(Draft {
        scopes: scopes_of(alloc, blocks)?,
        variables: variables_of(alloc, blocks)?,
        aggregates: Vec::new(alloc),
        constraints: constraints_of(alloc, blocks.len() as u8, table.as_slice(), clauses)?,
    })
}
