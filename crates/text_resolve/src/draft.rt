//! The problem that the items of a text make.
ghost use Rattle.std.specs.Prelude.{◌≡◌, ◌≤◌, length, IfOk, IsTrue, filter_map};
ghost use Rattle.qc_model.specs.Names.{is_word};
ghost use Rattle.text_resolve.specs.Owned.{owned, word_bytes};
ghost use Rattle.text_resolve.specs.Names.{declared};
ghost use Rattle.text_resolve.specs.Draft.{target_of as target_of_word, condition_of as condition_of_text, fold_of as fold_of_text, scope_of as scope_of_item, variable_of as variable_of_item, aggregate_of as aggregate_of_item, constraint_of as constraint_of_item, game_of};
ghost use Rattle.text_resolve.specs.Makeable.{IsMakeable, declares_word};

use crate::arguments::arguments_of;
use crate::bytes::bytes_of;
use crate::counts::Counts;
use crate::domains::domain_of;
use crate::names::{Named, Names};
use crate::predicates::predicate_of;
use qc_model::{
    AggId, Aggregate, Condition, Constraint, Draft, Fold, Kind, Name, Scope, ScopeId, Target,
    VarId, Variable, arg_kinds_of,
};
use std::alloc::{AllocError, Global};
use std::str;
use text_grammar::{ConditionText, FoldText, Item, Word};

fn target_of(names: &Names, word: Word) -> Target
    requires { IsMakeable names.now.text.now names.now.items.now }
    ensures { result ≡ target_of_word names.now.text.now (declared names.now.text.now names.now.items.now) word }
{
    match names.look_up(word) {
        Some(meant) => match meant.named {
            Named::Integer(x) | Named::Boolean(x) => Target::Var(VarId(x as u16)),
            Named::Aggregate(q) => Target::Aggregate(AggId(q as u8)),
        },
        None => Target::Var(VarId(0)),
    }
}

fn condition_of(names: &Names, condition: &Option<ConditionText>) -> Option<Condition>
    requires { IsMakeable names.now.text.now names.now.items.now }
    ensures { result ≡ condition_of_text names.now.text.now (declared names.now.text.now names.now.items.now) condition.now }
{
    match condition {
        Some(condition) => Some(Condition {
            sense: condition.sense,
            target: target_of(names, condition.target),
        }),
        None => None,
    }
}

fn fold_of(fold: &FoldText) -> Fold
    ensures { result ≡ fold_of_text fold.now }
{
    match fold {
        FoldText::Sum => Fold::Sum,
        FoldText::Least(number) => Fold::Least(number.value),
        FoldText::Greatest(number) => Fold::Greatest(number.value),
    }
}

/// The name that the text declares by this word.
fn name_of(alloc: Global, text: &[u8], word: Word) -> Result<Name, AllocError>
    requires { IsTrue (is_word (word_bytes text.now word)) }
    ensures { IfOk result (λ name. name ≡ word_bytes text.now word) }
{
    match str::from_utf8(bytes_of(text, word)) {
        Ok(name) => Name::new(alloc, name),
        // The bytes of a word are ASCII.
        Err(_) => unreachable!(),
    }
}

fn scope_of(names: &Names, owner: usize, item: &Item) -> Option<Scope>
    requires { IsMakeable names.now.text.now names.now.items.now }
    ensures { result ≡ scope_of_item names.now.text.now (declared names.now.text.now names.now.items.now) (record { owner = owner; item = item.now }) }
{
    match item {
        Item::Exists { condition, .. } => Some(Scope {
            kind: Kind::Exists,
            condition: condition_of(names, condition),
        }),
        Item::Forall { .. } => Some(Scope {
            kind: Kind::Forall,
            condition: None,
        }),
        Item::Goal => None,
        Item::Variable { .. } => None,
        Item::Aggregate { .. } => None,
        Item::Constraint { .. } => None,
    }
}

fn variable_of(
    alloc: Global,
    text: &[u8],
    owner: usize,
    item: &Item,
) -> Result<Option<Variable>, AllocError>
    requires few { owner ≤ 64 }
    requires word { IsTrue (declares_word text.now item.now) }
    ensures { IfOk result (λ variable. variable ≡ variable_of_item text.now (record { owner = owner; item = item.now })) }
{
    match item {
        Item::Variable { domain, name, .. } => Ok(Some(Variable {
            name: name_of(alloc, text, *name)?,
            scope: ScopeId(owner as u8),
            domain: domain_of(alloc, domain)?,
        })),
        Item::Exists { .. } => Ok(None),
        Item::Forall { .. } => Ok(None),
        Item::Goal => Ok(None),
        Item::Aggregate { .. } => Ok(None),
        Item::Constraint { .. } => Ok(None),
    }
}

fn aggregate_of(
    alloc: Global,
    names: &Names,
    owner: usize,
    item: &Item,
) -> Result<Option<Aggregate>, AllocError>
    requires few { owner ≤ 64 }
    requires word { IsTrue (declares_word names.now.text.now item.now) }
    requires makeable { IsMakeable names.now.text.now names.now.items.now }
    ensures { IfOk result (λ aggregate. aggregate ≡ aggregate_of_item names.now.text.now (declared names.now.text.now names.now.items.now) (record { owner = owner; item = item.now })) }
{
    match item {
        Item::Aggregate {
            name,
            fold,
            target,
            ..
        } => Ok(Some(Aggregate {
            name: name_of(alloc, names.text, *name)?,
            scope: ScopeId(owner as u8),
            fold: fold_of(fold),
            target: target_of(names, *target),
        })),
        Item::Exists { .. } => Ok(None),
        Item::Forall { .. } => Ok(None),
        Item::Goal => Ok(None),
        Item::Variable { .. } => Ok(None),
        Item::Constraint { .. } => Ok(None),
    }
}

fn constraint_of(
    alloc: Global,
    names: &Names,
    owner: usize,
    item: &Item,
) -> Result<Option<Constraint>, AllocError>
    requires few { owner ≤ 64 }
    requires makeable { IsMakeable names.now.text.now names.now.items.now }
    ensures { IfOk result (λ constraint. constraint ≡ constraint_of_item names.now.text.now (declared names.now.text.now names.now.items.now) (record { owner = owner; item = item.now })) }
{
    let Item::Constraint { name, args, .. } = item else {
        return Ok(None);
    };
    match predicate_of(bytes_of(names.text, *name)) {
        Some(pred) => Ok(Some(Constraint {
            owner: ScopeId(owner as u8),
            pred,
            args: arguments_of(alloc, names, arg_kinds_of(pred), args.items())?,
        })),
        None => Ok(None),
    }
}

fn scopes_of(alloc: Global, names: &Names) -> Result<Vec<Scope>, AllocError>
    requires { IsMakeable names.now.text.now names.now.items.now }
    ensures { IfOk result (λ scopes. scopes.items ≡ filter_map (scope_of_item names.now.text.now (declared names.now.text.now names.now.items.now)) (owned names.now.items.now)) }
{
    let mut counts = Counts::START;
    let mut scopes = Vec::new(alloc);
    for item in names.items {
        counts = counts.after(item);
        if let Some(scope) = scope_of(names, counts.owner, item) {
            scopes.push(scope)?;
        }
    }
    Ok(scopes)
}

fn variables_of(alloc: Global, names: &Names) -> Result<Vec<Variable>, AllocError>
    requires { IsMakeable names.now.text.now names.now.items.now }
    ensures { IfOk result (λ variables. variables.items ≡ filter_map (variable_of_item names.now.text.now) (owned names.now.items.now)) }
{
    let mut counts = Counts::START;
    let mut variables = Vec::new(alloc);
    for item in names.items {
        counts = counts.after(item);
        if let Some(variable) = variable_of(alloc, names.text, counts.owner, item)? {
            variables.push(variable)?;
        }
    }
    Ok(variables)
}

fn aggregates_of(alloc: Global, names: &Names) -> Result<Vec<Aggregate>, AllocError>
    requires { IsMakeable names.now.text.now names.now.items.now }
    ensures { IfOk result (λ aggregates. aggregates.items ≡ filter_map (aggregate_of_item names.now.text.now (declared names.now.text.now names.now.items.now)) (owned names.now.items.now)) }
{
    let mut counts = Counts::START;
    let mut aggregates = Vec::new(alloc);
    for item in names.items {
        counts = counts.after(item);
        if let Some(aggregate) = aggregate_of(alloc, names, counts.owner, item)? {
            aggregates.push(aggregate)?;
        }
    }
    Ok(aggregates)
}

fn constraints_of(alloc: Global, names: &Names) -> Result<Vec<Constraint>, AllocError>
    requires { IsMakeable names.now.text.now names.now.items.now }
    ensures { IfOk result (λ constraints. constraints.items ≡ filter_map (constraint_of_item names.now.text.now (declared names.now.text.now names.now.items.now)) (owned names.now.items.now)) }
{
    let mut counts = Counts::START;
    let mut constraints = Vec::new(alloc);
    for item in names.items {
        counts = counts.after(item);
        if let Some(constraint) = constraint_of(alloc, names, counts.owner, item)? {
            constraints.push(constraint)?;
        }
    }
    Ok(constraints)
}

/// The problem that the items make, where nothing in them is in excess.
pub(crate) fn make_draft(alloc: Global, names: &Names) -> Result<Draft, AllocError>
    requires { IsMakeable names.now.text.now names.now.items.now }
    ensures made { IfOk result (λ draft. draft ≡ game_of names.now.text.now names.now.items.now) }
    ensures few { IfOk result (λ draft. length draft.scopes ≤ 64) }
{
    Ok(Draft {
        scopes: scopes_of(alloc, names)?,
        variables: variables_of(alloc, names)?,
        aggregates: aggregates_of(alloc, names)?,
        constraints: constraints_of(alloc, names)?,
    })
}
