//! Gathering what `Facts` tells.
use crate::facts::{OfRule, OfScope, OfVariable, TruthOf, Waker, Wakes, rule_at};
use crate::sums::linear_of;
use model_arguments::{arguments, items_at, own_variables};
use qc_model::{Arg, Constraint, Domain, Kind, Meaning, Problem, VarId, meaning_of};
use std::alloc::{AllocError, Global};

fn ends_of(domain: &Domain) -> (i64, i64) {
    match domain {
        Domain::Bits => (0, 1),
        Domain::Range(lo, hi) => (*lo, *hi),
        Domain::Listed(numbers) => match numbers.items() {
            [] => (0, 0),
            [first, .., last] => (*first, *last),
            [only] => (*only, *only),
        },
    }
}

fn side_at(problem: &Problem, scope: usize) -> Kind {
    if scope >= problem.scopes() {
        return Kind::Exists;
    }
    problem.known();
    problem.scope(qc_model::ScopeId(scope as u8)).kind
}

/// Each scope, and the goal behind them.
pub(crate) fn gathered_scopes(
    alloc: Global,
    problem: &Problem,
) -> Result<Vec<OfScope>, AllocError> {
    problem.known();
    let mut scopes = Vec::new(alloc);
    let mut rules = 0usize;
    for i in 0..problem.scopes() + 1 {
        let end = rules.saturating_add(problem.restriction(i).len());
        scopes.push(OfScope {
            side: side_at(problem, i),
            first: problem.variables_before(i),
            end: problem.variables_before(i + 1),
            rules_first: rules,
            rules_end: end,
            reach_exists: 0,
            reach_forall: 0,
        })?;
        rules = end;
    }
    let mut reach_exists = problem.scopes() + 1;
    let mut reach_forall = problem.scopes() + 1;
    for scope in scopes.iter_mut().enumerate().rev() {
        let (i, it) = scope;
        if i < problem.scopes() && it.rules_first < it.rules_end {
            match it.side {
                Kind::Exists => reach_forall = i,
                Kind::Forall => reach_exists = i,
            }
        }
        it.reach_exists = reach_exists;
        it.reach_forall = reach_forall;
    }
    Ok(scopes)
}

/// Each variable.
pub(crate) fn gathered_variables(
    alloc: Global,
    problem: &Problem,
    scopes: &[OfScope],
) -> Result<Vec<OfVariable>, AllocError> {
    let mut variables = Vec::new(alloc);
    for it in problem.all_variables() {
        let scope = it.scope.0 as usize;
        let (least, greatest) = ends_of(&it.domain);
        variables.push(OfVariable {
            scope,
            side: side_in(scopes, scope),
            least,
            greatest,
        })?;
    }
    Ok(variables)
}

fn side_in(scopes: &[OfScope], scope: usize) -> Kind {
    match scopes.get(scope) {
        Some(it) => it.side,
        None => Kind::Exists,
    }
}

/// Each constraint.
pub(crate) fn gathered_rules(
    alloc: Global,
    problem: &Problem,
    scopes: &[OfScope],
) -> Result<Vec<OfRule>, AllocError> {
    problem.known();
    let mut rules = Vec::new(alloc);
    for i in 0..problem.scopes() + 1 {
        for rule in problem.restriction(i) {
            rules.push(gathered(alloc, rule, i, side_in(scopes, i))?)?;
        }
    }
    Ok(rules)
}

fn gathered(
    alloc: Global,
    rule: &Constraint,
    scope: usize,
    side: Kind,
) -> Result<OfRule, AllocError> {
    let mut own = own_variables(alloc, arguments(rule))?;
    let written = own.len();
    own.sort_unstable_by_key(|x| x.0);
    let own = once_each(alloc, &own)?;
    let mut items = Vec::new(alloc);
    let row = meaning_of(rule.pred);
    if row.meaning == Meaning::Clause && !row.reified && own.len() == written {
        items = clause_items(alloc, rule)?;
    }
    Ok(OfRule {
        scope,
        side,
        own,
        items,
        linear: linear_of(alloc, rule)?,
    })
}

// Ascending numbers without repeats.
fn once_each(alloc: Global, sorted: &[VarId]) -> Result<Vec<VarId>, AllocError> {
    let mut once: Vec<VarId> = Vec::new(alloc);
    for x in sorted {
        let is_new = match once.last() {
            Some(last) => last.0 != x.0,
            None => true,
        };
        if is_new {
            once.push(*x)?;
        }
    }
    Ok(once)
}

// The items of a clause where all are variables, and otherwise none.
fn clause_items(alloc: Global, rule: &Constraint) -> Result<Vec<TruthOf>, AllocError> {
    let mut items = Vec::new(alloc);
    let args = arguments(rule);
    for (place, value) in [(0usize, 1i64), (1usize, 0i64)] {
        for item in items_at(args, place) {
            match item {
                Arg::Var(x) => items.push(TruthOf { x: *x, value })?,
                Arg::Num(_) => return Ok(Vec::new(alloc)),
            }
        }
    }
    Ok(items)
}

/// The constraints that mention each variable.
pub(crate) fn gathered_wakers(
    alloc: Global,
    problem: &Problem,
    rules: &[OfRule],
) -> Result<Vec<Vec<Waker>>, AllocError> {
    let mut wakers: Vec<Vec<Waker>> = Vec::new(alloc);
    for _ in 0..problem.variables() {
        wakers.push(Vec::new(alloc))?;
    }
    for (k, rule) in rules.iter().enumerate() {
        for x in rule.own.as_slice() {
            if let Some(list) = wakers.get_mut(x.0 as usize) {
                list.push(Waker {
                    c: rule_at(k),
                    when: when_woken(rule, *x),
                })?;
            }
        }
    }
    Ok(wakers)
}

fn when_woken(rule: &OfRule, x: VarId) -> Wakes {
    for item in rule.items.as_slice() {
        if item.x.0 == x.0 {
            // it becomes false once its other value alone is left
            return if item.value == 1 {
                Wakes::Lowered
            } else {
                Wakes::Raised
            };
        }
    }
    match &rule.linear {
        Some(linear) if !linear.is_equal => {
            let factor = linear.factor_of(x);
            let in_bound = matches!(linear.bound, Arg::Var(y) if y.0 == x.0);
            if in_bound || factor == 0 {
                Wakes::Changed
            } else if factor > 0 {
                Wakes::Raised
            } else {
                Wakes::Lowered
            }
        }
        _ => Wakes::Changed,
    }
}
