//! What a reply needs, and what keeps a tuple from being one.
//!
//! A tuple of a scope is a reply where it is in the box, and the box entails with it the scope's constraints and what comes next. What
//! constraints say that have variables of the scope alone is the same in each box. So whoever looks at one tuple in many boxes has
//! only the others asked.
ghost use Rattle.std.specs.Prelude.{◌≡◌};

use crate::board::Board;
use dense_box::is_tuple;
use lemma_reasons::is_entailed;
use model_arguments::{arguments, own_variables};
use qc_model::{Arg, Argument, ConId, Constraint, Pred, ScopeId, VarId};
use std::alloc::{AllocError, Global};

/// A constraint that a box didn't entail with a tuple of a scope, and those of its variables that are the scope's.
#[derive(Drop)]
struct Hindrance {
    rule: ConId,
    variables: Vec<VarId>,
}

// A variable, and the one value that it is to have.
#[derive(Clone, Copy)]
struct Wanted {
    x: VarId,
    value: i64,
}

/// What a tuple of a scope needs to be a reply, besides standing in the box.
#[derive(Drop)]
pub struct Needs {
    // items of arrays that indices of the scope pick, the one that was missed last first
    wanted: Vec<Wanted>,
    // the other constraints that have variables of further scopes
    rules: Vec<ConId>,
    // the one of them that failed last
    hindrance: Option<Hindrance>,
}

impl<'p> Board<'p> {
    /// What the values need to be a reply at scope i; None where they are no tuple in the box, or a constraint on variables of the scope
    /// alone doesn't hold with them. The box stays as it is. It fails only where memory runs out.
    pub fn needs(
        &mut self,
        alloc: Global,
        i: ScopeId,
        values: &[i64],
    ) -> Result<Option<Needs>, AllocError>
        ensures same { self.new.levels ≡ self.old.levels }
    {
        if !self.save()? {
            return Ok(None);
        }
        let mut needs = Needs {
            wanted: Vec::new(alloc),
            rules: Vec::new(alloc),
            hindrance: None,
        };
        let holds = self.take(i, values) && self.add_needs(alloc, i, &mut needs)?;
        self.restore();
        if holds { Ok(Some(needs)) } else { Ok(None) }
    }

    /// Whether the values, whose needs these are, are a tuple of scope i in the box, and the box entails with them the constraints of the
    /// scope and of what comes next. The box stays as it is. It fails only where memory runs out.
    pub fn meets(
        &mut self,
        alloc: Global,
        i: ScopeId,
        values: &[i64],
        needs: &mut Needs,
    ) -> Result<bool, AllocError>
        ensures same { self.new.levels ≡ self.old.levels }
    {
        if !self.has_wanted(needs) || !self.is_in_box(i, values) {
            return Ok(false);
        }
        if needs.rules.is_empty() {
            return Ok(true);
        }
        if let Some(by) = &needs.hindrance
            && self.is_hindered(i, values, by)?
        {
            return Ok(false);
        }
        needs.hindrance = self.hindrance(alloc, i, values, needs.rules.as_slice())?;
        Ok(needs.hindrance.is_none())
    }

    // Whether each variable has the one value that it is to have. The first that hasn't comes to the front.
    fn has_wanted(&self, needs: &mut Needs) -> bool {
        match self.first_missed(needs.wanted.as_slice()) {
            None => true,
            Some(at) => {
                bring_forward(&mut needs.wanted, at);
                false
            }
        }
    }

    // The first that doesn't have its value alone.
    fn first_missed(&self, wanted: &[Wanted]) -> Option<usize> {
        for (at, it) in wanted.iter().enumerate() {
            if self.size(it.x) != 1 || !self.has(it.x, it.value) {
                return Some(at);
            }
        }
        None
    }

    // Whether the values are a tuple of scope i in the box, in which each variable has a value left.
    fn is_in_box(&self, i: ScopeId, values: &[i64]) -> bool {
        if !self.is_scope(i) || self.is_empty() {
            return false;
        }
        is_tuple(self.levels.level(i), self.remains.store(), values)
    }

    // Adds what each constraint of scope i and of what comes next needs, where the scope's variables have one value each. It says whether
    // those hold that have no other variables.
    fn add_needs(&self, alloc: Global, i: ScopeId, needs: &mut Needs) -> Result<bool, AllocError> {
        if !self.is_scope(i) {
            return Ok(false);
        }
        self.levels.problem.known();
        let span = self
            .levels
            .constraints_between(i, ScopeId(i.0.saturating_add(1)));
        let end = span.end.min(self.levels.problem.constraints());
        for k in span.first..end {
            if !self.add_need(alloc, i, ConId(k as u16), needs)? {
                return Ok(false);
            }
        }
        Ok(true)
    }

    // The same for one constraint.
    fn add_need(
        &self,
        alloc: Global,
        i: ScopeId,
        c: ConId,
        needs: &mut Needs,
    ) -> Result<bool, AllocError> {
        self.levels.problem.known();
        if c.0 as usize >= self.levels.problem.constraints() {
            return Ok(false);
        }
        let rule = self.levels.problem.constraint(c);
        if let Some(wanted) = self.picked(i, rule) {
            needs.wanted.push(wanted)?;
            return Ok(true);
        }
        if self.has_others(alloc, i, rule)? {
            needs.rules.push(c)?;
            return Ok(true);
        }
        Ok(self.holds(c))
    }

    // The item of another scope that an element's index picks, and the value that it is to have, where scope i alone decides both. Then the
    // element is entailed just where the item has that value alone.
    fn picked(&self, i: ScopeId, rule: &Constraint) -> Option<Wanted> {
        match rule.pred {
            Pred::ArrayVarIntElement => {}
            Pred::ArrayVarBoolElement => {}
            _ => return None,
        }
        let args = arguments(rule);
        let place = self.own_value(i, args.first()?)?;
        let value = self.own_value(i, args.get(2)?)?;
        let x = item_at(args.get(1)?, place)?;
        if self.is_own(i, x) {
            return None;
        }
        Some(Wanted { x, value })
    }

    // The value of a number, or the least one left to a variable of scope i.
    fn own_value(&self, i: ScopeId, argument: &Argument) -> Option<i64> {
        match argument {
            Argument::One(Arg::Num(n)) => Some(*n),
            Argument::One(Arg::Var(x)) => {
                if self.is_own(i, *x) {
                    Some(self.least(*x))
                } else {
                    None
                }
            }
            _ => None,
        }
    }

    // Whether x is a variable of scope i.
    fn is_own(&self, i: ScopeId, x: VarId) -> bool {
        match self.level(i) {
            None => false,
            Some(level) => level.from <= x.0 as usize && (x.0 as usize) < level.stop,
        }
    }

    // Whether the constraint has a variable of another scope than i.
    fn has_others(&self, alloc: Global, i: ScopeId, rule: &Constraint) -> Result<bool, AllocError> {
        let all = own_variables(alloc, arguments(rule))?;
        for x in all.as_slice() {
            if !self.is_own(i, *x) {
                return Ok(true);
            }
        }
        Ok(false)
    }

    // The first of the constraints that the box doesn't entail with the values as a tuple of scope i. The box stays as it is.
    fn hindrance(
        &mut self,
        alloc: Global,
        i: ScopeId,
        values: &[i64],
        rules: &[ConId],
    ) -> Result<Option<Hindrance>, AllocError>
        ensures same { self.new.levels ≡ self.old.levels }
    {
        if !self.save()? {
            return Ok(None);
        }
        let _ = self.take(i, values);
        let found = self.first_open_rule(rules);
        self.restore();
        match found {
            None => Ok(None),
            Some(rule) => Ok(Some(Hindrance {
                rule,
                variables: self.variables_of(alloc, rule, i)?,
            })),
        }
    }

    // Whether the box doesn't entail the constraint with the values as a tuple of scope i either. The box stays as it is.
    fn is_hindered(
        &mut self,
        i: ScopeId,
        values: &[i64],
        by: &Hindrance,
    ) -> Result<bool, AllocError>
        ensures same { self.new.levels ≡ self.old.levels }
    {
        if !self.save()? {
            return Ok(true);
        }
        let hindered = !self.keep_each(i, values, by.variables.as_slice()) || !self.holds(by.rule);
        self.restore();
        Ok(hindered)
    }

    // Whether the box entails the constraint.
    fn holds(&self, rule: ConId) -> bool {
        self.levels.problem.known();
        if rule.0 as usize >= self.levels.problem.constraints() || self.remains.is_empty() {
            return false;
        }
        is_entailed(self.levels.problem, rule, self.remains.store())
    }

    // The first of the constraints that the box doesn't entail.
    fn first_open_rule(&self, rules: &[ConId]) -> Option<ConId> {
        for rule in rules {
            if !self.holds(*rule) {
                return Some(*rule);
            }
        }
        None
    }

    // The variables of a constraint that are those of scope i.
    fn variables_of(
        &self,
        alloc: Global,
        rule: ConId,
        i: ScopeId,
    ) -> Result<Vec<VarId>, AllocError> {
        let mut found = Vec::new(alloc);
        self.levels.problem.known();
        if rule.0 as usize >= self.levels.problem.constraints() {
            return Ok(found);
        }
        let all = own_variables(alloc, arguments(self.levels.problem.constraint(rule)))?;
        for x in all.as_slice() {
            if self.is_own(i, *x) {
                found.push(*x)?;
            }
        }
        Ok(found)
    }

    // Leaves each of the variables of scope i its value of the tuple alone, as long as they have these, and says whether all have.
    fn keep_each(&mut self, i: ScopeId, values: &[i64], variables: &[VarId]) -> bool
        ensures same { self.new.levels ≡ self.old.levels }
    {
        let from = match self.level(i) {
            None => return false,
            Some(level) => level.from,
        };
        for x in variables {
            let Some(value) = values.get((x.0 as usize).saturating_sub(from)) else {
                return false;
            };
            if !self.keep(*x, *value) {
                return false;
            }
        }
        true
    }
}

fn bring_forward(wanted: &mut Vec<Wanted>, at: usize) {
    if at < wanted.len() {
        wanted.as_mut_slice().swap(0, at);
    }
}

// The variable that stands at a place of an array, counted from 1.
fn item_at(items: &Argument, place: i64) -> Option<VarId> {
    let Argument::Many(items) = items else {
        return None;
    };
    let at = place.checked_sub(1)?;
    let Ok(at) = usize::try_from(at) else {
        return None;
    };
    match items.items().get(at)? {
        Arg::Var(x) => Some(*x),
        Arg::Num(_) => None,
    }
}
