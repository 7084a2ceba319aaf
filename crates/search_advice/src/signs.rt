//! Which value of a Boolean variable most clauses want.
//!
//! A clause of the goal, or of a scope of the player, is one that the player has to satisfy, and one of a scope of the opponent
//! one that the opponent has to. Of a variable of the player the first value to try is the one by which it satisfies more of the
//! player's clauses than by the other, where those of the opponent count against it; of one of the opponent it is the other way
//! round. That is little to go by, so it is asked only where nothing better is known.
use model_arguments::{arguments, items_at};
use model_levels::{Level, Levels};
use qc_model::{Arg, Constraint, Kind, Pred, ScopeId};
use std::alloc::{AllocError, Global};

/// For each variable how many more of the player's clauses than of the opponent's want it true, less how many more want it
/// false.
#[derive(Drop)]
pub(crate) struct Signs {
    balance: Vec<i64>,
}

impl Signs {
    /// Those of all clauses. It fails only where memory runs out.
    pub(crate) fn new(alloc: Global, levels: &Levels) -> Result<Signs, AllocError> {
        levels.problem.known();
        let mut signs = Signs {
            balance: vec![in alloc; 0i64; levels.problem.variables()]?,
        };
        for i in 0..levels.problem.scopes() {
            let level = levels.level(ScopeId(i as u8));
            signs.add_rules(level.rules, level.kind);
        }
        signs.add_rules(levels.goal_rules, Kind::Exists);
        Ok(signs)
    }

    /// Whether some variable of the scope has a sign.
    pub(crate) fn has(&self, level: &Level) -> bool {
        for x in level.from..level.stop {
            if self.value(level.kind, x).is_some() {
                return true;
            }
        }
        false
    }

    /// The value of x, a variable of a scope of this kind, that its owner wants by the signs of its literals; None where they
    /// are even.
    pub(crate) fn value(&self, kind: Kind, x: usize) -> Option<i64> {
        let balance = match self.balance.get(x) {
            Some(balance) => *balance,
            None => 0,
        };
        if balance == 0 {
            return None;
        }
        match kind {
            Kind::Exists => Some((balance > 0) as i64),
            Kind::Forall => Some((balance < 0) as i64),
        }
    }

    /// Counts the clauses among the rules, which the owner of a scope of this kind has to satisfy.
    fn add_rules(&mut self, rules: &[Constraint], owner: Kind) {
        let wanted = match owner {
            Kind::Exists => 1,
            Kind::Forall => -1,
        };
        for rule in rules {
            if let Pred::BoolClause = rule.pred {
                self.add_items(items_at(arguments(rule), 0), wanted);
                self.add_items(items_at(arguments(rule), 1), -wanted);
            }
        }
    }

    fn add_items(&mut self, items: &[Arg], sign: i64) {
        for item in items {
            if let Arg::Var(x) = item {
                if let Some(balance) = self.balance.get_mut(x.0 as usize) {
                    *balance = balance.saturating_add(sign);
                }
            }
        }
    }
}
