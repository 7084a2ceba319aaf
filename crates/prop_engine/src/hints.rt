//! Two literals of each clause by which it mostly shows that nothing need be removed for its sake.
//!
//! A clause removes nothing where one of its literals holds, or where two of them, not both the same, don't fail. So it needn't
//! wait then. Two literals are kept of each clause, and these are looked at first; only where they don't show it, all are gone
//! over, for others to keep. Which of its literals are kept is advice: what counts is how they stand now, so nothing is taken
//! back where values come back.
ghost use Rattle.std.specs.Prelude.{◌≡◌, ◌<◌, IsTrue, IfOk, IfSome, length};
ghost use Rattle.std.specs.List.{list_all};
ghost use Rattle.qc_model.specs.Closed.{keeps_ends};
ghost use Rattle.model_arguments.specs.Asked.{is_box_of};
ghost use Rattle.model_arguments.specs.Repeats.{has_place};
ghost use Rattle.prop_base.specs.Pruning.{is_just};
ghost use Rattle.prop_engine.specs.Closing.{EachRule};
ghost use Rattle.prop_engine.specs.Literals.{IsLiteralOf, StaysOpen};
ghost use Rattle.prop_engine.specs.Watching.{IsHintsOf};

use crate::literals::{Literal, Standing, are_enough, is_same, literal_at, standing_of};
use fd_store::Store;
use model_arguments::{arguments, items_at};
use qc_model::{Arg, ConId, Pred, Problem, VarId};
use std::alloc::{AllocError, Global};
use std::marker::Model;

/// Two literals of a clause, once they are known.
#[derive(Clone, Copy)]
pub(crate) struct Hint {
    pub(crate) known: bool,
    pub(crate) one: Literal,
    pub(crate) other: Literal,
}

/// The literals that are kept of each constraint.
#[derive(Drop)]
pub(crate) struct Hints {
    items: Vec<Hint>,
}

impl Model for Hints {
    ghost use Rattle.std.specs.Prelude.{List};
    ghost use Rattle.prop_engine.specs.declared.hints.Hint.{Hint};

    ghost Value = { List Hint };

    ghost view = { λ a. a.items.items };
}

const NOTHING: Literal = Literal {
    x: VarId(0),
    positive: false,
};

// Two literals that show that the clause removes nothing, where there are such.
#[inline(never)]
fn find(plain: &[Arg], negated: &[Arg], store: &Store) -> Option<Hint>
    requires plain { IsTrue (list_all (has_place (length store.now.box)) plain.now) }
    requires negated { IsTrue (list_all (has_place (length store.now.box)) negated.now) }
    ensures open { IfSome result (λ h. StaysOpen store.now.box plain.now negated.now) }
    ensures one { IfSome result (λ h. IsLiteralOf plain.now negated.now h.one) }
    ensures other { IfSome result (λ h. IsLiteralOf plain.now negated.now h.other) }
{
    let mut free: Option<Literal> = None;
    for k in 0..plain.len().saturating_add(negated.len()) {
        if let Some(literal) = literal_at(plain, negated, k) {
            match standing_of(literal, store) {
                Standing::Holds => {
                    return Some(Hint {
                        known: true,
                        one: literal,
                        other: literal,
                    });
                }
                Standing::Fails => {}
                Standing::Unfixed => match free {
                    None => free = Some(literal),
                    Some(first) => {
                        if !is_same(first, literal) {
                            return Some(Hint {
                                known: true,
                                one: first,
                                other: literal,
                            });
                        }
                    }
                },
            }
        }
    }
    None
}

impl Hints {
    /// Nothing known yet, of each of the problem's constraints.
    pub(crate) fn of_problem(alloc: Global, problem: &Problem) -> Result<Hints, AllocError>
        ensures { IfOk result (λ h. IsHintsOf problem.now h) }
    {
        let nothing = Hint {
            known: false,
            one: NOTHING,
            other: NOTHING,
        };
        Ok(Hints {
            items: vec![in alloc; nothing; problem.constraints()]?,
        })
    }

    // So by all its literals, of which two that show it are kept.
    #[inline(never)]
    fn looks_idle(&mut self, problem: &Problem, c: ConId, store: &Store) -> bool
        requires c { c.0 < length problem.now.constraints }
        requires hints { IsHintsOf problem.now self.old }
        requires declared { IsTrue (is_box_of problem.now store.now.box) }
        ensures hints { IsHintsOf problem.now self.new }
        ensures closed { IsTrue result → EachRule (is_just c.0) problem.now (keeps_ends store.now.box) }
    {
        problem.known();
        let rule = problem.constraint(c);
        if let Pred::BoolClause = rule.pred {
            let plain = items_at(arguments(rule), 0);
            let negated = items_at(arguments(rule), 1);
            if let Some(found) = find(plain, negated, store) {
                self.items[c.0 as usize] = found;
                return true;
            }
        }
        false
    }

    /// Whether the constraint is a clause that removes nothing as the box is.
    #[inline(always)]
    pub(crate) fn is_idle(&mut self, problem: &Problem, c: ConId, store: &Store) -> bool
        requires c { c.0 < length problem.now.constraints }
        requires hints { IsHintsOf problem.now self.old }
        requires declared { IsTrue (is_box_of problem.now store.now.box) }
        ensures hints { IsHintsOf problem.now self.new }
        ensures closed { IsTrue result → EachRule (is_just c.0) problem.now (keeps_ends store.now.box) }
    {
        problem.known();
        let hint = self.items[c.0 as usize];
        if hint.known {
            if are_enough(hint.one, hint.other, store) {
                return true;
            }
        }
        self.looks_idle(problem, c, store)
    }
}
