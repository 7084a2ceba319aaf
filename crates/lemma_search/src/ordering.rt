//! The variables of each scope, those first on which most conflicts rested of late.
use lemma_engine::Engine;
use lemma_ground::variable_at;
use std::alloc::{AllocError, Global};

/// All variables, scope by scope, and how far those of a scope were gone over since the search went back last. Between two
/// conflicts few of them change their places, so each scope is put in order anew once it is asked.
#[derive(Drop)]
pub(crate) struct Order {
    variables: Vec<usize>,
    // Where to look next, or none where the scope isn't in order.
    next: Vec<Option<usize>>,
}

impl Order {
    /// The variables as they are declared.
    pub(crate) fn new(alloc: Global, engine: &Engine) -> Result<Order, AllocError> {
        let mut variables = Vec::new(alloc);
        for k in 0..engine.facts.variables() {
            variables.push(k)?;
        }
        let mut next = Vec::new(alloc);
        for _ in 0..engine.facts.goal().saturating_add(1) {
            next.push(None)?;
        }
        Ok(Order { variables, next })
    }

    /// The search went back.
    pub(crate) fn begin_again(&mut self) {
        for next in self.next.iter_mut() {
            *next = None;
        }
    }

    /// The first variable in the order of the scope at hand that is open, and how many were gone over.
    pub(crate) fn first_open(
        &mut self,
        engine: &Engine,
        activity: &[f64],
    ) -> (Option<usize>, usize) {
        let (first, end) = engine.facts.variables_at(engine.scope);
        let mut gone_over = 0usize;
        let mut at = match self.next.get(engine.scope) {
            Some(Some(at)) => *at,
            _ => {
                gone_over = sort_within(&mut self.variables, first, end, activity);
                first
            }
        };
        let mut found = None;
        for _ in first..end {
            if at >= end {
                break;
            }
            gone_over = gone_over.saturating_add(1);
            if let Some(k) = self.variables.get(at).copied()
                && engine.boxes.size(variable_at(k)) > 1
            {
                found = Some(k);
                break;
            }
            at = at.saturating_add(1);
        }
        if let Some(next) = self.next.get_mut(engine.scope) {
            *next = Some(at);
        }
        (found, gone_over)
    }
}

// Puts the variables from `first` to the one before `end` in order, and says how many were gone over.
fn sort_within(variables: &mut [usize], first: usize, end: usize, activity: &[f64]) -> usize {
    let mut gone_over = end.saturating_sub(first);
    for k in first.saturating_add(1)..end {
        let moved = put_in_place(variables, first, k, activity);
        gone_over = gone_over.saturating_add(moved);
    }
    gone_over
}

// Moves the variable at a place before those that come after it, of which the ones from `first` on are in order.
fn put_in_place(variables: &mut [usize], first: usize, place: usize, activity: &[f64]) -> usize {
    let Some(k) = variables.get(place).copied() else {
        return 0;
    };
    let mut at = place;
    for _ in first..place {
        let Some(before) = variables.get(at.saturating_sub(1)).copied() else {
            break;
        };
        if !comes_before(k, before, activity) {
            break;
        }
        if let Some(slot) = variables.get_mut(at) {
            *slot = before;
        }
        at = at.saturating_sub(1);
    }
    if let Some(slot) = variables.get_mut(at) {
        *slot = k;
    }
    place.saturating_sub(at)
}

fn comes_before(a: usize, b: usize, activity: &[f64]) -> bool {
    match (activity.get(a), activity.get(b)) {
        (Some(one), Some(other)) => *one > *other || *one == *other && a < b,
        _ => false,
    }
}
