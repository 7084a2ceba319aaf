//! Sums of linear constraints.
use crate::boxes::Boxes;
use crate::facts::Facts;
use model_arguments::{arguments, items_at, numbers_at, one_at};
use qc_model::{Arg, Constraint, Meaning, VarId, meaning_of};
use std::alloc::{AllocError, Global};

/// An item of a sum, times its factor.
#[derive(Clone, Copy)]
pub struct Term {
    pub factor: i64,
    pub item: Arg,
}

/// The sum of the terms equals the bound, or is at most that.
#[derive(Drop)]
pub struct Linear {
    pub is_equal: bool,
    pub terms: Vec<Term>,
    pub bound: Arg,
}

/// Where a sum lies.
#[derive(Clone, Copy, PartialEq, Eq)]
pub struct Total {
    pub lo: i64,
    pub hi: i64,
}

const NOTHING: Total = Total { lo: 0, hi: 0 };

impl Total {
    /// The sums of one number of each.
    pub fn with(self, other: Total) -> Total {
        Total {
            lo: self.lo.saturating_add(other.lo),
            hi: self.hi.saturating_add(other.hi),
        }
    }
}

impl Term {
    fn total(&self, boxes: &Boxes) -> Total {
        let (least, greatest) = boxes.ends(self.item);
        let (a, b) = (
            self.factor.saturating_mul(least),
            self.factor.saturating_mul(greatest),
        );
        Total {
            lo: a.min(b),
            hi: a.max(b),
        }
    }

    // Whether it is of a variable of a scope before this one.
    fn is_before(&self, facts: &Facts, stop: usize) -> bool {
        match self.item {
            Arg::Var(x) => facts.scope_of(x) < stop,
            Arg::Num(_) => false,
        }
    }
}

impl Linear {
    /// Where the sum of all terms lies.
    pub fn total(&self, boxes: &Boxes) -> Total {
        let mut sum = NOTHING;
        for term in self.terms.as_slice() {
            sum = sum.with(term.total(boxes));
        }
        sum
    }

    /// Where the sum of the terms lies that are of variables of scopes before this one.
    pub fn total_before(&self, facts: &Facts, boxes: &Boxes, stop: usize) -> Total {
        let mut sum = NOTHING;
        for term in self.terms.as_slice() {
            if term.is_before(facts, stop) {
                sum = sum.with(term.total(boxes));
            }
        }
        sum
    }

    /// Where the sum of the other terms lies.
    pub fn total_after(&self, facts: &Facts, boxes: &Boxes, stop: usize) -> Total {
        let mut sum = NOTHING;
        for term in self.terms.as_slice() {
            if !term.is_before(facts, stop) {
                sum = sum.with(term.total(boxes));
            }
        }
        sum
    }

    /// Whether a sum that lies there keeps the constraint.
    pub fn is_kept_by(&self, sum: Total, boxes: &Boxes) -> bool {
        let (least, greatest) = boxes.ends(self.bound);
        if self.is_equal {
            least == greatest && sum.lo == least && sum.hi == least
        } else {
            sum.hi <= least
        }
    }

    /// Whether a sum that lies there refutes it.
    pub fn is_refuted_by(&self, sum: Total, boxes: &Boxes) -> bool {
        let (least, greatest) = boxes.ends(self.bound);
        sum.lo > greatest || self.is_equal && sum.hi < least
    }

    /// The factor of a variable, or 0.
    pub fn factor_of(&self, x: VarId) -> i64 {
        let mut factor = 0i64;
        for term in self.terms.as_slice() {
            if let Arg::Var(y) = term.item
                && y.0 == x.0
            {
                factor = factor.saturating_add(term.factor);
            }
        }
        factor
    }
}

fn of_items(
    alloc: Global,
    factors: &[i64],
    items: &[Arg],
    bound: Arg,
    is_equal: bool,
) -> Result<Option<Linear>, AllocError> {
    let mut terms = Vec::new(alloc);
    for (factor, item) in factors.iter().zip(items.iter()) {
        terms.push(Term {
            factor: *factor,
            item: *item,
        })?;
    }
    Ok(Some(Linear {
        is_equal,
        terms,
        bound,
    }))
}

/// The sum of a constraint that is linear: one with factors, `x <= y`, `x < y`, or `x + y = z`.
pub(crate) fn linear_of(alloc: Global, rule: &Constraint) -> Result<Option<Linear>, AllocError> {
    let row = meaning_of(rule.pred);
    if row.reified {
        return Ok(None);
    }
    let args = arguments(rule);
    let (x, y, z) = (one_at(args, 0), one_at(args, 1), one_at(args, 2));
    match row.meaning {
        Meaning::SumEqual => of_items(alloc, numbers_at(args, 0), items_at(args, 1), z, true),
        Meaning::SumAtMost => of_items(alloc, numbers_at(args, 0), items_at(args, 1), z, false),
        Meaning::AtMost => of_items(alloc, &[1, -1], &[x, y], Arg::Num(0), false),
        Meaning::Below => of_items(alloc, &[1, -1], &[x, y], Arg::Num(-1), false),
        Meaning::Plus => of_items(alloc, &[1, 1, -1], &[x, y, z], Arg::Num(0), true),
        _ => Ok(None),
    }
}
