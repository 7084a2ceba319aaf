//! Lemmas as the search keeps them.
use lemma_ground::{Boxes, Why};
use qc_model::{ConId, Kind, VarId};
use std::alloc::{AllocError, Global};

/// The values from `lo` to `hi`.
#[derive(Clone, Copy, PartialEq, Eq)]
pub struct Range {
    pub lo: i64,
    pub hi: i64,
}

/// A variable has a value from `lo` to `hi`, and where there are ranges, in one of these, which ascend.
#[derive(Drop)]
pub struct Condition {
    pub x: VarId,
    pub lo: i64,
    pub hi: i64,
    pub ranges: Vec<Range>,
}

/// The variables that a linear constraint has in scopes before the last one that the lemma speaks of come to a sum from
/// `lo` to `hi`.
#[derive(Clone, Copy, PartialEq, Eq)]
pub struct SumCondition {
    pub c: ConId,
    pub lo: i64,
    pub hi: i64,
}

/// A step of a lemma's proof: values of the loser's go, or the winner takes one.
#[derive(Clone, Copy)]
pub enum Taken {
    Cut {
        x: VarId,
        lo: i64,
        hi: i64,
        why: Why,
    },
    Choose {
        x: VarId,
        v: i64,
    },
}

/// How a lemma's proof ends: no value is left to some variable, a constraint is refuted, a lemma holds, or the goal does.
#[derive(Clone, Copy)]
pub enum Finish {
    Emptied,
    Rule(ConId),
    Lemma(usize),
    Goal,
}

/// A lemma: the loser loses at the position before scope `place` where the conditions and sums hold. It comes with the steps
/// that show it, and how they end. Two of its conditions are watched.
#[derive(Drop)]
pub struct Known {
    pub loser: Kind,
    pub place: usize,
    pub conditions: Vec<Condition>,
    pub sums: Vec<SumCondition>,
    pub taken: Vec<Taken>,
    pub finish: Finish,
    pub activity: u64,
    pub is_dead: bool,
    pub first: usize,
    pub second: usize,
}

/// Of the values left to a condition's variable all meet it, some do, or none.
#[derive(Clone, Copy, PartialEq, Eq)]
pub enum Outlook {
    Met,
    Open,
    Void,
}

impl Known {
    /// A lemma that wasn't of use yet.
    pub fn new(
        loser: Kind,
        place: usize,
        conditions: Vec<Condition>,
        sums: Vec<SumCondition>,
        taken: Vec<Taken>,
        finish: Finish,
    ) -> Known {
        Known {
            loser,
            place,
            conditions,
            sums,
            taken,
            finish,
            activity: 0,
            is_dead: false,
            first: 0,
            second: 0,
        }
    }
}

impl Condition {
    /// The condition once more.
    pub fn copied(&self, alloc: Global) -> Result<Condition, AllocError> {
        let mut ranges = Vec::new(alloc);
        for range in self.ranges.as_slice() {
            ranges.push(*range)?;
        }
        Ok(Condition {
            x: self.x,
            lo: self.lo,
            hi: self.hi,
            ranges,
        })
    }

    /// Whether all values left meet it, some, or none. The ends alone tell it mostly.
    #[inline]
    pub fn outlook(&self, boxes: &Boxes) -> Outlook {
        let (least, greatest) = (boxes.least(self.x), boxes.greatest(self.x));
        if greatest < self.lo || self.hi < least {
            return Outlook::Void;
        }
        if self.ranges.is_empty() {
            let (is_above, is_below) = (self.lo <= least, greatest <= self.hi);
            if is_above && is_below {
                return Outlook::Met;
            }
            if is_above || is_below {
                return Outlook::Open;
            }
        } else if self.is_met(boxes) {
            return Outlook::Met;
        }
        match self.value_of(boxes) {
            Some(_) => Outlook::Open,
            None => Outlook::Void,
        }
    }

    /// Whether each value left meets it.
    pub fn is_met(&self, boxes: &Boxes) -> bool {
        if boxes.least(self.x) < self.lo || boxes.greatest(self.x) > self.hi {
            return false;
        }
        let mut rest = self.ranges.iter();
        let Some(first) = rest.next() else {
            return true;
        };
        let mut end = first.hi;
        for range in rest {
            // no value lies between two ranges
            if let Some(v) = boxes.next(self.x, end.saturating_add(1))
                && v < range.lo
            {
                return false;
            }
            end = range.hi;
        }
        true
    }

    /// A value left that meets it.
    pub fn value_of(&self, boxes: &Boxes) -> Option<i64> {
        if self.ranges.is_empty() {
            return value_within(self.x, self.lo, self.hi, boxes);
        }
        for range in self.ranges.as_slice() {
            if let Some(v) = value_within(self.x, range.lo, range.hi, boxes) {
                return Some(v);
            }
        }
        None
    }
}

fn value_within(x: VarId, lo: i64, hi: i64, boxes: &Boxes) -> Option<i64> {
    if hi < boxes.least(x) || boxes.greatest(x) < lo {
        return None;
    }
    let v = boxes.next(x, lo)?;
    if v <= hi { Some(v) } else { None }
}
