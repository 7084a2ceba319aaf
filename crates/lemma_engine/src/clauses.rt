//! Clauses of variables alone, which are looked at without a filter.
use crate::engine::{Cause, Choice, Conflict, Engine, Hint};
use lemma_ground::{Boxes, TruthOf, Why};
use qc_model::{ConId, Kind};
use std::alloc::AllocError;

// What a clause comes to: nothing for now, its keeper has lost, or this item alone can make it true.
#[derive(Clone, Copy)]
enum Sight {
    Settled,
    Lost,
    Last(TruthOf),
}

/// The value of a truth that isn't this one.
pub(crate) fn other_value(value: i64) -> i64 {
    if value == 1 { 0 } else { 1 }
}

fn is_true(item: TruthOf, boxes: &Boxes) -> bool {
    boxes.least(item.x) == item.value && boxes.greatest(item.x) == item.value
}

// Whether an item makes its clause true, or leaves it open beside the other one.
fn is_open(item: TruthOf, boxes: &Boxes) -> bool {
    boxes.least(item.x) != boxes.greatest(item.x)
}

/// Whether two items that were seen show that a clause has nothing to say. Where they are two, both are its keeper's.
pub(crate) fn is_hinted(hint: &Hint, boxes: &Boxes) -> bool {
    let Some(first) = hint.first else {
        return false;
    };
    if is_true(first, boxes) {
        return true;
    }
    let Some(second) = hint.second else {
        return false;
    };
    is_true(second, boxes) || is_open(first, boxes) && is_open(second, boxes)
}

impl<'p> Engine<'p> {
    fn sight_of(&mut self, c: ConId, side: Kind) -> Sight {
        let mut open: Option<TruthOf> = None;
        let mut earliest = usize::MAX;
        for item in self.facts.items_of(c) {
            let least = self.boxes.least(item.x);
            if least == self.boxes.greatest(item.x) {
                if least == item.value {
                    set_hint(&mut self.hints, c, *item, None);
                    return Sight::Settled;
                }
            } else if self.facts.side_of(item.x) == side {
                if let Some(other) = open {
                    set_hint(&mut self.hints, c, other, Some(*item));
                    return Sight::Settled;
                }
                open = Some(*item);
            } else {
                earliest = earliest.min(self.facts.scope_of(item.x));
            }
        }
        match open {
            // nothing is known of a variable that the winner chose before and that has no value here
            None => {
                if earliest < self.scope {
                    Sight::Settled
                } else {
                    Sight::Lost
                }
            }
            Some(item) => {
                if earliest < self.scope.max(self.facts.scope_of(item.x)) {
                    Sight::Settled
                } else {
                    Sight::Last(item)
                }
            }
        }
    }

    /// Looks at a clause: its keeper makes the last item true that it can; where the other side makes all others false, it
    /// has lost.
    pub(crate) fn run_clause(&mut self, c: ConId) -> Result<Option<Conflict>, AllocError> {
        let side = self.facts.rule_side(c);
        match self.sight_of(c, side) {
            Sight::Settled => Ok(None),
            Sight::Lost => Ok(Some(self.lost_clause(c, side)?)),
            Sight::Last(item) => {
                let value = other_value(item.value);
                self.remove(item.x, value, value, Why::Rule(c), side)
            }
        }
    }

    fn lost_clause(&self, c: ConId, side: Kind) -> Result<Conflict, AllocError> {
        let mut choices = Vec::new(self.alloc);
        for item in self.facts.items_of(c) {
            if !self.boxes.is_fixed(item.x) {
                choices.push(Choice {
                    x: item.x,
                    v: other_value(item.value),
                })?;
            }
        }
        Ok(Conflict {
            loser: side,
            cause: Cause::Rule(c),
            choices,
        })
    }
}

fn set_hint(hints: &mut [Hint], c: ConId, first: TruthOf, second: Option<TruthOf>) {
    if let Some(hint) = hints.get_mut(c.0 as usize) {
        hint.first = Some(first);
        hint.second = second;
    }
}
