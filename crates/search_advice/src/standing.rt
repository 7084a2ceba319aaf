//! How far the advice for a scope is trusted.
use crate::tuples::KEPT;

/// How far advice is trusted before it was tried. At 0 it is asked no more.
const FIRST_TRUST: u8 = 4;

/// How much advice can be trusted.
const MOST_TRUST: u8 = 32;

/// What a try that fails costs of the trust, where one that serves earns 1.
const LOST_TRUST: u8 = 2;

/// How many positions of a scope are kept before it is asked whether that serves.
const FIRST_NOTES: u32 = 1024;

/// How far the order of values by the last tuples is trusted before it was tried, and how much it can be.
const FIRST_ORDER: u8 = 16;

const MOST_ORDER: u8 = 64;

/// At so many branches another value than the first may go first in vain, until the scope is settled again.
const MOST_IN_VAIN: u32 = 4096;

/// One in so many of the positions that are kept has to have been met before, else no more are.
const LEAST_SHARE: u32 = 8;

/// Where the tuple comes from that is tried.
#[derive(Clone, Copy)]
pub(crate) enum Source {
    /// None is tried.
    Nowhere,
    /// It ended the same position before.
    Position,
    /// It is one of the last that ended nodes of the scope.
    Last,
    /// It is the one at this place of those that are kept with what came of them.
    Rated(usize),
    /// It follows the signs of literals.
    Signs,
}

/// What is known of one scope's advice.
#[derive(Clone, Copy)]
pub(crate) struct Standing {
    /// Whether some tuple ended a node of the scope.
    pub(crate) is_known: bool,
    /// Which tuple is tried at the node, and which of the last tuples is the first that may be tried after it.
    pub(crate) source: Source,
    pub(crate) next: usize,
    /// How far the last tuple is trusted, and those of positions.
    pub(crate) last: u8,
    pub(crate) kept: u8,
    /// How far the signs of literals are, where no tuple ended a node yet.
    pub(crate) signs: u8,
    /// How far the order of values by the last tuples is trusted.
    order: u8,
    /// At how many branches another value than the first went first in vain, since the scope was settled last.
    vain: u32,
    /// How many positions were kept, and how many of them had been met before.
    notes: u32,
    met: u32,
    /// Whether the last one had.
    was_met: bool,
    /// The number of the position that the search is at, where a tuple may be kept for it.
    pub(crate) position: Option<u64>,
    /// How many nodes were begun, and whether the latest tuple is tried again at the last of them.
    pub(crate) node: u64,
    pub(crate) is_again: bool,
    /// Whether tuples are chosen by what came of them: the scope above could outdo this one where one was tried.
    pub(crate) is_rated: bool,
}

impl Standing {
    /// No tuple is known, and signs aren't trusted.
    pub(crate) fn new() -> Standing {
        Standing {
            is_known: false,
            source: Source::Nowhere,
            next: 0,
            last: FIRST_TRUST,
            kept: FIRST_TRUST,
            signs: 0,
            order: FIRST_ORDER,
            vain: 0,
            notes: 0,
            met: 0,
            was_met: false,
            position: None,
            node: 0,
            is_again: false,
            is_rated: false,
        }
    }

    /// From now on signs are trusted, until a tuple is known.
    pub(crate) fn trust_signs(&mut self) {
        self.signs = FIRST_TRUST;
    }

    /// Whether values go in the order of the last tuples.
    pub(crate) fn has_order(&self) -> bool {
        self.order > 0
    }

    /// Whether it may still serve to go into another value than the first at a branch.
    pub(crate) fn is_hopeful(&self) -> bool {
        self.vain < MOST_IN_VAIN
    }

    /// Learns whether the value that went first at a branch settled the scope, or another one did after it.
    pub(crate) fn tell_order(&mut self, served: bool) {
        if let Source::Last = self.source {
            self.order = if served {
                self.order.saturating_add(1).min(MOST_ORDER)
            } else {
                self.order.saturating_sub(LOST_TRUST)
            };
        }
    }

    /// Learns that at a branch another value than the first went first, and that none settled the scope.
    pub(crate) fn tell_in_vain(&mut self) {
        self.vain = self.vain.saturating_add(1);
    }

    /// Learns that a tuple ended a node of the scope.
    pub(crate) fn tell_ended(&mut self) {
        self.is_known = true;
        self.vain = 0;
    }

    /// Whether tuples of positions are kept, and asked for.
    pub(crate) fn keeps_positions(&self) -> bool {
        self.kept > 0 && (self.notes < FIRST_NOTES || self.met >= self.notes / LEAST_SHARE)
    }

    /// Learns that a tuple is kept for a position, and whether that had been met before.
    pub(crate) fn note(&mut self, is_met: bool) {
        self.notes = self.notes.saturating_add(1);
        self.was_met = is_met;
        if is_met {
            self.met = self.met.saturating_add(1);
        }
    }

    /// From now on this one of the last tuples is tried, or none.
    pub(crate) fn take(&mut self, allowed: Option<usize>) {
        self.source = match allowed {
            Some(_) => Source::Last,
            None => Source::Nowhere,
        };
        self.next = match allowed {
            Some(k) => k.saturating_add(1),
            None => KEPT,
        };
    }

    /// From now on the tuple at this place of those that are kept with what came of them is tried, or none.
    pub(crate) fn take_rated(&mut self, place: Option<usize>) {
        match place {
            Some(k) => self.source = Source::Rated(k),
            None => {
                self.source = Source::Nowhere;
                self.next = KEPT;
            }
        }
    }

    /// Learns whether a try served. A tuple that served was kept just now; it was one of a position where that had been met. Where
    /// the scope above can outdo this one, a tuple that fails costs one case of many, and is no reason to ask no more.
    pub(crate) fn tell(&mut self, served: bool, has_rival: bool) {
        match self.source {
            Source::Nowhere => {}
            Source::Signs => self.signs = trusted_then(self.signs, served),
            _ if has_rival && !served => {}
            Source::Position if self.was_met || !served => {
                self.kept = trusted_then(self.kept, served);
            }
            Source::Position => self.last = trusted_then(self.last, served),
            Source::Last => self.last = trusted_then(self.last, served),
            Source::Rated(_) => self.last = trusted_then(self.last, served),
        }
    }
}

/// The trust after a try.
fn trusted_then(left: u8, served: bool) -> u8 {
    if !served {
        return left.saturating_sub(LOST_TRUST);
    }
    if left < MOST_TRUST { left + 1 } else { left }
}
