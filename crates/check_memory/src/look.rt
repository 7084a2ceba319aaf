//! Whether it serves to look positions up.

/// So many bytes may be lost on a scope whose positions are never met again.
const FREE: u64 = 6_144;

/// How often positions of a scope were looked up, how many bytes were passed over for it, and as many bytes as are checked
/// in the time of a look.
#[derive(Clone, Copy)]
pub(crate) struct Look {
    asked: u64,
    passed: u64,
    cost: u64,
}

impl Look {
    /// None so far.
    pub(crate) fn new(cost: u64) -> Look {
        Look {
            asked: 0,
            passed: 0,
            cost,
        }
    }

    /// Whether it serves to look up one more: what was passed over, and what may be lost, makes up for all looks.
    pub(crate) fn serves(&self) -> bool {
        self.asked.saturating_mul(self.cost) <= self.passed.saturating_add(FREE)
    }

    pub(crate) fn tell_asked(&mut self) {
        self.asked = self.asked.saturating_add(1);
    }

    pub(crate) fn tell_met(&mut self, size: usize) {
        self.passed = self.passed.saturating_add(size as u64);
    }
}
