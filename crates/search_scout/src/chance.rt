//! Numbers that vary, with no source outside.

/// A generator of numbers by shifts: the same numbers in each run.
#[derive(Clone, Copy)]
pub(crate) struct Chance {
    state: u32,
}

impl Chance {
    pub(crate) fn new() -> Chance {
        Chance {
            state: 2_463_534_242,
        }
    }

    /// A number below `count`, or 0 where that is 0.
    pub(crate) fn below(&mut self, count: u32) -> u32 {
        self.step();
        if count == 0 {
            return 0;
        }
        self.state % count
    }

    fn step(&mut self) {
        let mut state = self.state;
        state ^= state << 13;
        state ^= state >> 17;
        state ^= state << 5;
        self.state = state;
    }
}
