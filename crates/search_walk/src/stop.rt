//! Why a way through the game ends before its end.
ghost use Rattle.std.specs.Prelude.{◌≡◌};
ghost use Rattle.search_walk.specs.declared.stop.Stop.TheVariants.{Memory};

use std::alloc::AllocError;

/// Memory ran out; or the turns did, while a case waited for those that stand before it. That comes in the first pass alone,
/// whose lines are of no use then.
#[derive(Clone, Copy)]
pub enum Stop {
    Memory(AllocError),
    Turns,
}

impl From<AllocError> for Stop {
    ghost from_gives = { λ refused stop. stop ≡ Memory refused };

    fn from(refused: AllocError) -> Stop {
        Stop::Memory(refused)
    }
}
