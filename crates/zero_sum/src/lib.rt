//! Games in which both sides care for one quantity: their optimum, shown by two games without wishes.
//!
//! Where the player makes a quantity as small as it can, the opponent makes it as great as it can, and
//! nobody wishes anything else (`specs/Stake`), a value can be had exactly where a game without wishes is
//! won: the one in which the player also has to keep the quantity from getting worse
//! (`specs/Bounded`). So the optimum is the value V for which this game is won, and the one for the next
//! better value isn't: whoever shows who wins these two has shown the optimum (`specs/Laws`).
#![tactic(auto)]

mod defaults;
mod laws;
mod made;
mod range;
mod stake;

pub use defaults::defaults_fit;
pub use laws::optimum_by_two_games;
pub use made::{NoBound, bounded};
pub use range::{greatest_declared, least_declared};
pub use stake::{Stake, stake_of};
