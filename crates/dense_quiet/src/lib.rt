//! What one reading of a constraint tells of a box. Nothing here changes a box, or takes memory.
//!
//! A closing takes ends of what is left to variables: those with which a constraint refutes the box. To ask a constraint of each end of
//! each of its variables takes as many tests as there are ends, and mostly it refutes none. Then one reading of what is left to its
//! arguments mostly tells so: the constraint is *quiet*. Where it isn't, the same reading mostly tells how far each variable can go. Only
//! constraints in which no variable stands twice are read so, and only ends that the constraint may take (`Taking`) count.
//!
//! `see` reads a constraint. It says that it is quiet; or that it refutes the box; or that it is a sum that is to be at most a number,
//! and how far it is from it; or how far its variables can go (`Advice`); or nothing, and then each end is to be asked of. How a
//! constraint is read goes by its kind:
//!
//! - A linear constraint has room: how far its sum is from its bound. Where the ends of each term are nearer to each other than that, it
//!   refutes no end (`slack`, `summing`). Else a division tells how far each variable can go, and what lies past that is refuted, by a
//!   law (`factor_at`, `is_free`, `past_least`, `past_greatest`). Once that is gone a sum that is to be at most a number is quiet
//!   (`is_quiet_term`, `past_room`).
//! - Items that are to differ are quiet unless some of them fill numbers among which an end of another lies (`differing`). Then these
//!   numbers are the advice.
//! - Comparisons, sums and products of two numbers (`relating`, `equality`), items of arrays (`elements`, `items`), clauses (`clauses`)
//!   and comparisons with their truth (`told`) are quiet where the ends of what is left to their arguments tell so (`quiet`). Else these
//!   give a guess, but for comparisons with their truth.
//!
//! What filled numbers and ends tell of a variable is a guess (`kept_beside`, `kept_by_ends`), of which mostly nothing is promised: what
//! lies outside it goes only where the constraint, asked once, refutes it. It is sure of arrays of numbers, of the sum of two numbers, and
//! of filled numbers where the items that fill them are counted (`filling`): then what lies outside goes without asking.
#![tactic(auto)]

mod clauses;
mod differing;
mod elements;
mod ends;
mod equality;
mod filling;
mod guessing;
mod items;
mod moving;
mod quiet;
mod reading;
mod relating;
mod seeing;
mod slack;
mod stretch;
mod summing;
mod taking;
mod told;

pub use filling::kept_beside;
pub use guessing::kept_by_ends;
pub use moving::{factor_at, is_free, past_greatest, past_least, past_room};
pub use seeing::{Advice, Seen, see};
pub use slack::{Room, is_quiet_term};
pub use stretch::{Kept, Stretch};
pub use taking::{Taking, is_universal, may_take, owner_of};
