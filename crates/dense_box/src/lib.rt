//! What the lines of dense certificates ask of a box, and what they do to it.
//!
//! The checker's box is that of a store with a trail (`check_box`). Each function here decides exactly what a definition of
//! `dense_tree` says, over the game, the number of a scope and the box: whether constraints hold throughout the box or one
//! fails in it (`all_entailed`, `some_refuted`), whether values are a tuple of a scope, and the box with that tuple taken
//! (`is_tuple`, `take_tuple`), whether a scope's values are single (`is_fixed`), whether a tuple may be given
//! (`may_give`), in which scopes the opponent is never stuck, and which constraints are in force (`Freedom`), the best value
//! left to what is demanded first (`best_left`), the two steps that aren't closings, a bound (`Wishes::bound`) and a reply
//! (`reply`), and the ends and branches that ask for a box alone (`may_be_barred`, `may_go_on`, `choose`, `may_branch`,
//! `best_end`, `keep_case`). None but `Freedom::new` and `Wishes::new` takes memory.
#![tactic(auto)]

mod allowed;
mod best;
mod blocks;
mod cases;
mod constraints;
mod ends;
mod fixed;
mod freedom;
mod given;
mod laws;
mod replies;
mod taking;
mod tuples;
mod wish;
mod wishes;

pub use best::best_left;
pub use cases::keep_case;
pub use constraints::{all_entailed, is_entailed_throughout, some_refuted};
pub use ends::{
    best_end, choose, is_free_choice, may_be_barred, may_branch, may_go_on, needs_restriction,
};
pub use fixed::{is_fixed, is_single};
pub use freedom::Freedom;
pub use given::may_give;
pub use laws::lists_follow;
pub use replies::reply;
pub use taking::take_tuple;
pub use tuples::is_tuple;
pub use wishes::Wishes;
