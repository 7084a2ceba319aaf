//! Where the search for dense certificates stands, and what it does at a place.
//!
//! `Search` is what a search goes over, has written and has learnt: the board, the lines, tuples that settled their scope (`Hints`) or
//! were of use to bound others (`Pools`, `Replies`), nodes that are known (`KnownNodes`), and when nodes begin again (`Patience`). Its
//! functions do one thing at a place: close the box, bound it by what was reached, look ahead, find a first bound by a free search, tell
//! a node that is known again, end a node. The walk through the game is `dense_search`. Nothing is promised of the lines: a text is
//! judged when it is whole.
#![tactic(auto)]

mod ahead;
mod bounds;
mod closing;
mod endings;
mod given;
mod hints;
mod known;
mod lines;
mod patience;
mod place;
mod pools;
mod replies;
mod scouting;
mod search;
mod shape;
mod stop;

pub use ahead::{Ahead, is_dead_end, look_ahead};
pub use bounds::{Values, bound_by, bound_here, useless_values};
pub use closing::{close_here, is_open_move, nothing_left};
pub use endings::{is_opposed, is_settled, keep_alone, node_over, put_skipped, rival_below};
pub use given::given_tuples;
pub use hints::Hints;
pub use known::{KnownNode, KnownNodes};
pub use lines::Lines;
pub use patience::{Patience, wants_much};
pub use place::{DEPTH, Place, Rival, after, is_better, one_less};
pub use pools::{KnownReply, Move, Pools};
pub use replies::{Replies, Reply};
pub use scouting::found_freely;
pub use search::Search;
pub use shape::Shape;
pub use stop::Stop;
