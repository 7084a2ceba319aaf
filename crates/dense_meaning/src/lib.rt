//! What a verdict says in a box in which variables of earlier scopes may have several values: that it is so at
//! every position in the box. The rules of dense certificates are laws of this one relation, `Throughout`
//! (`specs/Throughout.antt`); trees stand nowhere here.
//!
//! Nothing is searched or computed when a program runs. Each function has an empty body, and its contract
//! states laws. Rules that are wrong stand among the proofs, in `Counterexamples`.
#![tactic(auto)]

mod laws;

pub use laws::{
    boxes_keep_all_plays, boxes_may_shrink, choices_may_wait, leaves_conclude, lost_by_plays,
    lost_parts_are_entered, moves_may_go_anywhere, play_ends, targets_are_bounded,
    values_may_be_split, values_may_go, verdicts_may_weaken, verdicts_tell_of_positions,
};
