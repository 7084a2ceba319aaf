//! What the checker of lists of lemmas tests: whether reasons show lemmas in a box.
//!
//! Each function decides exactly what the definition in `lemma_list` says whose name it has. None takes memory. A box is
//! that of a store, in which each variable has a value left.
#![tactic(auto)]

mod aim;
mod answers;
mod checked;
mod clauses;
mod forms;
mod kept;
mod literals;
mod picked;
mod places;
mod reasons;
mod rules;
mod spans;
mod sums;
mod terms;

pub use aim::Aim;
pub use answers::{Answers, answers_to, is_answer, is_winners, may_answer, no_answers};
pub use checked::{are_linear, is_lemma};
pub use kept::{is_entailed, is_kept, is_refuted};
pub use literals::{are_in_order, meets, some_meets, some_misses};
pub use places::{is_chosen_before, is_chosen_from, is_kind, opponent_of, place_of, side_at};
pub use reasons::{
    is_met, is_sum_shown, lemma_at, lemma_shows, reason_place, reason_shows, rule_shows, shows,
};
pub use spans::{goal_shows, goes_on};
