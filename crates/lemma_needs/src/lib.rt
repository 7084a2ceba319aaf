//! What a change or a conflict rests on: as few changes as are found.
//!
//! For a clause and a lemma these are read off. A constraint of another kind is asked what it needs: of the changes of its
//! variables one after the other is left out, as long as the others still show what is asked, on a box of their own, the
//! `Bench`. Where all that counts is what a sum comes to, that is noted beside the changes.
#![tactic(auto)]

mod asking;
mod bench;
mod marks;
mod reasons;

pub use asking::{Kept, Question, needed};
pub use bench::Bench;
pub use marks::{Marks, Need, Needs, SumUse};
pub use reasons::{
    GREATEST_SUM, LEAST_SUM, add_changes_of, ends_left_by, left_by, needed_for, needed_for_clause,
    needed_for_lemma, rests_on_others,
};
