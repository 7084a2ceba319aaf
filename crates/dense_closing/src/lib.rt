//! The greatest closed box within a box, and trees in which closing stands in place of the removals that lead to it.
//!
//! A box is closed for a list of constraints where no domain is empty and none of them refutes it with one of its own variables
//! kept to its least or to its greatest value left. An end that a constraint refutes is in no closed box within, so however such
//! ends are removed, what comes of it is the greatest closed box, or an empty domain where there is none. So a tree need not
//! spell removals out: a line `c` stands for them, and so do an end `e` and a horizon `h K`, where there is none (`Expanded`).
//! What such a tree proves is what the tree proves that it stands for, and each law is the contract of a function without
//! parameters.
#![tactic(auto)]

mod laws;

pub use laws::{
    closed_by_all_is_closed, closing_is_legal, closing_leads_to_it, closing_tells_of_plays,
    dense_outcomes_are_true, ends_lead_to_it, greatest_is_one, lines_mean_closing,
    refuted_ends_may_go,
};
