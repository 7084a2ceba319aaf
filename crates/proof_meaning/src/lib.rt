// What a certificate that proves its outcome says of the game, whatever the game demands: conditions,
// aggregates, bounds, horizons and cases left out. Each law is the contract of a function without
// parameters.
#![tactic(auto)]

mod laws;

pub use laws::{
    fair_boxes_are_handed_on, horizons_block, nodes_mean_their_verdicts, outcomes_are_true,
    root_means_its_verdict, trees_answer_all_tuples,
};
