//! What a box says of the values in it, in words of lists of lemmas: that what it refutes doesn't hold, that what
//! it keeps does, and so with the sums that a lemma knows.
#![tactic(auto)]

mod laws;

pub use laws::boxes_tell_of_values;
