//! Steps without those on which the empty domain at their end doesn't depend.
//!
//! Steps that close a box may end with an empty domain, and then most of them don't matter. They are gone through
//! backward with the variables that are wanted, at first the last step's, which alone can have become empty. A removal
//! by a constraint is kept where its variable is wanted, and then all variables of the constraint are wanted before it;
//! a bound is always kept, since its mark counts, and its variable is wanted before it. What is left out changes no
//! variable that is wanted afterwards. So the steps that are kept are legal from each box from which all are, end with
//! an empty domain where all do, and have the same marks of bounds.
//!
//! It takes time of the order of the steps and the arguments of their constraints.
#![tactic(auto)]

mod slice;
mod wanted;

pub use slice::{trim, trimmed};
