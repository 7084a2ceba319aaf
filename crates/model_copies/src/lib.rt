//! Copies of the parts of a problem, for whoever makes one problem from another.
#![tactic(auto)]

mod copies;

pub use copies::{copy_arguments, copy_domain, copy_name};
