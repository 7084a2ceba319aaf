//! The filters of all families that are built, as one.
#![tactic(auto)]

mod families;

pub use families::Families;
