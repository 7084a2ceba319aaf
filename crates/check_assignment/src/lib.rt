//! A value for each variable, changed one by one, and whether constraints hold on the values.
//!
//! A checker goes through tuples in an order in which few values change from one to the next. So of each sum that is
//! compared with a number its balance is kept, and moved as a value changes; and of each constraint whether it is known to
//! hold, which is forgotten where one of its variables changes. So whether constraints hold costs a look at each, and an
//! evaluation of those that a change touched, which for a sum is one comparison.
#![tactic(auto)]

mod assignment;
mod begin;
mod standing;
mod term;
mod terms;
mod test;

pub use assignment::Assignment;
