//! The filter of integers that are to differ.
//!
//! A range of numbers is full where as many items lie in it as it has numbers. No other item can have a value there. So a
//! variable that begins or ends in a full range without lying in it loses what it has there up to the range's end. Where
//! no such variable is left, and no range holds too many items, no end of a variable is refuted.
#![tactic(auto)]

mod filtering;
mod ranges;
mod rounds;
mod walk;

pub use filtering::filter_different;
