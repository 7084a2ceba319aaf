//! The filter of items of arrays, members of sets, rows of tables, and integers that are to differ.
//!
//! Of members of sets, told or not, of numbers at places, rows of tables, and the least and the greatest of an array it is
//! found at once which numbers each variable may keep, from one to another. All others below or above go in one removal, and
//! where each end of each variable may stay nothing is left to do. Integers that are to differ go by full ranges. The other
//! predicates go end by end, which is right for each of them, and slow; so do a number at its own place, and a table in which
//! a variable stands twice.
#![tactic(auto)]

mod choices;
mod elements;
mod filtering;
mod forms;
mod greatest;
mod hulls;
mod least;
mod members;
mod others;
mod settling;
mod tables;
mod told_members;

pub use filtering::filter;
