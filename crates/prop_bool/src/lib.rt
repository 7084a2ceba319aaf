//! The filter of constraints on truth values.
//!
//! Comparisons go by the filters that they share with integers. Clauses, also those that are told whether they hold,
//! conjunctions and disjunctions all say of some literals that a head holds where one of them does, and fails where none
//! does: a look over the literals finds what the head leaves to them, or they to the head. A parity leaves something to be
//! removed where one variable is unfixed. Each look goes over the arguments once and asks the store alone.
//!
//! End by end, which is right for each predicate and slow, go comparisons that are told whether they hold, a told clause
//! whose head is negated in it, and a parity whose one unfixed variable stands twice.
#![tactic(auto)]

mod acting;
mod chances;
mod disjunctions;
mod filtering;
mod findings;
mod literals;
mod outcomes;
mod parities;
mod predicates;
mod tallies;

pub use filtering::filter;
