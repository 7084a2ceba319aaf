//! Problems that are made from a number, to try and to measure a solver with: network pricing.
//!
//! A leader sets the tolls of three links. Each of twelve customers belongs to one link, and takes it, another one, or a
//! way without a toll, whichever costs it least; the leader wants the most income. The number says how much each link is
//! worth to its customers, and how often each of them passes. The optimum is known beforehand: the sum over the links of
//! its gap times the demands of its customers.
#![tactic(auto)]

mod draft;
mod figures;
mod make;

pub use make::generated;
