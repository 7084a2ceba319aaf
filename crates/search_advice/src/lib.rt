//! What a search tries next.
//!
//! A search goes over the values of a scope in order. Mostly one tuple ends a node, and it is one that ended such a node before, or
//! one that a free search finds sooner. So `Advice` is told how nodes ended, and asked at each of them: `enter` begins a node, and
//! may find the best value of what is sought there; `choose` chooses the tuple that is tried next, and `value` is what a variable
//! takes in it; `note`, `tell` and `leave` tell what came of it.
//!
//! What is tried is proved by the search as any case is, so bad advice costs turns and time, and nothing else. Nothing is
//! promised of a tuple but that each value of it that is taken is left.
#![tactic(auto)]

mod advice;
mod bests;
mod looks;
mod positions;
mod rated;
mod signs;
mod standing;
mod tuples;

pub use advice::Advice;
pub use bests::Sought;
