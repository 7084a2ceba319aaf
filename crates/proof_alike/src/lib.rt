//! Where two boxes look the same from a scope on, a tree does the same in both.
//!
//! From scope i on a variable is looked at where it belongs to scope i or a later one, where a constraint of these, or
//! of the goal, reads its value, or where a condition or an aggregate mentions it. A sum, as a + b = c too, doesn't
//! read the values of its known variables one by one, but what they come to; a clause sees whether one of them
//! satisfies it (`specs/Reading`). Boxes look the same (`AreAlike`) that leave the same to each variable that is looked
//! at, and one value to each other one, and in which each constraint from scope i on sees the same. So lines that were
//! written at one node are right at each node of the same scope whose box looks the same, below the same horizon, where
//! their removals are of variables that are looked at (`looks`). The law is the contract of a function without
//! parameters.
#![tactic(auto)]

mod laws;

pub use laws::trees_do_alike;
