//! Trials of certificates by two ways: as bytes and as a tree; of one that never ends; and of calls that the commands do not
//! make.
//!
//! What is read in pieces of any size comes to the same as a tree that is checked whole, and what is written of a tree has
//! the bytes that the command writes. It has nothing but tests, and stands apart from the other trials, since it stands on
//! the search, the checker, plays and the commands. What a row of texts can try stands in `test_rows`.
#![tactic(auto)]

#[cfg(test)]
mod calls;
#[cfg(test)]
mod checking;
#[cfg(test)]
mod endless;
#[cfg(test)]
mod plays;
#[cfg(test)]
mod writing;
