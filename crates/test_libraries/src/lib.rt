//! Trials of the libraries: what no clause of theirs says, and what no trial of the commands reaches.
//!
//! Each module tries the public calls of one crate. They stand in a crate of their own, since a crate with tests is
//! proved twice. It has nothing but tests. What a clause says for every input is not tried again: most calls of the
//! libraries succeed in the trials of the commands (`test_rows`), which go through all layers.
#![tactic(auto)]

#[cfg(test)]
mod intervals;
#[cfg(test)]
mod lines;
#[cfg(test)]
mod outside;
#[cfg(test)]
mod pages;
#[cfg(test)]
mod texts;
#[cfg(test)]
mod trees;
