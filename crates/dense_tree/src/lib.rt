//! Dense certificates: trees whose lines say less than those of the second version, and mean more.
//!
//! A line of closing stands for all removals of refuted ends, and in a game in which the opponent always has a move for those that
//! any later constraint gives. A node that is named is told again wherever the position looks the same. A scope of the player may
//! go on with several values left, and what is said below holds whichever of them are taken. `docs/dense.md` has the rules in words.
//!
//! `specs/` has the tree (`Tree`), its lines and its text (`Lines`, `Text`), how much it has of what (`Counts`), constraints that
//! hold throughout a box or nowhere in it (`Tuples`), games in which the opponent always has a move, and what is in force and may
//! be taken there (`Free`), where a node stands (`Place`), when two nodes are alike (`Alike`), steps (`Steps`), what nodes come to
//! (`Verdicts`), which lines are in place (`InPlace`), one reading from top to bottom that tells both (`Read`), and what a
//! certificate proves (`Proves`). `proofs/` works each rule on games that one can follow by hand: certificates that prove, others
//! that are just wrong, and those that looser rules would believe (`Counterexamples`). No law is proved here.
#![tactic(auto)]
