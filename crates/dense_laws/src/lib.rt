//! What a dense certificate that proves its outcome says of the game is so.
//!
//! `specs/` has what is carried down to each place of a tree (`Stands`), what nodes, parts of a scope's own tree and references say,
//! and what a certificate that proves means (`Says`), and the law (`Laws`). `proofs/` has the rules, line by line, the induction over
//! the tree (`Trees`) and what a certificate says (`Root`). `docs/dense.md` tells in words which file has which rule.
//!
//! Nothing is searched or computed when a program runs. The function has an empty body, and its contract states the law.
#![tactic(auto)]

mod laws;

pub use laws::certificates_are_true;
