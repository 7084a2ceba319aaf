//! Lists of lemmas: certificates of plain games as a search leaves them that learns from conflicts.
//!
//! A lemma says that one side loses wherever some literals hold. It is shown by steps that leave ever
//! fewer values to the variables, until nothing is left, or what is left is lost by a constraint, by an
//! earlier lemma or by the goal. The last lemma of a list has no literals, so it says who wins the game.
//!
//! `specs/` says what a list consists of (`Lemmas`), who chooses what and where a lemma stands (`Places`),
//! when literals and sums hold and what is known of them in a box (`Literals`, `Sums`), when a box entails a
//! constraint (`Entailment`), what a reason shows (`Reasons`), when a lemma is in place and what a list
//! proves (`InPlace`), and what a lemma says of the game (`Claims`). That lists are right is the law of
//! `lemma_laws`.
#![tactic(auto)]

mod lemma;

pub use lemma::{Ending, Lemma, LemmaId, Literal, Reason, Step, SumLiteral};
