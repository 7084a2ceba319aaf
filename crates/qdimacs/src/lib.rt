//! Quantified Boolean formulas in the QDIMACS format, as problems of the quantified constraint game.
//!
//! `read_qdimacs` reads a text in this profile of QDIMACS 1.1:
//!
//! - Lines end with a line feed or the end of the text. Blanks are spaces, tabs and carriage returns. A
//!   line whose first byte after blanks is `c` is a comment, wherever it stands. The other lines are cut
//!   at blanks into tokens.
//! - The tokens are `p cnf`, the number of variables and that of clauses, then sets, then clauses. A set
//!   is `e` or `a`, variables, and `0`; a clause is variables and negated variables, and `0`. A number is a
//!   digit from 1 to 9 and at most eight further digits; a minus and its number are one token. Sets of one
//!   quantifier may follow one another, the last may be universal, and a clause may be empty.
//!
//! The variables that stand in no set make a first existential scope, ascending, where there are any.
//! Each set is a scope, and variable N is the Boolean variable `vN`. Each clause is a `bool_clause` of
//! the goal. The player wins the problem exactly where the formula is true.
#![tactic(auto)]

mod draft;
mod excess;
mod fault;
mod free;
mod laws;
mod parse;
mod piece;
mod range;
mod read;
mod reader;
mod refuse;
mod repeated;
mod scan;
mod seen;
mod sign;
mod token;
mod tree;

pub use fault::{QdimacsFault, QdimacsKind};
pub use laws::{formulas_are_games, texts_get_one_answer};
pub use read::read_qdimacs;
