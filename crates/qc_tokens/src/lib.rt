//! The tokens of a problem text.
//!
//! A text is cut from left to right into blanks, comments, words, numbers and signs. `tokens` gives
//! the words, numbers and signs with their places. It refuses a text that has a byte at which none of
//! these begins, and tells the first such byte; it refuses any other text that has a number that isn't
//! one, or is past 64 bits, and tells the first such number. It gives no other answer, but for a
//! refusal of memory.
//!
//! - Blanks are spaces, tabs, carriage returns and line feeds. A comment begins with `%` and ends
//!   before the next line feed, or at the end of the text.
//! - A word is a letter or `_`, and then the longest run of letters, digits and `_`.
//! - A number is a digit, or `-` with a digit right behind it, and then the longest run of letters,
//!   digits and `_`. It is a good one where digits alone follow the sign and its value is from -2^63
//!   to 2^63-1; zeros may lead, and `-0` is 0.
//! - Signs are `;`, `:`, `,`, `(`, `)`, `[`, `]`, `{`, `}`, `=` and `..`.
#![tactic(auto)]

mod bytes;
mod cut;
mod fault;
mod number;
mod piece;
mod scan;
mod token;

pub use fault::TokenError;
pub use scan::tokens;
pub use token::{Sort, Token};
