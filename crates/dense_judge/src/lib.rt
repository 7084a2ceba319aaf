//! Checks the bytes of a dense certificate against its problem, piece by piece.
//!
//! A `DenseChecker` reads the bytes in their order. Pieces are gathered to lines, and each line, as its last byte comes, is handed
//! to a machine that keeps what is open and the nodes that have names. At the end it says what the bytes come to: yes exactly where
//! they are the text of a certificate that proves what it states, and then what it states is so; or that it doesn't prove that; or
//! the first place at which the bytes are no such text. A line out of place is no fault: the text is still read to its end.
#![tactic(auto)]

mod checker;
mod finding;
mod gather;
mod heads;
mod laws;
mod outcome;
mod progress;
mod values;

pub use finding::Checked;
pub use laws::pieces_gather_to_lines;
pub use progress::DenseChecker;
