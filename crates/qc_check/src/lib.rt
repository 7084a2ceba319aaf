//! Checks the bytes of a certificate against its problem, piece by piece.
//!
//! A `Checker` reads the bytes in their order, at once where they are a whole line of the certificate's tree, and else
//! one by one. Each line, as its last byte comes, is handed to a machine that keeps a box on its trail and what is open,
//! and nothing of the lines before. So the memory that a check takes doesn't grow with the certificate. At the end it says
//! what the bytes come to: yes exactly where they are a certificate that proves what it states, and then what it states
//! is so; or that it doesn't prove that; or the first place at which the bytes are no certificate, or are nested too deep.
//!
//! A `Space` says the same of certificates that are kept as trees: it walks a tree and hands its lines to such a machine.
#![tactic(auto)]

mod check;
mod checker;
mod finding;
mod giving;
mod keeping;
mod progress;
mod shown;
mod space;
mod starts;
mod stated;
mod turns;

pub use finding::{Answer, Checked, Fed};
pub use progress::Checker;
pub use space::Space;
