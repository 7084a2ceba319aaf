//! What is known after each line of a dense certificate, as a pure function of the lines so far.
//!
//! `specs/Ledger` has what is kept between two lines, and what a line makes of it: nothing, where it is out of place. `specs/Held`
//! says what a ledger tells after all lines of a certificate; the law that it tells what the certificate comes to, as `dense_tree`
//! defines that, is the contract of a function without parameters. So is the law of `specs/Whole`, that lines after which the root
//! has ended are those of a certificate. A checker that goes over lines one by one shows that it keeps what a ledger has.
#![tactic(auto)]

mod laws;

pub use laws::{ended_lines_are_whole, ledgers_are_right};
