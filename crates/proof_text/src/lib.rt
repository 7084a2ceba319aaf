//! The text of certificates.
//!
//! A certificate is written line by line: its outcome, and then its tree, whose parts each begin with
//! a letter. Each certificate has one text.
//!
//! `write_cert` writes it and `read_cert` reads it, as a whole. `LineReader` reads byte by byte and
//! without memory, and tells each line when it ends.
#![tactic(auto)]

mod answer;
mod fault;
mod front;
mod laws;
mod letters;
mod levels;
mod lines;
mod numeral;
mod part_fault;
mod part_line;
mod parts;
mod ranges;
mod read;
mod reader;
mod scan;
mod walk;
mod whole_line;
mod write;

pub use answer::Read;
pub use fault::CertFault;
pub use laws::{
    bytes_are_one_text_or_have_one_fault, each_byte_has_one_answer,
    each_text_is_of_one_certificate, no_text_begins_another,
};
pub use proof_tree::Line;
pub use read::read_cert;
pub use reader::{LineReader, each_standing_is_right};
pub use write::write_cert;
