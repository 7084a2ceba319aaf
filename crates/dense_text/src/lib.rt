//! The text of dense certificates.
//!
//! A certificate is written line by line: the version of the text, the outcome, the given tuples, and the lines of its tree from
//! top to bottom (`dense_tree`). Each certificate has one text, and no text begins another.
//!
//! `Piece` is a piece of such a text that is read as a whole: the first two lines, the beginning of a line with a tuple, each value
//! of a tuple by itself, and every other line. Which pieces may come depends on the piece before, and where a part of a tree ends
//! on whether a branch is open: its next case comes then, and else the text has ended (`specs/Grammar`). So the branches that are
//! open are counted, and nothing more is kept of them.
//!
//! Text is read byte by byte, and a line of a tree or a value of a tuple at once where all its bytes are there (`whole_line`).
#![tactic(auto)]

mod laws;
mod lines;
mod part;
mod parts;
mod piece;
mod reader;
mod slot;
mod whole_line;

pub use laws::{
    bytes_are_one_certificate_or_have_one_fault, each_standing_is_right,
    each_text_is_of_one_certificate, no_piece_begins_another, no_text_begins_another,
    pieces_are_of_one_certificate, pieces_spell_certificates,
};
pub use piece::{Piece, Tuple};
pub use reader::{DenseReader, End, Fed};
