//! The text of lists of lemmas.
//!
//! A list is written line by line: the version of the text, who wins the game, and then each lemma by a line
//! with its literals, a line for each sum, a line for each step and one for its end. Each list has one text.
//!
//! `Item` is a piece of such a text that is read as a whole: the first two lines, the beginning of a lemma, each
//! of its literals by itself, and every other line. `read_numeral` reads the numbers of lines, for other texts too.
#![tactic(auto)]

mod item;
mod laws;
mod numeral;
mod part;
mod parts;
mod reader;
mod slot;
mod spell;

pub use item::Item;
pub use laws::{
    bytes_are_one_list_or_have_one_fault, each_standing_is_right, each_text_is_of_one_list,
    items_spell_lists, no_piece_begins_another,
};
pub use numeral::{NumeralNext, read_numeral};
pub use parts::{Field, Numeral};
pub use reader::{End, Fed, LemmaReader};
pub use spell::{ROOM, spell_item};
