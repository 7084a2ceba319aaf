//! The grammar of a problem text, from its tokens.
//!
//! `read_items` reads the parts of a text, with their places. Where the tokens are no problem text, it
//! answers the place of the first token that can't stand there, whatever might follow it.
#![tactic(auto)]

mod aggregate;
mod argument;
mod constraint;
mod fault;
mod head;
mod laws;
mod lexeme;
mod members;
mod part;
mod read;
mod reader;
mod tree;
mod variable;
mod words;

pub use fault::GrammarFault;
pub use laws::{others_stop_at_one_place, texts_are_read_in_one_way};
pub use lexeme::Lexeme;
pub use read::read_items;
pub use tree::{
    ArgumentList, ArgumentText, ConditionText, DomainText, FoldText, Item, Members, Number,
    NumberList, One, OneList, Word,
};
